// Round one on a server's table: the refusal, then the record with the sums, in the stage that awaits round two, and the message
// of round two. The definitions that the contracts cite are those of the crate rules, at document 01's setting, and of specs/.
// A refusal leaves the table and the buffer as they were.
#![tactic(auto)]

ghost use Rattle.std.specs.Prelude.{◌≡◌, ◌<◌, length};
ghost use Rattle.words.specs.Bytes.{splice};
ghost use Rattle.records.specs.Refusals.{fault_of};
ghost use Rattle.field.specs.Residues.{prime};
ghost use Rattle.layout.specs.Numbers.{Limited};
ghost use Rattle.waiting.specs.Changes.{lent};
ghost use Rattle.round_one.specs.One.{one_fault_at, summed_slot, message_at, OneReady};
ghost use Rattle.round_one.specs.Calls.{RoundOne};

use layout::Table;
use records::Refusal;
use round_message::{LENGTH_ONE, LENGTH_TWO, Round};
use rounds::named::{find, numbers_at};
use rounds::own::sigma_of;
use slots::Slot;
use waiting::writing::{Sent, records};
use waiting::{Stage, Waiting};

// Checks the joined messages, then their challenges, then the room for the message that is written.
fn check_one(joined: &[u8], k: Table, w: Waiting, room: usize) -> Result<(), Refusal>
    requires { Limited k × (w.r < prime) × (w.s < prime) }
    ensures { fault_of result ≡ one_fault_at k w joined.now room }
{
    let mut mine = [0u8; LENGTH_ONE];
    round_message::write_one(
        &mut mine,
        w.id,
        k.own as u8,
        w.d,
        w.e,
        w.r as u32,
        w.s as u32,
    );
    round_message::check_round(joined, k.servers, Round::One, w.id, k.own, &mine)?;
    round_message::check_challenges(joined, k.servers)?;
    if room < LENGTH_TWO {
        return Err(Refusal::Room);
    }
    Ok(())
}

// The record of a return with the sums of the joined messages; and the own message of round two is written.
fn take_one(joined: &[u8], k: Table, w: Waiting, ns: &[u32], out: &mut [u8]) -> Slot
    requires { OneReady k w ns.now joined.now (length out.old) }
    ensures { (result ≡ summed_slot k w joined.now)
        × (out.new ≡ splice out.old 0 (message_at k w ns.now joined.now)) }
{
    let d = round_message::element_sum(joined, k.servers, Round::One, 0);
    let e = round_message::element_sum(joined, k.servers, Round::One, 1);
    let sigma = sigma_of(k, ns, w.rh, d, e);
    round_message::write_two(out, w.id, k.own as u8, sigma, w.tau);
    Slot {
        id: w.id,
        stage: Stage::AwaitsTwo as u32,
        r: w.r,
        s: w.s,
        d: u64::from(d),
        e: u64::from(e),
    }
}

// Takes the joined messages of round one for an id, and writes the own message of round two.
pub fn round_one(
    table: &[u8],
    list: [Slot; 8],
    numbers: &[u32],
    id: u32,
    joined: &[u8],
    out: &mut [u8],
) -> Result<Sent, Refusal>
    ensures { RoundOne (lent table.now list numbers.now) id joined.now out.old
        result out.new }
{
    let named = find(table, list, numbers, id, Stage::AwaitsOne)?;
    let k = named.table;
    check_one(joined, k, named.waiting, out.len())?;
    let ns = numbers_at(numbers, k, named.at);
    let slot = take_one(joined, k, named.waiting, ns, out);
    Ok(Sent {
        change: records(named.at, slot),
        written: LENGTH_TWO,
    })
}
