// Round two on a server's table: the refusal, the verdict, and what it does to the table. An accepted return awaits its entry, a
// rejected one is decided. The definitions that the contracts cite are those of the crate rules, at document 01's setting, and of
// specs/. A refusal leaves the table as it was.
#![tactic(auto)]

ghost use Rattle.std.specs.Prelude.{◌≡◌};
ghost use Rattle.records.specs.Refusals.{fault_of};
ghost use Rattle.rules.specs.Settings.{document01};
ghost use Rattle.rules.specs.Messages.{both_zero};
ghost use Rattle.round_message.specs.Rounds.{Summable};
ghost use Rattle.waiting.specs.Changes.{lent};
ghost use Rattle.rounds.specs.Waits.{Sharing};
ghost use Rattle.round_two.specs.Two.{two_fault_at, accepted_slot};
ghost use Rattle.round_two.specs.Calls.{RoundTwo};

use layout::Table;
use records::Refusal;
use round_message::{LENGTH_TWO, Round};
use rounds::named::{find, numbers_at};
use rounds::own::sigma_of;
use slots::{Change, Slot};
use table::deciding::decide;
use waiting::writing::records;
use waiting::{Stage, Waiting};

// What round two comes to: the record that changes, and the verdict.
#[derive(Clone, Copy)]
pub struct Decision {
    pub change: Change,
    pub accepted: bool,
}

// Checks the joined messages.
fn check_two(joined: &[u8], k: Table, w: Waiting, ns: &[u32]) -> Result<(), Refusal>
    requires { Sharing k ns.now w.rh w.d w.e }
    ensures { fault_of result ≡ two_fault_at k w ns.now joined.now }
{
    let sigma = sigma_of(k, ns, w.rh, w.d, w.e);
    let mut mine = [0u8; LENGTH_TWO];
    round_message::write_two(&mut mine, w.id, k.own as u8, sigma, w.tau);
    round_message::check_round(joined, k.servers, Round::Two, w.id, k.own, &mine)
}

// The verdict on a return: whether both sums are 0.
fn verdict(joined: &[u8], servers: u32) -> bool
    requires { Summable servers 35 joined.now }
    ensures { result ≡ both_zero document01 servers joined.now }
{
    round_message::element_sum(joined, servers, Round::Two, 0) == 0
        && round_message::element_sum(joined, servers, Round::Two, 1) == 0
}

// The record of a return that is accepted: as it was, but in the stage that awaits its entry.
fn accepted_slot(w: Waiting) -> Slot
    ensures { result ≡ accepted_slot w }
{
    Slot {
        id: w.id,
        stage: Stage::AwaitsEntry as u32,
        r: w.r,
        s: w.s,
        d: u64::from(w.d),
        e: u64::from(w.e),
    }
}

// Takes the joined messages of round two for an id: an accepted return only changes its stage, a rejected one is decided.
pub fn round_two(
    table: &mut [u8],
    list: [Slot; 8],
    numbers: &mut [u32],
    id: u32,
    joined: &[u8],
) -> Result<Decision, Refusal>
    ensures { RoundTwo (lent table.old list numbers.old) id joined.now
        result table.new numbers.new }
{
    let named = find(table, list, numbers, id, Stage::AwaitsTwo)?;
    let k = named.table;
    check_two(joined, k, named.waiting, numbers_at(numbers, k, named.at))?;
    let accepted = verdict(joined, k.servers);
    let change = if accepted {
        records(named.at, accepted_slot(named.waiting))
    } else {
        decide(table, k, numbers, named.at, 0, id)
    };
    Ok(Decision { change, accepted })
}
