// The checks of a share. The definitions that the contracts cite are those of the crate rules, at document 01's setting,
// and of specs/.
#![tactic(auto)]

ghost use Rattle.std.specs.Prelude.{◌≡◌, List, ℕ, ◌+◌, ◌≤◌};
ghost use Rattle.records.specs.Refusals.{fault_of};
ghost use Rattle.rules.specs.Settings.{document01};
ghost use Rattle.rules.specs.Server.{share_refusal};
ghost use Rattle.rules.specs.Table.{table_state};
ghost use Rattle.share_message.specs.Shares.{share_part};
ghost use Rattle.limits.specs.Sheets.{size_of};
ghost use Rattle.waiting.specs.Changes.{lent};
ghost use Rattle.share_checks.specs.Checks.{start_fault, message_fault, last_fault, Standing, Fitting};

use layout::Table;
use records::Refusal;
use round_message::LENGTH_ONE;
use slots::Slot;
use table::has_id;

// Checks the table, in which so many returns wait: it is refused where it is closed or eight wait, and full where those decided and
// those that wait are N.
fn check_start(k: Table, waiting: u32) -> Result<(), Refusal>
    requires { k.decided + waiting ≤ k.returns }
    ensures { fault_of result ≡ start_fault k waiting }
{
    if k.closed || 8 <= waiting {
        return Err(Refusal::Stage);
    }
    let taken = k.decided + waiting;
    if taken < k.returns {
        Ok(())
    } else {
        Err(Refusal::Full)
    }
}

// Checks the message of a share of `size` elements, of which x are the element bytes or the seed: its header, then its elements.
// The elements of a seed are below p.
fn check_message(m: &[u8], x: &[u8], size: usize, own: u32) -> Result<(), Refusal>
    requires { (size ≤ 774) × (x.now ≡ share_part size own m.now) }
    ensures { fault_of result ≡ message_fault size own m.now }
{
    share_message::check_header(m, size, own)?;
    if share_message::brings_seed(m) || elements::below(x, field::P) {
        Ok(())
    } else {
        Err(Refusal::Element)
    }
}

// Checks what is left: whether the id is decided or waits, the pair, and the room of the buffer.
fn check_last(
    t: &[u8],
    k: Table,
    list: [Slot; 8],
    m: &[u8],
    r: u64,
    s: u64,
    room: usize,
) -> Result<(), Refusal>
    requires { Fitting t.now k list m.now }
    ensures { fault_of result ≡ last_fault t.now k list m.now r s room }
{
    let start = k.ids_place();
    let end = start + 4 * (k.decided as usize);
    let id = share_message::id_of(m);
    if has_id(&t[start..end], id) || waiting::place_of(list, id).is_some() {
        return Err(Refusal::Decided);
    }
    if !limits::pair_sound(k.gates, r, s) {
        return Err(Refusal::Pair);
    }
    if room < LENGTH_ONE {
        return Err(Refusal::Room);
    }
    Ok(())
}

// Checks a share, of which x are the element bytes or the seed, by a sound table: the refusals are in the order 11, 13, 7, 8, 10, 9,
// 14. They are the same whatever the run of numbers holds.
pub fn check_share(
    t: &[u8],
    k: Table,
    list: [Slot; 8],
    m: &[u8],
    x: &[u8],
    r: u64,
    s: u64,
    room: usize,
) -> Result<(), Refusal>
    requires { Standing t.now k list × (x.now ≡ share_part (size_of k.entries k.gates) k.own m.now) }
    ensures { (es : List ℕ)
        → fault_of result ≡ share_refusal document01 (table_state document01 (lent t.now list es)) m.now r s room }
{
    let waiting = waiting::count(list);
    check_start(k, waiting)?;
    check_message(m, x, k.share_size(), k.own)?;
    check_last(t, k, list, m, r, s, room)
}
