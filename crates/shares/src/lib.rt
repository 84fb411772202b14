// Taking a share. The definitions that the contracts cite are those of the crate rules, at document 01's setting, and
// of specs/. A refusal leaves the table and the buffer as they were.
#![tactic(auto)]

ghost use Rattle.std.specs.Prelude.{◌≡◌, ◌+◌, ◌≤◌, length};
ghost use Rattle.words.specs.Bytes.{splice};
ghost use Rattle.rules.specs.Settings.{document01};
ghost use Rattle.rules.specs.Messages.{round_length};
ghost use Rattle.rules.specs.Table.{columns_in};
ghost use Rattle.share_message.specs.Shares.{share_at};
ghost use Rattle.snip.specs.Judged.{judged_of};
ghost use Rattle.waiting.specs.Changes.{lent};
ghost use Rattle.shares.specs.Calls.{Shares};
ghost use Rattle.shares.specs.Taking.{Judgeable, Brought, Takable, Takes};

use layout::Table;
use layout::places::sheet_part;
use records::Refusal;
use round_message::LENGTH_ONE;
use share_checks::check_share;
use slots::{Change, Slot};
use snip::judging::{Judged, Shape, judge};
use waiting::Stage;
use waiting::writing::{Sent, read_share, records, write_last};

// What the server works out from the elements xs of a share with the pair r, s.
fn judged(t: &[u8], k: Table, xs: &[u32], r: u32, s: u32) -> Judged
    requires { Judgeable t.now k xs.now r s }
    ensures { result ≡ judged_of (columns_in document01 t.now) k.own xs.now r s }
{
    let shape = Shape {
        entries: k.entries,
        gates: k.gates,
        tests: k.tests,
    };
    judge(sheet_part(t, k.sheet), shape, k.own, xs, r, s)
}

// Reads the elements that the message m of a share of `size` elements brings into the numbers from `start`: x are their bytes, or the
// seed.
fn read_brought(numbers: &mut [u32], start: usize, m: &[u8], x: &[u8], size: usize)
    requires { Brought size m.now x.now × (start + size ≤ length numbers.old) }
    ensures { numbers.new ≡ splice numbers.old start (share_at size m.now) }
{
    if share_message::brings_seed(m) {
        let end = start + size;
        let id = share_message::id_of(m);
        seeds::fill_elements(x, id, &mut numbers[start..end]);
        return;
    }
    read_share(numbers, start, x, size);
}

// Takes a share m, of which x are the element bytes or the seed, that is not refused: it waits for round one in the first free record,
// its elements stand in the numbers of that place, with r h(r) and tau behind them, and the message of round one is written.
fn take(
    table: &[u8],
    list: [Slot; 8],
    numbers: &mut [u32],
    k: Table,
    m: &[u8],
    x: &[u8],
    r: u64,
    s: u64,
    out: &mut [u8],
) -> Change
    requires { Takable (lent table.now list numbers.old) k m.now x.now r s × (round_length document01 34 ≤ length out.old) }
    ensures { Takes (lent table.now list numbers.old) m.now r s out.old
        result numbers.new out.new }
{
    let at = waiting::free_place(list).unwrap();
    let size = k.share_size();
    let start = k.place_size() * at;
    let end = start + size;
    read_brought(numbers, start, m, x, size);
    let j = judged(table, k, &numbers[start..end], r as u32, s as u32);
    write_last(numbers, end, j.rh, j.tau);
    let id = share_message::id_of(m);
    round_message::write_one(out, id, k.own as u8, j.d, j.e, r as u32, s as u32);
    let slot = Slot {
        id,
        stage: Stage::AwaitsOne as u32,
        r,
        s,
        d: u64::from(j.d),
        e: u64::from(j.e),
    };
    records(at, slot)
}

// Takes the share message m with the pair r, s, and writes the message of round one.
pub fn share(
    table: &[u8],
    list: [Slot; 8],
    numbers: &mut [u32],
    m: &[u8],
    r: u64,
    s: u64,
    out: &mut [u8],
) -> Result<Sent, Refusal>
    ensures { Shares (lent table.now list numbers.old) m.now r s out.old
        result numbers.new out.new }
{
    let k = table::read(table, list, numbers)?;
    let x = share_message::share_part(m, k.share_size(), k.own);
    check_share(table, k, list, m, x, r, s, out.len())?;
    Ok(Sent {
        change: take(table, list, numbers, k, m, x, r, s, out),
        written: LENGTH_ONE,
    })
}
