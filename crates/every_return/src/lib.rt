// Every legal list of values of a small sheet, one after another in rising order. They are written column by column: along
// the lists, a column's value stays for as many lists as the columns behind it have, then rises, and starts again at 0. The
// contract of `write` is an equality with rules' definitions, and asks nothing of the caller.
#![tactic(auto)]

ghost use Rattle.std.specs.Prelude.{◌≡◌, ◌+◌, ◌*◌, ◌/◌, ◌%◌, ◌≤◌, ◌<◌, length};
ghost use Rattle.words.specs.Bytes.{splice};
ghost use Rattle.records.specs.Outcome.{ok};
ghost use Rattle.records.specs.Refusals.{outcome_of};
ghost use Rattle.rules.specs.Columns.{read_sheet, columns_of};
ghost use Rattle.rules.specs.EveryReturn.{every_return_bytes};
ghost use Rattle.every_return.specs.Listing.{column_put, next_count, Writable, counted_up, listed_of, lists_out};

use records::Refusal;
use sheet::cursor;
use values::values_of;

const MAX_LISTS: u64 = 4096;

// What a call that is not refused comes to: the columns, the lists, and how many bytes were written.
#[derive(Clone, Copy, Debug, PartialEq, Eq)]
pub struct Lists {
    pub columns: usize,
    pub lists: u32,
    pub written: usize,
}

// A column's value in a list, and in how many lists it stands from there on.
#[derive(Clone, Copy)]
struct Count {
    value: u32,
    left: u32,
}

// From one list to the next: a value stands in `behind` lists, and there are `values` of them.
#[tactic(auto, unfolding(crate::specs::Listing::next_count))]
fn next_count(c: Count, behind: u32, values: u32) -> Count
    requires { c.value < values }
    ensures { result ≡ next_count behind values c }
{
    if 1 < c.left {
        return Count {
            value: c.value,
            left: c.left - 1,
        };
    }
    if c.value + 1 < values {
        return Count {
            value: c.value + 1,
            left: behind,
        };
    }
    Count {
        value: 0,
        left: behind,
    }
}

// Writes one column of all lists: its values stand at `place` of each list, and a list is `size` bytes.
fn write_column(out: &mut [u8], size: usize, place: usize, lists: u32, behind: u32, values: u32)
    requires { (place + 4 ≤ size) × (size * lists ≤ length out.old) × (0 < behind) × (0 < values) }
    ensures { out.new ≡ column_put (λ k. k / behind % values) size place out.old lists }
{
    let mut count = Count {
        value: 0,
        left: behind,
    };
    for k in 0..lists as usize {
        words::write_u32(out, size * k + place, count.value);
        count = next_count(count, behind, values);
    }
}

// Writes all lists from the front of `out`.
fn write_columns(s: &[u8], columns: usize, lists: u32, out: &mut [u8])
    requires { Writable s.now columns lists out.old }
    ensures { out.new ≡ splice out.old 0 (every_return_bytes s.now) }
{
    let size = 4 * columns;
    let mut behind = lists;
    for place in cursor::columns(s) {
        let values = values_of(place.column);
        behind /= values;
        write_column(out, size, 4 * place.before.index, lists, behind, values);
    }
}

// How many lists there are, where there are not too many.
fn count_lists(s: &[u8]) -> Result<u32, Refusal>
    requires { read_sheet s.now ≡ ok (columns_of s.now) }
    ensures { outcome_of result ≡ counted_up (columns_of s.now) }
{
    let mut total: u64 = 1;
    for place in cursor::columns(s) {
        total *= u64::from(values_of(place.column));
        if MAX_LISTS < total {
            return Err(Refusal::Many);
        }
    }
    Ok(total as u32)
}

// What the lists come to, or the first refusal where they cannot be written into a buffer of so much room.
fn judge(s: &[u8], room: usize) -> Result<Lists, Refusal>
    ensures { outcome_of result ≡ listed_of s.now room }
{
    let columns = sheet::read(s)?.columns;
    let lists = count_lists(s)?;
    let written = 4 * columns * (lists as usize);
    if room < written {
        return Err(Refusal::Room);
    }
    Ok(Lists {
        columns,
        lists,
        written,
    })
}

// Writes every legal list of a sheet's values from the front of `out`; a refusal leaves `out` as it was.
pub fn write(s: &[u8], out: &mut [u8]) -> Result<Lists, Refusal>
    ensures { (outcome_of result ≡ listed_of s.now (length out.old))
        × (out.new ≡ lists_out s.now out.old) }
{
    let found = judge(s, out.len())?;
    write_columns(s, found.columns, found.lists, out);
    Ok(found)
}
