// The reading of a server's table: what its bytes say, where the length, stage, counts, sheet, numbers and elements of its three
// parts keep to the limits. The contracts cite rules and specs/.
#![tactic(auto)]

ghost use Rattle.std.specs.Prelude.{◌≡◌, ◌+◌, ◌≤◌, length, IsTrue};
ghost use Rattle.words.specs.Bytes.{value_of, part, elements_of};
ghost use Rattle.records.specs.Refusals.{outcome_of};
ghost use Rattle.rules.specs.Server.{is_member};
ghost use Rattle.rules.specs.Table.{header_length};
ghost use Rattle.waiting.specs.Changes.{lent};
ghost use Rattle.table.specs.Reading.{start_sound, head_in, found_in, counts_sound_at, totals_sound_at, Headed, Whole};

use layout::places::sheet_part;
use layout::{CLOSED, HEADER, OPEN, TABLE, Table};
use records::Refusal;
use sheet::returns::check_returns;
use slots::Slot;

pub mod deciding;

// Whether an id is in a run of ids. The loop looks at all of them: so it takes several in a turn.
pub fn has_id(ids: &[u8], id: u32) -> bool
    ensures { result ≡ is_member id (elements_of 4 ids.now) }
{
    let mut found = false;
    for k in 0..ids.len() / 4 {
        found |= words::read_u32(ids, 4 * k) == id;
    }
    found
}

// Whether the header is sound, as far as it can be judged before the sheet is read.
fn start_sound(t: &[u8]) -> bool
    ensures sound { result ≡ start_sound t.now }
    ensures long { IsTrue result → header_length + value_of (part 12 2 t.now) ≤ length t.now }
{
    if t.len() < HEADER {
        return false;
    }
    let returns = words::read_u16(t, 4);
    t[0] == TABLE
        && t[1] <= CLOSED
        && (limits::MIN_SERVERS..=limits::MAX_SERVERS).contains(&u32::from(t[2]))
        && t[3] < t[2]
        && (1..=limits::MAX_RETURNS).contains(&returns)
        && limits::least_sound(returns, words::read_u16(t, 10))
        && HEADER + (words::read_u16(t, 12) as usize) <= t.len()
}

// What a table says whose header and sheet are sound.
fn head(t: &[u8]) -> Result<Table, Refusal>
    ensures { outcome_of result ≡ head_in t.now }
{
    if !start_sound(t) {
        return Err(Refusal::Stage);
    }
    let n = words::read_u16(t, 12) as usize;
    let Ok(counts) = sheet::read(sheet_part(t, n)) else {
        return Err(Refusal::Stage);
    };
    Ok(Table {
        closed: t[1] != OPEN,
        servers: u32::from(t[2]),
        own: u32::from(t[3]),
        returns: words::read_u16(t, 4),
        decided: words::read_u16(t, 6),
        entered: words::read_u16(t, 8),
        least: words::read_u16(t, 10),
        sheet: n,
        columns: counts.columns,
        entries: counts.entries,
        published: counts.published,
        gates: counts.gates,
        tests: counts.tests,
    })
}

// Whether the totals can not wrap, the table lies within its slice, and its counts and so many that wait are within N.
fn counts_sound(t: &[u8], k: Table, waiting: u32) -> bool
    requires { Headed t.now k }
    ensures { result ≡ counts_sound_at k waiting t.now }
{
    check_returns(sheet_part(t, k.sheet), k.returns).is_ok()
        && k.length() <= t.len()
        && k.decided <= k.returns
        && waiting <= k.returns - k.decided
        && k.entered <= k.decided
}

// Whether the totals are elements.
fn totals_sound(t: &[u8], k: Table) -> bool
    requires { Whole t.now k }
    ensures { result ≡ totals_sound_at k t.now }
{
    let start = k.totals_place();
    let end = k.ids_place();
    elements::below(&t[start..end], field::P)
}

// What a sound table of three parts says.
pub fn read(t: &[u8], list: [Slot; 8], numbers: &[u32]) -> Result<Table, Refusal>
    ensures { outcome_of result ≡ found_in (lent t.now list numbers.now) }
{
    let k = head(t)?;
    if counts_sound(t, k, waiting::count(list))
        && totals_sound(t, k)
        && waiting::sound(list, numbers, k.gates, k.place_size())
    {
        Ok(k)
    } else {
        Err(Refusal::Stage)
    }
}
