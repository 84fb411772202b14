// The sheet: its reader, a cursor over its columns, and the limit on returns. The definitions that the contracts cite are
// those of the crate rules and of specs/.
#![tactic(auto)]

ghost use Rattle.std.specs.Prelude.{◌≡◌};
ghost use Rattle.records.specs.Refusals.{outcome_of};
ghost use Rattle.columns.specs.Counting.{Small};
ghost use Rattle.sheet.specs.Reading.{more, Countable, limited, reading_of};

pub mod cursor;
pub mod returns;

use columns::{Column, Counts, Kind, column_of, counts_of, none};
use records::Refusal;

// One column more, but for its constants. Past the limit of entries nothing is counted any more.
#[tactic(auto, unfolding(crate::specs::Reading::more))]
fn with(c: Counts, d: Counts) -> Counts
    requires { Small 320 c × Small 64 d }
    ensures { (result ≡ more c d) × Small 320 result }
{
    if 256 < c.entries {
        return c;
    }
    Counts {
        columns: c.columns + d.columns,
        entries: c.entries + d.entries,
        published: c.published + d.published,
        constants: c.constants,
        gates: c.gates + d.gates,
        products: c.products + d.products,
        tests: c.tests + d.tests,
        largest: c.largest.max(d.largest),
    }
}

// The total limit, last; then the constants, which need no count of their own: behind its kind byte a column has a byte for each
// of its sums, one for the two sums of a point, and two more for a constant.
#[tactic(auto, unfolding(crate::specs::Reading::limited))]
fn limit(c: Counts, bytes: usize) -> Result<Counts, Refusal>
    requires { Countable c bytes }
    ensures { outcome_of result ≡ limited c bytes }
{
    if !(1..=256).contains(&c.entries) {
        return Err(Refusal::Limit);
    }
    Ok(Counts {
        constants: (bytes - c.columns - (c.tests - c.gates - c.products / 2)) / 2,
        ..c
    })
}

// What a sheet comes to, or its first fault. The loop steps by whole records, of several bytes: so it goes by the place. A yes/no
// has its own branch: else the place of each column waits until the size of the one before is looked up.
pub fn read(s: &[u8]) -> Result<Counts, Refusal>
    ensures { outcome_of result ≡ reading_of s.now }
{
    let mut counts = none();
    let mut at: usize = 0;
    while at < s.len() {
        if s[at] == Kind::YesNo as u8 {
            counts = with(counts, counts_of(Column::YesNo));
            at += 1;
            continue;
        }
        let kind = Kind::of(s[at]).ok_or(Refusal::Kind)?;
        let size = kind.bytes();
        if s.len() - at < size {
            return Err(Refusal::Kind);
        }
        let start = at + 1;
        let end = at + size;
        let column = column_of(kind, &s[start..end])?;
        counts = with(counts, counts_of(column));
        at = end;
    }
    limit(counts, s.len())
}
