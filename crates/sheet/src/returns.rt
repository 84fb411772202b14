// The number of returns that a sheet's totals allow: N from 1 to 1,024, and N times a column's largest value below p.
ghost use Rattle.std.specs.Prelude.{◌≡◌, ◌≤◌};
ghost use Rattle.records.specs.Outcome.{ok, or_else};
ghost use Rattle.records.specs.Refusals.{fault_of};
ghost use Rattle.rules.specs.Settings.{document01};
ghost use Rattle.rules.specs.Columns.{read_sheet, columns_of, returns_fault, totals_fault};

use crate::cursor::columns;
use columns::largest_of;
use records::Refusal;

// Whether no column's total can reach p.
fn check_totals(s: &[u8], n: u32) -> Result<(), Refusal>
    requires { (read_sheet s.now ≡ ok (columns_of s.now)) × (n ≤ 1024) }
    ensures { fault_of result ≡ totals_fault document01 n (columns_of s.now) }
{
    for place in columns(s) {
        let largest = largest_of(place.column);
        let total = u64::from(n) * u64::from(largest);
        if u64::from(field::P) <= total {
            return Err(Refusal::Wrap);
        }
    }
    Ok(())
}

// Whether a sheet that is read takes N returns: N within its limits, then its totals. With 128 returns or fewer no total of a
// column can reach p: its largest value has 24 bits.
#[tactic(auto, unfolding(records::specs::Outcome::or_else))]
pub fn check_returns(s: &[u8], n: u32) -> Result<(), Refusal>
    requires { read_sheet s.now ≡ ok (columns_of s.now) }
    ensures { fault_of result ≡ or_else (returns_fault n) (totals_fault document01 n (columns_of s.now)) }
{
    if !(1..=limits::MAX_RETURNS).contains(&n) {
        return Err(Refusal::Limit);
    }
    if n <= 128 {
        return Ok(());
    }
    check_totals(s, n)
}
