// The line that best fits y on x in a column of two numbers, from joined totals: three signed whole numbers. The contracts cite the
// crate rules, at document 01's setting, and specs/.
#![tactic(auto)]

ghost use Rattle.std.specs.Prelude.{◌≡◌, ◌*◌, ◌^◌, ◌<◌, pos, ◌-ℤ◌};
ghost use Rattle.records.specs.Outcome.{ok};
ghost use Rattle.records.specs.Refusals.{outcome_of};
ghost use Rattle.rules.specs.Columns.{read_sheet, columns_of};
ghost use Rattle.rules.specs.Line.{Narrow};
ghost use Rattle.columns.specs.Kinds.{from_code};
ghost use Rattle.totals_message.specs.Totals.{total_at, SummableTotals};
ghost use Rattle.line.specs.Numbers.{sums_in, line_of, fitting_of};
ghost use Rattle.line.specs.Calls.{point_at, found_in, Takeable, totals_from, placed, fit_of};

use columns::Column;
use records::Refusal;
use sheet::cursor;

// The number of returns and the four totals of a column: of x, x * x, y and x * y.
#[derive(Clone, Copy)]
struct Totals {
    n: u64,
    x: u64,
    xx: u64,
    y: u64,
    xy: u64,
}

// D, and what is to be divided by it: the slope, and the value at 0.
#[derive(Clone, Copy)]
pub struct Line {
    pub determinant: i64,
    pub slope: i64,
    pub intercept: i64,
}

// The published entries of a sheet, and where the totals of the column begin among them.
#[derive(Clone, Copy)]
struct Place {
    published: usize,
    first: usize,
}

// a b - c d
fn difference(a: u64, b: u64, c: u64, d: u64) -> i64
    requires { (a * b < 2 ^ 62) × (c * d < 2 ^ 62) }
    ensures { result ≡ pos (a * b) -ℤ pos (c * d) }
{
    ((a * b) as i64) - ((c * d) as i64)
}

// The three numbers of totals.
fn line_of(t: Totals) -> Line
    requires { Narrow (2 ^ 62) (sums_in t) }
    ensures { result ≡ line_of (sums_in t) }
{
    Line {
        determinant: difference(t.n, t.xx, t.x, t.x),
        slope: difference(t.n, t.xy, t.x, t.y),
        intercept: difference(t.xx, t.y, t.x, t.xy),
    }
}

// The line of totals; there is none where D is 0.
fn fitted(t: Totals) -> Result<Line, Refusal>
    requires { Narrow (2 ^ 62) (sums_in t) }
    ensures { outcome_of result ≡ fitting_of (sums_in t) }
{
    let line = line_of(t);
    if line.determinant == 0 {
        return Err(Refusal::NoLine);
    }
    Ok(line)
}

// Where the totals of a column begin that has so many published entries before it, if it is one of two numbers.
fn point_at(column: Column, first: usize) -> Option<usize>
    ensures { result ≡ point_at (from_code column) first }
{
    match column {
        Column::Point(_) => Some(first),
        _ => None,
    }
}

// Where the totals of the column with this number begin; columns are numbered from 1.
fn find(s: &[u8], column: u32) -> Option<usize>
    requires { read_sheet s.now ≡ ok (columns_of s.now) }
    ensures { result ≡ found_in (columns_of s.now) column }
{
    for place in cursor::columns(s) {
        if place.after.index == column as usize {
            return point_at(place.column, place.before.published);
        }
    }
    None
}

// Total k of joined messages.
fn total(joined: &[u8], servers: u32, published: usize, k: usize) -> u64
    requires { SummableTotals servers published k joined.now }
    ensures { result ≡ total_at servers published joined.now k }
{
    u64::from(totals_message::totals_sum(joined, servers, published, k))
}

// The number of returns, and the four totals from `first` on.
fn totals_of(joined: &[u8], servers: u32, place: Place) -> Totals
    requires { Takeable servers place joined.now }
    ensures { result ≡ totals_from servers place joined.now }
{
    let Place { published, first } = place;
    Totals {
        n: u64::from(totals_message::accepted_count(joined)),
        x: total(joined, servers, published, first),
        xx: total(joined, servers, published, first + 1),
        y: total(joined, servers, published, first + 2),
        xy: total(joined, servers, published, first + 3),
    }
}

// Where the totals of the column stand, or the first refusal: of S, the sheet and N, of the column, of the messages.
fn judge(
    servers: u32,
    sheet: &[u8],
    returns: u32,
    joined: &[u8],
    column: u32,
) -> Result<Place, Refusal>
    ensures { outcome_of result ≡ placed servers sheet.now returns joined.now column }
{
    let published = joining::poolable(servers, sheet, returns)?;
    let first = find(sheet, column).ok_or(Refusal::Limit)?;
    totals_message::check_totals(joined, servers, published, returns)?;
    Ok(Place { published, first })
}

// The line of a column of two numbers, from the joined totals messages of S servers.
pub fn fit(
    servers: u32,
    sheet: &[u8],
    returns: u32,
    joined: &[u8],
    column: u32,
) -> Result<Line, Refusal>
    ensures { outcome_of result ≡ fit_of servers sheet.now returns joined.now column }
{
    let place = judge(servers, sheet, returns, joined, column)?;
    fitted(totals_of(joined, servers, place))
}
