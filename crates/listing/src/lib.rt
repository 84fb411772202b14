// The text that recount prints, written into a lent buffer. Each function writes a run of bytes at a place and returns the
// place behind it; its contract names the run and says that nothing else changes (`Put`). The runs are those of the crate
// rules, at document 01's setting.
#![tactic(auto)]

ghost use Rattle.std.specs.Prelude.{◌≡◌, [], ◌∷◌, ◌++◌, ◌+◌, ◌≤◌, ◌<◌, length, take};
ghost use Rattle.records.specs.Refusals.{number_of};
ghost use Rattle.rules.specs.Recount.{decimal, accepted_text, refusal_text, line_text};
ghost use Rattle.listing.specs.Text.{Put, options_text, columns_text, joined_text, text_most};
ghost use Rattle.listing.specs.Text.{Options, Columns, Rooms, Lists, Start, ListsAll};

use joining::join;
use records::Refusal;
use sheet::cursor;

// The decimal digit of a number below 10.
fn digit(n: u32) -> u8
    requires { n < 10 }
    ensures { result ≡ 48 + n }
{
    48 + (n as u8)
}

// A number in decimal digits.
fn put_decimal(out: &mut [u8], at: usize, n: u32) -> usize
    requires { at + 20 ≤ length out.old }
    ensures { Put out.old at (decimal n) out.new result }
{
    if n < 10 {
        out[at] = digit(n);
        return at + 1;
    }
    let last = put_decimal(out, at, n / 10);
    out[last] = digit(n % 10);
    last + 1
}

// A number and the byte behind it.
fn put_number(out: &mut [u8], at: usize, n: u32, after: u8) -> usize
    requires { at + 21 ≤ length out.old }
    ensures { Put out.old at (decimal n ++ (after ∷ [])) out.new result }
{
    let end = put_decimal(out, at, n);
    out[end] = after;
    end + 1
}

// The line of a column's option and its total.
fn put_line(out: &mut [u8], at: usize, column: u32, option: u32, total: u32) -> usize
    requires { at + 63 ≤ length out.old }
    ensures { Put out.old at (line_text column option total) out.new result }
{
    let second = put_number(out, at, column, b' ');
    let third = put_number(out, second, option, b' ');
    put_number(out, third, total, b'\n')
}

// The lines of a column's n options, whose totals are the elements from `first` on.
fn put_options(
    out: &mut [u8],
    at: usize,
    column: u32,
    totals: &[u8],
    first: usize,
    n: usize,
) -> usize
    requires { Options at first n out.old totals.now }
    ensures { Put out.old at (options_text column n first totals.now) out.new result }
{
    let mut next = at;
    for option in 0..n {
        let total = elements::at(totals, first + option);
        next = put_line(out, next, column, option as u32, total);
    }
    next
}

// The lines of all columns of a sheet.
fn put_columns(out: &mut [u8], at: usize, s: &[u8], totals: &[u8]) -> usize
    requires { Columns at s.now out.old totals.now }
    ensures { Put out.old at (columns_text s.now totals.now) out.new result }
{
    let mut next = at;
    for place in cursor::columns(s) {
        let column = place.after.index as u32;
        let first = place.before.published;
        let options = place.after.published - first;
        next = put_options(out, next, column, totals, first, options);
    }
    next
}

// The line of a refusal.
fn put_refusal(out: &mut [u8], refusal: Refusal) -> usize
    requires { 30 ≤ length out.old }
    ensures { Put out.old 0 (refusal_text (number_of refusal)) out.new result }
{
    words::copy(out, 0, b"refused ");
    put_number(out, 8, refusal.number(), b'\n')
}

// The line of the accepted count.
fn put_accepted(out: &mut [u8], count: u32) -> usize
    requires { 30 ≤ length out.old }
    ensures { Put out.old 0 (accepted_text ++ (decimal count ++ (10 ∷ []))) out.new result }
{
    words::copy(out, 0, b"accepted ");
    put_number(out, 9, count, b'\n')
}

// The text of joined messages. `sums` takes the totals on the way.
fn put_joined(
    out: &mut [u8],
    sums: &mut [u8],
    servers: u32,
    s: &[u8],
    returns: u32,
    joined: &[u8],
) -> usize
    requires { Rooms out.old sums.old }
    ensures { Put out.old 0 (joined_text servers s.now returns joined.now) out.new result }
{
    match join(servers, s, returns, joined, sums) {
        Err(refusal) => put_refusal(out, refusal),
        Ok(done) => {
            let at = put_accepted(out, done.accepted);
            put_columns(out, at, s, &sums[..done.written])
        }
    }
}

// The text that recount prints for an input, at the front of `out`: how many bytes it has.
pub fn text(input: &[u8], out: &mut [u8]) -> usize
    requires { text_most ≤ length out.old }
    ensures { Lists input.now out.old result out.new }
{
    if input.len() < 5 {
        return put_refusal(out, Refusal::Joined);
    }
    let size = words::read_u16(input, 0) as usize;
    let end = 5 + size;
    if input.len() < end {
        return put_refusal(out, Refusal::Joined);
    }
    let behind = 2 + size;
    let servers = u32::from(input[behind]);
    let returns = words::read_u16(input, 3 + size);
    let mut sums = [0; 1024];
    put_joined(
        out,
        &mut sums,
        servers,
        &input[2..behind],
        returns,
        &input[end..],
    )
}

// The same for an input of any length, of which `start` holds the first n bytes: all, or as many as it has room for.
pub fn text_of(start: &[u8], n: usize, out: &mut [u8]) -> usize
    requires { Start start.now n out.old }
    ensures { ListsAll (take n start.now) out.old result out.new }
{
    text(&start[..n], out)
}
