// The C functions of anyone who joins totals: each hands its arguments to one call and the answer to the host, and has no
// rules of its own.
// `pool_c` exports them, and include/pool.h tells a host how to use them. Each takes any arguments and returns 0 or the number of
// the refusal; its promise (specs/Calls) is an equality with rules' definitions at document 01's setting.
#![tactic(auto)]

ghost use Rattle.pool_totals.specs.Calls.{Joins, TellsLine};

pub fn pool_join(
    servers: u32,
    sheet: &[u8],
    returns: u32,
    joined: &[u8],
    out: &mut [u8],
    accepted: &mut u32,
    written: &mut usize,
) -> u32
    ensures { Joins servers sheet.now returns joined.now out.old
        accepted.old written.old
        result out.new accepted.new written.new }
{
    let totals = joining::join(servers, sheet, returns, joined, out);
    if let Ok(done) = totals {
        *accepted = done.accepted;
        *written = done.written;
    }
    records::number_of(totals)
}

pub fn pool_line(
    servers: u32,
    sheet: &[u8],
    returns: u32,
    joined: &[u8],
    column: u32,
    determinant: &mut i64,
    slope: &mut i64,
    intercept: &mut i64,
) -> u32
    ensures { TellsLine servers sheet.now returns joined.now column
        determinant.old slope.old intercept.old
        result determinant.new slope.new intercept.new }
{
    let line = line::fit(servers, sheet, returns, joined, column);
    if let Ok(told) = line {
        *determinant = told.determinant;
        *slope = told.slope;
        *intercept = told.intercept;
    }
    records::number_of(line)
}
