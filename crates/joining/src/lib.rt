// Joining the closing messages of S servers: the accepted count, and the totals as elements in entry order. The contracts
// cite the crate rules, at document 01's setting, and specs/. A refusal leaves the buffer as it was.
#![tactic(auto)]

ghost use Rattle.std.specs.Prelude.{◌≡◌};
ghost use Rattle.words.specs.Bytes.{splice};
ghost use Rattle.records.specs.Refusals.{outcome_of};
ghost use Rattle.joining.specs.Calls.{totals_of, Joinable, pooled, judged, Joins};

use records::Refusal;

// What joining hands back: the accepted count, and how many bytes were written.
#[derive(Clone, Copy)]
pub struct Joining {
    pub accepted: u32,
    pub written: usize,
}

// Writes the totals of joined messages to the front of `out`.
fn write_totals(joined: &[u8], servers: u32, published: usize, out: &mut [u8])
    requires { Joinable servers published joined.now out.old }
    ensures { out.new ≡ splice out.old 0 (totals_of servers published joined.now) }
{
    for k in 0..published {
        let total = totals_message::totals_sum(joined, servers, published, k);
        words::write_u32(out, 4 * k, total);
    }
}

// The published entries of a sheet that S servers pool N returns of, or the first refusal.
pub fn poolable(servers: u32, sheet: &[u8], returns: u32) -> Result<usize, Refusal>
    ensures { outcome_of result ≡ pooled servers sheet.now returns }
{
    limits::check_servers(servers)?;
    let counts = sheet::read(sheet)?;
    sheet::returns::check_returns(sheet, returns)?;
    Ok(counts.published)
}

// Whether the messages can be joined: the bytes that their totals take, or the first refusal.
fn judge(
    servers: u32,
    sheet: &[u8],
    returns: u32,
    joined: &[u8],
    room: usize,
) -> Result<usize, Refusal>
    ensures { outcome_of result ≡ judged servers sheet.now returns joined.now room }
{
    let published = poolable(servers, sheet, returns)?;
    totals_message::check_totals(joined, servers, published, returns)?;
    let length = 4 * published;
    if room < length {
        return Err(Refusal::Room);
    }
    Ok(length)
}

// Joins the totals messages of S servers: hands back the accepted count, and writes the totals to the front of `out`.
pub fn join(
    servers: u32,
    sheet: &[u8],
    returns: u32,
    joined: &[u8],
    out: &mut [u8],
) -> Result<Joining, Refusal>
    ensures { Joins servers sheet.now returns joined.now out.old result out.new }
{
    let written = judge(servers, sheet, returns, joined, out.len())?;
    write_totals(joined, servers, written / 4, out);
    Ok(Joining {
        accepted: totals_message::accepted_count(joined),
        written,
    })
}
