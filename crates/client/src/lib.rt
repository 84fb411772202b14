// Making a return: from values and random elements the share messages of all servers, one after another.
#![tactic(auto)]

ghost use Rattle.std.specs.Prelude.{◌≡◌, ◌*◌};
ghost use Rattle.words.specs.Bytes.{splice};
ghost use Rattle.records.specs.Refusals.{fault_of, outcome_of};
ghost use Rattle.records.specs.Answers.{answered};
ghost use Rattle.rules.specs.Settings.{document01};
ghost use Rattle.rules.specs.Columns.{columns_of};
ghost use Rattle.rules.specs.Making.{share_length, make_refusal, make_bytes};
ghost use Rattle.client.specs.Calls.{Makes};
ghost use Rattle.whole.specs.Pieces.{Counted};
ghost use Rattle.client.specs.Pieces.{random_fault_at, Few, Makeable};

use columns::Counts;
use limits::share_size;
use records::Refusal;

mod shares;

// The random elements for S servers and shares of `size` elements.
fn check_random(random: &[u8], servers: u32, size: usize) -> Result<(), Refusal>
    requires { Few servers size }
    ensures { fault_of result ≡ random_fault_at servers size random.now }
{
    let shares = (servers - 1) as usize;
    if random.len() != 4 * (shares * size + 4) || !elements::below(random, field::P) {
        return Err(Refusal::Random);
    }
    Ok(())
}

// The bytes of all messages, which fit into `room` bytes, for a sheet that is read.
fn check_make(
    sheet: &[u8],
    counts: Counts,
    servers: u32,
    values: &[u8],
    random: &[u8],
    room: usize,
) -> Result<usize, Refusal>
    requires { Counted sheet.now counts }
    ensures { outcome_of result ≡ answered (make_refusal document01 sheet.now servers values.now random.now room)
        (servers * share_length document01 (columns_of sheet.now)) }
{
    whole::check_early(sheet, counts, servers, values)?;
    let size = share_size(counts.entries, counts.gates);
    check_random(random, servers, size)?;
    let bytes = (servers as usize) * (6 + 4 * size);
    if room < bytes {
        return Err(Refusal::Room);
    }
    Ok(bytes)
}

// The messages of all servers, from the front of `out`.
fn write_return(
    sheet: &[u8],
    counts: Counts,
    servers: u32,
    id: u32,
    values: &[u8],
    random: &[u8],
    out: &mut [u8],
)
    requires { Makeable sheet.now counts servers values.now random.now out.old }
    ensures { out.new ≡ splice out.old 0
        (make_bytes document01 sheet.now servers id values.now random.now) }
{
    let size = share_size(counts.entries, counts.gates);
    let others = (servers - 1) as usize;
    let mut buffer = [0u32; 774];
    let w = &mut buffer[..size];
    whole::fill_whole(sheet, counts, values, random, w);
    shares::take_shares(random, others, w);
    whole::write_first(w, id, out);
    shares::write_others(random, others, size, id, out);
}

// Makes a return of the values: the share messages of S servers with this id, one after another from the front of `out`, and
// says how many bytes these are. `random` holds u_0, v_0, a, b and the shares of servers 1 to S - 1. A refusal leaves `out` as
// it was.
pub fn make(
    sheet: &[u8],
    servers: u32,
    id: u32,
    values: &[u8],
    random: &[u8],
    out: &mut [u8],
) -> Result<usize, Refusal>
    ensures { Makes sheet.now servers id values.now random.now
        out.old (outcome_of result) out.new }
{
    let counts = sheet::read(sheet)?;
    let bytes = check_make(sheet, counts, servers, values, random, out.len())?;
    write_return(sheet, counts, servers, id, values, random, out);
    Ok(bytes)
}
