// Making a return from seeds: server 0's share message, then a seed message for each other server, whose share is what its
// seed gives. Server 0's share is what remains of the whole list. No step depends on the value of a seed or of an element, but
// that the random elements are below p.
#![tactic(auto)]

ghost use Rattle.std.specs.Prelude.{◌≡◌, ◌≤◌};
ghost use Rattle.words.specs.Bytes.{splice};
ghost use Rattle.records.specs.Refusals.{fault_of, outcome_of};
ghost use Rattle.records.specs.Answers.{answered};
ghost use Rattle.rules.specs.Settings.{document01};
ghost use Rattle.rules.specs.Columns.{columns_of};
ghost use Rattle.rules.specs.Seeds.{seeds_fault, seeded_length, make_seeded_refusal, make_seeded_bytes};
ghost use Rattle.whole.specs.Pieces.{Counted};
ghost use Rattle.seeded.specs.Calls.{MakesSeeded};
ghost use Rattle.seeded.specs.Pieces.{MakeableSeeded};

use columns::Counts;
use limits::share_size;
use records::Refusal;
use seeds::SEED_SIZE;
use share_message::SEED_LENGTH;

mod messages;
mod shares;

// The four random elements and the seeds of S servers.
fn check_seeds(servers: u32, random: &[u8], seeds: &[u8]) -> Result<(), Refusal>
    requires { (2 ≤ servers) × (servers ≤ 8) }
    ensures { fault_of result ≡ seeds_fault document01 servers random.now seeds.now }
{
    let others = (servers - 1) as usize;
    if random.len() != 16
        || seeds.len() != SEED_SIZE * others
        || !elements::below(random, field::P)
    {
        return Err(Refusal::Random);
    }
    Ok(())
}

// The bytes of all messages, which fit into `room` bytes, for a sheet that is read.
fn check_make(
    sheet: &[u8],
    counts: Counts,
    servers: u32,
    values: &[u8],
    random: &[u8],
    seeds: &[u8],
    room: usize,
) -> Result<usize, Refusal>
    requires { Counted sheet.now counts }
    ensures { outcome_of result ≡ answered (make_seeded_refusal document01 sheet.now servers values.now random.now seeds.now room)
        (seeded_length document01 (columns_of sheet.now) servers) }
{
    whole::check_early(sheet, counts, servers, values)?;
    check_seeds(servers, random, seeds)?;
    let size = share_size(counts.entries, counts.gates);
    let bytes = 6 + 4 * size + SEED_LENGTH * ((servers - 1) as usize);
    if room < bytes {
        return Err(Refusal::Room);
    }
    Ok(bytes)
}

// The messages of all servers, from the front of `out`.
fn write_return(
    sheet: &[u8],
    counts: Counts,
    servers: u32,
    id: u32,
    values: &[u8],
    random: &[u8],
    seeds: &[u8],
    out: &mut [u8],
)
    requires { MakeableSeeded sheet.now counts servers values.now random.now seeds.now out.old }
    ensures { out.new ≡ splice out.old 0
        (make_seeded_bytes document01 sheet.now servers id values.now random.now seeds.now) }
{
    let size = share_size(counts.entries, counts.gates);
    let others = (servers - 1) as usize;
    let mut buffer = [0u32; 774];
    let w = &mut buffer[..size];
    whole::fill_whole(sheet, counts, values, random, w);
    shares::take_seeds(seeds, others, id, w);
    whole::write_first(w, id, out);
    messages::write_seeds(seeds, others, id, 6 + 4 * size, out);
}

// Makes a return of the values: the messages of S servers with this id, one after another from the front of `out`, and says how
// many bytes these are. `random` holds u_0, v_0, a and b, `seeds` the seeds of servers 1 to S - 1. A refusal leaves `out` as it
// was.
pub fn make_seeded(
    sheet: &[u8],
    servers: u32,
    id: u32,
    values: &[u8],
    random: &[u8],
    seeds: &[u8],
    out: &mut [u8],
) -> Result<usize, Refusal>
    ensures { MakesSeeded sheet.now servers id values.now random.now seeds.now
        out.old (outcome_of result) out.new }
{
    let counts = sheet::read(sheet)?;
    let bytes = check_make(sheet, counts, servers, values, random, seeds, out.len())?;
    write_return(sheet, counts, servers, id, values, random, seeds, out);
    Ok(bytes)
}
