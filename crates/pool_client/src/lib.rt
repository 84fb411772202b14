// The C functions of a client: each hands its arguments to one call and the answer to the host, and has no rules of its own.
// `pool_c` exports them, and include/pool.h tells a host how to use them. Each takes any arguments and returns 0 or the number of
// the refusal; the promises (specs/Calls) are equalities with rules' definitions at document 01's setting.
#![tactic(auto)]

ghost use Rattle.pool_client.specs.Calls.{Makes, MakesSeeded};

pub fn pool_make(
    sheet: &[u8],
    servers: u32,
    id: u32,
    values: &[u8],
    random: &[u8],
    out: &mut [u8],
    written: &mut usize,
) -> u32
    ensures { Makes sheet.now servers id values.now random.now
        out.old written.old result out.new written.new }
{
    records::hand_back(
        client::make(sheet, servers, id, values, random, out),
        written,
    )
}

pub fn pool_make_seeded(
    sheet: &[u8],
    servers: u32,
    id: u32,
    values: &[u8],
    random: &[u8],
    seeds: &[u8],
    out: &mut [u8],
    written: &mut usize,
) -> u32
    ensures { MakesSeeded sheet.now servers id values.now random.now seeds.now
        out.old written.old result out.new written.new }
{
    records::hand_back(
        seeded::make_seeded(sheet, servers, id, values, random, seeds, out),
        written,
    )
}
