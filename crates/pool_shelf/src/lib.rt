// The C functions of whoever stores messages: each hands its arguments to one call and its answer to the host, and has no
// rules of its own.
// `pool_c` exports them, and include/pool.h tells a host how to use them. Each takes any arguments and returns 0 or the number of
// the refusal; the promises (specs/Calls) are equalities with rules' definitions at document 01's setting.
#![tactic(auto)]

ghost use Rattle.pool_shelf.specs.Calls.{Shelves, Unshelves};

pub fn pool_shelve(
    messages: u32,
    width: u32,
    run: &[u8],
    out: &mut [u8],
    written: &mut usize,
) -> u32
    ensures { Shelves messages width run.now out.old written.old
        result out.new written.new }
{
    records::hand_back(shelf::shelve(messages, width, run, out), written)
}

pub fn pool_unshelve(
    messages: u32,
    width: u32,
    run: &[u8],
    out: &mut [u8],
    written: &mut usize,
) -> u32
    ensures { Unshelves messages width run.now out.old written.old
        result out.new written.new }
{
    records::hand_back(shelf::unshelve(messages, width, run, out), written)
}
