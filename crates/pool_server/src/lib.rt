// The C functions of a server, on its table of three lent parts: bytes, the waiting list, and the run of numbers. All but
// pool_open copy the eight records and hand them to one call by value; the share, the rounds, the entry and the drop write back the
// one record that the call changed, and pool_open clears all; pool_state changes nothing. None has rules of its own.
// `pool_c` exports them, and include/pool.h tells a host how to use them. Each takes any arguments and returns 0 or the number of
// the refusal; the promises (specs/Calls) are equalities with rules' definitions at document 01's setting.
#![tactic(auto)]

ghost use Rattle.waiting.specs.Changes.{lent};
ghost use Rattle.state.specs.Calls.{eight};
ghost use Rattle.pool_server.specs.Calls.{Opens, TakesShare, TakesOne, Decides, Enters, Drops, Closes, TellsState};

use records::{hand_back, number_of};
use slots::Slot;

pub fn pool_open(
    servers: u32,
    own: u32,
    sheet: &[u8],
    returns: u32,
    least: u32,
    table: &mut [u8],
    slots: &mut [Slot],
    elements: &mut [u32],
    written: &mut usize,
) -> u32
    ensures { Opens servers own sheet.now returns least
        (lent table.old slots.old elements.old) written.old
        result (lent table.new slots.new elements.new) written.new }
{
    let records = slots.len();
    let answer = opening::open(
        servers, own, sheet, returns, least, table, records, elements,
    );
    slots::clear(slots, number_of(answer));
    hand_back(answer, written)
}

pub fn pool_share(
    table: &[u8],
    slots: &mut [Slot],
    elements: &mut [u32],
    message: &[u8],
    r: u64,
    s: u64,
    out: &mut [u8],
    written: &mut usize,
) -> u32
    ensures { TakesShare (lent table.now slots.old elements.old)
        message.now r s out.old written.old
        result (lent table.now slots.new elements.new) out.new written.new }
{
    let list = slots::copied(slots);
    match shares::share(table, list, elements, message, r, s, out) {
        Ok(taken) => {
            slots::apply(slots, Some(taken.change));
            *written = taken.written;
            0
        }
        Err(refusal) => refusal.number(),
    }
}

pub fn pool_round_one(
    table: &[u8],
    slots: &mut [Slot],
    elements: &[u32],
    id: u32,
    joined: &[u8],
    out: &mut [u8],
    written: &mut usize,
) -> u32
    ensures { TakesOne (lent table.now slots.old elements.now)
        id joined.now out.old written.old
        result (lent table.now slots.new elements.now) out.new written.new }
{
    let list = slots::copied(slots);
    match round_one::round_one(table, list, elements, id, joined, out) {
        Ok(summed) => {
            slots::apply(slots, Some(summed.change));
            *written = summed.written;
            0
        }
        Err(refusal) => refusal.number(),
    }
}

pub fn pool_round_two(
    table: &mut [u8],
    slots: &mut [Slot],
    elements: &mut [u32],
    id: u32,
    joined: &[u8],
    accepted: &mut u32,
) -> u32
    ensures { Decides (lent table.old slots.old elements.old)
        id joined.now accepted.old
        result (lent table.new slots.new elements.new) accepted.new }
{
    let list = slots::copied(slots);
    match round_two::round_two(table, list, elements, id, joined) {
        Ok(decision) => {
            slots::apply(slots, Some(decision.change));
            *accepted = u32::from(decision.accepted);
            0
        }
        Err(refusal) => refusal.number(),
    }
}

pub fn pool_enter(table: &mut [u8], slots: &mut [Slot], elements: &mut [u32], id: u32) -> u32
    ensures { Enters (lent table.old slots.old elements.old) id
        result (lent table.new slots.new elements.new) }
{
    let list = slots::copied(slots);
    let answer = entering::enter(table, list, elements, id);
    slots::apply(slots, answer.ok());
    number_of(answer)
}

pub fn pool_drop(table: &mut [u8], slots: &mut [Slot], elements: &mut [u32], id: u32) -> u32
    ensures { Drops (lent table.old slots.old elements.old) id
        result (lent table.new slots.new elements.new) }
{
    let list = slots::copied(slots);
    let answer = closing::drop(table, list, elements, id);
    slots::apply(slots, answer.ok());
    number_of(answer)
}

pub fn pool_close(
    table: &mut [u8],
    slots: &[Slot],
    elements: &[u32],
    out: &mut [u8],
    written: &mut usize,
) -> u32
    ensures { Closes (lent table.old slots.now elements.now)
        out.old written.old
        result (lent table.new slots.now elements.now) out.new written.new }
{
    let list = slots::copied(slots);
    hand_back(closing::close(table, list, elements, out), written)
}

pub fn pool_state(
    table: &[u8],
    slots: &[Slot],
    elements: &[u32],
    servers: &mut u32,
    own: &mut u32,
    returns: &mut u32,
    least: &mut u32,
    closed: &mut u32,
    decided: &mut u32,
    entered: &mut u32,
    waiting: &mut u32,
) -> u32
    ensures { TellsState (lent table.now slots.now elements.now)
        (eight servers.old own.old returns.old least.old
        closed.old decided.old entered.old waiting.old)
        result (eight servers.new own.new returns.new least.new
        closed.new decided.new entered.new waiting.new) }
{
    let list = slots::copied(slots);
    match state::tell(table, list, elements) {
        Ok(state) => {
            *servers = state.servers;
            *own = state.own;
            *returns = state.returns;
            *least = state.least;
            *closed = state.closed;
            *decided = state.decided;
            *entered = state.entered;
            *waiting = state.waiting;
            0
        }
        Err(refusal) => refusal.number(),
    }
}
