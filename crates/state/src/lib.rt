// Where a pool stands, told from a server's table: S, the own number, N, Q, whether the table is closed, and how many returns are
// decided, entered and wait. The definitions that the contracts cite are those of the crate rules, at document 01's setting, and of
// specs/. Nothing in the table changes.
#![tactic(auto)]

ghost use Rattle.waiting.specs.Changes.{lent};
ghost use Rattle.state.specs.Calls.{Tells};

use records::Refusal;
use slots::Slot;
use waiting::count;

// The eight numbers, in the order of the pointers of pool_state.
#[derive(Clone, Copy, Debug, PartialEq, Eq)]
pub struct State {
    pub servers: u32,
    pub own: u32,
    pub returns: u32,
    pub least: u32,
    // 1 or 0
    pub closed: u32,
    pub decided: u32,
    pub entered: u32,
    pub waiting: u32,
}

// Tells the eight numbers of a sound table.
pub fn tell(table: &[u8], list: [Slot; 8], numbers: &[u32]) -> Result<State, Refusal>
    ensures { Tells (lent table.now list numbers.now) result }
{
    let k = table::read(table, list, numbers)?;
    Ok(State {
        servers: k.servers,
        own: k.own,
        returns: k.returns,
        least: k.least,
        closed: u32::from(k.closed),
        decided: k.decided,
        entered: k.entered,
        waiting: count(list),
    })
}
