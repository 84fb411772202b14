// Entering an accepted return in a server's table: its published entries are added to the totals, and it is decided. The definitions
// that the contracts cite are those of the crate rules, at document 01's setting, and of specs/. A refusal leaves the table as it was.
#![tactic(auto)]

ghost use Rattle.waiting.specs.Changes.{lent};
ghost use Rattle.entering.specs.Calls.{Enters};

use records::Refusal;
use rounds::named::{find, share_at};
use slots::{Change, Slot};
use table::deciding::decide;
use waiting::Stage;

mod adding;

// Enters the return that waits for its entry under an id.
pub fn enter(
    table: &mut [u8],
    list: [Slot; 8],
    numbers: &mut [u32],
    id: u32,
) -> Result<Change, Refusal>
    ensures { Enters (lent table.old list numbers.old) id result table.new numbers.new }
{
    let named = find(table, list, numbers, id, Stage::AwaitsEntry)?;
    let k = named.table;
    adding::add_published(table, k, share_at(numbers, k, named.at));
    Ok(decide(table, k, numbers, named.at, 1, id))
}
