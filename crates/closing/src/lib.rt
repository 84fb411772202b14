// Dropping a return that waits in a server's table, and closing the table. The definitions that the contracts cite are those of
// the crate rules, at document 01's setting, and of specs/. A refusal leaves all that is lent as it was.
#![tactic(auto)]

ghost use Rattle.waiting.specs.Changes.{lent};
ghost use Rattle.closing.specs.Calls.{Drops, Closes};

use layout::CLOSED;
use layout::writing::write_closing;
use records::Refusal;
use slots::{Change, Slot};
use table::deciding::decide;
use table::read;
use waiting::{count, place_of};

// Drops the return that waits under an id, in whichever stage. The id stays used.
pub fn drop(
    table: &mut [u8],
    list: [Slot; 8],
    numbers: &mut [u32],
    id: u32,
) -> Result<Change, Refusal>
    ensures { Drops (lent table.old list numbers.old) id result table.new numbers.new }
{
    let k = read(table, list, numbers)?;
    if k.closed {
        return Err(Refusal::Stage);
    }
    let at = place_of(list, id).ok_or(Refusal::Stage)?;
    Ok(decide(table, k, numbers, at, 0, id))
}

// Closes a table in which nothing waits and at least Q returns are entered: their count and the totals go into the closing message,
// and it takes nothing more. Gives the length of the message.
pub fn close(
    table: &mut [u8],
    list: [Slot; 8],
    numbers: &[u32],
    out: &mut [u8],
) -> Result<usize, Refusal>
    ensures { Closes (lent table.old list numbers.now) out.old result table.new out.new }
{
    let k = read(table, list, numbers)?;
    if k.closed || count(list) != 0 {
        return Err(Refusal::Stage);
    }
    if k.entered < k.least {
        return Err(Refusal::Few);
    }
    let size = 6 + 4 * k.published;
    if out.len() < size {
        return Err(Refusal::Room);
    }
    write_closing(table, k, out);
    table[1] = CLOSED;
    Ok(size)
}
