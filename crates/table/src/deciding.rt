// Deciding a return that waits: the bytes note it, its record and the numbers of its place are erased.
ghost use Rattle.table.specs.Deciding.{Placed, Decided};

use layout::Table;
use layout::writing::note_decided;
use slots::Change;
use waiting::writing::{erase, frees};

// Decides the return at a place, under its id: `entered` is 1 where it is entered, 0 where it is rejected or dropped.
pub fn decide(
    t: &mut [u8],
    k: Table,
    numbers: &mut [u32],
    at: usize,
    entered: u32,
    id: u32,
) -> Change
    requires { Placed t.old k numbers.old at entered }
    ensures { Decided k at entered id t.old numbers.old result t.new numbers.new }
{
    note_decided(t, k, entered, id);
    let size = k.place_size();
    erase(numbers, size * at, size);
    frees(at)
}
