// What is written of a return that waits: the numbers of its place, its record, zeros once it is decided.
ghost use Rattle.std.specs.Prelude.{◌≡◌, [], ◌∷◌, ◌+◌, ◌*◌, ◌≤◌, length, replicate};
ghost use Rattle.words.specs.Bytes.{splice, elements_of};
ghost use Rattle.slots.specs.Slots.{free_slot};
ghost use Rattle.waiting.specs.Changes.{records_at};

use slots::{Change, FREE_SLOT, Slot};

// What a call that writes a message comes to: the record that changes, and the length of the message.
#[derive(Clone, Copy)]
pub struct Sent {
    pub change: Change,
    pub written: usize,
}

// Reads the element bytes x of a share into the numbers from `at`.
pub fn read_share(numbers: &mut [u32], at: usize, x: &[u8], size: usize)
    requires { (length x.now ≡ 4 * size) × (at + size ≤ length numbers.old) }
    ensures { numbers.new ≡ splice numbers.old at (elements_of 4 x.now) }
{
    let end = at + size;
    elements::read(x, &mut numbers[at..end]);
}

// Writes r h(r) and tau behind the elements of a share.
pub fn write_last(numbers: &mut [u32], at: usize, rh: u32, tau: u32)
    requires { at + 2 ≤ length numbers.old }
    ensures { numbers.new ≡ splice numbers.old at (rh ∷ tau ∷ []) }
{
    numbers[at] = rh;
    numbers[at + 1] = tau;
}

// Erases n numbers from `at`.
pub fn erase(numbers: &mut [u32], at: usize, n: usize)
    requires { at + n ≤ length numbers.old }
    ensures { numbers.new ≡ splice numbers.old at (replicate n 0) }
{
    let end = at + n;
    numbers[at..end].fill(0);
}

// What a call does to the list that leaves a record at a place.
pub fn records(at: usize, slot: Slot) -> Change
    ensures { result ≡ records_at at slot }
{
    Change { at, slot }
}

// What a call does to the list that decides the return at a place: its record is free.
pub fn frees(at: usize) -> Change
    ensures { result ≡ records_at at free_slot }
{
    records(at, FREE_SLOT)
}
