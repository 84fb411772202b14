// The waiting list of a server's table, eight records by value, and the run of numbers beside it: which record is free, which
// has an id, how many returns wait, whether they keep to the limits, what a record says. The contracts cite rules and specs/.
#![tactic(auto)]

ghost use Rattle.std.specs.Prelude.{◌≡◌, ◌+◌, ◌≤◌, ◌<◌, length, IfSome};
ghost use Rattle.field.specs.Residues.{prime};
ghost use Rattle.rules.specs.WaitingList.{is_free, free_place, place_of, waits_under, waiting_count};
ghost use Rattle.waiting.specs.Soundness.{record_sound_at, waiting_sound_at};
ghost use Rattle.waiting.specs.Stages.{place_in};
ghost use Rattle.waiting.specs.Held.{held_at};

use slots::Slot;

pub mod writing;

// The stages of a record.
#[derive(Clone, Copy, Debug, PartialEq, Eq)]
pub enum Stage {
    Free = 0,
    AwaitsOne = 1,
    AwaitsTwo = 2,
    AwaitsEntry = 3,
}

// What a return that waits is known by, besides its share: its id and its pair; d_i and e_i in the first wait, the sums d and
// e afterwards; r h_i(r) and tau_i.
#[derive(Clone, Copy)]
pub struct Waiting {
    pub id: u32,
    pub r: u64,
    pub s: u64,
    pub d: u32,
    pub e: u32,
    pub rh: u32,
    pub tau: u32,
}

// Whether nothing waits in a record.
fn is_free(x: Slot) -> bool
    ensures { result ≡ is_free x }
{
    x.stage == Stage::Free as u32
}

// Whether a return waits in a record under an id.
fn waits_under(x: Slot, id: u32) -> bool
    ensures { result ≡ waits_under id x }
{
    !is_free(x) && x.id == id
}

// How many returns wait.
#[tactic(auto, using(crate::proofs::Places::count_is))]
pub fn count(list: [Slot; 8]) -> u32
    ensures { result ≡ waiting_count list }
{
    list.iter().filter(|x| !is_free(**x)).count() as u32
}

// The place of the first free record.
pub fn free_place(list: [Slot; 8]) -> Option<usize>
    ensures place { place_in result ≡ free_place list }
    ensures within { IfSome result (λ i. i < 8) }
{
    list.iter().position(|x| is_free(*x))
}

// The place of the first record in which a return waits under an id.
pub fn place_of(list: [Slot; 8], id: u32) -> Option<usize>
    ensures place { place_in result ≡ place_of id list }
    ensures within { IfSome result (λ i. i < 8) }
{
    list.iter().position(|x| waits_under(*x, id))
}

// Whether a record keeps to the limits, ns being the numbers of its place.
fn record_sound(x: Slot, ns: &[u32], gates: usize) -> bool
    ensures { result ≡ record_sound_at gates x ns.now }
{
    x.stage <= Stage::AwaitsEntry as u32
        && (is_free(x)
            || (limits::pair_sound(gates, x.r, x.s)
                && x.d < u64::from(field::P)
                && x.e < u64::from(field::P)
                && elements::all_below(ns, field::P)))
}

// Whether the run of numbers has room for eight places of `size` numbers, and every record keeps to the limits. The loop goes by
// the places: the compiler then reads of a record what is asked for, and not all fields of all eight first.
pub fn sound(list: [Slot; 8], numbers: &[u32], gates: usize, size: usize) -> bool
    requires { (1 ≤ size) × (size ≤ 776) }
    ensures { result ≡ waiting_sound_at gates size list numbers.now }
{
    let end = 8 * size;
    if numbers.len() < end {
        return false;
    }
    let mut i: usize = 0;
    let mut at: usize = 0;
    while at < end {
        let next = at + size;
        if !record_sound(list[i], &numbers[at..next], gates) {
            return false;
        }
        i += 1;
        at = next;
    }
    true
}

// What a record says, with the numbers ns of its place, of which `size` are its share.
pub fn held(x: Slot, ns: &[u32], size: usize) -> Waiting
    requires { (size + 2 ≤ length ns.now) × (x.d < prime) × (x.e < prime) }
    ensures { result ≡ held_at x ns.now size }
{
    Waiting {
        id: x.id,
        r: x.r,
        s: x.s,
        d: x.d as u32,
        e: x.e as u32,
        rh: ns[size],
        tau: ns[size + 1],
    }
}
