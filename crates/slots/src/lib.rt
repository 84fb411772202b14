// The waiting list: a lent slice of eight records. Functions over the slice are few and thin: the eight are copied out, the
// rules work on them by value, and one change is applied.
#![tactic(auto)]

ghost use Rattle.std.specs.Prelude.{◌≡◌, ◌<◌, length, IfSome};
ghost use Rattle.slots.specs.Slots.{eight_of, applied, cleared};

// A return that waits: its stage is 0 where the record is free.
#[repr(C)]
#[derive(Clone, Copy)]
pub struct Slot {
    pub id: u32,
    pub stage: u32,
    pub r: u64,
    pub s: u64,
    pub d: u64,
    pub e: u64,
}

// A record in which nothing waits.
pub const FREE_SLOT: Slot = Slot {
    id: 0,
    stage: 0,
    r: 0,
    s: 0,
    d: 0,
    e: 0,
};

// A record of a stage that no rule knows.
pub const BROKEN_SLOT: Slot = Slot {
    id: 0,
    stage: 255,
    r: 0,
    s: 0,
    d: 0,
    e: 0,
};

// What a call that is not refused does to the list: one record anew.
#[derive(Clone, Copy)]
pub struct Change {
    pub at: usize,
    pub slot: Slot,
}

// The eight records; broken ones where there are not eight, which no rule takes.
pub fn copied(slots: &[Slot]) -> [Slot; 8]
    ensures { result ≡ eight_of slots.now }
{
    if slots.len() == 8 {
        return <[Slot; 8]>::try_from(slots).unwrap();
    }
    [BROKEN_SLOT; 8]
}

// None is the change of a call that is refused.
pub fn apply(slots: &mut [Slot], change: Option<Change>)
    requires { IfSome change (λ c. c.at < length slots.old) }
    ensures { slots.new ≡ applied slots.old change }
{
    if let Some(Change { at, slot }) = change {
        slots[at] = slot;
    }
}

// What opening does to the list: nothing where it is refused, else eight free records.
#[tactic(auto, unfolding(crate::specs::Slots::cleared))]
pub fn clear(slots: &mut [Slot], refusal: u32)
    requires { refusal ≡ 0 → length slots.old ≡ 8 }
    ensures { slots.new ≡ cleared slots.old refusal }
{
    if refusal == 0 {
        slots.fill(FREE_SLOT);
    }
}
