// Records and refusals: the definitions are in specs/. Here: why a call is refused, with its number at the C functions, and how
// the answer of a call is handed to a host.
#![tactic(auto)]

ghost use Rattle.std.specs.Prelude.{◌≡◌};
ghost use Rattle.records.specs.Refusals.{number_of, fault_of};
ghost use Rattle.records.specs.Answers.{length_of};

// Why a call is refused: the numbers and the names are those of include/pool.h.
#[derive(Clone, Copy, Debug, PartialEq, Eq)]
pub enum Refusal {
    // an unknown kind byte, or a body that is cut off
    Kind = 1,
    // a number outside its limits
    Limit = 2,
    // a wire that is not yet made, or an entry that does not exist
    Wire = 3,
    // N returns could make a total of p or more
    Wrap = 4,
    // not one value for each column, or a value outside its column
    Value = 5,
    // not the right number of random elements or seeds, or an element not below p
    Random = 6,
    // a share message of the wrong kind, length or server
    Share = 7,
    // a share element not below p
    Element = 8,
    // r or s outside its range
    Pair = 9,
    // the id is decided or waits
    Decided = 10,
    // an unsound table, or a call that its stage does not take
    Stage = 11,
    // joined messages that are not one of each server
    Joined = 12,
    // N returns are decided or wait
    Full = 13,
    // a buffer that is too short
    Room = 14,
    // fewer than Q returns are entered
    Few = 15,
    // r or s is not the same in all messages
    Unequal = 16,
    // more than 4,096 lists of values
    Many = 17,
    // no one line fits
    NoLine = 18,
    // not R messages of W bytes
    Run = 19,
}

impl Refusal {
    // Its number at the C functions.
    pub fn number(self) -> u32
        ensures { result ≡ number_of self }
    {
        self as u32
    }
}

// The number that an answer comes to, 0 where it is not refused.
pub fn number_of<T: Copy>(answer: Result<T, Refusal>) -> u32
    ensures { result ≡ fault_of answer }
{
    match answer {
        Ok(_) => 0,
        Err(refusal) => refusal.number(),
    }
}

// The same of a call that writes; the length written goes behind the pointer.
pub fn hand_back(answer: Result<usize, Refusal>, written: &mut usize) -> u32
    ensures number { result ≡ fault_of answer }
    ensures length { written.new ≡ length_of answer written.old }
{
    if let Ok(length) = answer {
        *written = length;
    }
    number_of(answer)
}
