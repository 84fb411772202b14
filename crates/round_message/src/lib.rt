// The messages of the two rounds: what is at fault in joined ones, in whatever order they arrived, the sums over them, and one
// written, at document 01's prime and width. The contracts cite the crate rules and specs/. Joined bytes may be any slice: their
// length is checked first.
#![tactic(auto)]

ghost use Rattle.std.specs.Prelude.{◌≡◌, [], ◌∷◌, ◌≤◌, ◌<◌, length};
ghost use Rattle.words.specs.Bytes.{splice};
ghost use Rattle.records.specs.Refusals.{fault_of};
ghost use Rattle.rules.specs.Settings.{document01};
ghost use Rattle.rules.specs.Making.{message};
ghost use Rattle.rules.specs.Messages.{round_elements, round_length, element_in, place_in, round_sound, still_missing, own_kept, place_sound};
ghost use Rattle.rules.specs.Messages.{round_fault, same_pair, challenge_fault, element_sum};
ghost use Rattle.round_message.specs.Rounds.{code_of, Placed, Places, InPlace, Whole, all_sound, Summable};

use records::Refusal;

// The bytes of a message of round one, which has four elements, and of round two, which has two.
pub const LENGTH_ONE: usize = 22;

pub const LENGTH_TWO: usize = 14;

// A round, by the kind byte of its messages.
#[derive(Clone, Copy, Debug, PartialEq, Eq)]
pub enum Round {
    One = 34,
    Two = 35,
}

impl Round {
    // The kind byte of its message.
    fn code(self) -> u8
        ensures { result ≡ code_of self }
    {
        self as u8
    }

    // The bytes of its message.
    pub fn length(self) -> usize
        ensures { result ≡ round_length document01 (code_of self) }
    {
        match self {
            Round::One => LENGTH_ONE,
            Round::Two => LENGTH_TWO,
        }
    }
}

// The bytes of a round's message, by its kind byte; those of round two for a byte that is no round's.
pub fn length_of(kind: u8) -> usize
    ensures { result ≡ round_length document01 kind }
{
    if kind == Round::One as u8 {
        LENGTH_ONE
    } else {
        LENGTH_TWO
    }
}

// Whether bytes are a message of a round for an id, of one of the servers, with nothing but elements behind that.
fn round_sound(m: &[u8], servers: u8, round: Round, id: u32) -> bool
    requires { round_length document01 35 ≤ length m.now }
    ensures { result ≡ round_sound document01 servers (code_of round) id m.now }
{
    m[0] == round.code()
        && share_message::id_of(m) == id
        && m[5] < servers
        && elements::below(&m[6..], field::P)
}

// Whether a server is still missing at place i: none of the places before names it.
fn still_missing(joined: &[u8], round: Round, server: u8, i: usize) -> bool
    requires { Places (code_of round) i joined.now }
    ensures { result ≡ still_missing document01 (code_of round) joined.now server i }
{
    let size = round.length();
    (0..i).all(|j| joined[size * j + 5] != server)
}

// Whether a message, where it names the own server, is the own one.
fn own_kept(m: &[u8], own: u8, mine: &[u8]) -> bool
    requires { round_length document01 35 ≤ length m.now }
    ensures { result ≡ own_kept own mine.now m.now }
{
    m[5] != own || words::equal(m, mine)
}

// Whether the bytes at a place are a sound message of a server that no place before names, and the own message where they name the
// own server.
fn place_sound(
    joined: &[u8],
    servers: u8,
    round: Round,
    id: u32,
    own: u8,
    mine: &[u8],
    i: usize,
) -> bool
    requires { InPlace (code_of round) i joined.now }
    ensures { result ≡ place_sound document01 servers (code_of round) id own mine.now joined.now i }
{
    let size = round.length();
    let start = size * i;
    let m = &joined[start..start + size];
    round_sound(m, servers, round, id)
        && still_missing(joined, round, joined[start + 5], i)
        && own_kept(m, own, mine)
}

// Whether each place holds one.
fn all_sound(joined: &[u8], servers: u8, round: Round, id: u32, own: u8, mine: &[u8]) -> bool
    requires { Whole servers (code_of round) joined.now }
    ensures { result ≡ all_sound servers (code_of round) id own mine.now joined.now }
{
    (0..servers as usize).all(|i| place_sound(joined, servers, round, id, own, mine, i))
}

// Checks the joined messages of a round for an id, of which the one of server `own` is `mine`.
pub fn check_round(
    joined: &[u8],
    servers: u32,
    round: Round,
    id: u32,
    own: u32,
    mine: &[u8],
) -> Result<(), Refusal>
    requires { Placed servers own }
    ensures { fault_of result ≡ round_fault document01 servers (code_of round) id own mine.now joined.now }
{
    if joined.len() == round.length() * servers as usize
        && all_sound(joined, servers as u8, round, id, own as u8, mine)
    {
        Ok(())
    } else {
        Err(Refusal::Joined)
    }
}

// Element k of the message at a place of round one.
fn element(joined: &[u8], i: usize, k: usize) -> u32
    requires { InPlace 34 i joined.now × (k < round_elements 34) }
    ensures { result ≡ element_in document01 k (place_in document01 34 joined.now i) }
{
    words::read_u32(joined, LENGTH_ONE * i + (6 + 4 * k))
}

// Whether the message at a place has the r and the s of the first.
fn same_pair(joined: &[u8], i: usize) -> bool
    requires { InPlace 34 i joined.now }
    ensures { result ≡ same_pair document01 joined.now i }
{
    element(joined, i, 2) == element(joined, 0, 2) && element(joined, i, 3) == element(joined, 0, 3)
}

// Checks that the challenges in joined messages of round one are the same.
pub fn check_challenges(joined: &[u8], servers: u32) -> Result<(), Refusal>
    requires { Whole servers 34 joined.now }
    ensures { fault_of result ≡ challenge_fault document01 servers joined.now }
{
    if (0..servers as usize).all(|i| same_pair(joined, i)) {
        Ok(())
    } else {
        Err(Refusal::Unequal)
    }
}

// The sum of the elements k of joined messages.
pub fn element_sum(joined: &[u8], servers: u32, round: Round, k: usize) -> u32
    requires { Summable servers (code_of round) joined.now × (k < round_elements (code_of round)) }
    ensures { result ≡ element_sum document01 k (code_of round) servers joined.now }
{
    steps::sum_words(joined, round.length(), 6 + 4 * k, servers as usize)
}

// Writes a message's kind byte, id and server, and two elements.
fn write_pair(out: &mut [u8], round: Round, id: u32, server: u8, x: u32, y: u32)
    requires { round_length document01 35 ≤ length out.old }
    ensures { out.new ≡ splice out.old 0 (message document01 (code_of round) id server (x ∷ y ∷ [])) }
{
    share_message::write_header(out, 0, round.code(), id, server);
    words::write_u32(out, 6, x);
    words::write_u32(out, 10, y);
}

// Writes a server's message of round one for an id.
pub fn write_one(out: &mut [u8], id: u32, server: u8, d: u32, e: u32, r: u32, s: u32)
    requires { round_length document01 34 ≤ length out.old }
    ensures { out.new ≡ splice out.old 0 (message document01 34 id server (d ∷ e ∷ r ∷ s ∷ [])) }
{
    write_pair(out, Round::One, id, server, d, e);
    words::write_u32(out, 14, r);
    words::write_u32(out, 18, s);
}

// Writes a server's message of round two for an id.
pub fn write_two(out: &mut [u8], id: u32, server: u8, sigma: u32, tau: u32)
    requires { round_length document01 35 ≤ length out.old }
    ensures { out.new ≡ splice out.old 0 (message document01 35 id server (sigma ∷ tau ∷ [])) }
{
    write_pair(out, Round::Two, id, server, sigma, tau);
}
