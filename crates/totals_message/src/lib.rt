// The totals message: what is at fault in joined ones, the sums over them, and what is written before the totals, at
// document 01's prime and width. The contracts cite the crate rules and specs/. Joined bytes may be any slice: their length
// is checked first.
#![tactic(auto)]

ghost use Rattle.std.specs.Prelude.{◌≡◌, ◌≤◌, length};
ghost use Rattle.words.specs.Bytes.{splice};
ghost use Rattle.records.specs.Refusals.{fault_of};
ghost use Rattle.rules.specs.Settings.{document01};
ghost use Rattle.rules.specs.Joining.{accepted_count, totals_sound};
ghost use Rattle.totals_message.specs.Totals.{all_totals_sound, joined_fault_at, total_at, totals_header};
ghost use Rattle.totals_message.specs.Totals.{Limited, WholeTotals, SummableTotals};

use records::Refusal;

// The byte that a totals message begins with.
const KIND: u8 = 36;

// The accepted count in a totals message.
pub fn accepted_count(m: &[u8]) -> u32
    requires { 6 ≤ length m.now }
    ensures { result ≡ accepted_count m.now }
{
    words::read_u32(m, 2)
}

// Whether one server's bytes are its totals message with this count.
fn totals_sound(m: &[u8], count: u32, server: u8) -> bool
    requires { 6 ≤ length m.now }
    ensures { result ≡ totals_sound document01 count server m.now }
{
    m[0] == KIND
        && m[1] == server
        && accepted_count(m) == count
        && elements::below(&m[6..], field::P)
}

// Whether each server's bytes, from its own place on, are its message with this count.
fn all_totals_sound(joined: &[u8], servers: usize, published: usize, count: u32) -> bool
    requires { WholeTotals servers published joined.now }
    ensures { result ≡ all_totals_sound servers published count joined.now }
{
    let size = 6 + 4 * published;
    for i in 0..servers {
        let start = size * i;
        if !totals_sound(&joined[start..start + size], count, i as u8) {
            return false;
        }
    }
    true
}

// Whether joined bytes are one sound totals message of each server, with one count of N or fewer.
pub fn check_totals(
    joined: &[u8],
    servers: u32,
    published: usize,
    returns: u32,
) -> Result<(), Refusal>
    requires { Limited servers published }
    ensures { fault_of result ≡ joined_fault_at servers published returns joined.now }
{
    let count = servers as usize;
    if joined.len() != (6 + 4 * published) * count {
        return Err(Refusal::Joined);
    }
    let accepted = accepted_count(joined);
    if !all_totals_sound(joined, count, published, accepted) {
        return Err(Refusal::Joined);
    }
    if returns < accepted {
        return Err(Refusal::Joined);
    }
    Ok(())
}

// Total k of joined messages: the sum of their elements k.
pub fn totals_sum(joined: &[u8], servers: u32, published: usize, k: usize) -> u32
    requires { SummableTotals servers published k joined.now }
    ensures { result ≡ total_at servers published joined.now k }
{
    steps::sum_words(joined, 6 + 4 * published, 6 + 4 * k, servers as usize)
}

// Writes what stands before the totals in a totals message.
pub fn write_totals_header(out: &mut [u8], own: u8, count: u32)
    requires { 6 ≤ length out.old }
    ensures { out.new ≡ splice out.old 0 (totals_header own count) }
{
    out[0] = KIND;
    out[1] = own;
    words::write_u32(out, 2, count);
}
