// The share message of either kind: what is at fault in its header, its elements or its seed, and what is written before them, at
// document 01's prime and width. A round message begins as a share does: kind byte, id, server. The contracts cite the crate rules
// and specs/.
#![tactic(auto)]

ghost use Rattle.std.specs.Prelude.{◌≡◌, ◌+◌, ◌≤◌, length};
ghost use Rattle.words.specs.Bytes.{splice};
ghost use Rattle.records.specs.Refusals.{fault_of};
ghost use Rattle.rules.specs.Messages.{id_in, brings_seed};
ghost use Rattle.share_message.specs.Shares.{seed_sound, long_sound, kind_sound_at, header_fault_at, share_part, header_bytes};

use records::Refusal;

// The kind bytes of a share message with elements and of one with a seed, and the bytes of the latter.
pub const SHARE_KIND: u8 = 33;

pub const SEED_KIND: u8 = 38;

pub const SEED_LENGTH: usize = 38;

// Whether a message brings a seed, by its kind byte.
pub fn brings_seed(m: &[u8]) -> bool
    ensures { result ≡ brings_seed m.now }
{
    m.first() == Some(&SEED_KIND)
}

// Whether a message with a seed has its length and can be for server `own`: server 0 gets elements.
fn seed_sound(m: &[u8], own: u32) -> bool
    ensures { result ≡ seed_sound own m.now }
{
    m.len() == SEED_LENGTH && own != 0
}

// Whether a message has the length and the kind byte of a share of `size` elements.
fn long_sound(m: &[u8], size: usize) -> bool
    requires { size ≤ 774 }
    ensures { result ≡ long_sound size m.now }
{
    m.len() == 6 + 4 * size && m[0] == SHARE_KIND
}

// Whether a message has the kind byte and the length of a share for server `own`, with a seed or with `size` elements.
fn kind_sound(m: &[u8], size: usize, own: u32) -> bool
    requires { size ≤ 774 }
    ensures { result ≡ kind_sound_at size own m.now }
{
    if brings_seed(m) {
        seed_sound(m, own)
    } else {
        long_sound(m, size)
    }
}

// Checks the kind byte, the length and the server of a share of `size` elements.
pub fn check_header(m: &[u8], size: usize, own: u32) -> Result<(), Refusal>
    requires { size ≤ 774 }
    ensures { fault_of result ≡ header_fault_at size own m.now }
{
    if kind_sound(m, size, own) && u32::from(m[5]) == own {
        Ok(())
    } else {
        Err(Refusal::Share)
    }
}

// The element bytes or the seed of a share, as that part of the message; an empty part where the header is refused.
pub fn share_part<'a>(m: &'a [u8], size: usize, own: u32) -> &'a [u8]
    requires { size ≤ 774 }
    ensures { result.now ≡ share_part size own m.now }
{
    match check_header(m, size, own) {
        Ok(()) => &m[6..],
        Err(_) => &m[..0],
    }
}

// The id in a share or a round message.
pub fn id_of(m: &[u8]) -> u32
    requires { 6 ≤ length m.now }
    ensures { result ≡ id_in m.now }
{
    words::read_u32(m, 1)
}

// Writes what stands before the elements or the seed of a share or round message.
pub fn write_header(out: &mut [u8], at: usize, kind: u8, id: u32, server: u8)
    requires { at + 6 ≤ length out.old }
    ensures { out.new ≡ splice out.old at (header_bytes kind id server) }
{
    out[at] = kind;
    words::write_u32(out, at + 1, id);
    out[at + 5] = server;
}
