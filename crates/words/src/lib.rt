// Bytes copied and compared, and numbers as bytes, lowest byte first. The definitions that the contracts cite, over any
// width, are in specs/Bytes.antt. Each function asks that what it reads or writes lies within the slice.
#![tactic(auto)]

ghost use Rattle.std.specs.Prelude.{◌≡◌, ◌+◌, ◌≤◌, length};
ghost use Rattle.words.specs.Bytes.{value_of, bytes_of, part, splice, same_bytes};

// The number that the two bytes from `at` say.
pub fn read_u16(s: &[u8], at: usize) -> u32
    requires { at + 2 ≤ length s.now }
    ensures { result ≡ value_of (part at 2 s.now) }
{
    u32::from(u16::from_le_bytes([s[at], s[at + 1]]))
}

// The number that the four bytes from `at` say.
pub fn read_u32(s: &[u8], at: usize) -> u32
    requires { at + 4 ≤ length s.now }
    ensures { result ≡ value_of (part at 4 s.now) }
{
    u32::from_le_bytes([s[at], s[at + 1], s[at + 2], s[at + 3]])
}

// Writes the two lowest bytes of `n` from `at`.
pub fn write_u16(s: &mut [u8], at: usize, n: u32)
    requires { at + 2 ≤ length s.old }
    ensures { s.new ≡ splice s.old at (bytes_of 2 n) }
{
    s[at..at + 2].copy_from_slice(&n.to_le_bytes()[..2]);
}

// Writes the four bytes of `v` from `at`.
pub fn write_u32(s: &mut [u8], at: usize, v: u32)
    requires { at + 4 ≤ length s.old }
    ensures { s.new ≡ splice s.old at (bytes_of 4 v) }
{
    s[at..at + 4].copy_from_slice(&v.to_le_bytes());
}

// Writes the bytes `from` from `at`.
pub fn copy(s: &mut [u8], at: usize, from: &[u8])
    requires { at + length from.now ≤ length s.old }
    ensures { s.new ≡ splice s.old at from.now }
{
    for (i, byte) in from.iter().enumerate() {
        s[at + i] = *byte;
    }
}

// Whether two runs of bytes are equal.
pub fn equal(a: &[u8], b: &[u8]) -> bool
    ensures { result ≡ same_bytes a.now b.now }
{
    a == b
}
