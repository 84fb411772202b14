// The block function of ChaCha20, RFC 8439, on a state of sixteen words. Each contract is an equality with a definition of
// specs/ChaCha.antt, which goes by the sections of the RFC. No step depends on the value of a word.
#![tactic(auto)]

ghost use Rattle.std.specs.Prelude.{◌≡◌, ◌+◌, ◌/◌, ◌<◌, ◌≤◌, length};
ghost use Rattle.words.specs.Bytes.{splice, elements_of};
ghost use Rattle.chacha.specs.ChaCha.{step, quarter_round, columns, diagonals, rounds, sums, mixed, state};

// a += b; d ^= a; d <<<= n, on the words a, b, d of the state.
fn mix(s: &mut [u32; 16], a: usize, b: usize, d: usize, n: u32)
    requires { (a < 16) × (b < 16) × (d < 16) × (0 < n) × (n < 32) }
    ensures { s.new ≡ step a b d n s.old }
{
    s[a] = s[a].wrapping_add(s[b]);
    s[d] = (s[d] ^ s[a]).rotate_left(n);
}

fn quarter_round(s: &mut [u32; 16], a: usize, b: usize, c: usize, d: usize)
    requires { (a < 16) × (b < 16) × (c < 16) × (d < 16) }
    ensures { s.new ≡ quarter_round a b c d s.old }
{
    mix(s, a, b, d, 16);
    mix(s, c, d, b, 12);
    mix(s, a, b, d, 8);
    mix(s, c, d, b, 7);
}

// A column round and a diagonal round.
fn double_round(s: &mut [u32; 16])
    ensures { s.new ≡ diagonals (columns s.old) }
{
    quarter_round(s, 0, 4, 8, 12);
    quarter_round(s, 1, 5, 9, 13);
    quarter_round(s, 2, 6, 10, 14);
    quarter_round(s, 3, 7, 11, 15);
    quarter_round(s, 0, 5, 10, 15);
    quarter_round(s, 1, 6, 11, 12);
    quarter_round(s, 2, 7, 8, 13);
    quarter_round(s, 3, 4, 9, 14);
}

fn twenty_rounds(s: &mut [u32; 16])
    ensures { s.new ≡ rounds 10 s.old }
{
    for _ in 0..10u32 {
        double_round(s);
    }
}

// out[i] = s[i] + t[i]
fn add(s: &[u32; 16], t: &[u32], out: &mut [u32])
    requires { (length t.now ≡ 16) × (length out.old ≡ 16) }
    ensures { out.new ≡ sums s.now t.now }
{
    for i in 0..16 {
        out[i] = s[i].wrapping_add(t[i]);
    }
}

// The words of the block that the state s gives.
pub fn block(s: &[u32], out: &mut [u32])
    requires { (length s.now ≡ 16) × (length out.old ≡ 16) }
    ensures { out.new ≡ mixed s.now }
{
    let mut x = [0u32; 16];
    x.copy_from_slice(s);
    twenty_rounds(&mut x);
    add(&x, s, out);
}

// Puts the words that the bytes b say into s, from place `at`.
fn load(s: &mut [u32], at: usize, b: &[u8])
    requires { at + length b.now / 4 ≤ length s.old }
    ensures { s.new ≡ splice s.old at (elements_of 4 b.now) }
{
    for i in 0..b.len() / 4 {
        s[at + i] = words::read_u32(b, 4 * i);
    }
}

// The state of a key and a nonce, with the count 0: the constant is its first four words.
pub fn start(key: &[u8], nonce: &[u8], s: &mut [u32])
    requires { (length key.now ≡ 32) × (length nonce.now ≡ 12) × (length s.old ≡ 16) }
    ensures { s.new ≡ state key.now 0 nonce.now }
{
    load(s, 0, b"expand 32-byte k");
    load(s, 4, key);
    s[12] = 0;
    load(s, 13, nonce);
}
