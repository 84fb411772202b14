// The elements that a seed stands for: ChaCha20 keyed by the seed, counted from 0, with the id in its nonce. The contract of
// `fill_elements` is an equality with rules' definition at document 01's setting. No step depends on the value of a seed.
#![tactic(auto)]

ghost use Rattle.std.specs.Prelude.{◌≡◌, ◌-◌, ◌≤◌, ◌^◌, length, get_or};
ghost use Rattle.algebra.specs.Lists.{tabulate};
ghost use Rattle.chacha.specs.ChaCha.{mixed};
ghost use Rattle.rules.specs.Settings.{document01};
ghost use Rattle.rules.specs.Seeds.{element_of, seed_elements};
ghost use Rattle.seeds.specs.Filling.{streamed};

// The bytes of a seed.
pub const SEED_SIZE: usize = 32;

// 2 to the power 31.
const TOP: u32 = 1 << 31;

// The element of a stream word. Below 2 to the power 31 only p itself is not its own remainder: one more makes it that power.
fn element(w: u32) -> u32
    ensures { result ≡ element_of document01 w }
{
    let v = w % TOP;
    (v + (v + 1) / TOP) % TOP
}

// The elements of the first words of x.
fn reduce(x: &[u32], out: &mut [u32])
    requires { length out.old ≤ length x.now }
    ensures { out.new
        ≡ tabulate (λ j. element_of document01 (get_or x.now j 0)) (length out.old) }
{
    for (j, y) in out.iter_mut().enumerate() {
        *y = element(x[j]);
    }
}

// The first elements of the block that the state s gives.
fn fill_block(s: &[u32], out: &mut [u32])
    requires { (length s.now ≡ 16) × (length out.old ≤ 16) }
    ensures { out.new
        ≡ tabulate (λ j. element_of document01 (get_or (mixed s.now) j 0)) (length out.old) }
{
    let mut x = [0u32; 16];
    chacha::block(s, &mut x);
    reduce(&x, out);
}

// The elements of the stream that the state s gives, from the count 0 on. A count has 32 bits.
fn fill(s: &mut [u32], out: &mut [u32])
    requires { (length s.old ≡ 16) × (length out.old ≤ 2 ^ 36) }
    ensures { out.new ≡ tabulate (streamed s.old) (length out.old) }
{
    let n = out.len();
    for count in 0..n.div_ceil(16) {
        let at = 16 * count;
        let end = n.min(at + 16);
        s[12] = count as u32;
        fill_block(s, &mut out[at..end]);
    }
}

// Fills `out` with the elements that a seed stands for under an id.
pub fn fill_elements(seed: &[u8], id: u32, out: &mut [u32])
    requires { (length seed.now ≡ 32) × (length out.old ≤ 2 ^ 36) }
    ensures { out.new ≡ seed_elements document01 seed.now id (length out.old) }
{
    let mut nonce = [0u8; 12];
    words::write_u32(&mut nonce, 0, id);
    let mut s = [0u32; 16];
    chacha::start(seed, &nonce, &mut s);
    fill(&mut s, out);
}
