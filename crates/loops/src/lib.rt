// Loops that fill a slice with elements modulo the prime, each from one before it: products of differences, and powers.
// Each contract is an equality with a definition of algebra at that prime. No step depends on the value of an element.
#![tactic(auto)]

ghost use Rattle.std.specs.Prelude.{◌≡◌, ◌<◌, ◌≤◌, length, take};
ghost use Rattle.algebra.specs.Sums.{power};
ghost use Rattle.algebra.specs.Interpolation.{ascending as Interpolation·ascending};
ghost use Rattle.algebra.specs.Lists.{tabulate};
ghost use Rattle.field.specs.Residues.{prime, residues};

// out[j] = x (x - 1) .. (x - (j - 1))
pub fn ascending(x: u32, out: &mut [u32])
    requires { (x < prime) × (length out.old ≤ prime) }
    ensures { out.new
        ≡ tabulate (λ j. Interpolation·ascending residues 0 j x) (length out.old) }
{
    let mut acc: u32 = 1;
    for (i, place) in out.iter_mut().enumerate() {
        *place = acc;
        acc = field::mul(acc, field::sub(x, i as u32));
    }
}

// The powers of s, each from the one before.
fn chain(s: u32, out: &mut [u32])
    requires { s < prime }
    ensures { out.new ≡ tabulate (power residues s) (length out.old) }
{
    let mut acc: u32 = 1;
    for place in out.iter_mut() {
        *place = acc;
        acc = field::mul(acc, s);
    }
}

// The powers of s where the first k are there: each is the one k places before it times s to the power k, so that k turns
// do not wait for each other.
fn stretch(s: u32, k: usize, out: &mut [u32])
    requires k_in_bounds { (s < prime) × (0 < k) × (k ≤ length out.old) }
    requires first_powers { take k out.old ≡ tabulate (power residues s) k }
    ensures { out.new ≡ tabulate (power residues s) (length out.old) }
{
    let by = field::mul(out[k - 1], s);
    for i in k..out.len() {
        out[i] = field::mul(out[i - k], by);
    }
}

// out[j] = s to the power j
pub fn powers(s: u32, out: &mut [u32])
    requires { s < prime }
    ensures { out.new ≡ tabulate (power residues s) (length out.old) }
{
    let n = out.len();
    if n <= 8 {
        chain(s, out);
        return;
    }
    chain(s, &mut out[..8]);
    if n <= 32 {
        stretch(s, 8, out);
        return;
    }
    stretch(s, 8, &mut out[..32]);
    stretch(s, 32, out);
}
