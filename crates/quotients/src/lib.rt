// The inverses of 1 to 512 modulo the prime, from one constant table, and the weights of the points 0, .., n for n up to
// 512, as products of its numbers, so that no call works out an inverse. That the table is right is proved by one test of
// its entries, which the prover computes: number times inverse leaves 1.
#![tactic(auto)]

ghost use Rattle.std.specs.Prelude.{◌≡◌, suc, ◌+◌, ◌-◌, ◌/◌, ◌<◌, ◌≤◌, length, take, drop};
ghost use Rattle.algebra.specs.Lists.{tabulate};
ghost use Rattle.algebra.specs.Interpolation.{weight, sign};
ghost use Rattle.field.specs.Residues.{prime, residues};
ghost use Rattle.quotients.specs.Factorials.{Inverses, inverse_factorial, next_over};

mod tables;

// out[i] = 1 / (i + 1)
pub fn fill_inverses(out: &mut [u32])
    requires { length out.old ≤ 512 }
    ensures { out.new ≡ tabulate (λ i. residues.inv (suc i)) (length out.old) }
{
    let n = out.len();
    out.copy_from_slice(&tables::INVERSES[..n]);
}

// (- 1) to the power k, times x
fn signed(k: usize, x: u32) -> u32
    requires { x < prime }
    ensures { result ≡ residues.◌⊗◌ (sign residues k) x }
{
    if k % 2 == 0 { x } else { field::neg(x) }
}

// 1 / n!, by four inverses at a time, so that three products of four do not wait for the one before.
fn inverse_factorial(inverses: &[u32], n: usize) -> u32
    requires { Inverses inverses.now × (n ≤ length inverses.now) }
    ensures { result ≡ inverse_factorial n }
{
    let (fours, rest) = inverses[..n].as_chunks::<4>();
    let mut acc: u32 = 1;
    for [a, b, c, d] in fours {
        acc = field::mul(acc, field::mul(field::mul(*a, *b), field::mul(*c, *d)));
    }
    for inverse in rest {
        acc = field::mul(acc, *inverse);
    }
    acc
}

// 1 / (n - n / 2)! from `half`, which is 1 / (n / 2)!
fn other_half(inverses: &[u32], n: usize, half: u32) -> u32
    requires { Inverses inverses.now × (n ≤ length inverses.now) × (half ≡ inverse_factorial (n / 2)) }
    ensures { result ≡ inverse_factorial (n - n / 2) }
{
    if n % 2 == 0 {
        half
    } else {
        field::mul(half, inverses[n / 2])
    }
}

// The weight of the point in the middle, n - n / 2: that of a point j is 1 over j! (n - j)!, with the sign of (- 1) to the
// power n - j.
fn middle(inverses: &[u32], n: usize) -> u32
    requires { Inverses inverses.now × (n ≤ length inverses.now) × (length inverses.now ≤ 512) }
    ensures { result ≡ weight residues n (n - n / 2) }
{
    let half = inverse_factorial(inverses, n / 2);
    field::mul(other_half(inverses, n, half), signed(n / 2, half))
}

// The weight of point j + 1 over that of point j.
fn next_over(inverses: &[u32], n: usize, j: usize) -> u32
    requires { Inverses inverses.now × (j < n) × (n ≤ length inverses.now) × (length inverses.now ≤ 512) }
    ensures { result ≡ next_over n j }
{
    field::mul(field::P - (n - j) as u32, inverses[j])
}

// The weights of the points s, .., n, of which `first` is that of s. A turn makes two of them, so that half of the products
// do not wait for the one before: with two places to a turn and one or two that are left, the loop counts by hand.
fn rise(inverses: &[u32], n: usize, s: usize, first: u32, out: &mut [u32])
    requires inverses { Inverses inverses.now × (n ≤ length inverses.now) × (length inverses.now ≤ 512) }
    requires first_value { (first ≡ weight residues n s) × (s ≤ n) × (s + length out.old ≡ suc n) }
    ensures { out.new ≡ tabulate (λ i. weight residues n (s + i)) (length out.old) }
{
    let m = out.len();
    let mut acc = first;
    let mut i = 0;
    while i + 2 < m {
        let a = next_over(inverses, n, s + i);
        let b = next_over(inverses, n, s + i + 1);
        out[i] = acc;
        out[i + 1] = field::mul(acc, a);
        acc = field::mul(acc, field::mul(a, b));
        i += 2;
    }
    out[i] = acc;
    if i + 1 < m {
        out[i + 1] = field::mul(acc, next_over(inverses, n, s + i));
    }
}

// The weights of the points before s from those behind the middle: the weight of j is that of n - j, with the sign of (- 1)
// to the power n.
fn mirror(s: usize, out: &mut [u32])
    requires s_in_bounds { (s + s ≤ length out.old) × (0 < length out.old) × (length out.old ≤ 513) }
    requires out_value { drop s out.old ≡ tabulate (λ i. weight residues (length out.old - 1) (s + i)) (length out.old - s) }
    ensures { out.new
        ≡ tabulate (weight residues (length out.old - 1)) (length out.old) }
{
    let n = out.len() - 1;
    for j in 0..s {
        out[j] = signed(n, out[n - j]);
    }
}

// The same as `fill_weights`, with the inverses lent: from the middle to the last point, then the others.
fn weigh(inverses: &[u32], out: &mut [u32])
    requires inverses { Inverses inverses.now × (length inverses.now ≤ 512) }
    requires out_nonzero { (0 < length out.old) × (length out.old ≤ suc (length inverses.now)) }
    ensures { out.new
        ≡ tabulate (weight residues (length out.old - 1)) (length out.old) }
{
    let n = out.len() - 1;
    let s = n - n / 2;
    let first = middle(inverses, n);
    rise(inverses, n, s, first, &mut out[s..]);
    mirror(s, out);
}

// out[j] = the weight of point j among 0, .., n, where n + 1 is the length of out: 1 over the product of j - k over the
// other points k.
pub fn fill_weights(out: &mut [u32])
    requires { (0 < length out.old) × (length out.old ≤ 513) }
    ensures { out.new
        ≡ tabulate (weight residues (length out.old - 1)) (length out.old) }
{
    weigh(&tables::INVERSES, out);
}

// Both as `fill_weights` fills one, with the table named once.
pub fn fill_two(first: &mut [u32], second: &mut [u32])
    requires first_nonzero { (0 < length first.old) × (length first.old ≤ 513) }
    requires second_nonzero { (0 < length second.old) × (length second.old ≤ 513) }
    ensures first_after { first.new
        ≡ tabulate (weight residues (length first.old - 1)) (length first.old) }
    ensures second_after { second.new
        ≡ tabulate (weight residues (length second.old - 1)) (length second.old) }
{
    let inverses = &tables::INVERSES;
    weigh(inverses, first);
    weigh(inverses, second);
}
