// The tables for polynomials of degree at most n, which are given by their values at 0, .., n, and the values that follow from them
// at n + 1, .., 2n.
ghost use Rattle.std.specs.Prelude.{◌≡◌, suc, ◌+◌, ◌-◌, ◌<◌, ◌≤◌, length};
ghost use Rattle.algebra.specs.Lists.{tabulate};
ghost use Rattle.field.specs.Residues.{prime, residues, Elements};
ghost use Rattle.prover.specs.Curves.{fall_at, beyond_at, value_at, scaled_shift, shift_at, Weights, Ready, Curve};

// The weights of the points 0, .., n; the products of t - k over these at t = n + 1, .., 2n, so that n is how many they are; and
// the inverses of 2n, .., 1. The inverses are kept in 64 bits for inner products. It goes by value: a loop that writes would read the
// parts of a lent one again in each turn.
#[derive(Clone, Copy)]
pub struct Tables<'a> {
    pub weights: &'a [u32],
    pub falls: &'a [u32],
    pub back: &'a [u64],
    ghost weighted: { Weights (length falls.now) weights.now },
    ghost ready: { Ready (length falls.now) falls.now back.now },
}

impl Tables<'_> {
    ghost use Rattle.prover.specs.Tables.{degree};

    // The value at t = n + 1 + i of the polynomial with these scaled values: their inner product with the inverses of t - j, which
    // are a stretch of the table, times the product of t - k.
    fn beyond(self, scaled: &[u64], i: usize) -> u32
        requires { (length scaled.now ≡ suc (degree self)) × (i < degree self) × Elements scaled.now }
        ensures { result ≡ beyond_at (degree self.entry) scaled.now i }
    {
        let n = self.falls.len();
        field::mul(
            dot::inner_wide(scaled, &self.back[n - 1 - i..n + n - i]),
            self.falls[i],
        )
    }

    // The value at j, up to 2n, of the polynomial whose values at 0, .., n are y.
    pub fn value(self, y: &[u32], scaled: &[u64], j: usize) -> u32
        requires { Curve (degree self) y.now scaled.now × (j < suc (degree self + degree self)) }
        ensures { result ≡ value_at (degree self.entry) y.now j }
    {
        if j < y.len() {
            y[j]
        } else {
            self.beyond(scaled, j - y.len())
        }
    }

    // d less the constant P - 1, times the weight of the point 0.
    pub fn scaled_shift(self, d: u32) -> u32
        requires { d < prime }
        ensures { result ≡ scaled_shift (degree self.entry) d }
    {
        field::mul(field::sub(d, field::P - 1), self.weights[0])
    }

    // The value at j, up to 2n, of the polynomial that is d at 0 and P - 1 at 1, .., n, where k is what `scaled_shift` gives: beyond n
    // it is P - 1 plus k times the product of j - i over the points i = 1, .., n.
    pub fn shift(self, d: u32, k: u32, j: usize) -> u32
        requires { (d < prime) × (k ≡ scaled_shift (degree self) d)
            × (j < suc (degree self + degree self)) }
        ensures { result ≡ shift_at (degree self.entry) d j }
    {
        let n = self.falls.len();
        if j == 0 {
            d
        } else if j <= n {
            field::P - 1
        } else {
            let inverse = self.back[self.back.len() - j] as u32;
            let others = field::mul(self.falls[j - n - 1], inverse);
            field::mul_add(k, others, field::P - 1)
        }
    }
}

// out[i] = 1 / (n - i), where n is the length of out: the inverses in the other order.
fn fill_back(inverses: &[u32], out: &mut [u64])
    requires { (length inverses.now ≡ length out.old)
        × (inverses.now ≡ tabulate (λ i. residues.inv (suc i)) (length out.old)) }
    ensures { out.new
        ≡ tabulate (λ i. residues.inv (length out.old - i)) (length out.old) }
{
    let n = out.len();
    for (i, place) in out.iter_mut().enumerate() {
        *place = u64::from(inverses[n - 1 - i]);
    }
}

// The product of t - k over the points k = 0, .., n, at t = n + 1.
fn first_fall(n: usize) -> u32
    requires { n ≤ 256 }
    ensures { result ≡ fall_at n 0 }
{
    let products = &mut [0u32; 258][..n + 2];
    loops::ascending((n + 1) as u32, products);
    products[n + 1]
}

// out[i] = the product of t - k over the points k = 0, .., n, at t = n + 1 + i, where n is the length of out. The product at
// t + 1 is the one at t times t + 1 over t - n.
fn fill_falls(inverses: &[u32], out: &mut [u32])
    requires { (length out.old ≤ 256) × (length out.old ≤ length inverses.now)
        × (inverses.now ≡ tabulate (λ i. residues.inv (suc i)) (length inverses.now)) }
    ensures { out.new ≡ tabulate (fall_at (length out.old)) (length out.old) }
{
    let n = out.len();
    let mut acc = first_fall(n);
    for (i, place) in out.iter_mut().enumerate() {
        *place = acc;
        acc = field::mul(acc, field::mul((n + 2 + i) as u32, inverses[i]));
    }
}

// The tables for polynomials of degree at most n, where n is the length of falls.
pub fn fill_tables(weights: &mut [u32], falls: &mut [u32], back: &mut [u64])
    requires { (length falls.old ≤ 256) × (length weights.old ≡ suc (length falls.old))
        × (length back.old ≡ length falls.old + length falls.old) }
    ensures { Weights (length falls.old) weights.new
        × Ready (length falls.old) falls.new back.new }
{
    let inverses = &mut [0u32; 512][..back.len()];
    quotients::fill_inverses(inverses);
    quotients::fill_weights(weights);
    fill_back(inverses, back);
    fill_falls(inverses, falls);
}
