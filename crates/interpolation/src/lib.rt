// The polynomial through given values at the points 0, 1, .., at one place r, which may be a point: a sum of fractions, each
// a value times its weight over r - j, of which the numerator is kept and the product of the denominators; nothing is
// divided. Elements are u32 below the prime. No step depends on the value of an element.
#![tactic(auto)]

ghost use Rattle.std.specs.Prelude.{◌≡◌, ◌+◌, ◌-◌, ◌<◌, ◌≤◌, length};
ghost use Rattle.algebra.specs.Ops.{minus};
ghost use Rattle.field.specs.Residues.{prime, residues, Elements};
ghost use Rattle.interpolation.specs.Fractions.{plus_of, term_at, sum_of, Element};

// over / under, where under may be 0.
#[derive(Clone, Copy)]
pub struct Fraction {
    pub over: u32,
    pub under: u32,
}

impl Fraction {
    // The sum of two fractions.
    fn plus(self, b: Self) -> Self
        requires { Element self × Element b }
        ensures { result ≡ plus_of self b }
    {
        Self {
            over: field::mul_mul(self.over, b.under, b.over, self.under),
            under: field::mul(self.under, b.under),
        }
    }
}

// Value i times its weight, over r - (s + i).
fn term(y: &[u32], weights: &[u32], s: usize, r: u32, i: usize) -> Fraction
    requires i_in_bounds { (i < length y.now) × (length weights.now ≡ length y.now) }
    requires elements { Elements y.now × Elements weights.now × (r < prime) × (s + length y.now ≤ 1024) }
    ensures { (result ≡ record { over = term_at y.now weights.now i; under = minus residues r (s + i) })
        × Element result }
{
    Fraction {
        over: field::mul(y[i], weights[i]),
        under: field::sub(r, (s + i) as u32),
    }
}

// The sum of all these fractions. Two of them are added first, so that half the products do not wait for the sum so far: with two
// terms to a turn and one that may be left, the loop counts by hand.
pub fn sum(y: &[u32], weights: &[u32], s: usize, r: u32) -> Fraction
    requires { (length weights.now ≡ length y.now) × Elements y.now × Elements weights.now × (r < prime)
        × (s + length y.now ≤ 1024) }
    ensures { (result ≡ sum_of y.now weights.now s r (length y.now)) × Element result }
{
    let n = y.len();
    let mut done = Fraction { over: 0, under: 1 };
    let mut i = 0;
    while i + 1 < n {
        let a = term(y, weights, s, r, i);
        let b = term(y, weights, s, r, i + 1);
        done = done.plus(a.plus(b));
        i += 2;
    }
    if i < n {
        return done.plus(term(y, weights, s, r, i));
    }
    done
}
