// What a server works out from a share: d, e, r h(r) and tau, in time that grows with the entries and multiplications.
ghost use Rattle.std.specs.Prelude.{◌≡◌, suc, ◌+◌, ◌-◌, ◌<◌, ◌≤◌, length};
ghost use Rattle.algebra.specs.Lists.{tabulate};
ghost use Rattle.algebra.specs.Interpolation.{weight, interpolate};
ghost use Rattle.field.specs.Residues.{prime, residues, Elements};
ghost use Rattle.interpolation.specs.Fractions.{sum_of, Element};
ghost use Rattle.rules.specs.Settings.{document01};
ghost use Rattle.rules.specs.Columns.{columns_of};
ghost use Rattle.rules.specs.Circuit.{gates_in, products_in, tests_in};
ghost use Rattle.rules.specs.Judging.{folded};
ghost use Rattle.rules.specs.Walk.{walk_lefts, walk_tests};
ghost use Rattle.rules.specs.Products.{extra_at};
ghost use Rattle.snip.specs.Judged.{judged_of, inputs_of, inputs_from, Share};
ghost use Rattle.walk.specs.Walks.{plain, shared, members, Entries, Outputs};

use interpolation::Fraction;

// f and g at r.
#[derive(Clone, Copy)]
pub struct Inputs {
    pub f: u32,
    pub g: u32,
}

// A sum over the left inputs, and how many of the multiplications check no bit.
#[derive(Clone, Copy)]
pub struct Lefts {
    pub sum: Fraction,
    pub products: usize,
}

// What a sheet comes to, as far as judging needs it.
#[derive(Clone, Copy)]
pub struct Shape {
    pub entries: usize,
    pub gates: usize,
    pub tests: usize,
}

// d, e, r h(r) and tau of one server.
#[derive(Clone, Copy)]
pub struct Judged {
    pub d: u32,
    pub e: u32,
    pub rh: u32,
    pub tau: u32,
}

// The sum of the left inputs times their weights, over r - 1, r - 2, ..
fn lefts_sum(sheet: &[u8], x: &[u32], weights: &[u32], r: u32) -> Lefts
    requires { Entries sheet.now x.now × Elements weights.now × (r < prime)
        × (length weights.now ≡ gates_in (columns_of sheet.now)) × (length weights.now ≤ 256) }
    ensures { (result.sum ≡ sum_of (walk_lefts document01 (plain 0 (members x.now)) 0 (columns_of sheet.now))
        weights.now 1 r (gates_in (columns_of sheet.now))) × Element result.sum
        × (result.products ≡ products_in (columns_of sheet.now)) }
{
    let mut buffer = [0u32; 256];
    let lefts = &mut buffer[..weights.len()];
    let products = walk::fill_lefts(sheet, x, lefts);
    let sum = interpolation::sum(lefts, weights, 1, r);
    Lefts { sum, products }
}

// What g has at r by the multiplications that check no bit, of which there are `products`; without any it is 0.
fn extra_at(sheet: &[u8], x: &[u32], weights: &[u32], products: usize, constant: u32, r: u32) -> u32
    requires entries { Entries sheet.now x.now × (constant < prime) × (r < prime) × (gates_in (columns_of sheet.now) ≤ 256)
        × (products ≡ products_in (columns_of sheet.now)) }
    requires weights_value { weights.now
        ≡ tabulate (λ i. weight residues (gates_in (columns_of sheet.now)) (suc i)) (gates_in (columns_of sheet.now)) }
    ensures { result ≡ extra_at residues constant (members x.now) (columns_of sheet.now) r }
{
    if products == 0 {
        return 0;
    }
    let mut buffer = [0u32; 256];
    let extras = &mut buffer[..weights.len()];
    walk::fill_extras(sheet, x, constant, extras);
    field::mul(r, interpolation::sum(extras, weights, 1, r).over)
}

// f and g at r from their values f0 and g0 at 0, where `first` is the basis of the point 0 and `rest` the part of f of the
// other points. There the right inputs are the left ones, the constant, and what `extra` is made of.
fn inputs_from(f0: u32, g0: u32, first: u32, rest: u32, constant: u32, extra: u32) -> Inputs
    requires { (f0 < prime) × (g0 < prime) × (first < prime) × (rest < prime) × (constant < prime) × (extra < prime) }
    ensures { result ≡ inputs_from f0 g0 first rest constant extra }
{
    let shifted = field::mul_add(first, field::sub(g0, constant), field::add(rest, constant));
    Inputs {
        f: field::mul_add(first, f0, rest),
        g: field::add(shifted, extra),
    }
}

// f and g at r, from a share with l entries and the weights of the points 0, 1, .., one more than multiplications; f(0)
// stands behind the entries, then g(0).
fn inputs_with(sheet: &[u8], x: &[u32], l: usize, weights: &[u32], constant: u32, r: u32) -> Inputs
    requires entries { Entries sheet.now x.now × (l + 1 < length x.now) × (gates_in (columns_of sheet.now) ≤ 256)
        × (constant < prime) × (r < prime) }
    requires weights_value { weights.now
        ≡ tabulate (weight residues (gates_in (columns_of sheet.now))) (suc (gates_in (columns_of sheet.now))) }
    ensures { result ≡ inputs_of (columns_of sheet.now) l constant x.now r }
{
    let others = &weights[1..];
    let lefts = lefts_sum(sheet, x, others, r);
    let sum = lefts.sum;
    let extra = extra_at(sheet, x, others, lefts.products, constant, r);
    let first = field::mul(weights[0], sum.under);
    inputs_from(
        x[l],
        x[l + 1],
        first,
        field::mul(r, sum.over),
        constant,
        extra,
    )
}

// The polynomial through the members of y at the points 0, 1, .., at r, with the weights of these points.
fn interpolated(y: &[u32], weights: &[u32], r: u32) -> u32
    requires elements { Elements y.now × (r < prime) × (0 < length y.now) × (length y.now ≤ 513) }
    requires weights_value { weights.now ≡ tabulate (weight residues (length y.now - 1)) (length y.now) }
    ensures { result ≡ interpolate residues (length y.now - 1) (members y.now) r }
{
    interpolation::sum(y, weights, 0, r).over
}

// The sum of s^k times test k, of which there are `tests`; `factor` is the one on constants.
fn tau_of(sheet: &[u8], x: &[u32], l: usize, factor: u32, tests: usize, s: u32) -> u32
    requires entries { Entries sheet.now x.now × Outputs sheet.now x.now l }
    requires tests_value { (tests ≡ tests_in (columns_of sheet.now)) × (tests ≤ 384) × (factor < prime) × (s < prime) }
    ensures { result ≡ folded residues
        (walk_tests document01 (shared factor l x.now) 0 0 (columns_of sheet.now)) s }
{
    let mut first = [0u32; 384];
    let mut second = [0u32; 384];
    let values = &mut first[..tests];
    let powers = &mut second[..tests];
    walk::fill_tests(sheet, x, l, factor, values);
    loops::powers(s, powers);
    dot::inner(powers, values)
}

// The same as `judge`, with the weights of the points 0, .., M and of 0, .., 2 M lent.
fn judge_with(
    sheet: &[u8],
    shape: Shape,
    own: u32,
    x: &[u32],
    single: &[u32],
    double: &[u32],
    r: u32,
    s: u32,
) -> Judged
    requires share { Share sheet.now shape x.now r s }
    requires single_value { single.now ≡ tabulate (weight residues shape.gates) (suc shape.gates) }
    requires double_value { double.now ≡ tabulate (weight residues (shape.gates + shape.gates)) (suc (shape.gates + shape.gates)) }
    ensures { result ≡ judged_of (columns_of sheet.now) own x.now r s }
{
    let l = shape.entries;
    let m = shape.gates;
    let factor = crate::first_only(own);
    let constant = field::mul(factor, field::P - 1);
    let at = inputs_with(sheet, x, l, single, constant, r);
    let first = l + 2;
    let last = l + 3 + (m + m);
    let h = interpolated(&x[first..last], double, r);
    let tau = tau_of(sheet, x, l, factor, shape.tests, s);
    Judged {
        d: field::sub(at.f, x[last]),
        e: field::sub(field::mul(r, at.g), x[last + 1]),
        rh: field::mul(r, h),
        tau,
    }
}

// What server `own` works out from the share x, with the pair r, s.
pub fn judge(sheet: &[u8], shape: Shape, own: u32, x: &[u32], r: u32, s: u32) -> Judged
    requires { Share sheet.now shape x.now r s }
    ensures { result ≡ judged_of (columns_of sheet.now) own x.now r s }
{
    let mut first = [0u32; 257];
    let mut second = [0u32; 513];
    let points = shape.gates + 1;
    let twice = shape.gates + points;
    let single = &mut first[..points];
    let double = &mut second[..twice];
    quotients::fill_two(single, double);
    judge_with(sheet, shape, own, x, single, double, r, s)
}
