// The left inputs of the multiplications of a sheet's circuit, what the right ones have past these and the constant, and the
// tests, column by column, from the entries of a list or of a share. `factor` is the one on constants: 1 at server 0, 0 at the
// other servers.
#![tactic(auto)]

ghost use Rattle.std.specs.Prelude.{◌≡◌, [], ◌∷◌, ◌++◌, suc, ◌+◌, ◌*◌, ◌^◌, ◌<◌, ◌≤◌, length};
ghost use Rattle.algebra.specs.Lists.{tabulate};
ghost use Rattle.algebra.specs.Ops.{minus};
ghost use Rattle.field.specs.Residues.{prime, residues, Elements};
ghost use Rattle.rules.specs.Settings.{document01};
ghost use Rattle.rules.specs.Columns.{top, point, columns_of, entries_of};
ghost use Rattle.rules.specs.Circuit.{gates_of, tests_of, gates_in, products_in, tests_in};
ghost use Rattle.rules.specs.Walk.{sum_from, column_lefts, column_tests, walk_lefts, walk_tests};
ghost use Rattle.rules.specs.Products.{column_extras, walk_extras};
ghost use Rattle.rules.proofs.Circuits.Limits.{InLimits};
ghost use Rattle.columns.specs.Kinds.{from_code};
ghost use Rattle.walk.specs.Walks.{plain, shared, members, number_tests_at, product_test_at, top_tests, two_number_tests, point_tests};
ghost use Rattle.walk.specs.Walks.{Entries, Outputs, Asked};

use columns::{Column, bit_length, counts_of};
use sheet::cursor;

// out[i] = x[first + i]
fn copy(x: &[u32], first: usize, out: &mut [u32])
    requires { first + length out.old ≤ length x.now }
    ensures { out.new ≡ tabulate (λ i. members x.now (first + i)) (length out.old) }
{
    for (i, place) in out.iter_mut().enumerate() {
        *place = x[first + i];
    }
}

// n members of x from `first`, then `last`
fn copy_then(x: &[u32], first: usize, n: usize, last: u32, out: &mut [u32])
    requires { (first + n ≤ length x.now) × (length out.old ≡ suc n) }
    ensures { out.new ≡ tabulate (λ i. members x.now (first + i)) n ++ (last ∷ []) }
{
    copy(x, first, &mut out[..n]);
    out[n] = last;
}

// n members of x from `first`, then a and b
fn copy_two(x: &[u32], first: usize, n: usize, a: u32, b: u32, out: &mut [u32])
    requires { (first + n ≤ length x.now) × (length out.old ≡ suc (suc n)) }
    ensures { out.new ≡ tabulate (λ i. members x.now (first + i)) n ++ (a ∷ b ∷ []) }
{
    copy(x, first, &mut out[..n]);
    out[n] = a;
    out[n + 1] = b;
}

// start + x[first] + .. + x[first + n - 1]
fn sum_from(x: &[u32], first: usize, n: usize, start: u32) -> u32
    requires { (first + n ≤ length x.now) × Elements x.now × (start < prime) }
    ensures { result ≡ sum_from document01 (plain 0 (members x.now)) start
        (λ i. members x.now (first + i)) n }
{
    let mut acc = start;
    for v in &x[first..first + n] {
        acc = field::add(acc, *v);
    }
    acc
}

// start + x[first] + 2 x[first + 1] + 4 x[first + 2] + .., n members
fn weighted_from(x: &[u32], first: usize, n: usize, start: u32) -> u32
    requires { (first + n ≤ length x.now) × Elements x.now × (start < prime) }
    ensures { result ≡ sum_from document01 (plain 0 (members x.now)) start
        (λ i. residues.◌⊗◌ (members x.now (first + i)) (residues.ι (2 ^ i))) n }
{
    let mut acc = start;
    let mut power = 1;
    for v in &x[first..first + n] {
        acc = field::mul_add(*v, power, acc);
        power = field::add(power, power);
    }
    acc
}

// The left inputs of one column, whose first entry is e: its bits, then what it multiplies besides.
fn column_lefts(x: &[u32], e: usize, column: Column, out: &mut [u32])
    requires { (e + entries_of (from_code column) ≤ length x.now) × (length out.old ≡ gates_of (from_code column)) }
    ensures { out.new ≡ column_lefts document01 (plain 0 (members x.now)) e (from_code column) }
{
    match column {
        Column::YesNo => out[0] = x[e],
        Column::Choice(_) => copy(x, e, out),
        Column::Number(_) | Column::Top(_) => copy(x, e + 1, out),
        Column::Point(n) => copy_two(x, e + 4, 2 * n, x[e], x[e], out),
    }
}

// The left inputs of the multiplications, and how many of these check no bit.
pub fn fill_lefts(s: &[u8], x: &[u32], out: &mut [u32]) -> usize
    requires { Entries s.now x.now × (length out.old ≡ gates_in (columns_of s.now)) }
    ensures { (out.new
        ≡ walk_lefts document01 (plain 0 (members x.now)) 0 (columns_of s.now))
        × (result ≡ products_in (columns_of s.now)) }
{
    let mut products = 0;
    for place in cursor::columns(s) {
        let from = place.before.gates;
        let to = place.after.gates;
        column_lefts(x, place.before.entry, place.column, &mut out[from..to]);
        products += counts_of(place.column).products;
    }
    products
}

// What the right input v of a multiplication that checks no bit has past the left one u and the constant.
fn product_extra(u: u32, v: u32, constant: u32) -> u32
    requires { (u < prime) × (v < prime) × (constant < prime) }
    ensures { result ≡ minus residues (minus residues v u) constant }
{
    field::sub(field::sub(v, u), constant)
}

// The extras of a point of two numbers of n bits, whose first entry is e: none at the bits, then those of x × x and x × y.
fn point_extras(x: &[u32], e: usize, constant: u32, n: usize, out: &mut [u32])
    requires { Elements x.now × (constant < prime) × (e + 4 ≤ length x.now) × (length out.old ≡ 2 * n + 2) }
    ensures { out.new ≡ column_extras residues constant (members x.now) e (point n) }
{
    let bits = 2 * n;
    out[..bits].fill(0);
    out[bits] = product_extra(x[e], x[e], constant);
    out[bits + 1] = product_extra(x[e], x[e + 2], constant);
}

// The extras of one column, whose first entry is e: none where all its multiplications check bits.
fn column_extras(x: &[u32], e: usize, constant: u32, column: Column, out: &mut [u32])
    requires elements { Elements x.now × (constant < prime) × InLimits (from_code column) }
    requires column_in_bounds { (e + entries_of (from_code column) ≤ length x.now) × (length out.old ≡ gates_of (from_code column)) }
    ensures { out.new ≡ column_extras residues constant (members x.now) e (from_code column) }
{
    match column {
        Column::YesNo | Column::Choice(_) | Column::Number(_) | Column::Top(_) => out.fill(0),
        Column::Point(n) => point_extras(x, e, constant, n, out),
    }
}

// What the right inputs of the multiplications have past the left ones and the constant p - 1, which comes to `constant`.
pub fn fill_extras(s: &[u8], x: &[u32], constant: u32, out: &mut [u32])
    requires { Entries s.now x.now × (length out.old ≡ gates_in (columns_of s.now)) × (constant < prime) }
    ensures { out.new
        ≡ walk_extras residues constant (members x.now) 0 (columns_of s.now) }
{
    for place in cursor::columns(s) {
        let from = place.before.gates;
        let to = place.after.gates;
        column_extras(
            x,
            place.before.entry,
            constant,
            place.column,
            &mut out[from..to],
        );
    }
}

// The tests of a number of n bits, which is entry a: the outputs from `first`, then the sum of its bits, the entries from e.
fn number_tests(x: &[u32], first: usize, a: usize, e: usize, n: usize, out: &mut [u32])
    requires { Elements x.now × (first + n ≤ length x.now) × (a < length x.now) × (e + n ≤ length x.now)
        × (length out.old ≡ suc n) }
    ensures { out.new ≡ number_tests_at x.now first a e n }
{
    let sum = weighted_from(x, e, n, field::mul(x[a], field::P - 1));
    copy_then(x, first, n, sum, out);
}

// The tests of a number up to n, whose first entry is e and whose outputs stand from `first`: these, then its two sums.
fn top_tests(x: &[u32], first: usize, e: usize, factor: u32, n: u32, out: &mut [u32])
    requires elements { Elements x.now × (factor < prime) × InLimits (top n) }
    requires n_in_bounds { (e + entries_of (top n) ≤ length x.now) × (first + gates_of (top n) ≤ length x.now)
        × (length out.old ≡ tests_of (top n)) }
    ensures { out.new ≡ top_tests x.now first e factor n }
{
    let b = bit_length(n);
    let v = x[e];
    let sum = weighted_from(x, e + 1, b, field::mul(v, field::P - 1));
    let rest = weighted_from(x, e + 1 + b, b, field::mul_add(factor, field::P - n, v));
    copy_two(x, first, 2 * b, sum, rest, out);
}

// The tests of the two numbers of a point, one behind the other.
fn two_number_tests(x: &[u32], first: usize, e: usize, n: usize, out: &mut [u32])
    requires { Elements x.now × (e + 4 + 2 * n ≤ length x.now) × (first + 2 * n ≤ length x.now)
        × (length out.old ≡ 2 * n + 2) }
    ensures { out.new ≡ two_number_tests x.now first e n }
{
    let half = n + 1;
    number_tests(x, first, e, e + 4, n, &mut out[..half]);
    number_tests(x, first + n, e + 2, e + 4 + n, n, &mut out[half..]);
}

// The test of a product: its output less the entry c.
fn product_test(x: &[u32], output: usize, c: usize) -> u32
    requires { Elements x.now × (output < length x.now) × (c < length x.now) }
    ensures { result ≡ product_test_at x.now output c }
{
    field::add(x[output], field::mul(x[c], field::P - 1))
}

// The tests of a point of two numbers of n bits, whose first entry is e and whose outputs stand from `first`: those of the
// numbers, then those of the two products.
fn point_tests(x: &[u32], first: usize, e: usize, n: usize, out: &mut [u32])
    requires { Elements x.now × (e + 4 + 2 * n ≤ length x.now) × (first + 2 * n + 2 ≤ length x.now)
        × (length out.old ≡ 2 * n + 4) }
    ensures { out.new ≡ point_tests x.now first e n }
{
    let numbers = 2 * n + 2;
    let products = first + 2 * n;
    two_number_tests(x, first, e, n, &mut out[..numbers]);
    out[numbers] = product_test(x, products, e + 1);
    out[numbers + 1] = product_test(x, products + 1, e + 3);
}

// The tests of one column, whose first entry is e, with t multiplications before it: the outputs of its multiplications, with
// the tests of its sums and of its products if it has any. l is the number of all entries.
fn column_tests(
    x: &[u32],
    l: usize,
    e: usize,
    t: usize,
    factor: u32,
    column: Column,
    out: &mut [u32],
)
    requires { Asked x.now l e t factor (from_code column) × (length out.old ≡ tests_of (from_code column)) }
    ensures { out.new
        ≡ column_tests document01 (shared factor l x.now) e t (from_code column) }
{
    let first = l + 3 + t;
    match column {
        Column::YesNo => out[0] = x[first],
        Column::Choice(n) => {
            let sum = sum_from(x, e, n, field::mul(factor, field::P - 1));
            copy_then(x, first, n, sum, out);
        }
        Column::Number(n) => number_tests(x, first, e, e + 1, n, out),
        Column::Top(n) => top_tests(x, first, e, factor, n, out),
        Column::Point(n) => point_tests(x, first, e, n, out),
    }
}

// The tests, from a share with l entries.
pub fn fill_tests(s: &[u8], x: &[u32], l: usize, factor: u32, out: &mut [u32])
    requires entries { Entries s.now x.now × Outputs s.now x.now l }
    requires out_len { (length out.old ≡ tests_in (columns_of s.now)) × (factor < prime) }
    ensures { out.new
        ≡ walk_tests document01 (shared factor l x.now) 0 0 (columns_of s.now) }
{
    let mut done = 0;
    for place in cursor::columns(s) {
        let before = place.before;
        let to = done + counts_of(place.column).tests;
        column_tests(
            x,
            l,
            before.entry,
            before.gates,
            factor,
            place.column,
            &mut out[done..to],
        );
        done = to;
    }
}
