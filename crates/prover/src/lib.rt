// The values of h = f g at 0, 1, .., 2M, which a client adds to the entries of a return. f is given by its values at
// 0, .., M; beyond M a value is an inner product with inverses, times a product of differences. g - f is P - 1 at each of
// 1, .., M where a bit is checked, so that g needs no inner product of its own on a sheet where all multiplications check bits;
// on another sheet it is corrected by the polynomial of what the products have past that. Elements are u32 below the prime. No
// step depends on the value of an element.
#![tactic(auto)]

ghost use Rattle.std.specs.Prelude.{◌≡◌, ◌∷◌, suc, ◌+◌, ◌-◌, ◌<◌, ◌≤◌, length};
ghost use Rattle.algebra.specs.Lists.{tabulate};
ghost use Rattle.field.specs.Residues.{prime, residues, Elements};
ghost use Rattle.rules.specs.Settings.{document01};
ghost use Rattle.rules.specs.Columns.{columns_of};
ghost use Rattle.rules.specs.Circuit.{gates_in, products_in};
ghost use Rattle.rules.specs.Walk.{walk_lefts};
ghost use Rattle.rules.specs.Making.{f_of, g_of};
ghost use Rattle.walk.specs.Walks.{plain, members, Entries};
ghost use Rattle.prover.specs.Curves.{scaled_at, value_at, product_of, Weights, Curve};
ghost use Rattle.prover.specs.Tables.{degree};

pub mod correcting;
pub mod tables;

use tables::Tables;

// out[j] = y[j] times the weight of point j. The products are kept in 64 bits for inner products.
fn scale(y: &[u32], weights: &[u32], out: &mut [u64])
    requires weights { Weights (length out.old - 1) weights.now × Elements y.now }
    requires y_len { (length y.now ≡ length out.old) × (0 < length out.old) }
    ensures { out.new
        ≡ tabulate (scaled_at (length out.old - 1) y.now) (length out.old) }
{
    for (j, place) in out.iter_mut().enumerate() {
        *place = u64::from(field::mul(y[j], weights[j]));
    }
}

// The values of f at 0, .., M: u, then the left inputs; and how many multiplications check no bit.
fn fill_f(sheet: &[u8], x: &[u32], u: u32, out: &mut [u32]) -> usize
    requires { Entries sheet.now x.now × (length out.old ≡ suc (gates_in (columns_of sheet.now))) }
    ensures { (out.new
        ≡ u ∷ walk_lefts document01 (plain 0 (members x.now)) 0 (columns_of sheet.now))
        × (result ≡ products_in (columns_of sheet.now)) }
{
    out[0] = u;
    walk::fill_lefts(sheet, x, &mut out[1..])
}

// out[j] = the value at j of the polynomial whose values at 0, .., n are y.
fn fill_values(y: &[u32], scaled: &[u64], tables: Tables, out: &mut [u32])
    requires { Curve (degree tables) y.now scaled.now
        × (length out.old ≤ suc (degree tables + degree tables)) }
    ensures { out.new
        ≡ tabulate (value_at (degree tables.entry) y.now) (length out.old) }
{
    for (j, place) in out.iter_mut().enumerate() {
        *place = tables.value(y, scaled, j);
    }
}

// out[j] = f(j) g(j), where out[j] was f(j) and g - f is d at 0 and P - 1 at 1, .., n.
fn fill_products(d: u32, tables: Tables, out: &mut [u32])
    requires { (d < prime) × Elements out.old × (length out.old ≤ suc (degree tables + degree tables)) }
    ensures { out.new ≡ tabulate (λ j. product_of (degree tables.entry) (members out.old j) d j)
        (length out.old) }
{
    let k = tables.scaled_shift(d);
    for (j, place) in out.iter_mut().enumerate() {
        let y = *place;
        *place = field::mul(y, field::add(y, tables.shift(d, k, j)));
    }
}

// f by its values, and these with their weights as factors; and how many multiplications check no bit.
fn curve_f(sheet: &[u8], x: &[u32], u: u32, weights: &[u32], f: &mut [u32], fs: &mut [u64]) -> usize
    requires entries { Entries sheet.now x.now × (u < prime) × (length f.old ≡ suc (gates_in (columns_of sheet.now))) }
    requires weights { Weights (gates_in (columns_of sheet.now)) weights.now × (length fs.old ≡ length f.old) }
    ensures { (f.new
        ≡ u ∷ walk_lefts document01 (plain 0 (members x.now)) 0 (columns_of sheet.now))
        × Curve (gates_in (columns_of sheet.now)) f.new fs.new
        × (result ≡ products_in (columns_of sheet.now)) }
{
    let products = fill_f(sheet, x, u, f);
    scale(f, weights, fs);
    products
}

// The same as `fill_h`, with the tables lent.
fn fill_with(sheet: &[u8], x: &[u32], u: u32, v: u32, tables: Tables, out: &mut [u32])
    requires entries { Entries sheet.now x.now × (u < prime) × (v < prime) }
    requires degree { (degree tables ≡ gates_in (columns_of sheet.now))
        × (length out.old ≡ suc (degree tables + degree tables)) }
    ensures { out.new ≡ tabulate (λ j. residues.◌⊗◌
        (f_of residues document01 (columns_of sheet.now) (members x.now) u (residues.ι j))
        (g_of residues document01 (columns_of sheet.now) (members x.now) v (residues.ι j)))
        (suc (gates_in (columns_of sheet.now) + gates_in (columns_of sheet.now))) }
{
    let n = tables.falls.len() + 1;
    let f = &mut [0u32; 257][..n];
    let fs = &mut [0u64; 257][..n];
    let products = curve_f(sheet, x, u, tables.weights, f, fs);
    let d = field::sub(v, u);
    correcting::fill_from(sheet, x, products, f, fs, d, tables, out);
}

// h(0), .., h(2M) for the entries x, with f(0) = u and g(0) = v; out has 2M + 1 places.
pub fn fill_h(sheet: &[u8], x: &[u32], u: u32, v: u32, out: &mut [u32])
    requires entries { Entries sheet.now x.now × (u < prime) × (v < prime) }
    requires out_len { length out.old ≡ suc (gates_in (columns_of sheet.now) + gates_in (columns_of sheet.now)) }
    ensures { out.new ≡ tabulate (λ j. residues.◌⊗◌
        (f_of residues document01 (columns_of sheet.now) (members x.now) u (residues.ι j))
        (g_of residues document01 (columns_of sheet.now) (members x.now) v (residues.ι j)))
        (suc (gates_in (columns_of sheet.now) + gates_in (columns_of sheet.now))) }
{
    let n = out.len() / 2;
    let weights = &mut [0u32; 257][..n + 1];
    let falls = &mut [0u32; 256][..n];
    let back = &mut [0u64; 512][..n + n];
    tables::fill_tables(weights, falls, back);
    let tables = Tables {
        weights,
        falls,
        back,
    };
    fill_with(sheet, x, u, v, tables, out);
}
