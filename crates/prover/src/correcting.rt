// The products f(j) g(j) of any sheet: where some multiplications check no bit, g is corrected by the polynomial of what their right
// inputs have past the left ones and the constant P - 1.
ghost use Rattle.std.specs.Prelude.{◌≡◌, ◌∷◌, suc, ◌+◌, ◌-◌, ◌<◌, ◌≤◌, length};
ghost use Rattle.algebra.specs.Lists.{tabulate};
ghost use Rattle.field.specs.Residues.{prime, residues, Elements};
ghost use Rattle.rules.specs.Columns.{columns_of};
ghost use Rattle.rules.specs.Circuit.{gates_in, products_in};
ghost use Rattle.rules.specs.Products.{walk_extras};
ghost use Rattle.walk.specs.Walks.{members, Entries};
ghost use Rattle.prover.specs.Curves.{value_at, corrected_of, corrected_at, Weights, Curve};
ghost use Rattle.prover.specs.Tables.{degree};

use crate::tables::Tables;

// The values of the extras' polynomial at 0, .., M: 0, then the extras.
fn fill_e(sheet: &[u8], x: &[u32], out: &mut [u32])
    requires { Entries sheet.now x.now × (length out.old ≡ suc (gates_in (columns_of sheet.now))) }
    ensures { out.new
        ≡ 0 ∷ walk_extras residues (prime - 1) (members x.now) 0 (columns_of sheet.now) }
{
    out[0] = 0;
    walk::fill_extras(sheet, x, field::P - 1, &mut out[1..]);
}

// The extras' polynomial by its values, and these with their weights as factors.
fn curve_e(sheet: &[u8], x: &[u32], weights: &[u32], e: &mut [u32], es: &mut [u64])
    requires entries { Entries sheet.now x.now × (length e.old ≡ suc (gates_in (columns_of sheet.now))) }
    requires weights { Weights (gates_in (columns_of sheet.now)) weights.now × (length es.old ≡ length e.old) }
    ensures { (e.new
        ≡ 0 ∷ walk_extras residues (prime - 1) (members x.now) 0 (columns_of sheet.now))
        × Curve (gates_in (columns_of sheet.now)) e.new es.new }
{
    fill_e(sheet, x, e);
    crate::scale(e, weights, es);
}

// out[j] = the value at j of the extras' polynomial.
fn extra_values(sheet: &[u8], x: &[u32], tables: Tables, out: &mut [u32])
    requires { Entries sheet.now x.now × (degree tables ≡ gates_in (columns_of sheet.now))
        × (length out.old ≤ suc (degree tables + degree tables)) }
    ensures { out.new ≡ tabulate (value_at (degree tables.entry)
        (0 ∷ walk_extras residues (prime - 1) (members x.now) 0 (columns_of sheet.now)))
        (length out.old) }
{
    let n = tables.falls.len() + 1;
    let e = &mut [0u32; 257][..n];
    let es = &mut [0u64; 257][..n];
    curve_e(sheet, x, tables.weights, e, es);
    crate::fill_values(e, es, tables, out);
}

// out[j] = f(j) g(j), where out[j] was f(j) and g - f is the polynomial of `shift` and the one whose values are e.
fn fill_corrected(e: &[u32], d: u32, tables: Tables, out: &mut [u32])
    requires d_lt_prime { d < prime }
    requires elements { Elements out.old × Elements e.now × (length e.now ≡ length out.old)
        × (length out.old ≤ suc (degree tables + degree tables)) }
    ensures { out.new ≡ tabulate (λ j. corrected_of (degree tables.entry) (members out.old j)
        (members e.now j) d j) (length out.old) }
{
    let k = tables.scaled_shift(d);
    for (j, place) in out.iter_mut().enumerate() {
        let y = *place;
        let shifted = field::add(y, tables.shift(d, k, j));
        *place = field::mul(y, field::add(shifted, e[j]));
    }
}

// out[j] = f(j) g(j), from f and the difference d of g and f at 0. Where all multiplications check bits there are no extras.
pub fn fill_from(
    sheet: &[u8],
    x: &[u32],
    products: usize,
    f: &[u32],
    fs: &[u64],
    d: u32,
    tables: Tables,
    out: &mut [u32],
)
    requires entries { Entries sheet.now x.now × (products ≡ products_in (columns_of sheet.now)) × (d < prime)
        × (degree tables ≡ gates_in (columns_of sheet.now)) }
    requires curve { Curve (degree tables) f.now fs.now
        × (length out.old ≤ suc (degree tables + degree tables)) }
    ensures { out.new ≡ tabulate (corrected_at (degree tables.entry) f.now
        (0 ∷ walk_extras residues (prime - 1) (members x.now) 0 (columns_of sheet.now)) d)
        (length out.old) }
{
    crate::fill_values(f, fs, tables, out);
    if products == 0 {
        crate::fill_products(d, tables, out);
        return;
    }
    let values = &mut [0u32; 513][..out.len()];
    extra_values(sheet, x, tables, values);
    fill_corrected(values, d, tables, out);
}
