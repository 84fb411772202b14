// The steps of a column of two numbers: the four entries, the checks of each number over its own bits, the checks of the products.
ghost use Rattle.std.specs.Prelude.{◌+◌, ◌*◌, ◌≤◌, ◌<◌, length};
ghost use Rattle.rules.specs.Settings.{document01};
ghost use Rattle.rules.specs.Columns.{point};
ghost use Rattle.rules.specs.Circuit.{circuit_bytes, product_check, point_checks, column_steps};
ghost use Rattle.rules.specs.Sizes.{column_size};
ghost use Rattle.compile.specs.Writing.{Put};

use crate::{put_number_checks, put_one, put_pair, put_scale};
use circuit::StepKind;

// The check that wire `a` times wire `b` is wire `c`, where `w` is the next wire.
fn put_product_check(out: &mut [u8], at: usize, a: u32, b: u32, c: u32, w: u32) -> usize
    requires { (at + 20 ≤ length out.old) × (w < 65536) }
    ensures { Put out.old at 20 (circuit_bytes document01 (product_check document01 a b c w)) out.new result }
{
    let minus = put_pair(out, at, StepKind::Multiply, a, b);
    let sum = put_scale(out, minus, c, field::P - 1);
    let test = put_pair(out, sum, StepKind::Add, w, w + 1);
    put_one(out, test, StepKind::Test, w + 2)
}

// The checks of a point whose first entry is `e`, on wire `w`; `q` is the wire behind the checks of its numbers.
fn put_point_checks(out: &mut [u8], at: usize, n: u32, e: u32, w: u32, q: u32) -> usize
    requires { (at + (56 * n + 60) ≤ length out.old) × (n ≤ 12) × (e < 16384) × (w < 16384) × (q < 32768) }
    ensures { Put out.old at (56 * n + 60)
        (circuit_bytes document01 (point_checks document01 e w q n)) out.new result }
{
    let second = put_number_checks(out, at, n, w, e + 4, w + 4);
    let square = put_number_checks(out, second, n, w + 2, e + 4 + n, w + 4 + (5 * n + 1));
    let product = put_product_check(out, square, w, w, w + 1, q);
    put_product_check(out, product, w, w + 2, w + 3, q + 3)
}

// A point of two numbers of `n` bits, whose first entry is `e`.
pub fn put_point(out: &mut [u8], at: usize, n: u32, e: u32, w: u32) -> usize
    requires { (at + column_size document01 (point n) ≤ length out.old) × (n ≤ 12) × (e < 16384) × (w < 16384) }
    ensures { Put out.old at (column_size document01 (point n))
        (circuit_bytes document01 (column_steps document01 e w (point n))) out.new result }
{
    let square = put_one(out, at, StepKind::Entry, e);
    let second = put_one(out, square, StepKind::Entry, e + 1);
    let product = put_one(out, second, StepKind::Entry, e + 2);
    let checks = put_one(out, product, StepKind::Entry, e + 3);
    put_point_checks(out, checks, n, e, w, w + 4 + (5 * n + 1) + (5 * n + 1))
}
