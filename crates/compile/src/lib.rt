// The circuit writer: the steps of a sheet's circuit, written column by column. Each function writes a run of steps at a
// place and returns the place behind it; its contract names the run and says that nothing else changes (`Put`). The contract
// of `write` is an equality with rules' `sheet_circuit` and `sheet_circuit_refusal`, and asks nothing of the caller.
#![tactic(auto)]

ghost use Rattle.std.specs.Prelude.{◌≡◌, [], ◌∷◌, ◌++◌, ◌+◌, ◌*◌, ◌≤◌, ◌<◌, length};
ghost use Rattle.words.specs.Bytes.{bytes_of};
ghost use Rattle.records.specs.Outcome.{ok};
ghost use Rattle.records.specs.Refusals.{outcome_of};
ghost use Rattle.rules.specs.Settings.{document01};
ghost use Rattle.rules.specs.Columns.{choice, number, top, bit_length, read_sheet, columns_of};
ghost use Rattle.rules.specs.Circuit.{circuit_bytes, bit_check, bit_checks, option_adds, option_sum, bit_adds, test};
ghost use Rattle.rules.specs.Circuit.{number_checks, column_steps, wires_of};
ghost use Rattle.rules.specs.CircuitReader.{sheet_circuit};
ghost use Rattle.rules.proofs.Circuits.Limits.{InLimits};
ghost use Rattle.rules.specs.Sizes.{column_size};
ghost use Rattle.columns.specs.Kinds.{from_code};
ghost use Rattle.circuit.specs.Reading.{code_of};
ghost use Rattle.compile.specs.Writing.{Put, rest_steps, written_of, circuit_in};

mod points;

use circuit::StepKind;
use columns::{Column, bit_length, counts_of};
use points::put_point;
use records::Refusal;
use sheet::cursor;

// A kind byte and a wire or an entry number.
fn put_one(out: &mut [u8], at: usize, kind: StepKind, a: u32) -> usize
    requires { at + 3 ≤ length out.old }
    ensures { Put out.old at 3 (code_of kind ∷ bytes_of 2 a) out.new result }
{
    out[at] = kind.code();
    words::write_u16(out, at + 1, a);
    at + 3
}

// A kind byte and two wires.
fn put_pair(out: &mut [u8], at: usize, kind: StepKind, a: u32, b: u32) -> usize
    requires { at + 5 ≤ length out.old }
    ensures { Put out.old at 5 (code_of kind ∷ bytes_of 2 a ++ bytes_of 2 b) out.new result }
{
    let next = put_one(out, at, kind, a);
    words::write_u16(out, next, b);
    next + 2
}

// A wire times a constant.
fn put_scale(out: &mut [u8], at: usize, a: u32, constant: u32) -> usize
    requires { at + 7 ≤ length out.old }
    ensures { Put out.old at 7 (4 ∷ bytes_of 2 a ++ bytes_of 4 constant) out.new result }
{
    let next = put_one(out, at, StepKind::Scale, a);
    words::write_u32(out, next, constant);
    next + 4
}

// A constant.
fn put_constant(out: &mut [u8], at: usize, constant: u32) -> usize
    requires { at + 5 ≤ length out.old }
    ensures { Put out.old at 5 (1 ∷ bytes_of 4 constant) out.new result }
{
    out[at] = StepKind::Constant.code();
    words::write_u32(out, at + 1, constant);
    at + 5
}

// The bit check of entry `e`, where `w` is the next wire.
fn bit_check(out: &mut [u8], at: usize, e: u32, w: u32) -> usize
    requires { (at + 16 ≤ length out.old) × (w < 65536) }
    ensures { Put out.old at 16 (circuit_bytes document01 (bit_check e w)) out.new result }
{
    let sum = put_one(out, at, StepKind::Entry, e);
    let product = put_pair(out, sum, StepKind::Add, w, 0);
    let test = put_pair(out, product, StepKind::Multiply, w, w + 1);
    put_one(out, test, StepKind::Test, w + 2)
}

// `n` bit checks, of the entries from `e`.
fn bit_checks(out: &mut [u8], at: usize, n: u32, e: u32, w: u32) -> usize
    requires { (at + 16 * n ≤ length out.old) × (n ≤ 64) × (e < 32768) × (w < 32768) }
    ensures { Put out.old at (16 * n) (circuit_bytes document01 (bit_checks n e w)) out.new result }
{
    let mut place = at;
    for i in 0..n {
        place = bit_check(out, place, e + i, w + 3 * i);
    }
    place
}

// The sum of `n` options, whose entry wires are `w`, `w` + 3 and so on; the sums are the wires from `q`. Then its test.
fn option_sum(out: &mut [u8], at: usize, n: u32, w: u32, q: u32) -> usize
    requires { (at + (5 * n + 3) ≤ length out.old) × (n ≤ 64) × (w < 32768) × (q < 32768) }
    ensures { Put out.old at (5 * n + 3)
        (circuit_bytes document01 (option_adds n w q ++ (test (option_sum q n) ∷ []))) out.new result }
{
    let mut place = at;
    let mut sum: u32 = 0;
    for i in 0..n {
        place = put_pair(out, place, StepKind::Add, sum, w + 3 * i);
        sum = q + i;
    }
    put_one(out, place, StepKind::Test, sum)
}

// The sum of `n` bits, each times its weight, onto wire `q`; bit wires as with options. Then its test.
fn bit_sum(out: &mut [u8], at: usize, n: u32, w: u32, q: u32) -> usize
    requires { (at + (12 * n + 3) ≤ length out.old) × (n ≤ 24) × (w < 32768) × (q < 32768) }
    ensures { Put out.old at (12 * n + 3)
        (circuit_bytes document01 (bit_adds n w q ++ (test (q + 2 * n) ∷ []))) out.new result }
{
    let mut place = at;
    let mut weight: u32 = 1;
    for i in 0..n {
        let sum = put_scale(out, place, w + 3 * i, weight);
        place = put_pair(out, sum, StepKind::Add, q + 2 * i, q + 2 * i + 1);
        weight = weight + weight;
    }
    put_one(out, place, StepKind::Test, q + 2 * n)
}

// A choice of `n` options, whose first entry is `e`.
fn put_choice(out: &mut [u8], at: usize, n: u32, e: u32, w: u32) -> usize
    requires { (at + column_size document01 (choice n) ≤ length out.old) × (n ≤ 64) × (e < 16384) × (w < 16384) }
    ensures { Put out.old at (column_size document01 (choice n))
        (circuit_bytes document01 (column_steps document01 e w (choice n))) out.new result }
{
    let sum = bit_checks(out, at, n, e, w);
    option_sum(out, sum, n, w, w + 3 * n)
}

// The checks of a number of `n` bits: wire `a` holds it, its bits are the entries from `e`, and `w` is the next wire.
fn put_number_checks(out: &mut [u8], at: usize, n: u32, a: u32, e: u32, w: u32) -> usize
    requires { (at + (28 * n + 10) ≤ length out.old) × (n ≤ 24) × (e < 32768) × (w < 32000) }
    ensures { Put out.old at (28 * n + 10)
        (circuit_bytes document01 (number_checks document01 a e w n)) out.new result }
{
    let minus = bit_checks(out, at, n, e, w);
    let sum = put_scale(out, minus, a, field::P - 1);
    bit_sum(out, sum, n, w, w + 3 * n)
}

// A number of `n` bits, whose first entry is `e`.
fn put_number(out: &mut [u8], at: usize, n: u32, e: u32, w: u32) -> usize
    requires { (at + column_size document01 (number n) ≤ length out.old) × (n ≤ 24) × (e < 16384) × (w < 16384) }
    ensures { Put out.old at (column_size document01 (number n))
        (circuit_bytes document01 (column_steps document01 e w (number n))) out.new result }
{
    let checks = put_one(out, at, StepKind::Entry, e);
    put_number_checks(out, checks, n, w, e + 1, w + 1)
}

// The second sum of a top `n` of `b` bits: the constant p - n, which is wire `q`, it and the entry wire `w`, the second bits.
fn put_rest(out: &mut [u8], at: usize, n: u32, b: u32, w: u32, q: u32) -> usize
    requires { (at + (12 * b + 13) ≤ length out.old) × (n ≤ 16777215) × (b ≤ 24) × (w < 16384) × (q < 32767) }
    ensures { Put out.old at (12 * b + 13) (circuit_bytes document01 (rest_steps n b w q)) out.new result }
{
    let sum = put_constant(out, at, field::P - n);
    let bits = put_pair(out, sum, StepKind::Add, q, w);
    bit_sum(out, bits, b, w + 1 + 3 * b, q + 1)
}

// A number up to `n`, which has `b` bits; its first entry is `e`.
fn put_top(out: &mut [u8], at: usize, n: u32, b: u32, e: u32, w: u32) -> usize
    requires { (at + column_size document01 (top n) ≤ length out.old) × (n ≤ 16777215) × (b ≡ bit_length n) × (b ≤ 24)
        × (e < 16384) × (w < 16384) }
    ensures { Put out.old at (column_size document01 (top n))
        (circuit_bytes document01 (column_steps document01 e w (top n))) out.new result }
{
    let q = w + 1 + 6 * b;
    let bits = put_one(out, at, StepKind::Entry, e);
    let minus = bit_checks(out, bits, 2 * b, e + 1, w + 1);
    let sum = put_scale(out, minus, w, field::P - 1);
    let rest = bit_sum(out, sum, b, w + 1, q);
    put_rest(out, rest, n, b, w, q + 2 * b + 1)
}

// The steps of a column, whose first entry is `e`.
fn put_column(out: &mut [u8], at: usize, column: Column, e: u32, w: u32) -> usize
    requires { (at + column_size document01 (from_code column) ≤ length out.old) × InLimits (from_code column)
        × (e < 16384) × (w < 16384) }
    ensures { Put out.old at (column_size document01 (from_code column))
        (circuit_bytes document01 (column_steps document01 e w (from_code column))) out.new result }
{
    match column {
        Column::YesNo => bit_checks(out, at, 1, e, w),
        Column::Choice(n) => put_choice(out, at, n as u32, e, w),
        Column::Number(n) => put_number(out, at, n as u32, e, w),
        Column::Top(n) => put_top(out, at, n, bit_length(n) as u32, e, w),
        Column::Point(n) => put_point(out, at, n as u32, e, w),
    }
}

// The wires of a column's steps.
fn wires_of(column: Column) -> u32
    requires { InLimits (from_code column) }
    ensures { result ≡ wires_of (from_code column) }
{
    sizes::columns_wires(counts_of(column))
}

// Writes the circuit of a sheet that is read, where there is room for it.
fn put_circuit(sheet: &[u8], out: &mut [u8]) -> usize
    requires { (read_sheet sheet.now ≡ ok (columns_of sheet.now))
        × (length (sheet_circuit document01 sheet.now) ≤ length out.old) }
    ensures { Put out.old 0 (length (sheet_circuit document01 sheet.now))
        (sheet_circuit document01 sheet.now) out.new result }
{
    let mut at = put_constant(out, 0, field::P - 1);
    let mut wire: u32 = 1;
    for place in cursor::columns(sheet) {
        at = put_column(out, at, place.column, place.before.entry as u32, wire);
        wire += wires_of(place.column);
    }
    at
}

// Writes a sheet's circuit: how long it is, or the refusal, with the buffer as it was.
pub fn write(sheet: &[u8], out: &mut [u8]) -> Result<usize, Refusal>
    ensures { (outcome_of result ≡ written_of sheet.now (length out.old))
        × (out.new ≡ circuit_in sheet.now out.old) }
{
    let counts = sheet::read(sheet)?;
    if out.len() < sizes::circuit_size(counts) {
        return Err(Refusal::Room);
    }
    Ok(put_circuit(sheet, out))
}
