// The values of a return: whether there is one for each column, within it, and their encoding as the sheet's entries.
#![tactic(auto)]

ghost use Rattle.std.specs.Prelude.{◌≡◌, ◌∷◌, ◌-◌, ◌/◌, ◌%◌, ◌^◌, ◌<◌, length};
ghost use Rattle.algebra.specs.Lists.{tabulate};
ghost use Rattle.records.specs.Refusals.{fault_of};
ghost use Rattle.rules.specs.Columns.{choice, top, point, entries_of, values_of, columns_of};
ghost use Rattle.rules.specs.Values.{encoded};
ghost use Rattle.rules.specs.Making.{values_fault};
ghost use Rattle.rules.proofs.Circuits.Limits.{InLimits};
ghost use Rattle.columns.specs.Kinds.{from_code};
ghost use Rattle.values.specs.Encode.{encode_refusal, encoded_into, Encoded, HasColumns, Encodable};

use columns::{Column, bit_length, power};
use records::Refusal;
use sheet::cursor;

// How many values a column has.
#[tactic(auto, unfolding(rules::specs::Columns::values_of))]
pub fn values_of(column: Column) -> u32
    requires { InLimits (from_code column) }
    ensures { result ≡ values_of (from_code column) }
{
    match column {
        Column::YesNo => 2,
        Column::Choice(n) => n as u32,
        Column::Number(n) => power(n),
        Column::Top(n) => n + 1,
        Column::Point(n) => {
            let range = power(n);
            range * range
        }
    }
}

// Whether there is one value for each column, and each is within its column.
pub fn check_values(s: &[u8], columns: usize, values: &[u8]) -> Result<(), Refusal>
    requires { HasColumns s.now columns }
    ensures { fault_of result ≡ values_fault (columns_of s.now) values.now }
{
    if values.len() != 4 * columns {
        return Err(Refusal::Value);
    }
    for place in cursor::columns(s) {
        if values_of(place.column) <= elements::at(values, place.before.index) {
            return Err(Refusal::Value);
        }
    }
    Ok(())
}

// The options of a choice: the chosen one is 1, the rest 0.
fn write_choice(out: &mut [u32], v: u32)
    ensures { out.new ≡ tabulate (encoded (choice (length out.old)) v) (length out.old) }
{
    for (i, option) in out.iter_mut().enumerate() {
        *option = u32::from(v as usize == i);
    }
}

// The lowest bits of v, lowest first.
fn write_bits(out: &mut [u32], v: u32)
    ensures { out.new ≡ tabulate (λ j. v / 2 ^ j % 2) (length out.old) }
{
    let mut rest = v;
    for bit in out.iter_mut() {
        *bit = rest % 2;
        rest /= 2;
    }
}

// v, and its lowest bits behind it.
fn write_number(out: &mut [u32], v: u32)
    requires { 0 < length out.old }
    ensures { out.new ≡ v ∷ tabulate (λ j. v / 2 ^ j % 2) (length out.old - 1) }
{
    out[0] = v;
    write_bits(&mut out[1..], v);
}

// v, its bits and those of n - v behind it, as many of each as n has.
#[tactic(auto, unfolding(rules::specs::Columns::entries_of))]
fn write_top(out: &mut [u32], n: u32, v: u32)
    requires { (length out.old ≡ entries_of (top n)) × InLimits (top n) }
    ensures { out.new ≡ tabulate (encoded (top n) v) (entries_of (top n)) }
{
    let b = bit_length(n);
    write_number(&mut out[..b + 1], v);
    write_bits(&mut out[b + 1..], n.saturating_sub(v));
}

// The two numbers of v and their products, and the n bits of each number behind them.
#[tactic(auto, unfolding(rules::specs::Columns::entries_of))]
fn write_point(out: &mut [u32], n: usize, v: u32)
    requires { (length out.old ≡ entries_of (point n)) × InLimits (point n) }
    ensures { out.new ≡ tabulate (encoded (point n) v) (entries_of (point n)) }
{
    let range = power(n);
    let x = v % range;
    let y = v / range;
    out[..4].copy_from_slice(&[x, x * x, y, x * y]);
    write_bits(&mut out[4..4 + n], x);
    write_bits(&mut out[4 + n..], y);
}

// The entries of one column.
#[tactic(auto, unfolding(rules::specs::Columns::entries_of))]
fn encode_column(column: Column, v: u32, out: &mut [u32])
    requires { (length out.old ≡ entries_of (from_code column)) × InLimits (from_code column) }
    ensures { out.new ≡ tabulate (encoded (from_code column) v) (entries_of (from_code column)) }
{
    match column {
        Column::YesNo => out[0] = v,
        Column::Choice(_) => write_choice(out, v),
        Column::Number(_) => write_number(out, v),
        Column::Top(n) => write_top(out, n, v),
        Column::Point(n) => write_point(out, n, v),
    }
}

// The entries of all columns, from the front of `out`.
pub fn encode_columns(s: &[u8], values: &[u8], out: &mut [u32])
    requires { Encodable s.now values.now out.old }
    ensures { out.new ≡ encoded_into s.now values.now out.old }
{
    for place in cursor::columns(s) {
        let v = elements::at(values, place.before.index);
        encode_column(
            place.column,
            v,
            &mut out[place.before.entry..place.after.entry],
        );
    }
}

// Whether the values can be encoded into a buffer of so much room: the sheet, then the values, then the room.
fn check_encode(s: &[u8], values: &[u8], room: usize) -> Result<(), Refusal>
    ensures { fault_of result ≡ encode_refusal s.now values.now room }
{
    let counts = sheet::read(s)?;
    check_values(s, counts.columns, values)?;
    if room < counts.entries {
        return Err(Refusal::Room);
    }
    Ok(())
}

// The entries that encode the values, from the front of `out`; a refusal leaves `out` as it was.
pub fn encode(s: &[u8], values: &[u8], out: &mut [u32]) -> Result<(), Refusal>
    ensures { Encoded s.now values.now out.old (fault_of result) out.new }
{
    check_encode(s, values, out.len())?;
    encode_columns(s, values, out);
    Ok(())
}
