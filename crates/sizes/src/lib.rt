// Room told from the sheet: what a sheet comes to, found from the counts of its reading. The definitions that the contracts
// cite are those of the crate rules, at document 01's setting, and of specs/.
#![tactic(auto)]

ghost use Rattle.std.specs.Prelude.{◌≡◌, suc, ◌-◌, ◌*◌, ◌≤◌, ◌<◌, get_or};
ghost use Rattle.records.specs.Refusals.{outcome_of};
ghost use Rattle.rules.specs.Settings.{document01};
ghost use Rattle.rules.specs.CircuitReader.{body_lengths};
ghost use Rattle.columns.specs.Counting.{Small};
ghost use Rattle.circuit.specs.Reading.{code_of, BodyTable};
ghost use Rattle.sizes.specs.Room.{adds_made, scales_made, steps_size, wires_made, greatest_of, sizes_from, told_of};

use circuit::{BODY_LENGTHS, StepKind};
use columns::Counts;
use records::Refusal;

// What a sheet comes to.
#[derive(Clone, Copy, Debug, PartialEq, Eq)]
pub struct Sizes {
    pub columns: u32,
    pub entries: u32,
    pub published: u32,
    pub wires: u32,
    pub multiplications: u32,
    pub tests: u32,
    // the bytes of the circuit and of a share message
    pub circuit: u32,
    pub share: u32,
    // the greatest N that opens
    pub greatest: u32,
}

// The bytes of n steps of one kind: each has one more than its kind's body length.
fn kind_size(lengths: &[usize; 6], kind: StepKind, n: usize) -> usize
    requires { BodyTable lengths.now × (n ≤ 768) }
    ensures { (result ≡ n * suc (get_or (body_lengths document01) (code_of kind - 1) 0)) × (result ≤ 7 * n) }
{
    n * (1 + lengths[(kind.code() - 1) as usize])
}

// The additions among the steps of columns with these counts: one before each multiplication that checks a bit, and one for each
// term of a sum; the sums of a column have as many terms as the column has tests, less one, or less two for a point, which has two
// products.
fn adds(c: Counts) -> usize
    requires { Small 256 c }
    ensures { (result ≡ adds_made c) × (result ≤ 768) }
{
    c.gates + c.tests - c.columns - 3 * (c.products / 2)
}

// The products with a constant: each entry that is not published is a bit and has one with its weight, each that no bit check
// reads has one with p - 1.
fn scales(c: Counts) -> usize
    requires { Small 256 c }
    ensures { (result ≡ scales_made c) × (result ≤ 512) }
{
    2 * c.entries + c.products - c.published - c.gates
}

// The bytes of the steps of some columns, and of a constant in front.
fn steps_size(lengths: &[usize; 6], c: Counts) -> usize
    requires { BodyTable lengths.now × Small 256 c }
    ensures { result ≡ steps_size c }
{
    kind_size(lengths, StepKind::Constant, c.constants + 1)
        + kind_size(lengths, StepKind::Entry, c.entries)
        + kind_size(lengths, StepKind::Add, adds(c))
        + kind_size(lengths, StepKind::Scale, scales(c))
        + kind_size(lengths, StepKind::Multiply, c.gates)
        + kind_size(lengths, StepKind::Test, c.tests)
}

// The bytes of the circuit of a sheet with these counts, which starts with a constant.
pub fn circuit_size(c: Counts) -> usize
    requires { Small 256 c }
    ensures { result ≡ steps_size c }
{
    steps_size(&BODY_LENGTHS, c)
}

// The wires that the steps of columns with these counts make: kinds 1 to 5 make one each.
pub fn columns_wires(c: Counts) -> u32
    requires { Small 256 c }
    ensures { result ≡ wires_made c }
{
    (c.constants + c.entries + adds(c) + scales(c) + c.gates) as u32
}

// The greatest N that opens, where the largest value of all columns is this.
fn greatest_returns(largest: u32) -> u32
    requires { 0 < largest }
    ensures { result ≡ greatest_of largest }
{
    ((field::P - 1) / largest).min(limits::MAX_RETURNS)
}

// What the counts of a sheet that is read come to.
fn sizes_from(c: Counts) -> Sizes
    requires { Small 256 c × (0 < c.largest) }
    ensures { result ≡ sizes_from c }
{
    let share = 6 + 4 * limits::share_size(c.entries, c.gates);
    Sizes {
        columns: c.columns as u32,
        entries: c.entries as u32,
        published: c.published as u32,
        wires: 1 + columns_wires(c),
        multiplications: c.gates as u32,
        tests: c.tests as u32,
        circuit: circuit_size(c) as u32,
        share: share as u32,
        greatest: greatest_returns(c.largest),
    }
}

// What a sheet comes to, from its bytes alone.
pub fn measure(sheet: &[u8]) -> Result<Sizes, Refusal>
    ensures { outcome_of result ≡ told_of sheet.now }
{
    let counts = sheet::read(sheet)?;
    Ok(sizes_from(counts))
}
