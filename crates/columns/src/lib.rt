// One column by itself. A new kind is one case more in each function: the length of its body, the column that a body says,
// what it comes to, its largest value. The definitions that the contracts cite are those of the crate rules and of specs/.
#![tactic(auto)]

ghost use Rattle.std.specs.Prelude.{◌≡◌, [], ◌∷◌, ◌+◌, ◌^◌, ◌≤◌, length, MatchOption};
ghost use Rattle.std.proofs.Math.Option.{none};
ghost use Rattle.records.specs.Refusals.{outcome_of};
ghost use Rattle.rules.specs.Columns.{top, point, bit_length, within, limited_column, column_body, column_of, largest_of};
ghost use Rattle.rules.proofs.Circuits.Limits.{InLimits};
ghost use Rattle.columns.specs.Counting.{counts_of};
ghost use Rattle.columns.specs.Kinds.{code_of, bytes_of_kind, judged_of, from_code};

use records::Refusal;

// What columns come to: entries, published entries, constants, multiplications, those of them that check no bit, and tests; and
// their largest value.
#[derive(Clone, Copy, Debug, Default, PartialEq, Eq)]
pub struct Counts {
    pub columns: usize,
    pub entries: usize,
    pub published: usize,
    pub constants: usize,
    pub gates: usize,
    pub products: usize,
    pub tests: usize,
    pub largest: u32,
}

// A column: yes/no, a choice of so many options, a number of so many bits, a number up to a top, a point of two numbers of so
// many bits.
#[derive(Clone, Copy, Debug, PartialEq, Eq)]
pub enum Column {
    YesNo,
    Choice(usize),
    Number(usize),
    Top(u32),
    Point(usize),
}

// The kind of a column, by its kind byte.
#[derive(Clone, Copy, Debug, PartialEq, Eq)]
pub enum Kind {
    YesNo = 17,
    Choice = 18,
    Number = 19,
    Top = 20,
    Point = 21,
}

impl Kind {
    // The kind of a byte, if it is one.
    #[tactic(auto, unfolding(rules::specs::Columns::column_body))]
    pub fn of(byte: u8) -> Option<Kind>
        ensures { MatchOption result (column_body byte ≡ none) (λ kind. code_of kind ≡ byte) }
    {
        match byte {
            17 => Some(Kind::YesNo),
            18 => Some(Kind::Choice),
            19 => Some(Kind::Number),
            20 => Some(Kind::Top),
            21 => Some(Kind::Point),
            _ => None,
        }
    }

    // The bytes of a column of the kind, its kind byte too.
    #[tactic(auto, unfolding(rules::specs::Columns::column_body, crate::specs::Kinds::bytes_of_kind))]
    pub fn bytes(self) -> usize
        ensures { result ≡ bytes_of_kind (code_of self) }
    {
        match self {
            Kind::YesNo => 1,
            Kind::Choice | Kind::Number | Kind::Point => 2,
            Kind::Top => 5,
        }
    }
}

// No column at all: what the default is, in the words of the rules.
pub fn none() -> Counts
    ensures { result ≡ counts_of [] }
{
    Counts::default()
}

// The bytes of a column, its kind byte too; 0 for an unknown kind.
pub fn bytes_of(kind: u8) -> usize
    ensures { result ≡ bytes_of_kind kind }
{
    match Kind::of(kind) {
        Some(known) => known.bytes(),
        None => 0,
    }
}

// A column of the number n, where n is from `least` to `most`.
#[inline(always)]
#[tactic(auto, unfolding(rules::specs::Columns::limited_column))]
fn limited(n: usize, least: usize, most: usize, column: Column) -> Result<Column, Refusal>
    ensures { outcome_of result ≡ judged_of (limited_column (within least most n) (from_code column)) }
{
    if !(least..=most).contains(&n) {
        return Err(Refusal::Limit);
    }
    Ok(column)
}

// What a record with a whole body says.
#[tactic(auto, unfolding(rules::specs::Columns::column_of, rules::specs::Columns::column_body, crate::specs::Kinds::bytes_of_kind))]
#[inline(always)]
pub fn column_of(kind: Kind, body: &[u8]) -> Result<Column, Refusal>
    requires { bytes_of_kind (code_of kind) ≡ length body.now + 1 }
    ensures { outcome_of result ≡ judged_of (column_of (code_of kind) body.now) }
{
    match kind {
        Kind::YesNo => Ok(Column::YesNo),
        Kind::Choice => {
            let options = usize::from(body[0]);
            limited(options, 2, 64, Column::Choice(options))
        }
        Kind::Number => {
            let bits = usize::from(body[0]);
            limited(bits, 1, 24, Column::Number(bits))
        }
        Kind::Top => {
            let top = words::read_u32(body, 0);
            limited(top as usize, 1, 16_777_215, Column::Top(top))
        }
        Kind::Point => {
            let bits = usize::from(body[0]);
            limited(bits, 1, 12, Column::Point(bits))
        }
    }
}

// 2 to the n.
pub fn power(n: usize) -> u32
    requires { n ≤ 24 }
    ensures { result ≡ 2 ^ n }
{
    1u32 << n
}

// The largest value of an entry that a column publishes.
#[tactic(auto, unfolding(rules::specs::Columns::largest_of))]
pub fn largest_of(column: Column) -> u32
    requires { InLimits (from_code column) }
    ensures { result ≡ largest_of (from_code column) }
{
    match column {
        Column::YesNo => 1,
        Column::Choice(_) => 1,
        Column::Number(n) => power(n) - 1,
        Column::Top(n) => n,
        Column::Point(n) => {
            let most = power(n) - 1;
            most * most
        }
    }
}

// The bit length of a top.
pub fn bit_length(n: u32) -> usize
    requires { (1 ≤ n) × (n ≤ 16777215) }
    ensures { result ≡ bit_length n }
{
    (32 - u32::leading_zeros(n)) as usize
}

// What a number up to n comes to, where n has b bits.
fn top_counts(b: usize, n: u32) -> Counts
    requires { (b ≤ 24) × (b ≡ bit_length n) }
    ensures { result ≡ counts_of (top n ∷ []) }
{
    Counts {
        columns: 1,
        entries: 2 * b + 1,
        published: 1,
        constants: 1,
        gates: 2 * b,
        products: 0,
        tests: 2 * b + 2,
        largest: n,
    }
}

// What a point of two numbers of n bits comes to, where this is its largest value.
fn point_counts(n: usize, largest: u32) -> Counts
    requires { (n ≤ 12) × (largest ≡ largest_of (point n)) }
    ensures { result ≡ counts_of (point n ∷ []) }
{
    Counts {
        columns: 1,
        entries: 4 + 2 * n,
        published: 4,
        constants: 0,
        gates: 2 * n + 2,
        products: 2,
        tests: 2 * n + 4,
        largest,
    }
}

// What one column comes to.
pub fn counts_of(column: Column) -> Counts
    requires { InLimits (from_code column) }
    ensures { result ≡ counts_of (from_code column ∷ []) }
{
    let largest = largest_of(column);
    match column {
        Column::YesNo => Counts {
            columns: 1,
            entries: 1,
            published: 1,
            constants: 0,
            gates: 1,
            products: 0,
            tests: 1,
            largest,
        },
        Column::Choice(n) => Counts {
            columns: 1,
            entries: n,
            published: n,
            constants: 0,
            gates: n,
            products: 0,
            tests: n + 1,
            largest,
        },
        Column::Number(n) => Counts {
            columns: 1,
            entries: n + 1,
            published: 1,
            constants: 0,
            gates: n,
            products: 0,
            tests: n + 1,
            largest,
        },
        Column::Top(n) => top_counts(bit_length(n), n),
        Column::Point(n) => point_counts(n, largest),
    }
}
