// The circuit reader: the counts of a circuit, or the number of the first refusal. The contract of `read` is an equality
// with rules' `read_circuit`, and asks nothing of the caller.
#![tactic(auto)]

ghost use Rattle.std.specs.Prelude.{◌≡◌, ◌&&◌, ◌+◌, ◌-◌, ◌≤◌, ◌<◌, ltb, length, get_or};
ghost use Rattle.words.specs.Bytes.{value_of, part};
ghost use Rattle.records.specs.Outcome.{or_else};
ghost use Rattle.records.specs.Refusals.{number_of, fault_of, outcome_of};
ghost use Rattle.records.specs.Records.{read as readRecords};
ghost use Rattle.rules.specs.Settings.{document01};
ghost use Rattle.rules.specs.Columns.{check};
ghost use Rattle.rules.specs.CircuitReader.{body_lengths, step_of, step_fault, step_format, limited_circuit};
ghost use Rattle.circuit.specs.Reading.{code_of, IsKindOf, BodyTable, counted, limited_counts, reading_in, reading_of};

use records::Refusal;

// The kinds of steps, by their kind bytes.
#[derive(Clone, Copy, Debug, PartialEq, Eq)]
pub enum StepKind {
    Constant = 1,
    Entry = 2,
    Add = 3,
    Scale = 4,
    Multiply = 5,
    Test = 6,
}

impl StepKind {
    // Its kind byte.
    pub fn code(self) -> u8
        ensures { result ≡ code_of self }
    {
        self as u8
    }

    // The kind of a byte.
    fn of(byte: u8) -> Option<StepKind>
        ensures { IsKindOf byte result }
    {
        match byte {
            1 => Some(StepKind::Constant),
            2 => Some(StepKind::Entry),
            3 => Some(StepKind::Add),
            4 => Some(StepKind::Scale),
            5 => Some(StepKind::Multiply),
            6 => Some(StepKind::Test),
            _ => None,
        }
    }
}

// What a circuit comes to.
#[derive(Clone, Copy, Debug, Default, PartialEq, Eq)]
pub struct Counts {
    pub wires: u32,
    pub multiplications: u32,
    pub tests: u32,
}

impl Counts {
    // The counts with one step more.
    fn with(self, kind: StepKind) -> Counts
        requires { (self.wires + self.tests ≤ 17920) × (self.multiplications ≤ 17920) }
        ensures { result ≡ counted kind self }
    {
        match kind {
            StepKind::Test => Counts {
                tests: self.tests + 1,
                ..self
            },
            StepKind::Multiply => Counts {
                wires: self.wires + 1,
                multiplications: self.multiplications + 1,
                ..self
            },
            _ => Counts {
                wires: self.wires + 1,
                ..self
            },
        }
    }

    // The counts, where they are within the total limits.
    fn limited(self) -> Result<Counts, Refusal>
        ensures { outcome_of result ≡ limited_counts self }
    {
        if self.wires <= 2048
            && (1..=256).contains(&self.multiplications)
            && (1..=512).contains(&self.tests)
        {
            Ok(self)
        } else {
            Err(Refusal::Limit)
        }
    }
}

// The body lengths of step kinds 1 to 6; `read` passes the table down.
pub const BODY_LENGTHS: [usize; 6] = [4, 2, 4, 6, 4, 2];

// Checks that `x` is below the limit.
fn check_below(x: u32, limit: u32, refusal: Refusal) -> Result<(), Refusal>
    ensures { fault_of result ≡ check (ltb x limit) (number_of refusal) }
{
    if x < limit { Ok(()) } else { Err(refusal) }
}

// Checks a body of two wires.
fn check_pair(body: &[u8], wires: u32) -> Result<(), Refusal>
    requires { 4 ≤ length body.now }
    ensures { fault_of result ≡ check (ltb (value_of (part 0 2 body.now)) wires
        && ltb (value_of (part 2 2 body.now)) wires) 3 }
{
    check_below(words::read_u16(body, 0), wires, Refusal::Wire)?;
    check_below(words::read_u16(body, 2), wires, Refusal::Wire)
}

// Checks a body of a wire and a constant: the constant comes first.
fn check_scale(body: &[u8], wires: u32) -> Result<(), Refusal>
    requires { 6 ≤ length body.now }
    ensures { fault_of result ≡ or_else (check (ltb (value_of (part 2 4 body.now)) document01.modulus) 2)
        (check (ltb (value_of (part 0 2 body.now)) wires) 3) }
{
    check_below(words::read_u32(body, 2), field::P, Refusal::Limit)?;
    check_below(words::read_u16(body, 0), wires, Refusal::Wire)
}

// Checks a step with a whole body, where the circuit has so many entries and so many wires are made.
fn check_step(kind: StepKind, body: &[u8], entries: u32, wires: u32) -> Result<(), Refusal>
    requires { length body.now ≡ get_or (body_lengths document01) (code_of kind - 1) 0 }
    ensures { fault_of result ≡ step_fault document01 entries wires (step_of document01 (code_of kind) body.now) }
{
    match kind {
        StepKind::Constant => check_below(words::read_u32(body, 0), field::P, Refusal::Limit),
        StepKind::Entry => check_below(words::read_u16(body, 0), entries, Refusal::Wire),
        StepKind::Add | StepKind::Multiply => check_pair(body, wires),
        StepKind::Scale => check_scale(body, wires),
        StepKind::Test => check_below(words::read_u16(body, 0), wires, Refusal::Wire),
    }
}

// The steps, one after another: the first refusal, or the counts within their limits.
fn steps(lengths: &[usize; 6], entries: u32, s: &[u8]) -> Result<Counts, Refusal>
    requires { BodyTable lengths.now × (length s.now ≤ 17920) }
    ensures { outcome_of result ≡ reading_in (limited_circuit (readRecords (step_format document01 entries) s.now)) }
{
    let mut counts = Counts::default();
    let mut at: usize = 0;
    while at < s.len() {
        let kind = StepKind::of(s[at]).ok_or(Refusal::Kind)?;
        let start = at + 1;
        let n = lengths[(kind.code() - 1) as usize];
        if s.len() - start < n {
            return Err(Refusal::Kind);
        }
        check_step(kind, &s[start..start + n], entries, counts.wires)?;
        counts = counts.with(kind);
        at = start + n;
    }
    counts.limited()
}

// Reads a circuit of so many entries: its entries and its bytes first, then step by step, the total limits last.
pub fn read(entries: u32, s: &[u8]) -> Result<Counts, Refusal>
    ensures { outcome_of result ≡ reading_of entries s.now }
{
    if !(1..=256).contains(&entries) || 17920 < s.len() {
        return Err(Refusal::Limit);
    }
    steps(&BODY_LENGTHS, entries, s)
}
