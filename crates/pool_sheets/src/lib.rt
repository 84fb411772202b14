// The C functions of whoever writes a sheet: each hands its arguments to one call and its answer to the host, and has no
// rules of its own.
// `pool_c` exports them, and include/pool.h tells a host how to use them. Each takes any arguments and returns 0 or the number of
// the refusal; the promises (specs/Calls) are equalities with rules' definitions at document 01's setting.
#![tactic(auto)]

ghost use Rattle.pool_sheets.specs.Calls.{nine, TellsSizes, WritesCircuit, ReadsCircuit, WritesEveryReturn};

pub fn pool_sizes(
    sheet: &[u8],
    columns: &mut u32,
    entries: &mut u32,
    published: &mut u32,
    wires: &mut u32,
    multiplications: &mut u32,
    tests: &mut u32,
    circuit: &mut u32,
    share: &mut u32,
    greatest: &mut u32,
) -> u32
    ensures { TellsSizes sheet.now
        (nine columns.old entries.old published.old wires.old
        multiplications.old tests.old circuit.old share.old
        greatest.old) result
        (nine columns.new entries.new published.new wires.new
        multiplications.new tests.new circuit.new share.new
        greatest.new) }
{
    let answer = sizes::measure(sheet);
    if let Ok(told) = answer {
        *columns = told.columns;
        *entries = told.entries;
        *published = told.published;
        *wires = told.wires;
        *multiplications = told.multiplications;
        *tests = told.tests;
        *circuit = told.circuit;
        *share = told.share;
        *greatest = told.greatest;
    }
    records::number_of(answer)
}

pub fn pool_circuit(sheet: &[u8], out: &mut [u8], written: &mut usize) -> u32
    ensures { WritesCircuit sheet.now out.old written.old
        result out.new written.new }
{
    records::hand_back(compile::write(sheet, out), written)
}

pub fn pool_read_circuit(
    entries: u32,
    circuit: &[u8],
    wires: &mut u32,
    multiplications: &mut u32,
    tests: &mut u32,
) -> u32
    ensures { ReadsCircuit entries circuit.now
        wires.old multiplications.old tests.old
        result wires.new multiplications.new tests.new }
{
    let answer = circuit::read(entries, circuit);
    if let Ok(counts) = answer {
        *wires = counts.wires;
        *multiplications = counts.multiplications;
        *tests = counts.tests;
    }
    records::number_of(answer)
}

pub fn pool_every_return(sheet: &[u8], out: &mut [u8], lists: &mut u32, written: &mut usize) -> u32
    ensures { WritesEveryReturn sheet.now out.old lists.old written.old
        result out.new lists.new written.new }
{
    let answer = every_return::write(sheet, out);
    if let Ok(found) = answer {
        *lists = found.lists;
        *written = found.written;
    }
    records::number_of(answer)
}
