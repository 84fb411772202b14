// The C functions, for hosts: the static library behind include/pool.h. Each calls the function of its name in the library that it
// comes from, with that function's clauses, and has no rules of its own.
// include/pool.h tells a host how to use them. Each takes any arguments and returns 0 or the number of the refusal.
#![tactic(auto)]

ghost use Rattle.pool_sheets.specs.Calls.{nine, TellsSizes, WritesCircuit, ReadsCircuit, WritesEveryReturn};
ghost use Rattle.pool_client.specs.Calls.{Makes, MakesSeeded};
ghost use Rattle.waiting.specs.Changes.{lent};
ghost use Rattle.state.specs.Calls.{eight};
ghost use Rattle.pool_server.specs.Calls.{Opens, TakesShare, TakesOne, Decides, Enters, Drops, Closes, TellsState};
ghost use Rattle.pool_totals.specs.Calls.{Joins, TellsLine};
ghost use Rattle.pool_shelf.specs.Calls.{Shelves, Unshelves};

use slots::Slot;

// Of whoever writes a sheet.

#[unsafe(no_mangle)]
pub extern "C" fn pool_sizes(
    sheet: &[u8],
    columns: &mut u32,
    entries: &mut u32,
    published: &mut u32,
    wires: &mut u32,
    multiplications: &mut u32,
    tests: &mut u32,
    circuit: &mut u32,
    share: &mut u32,
    greatest: &mut u32,
) -> u32
    ensures { TellsSizes sheet.now
        (nine columns.old entries.old published.old wires.old
        multiplications.old tests.old circuit.old share.old
        greatest.old) result
        (nine columns.new entries.new published.new wires.new
        multiplications.new tests.new circuit.new share.new
        greatest.new) }
{
    pool_sheets::pool_sizes(
        sheet,
        columns,
        entries,
        published,
        wires,
        multiplications,
        tests,
        circuit,
        share,
        greatest,
    )
}

#[unsafe(no_mangle)]
pub extern "C" fn pool_circuit(sheet: &[u8], out: &mut [u8], written: &mut usize) -> u32
    ensures { WritesCircuit sheet.now out.old written.old
        result out.new written.new }
{
    pool_sheets::pool_circuit(sheet, out, written)
}

#[unsafe(no_mangle)]
pub extern "C" fn pool_read_circuit(
    entries: u32,
    circuit: &[u8],
    wires: &mut u32,
    multiplications: &mut u32,
    tests: &mut u32,
) -> u32
    ensures { ReadsCircuit entries circuit.now
        wires.old multiplications.old tests.old
        result wires.new multiplications.new tests.new }
{
    pool_sheets::pool_read_circuit(entries, circuit, wires, multiplications, tests)
}

#[unsafe(no_mangle)]
pub extern "C" fn pool_every_return(
    sheet: &[u8],
    out: &mut [u8],
    lists: &mut u32,
    written: &mut usize,
) -> u32
    ensures { WritesEveryReturn sheet.now out.old lists.old written.old
        result out.new lists.new written.new }
{
    pool_sheets::pool_every_return(sheet, out, lists, written)
}

// Of a client.

#[unsafe(no_mangle)]
pub extern "C" fn pool_make(
    sheet: &[u8],
    servers: u32,
    id: u32,
    values: &[u8],
    random: &[u8],
    out: &mut [u8],
    written: &mut usize,
) -> u32
    ensures { Makes sheet.now servers id values.now random.now
        out.old written.old result out.new written.new }
{
    pool_client::pool_make(sheet, servers, id, values, random, out, written)
}

#[unsafe(no_mangle)]
pub extern "C" fn pool_make_seeded(
    sheet: &[u8],
    servers: u32,
    id: u32,
    values: &[u8],
    random: &[u8],
    seeds: &[u8],
    out: &mut [u8],
    written: &mut usize,
) -> u32
    ensures { MakesSeeded sheet.now servers id values.now random.now seeds.now
        out.old written.old result out.new written.new }
{
    pool_client::pool_make_seeded(sheet, servers, id, values, random, seeds, out, written)
}

// Of a server.

#[unsafe(no_mangle)]
pub extern "C" fn pool_open(
    servers: u32,
    own: u32,
    sheet: &[u8],
    returns: u32,
    least: u32,
    table: &mut [u8],
    slots: &mut [Slot],
    elements: &mut [u32],
    written: &mut usize,
) -> u32
    ensures { Opens servers own sheet.now returns least
        (lent table.old slots.old elements.old) written.old
        result (lent table.new slots.new elements.new) written.new }
{
    pool_server::pool_open(
        servers, own, sheet, returns, least, table, slots, elements, written,
    )
}

#[unsafe(no_mangle)]
pub extern "C" fn pool_share(
    table: &[u8],
    slots: &mut [Slot],
    elements: &mut [u32],
    message: &[u8],
    r: u64,
    s: u64,
    out: &mut [u8],
    written: &mut usize,
) -> u32
    ensures { TakesShare (lent table.now slots.old elements.old)
        message.now r s out.old written.old
        result (lent table.now slots.new elements.new) out.new written.new }
{
    pool_server::pool_share(table, slots, elements, message, r, s, out, written)
}

#[unsafe(no_mangle)]
pub extern "C" fn pool_round_one(
    table: &[u8],
    slots: &mut [Slot],
    elements: &[u32],
    id: u32,
    joined: &[u8],
    out: &mut [u8],
    written: &mut usize,
) -> u32
    ensures { TakesOne (lent table.now slots.old elements.now)
        id joined.now out.old written.old
        result (lent table.now slots.new elements.now) out.new written.new }
{
    pool_server::pool_round_one(table, slots, elements, id, joined, out, written)
}

#[unsafe(no_mangle)]
pub extern "C" fn pool_round_two(
    table: &mut [u8],
    slots: &mut [Slot],
    elements: &mut [u32],
    id: u32,
    joined: &[u8],
    accepted: &mut u32,
) -> u32
    ensures { Decides (lent table.old slots.old elements.old)
        id joined.now accepted.old
        result (lent table.new slots.new elements.new) accepted.new }
{
    pool_server::pool_round_two(table, slots, elements, id, joined, accepted)
}

#[unsafe(no_mangle)]
pub extern "C" fn pool_enter(
    table: &mut [u8],
    slots: &mut [Slot],
    elements: &mut [u32],
    id: u32,
) -> u32
    ensures { Enters (lent table.old slots.old elements.old) id
        result (lent table.new slots.new elements.new) }
{
    pool_server::pool_enter(table, slots, elements, id)
}

#[unsafe(no_mangle)]
pub extern "C" fn pool_drop(
    table: &mut [u8],
    slots: &mut [Slot],
    elements: &mut [u32],
    id: u32,
) -> u32
    ensures { Drops (lent table.old slots.old elements.old) id
        result (lent table.new slots.new elements.new) }
{
    pool_server::pool_drop(table, slots, elements, id)
}

#[unsafe(no_mangle)]
pub extern "C" fn pool_close(
    table: &mut [u8],
    slots: &[Slot],
    elements: &[u32],
    out: &mut [u8],
    written: &mut usize,
) -> u32
    ensures { Closes (lent table.old slots.now elements.now)
        out.old written.old
        result (lent table.new slots.now elements.now) out.new written.new }
{
    pool_server::pool_close(table, slots, elements, out, written)
}

#[unsafe(no_mangle)]
pub extern "C" fn pool_state(
    table: &[u8],
    slots: &[Slot],
    elements: &[u32],
    servers: &mut u32,
    own: &mut u32,
    returns: &mut u32,
    least: &mut u32,
    closed: &mut u32,
    decided: &mut u32,
    entered: &mut u32,
    waiting: &mut u32,
) -> u32
    ensures { TellsState (lent table.now slots.now elements.now)
        (eight servers.old own.old returns.old least.old
        closed.old decided.old entered.old waiting.old)
        result (eight servers.new own.new returns.new least.new
        closed.new decided.new entered.new waiting.new) }
{
    pool_server::pool_state(
        table, slots, elements, servers, own, returns, least, closed, decided, entered, waiting,
    )
}

// Of anyone who joins totals.

#[unsafe(no_mangle)]
pub extern "C" fn pool_join(
    servers: u32,
    sheet: &[u8],
    returns: u32,
    joined: &[u8],
    out: &mut [u8],
    accepted: &mut u32,
    written: &mut usize,
) -> u32
    ensures { Joins servers sheet.now returns joined.now out.old
        accepted.old written.old
        result out.new accepted.new written.new }
{
    pool_totals::pool_join(servers, sheet, returns, joined, out, accepted, written)
}

#[unsafe(no_mangle)]
pub extern "C" fn pool_line(
    servers: u32,
    sheet: &[u8],
    returns: u32,
    joined: &[u8],
    column: u32,
    determinant: &mut i64,
    slope: &mut i64,
    intercept: &mut i64,
) -> u32
    ensures { TellsLine servers sheet.now returns joined.now column
        determinant.old slope.old intercept.old
        result determinant.new slope.new intercept.new }
{
    pool_totals::pool_line(
        servers,
        sheet,
        returns,
        joined,
        column,
        determinant,
        slope,
        intercept,
    )
}

// Of whoever stores messages.

#[unsafe(no_mangle)]
pub extern "C" fn pool_shelve(
    messages: u32,
    width: u32,
    run: &[u8],
    out: &mut [u8],
    written: &mut usize,
) -> u32
    ensures { Shelves messages width run.now out.old written.old
        result out.new written.new }
{
    pool_shelf::pool_shelve(messages, width, run, out, written)
}

#[unsafe(no_mangle)]
pub extern "C" fn pool_unshelve(
    messages: u32,
    width: u32,
    run: &[u8],
    out: &mut [u8],
    written: &mut usize,
) -> u32
    ensures { Unshelves messages width run.now out.old written.old
        result out.new written.new }
{
    pool_shelf::pool_unshelve(messages, width, run, out, written)
}
