// Opening a server's table. The definitions that the contracts cite are those of the crate rules, at document 01's setting, and
// of specs/. A refusal leaves what is lent as it was.
#![tactic(auto)]

ghost use Rattle.std.specs.Prelude.{◌≡◌};
ghost use Rattle.words.specs.Bytes.{splice};
ghost use Rattle.records.specs.Refusals.{outcome_of};
ghost use Rattle.rules.specs.Settings.{document01};
ghost use Rattle.rules.specs.Table.{open_refusal};
ghost use Rattle.opening.specs.Calls.{Opens};
ghost use Rattle.opening.specs.Fresh.{size_for, room_by, room_for, fresh_bytes, Roomy};

use layout::HEADER;
use layout::places::table_length;
use layout::writing::{clear, write_start};
use limits::{check_servers, least_sound, share_size};
use records::Refusal;
use sheet::returns::check_returns;
use waiting::writing::erase;

// What a table takes besides its records.
#[derive(Clone, Copy)]
pub struct Size {
    pub bytes: usize,
    pub numbers: usize,
}

// Whether so many bytes, records and numbers have room for a table: it takes eight records.
#[tactic(auto, unfolding(crate::specs::Fresh::room_for))]
fn has_room(size: Size, room: usize, records: usize, numbers: usize) -> bool
    ensures { result ≡ room_for size room records numbers }
{
    size.bytes <= room && records == 8 && size.numbers <= numbers
}

// The room that opening takes, where so many bytes, records and numbers are lent. Q is tested before N: both are refused 2, and
// 4 comes behind both.
fn open_checked(
    servers: u32,
    own: u32,
    sheet: &[u8],
    returns: u32,
    least: u32,
    room: usize,
    records: usize,
    numbers: usize,
) -> Result<Size, Refusal>
    ensures { outcome_of result ≡ room_by (open_refusal document01 servers own sheet.now returns least room records numbers)
        (size_for sheet.now returns) }
{
    check_servers(servers)?;
    if servers <= own {
        return Err(Refusal::Limit);
    }
    let counts = sheet::read(sheet)?;
    if !least_sound(returns, least) {
        return Err(Refusal::Limit);
    }
    check_returns(sheet, returns)?;
    let place = share_size(counts.entries, counts.gates) + 2;
    let size = Size {
        bytes: table_length(sheet.len(), counts.published, returns),
        numbers: place * 8,
    };
    if !has_room(size, room, records, numbers) {
        return Err(Refusal::Room);
    }
    Ok(size)
}

// Writes a fresh table of so many bytes.
fn write_fresh(
    table: &mut [u8],
    servers: u8,
    own: u8,
    sheet: &[u8],
    returns: u32,
    least: u32,
    size: usize,
)
    requires { Roomy sheet.now size table.old }
    ensures { table.new
        ≡ splice table.old 0 (fresh_bytes servers own sheet.now returns least size) }
{
    let end = HEADER + sheet.len();
    write_start(table, servers, own, returns, least, sheet.len() as u32);
    words::copy(table, HEADER, sheet);
    clear(table, end, size - end);
}

// Opens a table in the bytes and numbers that are lent, from their start.
pub fn open(
    servers: u32,
    own: u32,
    sheet: &[u8],
    returns: u32,
    least: u32,
    table: &mut [u8],
    records: usize,
    numbers: &mut [u32],
) -> Result<usize, Refusal>
    ensures { Opens servers own sheet.now returns least table.old records numbers.old
        result table.new numbers.new }
{
    let size = open_checked(
        servers,
        own,
        sheet,
        returns,
        least,
        table.len(),
        records,
        numbers.len(),
    )?;
    write_fresh(
        table,
        servers as u8,
        own as u8,
        sheet,
        returns,
        least,
        size.bytes,
    );
    erase(numbers, 0, size.numbers);
    Ok(size.bytes)
}
