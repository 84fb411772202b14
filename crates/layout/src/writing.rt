// What is written: zeros, the header of a fresh table, the id of a return that is decided, the closing message.
ghost use Rattle.std.specs.Prelude.{◌≡◌, ◌+◌, ◌≤◌, length, replicate};
ghost use Rattle.words.specs.Bytes.{splice};
ghost use Rattle.rules.specs.Table.{header_length};
ghost use Rattle.layout.specs.Writing.{start_bytes, noted, Decidable, closing_bytes, Closable};

use crate::{OPEN, TABLE, Table};

// Clears n bytes from `at`.
pub fn clear(t: &mut [u8], at: usize, n: usize)
    requires { at + n ≤ length t.old }
    ensures { t.new ≡ splice t.old at (replicate n 0) }
{
    let end = at + n;
    t[at..end].fill(0);
}

// Writes the header of a fresh table with a sheet of n bytes.
pub fn write_start(t: &mut [u8], servers: u8, own: u8, returns: u32, least: u32, n: u32)
    requires { header_length ≤ length t.old }
    ensures { t.new ≡ splice t.old 0 (start_bytes servers own returns least n) }
{
    t[0] = TABLE;
    t[1] = OPEN;
    t[2] = servers;
    t[3] = own;
    words::write_u16(t, 4, returns);
    words::write_u16(t, 6, 0);
    words::write_u16(t, 8, 0);
    words::write_u16(t, 10, least);
    words::write_u16(t, 12, n);
}

// Notes a return among those decided: the counts, and its id.
pub fn note_decided(t: &mut [u8], k: Table, entered: u32, id: u32)
    requires { Decidable t.old k × (entered ≤ 1) }
    ensures { t.new ≡ noted k entered id t.old }
{
    let decided = k.decided;
    words::write_u16(t, 6, decided + 1);
    words::write_u16(t, 8, k.entered + entered);
    words::write_u32(t, k.ids_place() + 4 * (decided as usize), id);
}

// Writes the closing message of a table.
pub fn write_closing(t: &[u8], k: Table, out: &mut [u8])
    requires { Closable t.now k (length out.old) }
    ensures { out.new ≡ splice out.old 0 (closing_bytes k t.now) }
{
    totals_message::write_totals_header(out, k.own as u8, k.entered);
    let start = k.totals_place();
    let end = k.ids_place();
    words::copy(out, 6, &t[start..end]);
}
