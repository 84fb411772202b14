// The bytes of a server's table: the numbers that they say, their places, the header of a fresh table and the closing
// message. The contracts cite specs/.
#![tactic(auto)]

pub mod places;
pub mod writing;

// The first byte of a table.
pub const TABLE: u8 = 3;

// The bytes before the sheet.
pub const HEADER: usize = 14;

// The stages of a table, as its second byte says them.
pub const OPEN: u8 = 0;

pub const CLOSED: u8 = 1;

// What a table says: its header, and what its sheet comes to.
#[derive(Clone, Copy)]
pub struct Table {
    pub closed: bool,
    pub servers: u32,
    pub own: u32,
    pub returns: u32,
    pub decided: u32,
    pub entered: u32,
    pub least: u32,
    // the bytes of the sheet
    pub sheet: usize,
    pub columns: usize,
    pub entries: usize,
    pub published: usize,
    pub gates: usize,
    pub tests: usize,
}
