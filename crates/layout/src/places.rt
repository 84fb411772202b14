// The places of a table: by what it says, and by plain numbers for a table that is not yet written.
ghost use Rattle.std.specs.Prelude.{◌≡◌, ◌+◌, ◌≤◌, length};
ghost use Rattle.words.specs.Bytes.{part};
ghost use Rattle.rules.specs.Table.{header_length};
ghost use Rattle.layout.specs.Places.{totals_at, ids_at, length_at, place_size_of, Small};
ghost use Rattle.limits.specs.Sheets.{size_of};
ghost use Rattle.layout.specs.Numbers.{Limited};

use crate::{HEADER, Table};

// The sheet of a table, n bytes long, as that part of the table.
pub fn sheet_part<'a>(t: &'a [u8], n: usize) -> &'a [u8]
    requires { header_length + n ≤ length t.now }
    ensures { result.now ≡ part header_length n t.now }
{
    let end = HEADER + n;
    &t[HEADER..end]
}

// The bytes of a table: its header, its sheet, the totals and room for N ids.
pub fn table_length(n: usize, published: usize, returns: u32) -> usize
    requires { Small n published returns }
    ensures { result ≡ length_at n published returns }
{
    HEADER + n + 4 * published + 4 * (returns as usize)
}

impl Table {
    // The totals stand behind the sheet.
    pub fn totals_place(self) -> usize
        requires { Limited self }
        ensures { result ≡ totals_at self.sheet }
    {
        HEADER + self.sheet
    }

    // Then the ids decided.
    pub fn ids_place(self) -> usize
        requires { Limited self }
        ensures { result ≡ ids_at self.sheet self.published }
    {
        self.totals_place() + 4 * self.published
    }

    // Where it ends.
    pub fn length(self) -> usize
        requires { Limited self }
        ensures { result ≡ length_at self.sheet self.published self.returns }
    {
        table_length(self.sheet, self.published, self.returns)
    }

    // The elements of a share.
    pub fn share_size(self) -> usize
        requires { Limited self }
        ensures { result ≡ size_of self.entries self.gates }
    {
        limits::share_size(self.entries, self.gates)
    }

    // The numbers of a place: the elements of a share, and two more.
    pub fn place_size(self) -> usize
        requires { Limited self }
        ensures { result ≡ place_size_of self.entries self.gates }
    {
        self.share_size() + 2
    }
}
