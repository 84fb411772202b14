// The walk over the columns of a sheet that is read, for every loop over them: an iterator, and under it a cursor, which stands
// before a column or behind the last. The laws that a loop needs are in proofs/Walks.antt.
ghost use Rattle.std.specs.Prelude.{◌≡◌, ◌-◌, length};
ghost use Rattle.std.specs.Iterator.{at_most};
ghost use Rattle.records.specs.Outcome.{ok};
ghost use Rattle.rules.specs.Columns.{read_sheet, columns_of};
ghost use Rattle.sheet.specs.Cursor.{begin, Stands, Walks, step_at};
ghost use Rattle.sheet.specs.Walk.{Goes};

use columns::{Column, Kind, column_of, counts_of};

// Before a column: its index and its byte place, the entries, the published entries and the multiplications before it.
#[derive(Clone, Copy, Debug, PartialEq, Eq)]
pub struct Cursor {
    pub index: usize,
    pub at: usize,
    pub entry: usize,
    pub published: usize,
    pub gates: usize,
}

// The column under a cursor, and the cursor behind it.
#[derive(Clone, Copy, Debug, PartialEq, Eq)]
pub struct Step {
    pub column: Column,
    pub next: Cursor,
}

// Before the first column.
pub fn start() -> Cursor
    ensures { result ≡ begin }
{
    Cursor {
        index: 0,
        at: 0,
        entry: 0,
        published: 0,
        gates: 0,
    }
}

// The column under the cursor, and the next cursor. Each walk has it within its loop: a call would hand both over in memory.
#[inline(always)]
pub fn next(s: &[u8], c: Cursor) -> Step
    requires { Stands s.now c }
    ensures { result ≡ step_at s.now c.index }
{
    let at = c.at;
    let kind = Kind::of(s[at]).unwrap();
    let start = at + 1;
    let end = at + kind.bytes();
    let column = column_of(kind, &s[start..end]).unwrap();
    let counts = counts_of(column);
    let next = Cursor {
        index: c.index + 1,
        at: end,
        entry: c.entry + counts.entries,
        published: c.published + counts.published,
        gates: c.gates + counts.gates,
    };
    Step { column, next }
}

// A column of a sheet, and the cursors before and behind it.
#[derive(Clone, Copy)]
pub struct Place {
    pub column: Column,
    pub before: Cursor,
    pub after: Cursor,
}

// The columns of a sheet that is read, one after another.
#[derive(Drop)]
pub struct Walk<'a> {
    pub sheet: &'a [u8],
    pub next: Cursor,
    ghost is_read: { read_sheet sheet.now ≡ ok (columns_of sheet.now) },
    ghost walks: { Walks sheet.now next },
}

// The walk over the columns of a sheet, from the first.
pub fn columns<'a>(sheet: &'a [u8]) -> Walk<'a>
    requires { read_sheet sheet.now ≡ ok (columns_of sheet.now) }
    ensures sheet { result.sheet.now ≡ sheet.now }
    ensures next { result.next ≡ begin }
{
    Walk {
        sheet,
        next: start(),
    }
}

impl<'a> Iterator for Walk<'a> {
    type Item = Place;

    ghost next_gives = { λ w r v. Goes w.sheet.now w.next r v.sheet.now v.next };

    ghost remaining = { λ w. at_most (length (columns_of w.sheet.now) - w.next.index) };

    #[inline(always)]
    fn next(&mut self) -> Option<Place> {
        let before = self.next;
        if self.sheet.len() <= before.at {
            return None;
        }
        let step = next(self.sheet, before);
        self.next = step.next;
        Some(Place {
            column: step.column,
            before,
            after: step.next,
        })
    }
}
