// The published entries of a share added to the totals of a table.
ghost use Rattle.std.specs.Prelude.{◌≡◌};
ghost use Rattle.algebra.specs.Lists.{tabulate};
ghost use Rattle.words.specs.Bytes.{bytes_of_all, splice};
ghost use Rattle.entering.specs.Totals.{words_added, Addable, Adds, with_published};

use layout::Table;
use layout::places::sheet_part;
use sheet::cursor;

// Adds n numbers of xs from `from` to the words from `to`.
fn add_words(t: &mut [u8], to: usize, xs: &[u32], from: usize, n: usize)
    requires { Addable t.old to xs.now from n }
    ensures { t.new
        ≡ splice t.old to (bytes_of_all 4 (tabulate (words_added t.old to xs.now from) n)) }
{
    for i in 0..n {
        let sum = field::add(words::read_u32(t, to + 4 * i), xs[from + i]);
        words::write_u32(t, to + 4 * i, sum);
    }
}

// Adds the published entries of the share xs to the totals, column by column. The walk is a cursor's and no iterator: the table that
// is written holds the sheet.
pub fn add_published(t: &mut [u8], k: Table, xs: &[u32])
    requires { Adds t.old k xs.now }
    ensures { t.new ≡ with_published t.old xs.now }
{
    let totals = k.totals_place();
    let mut c = cursor::start();
    while c.at < k.sheet {
        let step = cursor::next(sheet_part(t, k.sheet), c);
        let n = step.next.published - c.published;
        add_words(t, totals + 4 * c.published, xs, c.entry, n);
        c = step.next;
    }
}
