// What both ways of making a return share: the checks of S and of the values, the whole list that the shares add up to, which is
// the entries, u_0, v_0, the values of h, a, b and c, and server 0's message.
#![tactic(auto)]

ghost use Rattle.std.specs.Prelude.{◌≡◌, [], ◌∷◌, ◌+◌, ◌*◌, ◌<◌, ◌≤◌, length};
ghost use Rattle.words.specs.Bytes.{splice, elements_of};
ghost use Rattle.records.specs.Outcome.{or_else};
ghost use Rattle.records.specs.Refusals.{fault_of};
ghost use Rattle.rules.specs.Settings.{document01};
ghost use Rattle.rules.specs.Columns.{columns_of, servers_fault};
ghost use Rattle.rules.specs.Making.{values_fault, share_message};
ghost use Rattle.whole.specs.Pieces.{Counted, whole_of, Fillable};

use columns::Counts;
use limits::check_servers;
use records::Refusal;
use share_message::{SHARE_KIND, write_header};
use values::{check_values, encode_columns};

// S and the values, for a sheet that is read.
pub fn check_early(sheet: &[u8], counts: Counts, servers: u32, values: &[u8]) -> Result<(), Refusal>
    requires { Counted sheet.now counts }
    ensures { fault_of result ≡ or_else (servers_fault servers) (values_fault (columns_of sheet.now) values.now) }
{
    check_servers(servers)?;
    check_values(sheet, counts.columns, values)
}

// The whole list of the values and the first four random elements.
pub fn fill_whole(sheet: &[u8], counts: Counts, values: &[u8], random: &[u8], w: &mut [u32])
    requires { Fillable sheet.now counts values.now random.now w.old }
    ensures { w.new
        ≡ whole_of (columns_of sheet.now) (elements_of 4 values.now) (elements_of 4 random.now) }
{
    let u = elements::at(random, 0);
    let v = elements::at(random, 1);
    let a = elements::at(random, 2);
    let b = elements::at(random, 3);
    let (x, rest) = w.split_at_mut(counts.entries);
    let (free, rest) = rest.split_at_mut(2);
    let (h, product) = rest.split_at_mut(2 * counts.gates + 1);
    encode_columns(sheet, values, x);
    free.copy_from_slice(&[u, v]);
    prover::fill_h(sheet, x, u, v, h);
    product.copy_from_slice(&[a, b, field::mul(a, b)]);
}

// Server 0's message with the elements of its share, from the front of `out`.
pub fn write_first(share: &[u32], id: u32, out: &mut [u8])
    requires { 6 + 4 * length share.now ≤ length out.old }
    ensures { out.new ≡ splice out.old 0 (share_message document01 id 0 share.now) }
{
    write_header(out, 0, SHARE_KIND, id, 0);
    elements::write(out, 6, share);
}
