// The messages of the servers. The random elements hold the shares of all but server 0, whose share is what remains of the
// whole list.
ghost use Rattle.std.specs.Prelude.{◌≡◌, ◌+◌, ◌*◌, ◌<◌, ◌≤◌, length};
ghost use Rattle.words.specs.Bytes.{splice};
ghost use Rattle.field.specs.Residues.{prime, Elements};
ghost use Rattle.client.specs.Pieces.{Random, rest_of, first_share, message_bytes, other_message};
ghost use Rattle.client.specs.Pieces.{other_messages, Other};

use share_message::{SHARE_KIND, write_header};

// Element e of server 0's share, of the whole x.
fn rest_of(random: &[u8], others: usize, size: usize, e: usize, x: u32) -> u32
    requires { Random random.now others size × (e < size) × (x < prime) }
    ensures { result ≡ rest_of random.now others size e x }
{
    field::sub(x, steps::sum_words(random, 4 * size, 16 + 4 * e, others))
}

// Takes the shares of the other servers from the whole w, which leaves server 0's.
pub fn take_shares(random: &[u8], others: usize, w: &mut [u32])
    requires { Random random.now others (length w.old) × Elements w.old }
    ensures { w.new ≡ first_share random.now others w.old }
{
    let size = w.len();
    for (e, x) in w.iter_mut().enumerate() {
        *x = rest_of(random, others, size, e, *x);
    }
}

// The message of server j + 1, at its place.
fn write_other(random: &[u8], size: usize, id: u32, j: usize, out: &mut [u8])
    requires { Other random.now size j out.old }
    ensures { out.new
        ≡ splice out.old (message_bytes size + message_bytes size * j) (other_message random.now size id j) }
{
    let length = 6 + 4 * size;
    let at = length + length * j;
    let start = 16 + 4 * size * j;
    let end = start + 4 * size;
    write_header(out, at, SHARE_KIND, id, (j + 1) as u8);
    words::copy(out, at + 6, &random[start..end]);
}

// The messages of the other servers, behind that of server 0.
pub fn write_others(random: &[u8], others: usize, size: usize, id: u32, out: &mut [u8])
    requires { Random random.now others size × (message_bytes size + message_bytes size * others ≤ length out.old) }
    ensures { out.new
        ≡ splice out.old (message_bytes size) (other_messages random.now size id others) }
{
    for j in 0..others {
        write_other(random, size, id, j, out);
    }
}
