// The messages of the other servers, each with its seed.
ghost use Rattle.std.specs.Prelude.{◌≡◌, suc, ◌+◌, ◌*◌, ◌≤◌, length};
ghost use Rattle.words.specs.Bytes.{splice};
ghost use Rattle.rules.specs.Seeds.{seed_message, seed_at};
ghost use Rattle.seeded.specs.Pieces.{Seeds, SeedPlace, seed_messages};

use seeds::SEED_SIZE;
use share_message::{SEED_KIND, SEED_LENGTH, write_header};

// The message of server j + 1, where the seed messages begin at `first`.
fn write_seed(seeds: &[u8], id: u32, first: usize, j: usize, out: &mut [u8])
    requires { SeedPlace seeds.now first j out.old }
    ensures { out.new
        ≡ splice out.old (first + 38 * j) (seed_message id (suc j) (seed_at seeds.now j)) }
{
    let at = first + SEED_LENGTH * j;
    let start = SEED_SIZE * j;
    let end = start + SEED_SIZE;
    write_header(out, at, SEED_KIND, id, (j + 1) as u8);
    words::copy(out, at + 6, &seeds[start..end]);
}

// The messages of all other servers, from `first`.
pub fn write_seeds(seeds: &[u8], others: usize, id: u32, first: usize, out: &mut [u8])
    requires { Seeds seeds.now others × (first ≤ 3102) × (first + 38 * others ≤ length out.old) }
    ensures { out.new ≡ splice out.old first (seed_messages seeds.now id others) }
{
    for j in 0..others {
        write_seed(seeds, id, first, j, out);
    }
}
