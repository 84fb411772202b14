// Server 0's share: the whole list less what the seeds of the other servers give, which is added up in a list of its own.
ghost use Rattle.std.specs.Prelude.{◌≡◌, ◌≤◌, length, replicate};
ghost use Rattle.field.specs.Residues.{Elements};
ghost use Rattle.rules.specs.Settings.{document01};
ghost use Rattle.rules.specs.Seeds.{seed_elements};
ghost use Rattle.seeded.specs.Pieces.{added, lessened, seed_sums, Seeds};

use seeds::SEED_SIZE;

// sum[e] + x[e] in the place of sum[e].
fn add(sum: &mut [u32], x: &[u32])
    requires { Elements sum.old × Elements x.now × (length x.now ≡ length sum.old) }
    ensures { sum.new ≡ added sum.old x.now }
{
    for (e, y) in sum.iter_mut().enumerate() {
        *y = field::add(*y, x[e]);
    }
}

// w[e] - x[e] in the place of w[e].
fn subtract(w: &mut [u32], x: &[u32])
    requires { Elements w.old × Elements x.now × (length x.now ≡ length w.old) }
    ensures { w.new ≡ lessened w.old x.now }
{
    for (e, y) in w.iter_mut().enumerate() {
        *y = field::sub(*y, x[e]);
    }
}

// Adds the elements of a seed under an id.
fn add_seed(seed: &[u8], id: u32, sum: &mut [u32])
    requires { (length seed.now ≡ 32) × Elements sum.old × (length sum.old ≤ 774) }
    ensures { sum.new
        ≡ added sum.old (seed_elements document01 seed.now id (length sum.old)) }
{
    let mut buffer = [0u32; 774];
    let x = &mut buffer[..sum.len()];
    seeds::fill_elements(seed, id, x);
    add(sum, x);
}

// Adds up the elements of all seeds, in a list of zeros.
fn sum_seeds(seeds: &[u8], others: usize, id: u32, sum: &mut [u32])
    requires { Seeds seeds.now others × (length sum.old ≤ 774) × (sum.old ≡ replicate (length sum.old) 0) }
    ensures { sum.new ≡ seed_sums seeds.now id (length sum.old) others }
{
    for i in 0..others {
        let start = SEED_SIZE * i;
        add_seed(&seeds[start..start + SEED_SIZE], id, sum);
    }
}

// Takes the elements of all seeds from those of w.
pub fn take_seeds(seeds: &[u8], others: usize, id: u32, w: &mut [u32])
    requires { Seeds seeds.now others × Elements w.old × (length w.old ≤ 774) }
    ensures { w.new
        ≡ lessened w.old (seed_sums seeds.now id (length w.old) others) }
{
    let mut sums = [0u32; 774];
    let sum = &mut sums[..w.len()];
    sum_seeds(seeds, others, id, sum);
    subtract(w, sum);
}
