// What a server works out from its share: the polynomials at r, by the walk over the columns of a sheet, and the numbers of
// the two rounds. Elements are u32 below the prime. No step depends on the value of an element.
#![tactic(auto)]

ghost use Rattle.std.specs.Prelude.{◌≡◌, ◌<◌};
ghost use Rattle.field.specs.Residues.{prime, residues};
ghost use Rattle.rules.specs.Judging.{first_only, sigma_from};

pub mod judging;

// 1 at server 0, 0 at the others: the factor on constants.
fn first_only(own: u32) -> u32
    ensures { result ≡ first_only residues own }
{
    (own == 0) as u32
}

// d b + e a + c - rh, and d e at server 0
pub fn sigma(own: u32, d: u32, e: u32, a: u32, b: u32, c: u32, rh: u32) -> u32
    requires { (d < prime) × (e < prime) × (a < prime) × (b < prime) × (c < prime) × (rh < prime) }
    ensures { result ≡ sigma_from residues (first_only residues own) d e a b c rh }
{
    let shared = field::add(field::mul_add(d, b, field::mul(e, a)), c);
    field::add(
        field::sub(shared, rh),
        field::mul(first_only(own), field::mul(d, e)),
    )
}
