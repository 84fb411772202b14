// sigma of a return that waits, which the own message of round two tells.
ghost use Rattle.std.specs.Prelude.{◌≡◌};
ghost use Rattle.rounds.specs.Waits.{Sharing, sigma_at};

use layout::Table;

// sigma from the numbers ns of a place, with the sums d and e: a, b and c are the last elements of the share.
pub fn sigma_of(k: Table, ns: &[u32], rh: u32, d: u32, e: u32) -> u32
    requires { Sharing k ns.now rh d e }
    ensures { result ≡ sigma_at k ns.now rh d e }
{
    let at = k.entries + 3 + (k.gates + k.gates);
    snip::sigma(k.own, d, e, ns[at], ns[at + 1], ns[at + 2], rh)
}
