// The limits of document 01 that several calls test: S, N, the elements of a share, the pair r, s; and document 02's least count
// Q. Each contract is an equality with rules, or with specs/, which is rules' by the numbers of code.
#![tactic(auto)]

ghost use Rattle.std.specs.Prelude.{◌≡◌, ◌≤◌};
ghost use Rattle.records.specs.Refusals.{fault_of};
ghost use Rattle.rules.specs.Columns.{servers_fault, least_fits};
ghost use Rattle.limits.specs.Sheets.{size_of, pair_sound};

use records::Refusal;

// S, and the returns that a table decides.
pub const MIN_SERVERS: u32 = 2;

pub const MAX_SERVERS: u32 = 8;

pub const MAX_RETURNS: u32 = 1024;

// Whether S is from 2 to 8.
pub fn check_servers(servers: u32) -> Result<(), Refusal>
    ensures { fault_of result ≡ servers_fault servers }
{
    if !(MIN_SERVERS..=MAX_SERVERS).contains(&servers) {
        return Err(Refusal::Limit);
    }
    Ok(())
}

// Whether Q is from 1 to N.
pub fn least_sound(returns: u32, least: u32) -> bool
    ensures { result ≡ least_fits returns least }
{
    (1..=returns).contains(&least)
}

// The elements of a share.
pub fn share_size(entries: usize, gates: usize) -> usize
    requires { (entries ≤ 256) × (gates ≤ 256) }
    ensures { result ≡ size_of entries gates }
{
    entries + 2 * gates + 6
}

// Whether r and s are a pair for a sheet with so many multiplications.
#[tactic(auto, unfolding(crate::specs::Sheets::pair_sound))]
pub fn pair_sound(gates: usize, r: u64, s: u64) -> bool
    ensures { result ≡ pair_sound gates r s }
{
    let p = u64::from(field::P);
    (gates as u64) < r && r < p && s < p
}
