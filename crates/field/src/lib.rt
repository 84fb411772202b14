// Arithmetic modulo the prime 2147483647. An element is a u32 below the prime. Each contract is an equality with a
// definition of algebra at that prime, which also says that the result is an element. No step depends on the value of
// an element, and none divides: / and % by TOP are a shift and a mask.
#![tactic(auto)]

ghost use Rattle.std.specs.Prelude.{◌≡◌, ◌+◌, ◌*◌, ◌/◌, ◌%◌, ◌<◌};
ghost use Rattle.algebra.specs.Ops.{minus};
ghost use Rattle.field.specs.Residues.{prime, top, residues};

pub const P: u32 = 2147483647;

// P + 1, which leaves 1 modulo P.
const TOP: u64 = 2147483648;

// y modulo P: y itself, or y - P where y + 1 reaches TOP.
fn reduce(y: u64) -> u32
    requires { y < 2 * prime }
    ensures { result ≡ y % prime }
{
    ((y + (y + 1) / TOP) % TOP) as u32
}

// A smaller number that leaves the same.
fn fold(x: u64) -> u64
    ensures { result ≡ x % top + x / top }
{
    x % TOP + x / TOP
}

// a * b, not reduced, for any a and b.
pub fn product(a: u32, b: u32) -> u64
    ensures { result ≡ a * b }
{
    u64::from(a) * u64::from(b)
}

// x modulo P, for any x: two folds leave less than 2 P.
pub fn residue(x: u64) -> u32
    ensures { result ≡ x % prime }
{
    reduce(fold(fold(x)))
}

pub fn add(a: u32, b: u32) -> u32
    requires { (a < prime) × (b < prime) }
    ensures { result ≡ residues.◌⊕◌ a b }
{
    reduce(u64::from(a) + u64::from(b))
}

pub fn sub(a: u32, b: u32) -> u32
    requires { (a < prime) × (b < prime) }
    ensures { result ≡ minus residues a b }
{
    reduce(u64::from(a) + u64::from(P - b))
}

pub fn neg(a: u32) -> u32
    requires { a < prime }
    ensures { result ≡ residues.neg a }
{
    reduce(u64::from(P - a))
}

pub fn mul(a: u32, b: u32) -> u32
    requires { (a < prime) × (b < prime) }
    ensures { result ≡ residues.◌⊗◌ a b }
{
    reduce(fold(product(a, b)))
}

// a * b + c
pub fn mul_add(a: u32, b: u32, c: u32) -> u32
    requires { (a < prime) × (b < prime) × (c < prime) }
    ensures { result ≡ residues.◌⊕◌ (residues.◌⊗◌ a b) c }
{
    reduce(fold(product(a, b) + u64::from(c)))
}

// a * b + c * d
pub fn mul_mul(a: u32, b: u32, c: u32, d: u32) -> u32
    requires { (a < prime) × (b < prime) × (c < prime) × (d < prime) }
    ensures { result ≡ residues.◌⊕◌ (residues.◌⊗◌ a b) (residues.◌⊗◌ c d) }
{
    residue(product(a, b) + product(c, d))
}
