// Inner products of slices of elements modulo the prime. Each contract is an equality with a definition of algebra at
// that prime. No step depends on the value of an element, and none divides: / and % by TOP are a shift and a mask.
#![tactic(auto)]

ghost use Rattle.std.specs.Prelude.{◌≡◌, ◌-◌, ◌*◌, ◌%◌, ◌<◌, ◌≤◌, length, get_or};
ghost use Rattle.algebra.specs.Sums.{inner as Sums·inner};
ghost use Rattle.field.specs.Residues.{prime, top, residues, Elements};
ghost use Rattle.dot.specs.Lengths.{longest};

// The most members that `inner` and `inner_wide` take.
pub const LONGEST: usize = 65536;

// P + 1, which leaves 1 modulo P.
const TOP: u64 = 2147483648;

// The inner product of a and b, whose members may be any numbers. Low and high parts of the products are summed apart,
// so that no sum overflows and the loop has no reduction.
pub fn inner(a: &[u32], b: &[u32]) -> u32
    requires { (length a.now ≡ length b.now) × (length a.now ≤ longest) }
    ensures { result ≡ Sums·inner residues (length a.now)
        (λ i. get_or a.now i 0) (λ i. get_or b.now i 0) }
{
    let mut low: u64 = 0;
    let mut high: u64 = 0;
    for (x, y) in a.iter().zip(b) {
        let z = field::product(*x, *y);
        low += z % TOP;
        high += z / TOP;
    }
    field::residue(low + high)
}

// x itself, for an element x. It tells the compiler that x fits into 32 bits.
fn low_half(x: u64) -> u64
    requires { x < prime }
    ensures { result ≡ x }
{
    x % 4294967296
}

// a[i] b[i]
fn product_at(a: &[u64], b: &[u64], i: usize) -> u64
    requires { (i < length a.now) × (i < length b.now) × Elements a.now × Elements b.now }
    ensures { (result ≡ get_or a.now i 0 * get_or b.now i 0) × (result ≤ (prime - 1) * (prime - 1)) }
{
    low_half(a[i]) * low_half(b[i])
}

// The inner product of elements that are kept in 64 bits: faster than `inner`, as the first loop works on several members at
// once. It takes one product from each quarter and sums them before the sum is split: four of them fit into 64 bits.
pub fn inner_wide(a: &[u64], b: &[u64]) -> u32
    requires { (length a.now ≡ length b.now) × (length a.now ≤ longest)
        × Elements a.now × Elements b.now }
    ensures { result ≡ Sums·inner residues (length a.now)
        (λ i. get_or a.now i 0) (λ i. get_or b.now i 0) }
{
    let q = a.len() / 4;
    let mut low: u64 = 0;
    let mut high: u64 = 0;
    'quarters: for i in 0..q {
        let x = product_at(a, b, i)
            + product_at(a, b, q + i)
            + product_at(a, b, 2 * q + i)
            + product_at(a, b, 3 * q + i);
        low += x % TOP;
        high += x / TOP;
    }
    'rest: for i in 4 * q..a.len() {
        let x = product_at(a, b, i);
        low += x % TOP;
        high += x / TOP;
    }
    field::residue(low + high)
}
