// Runs of elements as bytes: each element is four bytes, lowest byte first. The definitions that the contracts cite, over
// any width, are in the crate words. `at`, `read` and `write` ask that what they read or write lies within the slice.
#![tactic(auto)]

ghost use Rattle.std.specs.Prelude.{◌≡◌, ◌+◌, ◌*◌, ◌≤◌, length, get_or};
ghost use Rattle.words.specs.Bytes.{bytes_of_all, splice, elements_of, all_below};

// Element `i` of a run.
pub fn at(s: &[u8], i: usize) -> u32
    requires { 4 * i + 4 ≤ length s.now }
    ensures { result ≡ get_or (elements_of 4 s.now) i 0 }
{
    words::read_u32(s, 4 * i)
}

// Reads a run of elements, which fill `out`.
pub fn read(s: &[u8], out: &mut [u32])
    requires { length s.now ≡ 4 * length out.old }
    ensures { out.new ≡ elements_of 4 s.now }
{
    for (k, x) in out.iter_mut().enumerate() {
        *x = words::read_u32(s, 4 * k);
    }
}

// Writes the elements `xs` from `at`.
pub fn write(s: &mut [u8], at: usize, xs: &[u32])
    requires { at + 4 * length xs.now ≤ length s.old }
    ensures { s.new ≡ splice s.old at (bytes_of_all 4 xs.now) }
{
    for (i, x) in xs.iter().enumerate() {
        words::write_u32(s, at + 4 * i, *x);
    }
}

// Whether each element of a run is below `bound`. The loop looks at all of them: so it takes several in a turn. An `if`
// takes fewer instructions there than `below &= ..`.
pub fn below(s: &[u8], bound: u32) -> bool
    ensures { result ≡ all_below bound (elements_of 4 s.now) }
{
    let mut below = true;
    for k in 0..s.len() / 4 {
        if bound <= words::read_u32(s, 4 * k) {
            below = false;
        }
    }
    below
}

// Whether each of a run of numbers is below `bound`. The loop looks at all of them: so it takes several in a turn. An
// `if` takes fewer instructions there than `below &= ..`.
pub fn all_below(xs: &[u32], bound: u32) -> bool
    ensures { result ≡ all_below bound xs.now }
{
    let mut below = true;
    for x in xs {
        if bound <= *x {
            below = false;
        }
    }
    below
}
