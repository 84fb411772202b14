// Words of four bytes that stand in a run at equal steps, as the elements of joined messages do: their sum.
#![tactic(auto)]

ghost use Rattle.std.specs.Prelude.{◌≡◌};
ghost use Rattle.steps.specs.Words.{Words, sum_of};

// The sum of n words, of which word i stands at step * i + at.
pub fn sum_words(s: &[u8], step: usize, at: usize, n: usize) -> u32
    requires { Words s.now step at n }
    ensures { result ≡ sum_of s.now step at n }
{
    let mut sum = 0;
    for i in 0..n {
        sum = field::add(sum, words::read_u32(s, step * i + at));
    }
    sum
}
