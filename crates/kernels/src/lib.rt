// The loops of `dot` and `loops` as functions that C and Rust can call, for measuring them: `kernels_c` exports them. Each takes any
// arguments; where they do not fit it changes nothing.
#![tactic(auto)]

ghost use Rattle.std.specs.Prelude.{length, get_or};
ghost use Rattle.algebra.specs.Sums.{inner, power};
ghost use Rattle.algebra.specs.Interpolation.{ascending};
ghost use Rattle.algebra.specs.Lists.{tabulate};
ghost use Rattle.field.specs.Residues.{residues};
ghost use Rattle.kernels.specs.Outcomes.{Outcome, answer_of, inner_fits, point_fits, powers_fit};

// The arguments do not fit.
#[derive(Clone, Copy, Debug, PartialEq, Eq)]
pub struct Unfit;

pub fn kernel_inner(a: &[u32], b: &[u32], out: &mut u32) -> Result<(), Unfit>
    ensures { Outcome (inner_fits a.now b.now)
        (inner residues (length a.now) (λ i. get_or a.now i 0) (λ i. get_or b.now i 0))
        out.old (answer_of result) out.new }
{
    if a.len() != b.len() || a.len() > dot::LONGEST {
        return Err(Unfit);
    }
    *out = dot::inner(a, b);
    Ok(())
}

pub fn kernel_ascending(x: u32, out: &mut [u32]) -> Result<(), Unfit>
    ensures { Outcome (point_fits x out.old)
        (tabulate (λ j. ascending residues 0 j x) (length out.old))
        out.old (answer_of result) out.new }
{
    if x >= field::P || out.len() > field::P as usize {
        return Err(Unfit);
    }
    loops::ascending(x, out);
    Ok(())
}

pub fn kernel_powers(s: u32, out: &mut [u32]) -> Result<(), Unfit>
    ensures { Outcome (powers_fit s) (tabulate (power residues s) (length out.old))
        out.old (answer_of result) out.new }
{
    if s >= field::P {
        return Err(Unfit);
    }
    loops::powers(s, out);
    Ok(())
}
