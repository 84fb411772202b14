// The loops of `kernels` as functions that C and Rust can call, for measuring them: the static library of the benchmarks. Each calls the
// function of its name, with its clauses, and answers 0 where the arguments fit, else 1.
#![tactic(auto)]

ghost use Rattle.std.specs.Prelude.{length, get_or};
ghost use Rattle.algebra.specs.Sums.{inner, power};
ghost use Rattle.algebra.specs.Interpolation.{ascending};
ghost use Rattle.algebra.specs.Lists.{tabulate};
ghost use Rattle.field.specs.Residues.{residues};
ghost use Rattle.kernels.specs.Outcomes.{Outcome, inner_fits, point_fits, powers_fit};

#[unsafe(no_mangle)]
pub extern "C" fn kernel_inner(a: &[u32], b: &[u32], out: &mut u32) -> u32
    ensures { Outcome (inner_fits a.now b.now)
        (inner residues (length a.now) (λ i. get_or a.now i 0) (λ i. get_or b.now i 0))
        out.old result out.new }
{
    u32::from(kernels::kernel_inner(a, b, out).is_err())
}

#[unsafe(no_mangle)]
pub extern "C" fn kernel_ascending(x: u32, out: &mut [u32]) -> u32
    ensures { Outcome (point_fits x out.old)
        (tabulate (λ j. ascending residues 0 j x) (length out.old))
        out.old result out.new }
{
    u32::from(kernels::kernel_ascending(x, out).is_err())
}

#[unsafe(no_mangle)]
pub extern "C" fn kernel_powers(s: u32, out: &mut [u32]) -> u32
    ensures { Outcome (powers_fit s) (tabulate (power residues s) (length out.old))
        out.old result out.new }
{
    u32::from(kernels::kernel_powers(s, out).is_err())
}
