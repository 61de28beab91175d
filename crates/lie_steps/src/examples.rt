//! Worked values, each a law.

ghost use Rattle.lie_steps.specs.WorkedValues.{LowPowersOfCounts, DerivativeOfOwn, IntegralOfForm, CombinedForms, BulkOfCombination};
ghost use Rattle.lie_steps.specs.WorkedValues.{RunOfConstants};

/// Where `f_xxy = 0`, f is a sum of functions without x times 1 and x, and one without y.
pub fn low_powers_of_counts()
    ensures { LowPowersOfCounts }
{}

/// An unknown is not derived by a variable on which it does not depend.
pub fn derivative_of_own()
    ensures { DerivativeOfOwn }
{}

/// `2*f1_xx + 6*x*f2 = 0` gives `2*f1` as `-x^3*f2` and low powers.
pub fn integral_of_form()
    ensures { IntegralOfForm }
{}

/// `2*x*f1_x + f2` and `4*f1_x - y*f2`, combined at `f1_x`, are `x*y*f2 + 2*f2`.
pub fn combined_forms()
    ensures { CombinedForms }
{}

/// The bulk of that combination is `8*x*f1_x + x*y*f2 + 2*f2`.
pub fn bulk_of_combination()
    ensures { BulkOfCombination }
{}

/// From `f1_x = 0` for the fields `f1*d_x` one step leads to the fields `f2*d_x` with a constant `f2`, and there the run ends.
pub fn run_of_constants()
    ensures { RunOfConstants }
{}
