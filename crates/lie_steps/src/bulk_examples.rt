//! Worked values of what the actions of the rules make, each a law.

ghost use Rattle.lie_steps.specs.WorkedBulks.{BulksOfDerivatives, BulksOfReplacement, GeneralWithoutUnknown, BulksOfParts};
ghost use Rattle.lie_steps.specs.WorkedBulks.{SplitMakesParts, BulksOfIntegral, BulksOfIsolation, BulksOfCross, BulksOfReduction};
ghost use Rattle.lie_steps.specs.WorkedBulks.{CrossTriesCombination, ForeignTriesDerivative, StepOfConstants, MakesWhereItApplies};

/// `x*f1 - x*f2` is derived by x and then by y, each derivative from the one before it.
pub fn bulks_of_derivatives()
    ensures { BulksOfDerivatives }
{}

/// `f1` is replaced by `-x*f2` over 2 in `f1_x - f2 = 0`, and in the general forms `f1` and `3*f2` at once.
pub fn bulks_of_replacement()
    ensures { BulksOfReplacement }
{}

/// General forms without the unknown stay, are not divided, and make nothing.
pub fn general_without_unknown()
    ensures { GeneralWithoutUnknown }
{}

/// `y*f1 - f1_x` has the parts `f1` and `f1_x` by y.
pub fn bulks_of_parts()
    ensures { BulksOfParts }
{}

/// `y*z*f1 + f1_x = 0` is split into `z*f1` and `f1_x`.
pub fn split_makes_parts()
    ensures { SplitMakesParts }
{}

/// With `2*f1_x + f2 = 0` the number 3 is taken, and `f3 + x*f2` with the number 2 is made before it is put in.
pub fn bulks_of_integral()
    ensures { BulksOfIntegral }
{}

/// `f1_x - x*f2 = 0` is derived to `f1_xx + f2` and to `f1_xxx`.
pub fn bulks_of_isolation()
    ensures { BulksOfIsolation }
{}

/// `f1_x + f2 = 0` and `f1_y = 0` are derived by y and by x, and combined.
pub fn bulks_of_cross()
    ensures { BulksOfCross }
{}

/// That combination is made by the test of the pair.
pub fn cross_tries_combination()
    ensures { CrossTriesCombination }
{}

/// The derivative of `f1_x + f2` by y is made by the test of the equation.
pub fn foreign_tries_derivative()
    ensures { ForeignTriesDerivative }
{}

/// To reduce `f1_xx + f2` by `f1_x = 0`, this is derived by x and combined.
pub fn bulks_of_reduction()
    ensures { BulksOfReduction }
{}

/// The step from `f1_x = 0` searches without an action, takes the number 2, puts in `f2`, and leaves one triple.
pub fn step_of_constants()
    ensures { StepOfConstants }
{}

/// A step makes something only where its rule applies.
pub fn makes_where_it_applies()
    ensures { MakesWhereItApplies }
{}
