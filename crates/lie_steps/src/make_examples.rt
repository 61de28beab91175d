//! Worked values of what steps, tests, the search and runs make, each a law.

ghost use Rattle.lie_steps.specs.WorkedMakes.{ZeroMakesThese, SubstituteMakesThese, IntegrateMakesThese, TwoTurnsMakeThese};
ghost use Rattle.lie_steps.specs.WorkedMakes.{ReduceMakesThese, ForeignTriesThese, CrossTriesThese};
ghost use Rattle.lie_steps.specs.WorkedMakes.{IsolateTriesThese, SearchMakesThis, SecondStepMakesThese};

/// With `f1 = 0` the general forms become 0, `6*f2_x` and 0, with one triple, and no number is made.
pub fn zero_makes_these()
    ensures { ZeroMakesThese }
{}

/// With `2*f2 - f1 = 0` the solution `f1` over 2 is made, and `4*f1` of the general form `4*f2`.
pub fn substitute_makes_these()
    ensures { SubstituteMakesThese }
{}

/// With `3*f3_y - f2 = 0` the number 5 is taken, and `f5 + y*f2` over 3 is made before it is put in.
pub fn integrate_makes_these()
    ensures { IntegrateMakesThese }
{}

/// `f1_xx + f2` is reduced by `f1_x - f1 = 0` in two turns.
pub fn two_turns_make_these()
    ensures { TwoTurnsMakeThese }
{}

/// The step of reduce makes what these turns make.
pub fn reduce_makes_these()
    ensures { ReduceMakesThese }
{}

/// `x*f1_yy + f1 = 0`, `f1` of y, is derived by x, and the derivative is reduced by the equation itself.
pub fn foreign_tries_these()
    ensures { ForeignTriesThese }
{}

/// `f1_x = 0` is derived and combined with `f1_xx + f1_x = 0`, and what is left is reduced.
pub fn cross_tries_these()
    ensures { CrossTriesThese }
{}

/// `y*f1_x - f1 - x*f2 = 0` is derived by x twice, and the last derivative has the parts `f1_xxx` and `f1_xx` by y.
pub fn isolate_tries_these()
    ensures { IsolateTriesThese }
{}

/// To `x*f1_x + f1 = 0` no rule before foreign applies, and foreign derives it by y.
pub fn search_makes_this()
    ensures { SearchMakesThis }
{}

/// From `f1 = 0` and `f2 = 0` the first step makes `f2 + f3`, and the second `f3` and one triple.
pub fn second_step_makes_these()
    ensures { SecondStepMakesThese }
{}
