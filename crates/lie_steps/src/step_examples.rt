//! Worked steps, one for each rule, each of a system before and after.

ghost use Rattle.lie_steps.specs.WorkedSteps.{SplitStep, IsolateStep, ReduceStep, ForeignStep, CrossStep};
ghost use Rattle.lie_steps.specs.WorkedSteps.{ZeroStep, SubstituteStep, LowestStep, AbsentStep, IntegrateStep};

/// Of `6*f2 - 3*x*u*f1 - u*f1 = 0` with constants become `f1 = 0` and `6*f2 - u*f1 = 0`.
pub fn split_step()
    ensures { SplitStep }
{}

/// Of `f2_xx - 2*f3_u = 0`, `f2` of x and `f3` of u, comes `f2_xxx = 0`.
pub fn isolate_step()
    ensures { IsolateStep }
{}

/// `f1_x = 0` reduced by `f1_x + f1 = 0` becomes `f1 = 0`.
pub fn reduce_step()
    ensures { ReduceStep }
{}

/// Of `2*f3_uu + x*u*f3 = 0`, `f3` of u, comes `f3 = 0`.
pub fn foreign_step()
    ensures { ForeignStep }
{}

/// Of `f1_x = 0` and `f1_x + f1 = 0` comes `f1 = 0`.
pub fn cross_step()
    ensures { CrossStep }
{}

/// With `f1 = 0` the general form `-6*f2_x - 2*x*f1` becomes `-6*f2_x`.
pub fn zero_step()
    ensures { ZeroStep }
{}

/// With `f1 = 0` solved for `f1`, it becomes `-f2_x`.
pub fn substitute_step()
    ensures { SubstituteStep }
{}

/// `3*f1_xu - f1 = 0` becomes `f1 = 0`.
pub fn lowest_step()
    ensures { LowestStep }
{}

/// With `f2_uu = 0` the general form `f1 - x*f2` becomes `f1 - x*f3 - x*u*f4` with constants `f3` and `f4`.
pub fn absent_step()
    ensures { AbsentStep }
{}

/// With `3*f3_u - f2 = 0`, `f2` a constant, `2*x*f1_uu + x*u*f3_u - 6*f2 = 0` becomes `6*x*f1_uu + x*u*f2 - 18*f2 = 0`.
pub fn integrate_step()
    ensures { IntegrateStep }
{}
