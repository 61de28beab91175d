//! The limits of works: each action is within them or past one, and so is a work of several.

ghost use Rattle.std.specs.Prelude.{◌⊎◌, List};
ghost use Rattle.std.specs.List.{Contains};
ghost use Rattle.lie_systems.specs.Works.{Limit, Made, IsMadeWithin, IsMadePast, IsWorkWithin, IsWorkPast};

/// What an action makes is not both within the limits and past one of them.
pub fn made_is_not_both()
    ensures { (limit : Limit) (b : Made) → IsMadeWithin b → ¬ (IsMadePast limit b) }
{}

/// What an action makes is within the limits, or past one of them.
pub fn made_is_within_or_past()
    ensures { (b : Made) → IsMadeWithin b ⊎ ((limit : Limit) × IsMadePast limit b) }
{}

/// A work of listed actions is within the limits, or past one of them.
pub fn work_is_within_or_past()
    ensures { (bs : List Made) → IsWorkWithin (Contains bs) ⊎ ((limit : Limit) × IsWorkPast (Contains bs) limit) }
{}
