//! What is said of opening systems: there is one, it is valid and gives the invariant fields; its making is not both within its limits and
//! past one, and past none it is within them.

ghost use Rattle.lie_determining.specs.Laws.{OpeningIsUnique, OpeningIsValid, OpeningGivesInvariant};
ghost use Rattle.lie_determining.specs.Laws.{OpeningIsNotWithinAndPast, OpeningPastNoneIsWithin};

/// Equations have one opening system at most.
pub fn opening_is_unique()
    ensures { OpeningIsUnique }
{}

/// An opening system is valid.
pub fn opening_is_valid()
    ensures { OpeningIsValid }
{}

/// An opening system gives the fields that meet the condition of invariance.
pub fn opening_gives_invariant()
    ensures { OpeningGivesInvariant }
{}

/// An opening within its limits is past none.
pub fn opening_is_not_within_and_past()
    ensures { OpeningIsNotWithinAndPast }
{}

/// An opening that is past no limit is within its limits.
pub fn opening_past_none_is_within()
    ensures { OpeningPastNoneIsWithin }
{}
