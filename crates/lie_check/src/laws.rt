//! What is said of the actions of a check: they are within the limits, or one is past a limit, and not both.

ghost use Rattle.lie_check.specs.Laws.{ActionsAreNotWithinAndPast, ActionsAreWithinOrPast};

/// The actions of a check are within the limits, or one is past a limit.
pub fn actions_are_within_or_past()
    ensures { ActionsAreWithinOrPast }
{}

/// Where the actions of a check are within the limits, none is past one.
pub fn actions_are_not_within_and_past()
    ensures { ActionsAreNotWithinAndPast }
{}
