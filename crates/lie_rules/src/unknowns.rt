// The unknowns of a system by their numbers.
ghost use Rattle.std.specs.Prelude.{◌≡◌, map, MatchOption};
ghost use Rattle.std.specs.List.{AllByRecursion as Every, Contains};
ghost use Rattle.lie_lin.specs.Systems.{unknown_of};

use lie_lin::Unknown;

/// The unknown with a number.
pub fn unknown_with(unknowns: &[Unknown], number: u32) -> Option<Unknown>
    ensures { MatchOption result (Every (λ u. ¬ (u.number ≡ number)) unknowns.now)
        (λ u. Contains (map unknown_of unknowns.now) (unknown_of u) × (u.number ≡ number)) }
{
    for unknown in unknowns {
        if unknown.number == number {
            return Some(*unknown);
        }
    }
    None
}
