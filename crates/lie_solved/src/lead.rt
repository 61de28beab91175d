// The lead of an equation.
ghost use Rattle.std.specs.Prelude.{◌≡◌, ◌<◌, ◌++◌, ◌∷◌, [], ℕ, List, MatchOption, if◌then◌else◌};
ghost use Rattle.std.specs.List.{AllByRecursion as Every};
ghost use Rattle.std.specs.Ordering.{is_gt};
ghost use Rattle.lie_geometry.specs.Coordinates.{number, coordinates_up_to};
ghost use Rattle.lie_ring.specs.Rankings.{degree_rank};
ghost use Rattle.lie_jet.specs.Jets.{coordinate_of, IsJet};
ghost use Rattle.lie_jet.specs.Limits.{greatest_written_order, greatest_jet_order};
ghost use Rattle.lie_system.specs.Equations.{equation_read};
ghost use Rattle.lie_solved.specs.Leads.{ranked, HasNoDerivative};
ghost use Rattle.lie_system.specs.Written.{IsLow, IsWritten};
ghost use Rattle.lie_solved.specs.Equations.{IsBest, HasLead, variables_in, variables_of};

use lie_jet::{Jet, Space, jet_of, space_is_small};
use lie_ring::{DegreeRank, Mono, Ranking, Whole};
use lie_system::Equation;
use std::cmp::Ordering;

/// The order of two jets.
fn compare_jets(space: Space, left: &Jet, right: &Jet) -> Ordering
    ensures { result ≡ degree_rank (ranked (coordinate_of space left.now)) (ranked (coordinate_of space right.now)) }
{
    let p = usize::from(space.p);
    DegreeRank.compare(&left.counts[..p], left.dep, &right.counts[..p], right.dep)
}

/// The greater one of two jets.
fn greater(space: Space, jet: Jet, other: Jet) -> Jet
    ensures { result ≡ (if is_gt (degree_rank (ranked (coordinate_of space jet))
        (ranked (coordinate_of space other))) then jet else other) }
{
    if compare_jets(space, &jet, &other).is_gt() {
        jet
    } else {
        other
    }
}

/// The greater one of a derivative and the coordinate with a number, where that is a derivative of order 1 or more.
fn greater_of(space: Space, best: Option<Jet>, number: u32) -> Option<Jet>
    requires { number < coordinates_up_to space greatest_jet_order }
    ensures { (ws : List ℕ) → IsBest space ws best → IsBest space (ws ++ number ∷ []) result }
{
    if number < u32::from(space.p) + u32::from(space.q) {
        return best;
    }
    match jet_of(space, number) {
        None => best,
        Some(jet) => match best {
            None => Some(jet),
            Some(other) => Some(greater(space, jet, other)),
        },
    }
}

/// The greatest one of a derivative and those of order 1 or more in a product of powers.
fn greatest_in(space: Space, best: Option<Jet>, pairs: &[(u32, u32)]) -> Option<Jet>
    requires { Every (λ w. w < coordinates_up_to space greatest_jet_order) (variables_in pairs.now) }
    ensures { (ws : List ℕ) → IsBest space ws best → IsBest space (ws ++ variables_in pairs.now) result }
{
    let mut best = best;
    for pair in pairs {
        best = greater_of(space, best, pair.0);
    }
    best
}

/// The greatest derivative of order 1 or more in terms.
fn greatest_of(space: Space, terms: &[(Mono, Whole)]) -> Option<Jet>
    requires { Every (λ w. w < coordinates_up_to space greatest_jet_order) (variables_of terms.now) }
    ensures { IsBest space (variables_of terms.now) result }
{
    let mut best = None;
    for term in terms {
        best = greatest_in(space, best, term.0.pairs());
    }
    best
}

/// A jet without counts past the last variable.
fn within(space: Space, jet: &Jet) -> Jet
    requires { IsLow space (coordinate_of space jet.now) }
    ensures same { coordinate_of space result ≡ coordinate_of space jet.now }
    ensures jet { IsJet space greatest_written_order result }
{
    let p = usize::from(space.p);
    let mut counts = [0; 4];
    counts[..p].copy_from_slice(&jet.counts[..p]);
    Jet {
        dep: jet.dep,
        counts,
    }
}

/// The lead of an equation with these terms; None exactly where it has no derivative of order 1 or more.
pub fn lead_of(space: Space, equation: &Equation, terms: &[(Mono, Whole)]) -> Option<Jet>
    requires written { IsWritten space (equation_read space equation.now) }
    requires terms { equation.now.diff.list ≡ terms.now }
    ensures { MatchOption result (HasNoDerivative space equation.now.diff) (HasLead space (equation_read space equation.now)) }
{
    space_is_small(space);
    match greatest_of(space, terms) {
        None => None,
        Some(greatest) => match &equation.lead {
            Some(jet) => Some(within(space, jet)),
            None => Some(greatest),
        },
    }
}
