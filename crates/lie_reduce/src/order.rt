// The greatest order of a derivative in a solved system.
ghost use Rattle.std.specs.Prelude.{◌≡◌, ◌≤◌, ◌<◌, suc, max, IfOk};
ghost use Rattle.lie_math.specs.Natural.{maxima};
ghost use Rattle.lie_math.specs.SortedSum.{sum_of_entries};
ghost use Rattle.lie_geometry.specs.Coordinates.{coordinate, coordinates_up_to, order_of as order_of_coordinate};
ghost use Rattle.lie_geometry.specs.Invariance.{greatest_order};
ghost use Rattle.lie_jet.specs.Limits.{greatest_written_order};
ghost use Rattle.lie_solved.specs.SolvedForms.{solved_equations};
ghost use Rattle.lie_solved.specs.SolvedRules.{AreSolvedRules};

use lie_bytes::NoMemory;
use lie_jet::{Space, jet_number, jet_of, order_of};
use lie_ring::{Mono, Polynomial, Whole};
use lie_solved::LeadRule;
use std::alloc::Global;

/// The greatest number of a variable in a product of powers or this one.
fn greatest_variable_in(pairs: &[(u32, u32)], number: u32) -> u32
    ensures { suc result ≡ max (suc number) (sum_of_entries maxima (λ w e. suc w) pairs.now) }
{
    let mut greatest = number;
    for pair in pairs {
        greatest = greatest.max(pair.0);
    }
    greatest
}

/// The greatest number of a variable in terms or this one.
fn greatest_variable(terms: &[(Mono, Whole)], number: u32) -> u32
    ensures { suc result ≡ max (suc number) (sum_of_entries maxima (λ m a. sum_of_entries maxima (λ w e. suc w) m.list) terms.now) }
{
    let mut greatest = number;
    for term in terms {
        greatest = greatest_variable_in(term.0.pairs(), greatest);
    }
    greatest
}

/// The order of the coordinate with a number.
fn order_at(space: Space, number: u32) -> u8
    requires { number < coordinates_up_to space greatest_written_order }
    ensures order { result ≡ order_of_coordinate (coordinate space number) }
    ensures low { result ≤ greatest_written_order }
{
    match jet_of(space, number) {
        Some(jet) => order_of(space, &jet) as u8,
        None => 0,
    }
}

/// The greatest order of a derivative in the equations of the rules.
pub fn greatest_order(alloc: Global, space: Space, rules: &[LeadRule]) -> Result<u8, NoMemory>
    requires { AreSolvedRules space rules.now }
    ensures order { IfOk result (λ n. n ≡ greatest_order space (solved_equations space rules.now)) }
    ensures low { IfOk result (λ n. n ≤ greatest_written_order) }
{
    let mut greatest: u8 = 0;
    for rule in rules {
        let terms = rule.right.terms(alloc)?;
        let number = greatest_variable(terms.as_slice(), jet_number(space, &rule.lead));
        greatest = greatest.max(order_at(space, number));
    }
    Ok(greatest)
}
