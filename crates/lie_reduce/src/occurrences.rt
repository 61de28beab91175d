// The coordinates that occur in the equations of rules.
ghost use Rattle.std.specs.Prelude.{◌≡◌, ◌++◌, ◌∷◌, IfOk, OnOk};
ghost use Rattle.lie_jet.specs.Limits.{greatest_written_order};
ghost use Rattle.lie_jet.specs.Jets.{IsJet};
ghost use Rattle.lie_solved.specs.Equations.{HaveJets, variables_in, variables_of};
ghost use Rattle.lie_reduce.specs.Occurrences.{AreAmong, numbers_of_rule};

use lie_bytes::NoMemory;
use lie_jet::{Space, jet_number};
use lie_ring::{Mono, Polynomial, Whole};
use lie_solved::LeadRule;
use std::alloc::Global;

/// Puts the numbers of the variables in a product of powers behind others.
fn push_factors(numbers: &mut Vec<u32>, pairs: &[(u32, u32)]) -> Result<(), NoMemory>
    ensures { OnOk result (numbers.new.items ≡ numbers.old.items ++ variables_in pairs.now) }
{
    for pair in pairs {
        numbers.push(pair.0)?;
    }
    Ok(())
}

/// Puts the numbers of the variables in terms behind others, one for each factor.
fn push_variables(numbers: &mut Vec<u32>, terms: &[(Mono, Whole)]) -> Result<(), NoMemory>
    ensures { OnOk result (numbers.new.items ≡ numbers.old.items ++ variables_of terms.now) }
{
    for term in terms {
        push_factors(numbers, term.0.pairs())?;
    }
    Ok(())
}

/// Puts the numbers of the coordinates in the equation of a rule behind others.
fn push_coordinates(
    numbers: &mut Vec<u32>,
    alloc: Global,
    space: Space,
    rule: &LeadRule,
) -> Result<(), NoMemory>
    requires { IsJet space greatest_written_order rule.now.lead }
    ensures { OnOk result (numbers.new.items ≡ numbers.old.items ++ numbers_of_rule space rule.now) }
{
    let terms = rule.right.terms(alloc)?;
    numbers.push(jet_number(space, &rule.lead))?;
    push_variables(numbers, terms.as_slice())
}

/// Numbers among which is that of each coordinate that occurs in an equation of the rules.
pub fn occurring_numbers(
    alloc: Global,
    space: Space,
    rules: &[LeadRule],
) -> Result<Vec<u32>, NoMemory>
    requires { HaveJets space rules.now }
    ensures { IfOk result (λ numbers. AreAmong space rules.now numbers.items) }
{
    let mut numbers = Vec::new(alloc);
    for rule in rules {
        push_coordinates(&mut numbers, alloc, space, rule)?;
    }
    Ok(numbers)
}
