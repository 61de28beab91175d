// The rule of an equation.
ghost use Rattle.std.specs.Prelude.{◌≡◌, IfOk, IfErr};
ghost use Rattle.lie_system.specs.Equations.{equation_read};
ghost use Rattle.lie_solved.specs.declared.rule.RuleFail.TheVariants as fails;
ghost use Rattle.lie_system.specs.Written.{IsWritten};
ghost use Rattle.lie_solved.specs.Equations.{IsRule, is_plain};
ghost use Rattle.lie_solved.specs.Causes.{IsRuleCause};

use crate::lead::lead_of;
use crate::linear::{only_coefficient, rest_of};
use crate::solved::{LeadRule, NotKind};
use lie_bytes::NoMemory;
use lie_jet::{Space, absolute_value, jet_number};
use lie_ring::{Polynomial, Whole};
use lie_system::Equation;
use std::alloc::Global;

/// Why there is no rule of an equation.
#[derive(Clone, Copy, PartialEq, Eq, Debug)]
pub enum RuleFail {
    /// It cannot be solved by itself.
    Not(NotKind),
    /// There was no memory.
    NoMemory,
}

impl From<NoMemory> for RuleFail {
    ghost from_gives = { λ _ fail. fail ≡ fails.NoMemory };

    fn from(_fail: NoMemory) -> RuleFail {
        RuleFail::NoMemory
    }
}

/// Whether a number is not negative.
fn is_plain(number: Whole) -> bool
    ensures { result ≡ is_plain number }
{
    number.get() >= 0
}

/// The equation solved for its lead.
pub fn rule_of(alloc: Global, space: Space, equation: &Equation) -> Result<LeadRule, RuleFail>
    requires { IsWritten space (equation_read space equation.now) }
    ensures rule { IfOk result (IsRule space (equation_read space equation.now)) }
    ensures not { IfErr result (IsRuleCause space (equation_read space equation.now)) }
{
    let terms = equation.diff.terms(alloc)?;
    let lead = match lead_of(space, equation, terms.as_slice()) {
        Some(lead) => lead,
        None => return Err(RuleFail::Not(NotKind::NoDerivative)),
    };
    let number = jet_number(space, &lead);
    let c = match only_coefficient(terms.as_slice(), number) {
        Some(c) => c,
        None => return Err(RuleFail::Not(NotKind::LeadNotLinear)),
    };
    let right = rest_of(alloc, &equation.diff, terms.as_slice(), number, is_plain(c))?;
    Ok(LeadRule {
        lead,
        c: absolute_value(c),
        right,
    })
}
