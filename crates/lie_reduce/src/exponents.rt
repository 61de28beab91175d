// The greatest exponents of variables in polynomials.
ghost use Rattle.std.specs.Prelude.{◌≡◌, IfOk};
ghost use Rattle.lie_math.specs.Natural.{maxima};
ghost use Rattle.lie_math.specs.Monomial.{exponent};
ghost use Rattle.lie_math.specs.SortedSum.{sum_of_entries};
ghost use Rattle.lie_solved.specs.Equations.{HaveJets};
ghost use Rattle.lie_reduce.specs.Reductions.{greatest_exponent};
ghost use Rattle.lie_reduce.specs.ReducedTerms.{exponents_at};

use lie_bytes::NoMemory;
use lie_jet::{JetPoly, Space, jet_number};
use lie_ring::{Mono, PolyFail, Polynomial, Whole};
use lie_solved::LeadRule;
use std::alloc::Global;

/// The greatest exponent of a variable in a term.
fn greatest_in(terms: &[(Mono, Whole)], number: u32) -> u32
    ensures { result ≡ sum_of_entries maxima (λ m a. exponent m number) terms.now }
{
    let mut greatest: u32 = 0;
    for term in terms {
        greatest = greatest.max(term.0.exponent(number));
    }
    greatest
}

/// The greatest exponent of a variable in any of the polynomials.
fn greatest_exponent(alloc: Global, polynomials: &[JetPoly], number: u32) -> Result<u32, NoMemory>
    ensures { IfOk result (λ greatest. greatest ≡ greatest_exponent polynomials.now number) }
{
    let mut greatest: u32 = 0;
    for p in polynomials {
        let terms = p.terms(alloc)?;
        greatest = greatest.max(greatest_in(terms.as_slice(), number));
    }
    Ok(greatest)
}

/// For each rule the greatest exponent of its lead in any of the polynomials.
pub fn greatest_exponents(
    alloc: Global,
    space: Space,
    rules: &[LeadRule],
    polynomials: &[JetPoly],
) -> Result<Vec<u32>, NoMemory>
    requires { HaveJets space rules.now }
    ensures { IfOk result (λ made. made.items ≡ exponents_at space rules.now (greatest_exponent polynomials.now)) }
{
    let mut made = Vec::new(alloc);
    for rule in rules {
        let greatest = greatest_exponent(alloc, polynomials, jet_number(space, &rule.lead))?;
        made.push(greatest)?;
    }
    Ok(made)
}
