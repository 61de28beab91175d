// Terms of sums, as they are printed.
ghost use Rattle.std.specs.Prelude.{◌≡◌, IfOk, map};
ghost use Rattle.lie_print.specs.PrintedTerms.{printed, polynomial_terms};

use lie_bytes::NoMemory;
use lie_jet::JetPoly;
use lie_ring::{Mono, Polynomial, Whole};
use std::alloc::Global;

/// What stands behind the powers of a term.
#[derive(Clone, Copy, PartialEq, Eq, Debug)]
pub enum LastFactor {
    /// A derivative of the unknown with this number, as often by each variable as these counts say.
    Derivative(usize, [u8; 8]),
    /// The base vector at the variable with this number.
    BaseVector(usize),
}

/// A number times a monomial, and times a last factor where there is one.
#[derive(Drop)]
pub struct Term {
    pub number: Whole,
    pub monomial: Mono,
    pub last: Option<LastFactor>,
}

/// The terms of a polynomial, in print order.
pub fn polynomial_terms(alloc: Global, polynomial: &JetPoly) -> Result<Vec<Term>, NoMemory>
    ensures { IfOk result (λ ts. map printed ts.items ≡ polynomial_terms polynomial.now) }
{
    let mut terms = Vec::new(alloc);
    for (monomial, number) in polynomial.terms(alloc)? {
        terms.push(Term {
            number,
            monomial,
            last: None,
        })?;
    }
    Ok(terms)
}
