// Two linear forms combined at a derivative.
ghost use Rattle.std.specs.Prelude.{◌≡◌, ◌++◌, IfOk, IfErr, OnOk};
ghost use Rattle.lie_math.specs.Counts.{derivative_cmp};
ghost use Rattle.lie_math.specs.LinearForm.{forms};
ghost use Rattle.lie_math.specs.Polynomial.{negᴾ};
ghost use Rattle.lie_math.specs.SortedSum.{value_at};
ghost use Rattle.lie_poly.specs.Failures.{IsStarved};
ghost use Rattle.lie_systems.specs.Bulk.{IsFormWithinLimits};
ghost use Rattle.lie_systems.specs.Triples.{triples_with};
ghost use Rattle.lie_jet.specs.Derivatives.{derivative_of};
ghost use Rattle.lie_form.specs.FormLimits.{IsFormCause};
ghost use Rattle.lie_lin.specs.Forms.{coefficients_of, triples_of, AreCoefficients};
ghost use Rattle.lie_steps.specs.NormalForm.{coefficient_at, reduced_at, combined, combined_bulk};

use crate::multiples::{Coefficient, sum_of_multiples};
use lie_bytes::NoMemory;
use lie_jet::{Der, compare_derivatives};
use lie_lin::{LinEq, common_monomial, content_of, divided_coefficient, push_triples};
use lie_ring::{Mono, PolyFail, Polynomial, Ring, Whole};
use std::alloc::Global;

/// Two linear forms combined at a derivative: with a and b its coefficients in `eq` and `other`, and g the greatest number times
/// the greatest monomial that divide both, b/g times `eq` less a/g times `other`. The derivative does not occur in it.
///
/// `Past` comes exactly where the same with absolute values and a plus is past a limit.
pub fn combine(alloc: Global, der: &Der, eq: &LinEq, other: &LinEq) -> Result<LinEq, PolyFail>
    ensures combined { IfOk result (λ made. made ≡ combined (derivative_of der.now) eq.now other.now) }
    ensures fits { OnOk result (IsFormWithinLimits (combined_bulk (derivative_of der.now) eq.now other.now)) }
    ensures past { IfErr result (λ fail. IsFormCause fail (combined_bulk (derivative_of der.now) eq.now other.now)) }
{
    let pair = factors(alloc, der, eq, other)?;
    sum_of_multiples(alloc, &pair.0, eq, &pair.1, other)
}

/// The factors b/g and -a/g. They fail for want of memory alone.
fn factors(
    alloc: Global,
    der: &Der,
    eq: &LinEq,
    other: &LinEq,
) -> Result<(Coefficient, Coefficient), PolyFail>
    ensures factor { IfOk result (λ pair. pair.0 ≡ reduced_at (derivative_of der.now) eq.now other.now
        (coefficient_at other.now (derivative_of der.now))) }
    ensures other_factor { IfOk result (λ pair. pair.1 ≡ negᴾ (reduced_at (derivative_of der.now) eq.now other.now
        (coefficient_at eq.now (derivative_of der.now)))) }
    ensures memory { IfErr result IsStarved }
{
    let first = (*der, coefficient_of(alloc, eq.terms(), der)?);
    let second = (*der, coefficient_of(alloc, other.terms(), der)?);
    let list = triples_of_both(alloc, &first, &second)?;
    let number = content_of(list.as_slice());
    if number.size() == 0 {
        return Ok((Coefficient::zero(alloc), Coefficient::zero(alloc)));
    }
    let mono = common_monomial(alloc, list.as_slice())?;
    let factor = divided_coefficient(alloc, number, &mono, &second.1)?;
    let other_factor = divided_coefficient(alloc, number.neg(), &mono, &first.1)?;
    Ok((factor, other_factor))
}

/// The triples of two derivatives with their coefficients, one after the other.
fn triples_of_both(
    alloc: Global,
    first: &(Der, Coefficient),
    second: &(Der, Coefficient),
) -> Result<Vec<(Der, Mono, Whole)>, NoMemory>
    ensures { IfOk result (λ list. triples_of list.items ≡ triples_with (derivative_of first.now.0) (first.now.1).list
        ++ triples_with (derivative_of second.now.0) (second.now.1).list) }
{
    let mut list = Vec::new(alloc);
    push_triples(&mut list, alloc, first)?;
    push_triples(&mut list, alloc, second)?;
    Ok(list)
}

/// The coefficient of a derivative among terms in printed order; 0 where it does not occur.
fn coefficient_of(
    alloc: Global,
    terms: &[(Der, Coefficient)],
    der: &Der,
) -> Result<Coefficient, NoMemory>
    requires { AreCoefficients terms.now }
    ensures { IfOk result (λ found. found ≡ value_at derivative_cmp forms.values (derivative_of der.now) (coefficients_of terms.now)) }
{
    for term in terms {
        if compare_derivatives(der, &term.0).is_eq() {
            return term.1.copy(alloc);
        }
    }
    Ok(Coefficient::zero(alloc))
}
