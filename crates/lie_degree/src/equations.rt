// What an equation says of columns.
ghost use Rattle.std.specs.Prelude.{◌≡◌, ◌≤◌, map, IfOk, IfErr, OnOk};
ghost use Rattle.std.specs.List.{AllByRecursion as Every, Any};
ghost use Rattle.lie_math.specs.Counts.{derived};
ghost use Rattle.lie_math.specs.Limits.{IsWithinLimits, absolute};
ghost use Rattle.lie_math.specs.Monomial.{degree};
ghost use Rattle.lie_math.specs.Polynomial.{◌*ᴾ◌};
ghost use Rattle.lie_jet.specs.Derivatives.{derivative_of};
ghost use Rattle.lie_ring.specs.Causes.{IsCause};
ghost use Rattle.lie_spans.specs.Conditions.{column_alone};
ghost use Rattle.lie_degree.specs.Columns.{greatest_degree};
ghost use Rattle.lie_degree.specs.Conditions.{said_of, said_bulk};
ghost use Rattle.lie_degree.specs.Said.{terms_say, terms_bulk, IsSaidCause, said_lists};

use crate::derivatives::derived_monomial;
use lie_algebra::Column;
use lie_jet::{Der, JetPoly};
use lie_lin::LinEq;
use lie_normal::absolute_terms;
use lie_ring::{Mono, PolyFail, Polynomial, Whole};
use std::alloc::Global;

/// The terms of what an equation says of a column, in print order.
#[derive(Drop)]
pub struct Said {
    /// The monomials with their numbers.
    pub terms: Vec<(Mono, Whole)>,
}

/// What a term of an equation says of a column.
fn said_by_term(alloc: Global, term: &(Der, JetPoly), column: &Column) -> Result<JetPoly, PolyFail>
    requires { degree column.now.1 ≤ greatest_degree }
    ensures value { IfOk result (λ made. made ≡ term.now.1 *ᴾ derived (column_alone column.now) (derivative_of term.now.0)) }
    ensures past { IfErr result
        (λ fail. IsCause fail (absolute term.now.1 *ᴾ derived (column_alone column.now) (derivative_of term.now.0))) }
{
    if term.0.unknown != u32::from(column.component()) + 1 {
        return Ok(JetPoly::zero(alloc));
    }
    let derivative = derived_monomial(alloc, column.mono(), &term.0.counts)?;
    term.1.mul(alloc, &derivative)
}

/// What the terms of an equation say of a column together.
fn said_by_terms(
    alloc: Global,
    terms: &[(Der, JetPoly)],
    column: &Column,
) -> Result<JetPoly, PolyFail>
    requires { degree column.now.1 ≤ greatest_degree }
    ensures value { IfOk result (λ made. made ≡ terms_say terms.now column.now) }
    ensures past { IfErr result (λ fail. IsCause fail (terms_bulk terms.now column.now)) }
{
    let mut sum = JetPoly::zero(alloc);
    for term in terms {
        let part = said_by_term(alloc, term, column)?;
        sum = sum.add(alloc, &part)?;
    }
    Ok(sum)
}

/// What an equation says of a column: first with absolute values, where nothing cancels, and then truly.
fn said_of(
    alloc: Global,
    sizes: &[(Der, JetPoly)],
    form: &LinEq,
    column: &Column,
) -> Result<Said, PolyFail>
    requires low { degree column.now.1 ≤ greatest_degree }
    requires sizes { terms_say sizes.now column.now ≡ said_bulk form.now column.now }
    requires bulks { terms_bulk sizes.now column.now ≡ said_bulk form.now column.now }
    ensures value { IfOk result (λ said. said.terms.items ≡ (said_of form.now column.now).list) }
    ensures fits { OnOk result (IsWithinLimits (said_bulk form.now column.now)) }
    ensures past { IfErr result (λ fail. IsCause fail (said_bulk form.now column.now)) }
{
    let bulk = said_by_terms(alloc, sizes, column)?;
    bulk.is_within_limits();
    let said = said_by_terms(alloc, form.terms(), column)?;
    Ok(Said {
        terms: said.terms(alloc)?,
    })
}

/// What an equation says of each of some columns. `Past` comes exactly where that is past a limit with absolute values.
pub fn said_of_columns(
    alloc: Global,
    form: &LinEq,
    columns: &[Column],
) -> Result<Vec<Said>, PolyFail>
    requires { Every (λ k. degree k.1 ≤ greatest_degree) columns.now }
    ensures value { IfOk result (λ said. said_lists said.items ≡ map (λ k. (said_of form.now k).list) columns.now) }
    ensures fits { OnOk result (Every (λ k. IsWithinLimits (said_bulk form.now k)) columns.now) }
    ensures past { IfErr result (λ fail. IsSaidCause fail form.now columns.now) }
{
    let sizes = absolute_terms(alloc, form.terms())?;
    let mut said = Vec::new(alloc);
    for column in columns {
        said.push(said_of(alloc, sizes.as_slice(), form, column)?)?;
    }
    Ok(said)
}
