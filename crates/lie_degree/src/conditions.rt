// The rows of the conditions of equations.
ghost use Rattle.std.specs.Prelude.{◌≡◌, ◌≤◌, ◌++◌, ◌∷◌, [], map, List, MatchResult, IfOk, IfErr, OnOk};
ghost use Rattle.std.specs.List.{AllByRecursion as Every, Contains};
ghost use Rattle.std.specs.List.Sorted.{IsStrictlySortedBy};
ghost use Rattle.lie_math.specs.FiniteSum.{IsCanonical};
ghost use Rattle.lie_math.specs.LinearForm.{LinearForm};
ghost use Rattle.lie_math.specs.Monomial.{Monomial, monomial_cmp, degree};
ghost use Rattle.lie_math.specs.Polynomial.{terms as polynomial_terms};
ghost use Rattle.lie_lin.specs.EquationLists.{IsInsertionPoint};
ghost use Rattle.lie_rows.specs.Rows.{rows_of};
ghost use Rattle.lie_spans.specs.Conditions.{condition_row, condition_rows};
ghost use Rattle.lie_degree.specs.Columns.{greatest_degree};
ghost use Rattle.lie_degree.specs.Conditions.{AreConditionMonomials, AreConditions};
ghost use Rattle.lie_degree.specs.Gathered.{AreGathered};
ghost use Rattle.lie_degree.specs.Said.{said_monomials, monomials_of, row_said, IsSaidCause, IsRowsCause, AreRowsWithin};

use crate::equations::{Said, said_of_columns};
use lie_algebra::{Column, number_at};
use lie_bytes::NoMemory;
use lie_lin::LinEq;
use lie_ring::{Mono, PolyFail, Whole};
use std::alloc::Global;

/// The place of a monomial among others in print order; as an error the place where it has to be put.
fn place_of(monos: &[Mono], mono: &Mono) -> Result<usize, usize>
    requires { IsStrictlySortedBy monomial_cmp monos.now }
    ensures { MatchResult result (λ i. Contains monos.now mono.now) (IsInsertionPoint monomial_cmp mono.now monos.now) }
{
    monos.binary_search_by(|other| other.compare(mono))
}

/// Puts a monomial into its place among others in print order, unless it is there.
fn insert_monomial(monos: &mut Vec<Mono>, alloc: Global, mono: &Mono) -> Result<(), NoMemory>
    requires { IsStrictlySortedBy monomial_cmp monos.old.items }
    ensures { OnOk result (AreGathered (monos.old.items ++ mono.now ∷ []) monos.new.items) }
{
    if let Err(place) = place_of(monos.as_slice(), mono) {
        monos.insert(place, mono.copy(alloc)?)?;
    }
    Ok(())
}

/// Puts the monomials of terms among others in print order.
fn insert_monomials(
    monos: &mut Vec<Mono>,
    alloc: Global,
    terms: &[(Mono, Whole)],
) -> Result<(), NoMemory>
    requires { IsStrictlySortedBy monomial_cmp monos.old.items }
    ensures { OnOk result (AreGathered (monos.old.items ++ monomials_of terms.now) monos.new.items) }
{
    for term in terms {
        insert_monomial(monos, alloc, &term.0)?;
    }
    Ok(())
}

/// The monomials of what is said, in print order, each once.
fn monomials_said(alloc: Global, said: &[Said]) -> Result<Vec<Mono>, NoMemory>
    ensures { IfOk result (λ made. AreGathered (said_monomials said.now) made.items) }
{
    let mut monos = Vec::new(alloc);
    for one in said {
        insert_monomials(&mut monos, alloc, one.terms.as_slice())?;
    }
    Ok(monos)
}

/// The numbers at a monomial of what is said.
fn row_said(alloc: Global, said: &[Said], mono: &Mono) -> Result<Vec<Whole>, NoMemory>
    requires { Every (λ s. IsCanonical polynomial_terms s.terms.items) said.now }
    ensures { IfOk result (λ row. row.items ≡ row_said said.now mono.now) }
{
    let mut row = Vec::with_capacity(alloc, said.len())?;
    for one in said {
        row.push(number_at(one.terms.as_slice(), mono))?;
    }
    Ok(row)
}

/// Puts the rows at monomials of what is said behind others.
fn push_rows(
    rows: &mut Vec<Vec<Whole>>,
    alloc: Global,
    said: &[Said],
    monos: &[Mono],
) -> Result<(), NoMemory>
    requires { Every (λ s. IsCanonical polynomial_terms s.terms.items) said.now }
    ensures { OnOk result (rows_of rows.new.items ≡ rows_of rows.old.items ++ map (row_said said.now) monos.now) }
{
    for mono in monos {
        rows.push(row_said(alloc, said, mono)?)?;
    }
    Ok(())
}

/// Puts the rows of the conditions of an equation behind others.
fn push_conditions(
    rows: &mut Vec<Vec<Whole>>,
    alloc: Global,
    form: &LinEq,
    columns: &[Column],
) -> Result<(), PolyFail>
    requires { Every (λ k. degree k.1 ≤ greatest_degree) columns.now }
    ensures rows { OnOk result ((ms : List Monomial) × AreConditionMonomials columns.now form.now ms
        × (rows_of rows.new.items ≡ rows_of rows.old.items ++ map (condition_row columns.now form.now) ms)) }
    ensures fits { OnOk result (AreRowsWithin columns.now (form.now ∷ [])) }
    ensures past { IfErr result (λ fail. IsSaidCause fail form.now columns.now) }
{
    let said = said_of_columns(alloc, form, columns)?;
    let monos = monomials_said(alloc, said.as_slice())?;
    push_rows(rows, alloc, said.as_slice(), monos.as_slice())?;
    Ok(())
}

/// The rows of the conditions of equations on the numbers in some columns: for each equation, and each monomial that occurs in what it
/// says of a column, the numbers there. `Past` comes exactly where what an equation says of a column is past a limit with absolute values.
pub fn condition_rows(
    alloc: Global,
    equations: &[LinEq],
    columns: &[Column],
) -> Result<Vec<Vec<Whole>>, PolyFail>
    requires { Every (λ k. degree k.1 ≤ greatest_degree) columns.now }
    ensures rows { IfOk result (λ made. (cs : List (LinearForm × List Monomial)) × AreConditions columns.now equations.now cs
        × (rows_of made.items ≡ condition_rows columns.now cs)) }
    ensures fits { OnOk result (AreRowsWithin columns.now equations.now) }
    ensures past { IfErr result (λ fail. IsRowsCause fail columns.now equations.now) }
{
    let mut rows = Vec::new(alloc);
    for form in equations {
        push_conditions(&mut rows, alloc, form, columns)?;
    }
    Ok(rows)
}
