// An unknown replaced by a form over a whole number.
ghost use Rattle.std.specs.Prelude.{◌≡◌, pos, unsigned_abs, length, map, IfOk, IfErr, OnOk};
ghost use Rattle.std.specs.List.{AllByRecursion as Every};
ghost use Rattle.lie_math.specs.Limits.{absolute};
ghost use Rattle.lie_math.specs.LinearForm.{◌+ᶠ◌, each_coefficient, times_form};
ghost use Rattle.lie_math.specs.Polynomial.{0ᴾ};
ghost use Rattle.lie_systems.specs.Bulk.{IsFormWithinLimits};
ghost use Rattle.lie_systems.specs.Triples.{triples};
ghost use Rattle.lie_jet.specs.Derivatives.{derivative_of};
ghost use Rattle.lie_form.specs.DerivativeTerms.{derivative_terms};
ghost use Rattle.lie_form.specs.FormLimits.{IsFormCause};
ghost use Rattle.lie_form.proofs.FormBounds.{over_entries};
ghost use Rattle.lie_geometry.proofs.AbsoluteForms.{entry_absolutes};
ghost use Rattle.lie_lin.specs.Systems.{unknown_of};
ghost use Rattle.lie_steps.specs.Derivatives.{derivatives};
ghost use Rattle.lie_steps.specs.Replacement.{put_in, put_in_bulk};
ghost use Rattle.lie_replace.specs.Growing.{IsPartCause};
ghost use Rattle.lie_replace.specs.Replacing.{form_of, put_in_term, IsJointCause, AreWithinLimits};

use crate::iterated::{derivatives_by, variables_of};
use crate::lasting::lasting_terms;
use lie_form::SymForm;
use lie_jet::Der;
use lie_lin::{LinEq, Unknown, form_triple_count};
use lie_normal::{Coefficient, absolute_terms, put_multiple};
use lie_ring::{PastKind, PolyFail, Polynomial, Whole};
use std::alloc::Global;

/// The greatest number of triples of a form, and of forms that one action makes.
const MAX_TRIPLES: u128 = 1_000_000;

/// The form with another over a whole number that is not negative in place of the unknown `number`: derivatives of other unknowns
/// are multiplied by the divisor, and those of the unknown become those of the other form.
///
/// `Past` comes exactly where the same with absolute values is past a limit.
pub fn replace(
    alloc: Global,
    eq: &LinEq,
    unknowns: &[Unknown],
    number: u32,
    form: &LinEq,
    divisor: Whole,
) -> Result<LinEq, PolyFail>
    requires { divisor ≡ pos (unsigned_abs divisor) }
    ensures replaced { IfOk result (λ made. made ≡ put_in (map unknown_of unknowns.now) number form.now (unsigned_abs divisor) eq.now) }
    ensures fits { OnOk result (IsFormWithinLimits
        (put_in_bulk (map unknown_of unknowns.now) number form.now (unsigned_abs divisor) eq.now)) }
    ensures past { IfErr result (λ fail. IsFormCause fail
        (put_in_bulk (map unknown_of unknowns.now) number form.now (unsigned_abs divisor) eq.now)) }
{
    let (made, _) = replace_and_count(alloc, eq, unknowns, number, form, divisor)?;
    Ok(made)
}

/// The same in forms all at once, as one action: its triples are counted over all of them.
pub fn replace_in_all(
    alloc: Global,
    forms: &[LinEq],
    unknowns: &[Unknown],
    number: u32,
    form: &LinEq,
    divisor: Whole,
) -> Result<Vec<LinEq>, PolyFail>
    requires { divisor ≡ pos (unsigned_abs divisor) }
    ensures replaced { IfOk result (λ made. made.items
        ≡ map (put_in (map unknown_of unknowns.now) number form.now (unsigned_abs divisor)) forms.now) }
    ensures fits { OnOk result (AreWithinLimits
        (map (put_in_bulk (map unknown_of unknowns.now) number form.now (unsigned_abs divisor)) forms.now)) }
    ensures past { IfErr result (λ fail. IsJointCause fail
        (map (put_in_bulk (map unknown_of unknowns.now) number form.now (unsigned_abs divisor)) forms.now)) }
{
    let mut all = Vec::new(alloc);
    let mut count: u128 = 0;
    for eq in forms {
        let (made, size) = replace_and_count(alloc, eq, unknowns, number, form, divisor)?;
        count += size;
        if count > MAX_TRIPLES {
            return Err(PolyFail::Past(PastKind::Terms));
        }
        all.push(made)?;
    }
    Ok(all)
}

/// The form with another over a whole number in place of an unknown, and the number of triples of the same with absolute values.
fn replace_and_count(
    alloc: Global,
    eq: &LinEq,
    unknowns: &[Unknown],
    number: u32,
    form: &LinEq,
    divisor: Whole,
) -> Result<(LinEq, u128), PolyFail>
    requires { divisor ≡ pos (unsigned_abs divisor) }
    ensures replaced { IfOk result (λ made. made.0 ≡ put_in (map unknown_of unknowns.now) number form.now (unsigned_abs divisor) eq.now) }
    ensures count { IfOk result (λ made. made.1 ≡ length (triples
        (put_in_bulk (map unknown_of unknowns.now) number form.now (unsigned_abs divisor) eq.now))) }
    ensures fits { OnOk result (IsFormWithinLimits
        (put_in_bulk (map unknown_of unknowns.now) number form.now (unsigned_abs divisor) eq.now)) }
    ensures past { IfErr result (λ fail. IsFormCause fail
        (put_in_bulk (map unknown_of unknowns.now) number form.now (unsigned_abs divisor) eq.now)) }
{
    let bulk = bulk_of_replaced(alloc, eq, unknowns, number, form, divisor)?;
    bulk.within_limits()?;
    let bulk = LinEq::of_terms(bulk.into_terms());
    let count = form_triple_count(&bulk);
    let sum = put_all(alloc, unknowns, number, form.terms(), divisor, eq.terms())?;
    let made = LinEq::of_terms(sum.into_terms());
    Ok((made, count))
}

/// The same with absolute values.
fn bulk_of_replaced(
    alloc: Global,
    eq: &LinEq,
    unknowns: &[Unknown],
    number: u32,
    form: &LinEq,
    divisor: Whole,
) -> Result<SymForm, PolyFail>
    requires { divisor ≡ pos (unsigned_abs divisor) }
    ensures bulk { IfOk result (λ bulk. bulk ≡ put_in_bulk (map unknown_of unknowns.now) number form.now (unsigned_abs divisor) eq.now) }
    ensures past { IfErr result (λ fail. IsPartCause fail
        (put_in_bulk (map unknown_of unknowns.now) number form.now (unsigned_abs divisor) eq.now)) }
{
    let form_sizes = absolute_terms(alloc, form.terms())?;
    let sizes = absolute_terms(alloc, eq.terms())?;
    put_all(
        alloc,
        unknowns,
        number,
        form_sizes.as_slice(),
        divisor,
        sizes.as_slice(),
    )
}

/// The sum of what terms become. An error has its cause in the sum with absolute values.
fn put_all(
    alloc: Global,
    unknowns: &[Unknown],
    number: u32,
    form: &[(Der, Coefficient)],
    divisor: Whole,
    terms: &[(Der, Coefficient)],
) -> Result<SymForm, PolyFail>
    requires divisor { divisor ≡ pos (unsigned_abs divisor) }
    requires apart { Every (λ e. ¬ (e.1 ≡ 0ᴾ)) (derivative_terms terms.now) }
    ensures sum { IfOk result (λ sum. sum ≡ over_entries (put_in_term (map unknown_of unknowns.now) number
        (form_of (derivative_terms form.now)) (unsigned_abs divisor)) (derivative_terms terms.now)) }
    ensures past { IfErr result (λ fail. IsPartCause fail (over_entries (λ d a. put_in_term (map unknown_of unknowns.now) number
        (form_of (entry_absolutes (derivative_terms form.now))) (unsigned_abs divisor) d (absolute a)) (derivative_terms terms.now))) }
{
    let mut sum = SymForm::zero(alloc);
    for term in terms {
        put_term(&mut sum, alloc, unknowns, number, form, divisor, term)?;
    }
    Ok(sum)
}

/// Adds what a polynomial times a derivative becomes.
fn put_term(
    sum: &mut SymForm,
    alloc: Global,
    unknowns: &[Unknown],
    number: u32,
    form: &[(Der, Coefficient)],
    divisor: Whole,
    term: &(Der, Coefficient),
) -> Result<(), PolyFail>
    requires divisor { divisor ≡ pos (unsigned_abs divisor) }
    requires apart { ¬ (term.now.1 ≡ 0ᴾ) }
    ensures sum { OnOk result (sum.new ≡ sum.old +ᶠ put_in_term (map unknown_of unknowns.now) number
        (form_of (derivative_terms form.now)) (unsigned_abs divisor) (derivative_of term.now.0) term.now.1) }
    ensures past { IfErr result (λ fail. IsPartCause fail (each_coefficient absolute sum.old +ᶠ put_in_term
        (map unknown_of unknowns.now) number (form_of (entry_absolutes (derivative_terms form.now))) (unsigned_abs divisor)
        (derivative_of term.now.0) (absolute term.now.1))) }
{
    if term.0.unknown == number {
        return put_derivatives(sum, alloc, unknowns, form, term);
    }
    let scaled = term.1.scale(alloc, &divisor)?;
    sum.put(alloc, term.0, scaled)?;
    Ok(())
}

/// Adds a polynomial times the derivatives of a form.
fn put_derivatives(
    sum: &mut SymForm,
    alloc: Global,
    unknowns: &[Unknown],
    form: &[(Der, Coefficient)],
    term: &(Der, Coefficient),
) -> Result<(), PolyFail>
    requires { ¬ (term.now.1 ≡ 0ᴾ) }
    ensures sum { OnOk result (sum.new ≡ sum.old +ᶠ times_form term.now.1 (derivatives (map unknown_of unknowns.now)
        (derivative_of term.now.0).counts (form_of (derivative_terms form.now)))) }
    ensures past { IfErr result (λ fail. IsPartCause fail (each_coefficient absolute sum.old +ᶠ times_form (absolute term.now.1)
        (derivatives (map unknown_of unknowns.now) (derivative_of term.now.0).counts
        (form_of (entry_absolutes (derivative_terms form.now)))))) }
{
    let vars = variables_of(alloc, &term.0)?;
    let lasting = lasting_terms(alloc, unknowns, vars.as_slice(), form)?;
    let derived = derivatives_by(alloc, unknowns, vars.as_slice(), lasting)?;
    put_multiple(sum, alloc, &term.1, derived.as_slice())?;
    Ok(())
}
