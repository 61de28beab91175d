// The triples of forms, counted up to the limit on them.
ghost use Rattle.std.specs.Prelude.{◌≡◌, ◌+◌, ◌<◌, ◌≤◌, ◌∷◌, [], length, remove, IfOk, IfErr, OnOk};
ghost use Rattle.lie_math.specs.Limits.{greatest_term_count};
ghost use Rattle.lie_systems.specs.Bulk.{triple_count_of_all};
ghost use Rattle.lie_systems.specs.Triples.{triples};
ghost use Rattle.lie_systems.specs.Works.{Triples};
ghost use Rattle.lie_normal.specs.WorkCauses.{IsWorkCause};
ghost use Rattle.lie_change.specs.Lists.{unmentioned};

use crate::mentioning::mentions;
use lie_lin::{LinEq, form_triple_count};
use lie_ring::{PastKind, PolyFail};

/// The greatest number of triples of a system.
const MAX_TRIPLES: u128 = 1_000_000;

/// A count with the triples of one form more.
fn count_form(before: u128, form: &LinEq) -> Result<u128, PolyFail>
    requires { before ≤ greatest_term_count }
    ensures count { IfOk result (λ count. count ≡ before + length (triples form.now)) }
    ensures few { IfOk result (λ count. count ≤ greatest_term_count) }
    ensures past { IfErr result (λ fail. IsWorkCause fail (λ b. b ≡ Triples (before + length (triples form.now)))) }
{
    let count = before + form_triple_count(form);
    if count > MAX_TRIPLES {
        return Err(PolyFail::Past(PastKind::Terms));
    }
    Ok(count)
}

/// A count with the triples of forms more. `Past` comes exactly where it is past the limit.
fn count_triples(before: u128, forms: &[LinEq]) -> Result<u128, PolyFail>
    requires { before ≤ greatest_term_count }
    ensures count { IfOk result (λ count. count ≡ before + triple_count_of_all forms.now) }
    ensures few { IfOk result (λ count. count ≤ greatest_term_count) }
    ensures past { IfErr result (λ fail. IsWorkCause fail (λ b. b ≡ Triples (before + triple_count_of_all forms.now))) }
{
    let mut count = before;
    for form in forms {
        count = count_form(count, form)?;
    }
    Ok(count)
}

/// The triples of equations and of general forms. `Past` comes exactly where they are past the limit.
pub fn count_both(equations: &[LinEq], general: &[LinEq]) -> Result<u128, PolyFail>
    ensures few { OnOk result (triple_count_of_all equations.now + triple_count_of_all general.now ≤ greatest_term_count) }
    ensures past { IfErr result (λ fail. IsWorkCause fail
        (λ b. b ≡ Triples (triple_count_of_all equations.now + triple_count_of_all general.now))) }
{
    let count = count_triples(0, equations)?;
    count_triples(count, general)
}

/// A count with the triples of one form more, unless it has the unknown.
fn count_unmentioned(before: u128, form: &LinEq, number: u32) -> Result<u128, PolyFail>
    requires { before ≤ greatest_term_count }
    ensures count { IfOk result (λ count. count ≡ before + triple_count_of_all (unmentioned number (form.now ∷ []))) }
    ensures few { IfOk result (λ count. count ≤ greatest_term_count) }
    ensures past { IfErr result (λ fail. IsWorkCause fail
        (λ b. b ≡ Triples (before + triple_count_of_all (unmentioned number (form.now ∷ []))))) }
{
    if mentions(form, number) {
        return Ok(before);
    }
    count_form(before, form)
}

/// The triples of the equations without an unknown and of general forms. `Past` comes exactly where they are past the limit.
pub fn count_without_unknown(
    equations: &[LinEq],
    number: u32,
    general: &[LinEq],
) -> Result<u128, PolyFail>
    ensures few { OnOk result (triple_count_of_all (unmentioned number equations.now) + triple_count_of_all general.now
        ≤ greatest_term_count) }
    ensures past { IfErr result (λ fail. IsWorkCause fail
        (λ b. b ≡ Triples (triple_count_of_all (unmentioned number equations.now) + triple_count_of_all general.now))) }
{
    let mut count = 0;
    for equation in equations {
        count = count_unmentioned(count, equation, number)?;
    }
    count_triples(count, general)
}

/// The triples of the equations without the one at a place and of general forms. `Past` comes exactly where they are past the limit.
pub fn count_without_place(
    equations: &[LinEq],
    place: usize,
    general: &[LinEq],
) -> Result<u128, PolyFail>
    requires { place < length equations.now }
    ensures few { OnOk result (triple_count_of_all (remove equations.now place) + triple_count_of_all general.now
        ≤ greatest_term_count) }
    ensures past { IfErr result (λ fail. IsWorkCause fail
        (λ b. b ≡ Triples (triple_count_of_all (remove equations.now place) + triple_count_of_all general.now))) }
{
    let count = count_triples(0, &equations[..place])?;
    let count = count_triples(count, &equations[place + 1..])?;
    count_triples(count, general)
}
