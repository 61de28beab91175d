// The terms of a form that are not lost when it is derived several times.
ghost use Rattle.std.specs.Prelude.{◌≡◌, ◌<◌, ◌++◌, ◌∷◌, [], map, IfOk, IfErr, OnOk};
ghost use Rattle.std.specs.List.{AllByRecursion as Every};
ghost use Rattle.lie_math.specs.Limits.{IsWithinLimits};
ghost use Rattle.lie_math.specs.Polynomial.{polynomial_of};
ghost use Rattle.lie_poly.specs.Failures.{IsStarved};
ghost use Rattle.lie_jet.specs.Derivatives.{derivative_of};
ghost use Rattle.lie_form.specs.DerivativeTerms.{derivative_terms};
ghost use Rattle.lie_lin.specs.Systems.{unknown_of};
ghost use Rattle.lie_replace.specs.Replacing.{occurrences, needs_in, needs, meets, meeting, lasting_part, lasting_entry, lasting_entries};

use lie_bytes::NoMemory;
use lie_jet::Der;
use lie_lin::Unknown;
use lie_normal::{Coefficient, depends};
use lie_ring::{Mono, PolyFail, Polynomial, Whole};
use std::alloc::Global;

/// How often a list has a variable.
fn occurrences(vars: &[u8], var: u8) -> usize
    ensures { result ≡ occurrences var vars.now }
{
    let mut count = 0;
    let mut i = vars.len();
    while i > 0 {
        i -= 1;
        if vars[i] == var {
            count += 1;
        }
    }
    count
}

/// Puts a variable behind others, with how often a list has it, where the unknown does not depend on it.
fn push_need(
    found: &mut Vec<(u8, usize)>,
    unknowns: &[Unknown],
    vars: &[u8],
    number: u32,
    var: u8,
) -> Result<(), NoMemory>
    requires { var < 8 }
    ensures { OnOk result (found.new.items ≡ found.old.items ++ needs_in (map unknown_of unknowns.now) vars.now number (var ∷ [])) }
{
    if depends(unknowns, number, var) {
        return Ok(());
    }
    found.push((var, occurrences(vars, var)))?;
    Ok(())
}

/// How often a list has each of its variables on which an unknown does not depend.
fn needs(
    alloc: Global,
    unknowns: &[Unknown],
    vars: &[u8],
    number: u32,
) -> Result<Vec<(u8, usize)>, NoMemory>
    requires { Every (λ v. v < 8) vars.now }
    ensures { IfOk result (λ found. found.items ≡ needs (map unknown_of unknowns.now) vars.now number) }
{
    let mut found = Vec::new(alloc);
    for var in vars {
        push_need(&mut found, unknowns, vars, number, *var)?;
    }
    Ok(found)
}

/// Whether a monomial has each variable at least as often.
fn meets(needs: &[(u8, usize)], mono: &Mono) -> bool
    ensures { result ≡ meets needs.now mono.now }
{
    for (var, need) in needs {
        if (mono.exponent(u32::from(*var)) as usize) < *need {
            return false;
        }
    }
    true
}

/// Puts a term behind others, where its monomial has each variable at least as often.
fn push_meeting(
    kept: &mut Vec<(Mono, Whole)>,
    alloc: Global,
    needs: &[(u8, usize)],
    term: &(Mono, Whole),
) -> Result<(), NoMemory>
    ensures { OnOk result (kept.new.items ≡ kept.old.items ++ meeting needs.now (term.now ∷ [])) }
{
    if !meets(needs, &term.0) {
        return Ok(());
    }
    let mono = term.0.copy(alloc)?;
    kept.push((mono, term.1))?;
    Ok(())
}

/// The terms whose monomials have each variable at least as often.
fn meeting_terms(
    alloc: Global,
    needs: &[(u8, usize)],
    terms: &[(Mono, Whole)],
) -> Result<Vec<(Mono, Whole)>, NoMemory>
    ensures { IfOk result (λ kept. kept.items ≡ meeting needs.now terms.now) }
{
    let mut kept = Vec::new(alloc);
    for term in terms {
        push_meeting(&mut kept, alloc, needs, term)?;
    }
    Ok(kept)
}

/// The polynomial without the terms whose monomials have a variable less often. It fails for want of memory alone.
fn meeting_part(
    alloc: Global,
    needs: &[(u8, usize)],
    poly: &Coefficient,
) -> Result<Coefficient, PolyFail>
    ensures part { IfOk result (λ part. part ≡ polynomial_of (meeting needs.now poly.now.list)) }
    ensures within { IfOk result IsWithinLimits }
    ensures memory { IfErr result IsStarved }
{
    let _ = poly.len();
    let terms = poly.terms(alloc)?;
    let kept = meeting_terms(alloc, needs, terms.as_slice())?;
    let part = Coefficient::of_terms(alloc, kept.as_slice())?;
    let _ = part.len();
    Ok(part)
}

/// Puts a derivative with the lasting part of its coefficient behind others, unless that is 0.
fn push_lasting(
    kept: &mut Vec<(Der, Coefficient)>,
    alloc: Global,
    unknowns: &[Unknown],
    vars: &[u8],
    term: &(Der, Coefficient),
) -> Result<(), PolyFail>
    requires { Every (λ v. v < 8) vars.now }
    ensures pushed { OnOk result (derivative_terms kept.new.items ≡ derivative_terms kept.old.items
        ++ lasting_entry (map unknown_of unknowns.now) vars.now (derivative_of term.now.0, term.now.1)) }
    ensures within { OnOk result (IsWithinLimits (lasting_part (map unknown_of unknowns.now) vars.now term.now.0.unknown term.now.1)) }
    ensures memory { IfErr result IsStarved }
{
    let needs = needs(alloc, unknowns, vars, term.0.unknown)?;
    let part = meeting_part(alloc, needs.as_slice(), &term.1)?;
    if part.len() == 0 {
        return Ok(());
    }
    kept.push((term.0, part))?;
    Ok(())
}

/// The terms that are not lost when a form is derived by the variables, one after the other. It fails for want of memory alone.
pub fn lasting_terms(
    alloc: Global,
    unknowns: &[Unknown],
    vars: &[u8],
    terms: &[(Der, Coefficient)],
) -> Result<Vec<(Der, Coefficient)>, PolyFail>
    requires { Every (λ v. v < 8) vars.now }
    ensures kept { IfOk result (λ kept. derivative_terms kept.items
        ≡ lasting_entries (map unknown_of unknowns.now) vars.now (derivative_terms terms.now)) }
    ensures within { OnOk result (Every (λ e. IsWithinLimits (lasting_part (map unknown_of unknowns.now) vars.now (e.0).unknown e.1))
        (derivative_terms terms.now)) }
    ensures memory { IfErr result IsStarved }
{
    let mut kept = Vec::new(alloc);
    for term in terms {
        push_lasting(&mut kept, alloc, unknowns, vars, term)?;
    }
    Ok(kept)
}
