// Whether parts make a valid system.
ghost use Rattle.std.specs.Prelude.{◌≡◌, ◌+◌, ◌<◌, ◌≤◌, ltb, true, false, map, filter, length, slice_index_or, MatchBool, IfOk};
ghost use Rattle.std.specs.List.{AllByRecursion as Every, range_with_len};
ghost use Rattle.std.specs.List.Sorted.{IsStrictlySortedBy};
ghost use Rattle.lie_math.specs.Variables.{IsIn};
ghost use Rattle.lie_systems.specs.EquationOrder.{equation_cmp};
ghost use Rattle.lie_systems.specs.Normalised.{IsNormalised};
ghost use Rattle.lie_systems.specs.ValidSystems.{IsOwned, IsFormOf, IsValid, HasVariablesBelow};
ghost use Rattle.lie_jet.specs.Derivatives.{derivative_of};
ghost use Rattle.lie_lin.specs.Systems.{has_bit, system_of, unknown_of};
ghost use Rattle.lie_lin.specs.Validity.{AreLow, AreOwn, IsOwner, IsUnknownBelow, AreRising};

use crate::equation::LinEq;
use crate::normalised::primitive;
use crate::order::compare_equations;
use crate::system::Unknown;
use lie_bytes::NoMemory;
use lie_jet::{Der, Space, space_is_small};
use lie_poly::Flat;
use lie_ring::{Mono, Polynomial, Whole};
use std::alloc::Global;
use std::cmp::Ordering;

/// Whether the bit i is set.
fn has_bit(bits: u8, i: u8) -> bool
    requires { i < 8 }
    ensures { result ≡ has_bit bits i }
{
    (bits >> i) % 2 == 1
}

/// Whether no bit from `bound` on is set.
fn are_bits_below(bits: u8, bound: u8) -> bool
    requires { bound ≤ 8 }
    ensures { MatchBool result (Every (λ v. v < bound) (filter (has_bit bits) (range_with_len 0 8)))
        (¬ (Every (λ v. v < bound) (filter (has_bit bits) (range_with_len 0 8)))) }
{
    let mut i = bound;
    while i < 8 {
        if has_bit(bits, i) {
            return false;
        }
        i += 1;
    }
    true
}

/// Whether the number of an unknown is below `next` and its variables are below `bound`.
fn is_unknown_below(unknown: Unknown, bound: u8, next: u32) -> bool
    requires { bound ≤ 8 }
    ensures { MatchBool result (IsUnknownBelow bound next unknown) (¬ (IsUnknownBelow bound next unknown)) }
{
    if unknown.number >= next {
        return false;
    }
    are_bits_below(unknown.vars, bound)
}

/// Whether this holds of all unknowns.
fn are_unknowns_below(unknowns: &[Unknown], bound: u8, next: u32) -> bool
    requires { bound ≤ 8 }
    ensures { MatchBool result (Every (IsUnknownBelow bound next) unknowns.now) (¬ (Every (IsUnknownBelow bound next) unknowns.now)) }
{
    for unknown in unknowns {
        if !is_unknown_below(*unknown, bound, next) {
            return false;
        }
    }
    true
}

/// Whether the numbers of unknowns rise.
fn are_rising(unknowns: &[Unknown]) -> bool
    ensures { MatchBool result (AreRising unknowns.now) (¬ (AreRising unknowns.now)) }
{
    let mut i = 1;
    while i < unknowns.len() {
        if unknowns[i - 1].number >= unknowns[i].number {
            return false;
        }
        i += 1;
    }
    true
}

/// Whether a derivative is taken by a variable whose bit is not set.
fn is_foreign(bits: u8, counts: &[u8; 8], i: u8) -> bool
    requires { i < 8 }
    ensures { MatchBool result ((¬ (slice_index_or counts.now i 0 ≡ 0)) × (has_bit bits i ≡ false))
        ((¬ (slice_index_or counts.now i 0 ≡ 0)) → has_bit bits i ≡ true) }
{
    if counts[usize::from(i)] == 0 {
        return false;
    }
    !has_bit(bits, i)
}

/// Whether a derivative is taken by variables alone whose bits are set.
fn are_own(bits: u8, counts: &[u8; 8]) -> bool
    ensures { MatchBool result (AreOwn bits counts.now) (¬ (AreOwn bits counts.now)) }
{
    let mut i = 0;
    while i < 8 {
        if is_foreign(bits, counts, i) {
            return false;
        }
        i += 1;
    }
    true
}

/// Whether a derivative is one of an unknown by its own variables.
fn is_owner(unknown: Unknown, der: &Der) -> bool
    ensures { MatchBool result (IsOwner unknown der.now) (¬ (IsOwner unknown der.now)) }
{
    if unknown.number != der.unknown {
        return false;
    }
    are_own(unknown.vars, &der.counts)
}

/// Whether a derivative is one of a listed unknown by its own variables.
fn is_owned(unknowns: &[Unknown], der: &Der) -> bool
    ensures { MatchBool result (IsOwned (map unknown_of unknowns.now) (derivative_of der.now))
        (¬ (IsOwned (map unknown_of unknowns.now) (derivative_of der.now))) }
{
    for unknown in unknowns {
        if is_owner(*unknown, der) {
            return true;
        }
    }
    false
}

/// Whether the variables of a monomial are below a number.
fn is_monomial_below(mono: &Mono, bound: u8) -> bool
    ensures { MatchBool result (AreLow bound mono.now.list) (¬ (AreLow bound mono.now.list)) }
{
    for pair in mono.pairs() {
        if pair.0 >= u32::from(bound) {
            return false;
        }
    }
    true
}

/// Whether the variables of a polynomial are below a number.
fn is_polynomial_below(alloc: Global, p: &Flat<Whole>, bound: u8) -> Result<bool, NoMemory>
    ensures { IfOk result (λ yes. MatchBool yes (IsIn (λ v. ltb v bound) p.now) (¬ (IsIn (λ v. ltb v bound) p.now))) }
{
    let terms = p.terms(alloc)?;
    for term in terms.as_slice() {
        if !is_monomial_below(&term.0, bound) {
            return Ok(false);
        }
    }
    Ok(true)
}

/// Whether a form has derivatives of listed unknowns alone, by their own variables, with polynomials in the variables below a number.
fn is_form_of(alloc: Global, unknowns: &[Unknown], bound: u8, eq: &LinEq) -> Result<bool, NoMemory>
    ensures { IfOk result (λ yes. MatchBool yes (IsFormOf bound (map unknown_of unknowns.now) eq.now)
        (¬ (IsFormOf bound (map unknown_of unknowns.now) eq.now))) }
{
    for term in eq.terms() {
        if !is_owned(unknowns, &term.0) {
            return Ok(false);
        }
        let low = is_polynomial_below(alloc, &term.1, bound)?;
        if !low {
            return Ok(false);
        }
    }
    Ok(true)
}

/// Whether this holds of all forms.
fn are_forms_of(
    alloc: Global,
    unknowns: &[Unknown],
    bound: u8,
    list: &[LinEq],
) -> Result<bool, NoMemory>
    ensures { IfOk result (λ yes. MatchBool yes (Every (IsFormOf bound (map unknown_of unknowns.now)) list.now)
        (¬ (Every (IsFormOf bound (map unknown_of unknowns.now)) list.now))) }
{
    for eq in list {
        let fits = is_form_of(alloc, unknowns, bound, eq)?;
        if !fits {
            return Ok(false);
        }
    }
    Ok(true)
}

/// Whether an equation is normalised.
fn is_normalised(alloc: Global, eq: &LinEq) -> Result<bool, NoMemory>
    ensures { IfOk result (λ yes. MatchBool yes (IsNormalised eq.now) (¬ (IsNormalised eq.now))) }
{
    if eq.terms().len() == 0 {
        return Ok(false);
    }
    let made = primitive(alloc, eq)?;
    match compare_equations(alloc, &made, eq)? {
        Ordering::Equal => Ok(true),
        Ordering::Less => Ok(false),
        Ordering::Greater => Ok(false),
    }
}

/// Whether all equations are normalised.
fn are_normalised(alloc: Global, list: &[LinEq]) -> Result<bool, NoMemory>
    ensures { IfOk result (λ yes. MatchBool yes (Every IsNormalised list.now) (¬ (Every IsNormalised list.now))) }
{
    for eq in list {
        let normalised = is_normalised(alloc, eq)?;
        if !normalised {
            return Ok(false);
        }
    }
    Ok(true)
}

/// Whether equations are in order, each once.
fn are_in_order(alloc: Global, list: &[LinEq]) -> Result<bool, NoMemory>
    ensures { IfOk result (λ yes. MatchBool yes (IsStrictlySortedBy equation_cmp list.now) (¬ (IsStrictlySortedBy equation_cmp list.now))) }
{
    let mut i = 1;
    while i < list.len() {
        match compare_equations(alloc, &list[i - 1], &list[i])? {
            Ordering::Less => i += 1,
            Ordering::Equal => return Ok(false),
            Ordering::Greater => return Ok(false),
        }
    }
    Ok(true)
}

/// Whether parts make a valid system.
pub fn is_valid(
    alloc: Global,
    space: Space,
    unknowns: &[Unknown],
    equations: &[LinEq],
    general: &[LinEq],
    next: u32,
) -> Result<bool, NoMemory>
    ensures { IfOk result (λ yes. MatchBool yes
        (IsValid (space.p + space.q) (system_of unknowns.now equations.now general.now next))
        (¬ (IsValid (space.p + space.q) (system_of unknowns.now equations.now general.now next)))) }
{
    space_is_small(space);
    let bound = space.p + space.q;
    if general.len() != usize::from(bound) {
        return Ok(false);
    }
    if !are_unknowns_below(unknowns, bound, next) {
        return Ok(false);
    }
    if !are_rising(unknowns) {
        return Ok(false);
    }
    let general_fits = are_forms_of(alloc, unknowns, bound, general)?;
    if !general_fits {
        return Ok(false);
    }
    let equations_fit = are_forms_of(alloc, unknowns, bound, equations)?;
    if !equations_fit {
        return Ok(false);
    }
    let normalised = are_normalised(alloc, equations)?;
    if !normalised {
        return Ok(false);
    }
    are_in_order(alloc, equations)
}
