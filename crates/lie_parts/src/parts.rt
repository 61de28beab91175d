// The triples of forms by their factors in some variables.
ghost use Rattle.std.specs.Prelude.{◌≡◌, ◌++◌, ◌∷◌, [], cond, not, IfOk, OnOk};
ghost use Rattle.std.specs.List.Sorted.{IsStrictlySortedBy};
ghost use Rattle.lie_math.specs.Monomial.{monomial_cmp};
ghost use Rattle.lie_geometry.specs.DeterminingEquations.{restrict};
ghost use Rattle.lie_systems.specs.Triples.{triples_in, triples_with};
ghost use Rattle.lie_jet.specs.Derivatives.{derivative_of};
ghost use Rattle.lie_form.specs.DerivativeTerms.{derivative_terms};
ghost use Rattle.lie_parts.specs.Parts.{AreBucketsOf, HaveMore, is_inside, monomials_of, split_triple, split_triples};

use crate::buckets::{Bucket, put_triple};
use lie_bytes::NoMemory;
use lie_jet::{Der, JetPoly};
use lie_ring::{Mono, Polynomial, Whole};
use std::alloc::Global;

/// Of the variables 0 to 7 those that stand inside; no later variable does.
pub type Inside = [bool; 8];

/// Whether a variable stands inside.
fn is_inside(inside: &Inside, var: u32) -> bool
    ensures { result ≡ is_inside inside.now var }
{
    var < 8 && inside[var as usize]
}

/// Puts a pair behind others, where it is to be kept.
fn push_if(pairs: &mut Vec<(u32, u32)>, pair: (u32, u32), keep: bool) -> Result<(), NoMemory>
    ensures { OnOk result (pairs.new.items ≡ pairs.old.items ++ cond keep (pair ∷ []) []) }
{
    if keep {
        pairs.push(pair)?;
    }
    Ok(())
}

/// The factors of a monomial with variables that stand inside.
fn inner(alloc: Global, inside: &Inside, mono: &Mono) -> Result<Mono, NoMemory>
    ensures { IfOk result (λ made. made ≡ restrict (is_inside inside.now) mono.now) }
{
    let mut pairs = Vec::new(alloc);
    for pair in mono.pairs() {
        push_if(&mut pairs, *pair, is_inside(inside, pair.0))?;
    }
    Mono::of_pairs(alloc, pairs.as_slice())
}

/// The factors of a monomial with the other variables.
fn outer(alloc: Global, inside: &Inside, mono: &Mono) -> Result<Mono, NoMemory>
    ensures { IfOk result (λ made. made ≡ restrict (λ v. not (is_inside inside.now v)) mono.now) }
{
    let mut pairs = Vec::new(alloc);
    for pair in mono.pairs() {
        let is_inside = is_inside(inside, pair.0);
        push_if(&mut pairs, *pair, !is_inside)?;
    }
    Mono::of_pairs(alloc, pairs.as_slice())
}

/// Puts the terms of a derivative's coefficient into buckets.
fn put_terms(
    buckets: &mut Vec<Bucket>,
    alloc: Global,
    inside: &Inside,
    term: &(Der, JetPoly),
) -> Result<(), NoMemory>
    requires { IsStrictlySortedBy monomial_cmp (monomials_of buckets.old.items) }
    ensures { OnOk result (HaveMore (split_triples (is_inside inside.now)
        (triples_with (derivative_of term.now.0) (term.now.1).list)) buckets.old.items buckets.new.items) }
{
    let list = term.1.terms(alloc)?;
    for (mono, number) in list.as_slice() {
        put_term(buckets, alloc, inside, term.0, mono, *number)?;
    }
    Ok(())
}

/// Puts a derivative times a term into the bucket of its factors that stand outside.
fn put_term(
    buckets: &mut Vec<Bucket>,
    alloc: Global,
    inside: &Inside,
    der: Der,
    mono: &Mono,
    number: Whole,
) -> Result<(), NoMemory>
    requires { IsStrictlySortedBy monomial_cmp (monomials_of buckets.old.items) }
    ensures { OnOk result (HaveMore (split_triple (is_inside inside.now) (derivative_of der, mono.now, number)
        ∷ []) buckets.old.items buckets.new.items) }
{
    let outer = outer(alloc, inside, mono)?;
    let inner = inner(alloc, inside, mono)?;
    put_triple(buckets, alloc, outer, (der, inner, number))
}

/// The triples of a form by their factors with the variables that stand outside.
pub fn buckets_of(
    alloc: Global,
    inside: &Inside,
    terms: &[(Der, JetPoly)],
) -> Result<Vec<Bucket>, NoMemory>
    ensures { IfOk result (λ buckets. AreBucketsOf (split_triples (is_inside inside.now) (triples_in (derivative_terms terms.now)))
        buckets.items) }
{
    let mut buckets = Vec::new(alloc);
    for term in terms {
        put_terms(&mut buckets, alloc, inside, term)?;
    }
    Ok(buckets)
}
