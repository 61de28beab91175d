// Triples by monomials.
ghost use Rattle.std.specs.Prelude.{◌∷◌, [], ◌<◌, length, MatchResult, OnOk};
ghost use Rattle.std.specs.List.Sorted.{IsStrictlySortedBy};
ghost use Rattle.lie_math.specs.Monomial.{Monomial, monomial_cmp};
ghost use Rattle.lie_jet.specs.Derivatives.{derivative_of};
ghost use Rattle.lie_lin.specs.EquationLists.{IsInsertionPoint};
ghost use Rattle.lie_parts.specs.Parts.{monomials_of, HaveMore, IsFound};

use lie_bytes::NoMemory;
use lie_jet::Der;
use lie_ring::{Mono, Whole};
use std::alloc::Global;

/// A monomial with the triples at it.
#[derive(Drop)]
pub struct Bucket {
    /// The monomial.
    pub mono: Mono,
    /// Derivatives with monomials in other variables, and numbers.
    pub triples: Vec<(Der, Mono, Whole)>,
}

/// The place of the bucket of a monomial; as an error the place where it has to be put.
fn place_of(buckets: &[Bucket], mono: &Mono) -> Result<usize, usize>
    requires { IsStrictlySortedBy monomial_cmp (monomials_of buckets.now) }
    ensures { MatchResult result (IsFound monomial_cmp mono.now (monomials_of buckets.now))
        (IsInsertionPoint monomial_cmp mono.now (monomials_of buckets.now)) }
{
    buckets.binary_search_by(|bucket| bucket.mono.compare(mono))
}

/// Puts a triple into the bucket of a monomial.
pub fn put_triple(
    buckets: &mut Vec<Bucket>,
    alloc: Global,
    mono: Mono,
    triple: (Der, Mono, Whole),
) -> Result<(), NoMemory>
    requires { IsStrictlySortedBy monomial_cmp (monomials_of buckets.old.items) }
    ensures { OnOk result (HaveMore ((mono, (derivative_of triple.0, triple.1, triple.2)) ∷ []) buckets.old.items buckets.new.items) }
{
    match place_of(buckets.as_slice(), &mono) {
        Ok(place) => push_at(buckets, place, triple),
        Err(place) => insert_at(buckets, alloc, place, mono, triple),
    }
}

/// Puts a triple behind those of a bucket.
fn push_at(
    buckets: &mut Vec<Bucket>,
    place: usize,
    triple: (Der, Mono, Whole),
) -> Result<(), NoMemory>
    requires within { place < length buckets.old.items }
    requires sorted { IsStrictlySortedBy monomial_cmp (monomials_of buckets.old.items) }
    ensures { OnOk result ((μ : Monomial) → IsFound monomial_cmp μ (monomials_of buckets.old.items) place
        → HaveMore ((μ, (derivative_of triple.0, triple.1, triple.2)) ∷ []) buckets.old.items buckets.new.items) }
{
    buckets[place].triples.push(triple)?;
    Ok(())
}

/// Puts a new bucket at a place.
fn insert_at(
    buckets: &mut Vec<Bucket>,
    alloc: Global,
    place: usize,
    mono: Mono,
    triple: (Der, Mono, Whole),
) -> Result<(), NoMemory>
    requires sorted { IsStrictlySortedBy monomial_cmp (monomials_of buckets.old.items) }
    requires place { IsInsertionPoint monomial_cmp mono (monomials_of buckets.old.items) place }
    ensures { OnOk result (HaveMore ((mono, (derivative_of triple.0, triple.1, triple.2)) ∷ []) buckets.old.items buckets.new.items) }
{
    let mut triples = Vec::new(alloc);
    triples.push(triple)?;
    buckets.insert(place, Bucket { mono, triples })?;
    Ok(())
}
