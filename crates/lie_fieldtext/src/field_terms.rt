// Terms of a field, with their least common denominator and the sums of the absolute values of like ones.
ghost use Rattle.std.specs.Prelude.{◌≡◌, ◌+◌, ◌*◌, ◌≤◌, ◌<◌, ◌^◌, List, [], ◌∷◌, ◌++◌, IfOk, Some, None, if◌then◌else◌, nat_lt, option_map};
ghost use Rattle.std.specs.List.{AllByRecursion as Every};
ghost use Rattle.std.proofs.Props.{props};
ghost use Rattle.lie_fieldtext.specs.declared.field_term.FieldTerm.{FieldTerm as ATerm};
ghost use Rattle.lie_fieldtext.specs.FieldMeaning.{common_multiple, amount_over};
ghost use Rattle.lie_scan.specs.Sizes.{size_in};
ghost use Rattle.lie_fieldtext.specs.FieldReading.{with_field_term};
ghost use Rattle.lie_fieldtext.specs.FieldAnswers.{AreGathered, IsSized, IsPut, HasDenominator};

use crate::field_term::FieldTerm;
use crate::fraction::common_divisor;
use lie_bytes::NoMemory;
use lie_ring::{Mono, Ring};
use lie_scan::terms::{grown, with_size};
use std::alloc::Global;
use std::collections::BTreeMap;

/// The sums of the absolute values of like terms over a denominator, by the place and the pairs of the monomial.
pub type Sizes = BTreeMap<Vec<(u32, u32)>, u128>;

/// Terms, their least common denominator, and the sums of the absolute values of like ones over it.
#[derive(Drop)]
pub struct FieldTerms {
    pub list: Vec<FieldTerm>,
    pub denominator: u128,
    pub sizes: Sizes,
    ghost gathered: { AreGathered list.items denominator sizes } by { Prim.hlevel props },
}

// The product of two numbers, up to 2^127 - 1.
fn product(number: u128, factor: u128) -> Option<u128>
    ensures { result ≡ (if nat_lt (number * factor) (2 ^ 127) then Some (number * factor) else None) }
{
    let product = number.checked_mul(factor)?;
    if product <= i128::MAX as u128 {
        Some(product)
    } else {
        None
    }
}

// The least common multiple, up to 2^127 - 1.
fn common_multiple(number: u128, other: u128) -> Option<u128>
    requires { 1 ≤ other }
    ensures { result ≡ (if nat_lt (common_multiple number other) (2 ^ 127) then Some (common_multiple number other) else None) }
{
    product(number, other / common_divisor(number, other))
}

// A size and the absolute value of a term over a denominator, up to 2^127 - 1.
fn grown_by(size: u128, denominator: u128, term: &FieldTerm) -> Option<u128>
    requires { HasDenominator term.now }
    ensures { result ≡ (if nat_lt (size + amount_over denominator term.now) (2 ^ 127)
        then Some (size + amount_over denominator term.now) else None) }
{
    match product(term.number.size(), denominator / term.over) {
        Some(amount) => grown(size, amount),
        None => None,
    }
}

// The sum of the absolute values of the terms with a key.
fn size_at(sizes: &Sizes, key: &Vec<(u32, u32)>) -> u128
    ensures { result ≡ size_in sizes.now key.now }
{
    sizes.get(key).copied().unwrap_or(0)
}

// The key of the terms like one.
fn key_of(alloc: Global, place: u8, monomial: &Mono) -> Result<Vec<(u32, u32)>, NoMemory>
    ensures { IfOk result (λ key. key.items ≡ (place, 0) ∷ monomial.now.list) }
{
    let mut key: Vec<(u32, u32)> = Vec::new(alloc);
    key.push((u32::from(place), 0))?;
    key.extend_from_slice(monomial.pairs())?;
    Ok(key)
}

// The sizes with a total at a key, where there is one.
fn put_total(
    sizes: Sizes,
    key: Vec<(u32, u32)>,
    total: Option<u128>,
) -> Result<Option<Sizes>, NoMemory>
    ensures { IfOk result (IsPut sizes key total) }
{
    match total {
        Some(total) => {
            let more = with_size(sizes, key, total)?;
            Ok(Some(more))
        }
        None => Ok(None),
    }
}

// The sizes with one more term; None where its like terms sum to more than 2^127 - 1.
fn with_term_size(
    alloc: Global,
    sizes: Sizes,
    denominator: u128,
    term: &FieldTerm,
) -> Result<Option<Sizes>, NoMemory>
    requires { HasDenominator term.now }
    ensures { IfOk result (λ o. (ts : List ATerm) → IsSized denominator ts (Some sizes) → IsSized denominator (ts ++ term.now ∷ []) o) }
{
    let key = key_of(alloc, term.place, &term.monomial)?;
    let total = grown_by(size_at(&sizes, &key), denominator, term);
    put_total(sizes, key, total)
}

// The sizes of terms over a denominator; None where like terms sum to more than 2^127 - 1.
fn sizes_of(
    alloc: Global,
    denominator: u128,
    terms: &[FieldTerm],
) -> Result<Option<Sizes>, NoMemory>
    requires { Every HasDenominator terms.now }
    ensures { IfOk result (IsSized denominator terms.now) }
{
    let mut sizes: Sizes = BTreeMap::new(alloc);
    for term in terms {
        match with_term_size(alloc, sizes, denominator, term)? {
            Some(more) => sizes = more,
            None => return Ok(None),
        }
    }
    Ok(Some(sizes))
}

// The sizes over a denominator that may have grown. Where it has, it at least doubled, and they are made anew.
fn sizes_over(
    alloc: Global,
    sizes: Sizes,
    denominator: u128,
    common: u128,
    terms: &[FieldTerm],
) -> Result<Option<Sizes>, NoMemory>
    requires denominators { Every HasDenominator terms.now }
    requires sized { IsSized denominator terms.now (Some sizes) }
    ensures { IfOk result (IsSized common terms.now) }
{
    if common == denominator {
        Ok(Some(sizes))
    } else {
        sizes_of(alloc, common, terms)
    }
}

// The sizes with one more term, over a denominator that may have grown.
fn with_sizes(
    alloc: Global,
    sizes: Sizes,
    denominator: u128,
    common: u128,
    terms: &[FieldTerm],
    term: &FieldTerm,
) -> Result<Option<Sizes>, NoMemory>
    requires denominators { Every HasDenominator terms.now }
    requires further { HasDenominator term.now }
    requires sized { IsSized denominator terms.now (Some sizes) }
    ensures { IfOk result (IsSized common (terms.now ++ term.now ∷ [])) }
{
    match sizes_over(alloc, sizes, denominator, common, terms)? {
        Some(begun) => with_term_size(alloc, begun, common, term),
        None => Ok(None),
    }
}

// The list with one more term.
fn with_last(list: Vec<FieldTerm>, term: FieldTerm) -> Result<Vec<FieldTerm>, NoMemory>
    ensures { IfOk result (λ new. new.items ≡ list.items ++ term ∷ []) }
{
    let mut list = list;
    list.push(term)?;
    Ok(list)
}

impl FieldTerms {
    /// No terms.
    pub fn new(alloc: Global) -> FieldTerms
        ensures { result.list.items ≡ [] }
    {
        FieldTerms {
            list: Vec::new(alloc),
            denominator: 1,
            sizes: BTreeMap::new(alloc),
        }
    }

    /// The terms and one more; None where the least common denominator, or a sum over it, is past 2^127 - 1.
    pub fn with_term(self, alloc: Global, term: FieldTerm) -> Result<Option<FieldTerms>, NoMemory>
        requires { HasDenominator term }
        ensures { IfOk result (λ terms. option_map (λ t. t.list.items) terms ≡ with_field_term self.list.items term) }
    {
        let FieldTerms {
            list,
            denominator,
            sizes,
        } = self;
        let Some(common) = common_multiple(denominator, term.over) else {
            return Ok(None);
        };
        match with_sizes(alloc, sizes, denominator, common, list.as_slice(), &term)? {
            Some(sizes) => {
                let list = with_last(list, term)?;
                Ok(Some(FieldTerms {
                    list,
                    denominator: common,
                    sizes,
                }))
            }
            None => Ok(None),
        }
    }
}
