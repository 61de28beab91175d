// A polynomial as the list of its terms.
ghost use Rattle.std.specs.Prelude.{◌≡◌, ◌++◌, ◌∷◌, [], length, reverse, pos, unsigned_abs, IfOk, IfErr, IfSome, OnOk};
ghost use Rattle.lie_math.specs.Polynomial.{polynomial_of, constant, ◌+ᴾ◌, ◌*ᴾ◌};
ghost use Rattle.lie_math.specs.Limits.{IsWithinLimits, absolutes};
ghost use Rattle.lie_ring.specs.Causes.{IsCause};
ghost use Rattle.lie_ring.specs.Entries.{entries};
ghost use Rattle.lie_poly.specs.Sorted.{IsSorted};
ghost use Rattle.lie_poly.specs.Tallies.{sum_of, IsTallied, Tells};

use crate::addition::add_terms;
use crate::derivative::derive_terms;
use crate::packing::packed_product;
use crate::product::{multiply, times_term};
use crate::sum::tally_terms;
use crate::tally::{Tally, settle};
use lie_bytes::NoMemory;
use lie_ring::{Mono, PolyFail, Polynomial, Ring};
use std::alloc::Global;
use std::marker::Model;

/// A polynomial: its terms in print order, with distinct monomials and no zero.
#[derive(Drop)]
pub struct Flat<C: Ring> {
    terms: Vec<(Mono, C)>,
}

impl<C: Ring> Model for Flat<C> {
    ghost use Rattle.lie_math.specs.Polynomial.{WholePolynomial, polynomial_of};
    ghost use Rattle.lie_math.specs.PolynomialRing.{polynomial_code};

    ghost Value = { WholePolynomial };

    ghost coded = { polynomial_code };

    ghost use Rattle.lie_ring.specs.Entries.{entries};
    ghost use Rattle.lie_poly.specs.Sorted.{IsSorted};

    ghost view = { λ a. polynomial_of (entries C.value a.terms.items) };

    ghost invariant = { λ a. IsSorted (entries C.value a.terms.items) };
}

impl<C: Ring> Flat<C> {
    /// The number of terms. Like its coefficients and exponents it is within the limits.
    pub fn len(&self) -> usize
        ensures count { result ≡ length self.now.list }
        ensures limits { IsWithinLimits self.now }
    {
        self.terms.len()
    }

    /// A polynomial is within the limits, which becomes known where this is called.
    pub fn is_within_limits(&self)
        ensures { IsWithinLimits self.now }
    {
        let _ = self.len();
    }
}

impl<C: Ring> Polynomial<C> for Flat<C> {
    ghost poly = { λ p. p };

    fn zero(alloc: Global) -> Flat<C> {
        Flat {
            terms: Vec::new(alloc),
        }
    }

    fn of_terms(alloc: Global, terms: &[(Mono, C)]) -> Result<Flat<C>, PolyFail> {
        let tallies = tally_terms(alloc, terms)?;
        Ok(settled(alloc, tallies)?)
    }

    fn add(&self, alloc: Global, other: &Flat<C>) -> Result<Flat<C>, PolyFail> {
        sum(alloc, self.terms.as_slice(), other.terms.as_slice())
    }

    fn mul(&self, alloc: Global, other: &Flat<C>) -> Result<Flat<C>, PolyFail> {
        product(alloc, self.terms.as_slice(), other.terms.as_slice())
    }

    fn scale(&self, alloc: Global, c: &C) -> Result<Flat<C>, PolyFail> {
        let tallies = times_number(alloc, c, self.terms.as_slice())?;
        Ok(settled(alloc, tallies)?)
    }

    fn derive(&self, alloc: Global, var: u32) -> Result<Flat<C>, PolyFail> {
        let terms = derive_terms(alloc, self.terms.as_slice(), var)?;
        Ok(Flat { terms })
    }

    fn terms(&self, alloc: Global) -> Result<Vec<(Mono, C)>, NoMemory> {
        copy_terms(alloc, self.terms.as_slice())
    }

    fn copy(&self, alloc: Global) -> Result<Flat<C>, NoMemory> {
        let terms = copy_terms(alloc, self.terms.as_slice())?;
        Ok(Flat { terms })
    }
}

/// The polynomial that tallies tell.
fn settled<C: Ring>(alloc: Global, tallies: Vec<Tally<C>>) -> Result<Flat<C>, NoMemory>
    requires { IsTallied C.value (reverse tallies.items) }
    ensures { IfOk result (λ flat. flat ≡ sum_of C.value (reverse tallies.items)) }
{
    let terms = settle(alloc, tallies)?;
    Ok(Flat { terms })
}

/// The product of two lists of terms, the right one in print order.
fn product<C: Ring>(
    alloc: Global,
    left: &[(Mono, C)],
    right: &[(Mono, C)],
) -> Result<Flat<C>, PolyFail>
    requires { IsSorted (entries C.value right.now) }
    ensures product { IfOk result (λ flat. flat ≡ polynomial_of (entries C.value left.now) *ᴾ polynomial_of (entries C.value right.now)) }
    ensures fits { OnOk result (IsWithinLimits
        (polynomial_of (absolutes (entries C.value left.now)) *ᴾ polynomial_of (absolutes (entries C.value right.now)))) }
    ensures past { IfErr result (λ fail. IsCause fail
        (polynomial_of (absolutes (entries C.value left.now)) *ᴾ polynomial_of (absolutes (entries C.value right.now)))) }
{
    match product_by_words(alloc, left, right) {
        Some(flat) => Ok(flat),
        None => product_by_rows(alloc, left, right),
    }
}

/// The product, where its monomials are packed.
fn product_by_words<C: Ring>(
    alloc: Global,
    left: &[(Mono, C)],
    right: &[(Mono, C)],
) -> Option<Flat<C>>
    requires { IsSorted (entries C.value right.now) }
    ensures product { IfSome result (λ flat. flat ≡ polynomial_of (entries C.value left.now) *ᴾ polynomial_of (entries C.value right.now)) }
    ensures fits { IfSome result (λ _. IsWithinLimits
        (polynomial_of (absolutes (entries C.value left.now)) *ᴾ polynomial_of (absolutes (entries C.value right.now)))) }
{
    let terms = packed_product(alloc, left, right)?;
    Some(Flat { terms })
}

/// The product, row by row.
fn product_by_rows<C: Ring>(
    alloc: Global,
    left: &[(Mono, C)],
    right: &[(Mono, C)],
) -> Result<Flat<C>, PolyFail>
    requires { IsSorted (entries C.value right.now) }
    ensures product { IfOk result (λ flat. flat ≡ polynomial_of (entries C.value left.now) *ᴾ polynomial_of (entries C.value right.now)) }
    ensures fits { OnOk result (IsWithinLimits
        (polynomial_of (absolutes (entries C.value left.now)) *ᴾ polynomial_of (absolutes (entries C.value right.now)))) }
    ensures past { IfErr result (λ fail. IsCause fail
        (polynomial_of (absolutes (entries C.value left.now)) *ᴾ polynomial_of (absolutes (entries C.value right.now)))) }
{
    let tallies = multiply(alloc, left, right)?;
    Ok(settled(alloc, tallies)?)
}

/// The sum of two lists of terms in print order.
fn sum<C: Ring>(alloc: Global, left: &[(Mono, C)], right: &[(Mono, C)]) -> Result<Flat<C>, PolyFail>
    requires left_sorted { IsSorted (entries C.value left.now) }
    requires right_sorted { IsSorted (entries C.value right.now) }
    ensures sum { IfOk result (λ flat. flat ≡ polynomial_of (entries C.value left.now) +ᴾ polynomial_of (entries C.value right.now)) }
    ensures fits { OnOk result (IsWithinLimits
        (polynomial_of (absolutes (entries C.value left.now)) +ᴾ polynomial_of (absolutes (entries C.value right.now)))) }
    ensures past { IfErr result (λ fail. IsCause fail
        (polynomial_of (absolutes (entries C.value left.now)) +ᴾ polynomial_of (absolutes (entries C.value right.now)))) }
{
    let terms = add_terms(alloc, left, right)?;
    Ok(Flat { terms })
}

/// A number times sorted terms.
fn times_number<C: Ring>(
    alloc: Global,
    c: &C,
    terms: &[(Mono, C)],
) -> Result<Vec<Tally<C>>, PolyFail>
    requires { IsSorted (entries C.value terms.now) }
    ensures product { IfOk result (λ v. Tells C.value (reverse v.items)
        (constant (C.value c.now) *ᴾ polynomial_of (entries C.value terms.now))
        (constant (pos (unsigned_abs (C.value c.now))) *ᴾ polynomial_of (absolutes (entries C.value terms.now)))) }
    ensures past { IfErr result (λ fail. IsCause fail
        (constant (pos (unsigned_abs (C.value c.now))) *ᴾ polynomial_of (absolutes (entries C.value terms.now)))) }
{
    let one = Mono::one(alloc);
    times_term(alloc, &one, c, terms)
}

/// The same terms.
fn copy_terms<C: Ring>(alloc: Global, terms: &[(Mono, C)]) -> Result<Vec<(Mono, C)>, NoMemory>
    ensures { IfOk result (λ v. entries C.value v.items ≡ entries C.value terms.now) }
{
    let mut out = Vec::new(alloc);
    for term in terms {
        push_copy(&mut out, alloc, term)?;
    }
    Ok(out)
}

/// Puts an equal term behind others.
fn push_copy<C: Ring>(
    out: &mut Vec<(Mono, C)>,
    alloc: Global,
    term: &(Mono, C),
) -> Result<(), NoMemory>
    ensures { OnOk result (entries C.value out.new.items ≡ entries C.value out.old.items ++ (term.now.0, C.value term.now.1) ∷ []) }
{
    let mono = term.0.copy(alloc)?;
    let c = term.1.copy();
    out.push((mono, c))?;
    Ok(())
}
