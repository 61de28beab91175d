// Linear forms in derivatives of unknown functions.
ghost use Rattle.std.specs.Prelude.{◌≡◌, ◌<◌, ◌≤◌, ◌↔◌, ◌++◌, length, take, drop, ◌∷◌, [], IsTrue, IfErr, IfOk, OnOk};
ghost use Rattle.lie_math.specs.FiniteSum as finite;
ghost use Rattle.lie_math.specs.Limits.{absolute, IsWithinLimits as IsPolynomialWithinLimits};
ghost use Rattle.lie_math.specs.LinearForm.{forms, no_form, ◌+ᶠ◌, form_term, each_coefficient};
ghost use Rattle.lie_math.specs.Polynomial.{WholePolynomial, ◌+ᴾ◌};
ghost use Rattle.lie_math.specs.SortedSum.{add_at, put_new};
ghost use Rattle.lie_systems.specs.Bulk.{IsFormWithinLimits};
ghost use Rattle.lie_ring.specs.Causes.{IsCause};
ghost use Rattle.lie_poly.specs.Failures.{IsStarved};
ghost use Rattle.lie_jet.specs.Derivatives.{derivative_of};
ghost use Rattle.lie_form.specs.FormLimits.{IsFormCause};
ghost use Rattle.lie_form.specs.DerivativeTerms.{derivative_terms, GoesTo, GoesNoFurther, IsFirst, IsReplaced, HoldsAt};
ghost use Rattle.lie_math.specs.FiniteSum.{IsCanonical};

use lie_jet::{Der, JetPoly, absolute_polynomial, compare_derivatives, order_of_derivative};
use lie_ring::{PastKind, PolyFail, Polynomial};
use std::alloc::Global;
use std::cmp::Ordering;
use std::marker::Model;

/// The greatest number of triples of a form.
const MAX_TRIPLES: u128 = 1_000_000;

/// The greatest order of a derivative of an unknown.
const MAX_ORDER: u32 = 64;

/// A linear form: distinct derivatives in printed order, each with a coefficient that is not 0.
#[derive(Drop)]
pub struct SymForm {
    terms: Vec<(Der, JetPoly)>,
}

impl Model for SymForm {
    ghost use Rattle.lie_math.specs.LinearForm.{LinearForm, forms};
    ghost use Rattle.lie_math.specs.Codes.{form_code};
    ghost use Rattle.lie_math.specs.FiniteSum as finite;
    ghost use Rattle.lie_math.specs.FiniteSum.{IsCanonical};

    ghost Value = { LinearForm };

    ghost coded = { form_code };

    ghost use Rattle.lie_form.specs.DerivativeTerms.{derivative_terms};

    ghost view = { λ f. finite.of forms (derivative_terms f.terms.items) };

    ghost invariant = { λ f. IsCanonical forms (derivative_terms f.terms.items) };
}

impl SymForm {
    /// The form without terms. It takes no memory.
    pub fn zero(alloc: Global) -> SymForm
        ensures { result ≡ no_form }
    {
        SymForm {
            terms: Vec::new(alloc),
        }
    }

    /// The derivatives with their coefficients, in printed order.
    pub fn terms(&self) -> &[(Der, JetPoly)]
        ensures { derivative_terms result.now ≡ self.now.list }
    {
        self.terms.as_slice()
    }

    /// The derivatives with their coefficients, moved out: it takes no memory.
    pub fn into_terms(self) -> Vec<(Der, JetPoly)>
        ensures { derivative_terms result.items ≡ self.list }
    {
        self.terms
    }

    /// Adds a polynomial times a derivative. After an error the form is as it was.
    pub fn put(&mut self, alloc: Global, der: Der, poly: JetPoly) -> Result<(), PolyFail>
        ensures sum { OnOk result (self.new ≡ self.old +ᶠ form_term (derivative_of der) poly) }
        ensures fits { OnOk result (IsPolynomialWithinLimits (absolute (finite.value forms self.old (derivative_of der))
            +ᴾ absolute poly)) }
        ensures past { IfErr result (λ fail. IsCause fail (absolute (finite.value forms self.old (derivative_of der)) +ᴾ absolute poly)) }
        ensures kept { IfErr result (λ _. self.new ≡ self.old) }
    {
        put_term(&mut self.terms, alloc, der, poly)
    }

    /// The form with the absolute values of the coefficients of its polynomials.
    pub fn absolute(&self, alloc: Global) -> Result<SymForm, PolyFail>
        ensures absolute { IfOk result (λ form. form ≡ each_coefficient absolute self.now) }
        ensures memory { IfErr result IsStarved }
    {
        let mut terms = Vec::new(alloc);
        for term in self.terms.as_slice() {
            push_absolute(&mut terms, alloc, term)?;
        }
        Ok(SymForm { terms })
    }

    /// Tells the limit that the form is past: an order above 64, or more than 1,000,000 triples of a derivative, a monomial and a
    /// number. Numbers and exponents are always within the limits.
    pub fn within_limits(&self) -> Result<(), PolyFail>
        ensures fits { OnOk result (IsFormWithinLimits self.now) }
        ensures past { IfErr result (λ fail. IsFormCause fail self.now) }
    {
        let mut count: u128 = 0;
        for term in self.terms.as_slice() {
            if order_of_derivative(&term.0) > MAX_ORDER {
                return Err(PolyFail::Past(PastKind::Order));
            }
            count += term.1.len() as u128;
        }
        if count > MAX_TRIPLES {
            return Err(PolyFail::Past(PastKind::Terms));
        }
        Ok(())
    }
}

/// Puts a derivative with the absolute values of its coefficient behind others.
fn push_absolute(
    terms: &mut Vec<(Der, JetPoly)>,
    alloc: Global,
    term: &(Der, JetPoly),
) -> Result<(), PolyFail>
    ensures pushed { OnOk result (terms.new.items ≡ terms.old.items ++ (term.now.0, absolute term.now.1) ∷ []) }
    ensures memory { IfErr result IsStarved }
{
    let absolute = absolute_polynomial(alloc, &term.1)?;
    terms.push((term.0, absolute))?;
    Ok(())
}

/// Adds a polynomial times a derivative to a list in printed order.
fn put_term(
    terms: &mut Vec<(Der, JetPoly)>,
    alloc: Global,
    der: Der,
    poly: JetPoly,
) -> Result<(), PolyFail>
    requires { IsCanonical forms (derivative_terms terms.old.items) }
    ensures items { OnOk result (derivative_terms terms.new.items ≡ add_at forms.order forms.values (derivative_of der) poly
        (derivative_terms terms.old.items)) }
    ensures fits { OnOk result (IsPolynomialWithinLimits (absolute (finite.value forms
        (finite.of forms (derivative_terms terms.old.items)) (derivative_of der)) +ᴾ absolute poly)) }
    ensures kept { IfErr result (λ _. terms.new.items ≡ terms.old.items) }
    ensures past { IfErr result (λ fail. IsCause fail (absolute (finite.value forms (finite.of forms (derivative_terms terms.old.items))
        (derivative_of der)) +ᴾ absolute poly)) }
{
    let place = place_of(terms.as_slice(), &der);
    if is_at(terms.as_slice(), place, &der) {
        return add_at_place(terms, alloc, place, &poly);
    }
    insert_term(terms, place, der, poly)
}

/// Adds a polynomial to the coefficient at a place.
fn add_at_place(
    terms: &mut Vec<(Der, JetPoly)>,
    alloc: Global,
    place: usize,
    poly: &JetPoly,
) -> Result<(), PolyFail>
    requires { place < length terms.old.items }
    ensures items { OnOk result (IsReplaced (derivative_terms terms.old.items) place (λ a. a +ᴾ poly.now)
        (derivative_terms terms.new.items)) }
    ensures fits { OnOk result (HoldsAt (derivative_terms terms.old.items) place
        (λ a. IsPolynomialWithinLimits (absolute a +ᴾ absolute poly.now))) }
    ensures kept { IfErr result (λ _. terms.new.items ≡ terms.old.items) }
    ensures past { IfErr result (λ fail. HoldsAt (derivative_terms terms.old.items) place
        (λ a. IsCause fail (absolute a +ᴾ absolute poly.now))) }
{
    let sum = terms[place].1.add(alloc, poly)?;
    put_coefficient(terms, place, sum);
    Ok(())
}

/// Puts a coefficient in the place of another, or takes the derivative away where it is 0.
fn put_coefficient(terms: &mut Vec<(Der, JetPoly)>, place: usize, coefficient: JetPoly)
    requires { place < length terms.old.items }
    ensures { IsReplaced (derivative_terms terms.old.items) place (λ _. coefficient) (derivative_terms terms.new.items) }
{
    if coefficient.len() == 0 {
        let _ = terms.remove(place);
    } else {
        terms[place].1 = coefficient;
    }
}

/// Puts a polynomial times a derivative at a place, unless it is 0.
fn insert_term(
    terms: &mut Vec<(Der, JetPoly)>,
    place: usize,
    der: Der,
    poly: JetPoly,
) -> Result<(), PolyFail>
    requires { place ≤ length terms.old.items }
    ensures items { OnOk result (derivative_terms terms.new.items ≡ take place (derivative_terms terms.old.items)
        ++ put_new forms.order forms.values (derivative_of der) poly (drop place (derivative_terms terms.old.items))) }
    ensures fits { IsPolynomialWithinLimits poly }
    ensures kept { IfErr result (λ _. terms.new.items ≡ terms.old.items) }
    ensures memory { IfErr result IsStarved }
{
    if poly.len() == 0 {
        return Ok(());
    }
    terms.insert(place, (der, poly))?;
    Ok(())
}

/// How many derivatives stand before the derivative, found by halving.
fn place_of(terms: &[(Der, JetPoly)], der: &Der) -> usize
    requires { IsCanonical forms (derivative_terms terms.now) }
    ensures inside { result ≤ length terms.now }
    ensures before { (a : WholePolynomial) → GoesTo (derivative_of der.now) a (derivative_terms terms.now) result }
    ensures stop { GoesNoFurther (derivative_of der.now) (drop result (derivative_terms terms.now)) }
{
    terms.partition_point(|term| compare_derivatives(der, &term.0).is_gt())
}

/// Whether the derivative stands at the place.
fn is_at(terms: &[(Der, JetPoly)], place: usize, der: &Der) -> bool
    ensures { IsTrue result ↔ IsFirst (derivative_of der.now) (drop place (derivative_terms terms.now)) }
{
    if place >= terms.len() {
        return false;
    }
    match compare_derivatives(der, &terms[place].0) {
        Ordering::Equal => true,
        _ => false,
    }
}
