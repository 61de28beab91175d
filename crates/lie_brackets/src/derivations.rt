// A derivation applied to a polynomial: the terms of the result, collected in a list and not yet added up.
ghost use Rattle.std.specs.Prelude.{◌≡◌, ◌<◌, ◌++◌, ◌∷◌, [], ℤ, ◌*ℤ◌, pos, unsigned_abs, length, IfOk, IfErr, OnOk};
ghost use Rattle.std.specs.List.{AllByRecursion as Every};
ghost use Rattle.lie_math.specs.Derivation.{derivation, is_below};
ghost use Rattle.lie_math.specs.FiniteSum.{IsCanonical};
ghost use Rattle.lie_math.specs.Limits.{absolute};
ghost use Rattle.lie_math.specs.Monomial.{◌·◌};
ghost use Rattle.lie_math.specs.PartialDerivative.{lower};
ghost use Rattle.lie_math.specs.Polynomial.{terms as terms_shape, term as term_of, constant, ◌+ᴾ◌, ◌*ᴾ◌};
ghost use Rattle.lie_math.specs.Variables.{IsIn};
ghost use Rattle.lie_math.specs.VectorField.{component};
ghost use Rattle.lie_ring.specs.Causes.{IsCause};
ghost use Rattle.lie_ring.specs.Numbers.{IsExact};
ghost use Rattle.lie_jet.specs.Listed.{sum_listed, bulk_listed, HasVariablesBelow};
ghost use Rattle.lie_brackets.specs.FieldTerms.{field_of_terms, AreInOrder};

use lie_ring::{Mono, PastKind, PolyFail, Ring, Whole};
use std::alloc::Global;

/// Puts the terms of the derivation with these values at the variables, of a polynomial times a sign, behind others.
pub fn push_derivation(
    made: &mut Vec<(Mono, Whole)>,
    alloc: Global,
    values: &[Vec<(Mono, Whole)>],
    terms: &[(Mono, Whole)],
    sign: Whole,
) -> Result<(), PolyFail>
    requires values { AreInOrder values.now }
    requires terms { IsCanonical terms_shape terms.now }
    requires low { IsIn (is_below (length values.now)) (sum_listed terms.now) }
    requires unit { unsigned_abs sign ≡ 1 }
    ensures sum { OnOk result (sum_listed made.new.items ≡ sum_listed made.old.items
        +ᴾ constant sign *ᴾ derivation (component (field_of_terms values.now)) (sum_listed terms.now)) }
    ensures bulk { OnOk result (bulk_listed made.new.items ≡ bulk_listed made.old.items
        +ᴾ derivation (λ w. absolute (component (field_of_terms values.now) w)) (absolute (sum_listed terms.now))) }
    ensures past { IfErr result (λ fail. IsCause fail
        (derivation (λ w. absolute (component (field_of_terms values.now) w)) (absolute (sum_listed terms.now)))) }
{
    for term in terms {
        let number = signed(term.1, sign);
        push_derived(made, alloc, values, &term.0, number)?;
    }
    Ok(())
}

/// The number times a sign.
fn signed(number: Whole, sign: Whole) -> Whole
    requires { unsigned_abs sign ≡ 1 }
    ensures { result ≡ number *ℤ sign }
{
    match number.mul(&sign) {
        Some(product) => product,
        None => unreachable!(),
    }
}

/// Puts the terms of the derivation of a term behind others.
fn push_derived(
    made: &mut Vec<(Mono, Whole)>,
    alloc: Global,
    values: &[Vec<(Mono, Whole)>],
    mono: &Mono,
    number: Whole,
) -> Result<(), PolyFail>
    requires values { AreInOrder values.now }
    requires low { HasVariablesBelow (length values.now) mono.now }
    requires not_zero { ¬ (number ≡ pos 0) }
    ensures sum { OnOk result (sum_listed made.new.items ≡ sum_listed made.old.items
        +ᴾ derivation (component (field_of_terms values.now)) (term_of mono.now number)) }
    ensures bulk { OnOk result (bulk_listed made.new.items ≡ bulk_listed made.old.items
        +ᴾ derivation (λ w. absolute (component (field_of_terms values.now) w)) (term_of mono.now (pos (unsigned_abs number)))) }
    ensures past { IfErr result (λ fail. IsCause fail
        (derivation (λ w. absolute (component (field_of_terms values.now) w)) (term_of mono.now (pos (unsigned_abs number))))) }
{
    for (var, exponent) in mono.pairs() {
        let value = values[*var as usize].as_slice();
        push_power(made, alloc, value, mono, number, *var, *exponent)?;
    }
    Ok(())
}

/// Puts what the derivative of one power of a term gives behind others: its product with the value at the variable.
fn push_power(
    made: &mut Vec<(Mono, Whole)>,
    alloc: Global,
    value: &[(Mono, Whole)],
    mono: &Mono,
    number: Whole,
    var: u32,
    exponent: u32,
) -> Result<(), PolyFail>
    requires value { IsCanonical terms_shape value.now }
    requires positive { 0 < exponent }
    requires not_zero { ¬ (number ≡ pos 0) }
    ensures sum { OnOk result (sum_listed made.new.items ≡ sum_listed made.old.items
        +ᴾ sum_listed value.now *ᴾ term_of (lower var mono.now) (number *ℤ pos exponent)) }
    ensures bulk { OnOk result (bulk_listed made.new.items ≡ bulk_listed made.old.items
        +ᴾ bulk_listed value.now *ᴾ term_of (lower var mono.now) (pos (unsigned_abs number) *ℤ pos exponent)) }
    ensures past { IfErr result (λ fail. IsCause fail
        (bulk_listed value.now *ᴾ term_of (lower var mono.now) (pos (unsigned_abs number) *ℤ pos exponent))) }
{
    if value.len() == 0 {
        return Ok(());
    }
    let derived = match repeated(number, exponent) {
        Some(derived) => derived,
        None => return Err(PolyFail::Past(PastKind::Coefficient)),
    };
    let rest = mono.lowered(alloc, var)?;
    push_products(made, alloc, value, &rest, derived)
}

/// The number, a number of times; None exactly where that is too wide.
fn repeated(number: Whole, times: u32) -> Option<Whole>
    ensures { IsExact (λ z. z) result (number *ℤ pos times) }
{
    match Whole::new(i128::from(times)) {
        Some(times) => number.mul(&times),
        None => unreachable!(),
    }
}

/// Puts the products of terms with one term behind others.
fn push_products(
    made: &mut Vec<(Mono, Whole)>,
    alloc: Global,
    terms: &[(Mono, Whole)],
    mono: &Mono,
    number: Whole,
) -> Result<(), PolyFail>
    requires terms { IsCanonical terms_shape terms.now }
    requires not_zero { ¬ (number ≡ pos 0) }
    ensures sum { OnOk result (sum_listed made.new.items ≡ sum_listed made.old.items
        +ᴾ sum_listed terms.now *ᴾ term_of mono.now number) }
    ensures bulk { OnOk result (bulk_listed made.new.items ≡ bulk_listed made.old.items
        +ᴾ bulk_listed terms.now *ᴾ term_of mono.now (pos (unsigned_abs number))) }
    ensures past { IfErr result (λ fail. IsCause fail (bulk_listed terms.now *ᴾ term_of mono.now (pos (unsigned_abs number)))) }
{
    for term in terms {
        push_product(made, alloc, term, mono, number)?;
    }
    Ok(())
}

/// Puts the product of two terms behind others.
fn push_product(
    made: &mut Vec<(Mono, Whole)>,
    alloc: Global,
    term: &(Mono, Whole),
    mono: &Mono,
    number: Whole,
) -> Result<(), PolyFail>
    requires left { ¬ (term.now.1 ≡ pos 0) }
    requires right { ¬ (number ≡ pos 0) }
    ensures pushed { OnOk result (made.new.items ≡ made.old.items ++ (term.now.0 · mono.now, term.now.1 *ℤ number) ∷ []) }
    ensures past { IfErr result (λ fail. IsCause fail
        (term_of (term.now.0 · mono.now) (pos (unsigned_abs (term.now.1 *ℤ number))))) }
{
    let product = match term.1.mul(&number) {
        Some(product) => product,
        None => return Err(PolyFail::Past(PastKind::Coefficient)),
    };
    let mono = term.0.times(alloc, mono)?;
    made.push((mono, product))?;
    Ok(())
}
