// The total derivative of a polynomial.
ghost use Rattle.std.specs.Prelude.{◌≡◌, ◌<◌, ◌++◌, ◌∷◌, [], ℤ, ◌*ℤ◌, pos, unsigned_abs, IfOk, IfErr, OnOk};
ghost use Rattle.lie_math.specs.Derivation.{is_below};
ghost use Rattle.lie_math.specs.Limits.{IsWithinLimits, absolute};
ghost use Rattle.lie_math.specs.PartialDerivative.{lower};
ghost use Rattle.lie_math.specs.Monomial.{◌·◌};
ghost use Rattle.lie_math.specs.Polynomial.{term as term_of, variable, ◌+ᴾ◌, ◌*ᴾ◌};
ghost use Rattle.lie_math.specs.Variables.{IsIn};
ghost use Rattle.lie_geometry.specs.Coordinates.{coordinates_up_to};
ghost use Rattle.lie_geometry.specs.Prolongation.{total_derivative};
ghost use Rattle.lie_ring.specs.Causes.{IsCause};
ghost use Rattle.lie_ring.specs.Numbers.{IsExact};
ghost use Rattle.lie_jet.specs.Jets.{IsSmall};
ghost use Rattle.lie_jet.specs.Listed.{sum_listed, bulk_listed, HasVariablesBelow};

use crate::slopes::slope_of;
use crate::space::{Space, space_is_small};
use lie_poly::Flat;
use lie_ring::{Mono, PastKind, PolyFail, Polynomial, Ring, Whole};
use std::alloc::Global;

/// A polynomial whose variables are numbers of coordinates.
pub type JetPoly = Flat<Whole>;

/// The total derivative by the independent variable `i`, which lies below p: the derivative by the variable itself, and by each
/// jet that occurs, times the jet derived once more. The polynomial has jets of order at most 11.
///
/// `Past` comes exactly where the total derivative of the absolute values of the coefficients is past a limit.
pub fn total(alloc: Global, space: Space, i: u8, p: &JetPoly) -> Result<JetPoly, PolyFail>
    requires within { i < space.p }
    requires low { IsIn (is_below (coordinates_up_to space 11)) p.now }
    ensures total { IfOk result (λ d. d ≡ total_derivative space i p.now) }
    ensures fits { OnOk result (IsWithinLimits (total_derivative space i (absolute p.now))) }
    ensures past { IfErr result (λ fail. IsCause fail (total_derivative space i (absolute p.now))) }
{
    space_is_small(space);
    let terms = p.terms(alloc)?;
    let mut made = Vec::new(alloc);
    for term in &terms {
        push_total(&mut made, alloc, space, i, term)?;
    }
    JetPoly::of_terms(alloc, made.as_slice())
}

/// Puts the terms of the total derivative of a term behind others.
fn push_total(
    made: &mut Vec<(Mono, Whole)>,
    alloc: Global,
    space: Space,
    i: u8,
    term: &(Mono, Whole),
) -> Result<(), PolyFail>
    requires small { IsSmall space }
    requires within { i < space.p }
    requires low { HasVariablesBelow (coordinates_up_to space 11) term.now.0 }
    requires not_zero { ¬ (term.now.1 ≡ pos 0) }
    ensures sum { OnOk result (sum_listed made.new.items ≡ sum_listed made.old.items +ᴾ total_derivative space i
        (term_of term.now.0 term.now.1)) }
    ensures bulk { OnOk result (bulk_listed made.new.items ≡ bulk_listed made.old.items +ᴾ total_derivative space i
        (term_of term.now.0 (pos (unsigned_abs term.now.1)))) }
    ensures past { IfErr result (λ fail. IsCause fail (total_derivative space i (term_of term.now.0 (pos (unsigned_abs term.now.1))))) }
{
    for (var, exponent) in term.0.pairs() {
        push_power(made, alloc, space, i, term, *var, *exponent)?;
    }
    Ok(())
}

/// Puts what the derivative of one power of the term gives behind others.
fn push_power(
    made: &mut Vec<(Mono, Whole)>,
    alloc: Global,
    space: Space,
    i: u8,
    term: &(Mono, Whole),
    var: u32,
    exponent: u32,
) -> Result<(), PolyFail>
    requires within { i < space.p }
    requires low { var < coordinates_up_to space 11 }
    requires positive { 0 < exponent }
    requires not_zero { ¬ (term.now.1 ≡ pos 0) }
    ensures sum { OnOk result (sum_listed made.new.items ≡ sum_listed made.old.items +ᴾ total_derivative space i
        (variable var) *ᴾ term_of (lower var term.now.0) (term.now.1 *ℤ pos exponent)) }
    ensures bulk { OnOk result (bulk_listed made.new.items ≡ bulk_listed made.old.items +ᴾ total_derivative space i
        (variable var) *ᴾ term_of (lower var term.now.0) (pos (unsigned_abs term.now.1) *ℤ pos exponent)) }
    ensures past { IfErr result (λ fail. IsCause fail (total_derivative space i (variable var) *ᴾ term_of (lower var term.now.0)
        (pos (unsigned_abs term.now.1) *ℤ pos exponent))) }
{
    let slope = match slope_of(alloc, space, i, var) {
        Some(slope) => slope,
        None => return Ok(()),
    };
    let rest = term.0.lowered(alloc, var)?;
    push_product(made, alloc, &rest, &slope, term.1, exponent)
}

/// Puts the product of two monomials, with a coefficient taken a number of times, behind others.
fn push_product(
    made: &mut Vec<(Mono, Whole)>,
    alloc: Global,
    left: &Mono,
    right: &Mono,
    c: Whole,
    times: u32,
) -> Result<(), PolyFail>
    requires positive { 0 < times }
    requires not_zero { ¬ (c ≡ pos 0) }
    ensures pushed { OnOk result (made.new.items ≡ made.old.items ++ (left.now · right.now, c *ℤ pos times) ∷ []) }
    ensures past { IfErr result (λ fail. IsCause fail (term_of (left.now · right.now) (pos (unsigned_abs c) *ℤ pos times))) }
{
    let coefficient = match repeated(c, times) {
        Some(coefficient) => coefficient,
        None => return Err(PolyFail::Past(PastKind::Coefficient)),
    };
    let mono = left.times(alloc, right)?;
    made.push((mono, coefficient))?;
    Ok(())
}

/// The number, a number of times; None exactly where that is too wide.
fn repeated(c: Whole, times: u32) -> Option<Whole>
    ensures { IsExact (λ z. z) result (c *ℤ pos times) }
{
    match Whole::new(i128::from(times)) {
        Some(times) => c.mul(&times),
        None => unreachable!(),
    }
}
