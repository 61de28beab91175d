// The bracket of two fields.
ghost use Rattle.std.specs.Prelude.{◌≡◌, ◌+◌, ◌<◌, IfOk, IfErr, OnOk};
ghost use Rattle.lie_math.specs.Limits.{IsWithinLimits};
ghost use Rattle.lie_math.specs.VectorField.{component};
ghost use Rattle.lie_geometry.specs.Commutator.{commutator, commutator_component};
ghost use Rattle.lie_geometry.specs.Invariance.{IsFieldOn};
ghost use Rattle.lie_systems.specs.Works.{IsWorkWithin};
ghost use Rattle.lie_ring.specs.Causes.{IsCause};
ghost use Rattle.lie_brackets.specs.Bulks.{bracket_bulk, BracketMakes};
ghost use Rattle.lie_brackets.specs.Causes.{IsWorkCause};
ghost use Rattle.lie_brackets.specs.FieldTerms.{field_of_terms, AreTermsOn};

use crate::derivations::push_derivation;
use crate::field_terms::field_terms;
use lie_jet::{Field, JetPoly, Space, space_is_small};
use lie_ring::{Mono, PolyFail, Polynomial, Ring, Whole};
use std::alloc::Global;

/// The bracket of two fields, whose component at s is `v(w^s) - w(v^s)` (Olver, Applications of Lie Groups to Differential Equations,
/// section 1.3). Each field has a part for each of the p + q variables, in these variables alone, over 1.
///
/// `Past` comes exactly where a component is past a limit, made with absolute values and a plus in place of the minus.
pub fn bracket(alloc: Global, space: Space, v: &Field, w: &Field) -> Result<Field, PolyFail>
    requires v_whole { v.now.denominator ≡ 1 }
    requires w_whole { w.now.denominator ≡ 1 }
    requires v_field { IsFieldOn space v.now }
    requires w_field { IsFieldOn space w.now }
    ensures value { IfOk result (λ made. made ≡ commutator space v.now w.now) }
    ensures fits { OnOk result (IsWorkWithin (BracketMakes space v.now w.now)) }
    ensures past { IfErr result (λ fail. IsWorkCause fail (BracketMakes space v.now w.now)) }
{
    let v = field_terms(alloc, v)?;
    let w = field_terms(alloc, w)?;
    bracket_of_terms(alloc, space, v.as_slice(), w.as_slice())
}

/// The bracket of two fields that are given by the terms of their parts.
pub fn bracket_of_terms(
    alloc: Global,
    space: Space,
    v: &[Vec<(Mono, Whole)>],
    w: &[Vec<(Mono, Whole)>],
) -> Result<Field, PolyFail>
    requires v { AreTermsOn space v.now }
    requires w { AreTermsOn space w.now }
    ensures value { IfOk result (λ made. made ≡ commutator space (field_of_terms v.now) (field_of_terms w.now)) }
    ensures fits { OnOk result (IsWorkWithin (BracketMakes space (field_of_terms v.now) (field_of_terms w.now))) }
    ensures past { IfErr result (λ fail. IsWorkCause fail (BracketMakes space (field_of_terms v.now) (field_of_terms w.now))) }
{
    space_is_small(space);
    let mut parts = Vec::new(alloc);
    for s in 0..space.p + space.q {
        let part = bracket_part(alloc, space, v, w, s)?;
        parts.push(part)?;
    }
    Ok(Field::new(1, parts))
}

/// The component of the bracket at `s`.
fn bracket_part(
    alloc: Global,
    space: Space,
    v: &[Vec<(Mono, Whole)>],
    w: &[Vec<(Mono, Whole)>],
    s: u8,
) -> Result<JetPoly, PolyFail>
    requires v { AreTermsOn space v.now }
    requires w { AreTermsOn space w.now }
    requires inside { s < space.p + space.q }
    ensures value { IfOk result (λ made. made
        ≡ commutator_component (component (field_of_terms v.now)) (component (field_of_terms w.now)) s) }
    ensures fits { OnOk result (IsWithinLimits (bracket_bulk (field_of_terms v.now) (field_of_terms w.now) s)) }
    ensures past { IfErr result (λ fail. IsCause fail (bracket_bulk (field_of_terms v.now) (field_of_terms w.now) s)) }
{
    let s = usize::from(s);
    let mut made = Vec::new(alloc);
    push_derivation(&mut made, alloc, v, w[s].as_slice(), Whole::one())?;
    push_derivation(&mut made, alloc, w, v[s].as_slice(), Whole::one().neg())?;
    JetPoly::of_terms(alloc, made.as_slice())
}
