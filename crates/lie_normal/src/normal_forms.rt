// Normal forms of linear forms.
ghost use Rattle.std.specs.Prelude.{◌∷◌, map, IfOk, IfErr, OnOk};
ghost use Rattle.lie_systems.specs.Works.{IsWorkWithin};
ghost use Rattle.lie_lin.specs.Systems.{unknown_of};
ghost use Rattle.lie_steps.specs.NormalForm.{IsNormalForm, NormalFormMakes};
ghost use Rattle.lie_normal.specs.FormLists.{AreFormsOf};
ghost use Rattle.lie_normal.specs.WorkCauses.{IsWorkCause};

use crate::copying::copy;
use crate::leads::leads_of;
use crate::reduction::{greatest_divided, reduced};
use lie_lin::{LinEq, Unknown};
use lie_ring::PolyFail;
use std::alloc::Global;

/// The normal form of a linear form by a list of equations. As long as the lead of an equation divides a derivative of the form, the
/// greatest such derivative goes: the form is combined with the first such equation, derived until its lead is that derivative, and
/// normalised. A form in which nothing can be reduced stays as it is.
///
/// `Past` comes exactly where one of these derivatives or combinations is past a limit by its bulk.
pub fn normal_form(
    alloc: Global,
    eq: &LinEq,
    list: &[LinEq],
    unknowns: &[Unknown],
) -> Result<LinEq, PolyFail>
    requires { AreFormsOf (map unknown_of unknowns.now) (eq.now ∷ list.now) }
    ensures normal { IfOk result (λ made. IsNormalForm (map unknown_of unknowns.now) list.now eq.now made) }
    ensures fits { OnOk result (IsWorkWithin (NormalFormMakes (map unknown_of unknowns.now) list.now eq.now)) }
    ensures past { IfErr result (λ fail. IsWorkCause fail (NormalFormMakes (map unknown_of unknowns.now) list.now eq.now)) }
{
    let leads = leads_of(alloc, list)?;
    let mut form = copy(alloc, eq)?;
    while let Some((der, divisor)) = greatest_divided(&form, leads.as_slice()) {
        form = reduced(
            alloc,
            &form,
            unknowns,
            &der,
            &list[divisor.place],
            &divisor.lead,
        )?;
    }
    Ok(form)
}
