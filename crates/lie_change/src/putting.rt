// Lists of normalised equations in order, to which forms are added and from which others go. Where the triples of all that is left are
// past the limit, nothing changes.
ghost use Rattle.std.specs.Prelude.{◌≡◌, ◌-◌, ◌<◌, ◌^◌, ◌++◌, suc, false, cond, ltb, length, map, remove, get_or, IfErr, OnOk, OnErr};
ghost use Rattle.std.specs.List.{AllByRecursion as Every, Contains};
ghost use Rattle.std.specs.List.Sorted.{IsStrictlySortedBy};
ghost use Rattle.lie_math.specs.LinearForm.{no_form};
ghost use Rattle.lie_systems.specs.EquationOrder.{equation_cmp};
ghost use Rattle.lie_systems.specs.Normalised.{primitive, IsNormalised};
ghost use Rattle.lie_systems.specs.Works.{IsWorkWithin};
ghost use Rattle.lie_steps.specs.Equations.{mentions};
ghost use Rattle.lie_steps.specs.Tidying.{IsTidied};
ghost use Rattle.lie_normal.specs.WorkCauses.{IsWorkCause};
ghost use Rattle.lie_tables.specs.Tables.{Follows, IsIndexOf};
ghost use Rattle.lie_change.specs.Lists.{moved, unmentioned, TidiedMakes};

use crate::counting::{count_both, count_without_place, count_without_unknown};
use crate::mentioning::mentions;
use lie_lin::LinEq;
use lie_replace::{put_cleaned, take_back};
use lie_ring::PolyFail;
use lie_tables::Tables;
use std::alloc::Global;

/// Adds the normalised equations of forms.
pub fn put_forms(
    equations: &mut Vec<LinEq>,
    tables: &mut Tables,
    alloc: Global,
    forms: &[LinEq],
    general: &[LinEq],
) -> Result<(), PolyFail>
    requires ordered { IsStrictlySortedBy equation_cmp equations.old.items }
    requires normalised { Every IsNormalised equations.old.items }
    requires indexed { IsIndexOf tables.old equations.old.items }
    ensures tidied { OnOk result (IsTidied (equations.old.items ++ forms.now) equations.new.items) }
    ensures fits { OnOk result (IsWorkWithin (TidiedMakes (equations.old.items ++ forms.now) general.now)) }
    ensures past { IfErr result (λ fail. IsWorkCause fail (TidiedMakes (equations.old.items ++ forms.now) general.now)) }
    ensures kept { OnErr result (equations.new.items ≡ equations.old.items) }
    ensures indexed { Follows tables.old tables.new equations.new.items }
{
    let places = put_cleaned(equations, tables, alloc, forms)?;
    match count_both(equations.as_slice(), general) {
        Ok(_) => Ok(()),
        Err(fail) => {
            take_back(equations, tables, places);
            Err(fail)
        }
    }
}

/// Where an equation stands after another was put in at a place.
fn place_after(place: usize, put: usize) -> usize
    requires { place < 2 ^ 64 - 1 }
    ensures { result ≡ cond (ltb place put) place (suc place) }
{
    if place < put { place } else { place + 1 }
}

/// Where an equation stands after others were put in at these places, one after the other.
fn moved_place(place: usize, places: &[usize]) -> usize
    requires { place < 2 ^ 63 }
    ensures { result ≡ moved place places.now }
{
    let mut now = place;
    for put in places {
        now = place_after(now, *put);
    }
    now
}

/// Adds the normalised equations of forms, and removes the equation at a place, which is none of them.
pub fn put_in_place(
    equations: &mut Vec<LinEq>,
    tables: &mut Tables,
    alloc: Global,
    place: usize,
    forms: &[LinEq],
    general: &[LinEq],
) -> Result<(), PolyFail>
    requires ordered { IsStrictlySortedBy equation_cmp equations.old.items }
    requires normalised { Every IsNormalised equations.old.items }
    requires indexed { IsIndexOf tables.old equations.old.items }
    requires place { place < length equations.old.items }
    requires apart { ¬ (Contains (map primitive forms.now) (get_or equations.old.items place no_form)) }
    ensures tidied { OnOk result (IsTidied (remove equations.old.items place ++ forms.now) equations.new.items) }
    ensures fits { OnOk result (IsWorkWithin (TidiedMakes (remove equations.old.items place ++ forms.now) general.now)) }
    ensures past { IfErr result (λ fail. IsWorkCause fail (TidiedMakes (remove equations.old.items place ++ forms.now) general.now)) }
    ensures kept { OnErr result (equations.new.items ≡ equations.old.items) }
    ensures indexed { Follows tables.old tables.new equations.new.items }
{
    let places = put_cleaned(equations, tables, alloc, forms)?;
    let place = moved_place(place, places.as_slice());
    match count_without_place(equations.as_slice(), place, general) {
        Ok(_) => {
            let _ = equations.remove(place);
            tables.remove(place);
            Ok(())
        }
        Err(fail) => {
            take_back(equations, tables, places);
            Err(fail)
        }
    }
}

/// Takes the equation at a place out, if it has an unknown.
fn take_mentioned(equations: &mut Vec<LinEq>, tables: &mut Tables, place: usize, number: u32)
    requires place { place < length equations.old.items }
    requires indexed { IsIndexOf tables.old equations.old.items }
    ensures taken { equations.new.items ≡ cond (mentions number (get_or equations.old.items place no_form))
        (remove equations.old.items place) equations.old.items }
    ensures indexed { Follows tables.old tables.new equations.new.items }
{
    if mentions(&equations[place], number) {
        let _ = equations.remove(place);
        tables.remove(place);
    }
}

/// Keeps the equations without an unknown.
fn keep_unmentioned(equations: &mut Vec<LinEq>, tables: &mut Tables, number: u32)
    requires { IsIndexOf tables.old equations.old.items }
    ensures kept { equations.new.items ≡ unmentioned number equations.old.items }
    ensures indexed { Follows tables.old tables.new equations.new.items }
{
    let mut place = equations.len();
    while place > 0 {
        place -= 1;
        take_mentioned(equations, tables, place, number);
    }
}

/// Adds the normalised equations of forms without an unknown, and removes the equations with the unknown.
pub fn put_for_unknown(
    equations: &mut Vec<LinEq>,
    tables: &mut Tables,
    alloc: Global,
    number: u32,
    forms: &[LinEq],
    general: &[LinEq],
) -> Result<(), PolyFail>
    requires ordered { IsStrictlySortedBy equation_cmp equations.old.items }
    requires normalised { Every IsNormalised equations.old.items }
    requires indexed { IsIndexOf tables.old equations.old.items }
    requires free { Every (λ E. mentions number E ≡ false) forms.now }
    ensures tidied { OnOk result (IsTidied (unmentioned number equations.old.items ++ forms.now) equations.new.items) }
    ensures fits { OnOk result (IsWorkWithin (TidiedMakes (unmentioned number equations.old.items ++ forms.now) general.now)) }
    ensures past { IfErr result (λ fail. IsWorkCause fail
        (TidiedMakes (unmentioned number equations.old.items ++ forms.now) general.now)) }
    ensures kept { OnErr result (equations.new.items ≡ equations.old.items) }
    ensures indexed { Follows tables.old tables.new equations.new.items }
{
    let places = put_cleaned(equations, tables, alloc, forms)?;
    match count_without_unknown(equations.as_slice(), number, general) {
        Ok(_) => {
            keep_unmentioned(equations, tables, number);
            Ok(())
        }
        Err(fail) => {
            take_back(equations, tables, places);
            Err(fail)
        }
    }
}
