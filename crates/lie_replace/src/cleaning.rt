// Cleaned lists of equations: normalised, without empty ones and doubles, and in order. Tables of the list follow it.
ghost use Rattle.std.specs.Prelude.{◌≡◌, ◌<◌, ◌++◌, length, remove, MatchOption, IfErr, IfOk, OnOk, OnErr};
ghost use Rattle.std.specs.List.{AllByRecursion as Every, Any};
ghost use Rattle.std.specs.List.Sorted.{IsStrictlySortedBy};
ghost use Rattle.lie_systems.specs.EquationOrder.{equation_cmp};
ghost use Rattle.lie_systems.specs.Normalised.{IsNormalised};
ghost use Rattle.lie_steps.specs.Tidying.{IsTidied};
ghost use Rattle.lie_replace.specs.Cleaning.{taken_back, AreFilled};
ghost use Rattle.lie_lin.specs.EquationLists.{Adds, IsEquationOf, IsOneMore};
ghost use Rattle.lie_tables.specs.Tables.{Follows, IsIndexOf};

use lie_bytes::NoMemory;
use lie_lin::{LinEq, insert_equation, lead, primitive};
use lie_tables::Tables;
use std::alloc::Global;

/// Puts the normalised equations of forms into their places in a list of normalised equations in order, and tells the places, one after
/// the other as they were put in. Empty forms and doubles are dropped. Each is put in by halving. After an error the list is as it was.
pub fn put_cleaned(
    equations: &mut Vec<LinEq>,
    tables: &mut Tables,
    alloc: Global,
    forms: &[LinEq],
) -> Result<Vec<usize>, NoMemory>
    requires ordered { IsStrictlySortedBy equation_cmp equations.old.items }
    requires normalised { Every IsNormalised equations.old.items }
    requires indexed { IsIndexOf tables.old equations.old.items }
    ensures tidied { OnOk result (IsTidied (equations.old.items ++ forms.now) equations.new.items) }
    ensures ordered { IsStrictlySortedBy equation_cmp equations.new.items }
    ensures normalised { Every IsNormalised equations.new.items }
    ensures filled { IfOk result (λ places. AreFilled places.items equations.new.items) }
    ensures back { IfOk result (λ places. taken_back places.items equations.new.items ≡ equations.old.items) }
    ensures kept { IfErr result (λ _. equations.new.items ≡ equations.old.items) }
    ensures indexed { Follows tables.old tables.new equations.new.items }
{
    let mut places = Vec::new(alloc);
    match put_each(equations, tables, alloc, forms, &mut places) {
        Ok(()) => Ok(places),
        Err(fail) => {
            take_back(equations, tables, places);
            Err(fail)
        }
    }
}

/// Takes away what was put at these places one after the other, the last one first.
pub fn take_back(equations: &mut Vec<LinEq>, tables: &mut Tables, mut places: Vec<usize>)
    requires filled { AreFilled places.items equations.old.items }
    requires indexed { IsIndexOf tables.old equations.old.items }
    ensures back { equations.new.items ≡ taken_back places.items equations.old.items }
    ensures indexed { Follows tables.old tables.new equations.new.items }
{
    while let Some(place) = places.pop() {
        let _ = equations.remove(place);
        tables.remove(place);
    }
}

/// Puts the normalised equations of forms into their places, and notes the places.
fn put_each(
    equations: &mut Vec<LinEq>,
    tables: &mut Tables,
    alloc: Global,
    forms: &[LinEq],
    places: &mut Vec<usize>,
) -> Result<(), NoMemory>
    requires ordered { IsStrictlySortedBy equation_cmp equations.old.items }
    requires filled { AreFilled places.old.items equations.old.items }
    requires indexed { IsIndexOf tables.old equations.old.items }
    ensures added { OnOk result (Adds (λ e. Any (λ E. IsEquationOf E e) forms.now) equations.old.items equations.new.items) }
    ensures filled { AreFilled places.new.items equations.new.items }
    ensures back { taken_back places.new.items equations.new.items ≡ taken_back places.old.items equations.old.items }
    ensures indexed { Follows tables.old tables.new equations.new.items }
{
    for form in forms {
        put_noted(equations, tables, alloc, form, places)?;
    }
    Ok(())
}

/// Puts the normalised equation of a form into its place, and notes the place.
fn put_noted(
    equations: &mut Vec<LinEq>,
    tables: &mut Tables,
    alloc: Global,
    form: &LinEq,
    places: &mut Vec<usize>,
) -> Result<(), NoMemory>
    requires ordered { IsStrictlySortedBy equation_cmp equations.old.items }
    requires filled { AreFilled places.old.items equations.old.items }
    requires indexed { IsIndexOf tables.old equations.old.items }
    ensures added { OnOk result (Adds (IsEquationOf form.now) equations.old.items equations.new.items) }
    ensures filled { AreFilled places.new.items equations.new.items }
    ensures back { taken_back places.new.items equations.new.items ≡ taken_back places.old.items equations.old.items }
    ensures indexed { Follows tables.old tables.new equations.new.items }
{
    places.reserve(1)?;
    if let Some(place) = put_normalised(equations, tables, alloc, form)? {
        match places.push(place) {
            Ok(()) => {}
            Err(_) => unreachable!(),
        }
    }
    Ok(())
}

/// Puts the normalised equation of a form into its place, unless it is empty or there, and tells the place. After an error the list
/// is as it was.
fn put_normalised(
    equations: &mut Vec<LinEq>,
    tables: &mut Tables,
    alloc: Global,
    form: &LinEq,
) -> Result<Option<usize>, NoMemory>
    requires ordered { IsStrictlySortedBy equation_cmp equations.old.items }
    requires indexed { IsIndexOf tables.old equations.old.items }
    ensures added { OnOk result (Adds (IsEquationOf form.now) equations.old.items equations.new.items) }
    ensures place { IfOk result (λ found. MatchOption found (equations.new.items ≡ equations.old.items)
        (λ i. IsOneMore i equations.old.items equations.new.items)) }
    ensures kept { IfErr result (λ _. equations.new.items ≡ equations.old.items) }
    ensures indexed { Follows tables.old tables.new equations.new.items }
{
    match lead(form) {
        None => Ok(None),
        Some(_) => {
            let eq = primitive(alloc, form)?;
            put_followed(equations, tables, alloc, eq)
        }
    }
}

/// Puts an equation into its place, unless it is there, and tells the place. After an error the list is as it was.
fn put_followed(
    equations: &mut Vec<LinEq>,
    tables: &mut Tables,
    alloc: Global,
    eq: LinEq,
) -> Result<Option<usize>, NoMemory>
    requires ordered { IsStrictlySortedBy equation_cmp equations.old.items }
    requires indexed { IsIndexOf tables.old equations.old.items }
    ensures added { OnOk result (Adds (λ e. e ≡ eq) equations.old.items equations.new.items) }
    ensures place { IfOk result (λ found. MatchOption found (equations.new.items ≡ equations.old.items)
        (λ i. IsOneMore i equations.old.items equations.new.items)) }
    ensures kept { OnErr result (equations.new.items ≡ equations.old.items) }
    ensures indexed { Follows tables.old tables.new equations.new.items }
{
    match insert_equation(equations, alloc, eq)? {
        None => Ok(None),
        Some(place) => {
            follow(equations, tables, alloc, place)?;
            Ok(Some(place))
        }
    }
}

/// Notes the equation that was put in at a place. Where that fails, it is taken out.
fn follow(
    equations: &mut Vec<LinEq>,
    tables: &mut Tables,
    alloc: Global,
    place: usize,
) -> Result<(), NoMemory>
    requires place { place < length equations.old.items }
    requires indexed { IsIndexOf tables.old (remove equations.old.items place) }
    ensures noted { OnOk result (equations.new.items ≡ equations.old.items) }
    ensures taken { OnErr result (equations.new.items ≡ remove equations.old.items place) }
    ensures indexed { Follows tables.old tables.new equations.new.items }
{
    match tables.insert(alloc, place, &equations[place]) {
        Ok(()) => Ok(()),
        Err(fail) => {
            let _ = equations.remove(place);
            Err(fail)
        }
    }
}
