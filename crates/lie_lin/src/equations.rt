// Lists of equations in order, each once.
ghost use Rattle.std.specs.Prelude.{◌≡◌, ◌<◌, length, remove, slice_index_or, MatchBool, MatchOption, IfOk, OnOk, OnErr};
ghost use Rattle.std.specs.List.{Contains};
ghost use Rattle.std.specs.List.Sorted.{IsStrictlySortedBy};
ghost use Rattle.lie_systems.specs.EquationOrder.{equation_cmp};
ghost use Rattle.lie_lin.specs.EquationLists.{Adds, HasAlso, HasUnlessEmpty, IsInsertionPoint, IsOneMore};

use crate::equation::LinEq;
use crate::order::compare_equations;
use lie_bytes::NoMemory;
use std::alloc::Global;
use std::cmp::Ordering;

/// The place before which an equation has to be put; None where it is there.
fn place_of(alloc: Global, equations: &[LinEq], eq: &LinEq) -> Result<Option<usize>, NoMemory>
    requires { IsStrictlySortedBy equation_cmp equations.now }
    ensures { IfOk result (λ found. MatchOption found (Contains equations.now eq.now)
        (IsInsertionPoint equation_cmp eq.now equations.now)) }
{
    let mut low = 0;
    let mut high = equations.len();
    while low < high {
        let middle = low + (high - low) / 2;
        match compare_equations(alloc, eq, &equations[middle])? {
            Ordering::Less => high = middle,
            Ordering::Equal => return Ok(None),
            Ordering::Greater => low = middle + 1,
        }
    }
    Ok(Some(low))
}

/// Puts an equation into its place among others, unless it is there, and tells the place. After an error the list is as it was.
pub fn insert_equation(
    equations: &mut Vec<LinEq>,
    alloc: Global,
    eq: LinEq,
) -> Result<Option<usize>, NoMemory>
    requires { IsStrictlySortedBy equation_cmp equations.old.items }
    ensures added { OnOk result (Adds (λ e. e ≡ eq) equations.old.items equations.new.items) }
    ensures place { IfOk result (λ found. MatchOption found (equations.new.items ≡ equations.old.items)
        (λ i. IsOneMore i equations.old.items equations.new.items)) }
    ensures kept { OnErr result (equations.new.items ≡ equations.old.items) }
{
    match place_of(alloc, equations.as_slice(), &eq)? {
        None => Ok(None),
        Some(place) => {
            equations.insert(place, eq)?;
            Ok(Some(place))
        }
    }
}

/// Puts an equation into its place among others in order, unless it is there or is empty. After an error the list is as it was.
pub fn put_equation(equations: &mut Vec<LinEq>, alloc: Global, eq: LinEq) -> Result<(), NoMemory>
    requires { IsStrictlySortedBy equation_cmp equations.old.items }
    ensures put { OnOk result (HasUnlessEmpty eq equations.old.items equations.new.items) }
    ensures kept { OnErr result (equations.new.items ≡ equations.old.items) }
{
    if eq.terms().len() == 0 {
        return Ok(());
    }
    let _ = insert_equation(equations, alloc, eq)?;
    Ok(())
}

/// Whether an equation is the one at a place.
fn is_at(alloc: Global, equations: &[LinEq], place: usize, eq: &LinEq) -> Result<bool, NoMemory>
    requires { place < length equations.now }
    ensures { IfOk result (λ yes. MatchBool yes (eq.now ≡ slice_index_or equations.now place eq.now)
        (¬ (slice_index_or equations.now place eq.now ≡ eq.now))) }
{
    match compare_equations(alloc, eq, &equations[place])? {
        Ordering::Equal => Ok(true),
        Ordering::Less => Ok(false),
        Ordering::Greater => Ok(false),
    }
}

/// Removes the equation at a place, and puts another into its own place, unless it is among those that are left.
fn exchange_equation(
    equations: &mut Vec<LinEq>,
    alloc: Global,
    place: usize,
    eq: LinEq,
) -> Result<(), NoMemory>
    requires ordered { IsStrictlySortedBy equation_cmp equations.old.items }
    requires place { place < length equations.old.items }
    ensures put { OnOk result (HasAlso eq (remove equations.old.items place) equations.new.items) }
    ensures kept { OnErr result (equations.new.items ≡ equations.old.items) }
{
    if is_at(alloc, equations.as_slice(), place, &eq)? {
        return Ok(());
    }
    match place_of(alloc, equations.as_slice(), &eq)? {
        Some(goal) => exchange(equations, goal, place, eq),
        None => {
            equations.remove(place);
            Ok(())
        }
    }
}

/// Puts an equation where it goes, and removes the one at a place.
fn exchange(
    equations: &mut Vec<LinEq>,
    goal: usize,
    place: usize,
    eq: LinEq,
) -> Result<(), NoMemory>
    requires ordered { IsStrictlySortedBy equation_cmp equations.old.items }
    requires place { place < length equations.old.items }
    requires goal { IsInsertionPoint equation_cmp eq equations.old.items goal }
    ensures put { OnOk result (HasAlso eq (remove equations.old.items place) equations.new.items) }
    ensures kept { OnErr result (equations.new.items ≡ equations.old.items) }
{
    equations.insert(goal, eq)?;
    if goal <= place {
        equations.remove(place + 1);
    } else {
        equations.remove(place);
    }
    Ok(())
}

/// Removes the equation at a place of a list in order, and puts another into its own place, unless it is among those that are left or is
/// empty. After an error the list is as it was.
pub fn replace_equation(
    equations: &mut Vec<LinEq>,
    alloc: Global,
    place: usize,
    eq: LinEq,
) -> Result<(), NoMemory>
    requires ordered { IsStrictlySortedBy equation_cmp equations.old.items }
    requires place { place < length equations.old.items }
    ensures put { OnOk result (HasUnlessEmpty eq (remove equations.old.items place) equations.new.items) }
    ensures kept { OnErr result (equations.new.items ≡ equations.old.items) }
{
    if eq.terms().len() == 0 {
        equations.remove(place);
        return Ok(());
    }
    exchange_equation(equations, alloc, place, eq)
}
