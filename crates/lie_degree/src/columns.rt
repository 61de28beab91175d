// The columns up to a degree.
ghost use Rattle.std.specs.Prelude.{◌≡◌, ◌≤◌, ◌++◌, length, IfOk, IfErr, OnOk};
ghost use Rattle.std.specs.List.{AllByRecursion as Every};
ghost use Rattle.std.specs.List.Sorted.{IsStrictlySortedBy};
ghost use Rattle.lie_math.specs.Limits.{HasLowExponents};
ghost use Rattle.lie_systems.specs.Works.{greatest_column_count};
ghost use Rattle.lie_algebra.specs.ColumnLists.{AreColumnsOf, IsColumnsCause};
ghost use Rattle.lie_spans.specs.Fields.{column_cmp};
ghost use Rattle.lie_degree.specs.Columns.{columns_in, columns_from, monomials_to, greatest_degree};

use crate::monomials::monomials_to;
use lie_algebra::{Column, insert_column};
use lie_ring::{Mono, PolyFail};
use std::alloc::Global;

/// Puts the columns of monomials in one component among others in order.
fn insert_component(
    columns: &mut Vec<Column>,
    alloc: Global,
    component: u8,
    monos: &[Mono],
) -> Result<(), PolyFail>
    requires low { Every HasLowExponents monos.now }
    requires sorted { IsStrictlySortedBy column_cmp columns.old.items }
    requires few { length columns.old.items ≤ greatest_column_count }
    ensures inserted { OnOk result (AreColumnsOf (columns.old.items ++ columns_in component monos.now) columns.new.items) }
    ensures few { OnOk result (length columns.new.items ≤ greatest_column_count) }
    ensures cause { IfErr result (λ fail. IsColumnsCause fail (columns.old.items ++ columns_in component monos.now)) }
{
    for mono in monos {
        insert_column(columns, Column::new(component, mono.copy(alloc)?))?;
    }
    Ok(())
}

/// The columns of so many components and variables up to a degree, in order. `Past(Width)` comes exactly where there are more than 1,000.
pub fn degree_columns(alloc: Global, count: u8, highest: u8) -> Result<Vec<Column>, PolyFail>
    requires { highest ≤ greatest_degree }
    ensures columns { IfOk result (λ made. AreColumnsOf (columns_from 0 count (monomials_to count highest)) made.items) }
    ensures few { IfOk result (λ made. length made.items ≤ greatest_column_count) }
    ensures cause { IfErr result (λ fail. IsColumnsCause fail (columns_from 0 count (monomials_to count highest))) }
{
    let monos = monomials_to(alloc, count, highest)?;
    let mut columns = Vec::new(alloc);
    for component in 0..count {
        insert_component(&mut columns, alloc, component, monos.as_slice())?;
    }
    Ok(columns)
}
