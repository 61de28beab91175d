// The reduced basis of the fields that a finite system gives.
ghost use Rattle.std.specs.Prelude.{◌≡◌, ◌+◌, ◌<◌, ◌≤◌, IfOk, IfErr, OnOk, length};
ghost use Rattle.lie_math.specs.LinearSystem.{Gives};
ghost use Rattle.lie_steps.specs.Runs.{IsFinite};
ghost use Rattle.lie_spans.specs.Fields.{IsFieldBasis};
ghost use Rattle.lie_systems.specs.Works.{greatest_basis_unknown_count, greatest_column_count};
ghost use Rattle.lie_systems.specs.ValidSystems.{IsValid};
ghost use Rattle.lie_algebra.specs.BasisWork.{IsBasisWithin, IsBasisCause};
ghost use Rattle.lie_algebra.specs.GeneralColumns.{AreGeneralColumns};

use crate::column::Column;
use crate::columns::columns_of;
use crate::fields::fields_of;
use crate::rows::unknown_rows;
use crate::unknowns::count_components;
use lie_jet::Field;
use lie_lin::LinSystem;
use lie_ring::{PastKind, PolyFail};
use lie_rows::span_basis;
use std::alloc::Global;

/// The greatest number of unknowns of a system whose basis is made.
const MAX_UNKNOWNS: usize = 256;

/// The reduced basis by the columns of the general form.
fn basis_in(
    alloc: Global,
    system: &LinSystem,
    count: u8,
    columns: &[Column],
) -> Result<Vec<Field>, PolyFail>
    requires finite { IsFinite system.now.system }
    requires valid { IsValid (system.now.space.p + system.now.space.q) system.now.system }
    requires count { count ≡ system.now.space.p + system.now.space.q }
    requires components { 0 < count }
    requires columns { AreGeneralColumns system.now.system columns.now }
    requires few_unknowns { length system.now.system.unknowns ≤ greatest_basis_unknown_count }
    requires few_columns { length columns.now ≤ greatest_column_count }
    ensures basis { IfOk result (λ made. IsFieldBasis (system.now.space.p + system.now.space.q) (Gives system.now.system) made.items) }
    ensures few { IfOk result (λ made. length made.items ≤ greatest_basis_unknown_count) }
    ensures fits { OnOk result (IsBasisWithin system.now.system) }
    ensures cause { IfErr result (λ fail. IsBasisCause fail system.now.system) }
{
    let rows = unknown_rows(alloc, system, columns)?;
    let reduced = span_basis(alloc, rows.as_slice(), columns.len())?;
    let fields = fields_of(alloc, count, columns, reduced.as_slice())?;
    Ok(fields)
}

/// The reduced basis of the fields that a finite system gives: each has the denominator 1 and whole coefficients without a common
/// divisor, its first column that is not 0 is its pivot, the pivots rise, and each is positive in its field and 0 in all others.
/// Columns go by component, then by degree, the lower one first, then as printed.
///
/// `Past(Width)` comes exactly where there are more than 256 unknowns, or more than 1,000 different pairs of a component and a monomial
/// in the general form; else `Past(Coefficient)` exactly where the absolute values of an elimination of one row by another pass
/// 2^127 - 1.
pub fn basis(alloc: Global, system: &LinSystem) -> Result<Vec<Field>, PolyFail>
    requires { IsFinite system.now.system }
    ensures basis { IfOk result (λ made. IsFieldBasis (system.now.space.p + system.now.space.q) (Gives system.now.system) made.items) }
    ensures few { IfOk result (λ made. length made.items ≤ greatest_basis_unknown_count) }
    ensures fits { OnOk result (IsBasisWithin system.now.system) }
    ensures cause { IfErr result (λ fail. IsBasisCause fail system.now.system) }
{
    if system.unknowns().len() > MAX_UNKNOWNS {
        return Err(PolyFail::Past(PastKind::Width));
    }
    let count = count_components(system.space());
    let columns = columns_of(alloc, system.general())?;
    basis_in(alloc, system, count, columns.as_slice())
}
