// The reduced basis of what rows take to 0.
ghost use Rattle.std.specs.Prelude.{IfOk, IfErr, OnOk};
ghost use Rattle.lie_spans.specs.Bulks.{KernelMakes};
ghost use Rattle.lie_spans.specs.Kernel.{IsKernel};
ghost use Rattle.lie_spans.specs.Rows.{entry, HaveLength, IsReducedBasis};
ghost use Rattle.lie_systems.specs.Works.{IsWorkWithin};
ghost use Rattle.lie_rows.specs.Causes.{IsWorkCause};
ghost use Rattle.lie_rows.specs.Rows.{rows_of};

use crate::kept::kept_rows;
use crate::solutions::push_solution;
use lie_ring::{PolyFail, Whole};
use std::alloc::Global;

/// The reduced basis of the lists that every row takes to 0. Past exactly where the absolute values of an elimination of one row by
/// another, or a solution before it is divided by its content, pass 2^127 - 1. The rows have length `columns`.
pub fn kernel_basis(
    alloc: Global,
    rows: &[Vec<Whole>],
    columns: usize,
) -> Result<Vec<Vec<Whole>>, PolyFail>
    requires { HaveLength columns (rows_of rows.now) }
    ensures basis { IfOk result (λ made.
        IsReducedBasis columns (λ w. IsKernel columns (rows_of rows.now) (entry w)) (rows_of made.items)) }
    ensures fits { OnOk result (IsWorkWithin (KernelMakes columns (rows_of rows.now))) }
    ensures cause { IfErr result (λ fail. IsWorkCause fail (KernelMakes columns (rows_of rows.now))) }
{
    let kept = kept_rows(alloc, rows, columns)?;
    let mut out = Vec::new(alloc);
    for column in 0..columns {
        push_solution(&mut out, alloc, &kept, column, columns)?;
    }
    Ok(out)
}
