//! Worked values, each a law.

ghost use Rattle.lie_spans.specs.WorkedValues.{TwoRowsSpanAll, BulksOfTwoRows, OneDirection, KernelOfOneRow, BulksOfKernel};
ghost use Rattle.lie_spans.specs.WorkedValues.{BulksOfSolution, LeastSolution, HalfOfEach, ColumnsInOrder, TwoFieldsSpan};
ghost use Rattle.lie_spans.specs.WorkedValues.{RowsOfCondition, ClosedSystemOfOne};

/// The rows (2, 4) and (1, 3) have the reduced basis (1, 0), (0, 1).
pub fn two_rows_span_all()
    ensures { TwoRowsSpanAll }
{}

/// Its elimination makes the numbers 2, 5, 1 and 4.
pub fn bulks_of_two_rows()
    ensures { BulksOfTwoRows }
{}

/// The rows (-2, -4) and (3, 6) have the reduced basis (1, 2).
pub fn one_direction()
    ensures { OneDirection }
{}

/// The row (1, 2, 0) takes the span of (2, -1, 0) and (0, 0, 1) to 0.
pub fn kernel_of_one_row()
    ensures { KernelOfOneRow }
{}

/// The kernel of (1, 2, 0) and (0, 1, 1) makes the numbers 1, 4 and 2 in an elimination, and 2, 1 and 1 in a solution.
pub fn bulks_of_kernel()
    ensures { BulksOfKernel }
{}

/// The numbers of a solution are those before it is divided by its content.
pub fn bulks_of_solution()
    ensures { BulksOfSolution }
{}

/// The entry in the free column is a least common multiple.
pub fn least_solution()
    ensures { LeastSolution }
{}

/// The row (1, 1, 1) is the half of (2, 0, 1) and the half of (0, 2, 1).
pub fn half_of_each()
    ensures { HalfOfEach }
{}

/// The columns 1, x, u, x^2 of the first component stand in this order, and before those of the second.
pub fn columns_in_order()
    ensures { ColumnsInOrder }
{}

/// The fields `2*d_x` and `3*d_x + u*d_u` have the reduced basis `d_x`, `u*d_u`.
pub fn two_fields_span()
    ensures { TwoFieldsSpan }
{}

/// The equation `f1_x = u*f2` gives two rows over the columns x of the first component and 1 of the second.
pub fn rows_of_condition()
    ensures { RowsOfCondition }
{}

/// The closed system of `u*d_x` has the constant f1 and the components u*f1 and 0.
pub fn closed_system_of_one()
    ensures { ClosedSystemOfOne }
{}
