// The lengths of rows.
ghost use Rattle.std.specs.Prelude.{IsTrue, ◌↔◌};
ghost use Rattle.lie_spans.specs.Rows.{HaveLength};
ghost use Rattle.lie_rows.specs.Rows.{rows_of};

use lie_ring::Whole;

/// Whether each row has this many entries, as `span_basis` and `kernel_basis` want. It takes no memory.
pub fn have_length(rows: &[Vec<Whole>], columns: usize) -> bool
    ensures { IsTrue result ↔ HaveLength columns (rows_of rows.now) }
{
    for row in rows {
        if row.len() != columns {
            return false;
        }
    }
    true
}
