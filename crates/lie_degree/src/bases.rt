// The reduced basis of the symmetries up to a degree.
ghost use Rattle.std.specs.Prelude.{◌≡◌, ◌+◌, ◌≤◌, length, IfOk, IfErr, OnOk};
ghost use Rattle.lie_math.specs.LinearSystem.{Gives};
ghost use Rattle.lie_spans.specs.Fields.{IsFieldBasis};
ghost use Rattle.lie_spans.specs.Openings.{IsOpening, HasDegreeAtMost, AreDegreeColumns};
ghost use Rattle.lie_systems.specs.Works.{greatest_basis_unknown_count, greatest_column_count};
ghost use Rattle.lie_solved.specs.Solved.{equations_of};
ghost use Rattle.lie_degree.specs.Columns.{greatest_degree};
ghost use Rattle.lie_degree.specs.DegreeBases.{IsDegreeBasis};
ghost use Rattle.lie_degree.specs.declared.bases.DegreeStop.TheVariants as variants;
ghost use Rattle.lie_degree.specs.Works.{IsBasisWithin, IsBasisCause, IsDegreeWithin, IsDegreeStop, stop_at};

use crate::columns::degree_columns;
use crate::conditions::condition_rows;
use lie_algebra::{Column, count_components, fields_of};
use lie_brackets::laws::field_in_is_field_on;
use lie_bytes::NoMemory;
use lie_determining::determining;
use lie_determining::laws::{opening_is_unique, opening_is_valid};
use lie_jet::{Field, space_is_small};
use lie_lin::LinSystem;
use lie_ring::{PastKind, PolyFail};
use lie_rows::kernel_basis;
use lie_solved::Solved;
use std::alloc::Global;

/// The greatest degree.
pub const MAX_DEGREE: u8 = 8;

/// Why there is no basis up to a degree.
#[derive(Clone, Copy, PartialEq, Eq, Debug)]
pub enum DegreeStop {
    /// An action is past a limit.
    Past {
        /// The step: 0 is the making of the determining equations, and 1 that of the basis.
        step: u64,
        /// The limit.
        what: PastKind,
    },
    /// There was no memory.
    NoMemory,
}

impl From<NoMemory> for DegreeStop {
    ghost from_gives = { λ _ fail. fail ≡ variants.NoMemory };

    fn from(_fail: NoMemory) -> DegreeStop {
        DegreeStop::NoMemory
    }
}

/// The answer where the actions of the step of this number fail.
fn stop_at(step: u64, fail: PolyFail) -> DegreeStop
    ensures { result ≡ stop_at step fail }
{
    match fail {
        PolyFail::Past(what) => DegreeStop::Past { step, what },
        PolyFail::NoMemory => DegreeStop::NoMemory,
    }
}

/// The basis by the columns up to the degree.
fn basis_in(
    alloc: Global,
    opening: &LinSystem,
    count: u8,
    columns: &[Column],
    highest: u8,
) -> Result<Vec<Field>, PolyFail>
    requires opening { IsOpening count opening.now.system }
    requires few_components { count ≤ greatest_basis_unknown_count }
    requires columns { AreDegreeColumns count highest columns.now }
    requires few_columns { length columns.now ≤ greatest_column_count }
    requires low { highest ≤ greatest_degree }
    ensures basis { IfOk result (λ made. IsFieldBasis count (λ V. Gives opening.now.system V × HasDegreeAtMost highest V) made.items) }
    ensures fits { OnOk result (IsBasisWithin count highest opening.now.system) }
    ensures cause { IfErr result (IsBasisCause count highest opening.now.system) }
{
    let rows = condition_rows(alloc, opening.equations(), columns)?;
    let kernel = kernel_basis(alloc, rows.as_slice(), columns.len())?;
    let fields = fields_of(alloc, count, columns, kernel.as_slice())?;
    Ok(fields)
}

/// The reduced basis of all fields that a system for their components gives and that have no term of degree above `highest`.
///
/// `Past(Width)` comes exactly where there are more than 1,000 columns, one for each component and monomial; else `Past` comes exactly
/// where the absolute values of what an equation says of a column, of an elimination of one row by another, or of a solution are past a
/// limit.
pub fn degree_basis(alloc: Global, opening: &LinSystem, highest: u8) -> Result<Vec<Field>, PolyFail>
    requires opening { IsOpening (opening.now.space.p + opening.now.space.q) opening.now.system }
    requires low { highest ≤ greatest_degree }
    ensures basis { IfOk result (λ made. IsFieldBasis (opening.now.space.p + opening.now.space.q)
        (λ V. Gives opening.now.system V × HasDegreeAtMost highest V) made.items) }
    ensures fits { OnOk result (IsBasisWithin (opening.now.space.p + opening.now.space.q) highest opening.now.system) }
    ensures cause { IfErr result (IsBasisCause (opening.now.space.p + opening.now.space.q) highest opening.now.system) }
{
    let count = count_components(opening.space());
    let columns = degree_columns(alloc, count, highest)?;
    basis_in(alloc, opening, count, columns.as_slice(), highest)
}

/// The reduced basis of all symmetries of a solved system whose components have no term of degree above `highest`, which is at most 8
/// (Olver, Applications of Lie Groups to Differential Equations, section 2.4): the solutions of the determining equations up to that
/// degree, whatever the rules could do.
///
/// `Past` comes exactly where an action is past a limit; of the steps that have one it tells the first. In step 1 `Width` comes exactly
/// where there are more than 1,000 columns, before any other limit.
pub fn symmetries_to_degree(
    alloc: Global,
    solved: &Solved,
    highest: u8,
) -> Result<Vec<Field>, DegreeStop>
    requires { highest ≤ greatest_degree }
    ensures basis { IfOk result (λ made. IsDegreeBasis solved.now.system.space (equations_of solved.now) highest made.items) }
    ensures fits { OnOk result (IsDegreeWithin solved.now.system.space (equations_of solved.now) highest) }
    ensures stop { IfErr result (IsDegreeStop solved.now.system.space (equations_of solved.now) highest) }
{
    space_is_small(solved.system.space);
    opening_is_unique();
    opening_is_valid();
    field_in_is_field_on();
    let opening = match determining(alloc, solved) {
        Ok(opening) => opening,
        Err(fail) => return Err(stop_at(0, fail)),
    };
    match degree_basis(alloc, &opening, highest) {
        Ok(fields) => Ok(fields),
        Err(fail) => Err(stop_at(1, fail)),
    }
}
