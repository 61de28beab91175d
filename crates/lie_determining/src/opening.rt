// The determining equations of a solved system.
ghost use Rattle.std.specs.Prelude.{◌≡◌, ◌↔◌, IfOk, IfErr, OnOk};
ghost use Rattle.lie_math.specs.LinearSystem.{Gives};
ghost use Rattle.lie_math.specs.VectorField.{VectorField};
ghost use Rattle.lie_geometry.specs.Invariance.{IsFieldOn, IsInvariant};
ghost use Rattle.lie_solved.specs.Solved.{equations_of};
ghost use Rattle.lie_determining.specs.Openings.{IsOpeningSystem, IsOpeningWithin, IsOpeningCause};

use crate::conditions::reduced_conditions;
use crate::equations::opening_system;
use lie_jet::space_is_small;
use lie_lin::LinSystem;
use lie_ring::PolyFail;
use lie_solved::Solved;
use std::alloc::Global;

/// The determining equations of the system (Olver, Applications of Lie Groups to Differential Equations, section 2.4): the
/// normalised coefficients of all monomials in the jets of order 1 or more in each reduced condition, for the unknowns 1 to p + q,
/// each of all variables z, where the component at a variable is the unknown of its number.
///
/// `Past` comes exactly where an action is past a limit: a prolonged coefficient, or for an equation the prolonged field applied to
/// it, or the reduction of that, each with absolute values and plus signs from the true results before it; or where the system has
/// more than 1,000,000 triples.
pub fn determining(alloc: Global, solved: &Solved) -> Result<LinSystem, PolyFail>
    ensures space { IfOk result (λ made. made.space ≡ solved.now.system.space) }
    ensures opening { IfOk result (λ made. IsOpeningSystem solved.now.system.space (equations_of solved.now) made.system) }
    ensures meaning { IfOk result (λ made. (V : VectorField) → IsFieldOn solved.now.system.space V
        → IsInvariant solved.now.system.space (equations_of solved.now) V ↔ Gives made.system V) }
    ensures fits { OnOk result (IsOpeningWithin solved.now.system.space (equations_of solved.now)) }
    ensures past { IfErr result (IsOpeningCause solved.now.system.space (equations_of solved.now)) }
{
    let space = solved.system.space;
    space_is_small(space);
    let conditions = reduced_conditions(alloc, space, solved.rules.as_slice())?;
    opening_system(alloc, space, conditions.as_slice())
}
