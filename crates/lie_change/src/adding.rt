// Systems with one equation more, or with other equations in place of one.
ghost use Rattle.std.specs.Prelude.{◌≡◌, ◌+◌, ◌<◌, length, map, IfErr, OnOk, OnErr};
ghost use Rattle.std.specs.List.{Contains};
ghost use Rattle.lie_systems.specs.Normalised.{primitive};
ghost use Rattle.lie_systems.specs.Works.{IsWorkWithin};
ghost use Rattle.lie_steps.specs.Equations.{equation, with_equation, with_equations_at};
ghost use Rattle.lie_steps.specs.Tidying.{IsTidySystem};
ghost use Rattle.lie_normal.specs.WorkCauses.{IsWorkCause};
ghost use Rattle.lie_tables.specs.Tables.{Follows, IsIndexOf};
ghost use Rattle.lie_change.specs.Ends.{EndMakes, StaysValid};

use crate::putting::{put_forms, put_in_place};
use lie_lin::{LinEq, LinSystem};
use lie_ring::PolyFail;
use lie_tables::Tables;
use std::alloc::Global;
use std::slice;

/// The system with the normalised equation of a form more, tidied.
///
/// `Past` comes exactly where the triples of what is left are more than the limit. After an error the system is as it was.
pub fn add_form(
    system: &mut LinSystem,
    tables: &mut Tables,
    alloc: Global,
    form: &LinEq,
) -> Result<(), PolyFail>
    requires valid { StaysValid (system.old.space.p + system.old.space.q) (with_equation system.old.system form.now) }
    requires indexed { IsIndexOf tables.old system.old.system.equations }
    ensures tidied { OnOk result (IsTidySystem (with_equation system.old.system form.now) system.new.system) }
    ensures space { system.new.space ≡ system.old.space }
    ensures fits { OnOk result (IsWorkWithin (EndMakes (with_equation system.old.system form.now))) }
    ensures past { IfErr result (λ fail. IsWorkCause fail (EndMakes (with_equation system.old.system form.now))) }
    ensures kept { OnErr result (system.new ≡ system.old) }
    ensures indexed { Follows tables.old tables.new system.new.system.equations }
{
    system.space();
    let mut equations = system.take_equations(alloc);
    let outcome = put_forms(
        &mut equations,
        tables,
        alloc,
        slice::from_ref(form),
        system.general(),
    );
    system.set_equations(equations);
    outcome
}

/// The system with the normalised equations of forms in place of the equation at a place, which is none of them, tidied.
///
/// `Past` comes exactly where the triples of what is left are more than the limit. After an error the system is as it was.
pub fn exchange_forms(
    system: &mut LinSystem,
    tables: &mut Tables,
    alloc: Global,
    place: usize,
    forms: &[LinEq],
) -> Result<(), PolyFail>
    requires place { place < length system.old.system.equations }
    requires apart { ¬ (Contains (map primitive forms.now) (equation system.old.system place)) }
    requires valid { StaysValid (system.old.space.p + system.old.space.q) (with_equations_at system.old.system place forms.now) }
    requires indexed { IsIndexOf tables.old system.old.system.equations }
    ensures tidied { OnOk result (IsTidySystem (with_equations_at system.old.system place forms.now) system.new.system) }
    ensures space { system.new.space ≡ system.old.space }
    ensures fits { OnOk result (IsWorkWithin (EndMakes (with_equations_at system.old.system place forms.now))) }
    ensures past { IfErr result (λ fail. IsWorkCause fail (EndMakes (with_equations_at system.old.system place forms.now))) }
    ensures kept { OnErr result (system.new ≡ system.old) }
    ensures indexed { Follows tables.old tables.new system.new.system.equations }
{
    system.space();
    let mut equations = system.take_equations(alloc);
    let outcome = put_in_place(
        &mut equations,
        tables,
        alloc,
        place,
        forms,
        system.general(),
    );
    system.set_equations(equations);
    outcome
}
