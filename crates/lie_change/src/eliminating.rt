// Systems in which an unknown is eliminated.
ghost use Rattle.std.specs.Prelude.{◌≡◌, ◌+◌, ◌<◌, ◌^◌, true, false, pos, unsigned_abs, length, map, IfErr, OnOk, OnErr};
ghost use Rattle.lie_systems.specs.Works.{IsWorkWithin};
ghost use Rattle.lie_lin.specs.Systems.{unknown_of};
ghost use Rattle.lie_steps.specs.Equations.{equation, mentions};
ghost use Rattle.lie_steps.specs.Replacement.{eliminated, eliminated_divided};
ghost use Rattle.lie_steps.specs.Tidying.{IsTidySystem};
ghost use Rattle.lie_normal.specs.WorkCauses.{IsWorkCause};
ghost use Rattle.lie_tables.specs.Tables.{Follows, IsIndexOf};
ghost use Rattle.lie_change.specs.Ends.{EliminationMakes, StaysValid};
ghost use Rattle.lie_change.specs.Lists.{left_by};

use crate::leaving::{leave_all, leave_general};
use crate::mentioning::any_mentions;
use crate::replacing::{replaced_equations, replaced_general, unknowns_after};
use lie_lin::{LinEq, LinSystem, Unknown};
use lie_ring::{PolyFail, Whole};
use lie_tables::Tables;
use std::alloc::Global;

/// The system with a form over a whole number in place of the unknown `number`, tidied: the unknown goes, and the equation at the
/// place; the fresh unknowns come last. The general forms stay where none of them has the unknown.
///
/// `Past` comes exactly where a replaced form, or the triples of what is left, are past a limit. After an error the system is as it
/// was.
pub fn eliminate(
    system: &mut LinSystem,
    tables: &mut Tables,
    alloc: Global,
    place: usize,
    number: u32,
    form: &LinEq,
    divisor: Whole,
    fresh: &[Unknown],
) -> Result<(), PolyFail>
    requires place { place < length system.old.system.equations }
    requires own { mentions number (equation system.old.system place) ≡ true }
    requires free { mentions number form.now ≡ false }
    requires divisor { divisor ≡ pos (unsigned_abs divisor) }
    requires numbers { system.old.system.next + length fresh.now < 2 ^ 32 }
    requires valid { StaysValid (system.old.space.p + system.old.space.q)
        (eliminated system.old.system place number form.now (unsigned_abs divisor) (map unknown_of fresh.now)) }
    requires indexed { IsIndexOf tables.old system.old.system.equations }
    ensures tidied { OnOk result (IsTidySystem
        (eliminated system.old.system place number form.now (unsigned_abs divisor) (map unknown_of fresh.now)) system.new.system) }
    ensures space { system.new.space ≡ system.old.space }
    ensures fits { OnOk result (IsWorkWithin
        (EliminationMakes system.old.system place number form.now (unsigned_abs divisor) (map unknown_of fresh.now)
        (eliminated system.old.system place number form.now (unsigned_abs divisor) (map unknown_of fresh.now)))) }
    ensures past { IfErr result (λ fail. IsWorkCause fail
        (EliminationMakes system.old.system place number form.now (unsigned_abs divisor) (map unknown_of fresh.now)
        (eliminated system.old.system place number form.now (unsigned_abs divisor) (map unknown_of fresh.now)))) }
    ensures kept { OnErr result (system.new ≡ system.old) }
    ensures indexed { Follows tables.old tables.new system.new.system.equations }
{
    eliminate_by(
        system, tables, alloc, place, number, form, divisor, fresh, false,
    )
}

/// The same, and the general forms are divided by the greatest common divisor of all their numbers, where one of them has the
/// unknown.
pub fn eliminate_divided(
    system: &mut LinSystem,
    tables: &mut Tables,
    alloc: Global,
    place: usize,
    number: u32,
    form: &LinEq,
    divisor: Whole,
    fresh: &[Unknown],
) -> Result<(), PolyFail>
    requires place { place < length system.old.system.equations }
    requires own { mentions number (equation system.old.system place) ≡ true }
    requires free { mentions number form.now ≡ false }
    requires divisor { divisor ≡ pos (unsigned_abs divisor) }
    requires numbers { system.old.system.next + length fresh.now < 2 ^ 32 }
    requires valid { StaysValid (system.old.space.p + system.old.space.q)
        (eliminated_divided system.old.system place number form.now (unsigned_abs divisor) (map unknown_of fresh.now)) }
    requires indexed { IsIndexOf tables.old system.old.system.equations }
    ensures tidied { OnOk result (IsTidySystem
        (eliminated_divided system.old.system place number form.now (unsigned_abs divisor) (map unknown_of fresh.now)) system.new.system) }
    ensures space { system.new.space ≡ system.old.space }
    ensures fits { OnOk result (IsWorkWithin
        (EliminationMakes system.old.system place number form.now (unsigned_abs divisor) (map unknown_of fresh.now)
        (eliminated_divided system.old.system place number form.now (unsigned_abs divisor) (map unknown_of fresh.now)))) }
    ensures past { IfErr result (λ fail. IsWorkCause fail
        (EliminationMakes system.old.system place number form.now (unsigned_abs divisor) (map unknown_of fresh.now)
        (eliminated_divided system.old.system place number form.now (unsigned_abs divisor) (map unknown_of fresh.now)))) }
    ensures kept { OnErr result (system.new ≡ system.old) }
    ensures indexed { Follows tables.old tables.new system.new.system.equations }
{
    eliminate_by(
        system, tables, alloc, place, number, form, divisor, fresh, true,
    )
}

/// The same, and the general forms are divided or not, where one of them has the unknown.
fn eliminate_by(
    system: &mut LinSystem,
    tables: &mut Tables,
    alloc: Global,
    place: usize,
    number: u32,
    form: &LinEq,
    divisor: Whole,
    fresh: &[Unknown],
    divided: bool,
) -> Result<(), PolyFail>
    requires place { place < length system.old.system.equations }
    requires own { mentions number (equation system.old.system place) ≡ true }
    requires free { mentions number form.now ≡ false }
    requires divisor { divisor ≡ pos (unsigned_abs divisor) }
    requires numbers { system.old.system.next + length fresh.now < 2 ^ 32 }
    requires valid { StaysValid (system.old.space.p + system.old.space.q)
        (left_by divided system.old.system place number form.now (unsigned_abs divisor) (map unknown_of fresh.now)) }
    requires indexed { IsIndexOf tables.old system.old.system.equations }
    ensures tidied { OnOk result (IsTidySystem
        (left_by divided system.old.system place number form.now (unsigned_abs divisor) (map unknown_of fresh.now)) system.new.system) }
    ensures space { system.new.space ≡ system.old.space }
    ensures fits { OnOk result (IsWorkWithin
        (EliminationMakes system.old.system place number form.now (unsigned_abs divisor) (map unknown_of fresh.now)
        (left_by divided system.old.system place number form.now (unsigned_abs divisor) (map unknown_of fresh.now)))) }
    ensures past { IfErr result (λ fail. IsWorkCause fail
        (EliminationMakes system.old.system place number form.now (unsigned_abs divisor) (map unknown_of fresh.now)
        (left_by divided system.old.system place number form.now (unsigned_abs divisor) (map unknown_of fresh.now)))) }
    ensures kept { OnErr result (system.new ≡ system.old) }
    ensures indexed { Follows tables.old tables.new system.new.system.equations }
{
    let unknowns = unknowns_after(alloc, system.unknowns(), number, fresh)?;
    let listed = unknowns.as_slice();
    let equations = system.equations();
    let forms = replaced_equations(alloc, equations, place, listed, number, form, divisor)?;
    let next = system.next() + fresh.len() as u32;
    let general = system.general();
    if any_mentions(general, number) {
        let general = replaced_general(alloc, general, listed, number, form, divisor, divided)?;
        return leave_all(
            system,
            tables,
            alloc,
            number,
            forms.as_slice(),
            unknowns,
            general,
            next,
        );
    }
    leave_general(
        system,
        tables,
        alloc,
        number,
        forms.as_slice(),
        unknowns,
        next,
    )
}
