// The search for the first rule that applies, at the first place where it does, and the next step of a system.
ghost use Rattle.std.specs.Prelude.{◌≡◌, ◌<◌, length, IfOk, IfErr, OnOk, OnErr};
ghost use Rattle.lie_systems.specs.Works.{IsWorkWithin};
ghost use Rattle.lie_steps.specs.Rules.{Cross, rank, NextMakes};
ghost use Rattle.lie_tables.specs.Tables.{Follows, IsIndexOf};
ghost use Rattle.lie_normal.specs.WorkCauses.{IsWorkCause};
ghost use Rattle.lie_solve.specs.Attempts.{IsFoundOrPassed, IsSearched, IsNextOrStuck, FindMakes, IsPassed};
ghost use Rattle.lie_solve.specs.Partners.{IsNextPartner};
ghost use Rattle.lie_solve.specs.RuleNames.{rule_of};

use crate::attempts::{Attempt, attempt_at};
use crate::rules::{Place, RuleName};
use lie_lin::{LinSystem, lead};
use lie_ring::PolyFail;
use lie_tables::Tables;
use std::alloc::Global;

/// The rules in their order.
const RULES: [RuleName; 10] = [
    RuleName::Zero,
    RuleName::Lowest,
    RuleName::Absent,
    RuleName::Split,
    RuleName::Substitute,
    RuleName::Integrate,
    RuleName::Isolate,
    RuleName::Reduce,
    RuleName::Foreign,
    RuleName::Cross,
];

/// Makes the next step of a system: that of the first rule that applies, at the first place where it does. Tells the rule; None
/// exactly where no rule applies, and then the system is as it was.
///
/// `Past` comes exactly where an action of the search or of the step is past a limit. After an error the system is as it was.
pub fn next_step(system: &mut LinSystem, alloc: Global) -> Result<Option<RuleName>, PolyFail>
    ensures next { IfOk result (IsNextOrStuck system.old system.new) }
    ensures fits { OnOk result (IsWorkWithin (NextMakes system.old.system)) }
    ensures past { IfErr result (λ fail. IsWorkCause fail (NextMakes system.old.system)) }
    ensures kept { OnErr result (system.new ≡ system.old) }
{
    let mut tables = Tables::none(alloc);
    find(system, &mut tables, alloc, Attempt::Step)
}

/// Makes the attempt with the rules in their order, at all places, until one applies, and tells this rule.
pub fn find(
    system: &mut LinSystem,
    tables: &mut Tables,
    alloc: Global,
    attempt: Attempt,
) -> Result<Option<RuleName>, PolyFail>
    requires indexed { IsIndexOf tables.old system.old.system.equations }
    ensures found { IfOk result (IsSearched attempt system.old system.new) }
    ensures fits { OnOk result (IsWorkWithin (FindMakes attempt system.old.system)) }
    ensures past { IfErr result (λ fail. IsWorkCause fail (FindMakes attempt system.old.system)) }
    ensures kept { OnErr result (system.new ≡ system.old) }
    ensures indexed { Follows tables.old tables.new system.new.system.equations }
{
    for rule in RULES {
        let found = find_place(system, tables, alloc, attempt, rule)?;
        if found {
            return Ok(Some(rule));
        }
    }
    Ok(None)
}

/// Makes the attempt with a rule at the places in their order, until it applies, where no rule before it does.
fn find_place(
    system: &mut LinSystem,
    tables: &mut Tables,
    alloc: Global,
    attempt: Attempt,
    rule: RuleName,
) -> Result<bool, PolyFail>
    requires passed { IsPassed system.old.system (rank (rule_of rule)) }
    requires indexed { IsIndexOf tables.old system.old.system.equations }
    ensures found { IfOk result (IsFoundOrPassed attempt (rule_of rule) system.old system.new) }
    ensures past { IfErr result (λ fail. IsWorkCause fail (FindMakes attempt system.old.system)) }
    ensures kept { OnErr result (system.new ≡ system.old) }
    ensures indexed { Follows tables.old tables.new system.new.system.equations }
{
    match rule {
        RuleName::Cross => find_pair(system, tables, alloc, attempt),
        _ => find_equation(system, tables, alloc, attempt, rule),
    }
}

/// Makes the attempt with a rule that looks at one equation, at the equations in their order.
fn find_equation(
    system: &mut LinSystem,
    tables: &mut Tables,
    alloc: Global,
    attempt: Attempt,
    rule: RuleName,
) -> Result<bool, PolyFail>
    requires rule { ¬ (rule_of rule ≡ Cross) }
    requires passed { IsPassed system.old.system (rank (rule_of rule)) }
    requires indexed { IsIndexOf tables.old system.old.system.equations }
    ensures found { IfOk result (IsFoundOrPassed attempt (rule_of rule) system.old system.new) }
    ensures past { IfErr result (λ fail. IsWorkCause fail (FindMakes attempt system.old.system)) }
    ensures kept { OnErr result (system.new ≡ system.old) }
    ensures indexed { Follows tables.old tables.new system.new.system.equations }
{
    let count = system.equations().len();
    for first in 0..count {
        let place = Place { first, second: 0 };
        let found = attempt_at(system, tables, alloc, attempt, rule, place)?;
        if found {
            return Ok(true);
        }
    }
    Ok(false)
}

/// Makes the attempt with cross at the pairs of equations in their order, of which the tables skip some that have no leads of one
/// unknown.
fn find_pair(
    system: &mut LinSystem,
    tables: &mut Tables,
    alloc: Global,
    attempt: Attempt,
) -> Result<bool, PolyFail>
    requires passed { IsPassed system.old.system (rank Cross) }
    requires indexed { IsIndexOf tables.old system.old.system.equations }
    ensures found { IfOk result (IsFoundOrPassed attempt Cross system.old system.new) }
    ensures past { IfErr result (λ fail. IsWorkCause fail (FindMakes attempt system.old.system)) }
    ensures kept { OnErr result (system.new ≡ system.old) }
    ensures indexed { Follows tables.old tables.new system.new.system.equations }
{
    let count = system.equations().len();
    for first in 0..count {
        let mut from = first + 1;
        while let Some(second) = next_partner(system, tables, first, from) {
            let place = Place { first, second };
            let found = attempt_at(system, tables, alloc, attempt, RuleName::Cross, place)?;
            if found {
                return Ok(true);
            }
            from = second + 1;
        }
    }
    Ok(false)
}

/// The next equation, from a place on, with which the one at a place may be crossed: where the tables are kept, the next one with the
/// unknown of its lead.
fn next_partner(system: &LinSystem, tables: &Tables, first: usize, from: usize) -> Option<usize>
    requires place { first < length system.now.system.equations }
    requires indexed { IsIndexOf tables.now system.now.system.equations }
    ensures { IsNextPartner system.now.system first from result }
{
    let equations = system.equations();
    match lead(&equations[first]) {
        Some(lead) => tables.next_place(equations, lead.unknown, from),
        None => None,
    }
}
