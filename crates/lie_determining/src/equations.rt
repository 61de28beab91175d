// The opening system that conditions make.
ghost use Rattle.std.specs.Prelude.{◌≡◌, ◌+◌, ◌<◌, ◌≤◌, MatchOption, IfOk, IfErr, OnOk};
ghost use Rattle.std.specs.List.{AllByRecursion as Every, Any};
ghost use Rattle.std.specs.List.Sorted.{IsStrictlySortedBy};
ghost use Rattle.lie_systems.specs.Bulk.{bulk, system_triple_count, triple_count_of_all, IsFormWithinLimits};
ghost use Rattle.lie_systems.specs.EquationOrder.{equation_cmp};
ghost use Rattle.lie_systems.specs.Triples.{sum_of_triples};
ghost use Rattle.lie_lin.specs.EquationLists.{Adds, IsEquationOf};
ghost use Rattle.lie_lin.specs.Forms.{triples_of};
ghost use Rattle.lie_determining.specs.Equations.{HasDerivativesInZ, AreEquationsOf, IsPartOf, IsSystemOf, IsSystemCause};

use crate::parts::{buckets_of, count_z};
use crate::unknowns::{general, unknowns};
use lie_bytes::NoMemory;
use lie_form::SymForm;
use lie_jet::{Der, Space};
use lie_lin::{LinEq, LinSystem, form_triple_count, insert_equation, lead, primitive};
use lie_parts::{Bucket, sum_of};
use lie_ring::{Mono, PastKind, PolyFail, Whole};
use std::alloc::Global;

/// The greatest number of triples of a system.
const MAX_TRIPLES: u128 = 1_000_000;

/// Adds the normalised equation of a sum of triples, unless it is empty.
fn put_part(
    equations: &mut Vec<LinEq>,
    alloc: Global,
    triples: &[(Der, Mono, Whole)],
) -> Result<(), NoMemory>
    requires limits { IsFormWithinLimits (bulk (triples_of triples.now)) }
    requires sorted { IsStrictlySortedBy equation_cmp equations.old.items }
    ensures { OnOk result (Adds (IsEquationOf (sum_of_triples (triples_of triples.now))) equations.old.items equations.new.items) }
{
    let part = sum_of(alloc, triples)?;
    match lead(&part) {
        None => Ok(()),
        Some(_) => {
            let eq = primitive(alloc, &part)?;
            let _ = insert_equation(equations, alloc, eq)?;
            Ok(())
        }
    }
}

/// Adds the normalised equations of the buckets.
fn put_parts(equations: &mut Vec<LinEq>, alloc: Global, buckets: &[Bucket]) -> Result<(), NoMemory>
    requires limits { Every (λ b. IsFormWithinLimits (bulk (triples_of b.triples.items))) buckets.now }
    requires sorted { IsStrictlySortedBy equation_cmp equations.old.items }
    ensures { OnOk result (Adds (λ e. Any (λ b. IsEquationOf (sum_of_triples
        (triples_of b.triples.items)) e) buckets.now) equations.old.items equations.new.items) }
{
    for bucket in buckets {
        put_part(equations, alloc, bucket.triples.as_slice())?;
    }
    Ok(())
}

/// Adds the normalised parts of a condition.
fn put_condition(
    equations: &mut Vec<LinEq>,
    alloc: Global,
    space: Space,
    condition: &SymForm,
) -> Result<(), NoMemory>
    requires limits { IsFormWithinLimits condition.now }
    requires sorted { IsStrictlySortedBy equation_cmp equations.old.items }
    ensures { OnOk result (Adds (IsPartOf space condition.now) equations.old.items equations.new.items) }
{
    let buckets = buckets_of(alloc, space, condition)?;
    put_parts(equations, alloc, buckets.as_slice())
}

/// The normalised parts of conditions, each once and in order.
pub fn equations_of(
    alloc: Global,
    space: Space,
    conditions: &[SymForm],
) -> Result<Vec<LinEq>, NoMemory>
    requires { Every IsFormWithinLimits conditions.now }
    ensures { IfOk result (λ equations. AreEquationsOf space conditions.now equations.items) }
{
    let mut equations = Vec::new(alloc);
    for condition in conditions {
        put_condition(&mut equations, alloc, space, condition)?;
    }
    Ok(equations)
}

/// The number of triples of forms and of others, which are at most 1,000,000; None where it is greater than that.
fn count_triples(list: &[LinEq], others: u128) -> Option<u128>
    requires { others ≤ 1000000 }
    ensures { MatchOption result (1000000 < others + triple_count_of_all list.now)
        (λ count. (count ≡ others + triple_count_of_all list.now) × (count ≤ 1000000)) }
{
    let mut count = others;
    for eq in list {
        count += form_triple_count(eq);
        if count > MAX_TRIPLES {
            return None;
        }
    }
    Some(count)
}

/// The number of triples of equations and general forms; None where it is greater than 1,000,000.
fn count_all(equations: &[LinEq], general: &[LinEq]) -> Option<u128>
    ensures { MatchOption result (1000000 < triple_count_of_all equations.now + triple_count_of_all general.now)
        (λ _. triple_count_of_all equations.now + triple_count_of_all general.now ≤ 1000000) }
{
    match count_triples(equations, 0) {
        None => None,
        Some(count) => count_triples(general, count),
    }
}

/// The system of the equations that conditions make: the normalised coefficients of all monomials in the jets of order 1 or more,
/// each once and in order, for the unknowns 1 to p + q, each of all variables z, one for each component. The conditions have
/// derivatives of these unknowns by variables z.
///
/// `Past(Terms)` comes exactly where the system has more than 1,000,000 triples, those of the general forms included.
pub fn opening_system(
    alloc: Global,
    space: Space,
    conditions: &[SymForm],
) -> Result<LinSystem, PolyFail>
    requires limits { Every IsFormWithinLimits conditions.now }
    requires derivatives { Every (HasDerivativesInZ space) conditions.now }
    ensures space { IfOk result (λ made. made.space ≡ space) }
    ensures system { IfOk result (λ made. IsSystemOf space conditions.now made.system) }
    ensures few { IfOk result (λ made. system_triple_count made.system ≤ 1000000) }
    ensures past { IfErr result (λ fail. IsSystemCause space conditions.now fail) }
{
    let equations = equations_of(alloc, space, conditions)?;
    let unknowns = unknowns(alloc, space)?;
    let general = general(alloc, space)?;
    match count_all(equations.as_slice(), general.as_slice()) {
        None => Err(PolyFail::Past(PastKind::Terms)),
        Some(_) => {
            let next = count_z(space) + 1;
            Ok(LinSystem::new(space, unknowns, equations, general, next))
        }
    }
}
