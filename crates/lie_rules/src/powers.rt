// The coefficients of the powers of a variable in linear forms.
ghost use Rattle.std.specs.Prelude.{◌≡◌, ℕ, suc, ◌<◌, List, [], ◌∷◌, ◌++◌, map, filter, length, replicate, not, eqb, IfOk, IfErr, OnOk};
ghost use Rattle.std.specs.List.{Contains};
ghost use Rattle.lie_math.specs.FiniteSum as finite;
ghost use Rattle.lie_math.specs.Monomial.{exponent, powers};
ghost use Rattle.lie_math.specs.Powers.{degree_in};
ghost use Rattle.lie_systems.specs.Triples.{Triple, triples as triples_in_form};
ghost use Rattle.lie_systems.specs.Works.{AForm, IsWorkWithin};
ghost use Rattle.lie_jet.specs.Derivatives.{derivative_of};
ghost use Rattle.lie_steps.specs.Bulks.{absolute_form};
ghost use Rattle.lie_steps.specs.Split.{form_degree, all_powers};
ghost use Rattle.lie_normal.specs.WorkCauses.{IsWorkCause};
ghost use Rattle.lie_rules.specs.Powers.{by_exponents, groups_of};

use lie_bytes::NoMemory;
use lie_jet::Der;
use lie_lin::{LinEq, of_triples, triples};
use lie_normal::Coefficient;
use lie_ring::{Mono, PolyFail, Polynomial, Whole};
use std::alloc::Global;

/// A derivative, a monomial and a number.
type Term = (Der, Mono, Whole);

/// The greatest exponent of a variable in a polynomial.
fn degree_in(alloc: Global, poly: &Coefficient, var: u32) -> Result<u32, NoMemory>
    ensures { IfOk result (λ degree. degree ≡ degree_in var poly.now) }
{
    let terms = poly.terms(alloc)?;
    let mut degree = 0;
    for term in terms.as_slice() {
        degree = term.0.exponent(var).max(degree);
    }
    Ok(degree)
}

/// The greatest exponent of a variable in the coefficients of a form.
pub fn form_degree(alloc: Global, eq: &LinEq, var: u32) -> Result<u32, NoMemory>
    ensures { IfOk result (λ degree. degree ≡ form_degree var eq.now) }
{
    let mut degree = 0;
    for term in eq.terms() {
        let exponent = degree_in(alloc, &term.1, var)?;
        degree = exponent.max(degree);
    }
    Ok(degree)
}

/// The coefficients of all powers of a variable in a form, the highest power first.
///
/// `Past` comes exactly where one of them is past a limit by its absolute values.
pub fn coefficients_of_powers(alloc: Global, eq: &LinEq, var: u32) -> Result<Vec<LinEq>, PolyFail>
    ensures parts { IfOk result (λ parts. parts.items ≡ all_powers var eq.now) }
    ensures fits { OnOk result (IsWorkWithin (Contains (map (λ P. AForm P) (all_powers var (absolute_form eq.now))))) }
    ensures past { IfErr result (λ fail. IsWorkCause fail (Contains (map (λ P. AForm P) (all_powers var (absolute_form eq.now))))) }
{
    let mut groups = triples_by_exponents(alloc, eq, var)?;
    let mut parts = Vec::new(alloc);
    while let Some(group) = groups.pop() {
        let part = of_triples(alloc, group.as_slice())?;
        parts.push(part)?;
    }
    Ok(parts)
}

/// The triples of a form by their exponents of a variable, without it: at each place those with that exponent.
fn triples_by_exponents(alloc: Global, eq: &LinEq, var: u32) -> Result<Vec<Vec<Term>>, NoMemory>
    ensures { IfOk result (λ groups. groups_of groups.items ≡ by_exponents var 0 (suc (form_degree var eq.now)) (triples_in_form eq.now)) }
{
    let degree = form_degree(alloc, eq, var)?;
    let mut groups = empty_groups(alloc, degree as usize + 1)?;
    let list = triples(alloc, eq)?;
    for triple in list.as_slice() {
        put_triple(&mut groups, alloc, triple, var)?;
    }
    Ok(groups)
}

/// So many empty groups.
fn empty_groups(alloc: Global, count: usize) -> Result<Vec<Vec<Term>>, NoMemory>
    ensures { IfOk result (λ groups. groups_of groups.items ≡ replicate count []) }
{
    let mut groups = Vec::new(alloc);
    while groups.len() < count {
        groups.push(Vec::new(alloc))?;
    }
    Ok(groups)
}

/// Puts a triple without a variable into the group of the variable's exponent.
fn put_triple(
    groups: &mut Vec<Vec<Term>>,
    alloc: Global,
    triple: &Term,
    var: u32,
) -> Result<(), NoMemory>
    requires { exponent triple.now.1 var < length groups.old.items }
    ensures { OnOk result ((ts : List Triple) (n : ℕ) → groups_of groups.old.items ≡ by_exponents var 0 n ts
        → groups_of groups.new.items ≡ by_exponents var 0 n (ts ++ (derivative_of triple.now.0, triple.now.1, triple.now.2) ∷ [])) }
{
    let exponent = triple.1.exponent(var) as usize;
    let rest = without_variable(alloc, &triple.1, var)?;
    groups[exponent].push((triple.0, rest, triple.2))?;
    Ok(())
}

/// A monomial without a variable.
fn without_variable(alloc: Global, mono: &Mono, var: u32) -> Result<Mono, NoMemory>
    ensures { IfOk result (λ rest. rest ≡ finite.put powers var 0 mono.now) }
{
    let mut pairs = Vec::new(alloc);
    for pair in mono.pairs() {
        push_other(&mut pairs, *pair, var)?;
    }
    Mono::of_pairs(alloc, pairs.as_slice())
}

/// Puts a pair behind others, unless it is that of a variable.
fn push_other(pairs: &mut Vec<(u32, u32)>, pair: (u32, u32), var: u32) -> Result<(), NoMemory>
    ensures { OnOk result (pairs.new.items ≡ pairs.old.items ++ filter (λ e. not (eqb e.0 var)) (pair ∷ [])) }
{
    if pair.0 != var {
        pairs.push(pair)?;
    }
    Ok(())
}
