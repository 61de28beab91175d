// The closed form of a finite system.
ghost use Rattle.std.specs.Prelude.{◌≡◌, ◌+◌, ◌≤◌, ◌<◌, ◌++◌, [], map, length, IfOk, OnOk};
ghost use Rattle.std.specs.List.{AllByRecursion as Every, range_with_len};
ghost use Rattle.lie_lin.specs.Forms.{coefficients_of, unless_zero};
ghost use Rattle.lie_lin.specs.Systems.{unknown_of};
ghost use Rattle.lie_spans.specs.ClosedSystems.{component_form, closed_system};
ghost use Rattle.lie_spans.specs.Fields.{IsFieldIn};
ghost use Rattle.lie_systems.specs.Works.{greatest_basis_unknown_count};

use crate::unknowns::{count_components, plain};
use lie_bytes::NoMemory;
use lie_jet::{Der, Field, JetPoly};
use lie_lin::{LinEq, LinSystem, Unknown};
use lie_ring::Polynomial;
use std::alloc::Global;

/// The constant unknowns 1 to `count`.
fn constants(alloc: Global, count: usize) -> Result<Vec<Unknown>, NoMemory>
    requires { count ≤ greatest_basis_unknown_count }
    ensures { IfOk result (λ list. map unknown_of list.items ≡ map (λ i. record { number = i; variables = [] }) (range_with_len 1 count)) }
{
    let mut list = Vec::new(alloc);
    for i in 0..count {
        list.push(Unknown {
            number: i as u32 + 1,
            vars: 0,
        })?;
    }
    Ok(list)
}

/// Puts an unknown with its coefficient behind others, unless the coefficient is 0.
fn push_unknown(
    terms: &mut Vec<(Der, JetPoly)>,
    alloc: Global,
    number: u32,
    coefficient: &JetPoly,
) -> Result<(), NoMemory>
    ensures { OnOk result (coefficients_of terms.new.items ≡ coefficients_of terms.old.items
        ++ unless_zero (record { unknown = number; counts = [] }) coefficient.now []) }
{
    if coefficient.len() == 0 {
        return Ok(());
    }
    let coefficient = coefficient.copy(alloc)?;
    terms.push((plain(number), coefficient))?;
    Ok(())
}

/// One component of the general form: the sum of the unknowns, each times this component of its field.
fn general_component(alloc: Global, component: u8, basis: &[Field]) -> Result<LinEq, NoMemory>
    requires components { Every (λ V. component < length V.parts) basis.now }
    requires few { length basis.now ≤ greatest_basis_unknown_count }
    ensures { IfOk result (λ form. form ≡ component_form component basis.now 1) }
{
    let mut terms = Vec::new(alloc);
    let mut left = basis.len();
    // The greatest unknown is printed first.
    while left > 0 {
        let parts = basis[left - 1].parts();
        let part = &parts[usize::from(component)];
        push_unknown(&mut terms, alloc, left as u32, part)?;
        left -= 1;
    }
    Ok(LinEq::of_terms(terms))
}

/// The general form of all components.
fn general_form(alloc: Global, count: u8, basis: &[Field]) -> Result<Vec<LinEq>, NoMemory>
    requires fields { Every (IsFieldIn count) basis.now }
    requires few { length basis.now ≤ greatest_basis_unknown_count }
    ensures { IfOk result (λ forms. forms.items ≡ map (λ s. component_form s basis.now 1) (range_with_len 0 count)) }
{
    let mut forms = Vec::new(alloc);
    for component in 0..count {
        let form = general_component(alloc, component, basis)?;
        forms.push(form)?;
    }
    Ok(forms)
}

/// The system over the same variables with the constant unknowns 1 to k, no equation, and as general form the sum of the unknown i times
/// the field i. Of the basis of a finite system it is that system's closed form, which gives the same fields.
pub fn close_form(alloc: Global, system: &LinSystem, basis: &[Field]) -> Result<LinSystem, NoMemory>
    requires fields { Every (IsFieldIn (system.now.space.p + system.now.space.q)) basis.now }
    requires few { length basis.now ≤ greatest_basis_unknown_count }
    ensures space { IfOk result (λ made. made.space ≡ system.now.space) }
    ensures system { IfOk result (λ made. made.system ≡ closed_system (system.now.space.p + system.now.space.q) basis.now) }
{
    let space = system.space();
    let unknowns = constants(alloc, basis.len())?;
    let general = general_form(alloc, count_components(space), basis)?;
    let next = basis.len() as u32 + 1;
    Ok(LinSystem::new(space, unknowns, Vec::new(alloc), general, next))
}
