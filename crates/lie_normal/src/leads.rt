// The leads of a list of equations, looked up by their unknowns.
ghost use Rattle.std.specs.Prelude.{◌≡◌, ◌≤◌, ◌<◌, ◌+◌, length, take, drop, IfOk, OnOk, IsTrue, MatchOption, ◌↔◌};
ghost use Rattle.std.specs.List.{AllByRecursion as Every};
ghost use Rattle.lie_jet.specs.Derivatives.{derivative_of};
ghost use Rattle.lie_steps.specs.Equations.{Divides};
ghost use Rattle.lie_normal.specs.Leads.{AreOrdered, AreLeads, IsPutBehind, NoneDivides, IsFirstDivisor};

use lie_bytes::NoMemory;
use lie_jet::Der;
use lie_lin::{LinEq, lead};
use std::alloc::Global;

/// The lead of an equation.
#[derive(Clone, Copy, PartialEq, Eq, Debug)]
pub struct PlacedLead {
    /// The lead.
    pub lead: Der,
    /// The place of the equation in its list.
    pub place: usize,
}

/// The leads of the equations of a list: those of one unknown stand together, in the order of the list.
pub fn leads_of(alloc: Global, list: &[LinEq]) -> Result<Vec<PlacedLead>, NoMemory>
    ensures { IfOk result (λ leads. AreLeads list.now (length list.now) leads.items) }
{
    let mut leads = Vec::new(alloc);
    for place in 0..list.len() {
        if let Some(lead) = lead(&list[place]) {
            put(&mut leads, PlacedLead { lead, place })?;
        }
    }
    Ok(leads)
}

/// Puts a lead behind those of its unknown.
fn put(leads: &mut Vec<PlacedLead>, new: PlacedLead) -> Result<(), NoMemory>
    requires { AreOrdered leads.old.items }
    ensures { OnOk result (IsPutBehind new leads.old.items leads.new.items) }
{
    let place = place_of(leads.as_slice(), u64::from(new.lead.unknown) + 1);
    leads.insert(place, new)?;
    Ok(())
}

/// How many leads are of unknowns with lesser numbers, found by halving.
fn place_of(leads: &[PlacedLead], number: u64) -> usize
    requires { AreOrdered leads.now }
    ensures inside { result ≤ length leads.now }
    ensures before { Every (λ x. x.lead.unknown < number) (take result leads.now) }
    ensures behind { Every (λ x. number ≤ x.lead.unknown) (drop result leads.now) }
{
    leads.partition_point(|lead| u64::from(lead.lead.unknown) < number)
}

/// The first lead that divides a derivative.
pub fn first_divisor(leads: &[PlacedLead], der: &Der) -> Option<PlacedLead>
    requires { AreOrdered leads.now }
    ensures { MatchOption result (NoneDivides leads.now (derivative_of der.now))
        (λ found. IsFirstDivisor leads.now (derivative_of der.now) found) }
{
    let low = place_of(leads, u64::from(der.unknown));
    let high = place_of(leads, u64::from(der.unknown) + 1);
    for i in low..high {
        if divides(&leads[i].lead, der) {
            return Some(leads[i]);
        }
    }
    None
}

/// Whether the second derivative is the first, derived as often or more often by each variable.
pub fn divides(lead: &Der, der: &Der) -> bool
    ensures { IsTrue result ↔ Divides (derivative_of lead.now) (derivative_of der.now) }
{
    if lead.unknown != der.unknown {
        return false;
    }
    for i in 0..8 {
        if lead.counts[i] > der.counts[i] {
            return false;
        }
    }
    true
}
