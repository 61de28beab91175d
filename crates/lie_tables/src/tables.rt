// The tables of a list of equations, mended as equations are put in and taken out.
ghost use Rattle.std.specs.Prelude.{◌≡◌, ℕ, ◌<◌, ◌≤◌, ◌-◌, ◌^◌, [], List, true, nat_eq, length, remove, IfOk, OnOk, OnErr};
ghost use Rattle.std.specs.List.{insert};
ghost use Rattle.lie_math.specs.LinearForm.{LinearForm};
ghost use Rattle.lie_jet.specs.Derivatives.{derivative_of};
ghost use Rattle.lie_steps.specs.Equations.{mentions};
ghost use Rattle.lie_tables.specs.Places.{IsTable, places_where, with_keys};
ghost use Rattle.lie_tables.specs.Tables.{unknowns_in, leads_in, leads, lead_eq, HasPlaces, Follows, IsIndexOf, IsNextPlace};
ghost use Rattle.lie_tables.specs.Tables.{IsOpened, IsPartlyNoted};

use crate::lead::{Lead, key_of};
use crate::places::first_from;
use crate::rows::{close_row, note_key, open_row};
use indexmap::IndexMap;
use lie_bytes::NoMemory;
use lie_jet::Der;
use lie_lin::LinEq;
use std::alloc::Global;

/// Tables of a list of equations: for each unknown that occurs and for each lead the places where it does, which rise. They may also
/// not be kept, and then follow nothing.
#[derive(Drop)]
pub struct Tables {
    kept: bool,
    by_unknown: IndexMap<u32, Vec<usize>>,
    by_lead: IndexMap<Lead, Vec<usize>>,
}

impl Tables {
    /// Tables that are not kept. They take no memory.
    pub fn none(alloc: Global) -> Tables
        ensures { (Es : List LinearForm) → IsIndexOf result Es }
    {
        Tables {
            kept: false,
            by_unknown: IndexMap::new(alloc),
            by_lead: IndexMap::new(alloc),
        }
    }

    /// Tables of no equations, which are kept.
    fn empty(alloc: Global) -> Tables
        ensures kept { result.kept ≡ true }
        ensures empty { IsIndexOf result [] }
    {
        Tables {
            kept: true,
            by_unknown: IndexMap::new(alloc),
            by_lead: IndexMap::new(alloc),
        }
    }

    /// The tables of equations, which are kept.
    pub fn of(alloc: Global, equations: &[LinEq]) -> Result<Tables, NoMemory>
        ensures kept { IfOk result (λ t. t.kept ≡ true) }
        ensures index { IfOk result (λ t. IsIndexOf t equations.now) }
    {
        let mut tables = Tables::empty(alloc);
        for place in 0..equations.len() {
            tables.insert(alloc, place, &equations[place])?;
        }
        Ok(tables)
    }

    /// The tables after an equation was put in at a place. After an error they are those of the list without it.
    pub fn insert(&mut self, alloc: Global, place: usize, eq: &LinEq) -> Result<(), NoMemory>
        ensures put { OnOk result ((Es : List LinearForm) → IsIndexOf self.old Es → place ≤ length Es → length Es < 2 ^ 64 - 1
            → Follows self.old self.new (insert Es place eq.now)) }
        ensures kept { OnErr result ((Es : List LinearForm) → IsIndexOf self.old Es → place ≤ length Es → length Es < 2 ^ 64 - 1
            → Follows self.old self.new Es) }
    {
        if !self.kept {
            return Ok(());
        }
        open_row(&mut self.by_unknown, place);
        open_row(&mut self.by_lead, place);
        match self.note(alloc, place, eq) {
            Ok(()) => Ok(()),
            Err(fail) => {
                close_row(&mut self.by_unknown, place);
                close_row(&mut self.by_lead, place);
                Err(fail)
            }
        }
    }

    /// Notes an equation at a place that has no keys. After an error some of them may be noted.
    fn note(&mut self, alloc: Global, place: usize, eq: &LinEq) -> Result<(), NoMemory>
        ensures kept { self.new.kept ≡ self.old.kept }
        ensures noted { OnOk result ((Es : List LinearForm) → IsOpened self.old Es place → place ≤ length Es
            → HasPlaces self.new (insert Es place eq.now)) }
        ensures part { OnErr result ((Es : List LinearForm) → IsOpened self.old Es place → place ≤ length Es
            → IsPartlyNoted self.new Es place) }
    {
        match note_unknowns(&mut self.by_unknown, alloc, place, eq) {
            Ok(()) => note_lead(&mut self.by_lead, alloc, place, eq),
            Err(fail) => Err(fail),
        }
    }

    /// The tables after the equation at a place was taken out. It takes no memory.
    pub fn remove(&mut self, place: usize)
        ensures { (Es : List LinearForm) → IsIndexOf self.old Es → place < length Es → Follows self.old self.new (remove Es place) }
    {
        if self.kept {
            close_row(&mut self.by_unknown, place);
            close_row(&mut self.by_lead, place);
        }
    }

    /// The places of the equations in which an unknown occurs. It takes no memory.
    pub fn places(&self, unknown: u32) -> &[usize]
        ensures { (Es : List LinearForm) → HasPlaces self.now Es → result.now ≡ places_where (mentions unknown) Es }
    {
        match self.by_unknown.get(&unknown) {
            Some(list) => list.as_slice(),
            None => &[],
        }
    }

    /// The next place, from one on, before which no equation has an unknown: where the tables are kept, that of the next equation with
    /// it. It takes no memory.
    pub fn next_place(&self, equations: &[LinEq], unknown: u32, from: usize) -> Option<usize>
        requires { IsIndexOf self.now equations.now }
        ensures { IsNextPlace (mentions unknown) equations.now from result }
    {
        if !self.kept {
            return if from < equations.len() {
                Some(from)
            } else {
                None
            };
        }
        first_from(self.places(unknown), from)
    }

    /// The places of the equations with a lead. It takes no memory.
    pub fn with_lead(&self, lead: &Der) -> &[usize]
        ensures { (Es : List LinearForm) → HasPlaces self.now Es → result.now ≡ places_where (leads (derivative_of lead.now)) Es }
    {
        match self.by_lead.get(&key_of(lead)) {
            Some(list) => list.as_slice(),
            None => &[],
        }
    }
}

/// Notes the unknowns of an equation at a place. After an error some of them may be noted.
fn note_unknowns(
    table: &mut IndexMap<u32, Vec<usize>>,
    alloc: Global,
    place: usize,
    eq: &LinEq,
) -> Result<(), NoMemory>
    ensures noted { OnOk result ((us : List (List ℕ)) → IsTable nat_eq table.old us → place < length us
        → IsTable nat_eq table.new (with_keys us place (unknowns_in eq.now))) }
    ensures part { OnErr result ((us : List (List ℕ)) → IsTable nat_eq table.old us → place < length us
        → (fs : List ℕ) × IsTable nat_eq table.new (with_keys us place fs)) }
{
    let terms = eq.terms();
    for term in terms {
        note_key(table, alloc, term.0.unknown, place)?;
    }
    Ok(())
}

/// Notes the lead of an equation at a place. After an error the table is of the same rows.
fn note_lead(
    table: &mut IndexMap<Lead, Vec<usize>>,
    alloc: Global,
    place: usize,
    eq: &LinEq,
) -> Result<(), NoMemory>
    ensures noted { OnOk result ((ls : List (List Lead)) → IsTable lead_eq table.old ls → place < length ls
        → IsTable lead_eq table.new (with_keys ls place (leads_in eq.now))) }
    ensures kept { OnErr result ((ls : List (List Lead)) → IsTable lead_eq table.old ls → IsTable lead_eq table.new ls) }
{
    match eq.terms() {
        [] => Ok(()),
        [term, ..] => note_key(table, alloc, key_of(&term.0), place),
    }
}
