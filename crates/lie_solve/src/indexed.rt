// Systems kept with the tables of their equations.
ghost use Rattle.std.specs.Prelude.{◌≡◌, IfOk, IfErr, OnOk, OnErr};
ghost use Rattle.lie_systems.specs.Works.{IsWorkWithin};
ghost use Rattle.lie_jet.specs.Derivatives.{derivative_of};
ghost use Rattle.lie_steps.specs.Equations.{mentions};
ghost use Rattle.lie_steps.specs.Rules.{NextMakes};
ghost use Rattle.lie_tables.specs.Places.{places_where};
ghost use Rattle.lie_tables.specs.Tables.{leads};
ghost use Rattle.lie_normal.specs.WorkCauses.{IsWorkCause};
ghost use Rattle.lie_solve.specs.Attempts.{IsSearched, IsNextOrStuck, FindMakes};

use crate::attempts::Attempt;
use crate::rules::RuleName;
use crate::searching::find;
use lie_bytes::NoMemory;
use lie_jet::Der;
use lie_lin::LinSystem;
use lie_ring::PolyFail;
use lie_tables::Tables;
use std::alloc::Global;
use std::marker::Model;

/// A valid system, seen as such, kept with the places of its equations: for each unknown that occurs, and for each lead, the places
/// where it does, which rise.
#[derive(Drop)]
pub struct Indexed {
    system: LinSystem,
    tables: Tables,
}

impl Model for Indexed {
    ghost use Rattle.std.specs.Prelude.{◌≡◌, true};
    ghost use Rattle.lie_lin.specs.Systems.{SpaceSystem, space_system_code};
    ghost use Rattle.lie_tables.specs.Tables.{IsIndexOf};

    ghost Value = { SpaceSystem };

    ghost coded = { space_system_code };

    ghost view = { λ i. i.system };

    ghost invariant = { λ i. (i.tables.kept ≡ true) × IsIndexOf i.tables i.system.system.equations };
}

impl Indexed {
    /// A system with its tables.
    pub fn new(alloc: Global, system: LinSystem) -> Result<Indexed, NoMemory>
        ensures { IfOk result (λ made. made ≡ system) }
    {
        let tables = Tables::of(alloc, system.equations())?;
        Ok(Indexed { system, tables })
    }

    /// Makes the next step of the system, and mends the tables. Tells the rule; None exactly where no rule applies, and then the system
    /// is as it was.
    ///
    /// `Past` comes exactly where an action of the search or of the step is past a limit. After an error the system is as it was.
    pub fn step(&mut self, alloc: Global) -> Result<Option<RuleName>, PolyFail>
        ensures next { IfOk result (IsNextOrStuck self.old self.new) }
        ensures fits { OnOk result (IsWorkWithin (NextMakes self.old.system)) }
        ensures past { IfErr result (λ fail. IsWorkCause fail (NextMakes self.old.system)) }
        ensures kept { OnErr result (self.new ≡ self.old) }
    {
        self.find(alloc, Attempt::Step)
    }

    /// Makes the attempt with the rules in their order, at all places, until one applies, and tells this rule.
    pub fn find(&mut self, alloc: Global, attempt: Attempt) -> Result<Option<RuleName>, PolyFail>
        ensures found { IfOk result (IsSearched attempt self.old self.new) }
        ensures fits { OnOk result (IsWorkWithin (FindMakes attempt self.old.system)) }
        ensures past { IfErr result (λ fail. IsWorkCause fail (FindMakes attempt self.old.system)) }
        ensures kept { OnErr result (self.new ≡ self.old) }
    {
        find(&mut self.system, &mut self.tables, alloc, attempt)
    }

    /// The places of the equations in which an unknown occurs. It takes no memory.
    pub fn places(&self, unknown: u32) -> &[usize]
        ensures { result.now ≡ places_where (mentions unknown) self.now.system.equations }
    {
        self.tables.places(unknown)
    }

    /// The places of the equations with a lead. It takes no memory.
    pub fn with_lead(&self, lead: &Der) -> &[usize]
        ensures { result.now ≡ places_where (leads (derivative_of lead.now)) self.now.system.equations }
    {
        self.tables.with_lead(lead)
    }

    /// The system, which is moved: it takes no memory.
    pub fn into_system(self) -> LinSystem
        ensures { result ≡ self }
    {
        self.system
    }
}
