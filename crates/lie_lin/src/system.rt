// Linear systems for unknown polynomials.
ghost use Rattle.std.specs.Prelude.{◌≡◌, ◌+◌, ◌<◌, [], map, length, remove, slice_index_or, OnOk, OnErr};
ghost use Rattle.lie_systems.specs.ValidSystems.{IsValid};
ghost use Rattle.lie_lin.specs.EquationLists.{HasUnlessEmpty, IsEquationFor};
ghost use Rattle.lie_lin.specs.Systems.{system_of, unknown_of, with_equations, with_unknowns};

use crate::equation::LinEq;
use crate::equations::{put_equation, replace_equation};
use lie_bytes::NoMemory;
use lie_jet::Space;
use std::alloc::Global;
use std::marker::Model;
use std::mem;

/// An unknown polynomial.
#[derive(Clone, Copy, PartialEq, Eq, Debug)]
pub struct Unknown {
    /// Its number.
    pub number: u32,
    /// The variables on which it depends: the bit i for the variable i, where the independent ones come before the dependent ones.
    pub vars: u8,
}

/// A valid linear system for unknown polynomials: its unknowns rise in number, each below `next`; its equations are normalised,
/// distinct and in order; it has a general form for each component of a field; and every derivative that occurs is one of a listed
/// unknown by its own variables, with a polynomial in the p+q variables of the space.
#[derive(Drop)]
pub struct LinSystem {
    space: Space,
    unknowns: Vec<Unknown>,
    equations: Vec<LinEq>,
    general: Vec<LinEq>,
    next: u32,
}

impl Model for LinSystem {
    ghost use Rattle.std.specs.Prelude.{◌+◌};
    ghost use Rattle.lie_systems.specs.ValidSystems.{IsValid};
    ghost use Rattle.lie_lin.specs.Systems.{system_of, SpaceSystem, space_system_code};

    ghost Value = { SpaceSystem };

    ghost coded = { space_system_code };

    ghost view = { λ s. record { space = s.space; system = system_of s.unknowns.items s.equations.items s.general.items s.next } };

    ghost invariant = { λ s. IsValid (s.space.p + s.space.q) (system_of s.unknowns.items s.equations.items s.general.items s.next) };
}

impl LinSystem {
    /// The system with these unknowns, equations and general forms, which make a valid one. They are moved: it takes no memory.
    pub fn new(
        space: Space,
        unknowns: Vec<Unknown>,
        equations: Vec<LinEq>,
        general: Vec<LinEq>,
        next: u32,
    ) -> LinSystem
        requires { IsValid (space.p + space.q) (system_of unknowns.items equations.items general.items next) }
        ensures space { result.space ≡ space }
        ensures system { result.system ≡ system_of unknowns.items equations.items general.items next }
    {
        LinSystem {
            space,
            unknowns,
            equations,
            general,
            next,
        }
    }

    /// The unknowns, the equations and the general forms, which are moved: it takes no memory.
    pub fn into_parts(self) -> (Vec<Unknown>, Vec<LinEq>, Vec<LinEq>)
        ensures unknowns { map unknown_of result.0.items ≡ self.system.unknowns }
        ensures equations { result.1.items ≡ self.system.equations }
        ensures general { result.2.items ≡ self.system.general }
    {
        (self.unknowns, self.equations, self.general)
    }

    /// The numbers of variables.
    pub fn space(&self) -> Space
        ensures space { result ≡ self.now.space }
        ensures valid { IsValid (self.now.space.p + self.now.space.q) self.now.system }
    {
        self.space
    }

    /// The unknowns, which rise in number.
    pub fn unknowns(&self) -> &[Unknown]
        ensures { map unknown_of result.now ≡ self.now.system.unknowns }
    {
        self.unknowns.as_slice()
    }

    /// The equations, in order; each says that a form is 0.
    pub fn equations(&self) -> &[LinEq]
        ensures { result.now ≡ self.now.system.equations }
    {
        self.equations.as_slice()
    }

    /// The general forms, one for each component of a field.
    pub fn general(&self) -> &[LinEq]
        ensures { result.now ≡ self.now.system.general }
    {
        self.general.as_slice()
    }

    /// A number above those of all unknowns.
    pub fn next(&self) -> u32
        ensures { result ≡ self.now.system.next }
    {
        self.next
    }

    /// Removes the equation at a place.
    pub fn remove_equation(&mut self, place: usize) -> LinEq
        requires { place < length self.old.system.equations }
        ensures removed { result ≡ slice_index_or self.old.system.equations place result }
        ensures space { self.new.space ≡ self.old.space }
        ensures system { self.new.system ≡ with_equations self.old.system (remove self.old.system.equations place) }
    {
        self.equations.remove(place)
    }

    /// Puts a normalised equation into its place by the order of equations, unless it is there or is empty. After an error the system
    /// is as it was.
    pub fn put_equation(&mut self, alloc: Global, eq: LinEq) -> Result<(), NoMemory>
        requires { IsEquationFor (self.old.space.p + self.old.space.q) self.old.system eq }
        ensures put { OnOk result (HasUnlessEmpty eq self.old.system.equations self.new.system.equations) }
        ensures space { self.new.space ≡ self.old.space }
        ensures rest { self.new.system ≡ with_equations self.old.system self.new.system.equations }
        ensures kept { OnErr result (self.new ≡ self.old) }
    {
        put_equation(&mut self.equations, alloc, eq)
    }

    /// Removes the equation at a place, and puts a normalised one into its own place by the order of equations, unless it is among the
    /// others or is empty. After an error the system is as it was.
    pub fn replace_equation(
        &mut self,
        alloc: Global,
        place: usize,
        eq: LinEq,
    ) -> Result<(), NoMemory>
        requires place { place < length self.old.system.equations }
        requires equation { IsEquationFor (self.old.space.p + self.old.space.q) self.old.system eq }
        ensures put { OnOk result (HasUnlessEmpty eq (remove self.old.system.equations place) self.new.system.equations) }
        ensures space { self.new.space ≡ self.old.space }
        ensures rest { self.new.system ≡ with_equations self.old.system self.new.system.equations }
        ensures kept { OnErr result (self.new ≡ self.old) }
    {
        replace_equation(&mut self.equations, alloc, place, eq)
    }

    /// Takes the equations out, so that none is left. They are moved: it takes no memory.
    pub fn take_equations(&mut self, alloc: Global) -> Vec<LinEq>
        ensures taken { result.items ≡ self.old.system.equations }
        ensures space { self.new.space ≡ self.old.space }
        ensures system { self.new.system ≡ with_equations self.old.system [] }
    {
        mem::replace(&mut self.equations, Vec::new(alloc))
    }

    /// Puts other equations in the place of those that are there. They are moved: it takes no memory.
    pub fn set_equations(&mut self, equations: Vec<LinEq>)
        requires { IsValid (self.old.space.p + self.old.space.q) (with_equations self.old.system equations.items) }
        ensures space { self.new.space ≡ self.old.space }
        ensures system { self.new.system ≡ with_equations self.old.system equations.items }
    {
        self.equations = equations;
    }

    /// Puts other unknowns in the place of those that are there, and another number above theirs. They are moved: it takes no memory.
    pub fn set_unknowns(&mut self, unknowns: Vec<Unknown>, next: u32)
        requires { IsValid (self.old.space.p + self.old.space.q) (with_unknowns self.old.system (map unknown_of unknowns.items) next) }
        ensures space { self.new.space ≡ self.old.space }
        ensures system { self.new.system ≡ with_unknowns self.old.system (map unknown_of unknowns.items) next }
    {
        self.unknowns = unknowns;
        self.next = next;
    }
}
