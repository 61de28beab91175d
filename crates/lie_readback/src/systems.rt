// The systems that drafts tell.
ghost use Rattle.std.specs.Prelude.{◌≡◌, IfOk};
ghost use Rattle.lie_lin.specs.Systems.{system_of};
ghost use Rattle.lie_system.specs.Written.{AreDistinctLetters};
ghost use Rattle.lie_readback.specs.Readings.{Finds};
ghost use Rattle.lie_readback.specs.DraftViews.{draft_seen};
ghost use Rattle.lie_readback.specs.Groups.{drafted, system_seen, IsMade};
ghost use Rattle.lie_readback.specs.WellFormed.{IsWellFormed, IsWellDrafted};

use crate::drafts::{Draft, Names};
use crate::forms::forms_of;
use crate::unread::Unread;
use lie_bytes::{NoMemory, Text};
use lie_jet::Space;
use lie_lin::{LinEq, LinSystem, Unknown};
use std::alloc::Global;

/// The text of letters. An error where there is no memory.
pub fn text_of(alloc: Global, letters: Vec<u8>) -> Result<Text, NoMemory>
    requires { AreDistinctLetters letters.items }
    ensures { IfOk result (λ names. names ≡ letters.items) }
{
    match Text::of(alloc, letters.as_slice())? {
        Some(names) => Ok(names),
        None => unreachable!(),
    }
}

// The system with these parts, where they make a valid one.
fn valid_system(
    alloc: Global,
    space: Space,
    unknowns: Vec<Unknown>,
    equations: Vec<LinEq>,
    general: Vec<LinEq>,
    next: u32,
) -> Result<LinSystem, Unread>
    ensures { IsMade space (system_of unknowns.items equations.items general.items next) result }
{
    match LinSystem::of_parts(alloc, space, unknowns, equations, general, next)? {
        Some(system) => Ok(system),
        None => Err(Unread::Other),
    }
}

/// The system that is written so, with its names. An error where there is none, or no memory.
pub fn system_of(alloc: Global, draft: Draft) -> Result<(Text, LinSystem), Unread>
    requires { IsWellDrafted (draft_seen draft) }
    ensures value { Finds system_seen IsWellFormed drafted (draft_seen draft) result }
    ensures kept { IfOk result (λ s. IsWellFormed (system_seen s)) }
{
    let Draft {
        names,
        unknowns,
        general,
        equations,
    } = draft;
    let Names { space, letters } = names;
    let general = forms_of(alloc, general)?;
    let equations = forms_of(alloc, equations)?;
    let next = unknowns.len() as u32 + 1;
    let system = valid_system(alloc, space, unknowns, equations, general, next)?;
    let names = text_of(alloc, letters)?;
    Ok((names, system))
}
