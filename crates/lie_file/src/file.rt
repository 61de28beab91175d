// The system of a file, by its lines.
ghost use Rattle.std.specs.Prelude.{◌≡◌, ◌≤◌, ◌+◌, ◌-◌, length, map};
ghost use Rattle.lie_file.specs.FileLines.{ReadsFile, AreShort};
ghost use Rattle.lie_file.specs.Files.{system_of};
ghost use Rattle.lie_system.specs.KeptSystems.{system_read};
ghost use Rattle.lie_scan.specs.Limits.{greatest_text_length};

use crate::equations::equations_of;
use crate::lines::FileFail;
use crate::names::{after_header, names_of};
use lie_bytes::Text;
use lie_jet::Space;
use lie_system::System;
use std::alloc::Global;

/// The system that the lines of a file spell, or its first fault.
#[tactic(auto, unfolding(crate::specs::Files::system_of))]
pub fn system_of(alloc: Global, lines: &[&[u8]]) -> Result<System, FileFail>
    requires few { length lines.now ≤ greatest_text_length + 1 }
    requires short { AreShort (map (λ l. l.now) lines.now) }
    ensures { ReadsFile system_read result (system_of (map (λ l. l.now) lines.now)) }
{
    let rest = after_header(lines)?;
    let (independent, rest) = names_of(alloc, b"vars".as_slice(), b"".as_slice(), rest)?;
    let (names, rest) = names_of(alloc, b"deps".as_slice(), independent.as_slice(), rest)?;
    let space = Space {
        p: independent.len() as u8,
        q: (names.len() - independent.len()) as u8,
    };
    let equations = equations_of(alloc, space, names.as_slice(), rest)?;
    match Text::of(alloc, names.as_slice())? {
        Some(names) => Ok(System {
            space,
            names,
            equations,
        }),
        None => unreachable!(),
    }
}
