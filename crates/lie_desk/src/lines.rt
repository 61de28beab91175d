// The texts that the desk puts.
ghost use Rattle.std.specs.Prelude.{◌≡◌, IfOk};
ghost use Rattle.lie_desk.specs.Lines.{names_text, dropped_text};

use lie_outer::{Name, NoMemory};
use std::alloc::Global;

/// The names, each with a line end.
pub fn names_text(alloc: Global, names: &[Name]) -> Result<Vec<u8>, NoMemory>
    ensures { IfOk result (λ text. text.items ≡ names_text names.now) }
{
    let mut text = Vec::new(alloc);
    for name in names {
        text.extend_from_slice(name.bytes())?;
        text.push(b'\n')?;
    }
    Ok(text)
}

/// The line that tells that the row of a name went.
pub fn dropped_text(alloc: Global, name: &Name) -> Result<Vec<u8>, NoMemory>
    ensures { IfOk result (λ text. text.items ≡ dropped_text name.now) }
{
    let mut text = Vec::new(alloc);
    text.extend_from_slice(b"dropped ")?;
    text.extend_from_slice(name.bytes())?;
    text.push(b'\n')?;
    Ok(text)
}
