// The rows that a keeper holds.
ghost use Rattle.std.specs.Prelude.{◌≡◌, IfOk};

use crate::{Name, NoMemory, Text};
use std::alloc::Global;

/// No keeper holds more rows.
pub const MAX_ROWS: u32 = 10_000;

/// A kept study.
#[derive(Drop, Debug)]
pub struct Row {
    /// Its name.
    pub name: Name,
    /// The canonical text of its system.
    pub text: Text,
    /// Its report.
    pub report: Text,
}

impl Row {
    /// An equal row. `NoMemory` where there is none for it.
    pub fn copy(&self, alloc: Global) -> Result<Row, NoMemory>
        ensures { IfOk result (λ row. row ≡ self.now) }
    {
        Ok(Row {
            name: self.name.copy(alloc)?,
            text: self.text.copy(alloc)?,
            report: self.report.copy(alloc)?,
        })
    }
}
