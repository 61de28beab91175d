// A keeper of studies, as a trait: what its calls answer and change, and when they may fail.
ghost use Rattle.std.specs.Prelude.{◌≡◌, ℕ, List, IfSome};
ghost use Rattle.std.specs.declared.option.Option.{Option};
ghost use Rattle.lie_outer.specs.declared.keeper.KeeperFail.TheVariants as fails;
ghost use Rattle.lie_outer.specs.declared.keeper.PutFail.TheVariants as put_fails;
ghost use Rattle.lie_outer.specs.declared.rows.Row.{Row as ARow};
ghost use Rattle.lie_outer.specs.Rows.{AreRows};
ghost use Rattle.lie_outer.specs.Keeper.{Changes, Gets, Lists, PutsRow, DropsRow, CountsKeeper, CountsPutRow};

use crate::{Name, NoMemory, Row};
use std::alloc::Global;

/// Why a keeper gave no answer.
#[derive(Clone, Copy, Debug, PartialEq, Eq)]
pub enum KeeperFail {
    /// The call failed, and was counted.
    Failed,
    /// There was no memory.
    NoMemory,
}

impl From<NoMemory> for KeeperFail {
    ghost from_gives = { λ _ fail. fail ≡ fails.NoMemory };

    fn from(_error: NoMemory) -> KeeperFail {
        KeeperFail::NoMemory
    }
}

/// Why a keeper took no row.
#[derive(Clone, Copy, Debug, PartialEq, Eq)]
pub enum PutFail {
    /// A row has the name.
    Taken,
    /// No row has the name, and there are as many rows as may be.
    Full,
    /// The call failed, and was counted.
    Failed,
    /// There was no memory.
    NoMemory,
}

impl From<NoMemory> for PutFail {
    ghost from_gives = { λ _ fail. fail ≡ put_fails.NoMemory };

    fn from(_error: NoMemory) -> PutFail {
        PutFail::NoMemory
    }
}

/// Keeps studies by name: a list of rows, at most `MAX_ROWS`, whose names differ. An implementation may tell its rows; where it does,
/// contracts speak of them.
pub trait Keeper {
    /// The rows in order of entry, where they are told.
    ghost held: { Self → Option (List ARow) };

    /// How often a call has failed. It never falls, and stands still at the end of its type.
    ghost fault_count: { Self → ℕ };

    /// How often a call has failed.
    fn faults(&self) -> u64
        ensures { result ≡ fault_count self.now };

    /// The row of the name, or `None` exactly where there is none. The rows stay as they were.
    fn get(&mut self, alloc: Global, name: &Name) -> Result<Option<Row>, KeeperFail>
        ensures kept { held self.new ≡ held self.old }
        ensures rows { IfSome (held self.new) AreRows }
        ensures content { IfSome (held self.old) (λ rows. Gets rows name.now result) }
        ensures cause { CountsKeeper (fault_count self.old) (fault_count self.new) result };

    /// Appends the row. `Taken` and `Full` come exactly as they say, and after an `Err` the rows are as they were.
    fn put(&mut self, alloc: Global, row: &Row) -> Result<(), PutFail>
        ensures rows { IfSome (held self.new) AreRows }
        ensures content { Changes (held self.old) (held self.new) (PutsRow row.now result) }
        ensures cause { CountsPutRow (fault_count self.old) (fault_count self.new) result };

    /// Takes the row of the name out, and says whether there was one. After an `Err` the rows are as they were.
    fn drop_row(&mut self, alloc: Global, name: &Name) -> Result<bool, KeeperFail>
        ensures rows { IfSome (held self.new) AreRows }
        ensures content { Changes (held self.old) (held self.new) (DropsRow name.now result) }
        ensures cause { CountsKeeper (fault_count self.old) (fault_count self.new) result };

    /// The names of the `n` rows behind the first `from`, in order of entry, or of as many as there are. The rows stay as they were.
    fn list(&mut self, alloc: Global, from: u32, n: u32) -> Result<Vec<Name>, KeeperFail>
        ensures kept { held self.new ≡ held self.old }
        ensures rows { IfSome (held self.new) AreRows }
        ensures content { IfSome (held self.old) (λ rows. Lists rows from n result) }
        ensures cause { CountsKeeper (fault_count self.old) (fault_count self.new) result };
}
