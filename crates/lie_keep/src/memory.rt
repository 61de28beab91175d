// The keeper in memory, which tells its rows and fails at the calls that it is told to fail at.
ghost use Rattle.std.specs.Prelude.{◌≡◌, ◌↔◌, IsTrue, IsErrOf, Some, MatchBool};
ghost use Rattle.lie_outer.specs.Causes.{RoseByOne};
ghost use Rattle.lie_outer.specs.Rows.{AreRows};
ghost use Rattle.lie_outer.specs.Keeper.{Gets, Lists, PutsRow, DropsRow, CountsKeeper, CountsPutRow};
ghost use Rattle.lie_outer.specs.Plans.{FailsNext, CountsCall, IsNewPlan};
ghost use Rattle.lie_keep.specs.Memory.{kept_rows};

use crate::rows::Rows;
use lie_outer::{Keeper, KeeperFail, Name, Plan, PutFail, Row};
use std::alloc::Global;

/// A keeper in memory. It tells its rows.
#[derive(Drop)]
pub struct MemoryKeeper {
    rows: Rows,
    plan: Plan,
    faults: u64,
}

impl MemoryKeeper {
    /// Holds the rows. The calls with the numbers in `fails` will fail; they count from 1.
    pub fn new(rows: Vec<Row>, fails: Vec<u64>) -> MemoryKeeper
        requires { AreRows rows.items }
        ensures rows { kept_rows result ≡ rows.items }
        ensures plan { IsNewPlan result.plan fails.items }
        ensures fresh { result.faults ≡ 0 }
    {
        MemoryKeeper {
            rows: Rows::new(rows),
            plan: Plan::new(fails),
            faults: 0,
        }
    }

    // Counts a call, and a fault where the call is to fail, which it says.
    fn fails(&mut self) -> bool
        ensures kept { kept_rows self.new ≡ kept_rows self.old }
        ensures rows { AreRows (kept_rows self.new) }
        ensures fails { IsTrue result ↔ FailsNext self.old.plan }
        ensures counted { CountsCall self.old.plan self.new.plan }
        ensures faults { MatchBool result (RoseByOne self.old.faults self.new.faults) (self.new.faults ≡ self.old.faults) }
    {
        self.rows.are_rows();
        let fails = self.plan.next_fails();
        if fails {
            self.faults = self.faults.saturating_add(1);
        }
        fails
    }
}

impl Keeper for MemoryKeeper {
    ghost held = { λ keeper. Some (kept_rows keeper) };

    ghost fault_count = { λ keeper. keeper.faults };

    fn faults(&self) -> u64 {
        self.faults
    }

    fn get(&mut self, alloc: Global, name: &Name) -> Result<Option<Row>, KeeperFail>
        ensures kept { Some (kept_rows self.new) ≡ Some (kept_rows self.old) }
        ensures rows { AreRows (kept_rows self.new) }
        ensures content { Gets (kept_rows self.old) name.now result }
        ensures cause { CountsKeeper self.old.faults self.new.faults result }
        // It fails at the calls that it was told to fail at, and at no other.
        ensures planned { IsErrOf result KeeperFail.Failed ↔ FailsNext self.old.plan }
        ensures counted { CountsCall self.old.plan self.new.plan }
    {
        if self.fails() {
            return Err(KeeperFail::Failed);
        }
        let Some(row) = self.rows.find(name) else {
            return Ok(None);
        };
        Ok(Some(row.copy(alloc)?))
    }

    fn put(&mut self, alloc: Global, row: &Row) -> Result<(), PutFail>
        ensures rows { AreRows (kept_rows self.new) }
        ensures content { PutsRow row.now result (kept_rows self.old) (kept_rows self.new) }
        ensures cause { CountsPutRow self.old.faults self.new.faults result }
        // It fails at the calls that it was told to fail at, and at no other.
        ensures planned { IsErrOf result PutFail.Failed ↔ FailsNext self.old.plan }
        ensures counted { CountsCall self.old.plan self.new.plan }
    {
        if self.fails() {
            return Err(PutFail::Failed);
        }
        if self.rows.find(&row.name).is_some() {
            return Err(PutFail::Taken);
        }
        if self.rows.is_full() {
            return Err(PutFail::Full);
        }
        let copy = row.copy(alloc)?;
        self.rows.push(copy)?;
        Ok(())
    }

    fn drop_row(&mut self, _alloc: Global, name: &Name) -> Result<bool, KeeperFail>
        ensures rows { AreRows (kept_rows self.new) }
        ensures content { DropsRow name.now result (kept_rows self.old) (kept_rows self.new) }
        ensures cause { CountsKeeper self.old.faults self.new.faults result }
        // It takes no memory.
        ensures memory { IsErrOf result KeeperFail.NoMemory → ⊥ }
        // It fails at the calls that it was told to fail at, and at no other.
        ensures planned { IsErrOf result KeeperFail.Failed ↔ FailsNext self.old.plan }
        ensures counted { CountsCall self.old.plan self.new.plan }
    {
        if self.fails() {
            return Err(KeeperFail::Failed);
        }
        Ok(self.rows.remove(name))
    }

    fn list(&mut self, alloc: Global, from: u32, n: u32) -> Result<Vec<Name>, KeeperFail>
        ensures kept { Some (kept_rows self.new) ≡ Some (kept_rows self.old) }
        ensures rows { AreRows (kept_rows self.new) }
        ensures content { Lists (kept_rows self.old) from n result }
        ensures cause { CountsKeeper self.old.faults self.new.faults result }
        // It fails at the calls that it was told to fail at, and at no other.
        ensures planned { IsErrOf result KeeperFail.Failed ↔ FailsNext self.old.plan }
        ensures counted { CountsCall self.old.plan self.new.plan }
    {
        if self.fails() {
            return Err(KeeperFail::Failed);
        }
        Ok(self.rows.names(alloc, from as usize, n as usize)?)
    }
}
