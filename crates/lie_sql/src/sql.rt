// The keeper over a SQLite file: the edge at which nothing is proved of the rows.
ghost use Rattle.std.specs.Prelude.{◌≡◌, None, IfOk};
ghost use Rattle.lie_outer.specs.Keeper.{CountsKeeper};

use crate::table::{self, Database, Entry};
use lie_bytes::NoMemory;
use lie_outer::{Keeper, KeeperFail, Name, PutFail, Row};
use std::alloc::Global;

/// A keeper over a SQLite file. What it keeps isn't told: only the causes of the answers are. The file is open, and so locked for
/// others, during a call and not between calls.
#[derive(Drop)]
pub struct SqlKeeper {
    rt: HostRuntime,
    path: String,
    faults: u64,
}

impl SqlKeeper {
    /// A keeper over the file of the path, which its first call makes where there is none. `NoMemory` where there is none to keep the path.
    pub fn new(rt: &HostRuntime, alloc: Global, path: &str) -> Result<SqlKeeper, NoMemory>
        ensures { IfOk result (λ made. made.faults ≡ 0) }
    {
        Ok(SqlKeeper {
            rt: rt.clone()?,
            path: String::from_str(alloc, path)?,
            faults: 0,
        })
    }

    // What the work answers on the open file. A failure is counted.
    fn ask<T, W: FnOnce(&mut Database) -> Result<T, KeeperFail>>(
        &mut self,
        work: W,
    ) -> Result<T, KeeperFail>
        requires { W.IsAlwaysCallable work }
        ensures cause { CountsKeeper self.old.faults self.new.faults result }
    {
        let answer = table::with_open(&self.rt, &self.path, work);
        if let Err(KeeperFail::Failed) = &answer {
            self.faults = self.faults.saturating_add(1);
        }
        answer
    }
}

impl Keeper for SqlKeeper {
    ghost held = { λ _. None };

    ghost fault_count = { λ keeper. keeper.faults };

    fn faults(&self) -> u64 {
        self.faults
    }

    fn get(&mut self, alloc: Global, name: &Name) -> Result<Option<Row>, KeeperFail> {
        self.ask(|database| table::get(database, alloc, name))
    }

    fn put(&mut self, _alloc: Global, row: &Row) -> Result<(), PutFail> {
        match self.ask(|database| table::enter(database, row)) {
            Ok(Entry::Made) => Ok(()),
            Ok(Entry::Taken) => Err(PutFail::Taken),
            Ok(Entry::Full) => Err(PutFail::Full),
            Err(KeeperFail::Failed) => Err(PutFail::Failed),
            Err(KeeperFail::NoMemory) => Err(PutFail::NoMemory),
        }
    }

    fn drop_row(&mut self, _alloc: Global, name: &Name) -> Result<bool, KeeperFail> {
        self.ask(|database| table::drop_row(database, name))
    }

    fn list(&mut self, alloc: Global, from: u32, n: u32) -> Result<Vec<Name>, KeeperFail> {
        self.ask(|database| table::list(database, alloc, from, n))
    }
}
