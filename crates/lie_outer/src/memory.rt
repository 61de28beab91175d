// Fakes: files and a sink in memory, which tell what they hold and fail at the calls that they are told to fail at.
ghost use Rattle.std.specs.Prelude.{◌≡◌, ◌≤◌, ◌↔◌, IsErrOf, IfOk, Some, length, option_copied};
ghost use Rattle.lie_outer.specs.Files.{file_at, Reads, CountsRead};
ghost use Rattle.lie_outer.specs.Sink.{Puts, CountsPut};
ghost use Rattle.lie_outer.specs.Memory.{files_of, bytes_of};
ghost use Rattle.lie_outer.specs.Plans.{FailsNext, CountsCall, IsNewPlan};

use crate::{Bytes, FileFail, Files, Plan, Sink, SinkFail, Text};
use std::alloc::Global;

/// Files in memory. They tell what they hold.
#[derive(Drop)]
pub struct MemoryFiles {
    content: Vec<(Text, Bytes)>,
    plan: Plan,
    faults: u64,
}

impl MemoryFiles {
    /// Holds the files, each with its name. The reads with the numbers in `fails` will fail; they count from 1.
    pub fn new(content: Vec<(Text, Bytes)>, fails: Vec<u64>) -> MemoryFiles
        ensures content { files_of result ≡ content.items }
        ensures plan { IsNewPlan result.plan fails.items }
        ensures fresh { result.faults ≡ 0 }
    {
        MemoryFiles {
            content,
            plan: Plan::new(fails),
            faults: 0,
        }
    }
}

// The first file of the name.
fn find<'a>(content: &'a [(Text, Bytes)], name: &str) -> Option<&'a [u8]>
    ensures { option_copied result ≡ file_at content.now name.now }
{
    for file in content {
        if file.0.bytes() == name.as_bytes() {
            return Some(file.1.bytes());
        }
    }
    None
}

impl Files for MemoryFiles {
    ghost held = { λ files. Some (files_of files) };

    ghost fault_count = { λ files. files.faults };

    fn faults(&self) -> u64 {
        self.faults
    }

    fn read(&mut self, alloc: Global, name: &str, max: usize) -> Result<Bytes, FileFail>
        ensures kept { Some (files_of self.new) ≡ Some (files_of self.old) }
        ensures bound { IfOk result (λ bytes. length bytes ≤ max) }
        ensures content { Reads (files_of self.old) name.now max result }
        ensures cause { CountsRead self.old.faults self.new.faults result }
        // It fails at the calls that it was told to fail at, and at no other.
        ensures planned { IsErrOf result FileFail.Failed ↔ FailsNext self.old.plan }
        ensures counted { CountsCall self.old.plan self.new.plan }
    {
        if self.plan.next_fails() {
            self.faults = self.faults.saturating_add(1);
            return Err(FileFail::Failed);
        }
        let Some(bytes) = find(&self.content, name) else {
            return Err(FileFail::Missing);
        };
        if bytes.len() > max {
            return Err(FileFail::TooLong);
        }
        Bytes::of(alloc, bytes).map_err(|_| FileFail::NoMemory)
    }
}

/// A sink in memory. It tells what it took.
#[derive(Drop)]
pub struct MemorySink {
    taken: Vec<u8>,
    plan: Plan,
    faults: u64,
    starved: u64,
}

impl MemorySink {
    /// Has taken the content. The puts with the numbers in `fails` will fail; they count from 1.
    pub fn new(content: Bytes, fails: Vec<u64>) -> MemorySink
        ensures content { bytes_of result ≡ content }
        ensures plan { IsNewPlan result.plan fails.items }
        ensures fresh { (result.faults ≡ 0) × (result.starved ≡ 0) }
    {
        MemorySink {
            taken: content.into_vec(),
            plan: Plan::new(fails),
            faults: 0,
            starved: 0,
        }
    }

    /// All bytes that it took, from the first on.
    pub fn taken(&self) -> &[u8]
        ensures { result.now ≡ bytes_of self.now }
    {
        &self.taken
    }
}

impl Sink for MemorySink {
    ghost taken = { λ sink. Some (bytes_of sink) };

    ghost fault_count = { λ sink. sink.faults };

    ghost starved_count = { λ sink. sink.starved };

    ghost put_count = { λ sink. sink.plan.calls };

    fn faults(&self) -> u64 {
        self.faults
    }

    fn starved(&self) -> u64 {
        self.starved
    }

    fn put(&mut self, _alloc: Global, bytes: &[u8]) -> Result<(), SinkFail>
        ensures content { Puts (Some (bytes_of self.old)) (Some (bytes_of self.new)) result bytes.now }
        ensures cause { CountsPut self.old.faults self.new.faults self.old.starved self.new.starved result }
        // It fails at the calls that it was told to fail at, and at no other.
        ensures planned { IsErrOf result SinkFail.Failed ↔ FailsNext self.old.plan }
        ensures counted { CountsCall self.old.plan self.new.plan }
    {
        if self.plan.next_fails() {
            self.faults = self.faults.saturating_add(1);
            return Err(SinkFail::Failed);
        }
        if self.taken.extend_from_slice(bytes).is_err() {
            self.starved = self.starved.saturating_add(1);
            return Err(SinkFail::NoMemory);
        }
        Ok(())
    }
}
