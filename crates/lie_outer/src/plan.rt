// Which calls of a fake are to fail.
ghost use Rattle.std.specs.Prelude.{◌↔◌, IsTrue};
ghost use Rattle.lie_outer.specs.Plans.{FailsNext, CountsCall, IsNewPlan};

/// The numbers of the calls that are to fail, from 1 on, and how many calls there were. A fake keeps one, and asks it at each call.
#[derive(Drop)]
pub struct Plan {
    fails: Vec<u64>,
    calls: u64,
}

impl Plan {
    /// No call was made, and the calls with these numbers will fail.
    pub fn new(fails: Vec<u64>) -> Plan
        ensures { IsNewPlan result fails.items }
    {
        Plan { fails, calls: 0 }
    }

    /// Counts a call, and says whether it is to fail.
    pub fn next_fails(&mut self) -> bool
        ensures fails { IsTrue result ↔ FailsNext self.old }
        ensures counted { CountsCall self.old self.new }
    {
        self.calls = self.calls.saturating_add(1);
        self.fails.contains(&self.calls)
    }
}
