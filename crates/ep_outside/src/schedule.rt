//! Which calls of an object in memory are to fail.

ghost use Rattle.std.specs.Prelude.{◌≡◌, ◌↔◌, ◌+◌, if◌then◌else◌, IsTrue};

/// Counts the calls of an object, and its faults.
#[derive(Drop)]
pub struct Schedule {
    calls: u64,
    fails: Vec<u64>,
    faults: u64,
}

impl Schedule {
    ghost use Rattle.ep_outside.specs.Schedules.{faults_of, Begins, FailsNext, CountsCall};

    /// No call so far; the calls of these numbers, counted from 1, are to fail.
    pub fn new(fails: Vec<u64>) -> Schedule
        ensures { Begins fails.items result }
    {
        Schedule {
            calls: 0,
            fails,
            faults: 0,
        }
    }

    /// Counts a call, and tells whether it is to fail. The counts stay at their ends, and no call fails there.
    pub fn next_fails(&mut self) -> bool
        ensures fails { IsTrue result ↔ FailsNext self.old }
        ensures faults { faults_of self.new ≡ faults_of self.old + (if result then 1 else 0) }
        ensures counts { CountsCall self.old self.new }
    {
        self.calls = self.calls.saturating_add(1);
        if self.faults == u64::MAX || !self.fails.contains(&self.calls) {
            return false;
        }
        self.faults += 1;
        true
    }
}
