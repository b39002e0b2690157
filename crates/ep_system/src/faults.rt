//! The count of faults of a real object.

ghost use Rattle.std.specs.Prelude.{◌≡◌, ◌+◌, if◌then◌else◌};

/// How many faults there were. The count stays at the end of its type.
#[derive(Clone, Copy, Debug)]
pub struct FaultCount {
    count: u64,
}

impl FaultCount {
    ghost use Rattle.ep_system.specs.FaultCounts.{faults_of};

    /// No fault so far.
    pub fn new() -> FaultCount
        ensures { faults_of result ≡ 0 }
    {
        FaultCount { count: 0 }
    }

    /// Counts a fault, and tells whether the count rose.
    pub fn rise(&mut self) -> bool
        ensures { faults_of self.new ≡ faults_of self.old + (if result then 1 else 0) }
    {
        if self.count == u64::MAX {
            return false;
        }
        self.count += 1;
        true
    }
}
