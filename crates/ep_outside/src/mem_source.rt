//! Sources in memory.

ghost use Rattle.std.specs.Prelude.{◌≡◌, ◌≢◌, ◌↔◌, ◌+◌, ◌<◌, length, Some};
ghost use Rattle.ep_outside.specs.Answers.{read_faults, Reads};
ghost use Rattle.ep_outside.specs.InMemory.{source_schedule, source_left, source_faults, sure_left};
ghost use Rattle.ep_outside.specs.Schedules.{Begins, FailsNext, CountsCall};

use crate::answers::ReadAnswer;
use crate::remainder::Remainder;
use crate::schedule::Schedule;
use crate::traits::Source;
use ep_base::Bytes;

/// A source in memory whose calls of given numbers fail.
#[derive(Drop)]
pub struct MemSource {
    remainder: Remainder,
    schedule: Schedule,
}

impl MemSource {
    /// A source with these bytes left, whose calls of these numbers, counted from 1, fail. It takes no memory.
    pub fn new(held: Bytes, fails: Vec<u64>) -> MemSource
        ensures left { ⟦<MemSource as Source>⟧.left result ≡ Some held }
        ensures schedule { Begins fails.items (source_schedule result) }
    {
        MemSource {
            remainder: Remainder::new(held),
            schedule: Schedule::new(fails),
        }
    }
}

impl Source for MemSource {
    ghost use Rattle.ep_outside.specs.InMemory.{source_left, source_faults};

    ghost left = { source_left };

    ghost faults = { source_faults };

    fn read(&mut self, into: &mut [u8]) -> ReadAnswer
        requires { 0 < length into.old }
        ensures reads { Reads result (source_left self.old) (source_left self.new) into.new }
        ensures buffer { result ≡ ReadAnswer.Failed → into.new ≡ into.old }
        ensures fails { (result ≡ ReadAnswer.Failed) ↔ FailsNext (source_schedule self.old) }
        ensures faults { source_faults self.new ≡ source_faults self.old + read_faults result }
        ensures counts { CountsCall (source_schedule self.old) (source_schedule self.new) }
    {
        if self.schedule.next_fails() {
            return ReadAnswer::Failed;
        }
        ReadAnswer::Got(self.remainder.take(into))
    }
}

/// A source in memory that never fails.
#[derive(Drop)]
pub struct SureSource {
    remainder: Remainder,
}

impl SureSource {
    /// A source with these bytes left. It takes no memory.
    pub fn new(held: Bytes) -> SureSource
        ensures { ⟦<SureSource as Source>⟧.left result ≡ Some held }
    {
        SureSource {
            remainder: Remainder::new(held),
        }
    }
}

impl Source for SureSource {
    ghost use Rattle.ep_outside.specs.InMemory.{sure_left};

    ghost left = { sure_left };

    ghost faults = { λ _. 0 };

    fn read(&mut self, into: &mut [u8]) -> ReadAnswer
        requires { 0 < length into.old }
        ensures reads { Reads result (sure_left self.old) (sure_left self.new) into.new }
        ensures sure { result ≢ ReadAnswer.Failed }
    {
        ReadAnswer::Got(self.remainder.take(into))
    }
}
