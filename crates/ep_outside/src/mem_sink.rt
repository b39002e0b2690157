//! Sinks in memory.

ghost use Rattle.std.specs.Prelude.{◌≡◌, ◌≢◌, ◌↔◌, ◌+◌, ℕ, List, [], Option, Some};
ghost use Rattle.ep_outside.specs.Answers.{write_faults, Writes};
ghost use Rattle.ep_outside.specs.InMemory.{sink_schedule, sink_held, sink_faults, sure_held, WritesHalf};
ghost use Rattle.ep_outside.specs.Schedules.{Begins, FailsNext, CountsCall};

use crate::answers::WriteAnswer;
use crate::schedule::Schedule;
use crate::traits::Sink;
use std::alloc::Global;

/// A sink in memory whose calls of given numbers fail. A failing write keeps the first half of its piece,
/// rounded down.
#[derive(Drop)]
pub struct MemSink {
    held: Vec<u8>,
    schedule: Schedule,
}

impl MemSink {
    /// An empty sink whose calls of these numbers, counted from 1, fail. It takes no memory.
    pub fn new(alloc: Global, fails: Vec<u64>) -> MemSink
        ensures held { ⟦<MemSink as Sink>⟧.held result ≡ Some [] }
        ensures schedule { Begins fails.items (sink_schedule result) }
    {
        MemSink {
            held: Vec::new(alloc),
            schedule: Schedule::new(fails),
        }
    }

    /// The bytes that it holds.
    pub fn held(&self) -> &[u8]
        ensures { ⟦<MemSink as Sink>⟧.held self.now ≡ Some result.now }
    {
        self.held.as_slice()
    }
}

impl Sink for MemSink {
    ghost use Rattle.ep_outside.specs.InMemory.{sink_held, sink_faults};

    ghost held = { sink_held };

    ghost faults = { sink_faults };

    fn write(&mut self, piece: &[u8]) -> WriteAnswer
        ensures writes { Writes result (sink_held self.old) (sink_held self.new) piece.now }
        ensures half { WritesHalf result (sink_held self.old) (sink_held self.new) piece.now }
        ensures fails { (result ≡ WriteAnswer.Failed) ↔ FailsNext (sink_schedule self.old) }
        ensures faults { sink_faults self.new ≡ sink_faults self.old + write_faults result }
        ensures counts { CountsCall (sink_schedule self.old) (sink_schedule self.new) }
    {
        if self.schedule.next_fails() {
            // Where memory is wanting the half that is kept is the empty one.
            let _ = self.held.extend_from_slice(&piece[..piece.len() / 2]);
            return WriteAnswer::Failed;
        }
        match self.held.extend_from_slice(piece) {
            Ok(()) => WriteAnswer::Done,
            Err(_) => WriteAnswer::NoMemory,
        }
    }
}

/// A sink in memory that never fails.
#[derive(Drop)]
pub struct SureSink {
    held: Vec<u8>,
}

impl SureSink {
    /// An empty sink. It takes no memory.
    pub fn new(alloc: Global) -> SureSink
        ensures { ⟦<SureSink as Sink>⟧.held result ≡ Some [] }
    {
        SureSink {
            held: Vec::new(alloc),
        }
    }

    /// The bytes that it holds.
    pub fn held(&self) -> &[u8]
        ensures { ⟦<SureSink as Sink>⟧.held self.now ≡ Some result.now }
    {
        self.held.as_slice()
    }
}

impl Sink for SureSink {
    ghost use Rattle.ep_outside.specs.InMemory.{sure_held};

    ghost held = { sure_held };

    ghost faults = { λ _. 0 };

    fn write(&mut self, piece: &[u8]) -> WriteAnswer
        ensures writes { Writes result (sure_held self.old) (sure_held self.new) piece.now }
        ensures sure { result ≢ WriteAnswer.Failed }
    {
        match self.held.extend_from_slice(piece) {
            Ok(()) => WriteAnswer::Done,
            Err(_) => WriteAnswer::NoMemory,
        }
    }
}
