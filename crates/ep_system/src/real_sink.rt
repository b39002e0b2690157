//! A writer of the system as a sink.

ghost use Rattle.std.specs.Prelude.{◌+◌, ◌≤◌};
ghost use Rattle.ep_outside.specs.Answers.{write_faults};

use crate::faults::FaultCount;
use crate::system::write_whole;
use ep_outside::{Sink, WriteAnswer};
use std::io::Write;

/// A sink over a writer of the system. It tells nothing of what the writer holds.
#[derive(Drop)]
pub struct RealSink<W> {
    writer: W,
    faults: FaultCount,
}

impl<W: Write> RealSink<W> {
    ghost use Rattle.ep_system.specs.FaultCounts.{faults_of};

    /// A sink over this writer.
    pub fn new(writer: W) -> RealSink<W> {
        RealSink {
            writer,
            faults: FaultCount::new(),
        }
    }

    /// Counts a fault. A count at the end of its type can't rise, and then the answer is want of memory.
    fn fault(&mut self) -> WriteAnswer
        ensures { faults_of self.old.faults + write_faults result ≤ faults_of self.new.faults }
    {
        if self.faults.rise() {
            WriteAnswer::Failed
        } else {
            WriteAnswer::NoMemory
        }
    }
}

impl<W: Write> Sink for RealSink<W> {
    ghost use Rattle.std.specs.Prelude.{None};
    ghost use Rattle.ep_system.specs.FaultCounts.{faults_of};

    ghost held = { λ _. None };

    ghost faults = { λ s. faults_of s.faults };

    fn write(&mut self, piece: &[u8]) -> WriteAnswer {
        if write_whole(&mut self.writer, piece) {
            return WriteAnswer::Done;
        }
        self.fault()
    }
}
