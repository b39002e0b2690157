//! A reader of the system as a source.

use crate::faults::FaultCount;
use crate::system::read_some;
use ep_outside::{ReadAnswer, Source};
use std::io::Read;

/// A source over a reader of the system. It tells nothing of what the reader has left.
#[derive(Drop)]
pub struct RealSource<R> {
    reader: R,
    faults: FaultCount,
}

impl<R: Read> RealSource<R> {
    /// A source over this reader.
    pub fn new(reader: R) -> RealSource<R> {
        RealSource {
            reader,
            faults: FaultCount::new(),
        }
    }
}

impl<R: Read> Source for RealSource<R> {
    ghost use Rattle.std.specs.Prelude.{None};
    ghost use Rattle.ep_system.specs.FaultCounts.{faults_of};

    ghost left = { λ _. None };

    ghost faults = { λ s. faults_of s.faults };

    /// Where the count of faults is at the end of its type, a fault counts as the end of the input.
    fn read(&mut self, into: &mut [u8]) -> ReadAnswer {
        if let Some(count) = read_some(&mut self.reader, into) {
            return ReadAnswer::Got(count);
        }
        if self.faults.rise() {
            ReadAnswer::Failed
        } else {
            ReadAnswer::Got(0)
        }
    }
}
