//! The three kinds of objects outside.

ghost use Rattle.std.specs.Prelude.{◌≡◌, ℕ, ◌+◌, ◌<◌, ◌≤◌, List, [], length, Option};
ghost use Rattle.ep_outside.specs.Known.{Directory, KeepsFiles};
ghost use Rattle.ep_outside.specs.Answers.{read_faults, write_faults, load_faults, Reads, Writes, Loads, Creates, AppendsTo};

use crate::answers::{LoadAnswer, ReadAnswer, WriteAnswer};

/// Where bytes come from.
pub trait Source {
    /// The bytes that are left, where the source tells them.
    ghost left: { Self → Option (List ℕ) };

    /// How many faults there were.
    ghost faults: { Self → ℕ };

    /// Puts the next bytes in front of the buffer.
    fn read(&mut self, into: &mut [u8]) -> ReadAnswer
        requires { 0 < length into.old }
        ensures reads { Reads result (left self.old) (left self.new) into.new }
        ensures faults { faults self.old + read_faults result ≤ faults self.new };
}

/// Where bytes go.
pub trait Sink {
    /// The bytes that the sink holds, where it tells them.
    ghost held: { Self → Option (List ℕ) };

    /// How many faults there were.
    ghost faults: { Self → ℕ };

    /// Appends a piece.
    fn write(&mut self, piece: &[u8]) -> WriteAnswer
        ensures writes { Writes result (held self.old) (held self.new) piece.now }
        ensures faults { faults self.old + write_faults result ≤ faults self.new };
}

/// Files by name.
pub trait Files {
    /// The bytes of each file, where the files tell them.
    ghost files: { Self → Option Directory };

    /// How many faults there were.
    ghost faults: { Self → ℕ };

    /// Puts the bytes of a file into the buffer, where there are at most `limit`. No file changes.
    fn load(&mut self, name: &[u8], limit: u32, into: &mut Vec<u8>) -> LoadAnswer
        requires { into.old.items ≡ [] }
        ensures loads { Loads result (files self.old) name.now limit into.new.items }
        ensures files { KeepsFiles (files self.old) (files self.new) }
        ensures faults { faults self.old + load_faults result ≤ faults self.new };

    /// Makes the file of that name empty.
    fn create(&mut self, name: &[u8]) -> WriteAnswer
        ensures creates { Creates result (files self.old) (files self.new) name.now }
        ensures faults { faults self.old + write_faults result ≤ faults self.new };

    /// Appends bytes to the file of that name, and makes it where it is missing.
    fn append(&mut self, name: &[u8], bytes: &[u8]) -> WriteAnswer
        ensures appends { AppendsTo result (files self.old) (files self.new) name.now bytes.now }
        ensures faults { faults self.old + write_faults result ≤ faults self.new };
}
