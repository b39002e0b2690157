//! Fields, written one after another.

ghost use Rattle.std.specs.Prelude.{◌≡◌, ◌<◌, ◌^◌, ◌++◌, [], ◌∷◌, length, OnOk, OnErr};
ghost use Rattle.ep_fields.specs.Fields.{byte_field, integer, number};

use ep_base::{Bytes, List, NoMemory};
use std::alloc::Global;
use std::marker::Model;

/// Bytes that are written field by field, seen as those that were written.
#[derive(Drop)]
pub struct FieldWriter {
    written: Vec<u8>,
}

impl Model for FieldWriter {
    ghost use Rattle.std.specs.Prelude.{List, ℕ};

    ghost Value = { List ℕ };

    ghost view = { λ w. w.written.items };
}

impl FieldWriter {
    /// Nothing written. It takes no memory.
    pub fn new(alloc: Global) -> FieldWriter
        ensures { result ≡ [] }
    {
        FieldWriter {
            written: Vec::new(alloc),
        }
    }

    /// Appends a number of one byte. Where memory is wanting nothing is appended.
    pub fn u8(&mut self, v: u8) -> Result<(), NoMemory>
        ensures ok { OnOk result (self.new ≡ self.old ++ v ∷ []) }
        ensures err { OnErr result (self.new ≡ self.old) }
    {
        self.written.push(v)?;
        Ok(())
    }

    /// Appends a number of four bytes. Where memory is wanting nothing is appended.
    pub fn u32(&mut self, v: u32) -> Result<(), NoMemory>
        ensures ok { OnOk result (self.new ≡ self.old ++ number v) }
        ensures err { OnErr result (self.new ≡ self.old) }
    {
        self.written.extend_from_slice(&v.to_be_bytes())?;
        Ok(())
    }

    /// Appends a number with a sign, of eight bytes. Where memory is wanting nothing is appended.
    pub fn i64(&mut self, v: i64) -> Result<(), NoMemory>
        ensures ok { OnOk result (self.new ≡ self.old ++ integer v) }
        ensures err { OnErr result (self.new ≡ self.old) }
    {
        self.written.extend_from_slice(&v.to_be_bytes())?;
        Ok(())
    }

    /// Appends a byte field of fewer than 2^32 bytes, as a name is. Where memory is wanting nothing is appended.
    pub fn bytes(&mut self, v: &[u8]) -> Result<(), NoMemory>
        requires { length v.now < 2 ^ 32 }
        ensures ok { OnOk result (self.new ≡ self.old ++ byte_field v.now) }
        ensures err { OnErr result (self.new ≡ self.old) }
    {
        let before = self.written.len();
        self.u32(v.len() as u32)?;
        match self.written.extend_from_slice(v) {
            Ok(()) => Ok(()),
            Err(refusal) => {
                self.written.truncate(before);
                Err(refusal)
            }
        }
    }

    /// What was written. It takes no memory.
    pub fn finish(self) -> Bytes
        ensures { result ≡ self }
    {
        List::from_vec(self.written)
    }
}
