//! Fields, read from left to right.

ghost use Rattle.std.specs.Prelude.{◌≡◌, ◌==◌, ◌+◌, ◌≤◌, length, IfOk, IfSome, List, Option, ℕ};
ghost use Rattle.std.specs.Option.{option_map};
ghost use Rattle.ep_fields.specs.Fields.{Reads, byte_at, byte_field_at, bytes_at, field_of, integer_at, name_at, number_at};
ghost use Rattle.ep_fields.specs.Names.{name_if};

use crate::refusal::FieldRefusal;
use ep_base::{Name, NameRefusal, NoMemory};
use std::alloc::{AllocError, Global};
use std::marker::Model;

/// Bytes that are read field by field. Contracts see it as where it stands.
#[derive(Drop)]
pub struct FieldReader<'a> {
    bytes: &'a [u8],
    /// How many bytes stand before it.
    place: usize,
}

impl<'a> Model for FieldReader<'a> {
    ghost use Rattle.std.specs.Prelude.{◌≤◌, length, drop};
    ghost use Rattle.ep_fields.specs.Fields.{Position};

    ghost Value = { Position };

    ghost view = { λ r. record { place = r.place; rest = drop r.place r.bytes.now } };

    ghost invariant = { λ r. r.place ≤ length r.bytes.now };
}

impl<'a> FieldReader<'a> {
    /// A reader at place 0 of these bytes. It takes no memory.
    pub fn over(bytes: &'a [u8]) -> FieldReader<'a>
        ensures { (result.place ≡ 0) × (result.rest ≡ bytes.now) }
    {
        FieldReader { bytes, place: 0 }
    }

    /// Where it stands: how many bytes are before it.
    pub fn place(&self) -> u64
        ensures { result ≡ self.now.place }
    {
        self.place as u64
    }

    /// Whether no byte is left.
    pub fn at_end(&self) -> bool
        ensures { result ≡ (length self.now.rest == 0) }
    {
        self.place == self.bytes.len()
    }

    /// The bytes that are left.
    fn rest(&self) -> &'a [u8]
        ensures { result.now ≡ self.now.rest }
    {
        &self.bytes[self.place..]
    }

    /// The next so many bytes. `Short` comes exactly where fewer are left.
    fn take(&mut self, count: usize) -> Result<&'a [u8], FieldRefusal>
        ensures { Reads (λ b. b.now) result self.old self.new (bytes_at count self.old) }
    {
        let rest = self.rest();
        if rest.len() < count {
            return Err(FieldRefusal::Short(self.place as u64));
        }
        self.place += count;
        Ok(&rest[..count])
    }

    /// A number of one byte. `Short` comes exactly where none is left. It takes no memory.
    #[tactic(auto, unfolding(crate::specs::Fields::byte_at))]
    pub fn u8(&mut self) -> Result<u8, FieldRefusal>
        ensures { Reads (λ n. n) result self.old self.new (byte_at self.old) }
    {
        let front = self.take(1)?;
        Ok(u8::from_be_bytes([front[0]]))
    }

    /// A number of four bytes, as the count of a list is. `Short` comes exactly where fewer are left. It takes no memory.
    #[tactic(auto, unfolding(crate::specs::Fields::number_at))]
    pub fn u32(&mut self) -> Result<u32, FieldRefusal>
        ensures { Reads (λ n. n) result self.old self.new (number_at self.old) }
    {
        let front = self.take(4)?;
        Ok(u32::from_be_bytes([front[0], front[1], front[2], front[3]]))
    }

    /// A number with a sign, of eight bytes. `Short` comes exactly where fewer are left. It takes no memory.
    #[tactic(auto, unfolding(crate::specs::Fields::integer_at))]
    pub fn i64(&mut self) -> Result<i64, FieldRefusal>
        ensures { Reads (λ z. z) result self.old self.new (integer_at self.old) }
    {
        let front = self.take(8)?;
        Ok(i64::from_be_bytes([
            front[0], front[1], front[2], front[3], front[4], front[5], front[6], front[7],
        ]))
    }

    /// A byte field: a count and that many bytes, which are a part of those that are read. `Short` comes exactly where
    /// the count or the bytes are not all there. It takes no memory.
    pub fn bytes(&mut self) -> Result<&'a [u8], FieldRefusal>
        ensures { Reads (λ b. b.now) result self.old self.new (byte_field_at self.old) }
    {
        let Some(text) = field_of(self.rest()) else {
            return Err(FieldRefusal::Short(self.place as u64));
        };
        self.place += 4 + text.len();
        Ok(text)
    }

    /// A byte field that holds a name in lower case. `Short` comes exactly where the count or the bytes are not all
    /// there, `Bad` exactly where they are no such name.
    pub fn name(&mut self, alloc: Global) -> Result<Name, FieldRefusal>
        ensures { Reads (λ name. name) result self.old self.new (name_at self.old) }
    {
        let Some(text) = field_of(self.rest()) else {
            return Err(FieldRefusal::Short(self.place as u64));
        };
        let Some(name) = name_of(alloc, text)? else {
            return Err(FieldRefusal::Bad(self.place as u64));
        };
        self.place += 4 + text.len();
        Ok(name)
    }
}

/// The bytes of the byte field at the front. `None` comes exactly where it is not all there.
fn field_of(bytes: &[u8]) -> Option<&[u8]>
    ensures is { option_map (λ t. t.now) result ≡ field_of bytes.now }
    ensures within { IfSome result (λ t. 4 + length t.now ≤ length bytes.now) }
{
    if bytes.len() < 4 {
        return None;
    }
    let (front, rest) = bytes.split_at(4);
    let count = u32::from_be_bytes([front[0], front[1], front[2], front[3]]) as usize;
    if rest.len() < count {
        return None;
    }
    Some(&rest[..count])
}

/// The name that a text is. `None` comes exactly where it is no name in lower case.
#[tactic(auto, using(crate::proofs::Names::no_identifier, crate::proofs::Names::too_long))]
fn name_of(alloc: Global, text: &[u8]) -> Result<Option<Name>, NoMemory>
    ensures { IfOk result (λ (found : Option (List ℕ)). found ≡ name_if text.now) }
{
    match Name::from_bytes(alloc, text) {
        Ok(name) => {
            if name.bytes() == text {
                Ok(Some(name))
            } else {
                Ok(None)
            }
        }
        Err(NameRefusal::NoMemory) => Err(AllocError),
        Err(NameRefusal::NotAName | NameRefusal::TooLong(_)) => Ok(None),
    }
}
