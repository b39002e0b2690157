//! Values of which files hold lists.

ghost use Rattle.std.specs.Prelude.{◌≡◌, ◌<◌, ◌^◌, ◌++◌, ⊤, List, ℕ, length, OnOk, FitsSigned};
ghost use Rattle.std.specs.Int.{w64};
ghost use Rattle.ep_fields.specs.Fields.{Position, Reading, byte_field, byte_field_at, integer, integer_at, number, number_at};
ghost use Rattle.ep_iface.specs.Formats.{AreListed, Gives, items_at, list_at, listed};

use ep_base::{Bytes, List, NoMemory};
use ep_fields::{FieldReader, FieldRefusal, FieldWriter};
use std::alloc::Global;

/// A value that is read and written field by field, and of which files hold lists.
pub(crate) trait Item: Drop {
    ghost reading: { Position → Reading Self };

    ghost spelling: { Self → List ℕ };

    ghost fits: { Self → Type 0 };

    /// The value at the front of what is left.
    fn read(alloc: Global, reader: &mut FieldReader<'_>) -> Result<Self, FieldRefusal>
        ensures { Gives result reader.new (reading reader.old) };

    /// Appends the value. Where memory is wanting a part of it may be appended.
    fn write(&self, writer: &mut FieldWriter) -> Result<(), NoMemory>
        requires { fits self.now }
        ensures { OnOk result (writer.new ≡ writer.old ++ spelling self.now) };
}

/// A list: the number of its items, and these. No room is taken by the number.
#[tactic(auto, unfolding(crate::specs::Formats::list_at))]
pub(crate) fn read_list<T: Item>(
    alloc: Global,
    reader: &mut FieldReader<'_>,
) -> Result<List<T>, FieldRefusal>
    ensures { Gives result reader.new (list_at T.reading reader.old) }
{
    let count = reader.u32()?;
    read_items(alloc, count, reader)
}

/// So many items.
fn read_items<T: Item>(
    alloc: Global,
    count: u32,
    reader: &mut FieldReader<'_>,
) -> Result<List<T>, FieldRefusal>
    ensures { Gives result reader.new (items_at T.reading count reader.old) }
{
    let mut items = List::new(alloc);
    for _ in 0..count {
        items.push(T::read(alloc, reader)?)?;
    }
    Ok(items)
}

/// Appends a list.
pub(crate) fn write_list<T: Item>(items: &[T], writer: &mut FieldWriter) -> Result<(), NoMemory>
    requires { AreListed T.fits items.now }
    ensures { OnOk result (writer.new ≡ writer.old ++ listed T.spelling items.now) }
{
    writer.u32(items.len() as u32)?;
    for item in items {
        item.write(writer)?;
    }
    Ok(())
}

impl Item for u32 {
    ghost reading = { number_at };

    ghost spelling = { number };

    ghost fits = { λ n. n < 2 ^ 32 };

    fn read(_alloc: Global, reader: &mut FieldReader<'_>) -> Result<u32, FieldRefusal> {
        reader.u32()
    }

    fn write(&self, writer: &mut FieldWriter) -> Result<(), NoMemory> {
        writer.u32(*self)
    }
}

impl Item for i64 {
    ghost reading = { integer_at };

    ghost spelling = { integer };

    ghost fits = { FitsSigned w64 };

    fn read(_alloc: Global, reader: &mut FieldReader<'_>) -> Result<i64, FieldRefusal> {
        reader.i64()
    }

    fn write(&self, writer: &mut FieldWriter) -> Result<(), NoMemory> {
        writer.i64(*self)
    }
}

impl Item for Bytes {
    ghost reading = { byte_field_at };

    ghost spelling = { byte_field };

    ghost fits = { λ bytes. length bytes < 2 ^ 32 };

    fn read(alloc: Global, reader: &mut FieldReader<'_>) -> Result<Bytes, FieldRefusal> {
        let bytes = reader.bytes()?;
        Ok(List::from_slice(alloc, bytes)?)
    }

    fn write(&self, writer: &mut FieldWriter) -> Result<(), NoMemory> {
        writer.bytes(self.items())
    }
}
