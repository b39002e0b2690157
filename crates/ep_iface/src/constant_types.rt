//! Constant types in files.

ghost use Rattle.std.specs.Prelude.{◌≡◌, ◌++◌, OnOk};
ghost use Rattle.ep_iface.specs.ConstantTypes.{IsConstantType, arr_at, constant_type_at, constant_type_bytes, init_at, kind_at, ord_at, rec_at, set_at, str_at};
ghost use Rattle.ep_iface.specs.Formats.{Gives};

use crate::flag::{read_flag, write_flag};
use crate::item::{Item, read_list, write_list};
use ep_base::NoMemory;
use ep_fields::{FieldReader, FieldRefusal, FieldWriter};
use ep_object::ConstantType;
use std::alloc::Global;

impl Item for ConstantType {
    ghost reading = { constant_type_at };

    ghost spelling = { constant_type_bytes };

    ghost fits = { IsConstantType };

    #[tactic(auto, unfolding(crate::specs::ConstantTypes::constant_type_at))]
    fn read(alloc: Global, reader: &mut FieldReader<'_>) -> Result<ConstantType, FieldRefusal> {
        let place = reader.place();
        let tag = reader.u8()?;
        read_kind(alloc, place, tag, reader)
    }

    fn write(&self, writer: &mut FieldWriter) -> Result<(), NoMemory> {
        match self {
            ConstantType::Ord(lo, hi) => {
                writer.u8(0)?;
                writer.i64(*lo)?;
                writer.i64(*hi)
            }
            ConstantType::Set(lo, hi) => {
                writer.u8(1)?;
                writer.i64(*lo)?;
                writer.i64(*hi)
            }
            ConstantType::Str(capacity) => {
                writer.u8(2)?;
                writer.i64(*capacity)
            }
            ConstantType::Arr {
                fixed,
                lo,
                hi,
                component,
            } => {
                writer.u8(3)?;
                write_flag(*fixed, writer)?;
                writer.i64(*lo)?;
                writer.i64(*hi)?;
                writer.u32(*component)
            }
            ConstantType::Rec(components) => {
                writer.u8(4)?;
                write_list(components.items(), writer)
            }
            ConstantType::Init(type_number, words) => {
                writer.u8(5)?;
                writer.u32(*type_number)?;
                write_list(words.items(), writer)
            }
        }
    }
}

/// What follows a tag that stands at this place.
fn read_kind(
    alloc: Global,
    place: u64,
    tag: u8,
    reader: &mut FieldReader<'_>,
) -> Result<ConstantType, FieldRefusal>
    ensures { Gives result reader.new (kind_at place tag reader.old) }
{
    match tag {
        0 => read_ord(reader),
        1 => read_set(reader),
        2 => read_str(reader),
        3 => read_arr(reader),
        4 => read_rec(alloc, reader),
        5 => read_init(alloc, reader),
        _ => Err(FieldRefusal::Bad(place)),
    }
}

#[tactic(auto, unfolding(crate::specs::ConstantTypes::ord_at))]
fn read_ord(reader: &mut FieldReader<'_>) -> Result<ConstantType, FieldRefusal>
    ensures { Gives result reader.new (ord_at reader.old) }
{
    let lo = reader.i64()?;
    let hi = reader.i64()?;
    Ok(ConstantType::Ord(lo, hi))
}

#[tactic(auto, unfolding(crate::specs::ConstantTypes::set_at))]
fn read_set(reader: &mut FieldReader<'_>) -> Result<ConstantType, FieldRefusal>
    ensures { Gives result reader.new (set_at reader.old) }
{
    let lo = reader.i64()?;
    let hi = reader.i64()?;
    Ok(ConstantType::Set(lo, hi))
}

#[tactic(auto, unfolding(crate::specs::ConstantTypes::str_at))]
fn read_str(reader: &mut FieldReader<'_>) -> Result<ConstantType, FieldRefusal>
    ensures { Gives result reader.new (str_at reader.old) }
{
    let capacity = reader.i64()?;
    Ok(ConstantType::Str(capacity))
}

#[tactic(auto, unfolding(crate::specs::ConstantTypes::arr_at))]
fn read_arr(reader: &mut FieldReader<'_>) -> Result<ConstantType, FieldRefusal>
    ensures { Gives result reader.new (arr_at reader.old) }
{
    let fixed = read_flag(reader)?;
    let lo = reader.i64()?;
    let hi = reader.i64()?;
    let component = reader.u32()?;
    Ok(ConstantType::Arr {
        fixed,
        lo,
        hi,
        component,
    })
}

#[tactic(auto, unfolding(crate::specs::ConstantTypes::rec_at))]
fn read_rec(alloc: Global, reader: &mut FieldReader<'_>) -> Result<ConstantType, FieldRefusal>
    ensures { Gives result reader.new (rec_at reader.old) }
{
    let components = read_list(alloc, reader)?;
    Ok(ConstantType::Rec(components))
}

#[tactic(auto, unfolding(crate::specs::ConstantTypes::init_at))]
fn read_init(alloc: Global, reader: &mut FieldReader<'_>) -> Result<ConstantType, FieldRefusal>
    ensures { Gives result reader.new (init_at reader.old) }
{
    let type_number = reader.u32()?;
    let words = read_list(alloc, reader)?;
    Ok(ConstantType::Init(type_number, words))
}
