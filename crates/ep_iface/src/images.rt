//! Images in files.

ghost use Rattle.std.specs.Prelude.{◌≡◌, ◌++◌, OnOk, IfOk, Ok};
ghost use Rattle.ep_object.specs.declared.code.Image.{Image};
ghost use Rattle.ep_iface.specs.Formats.{Gives, Tells, whole};
ghost use Rattle.ep_iface.specs.Images.{IsImage, IsInstr, IsRoutine, IsUnit, image_at, image_bytes, image_letters};
ghost use Rattle.ep_iface.specs.Images.{instr_at, instr_bytes, routine_at, routine_bytes, unit_at, unit_bytes};

use crate::item::{Item, read_list, write_list};
use crate::letters::read_letters;
use crate::refusal::FileRefusal;
use ep_base::{Bytes, NoMemory};
use ep_fields::{FieldReader, FieldRefusal, FieldWriter, laws_of_fields};
use ep_object::{Image, ImageRoutine, ImageUnit, Instr};
use std::alloc::Global;

/// The letters with which an image begins, as a number.
const IMAGE: u32 = 0x4550_4d31;

impl Item for ImageUnit {
    ghost reading = { unit_at };

    ghost spelling = { unit_bytes };

    ghost fits = { IsUnit };

    #[tactic(auto, unfolding(crate::specs::Images::unit_at))]
    fn read(alloc: Global, reader: &mut FieldReader<'_>) -> Result<ImageUnit, FieldRefusal> {
        let name = reader.name(alloc)?;
        let slots = reader.u32()?;
        let start = reader.u32()?;
        let stop = reader.u32()?;
        Ok(ImageUnit {
            name,
            slots,
            start,
            stop,
        })
    }

    fn write(&self, writer: &mut FieldWriter) -> Result<(), NoMemory> {
        writer.bytes(self.name.bytes())?;
        writer.u32(self.slots)?;
        writer.u32(self.start)?;
        writer.u32(self.stop)
    }
}

impl Item for ImageRoutine {
    ghost reading = { routine_at };

    ghost spelling = { routine_bytes };

    ghost fits = { IsRoutine };

    #[tactic(auto, unfolding(crate::specs::Images::routine_at))]
    fn read(_alloc: Global, reader: &mut FieldReader<'_>) -> Result<ImageRoutine, FieldRefusal> {
        let entry = reader.u32()?;
        let unit = reader.u32()?;
        let arguments = reader.u32()?;
        let slots = reader.u32()?;
        Ok(ImageRoutine {
            entry,
            unit,
            arguments,
            slots,
        })
    }

    fn write(&self, writer: &mut FieldWriter) -> Result<(), NoMemory> {
        writer.u32(self.entry)?;
        writer.u32(self.unit)?;
        writer.u32(self.arguments)?;
        writer.u32(self.slots)
    }
}

impl Item for Instr {
    ghost reading = { instr_at };

    ghost spelling = { instr_bytes };

    ghost fits = { IsInstr };

    #[tactic(auto, unfolding(crate::specs::Images::instr_at))]
    fn read(_alloc: Global, reader: &mut FieldReader<'_>) -> Result<Instr, FieldRefusal> {
        let op = reader.u8()?;
        let a = reader.i64()?;
        let b = reader.u32()?;
        let line = reader.u32()?;
        Ok(Instr { op, a, b, line })
    }

    fn write(&self, writer: &mut FieldWriter) -> Result<(), NoMemory> {
        writer.u8(self.op)?;
        writer.i64(self.a)?;
        writer.u32(self.b)?;
        writer.u32(self.line)
    }
}

/// The image at the front.
#[tactic(auto, unfolding(crate::specs::Images::image_at))]
fn read_parts(alloc: Global, reader: &mut FieldReader<'_>) -> Result<Image, FieldRefusal>
    ensures { Gives result reader.new (image_at reader.old) }
{
    read_letters(IMAGE, reader)?;
    let units = read_list(alloc, reader)?;
    let routines = read_list(alloc, reader)?;
    let texts = read_list(alloc, reader)?;
    let constant_types = read_list(alloc, reader)?;
    let instructions = read_list(alloc, reader)?;
    Ok(Image {
        units,
        routines,
        texts,
        constant_types,
        instructions,
    })
}

/// The image that a file holds.
fn read_whole(alloc: Global, bytes: &[u8]) -> Result<Image, FileRefusal>
    ensures { Tells result (whole image_at bytes.now) }
{
    let mut reader = FieldReader::over(bytes);
    let image = read_parts(alloc, &mut reader)?;
    if reader.at_end() {
        Ok(image)
    } else {
        Err(FileRefusal::Bad(reader.place()))
    }
}

/// The image that these bytes spell, all of them. `Bad` comes exactly where they spell none, with the place of the first
/// field that cannot be read or is not allowed, or of the first byte too many. No room is taken by a count.
pub fn read_image(alloc: Global, bytes: &[u8]) -> Result<Image, FileRefusal>
    // What is read is spelled so, each byte of it.
    ensures found { IfOk result (λ g. IsImage g × (bytes.now ≡ image_bytes g)) }
    // What is spelled so is read, unless memory runs out.
    ensures only { (g : Image) → IsImage g → bytes.now ≡ image_bytes g → Tells result (Ok g) }
    // Which place is refused.
    ensures exact { Tells result (whole image_at bytes.now) }
{
    laws_of_fields();
    read_whole(alloc, bytes)
}

/// The one spelling of an image.
pub fn write_image(alloc: Global, image: &Image) -> Result<Bytes, NoMemory>
    requires { IsImage image.now }
    ensures { IfOk result (λ bytes. bytes ≡ image_bytes image.now) }
{
    let mut writer = FieldWriter::new(alloc);
    write_parts(image, &mut writer)?;
    Ok(writer.finish())
}

/// Appends an image.
fn write_parts(image: &Image, writer: &mut FieldWriter) -> Result<(), NoMemory>
    requires { IsImage image.now }
    ensures { OnOk result (writer.new ≡ writer.old ++ image_bytes image.now) }
{
    writer.u32(IMAGE)?;
    write_list(image.units.items(), writer)?;
    write_list(image.routines.items(), writer)?;
    write_list(image.texts.items(), writer)?;
    write_list(image.constant_types.items(), writer)?;
    write_list(image.instructions.items(), writer)
}
