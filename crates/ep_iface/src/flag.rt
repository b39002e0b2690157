//! Flags in files.

ghost use Rattle.std.specs.Prelude.{◌≡◌, ◌++◌, OnOk};
ghost use Rattle.ep_iface.specs.Formats.{Gives, flag, flag_at};

use ep_base::NoMemory;
use ep_fields::{FieldReader, FieldRefusal, FieldWriter};

/// A byte that is 0 or 1; any other one is refused.
#[tactic(auto, unfolding(crate::specs::Formats::flag_at))]
pub(crate) fn read_flag(reader: &mut FieldReader<'_>) -> Result<bool, FieldRefusal>
    ensures { Gives result reader.new (flag_at reader.old) }
{
    let place = reader.place();
    match reader.u8()? {
        0 => Ok(false),
        1 => Ok(true),
        _ => Err(FieldRefusal::Bad(place)),
    }
}

/// Appends a flag.
pub(crate) fn write_flag(is_set: bool, writer: &mut FieldWriter) -> Result<(), NoMemory>
    ensures { OnOk result (writer.new ≡ writer.old ++ flag is_set) }
{
    writer.u8(u8::from(is_set))
}
