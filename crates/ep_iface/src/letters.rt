//! The letters with which files begin.

ghost use Rattle.ep_iface.specs.Formats.{Gives, letters_at};

use ep_fields::{FieldReader, FieldRefusal};

/// The letters of a format, which are one field, as a number; others are refused.
#[tactic(auto, unfolding(crate::specs::Formats::letters_at))]
pub(crate) fn read_letters(letters: u32, reader: &mut FieldReader<'_>) -> Result<(), FieldRefusal>
    ensures { Gives result reader.new (letters_at letters reader.old) }
{
    let place = reader.place();
    if reader.u32()? == letters {
        Ok(())
    } else {
        Err(FieldRefusal::Bad(place))
    }
}
