//! Why a file could not be read.

ghost use Rattle.std.specs.Prelude.{◌≡◌};
ghost use Rattle.ep_iface.specs.Formats.{of_file};

use ep_fields::FieldRefusal;

/// Why a file could not be read.
#[derive(Clone, Copy, Debug, PartialEq, Eq, Drop)]
pub enum FileRefusal {
    /// The bytes are no file of the format: the place, counted from 0, of the first byte of the first field that cannot
    /// be read or is not allowed, or of the first byte too many.
    Bad(u64),
    /// Memory is wanting.
    NoMemory,
}

impl From<FieldRefusal> for FileRefusal {
    ghost from_gives = { λ e f. f ≡ of_file e };

    fn from(e: FieldRefusal) -> FileRefusal {
        match e {
            FieldRefusal::Short(place) | FieldRefusal::Bad(place) => FileRefusal::Bad(place),
            FieldRefusal::NoMemory => FileRefusal::NoMemory,
        }
    }
}
