//! Reading and writing by calls of the system, each of which may be interrupted.

ghost use Rattle.std.specs.Prelude.{◌≤◌, length, IfSome};

use std::io::{self, Read, Write};

/// Reads what one call gives, and tells how many bytes it gave, or `None` where the system failed.
pub fn read_some<R: Read>(reader: &mut R, into: &mut [u8]) -> Option<usize>
    ensures { IfSome result (λ count. count ≤ length into.new) }
{
    for _ in 0..u64::MAX {
        match reader.read(into) {
            Ok(count) => return Some(count),
            Err(e) if e.kind() == io::ErrorKind::Interrupted => {}
            Err(_) => return None,
        }
    }
    None
}

/// Writes all bytes, by one call where the system takes them at once, and tells whether it took them. A call
/// that takes nothing is a failure.
pub fn write_whole<W: Write>(writer: &mut W, bytes: &[u8]) -> bool {
    let mut rest = bytes;
    for _ in 0..u64::MAX {
        if rest.is_empty() {
            return true;
        }
        match writer.write(rest) {
            Ok(0) => return false,
            Ok(count) => rest = &rest[count..],
            Err(e) if e.kind() == io::ErrorKind::Interrupted => {}
            Err(_) => return false,
        }
    }
    false
}
