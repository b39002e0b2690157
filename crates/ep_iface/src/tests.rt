//! An image that is read and written again, and images that are refused.

use crate::{FileRefusal, read_image, write_image};
use std::alloc::Global;
use std::test::*;

/// One unit `p`, one routine, the text `hi`, the set type over 0..9, and one instruction that pushes 7.
const SPELLED: [u8; 97] = [
    69, 80, 77, 49, // EPM1
    0, 0, 0, 1, 0, 0, 0, 1, 112, 0, 0, 0, 1, 0, 0, 0, 0, 0, 0, 0, 1, // units
    0, 0, 0, 1, 0, 0, 0, 0, 0, 0, 0, 0, 0, 0, 0, 0, 0, 0, 0, 0, // routines
    0, 0, 0, 1, 0, 0, 0, 2, 104, 105, // texts
    0, 0, 0, 1, 1, 0, 0, 0, 0, 0, 0, 0, 0, 0, 0, 0, 0, 0, 0, 0, 9, // constant types
    0, 0, 0, 1, 0, 0, 0, 0, 0, 0, 0, 0, 7, 0, 0, 0, 0, 0, 0, 0, 1, // instructions
];

/// Whether the bytes are refused at this place.
fn is_bad(alloc: Global, bytes: &[u8], place: u64) -> bool {
    match read_image(alloc, bytes) {
        Err(FileRefusal::Bad(at)) => at == place,
        _ => false,
    }
}

#[test]
fn images_are_read_and_written(rt: HostRuntime) -> Result<(), Fail> {
    let alloc = rt.alloc();
    let image = read_image(alloc, &SPELLED)?;
    let written = write_image(alloc, &image)?;
    assert_eq!(rt; written.items(), SPELLED.as_slice());
    Ok(())
}

/// Whether the image's first so many bytes, with one byte changed, are refused at this place.
fn is_refused(alloc: Global, length: usize, at: usize, byte: u8, place: u64) -> bool {
    let mut bytes = SPELLED;
    if length > bytes.len() || at >= bytes.len() {
        return false;
    }
    bytes[at] = byte;
    is_bad(alloc, &bytes[..length], place)
}

/// What is left of the image, the byte that is changed, what it is, and the place of the refusal.
const REFUSED: [(usize, usize, u8, u64); 11] = [
    // cut
    (3, 0, 69, 0),
    (4, 0, 69, 4),
    (12, 0, 69, 8),
    (24, 0, 69, 21),
    (54, 0, 69, 49),
    (59, 0, 69, 59),
    (96, 0, 69, 93),
    // other letters, a capital in a name, a tag that is none, a count that is too great
    (97, 3, 50, 0),
    (97, 12, 80, 8),
    (97, 59, 6, 59),
    (97, 4, 255, 25),
];

#[test]
fn other_bytes_are_refused(rt: HostRuntime) {
    let alloc = rt.alloc();
    let mut all = true;
    for (length, at, byte, place) in REFUSED {
        all = all && is_refused(alloc, length, at, byte, place);
    }
    assert!(rt; all);
}
