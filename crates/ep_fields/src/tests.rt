//! Fields that are written and read again.

use crate::{FieldReader, FieldRefusal, FieldWriter};
use ep_base::Name;
use std::test::*;

/// A field of each kind: 7, 258, -2, the bytes `A` and `b`, and the name `ab`.
const SPELLED: [u8; 25] = [
    7, 0, 0, 1, 2, 255, 255, 255, 255, 255, 255, 255, 254, 0, 0, 0, 2, 65, 98, 0, 0, 0, 2, 97, 98,
];

#[test]
fn fields_are_written(rt: HostRuntime) -> Result<(), Fail> {
    let alloc = rt.alloc();
    let name = Name::from_bytes(alloc, b"aB")?;
    let mut writer = FieldWriter::new(alloc);
    writer.u8(7)?;
    writer.u32(258)?;
    writer.i64(-2)?;
    writer.bytes(b"Ab")?;
    writer.bytes(name.bytes())?;
    assert_eq!(rt; writer.finish().items(), SPELLED.as_slice());
    Ok(())
}

#[test]
fn fields_are_read(rt: HostRuntime) {
    let mut reader = FieldReader::over(&SPELLED);
    let byte = reader.u8();
    let number = reader.u32();
    let integer = reader.i64();
    let bytes = reader.bytes();
    let name = reader.name(rt.alloc());
    let is_name = match &name {
        Ok(name) => name.bytes() == b"ab".as_slice(),
        Err(_) => false,
    };
    let is_read = byte == Ok(7)
        && number == Ok(258)
        && integer == Ok(-2)
        && bytes == Ok(b"Ab".as_slice())
        && is_name;
    assert!(rt; is_read && reader.at_end() && reader.u8() == Err(FieldRefusal::Short(25)));
}

#[test]
fn fields_are_refused(rt: HostRuntime) {
    let mut short = FieldReader::over(&SPELLED[13..18]);
    let mut bad = FieldReader::over(&SPELLED[13..19]);
    let is_bad = match bad.name(rt.alloc()) {
        Err(FieldRefusal::Bad(0)) => true,
        _ => false,
    };
    assert!(rt; short.bytes() == Err(FieldRefusal::Short(0)) && is_bad && bad.place() == 0);
}
