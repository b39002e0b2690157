//! Each adapter once.

use crate::real_files::RealFiles;
use crate::real_sink::RealSink;
use crate::real_source::RealSource;
use ep_outside::{Files, LoadAnswer, ReadAnswer, Sink, Source, WriteAnswer};
use std::test::Fail;

#[test]
fn a_sink_passes_pieces_on(rt: HostRuntime) -> Result<(), Fail> {
    let mut sink = RealSink::new(Vec::new(rt.alloc()));
    assert!(rt; sink.write(b"ab") == WriteAnswer::Done);
    assert!(rt; sink.write(b"") == WriteAnswer::Done);
    assert!(rt; sink.write(b"c") == WriteAnswer::Done);
    Ok(())
}

#[test]
fn a_source_gives_what_is_read(rt: HostRuntime) -> Result<(), Fail> {
    let mut source = RealSource::new(b"abc".as_slice());
    let mut into = [0u8; 2];
    assert!(rt; source.read(&mut into) == ReadAnswer::Got(2));
    assert_eq!(rt; into, [b'a', b'b']);
    assert!(rt; source.read(&mut into) == ReadAnswer::Got(1));
    assert!(rt; source.read(&mut into) == ReadAnswer::Got(0));
    Ok(())
}

#[test]
fn files_are_those_of_the_system(rt: HostRuntime) -> Result<(), Fail> {
    let mut files = RealFiles::new(rt.alloc(), &rt);
    let name = b"epc_files_test.txt";
    assert!(rt; files.create(name) == WriteAnswer::Done);
    assert!(rt; files.append(name, b"ab") == WriteAnswer::Done);
    assert!(rt; files.append(name, b"c") == WriteAnswer::Done);
    let mut text = Vec::new(rt.alloc());
    assert!(rt; files.load(name, 3, &mut text) == LoadAnswer::Held);
    assert_eq!(rt; text.as_slice(), b"abc".as_slice());
    let mut none = Vec::new(rt.alloc());
    assert!(rt; files.load(name, 1, &mut none) == LoadAnswer::TooLong(2));
    assert!(rt; files.load(b"epc_no_such_file.txt", 9, &mut none) == LoadAnswer::Missing);
    assert!(rt; files.load(b"\xff", 9, &mut none) == LoadAnswer::Failed);
    std::fs::remove_file(&rt, "epc_files_test.txt")?;
    Ok(())
}
