//! The objects in memory: what they hold, and where they fail.

use ep_base::Bytes;
use ep_outside::{
    Files, LoadAnswer, MemFiles, MemSink, MemSource, ReadAnswer, Sink, Source, SureFiles, SureSink,
    SureSource, WriteAnswer,
};
use std::alloc::{AllocError, Global};
use std::test::Fail;

/// The numbers of the calls that are to fail.
fn calls(alloc: Global, numbers: &[u64]) -> Result<Vec<u64>, AllocError> {
    Vec::from_slice(alloc, numbers)
}

/// Writes pieces, each of which is to be answered so.
fn writes<S: Sink>(sink: &mut S, pieces: &[(&[u8], WriteAnswer)]) -> bool {
    let mut all = true;
    for (piece, want) in pieces {
        all = sink.write(piece) == *want && all;
    }
    all
}

#[test]
fn sinks_hold_what_was_written(rt: HostRuntime) -> Result<(), Fail> {
    let mut sink = MemSink::new(rt.alloc(), calls(rt.alloc(), &[4, 2])?);
    let failing = writes(
        &mut sink,
        &[
            (b"ab", WriteAnswer::Done),
            (b"cde", WriteAnswer::Failed),
            (b"f", WriteAnswer::Done),
            (b"ghijk", WriteAnswer::Failed),
        ],
    );
    let mut sure = SureSink::new(rt.alloc());
    let never = writes(
        &mut sure,
        &[(b"ab", WriteAnswer::Done), (b"", WriteAnswer::Done)],
    );
    let held = sink.held() == b"abcfgh".as_slice() && sure.held() == b"ab".as_slice();
    assert_eq!(rt; (failing, never, held), (true, true, true));
    Ok(())
}

/// Reads into two bytes, each read of which is to be answered so and to leave these bytes.
fn reads<S: Source>(source: &mut S, rows: &[(ReadAnswer, [u8; 2])]) -> bool {
    let mut into = [b'.'; 2];
    let mut all = true;
    for (want, left) in rows {
        all = source.read(&mut into) == *want && into == *left && all;
    }
    all
}

#[test]
fn sources_give_the_next_bytes(rt: HostRuntime) -> Result<(), Fail> {
    let held = Bytes::from_slice(rt.alloc(), b"abc")?;
    let mut source = MemSource::new(held, calls(rt.alloc(), &[2])?);
    let failing = reads(
        &mut source,
        &[
            (ReadAnswer::Got(2), *b"ab"),
            (ReadAnswer::Failed, *b"ab"),
            (ReadAnswer::Got(1), *b"cb"),
            (ReadAnswer::Got(0), *b"cb"),
        ],
    );
    let mut sure = SureSource::new(Bytes::from_slice(rt.alloc(), b"z")?);
    let never = reads(
        &mut sure,
        &[(ReadAnswer::Got(1), *b"z."), (ReadAnswer::Got(0), *b"z.")],
    );
    assert_eq!(rt; (failing, never), (true, true));
    Ok(())
}

/// A call on files, and what it is to answer.
enum Call {
    Create(&'static [u8], WriteAnswer),
    Append(&'static [u8], &'static [u8], WriteAnswer),
    /// The answer and the bytes that are put into an empty buffer.
    Load(&'static [u8], u32, LoadAnswer, &'static [u8]),
}

/// Whether a call is answered so.
fn is_answered<F: Files>(alloc: Global, files: &mut F, call: &Call) -> bool {
    match call {
        Call::Create(name, want) => files.create(name) == *want,
        Call::Append(name, bytes, want) => files.append(name, bytes) == *want,
        Call::Load(name, limit, want, bytes) => {
            let mut into = Vec::new(alloc);
            files.load(name, *limit, &mut into) == *want && into.as_slice() == *bytes
        }
    }
}

/// Whether calls are answered so, one after another.
fn are_answered<F: Files>(alloc: Global, files: &mut F, calls: &[Call]) -> bool {
    let mut all = true;
    for call in calls {
        all = is_answered(alloc, files, call) && all;
    }
    all
}

#[test]
fn files_are_a_map(rt: HostRuntime) -> Result<(), Fail> {
    let mut files = MemFiles::new(rt.alloc(), calls(rt.alloc(), &[2, 6, 7])?);
    files.hold(b"a", b"old")?;
    let answered = are_answered(
        rt.alloc(),
        &mut files,
        &[
            Call::Append(b"a", b"+new", WriteAnswer::Done),
            Call::Append(b"a", b"!?", WriteAnswer::Failed),
            Call::Load(b"a", 8, LoadAnswer::Held, b"old+new!"),
            Call::Append(b"b", b"x", WriteAnswer::Done),
            Call::Create(b"a", WriteAnswer::Done),
            Call::Create(b"b", WriteAnswer::Failed),
            Call::Load(b"b", 1, LoadAnswer::Failed, b""),
            Call::Load(b"b", 1, LoadAnswer::Held, b"x"),
        ],
    );
    let held = files.get(b"a") == Some(b"".as_slice())
        && files.get(b"b") == Some(b"x".as_slice())
        && files.get(b"c").is_none();
    assert_eq!(rt; (answered, held), (true, true));
    Ok(())
}

#[test]
fn loads_keep_the_limit(rt: HostRuntime) -> Result<(), Fail> {
    let mut files = SureFiles::new(rt.alloc());
    files.hold(b"a", b"12345")?;
    let answered = are_answered(
        rt.alloc(),
        &mut files,
        &[
            Call::Load(b"a", 5, LoadAnswer::Held, b"12345"),
            Call::Load(b"a", 4, LoadAnswer::TooLong(5), b""),
            Call::Load(b"b", 9, LoadAnswer::Missing, b""),
            Call::Append(b"b", b"x", WriteAnswer::Done),
            Call::Create(b"a", WriteAnswer::Done),
            Call::Load(b"a", 0, LoadAnswer::Held, b""),
            Call::Load(b"b", 1, LoadAnswer::Held, b"x"),
        ],
    );
    let held = files.get(b"a") == Some(b"".as_slice()) && files.get(b"b") == Some(b"x".as_slice());
    assert_eq!(rt; (answered, held), (true, true));
    Ok(())
}
