//! A call with the words of the system.

use crate::real_files::RealFiles;
use crate::real_sink::RealSink;
use crate::real_source::RealSource;
use ep_drive::{Status, epc};
use std::env;
use std::io::{self, Read, Write};
use std::rt::{self, Env};

/// Carries out the command that the program was called with, over the files of the system and these streams.
pub fn carry_out<
    S: Env + AllocGlobal + rt::Files,
    I: Read + Drop,
    O: Write + Drop,
    R: Write + Drop,
>(system: &S, input: I, output: O, report: R) -> Status {
    let words = match words_of(system) {
        Ok(words) => words,
        Err(status) => return status,
    };
    let mut files = RealFiles::new(system.alloc(), system);
    let mut input = RealSource::new(input);
    let mut output = RealSink::new(output);
    let mut report = RealSink::new(report);
    epc(
        system.alloc(),
        &words,
        &mut files,
        &mut input,
        &mut output,
        &mut report,
    )
}

/// The words after the program's own name. A word that is no UTF-8 names no file: it is a fault of the files.
fn words_of(system: &(impl Env + AllocGlobal)) -> Result<Vec<String>, Status> {
    let mut words = Vec::new(system.alloc());
    let args = match env::args(system) {
        Ok(args) => args,
        Err(e) if e.kind() == io::ErrorKind::OutOfMemory => return Err(Status::NoMemory),
        Err(_) => return Err(Status::FileFault),
    };
    for word in args.skip(1) {
        if words.push(word).is_err() {
            return Err(Status::NoMemory);
        }
    }
    Ok(words)
}
