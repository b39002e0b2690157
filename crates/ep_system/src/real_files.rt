//! The file system as files.

ghost use Rattle.std.specs.Prelude.{◌≡◌, ◌+◌, ◌<◌, ◌≤◌, ℕ, List, [], Option, IfOk, vec_len};
ghost use Rattle.ep_outside.specs.Answers.{write_faults, load_faults, Loads};
ghost use Rattle.ep_outside.specs.Known.{Directory};

use crate::faults::FaultCount;
use crate::system::{read_some, write_whole};
use ep_outside::{LoadAnswer, WriteAnswer};
use std::alloc::{AllocError, Global};
use std::fs::{self, OpenOptions};
use std::io::{self, Read};
use std::rt;

/// The files of the system. They tell nothing of their content, and a name that is no UTF-8 is a fault.
#[derive(Drop)]
pub struct RealFiles<'a, S> {
    alloc: Global,
    system: &'a S,
    faults: FaultCount,
}

/// Why a file was not read.
#[derive(Clone, Copy, Debug)]
enum ReadFailure {
    Fault,
    NoMemory,
}

impl From<AllocError> for ReadFailure {
    fn from(_e: AllocError) -> ReadFailure {
        ReadFailure::NoMemory
    }
}

/// The bytes of a file, but at most the limit and one byte.
fn read_within<R: Read>(alloc: Global, file: &mut R, limit: usize) -> Result<Vec<u8>, ReadFailure>
    requires { limit < 4294967296 }
    ensures { IfOk result (λ bytes. vec_len bytes ≤ limit + 1) }
{
    let mut bytes = Vec::new(alloc);
    let mut chunk = [0u8; 4096];
    for _ in 0..u64::MAX {
        let wanted = (limit + 1 - bytes.len()).min(4096);
        if wanted == 0 {
            break;
        }
        match read_some(file, &mut chunk[..wanted]) {
            Some(0) => break,
            Some(count) => bytes.extend_from_slice(&chunk[..count])?,
            None => return Err(ReadFailure::Fault),
        }
    }
    Ok(bytes)
}

impl<'a, S: rt::Files> RealFiles<'a, S> {
    ghost use Rattle.ep_system.specs.FaultCounts.{faults_of};

    /// The files that this system has.
    pub fn new(alloc: Global, system: &'a S) -> RealFiles<'a, S> {
        RealFiles {
            alloc,
            system,
            faults: FaultCount::new(),
        }
    }

    /// Tells how a write ended, and counts a fault. A count at the end of its type can't rise, and then the
    /// answer is want of memory.
    fn answer(&mut self, done: bool) -> WriteAnswer
        ensures { faults_of self.old.faults + write_faults result ≤ faults_of self.new.faults }
    {
        if done {
            WriteAnswer::Done
        } else if self.faults.rise() {
            WriteAnswer::Failed
        } else {
            WriteAnswer::NoMemory
        }
    }

    /// Counts a fault of a load, as `answer` does.
    fn load_fault(&mut self) -> LoadAnswer
        ensures nothing { (files : Option Directory) (name into : List ℕ) (limit : ℕ) → into ≡ []
            → Loads result files name limit into }
        ensures faults { faults_of self.old.faults + load_faults result ≤ faults_of self.new.faults }
    {
        if self.faults.rise() {
            LoadAnswer::Failed
        } else {
            LoadAnswer::NoMemory
        }
    }

    /// Makes the file of that name empty, and tells whether the system did it.
    fn create_file(&self, name: &[u8]) -> bool {
        match str::from_utf8(name) {
            Ok(path) => fs::File::create(self.system, path).is_ok(),
            Err(_) => false,
        }
    }

    /// Appends bytes to the file of that name, and tells whether the system did it.
    fn append_file(&self, name: &[u8], bytes: &[u8]) -> bool {
        let Ok(path) = str::from_utf8(name) else {
            return false;
        };
        let mut options = OpenOptions::new();
        options.append(true).create(true);
        match options.open(self.system, path) {
            Ok(mut file) => write_whole(&mut file, bytes),
            Err(_) => false,
        }
    }
}

impl<'a, S: rt::Files> ep_outside::Files for RealFiles<'a, S> {
    ghost use Rattle.std.specs.Prelude.{None};
    ghost use Rattle.ep_system.specs.FaultCounts.{faults_of};

    ghost files = { λ _. None };

    ghost faults = { λ s. faults_of s.faults };

    /// Reads at most the limit and one byte, so that `TooLong` carries the limit plus one.
    fn load(&mut self, name: &[u8], limit: u32, into: &mut Vec<u8>) -> LoadAnswer {
        let Ok(path) = str::from_utf8(name) else {
            return self.load_fault();
        };
        let mut file = match fs::open(self.system, path) {
            Ok(file) => file,
            Err(e) if e.kind() == io::ErrorKind::NotFound => return LoadAnswer::Missing,
            Err(_) => return self.load_fault(),
        };
        match read_within(self.alloc, &mut file, limit as usize) {
            Ok(bytes) if bytes.len() > limit as usize => LoadAnswer::TooLong(bytes.len() as u64),
            Ok(bytes) => {
                *into = bytes;
                LoadAnswer::Held
            }
            Err(ReadFailure::Fault) => self.load_fault(),
            Err(ReadFailure::NoMemory) => LoadAnswer::NoMemory,
        }
    }

    fn create(&mut self, name: &[u8]) -> WriteAnswer {
        let done = self.create_file(name);
        self.answer(done)
    }

    fn append(&mut self, name: &[u8], bytes: &[u8]) -> WriteAnswer {
        let done = self.append_file(name, bytes);
        self.answer(done)
    }
}
