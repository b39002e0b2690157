//! Files in memory.

ghost use Rattle.std.specs.Prelude.{◌≡◌, ◌≢◌, ◌↔◌, ◌+◌, ℕ, List, [], ◌++◌, None, Some, is_ok, if◌then◌else◌, IfOk, OnOk, OnErr, unwrap_or};
ghost use Rattle.std.specs.Option.{option_map};
ghost use Rattle.ep_outside.specs.Answers.{write_faults, load_faults, Loads, Creates, AppendsTo};
ghost use Rattle.ep_outside.specs.InMemory.{files_schedule, file_map, files_faults, sure_map, CreatesNothing, AppendsHalf};
ghost use Rattle.ep_outside.specs.Known.{with_file, appended, ChangesBy, KeepsFiles, HasFile};
ghost use Rattle.ep_outside.specs.Schedules.{Begins, FailsNext, CountsCall};

use crate::answers::{LoadAnswer, WriteAnswer};
use crate::schedule::Schedule;
use crate::traits::Files;
use ep_base::NoMemory;
use std::alloc::Global;
use std::collections::BTreeMap;

/// A map from names to bytes.
#[derive(Drop)]
struct FileTable {
    alloc: Global,
    bytes: BTreeMap<Vec<u8>, Vec<u8>>,
}

impl FileTable {
    ghost use Rattle.ep_outside.specs.FileTables.{directory_of};

    fn new(alloc: Global) -> FileTable
        ensures { (name : List ℕ) → directory_of result name ≡ None }
    {
        FileTable {
            alloc,
            bytes: BTreeMap::new(alloc),
        }
    }

    /// The bytes of a file, or `None` exactly where there is none of that name.
    fn get(&self, name: &[u8]) -> Option<&[u8]>
        ensures { option_map (λ bytes. bytes.now) result ≡ directory_of self.now name.now }
    {
        match self.bytes.get(name) {
            Some(bytes) => Some(bytes.as_slice()),
            None => None,
        }
    }

    /// Makes the file of that name have these bytes.
    fn put(&mut self, name: &[u8], bytes: Vec<u8>) -> Result<(), NoMemory>
        ensures ok { OnOk result
            ((other : List ℕ)
            → directory_of self.new other ≡ with_file (directory_of self.old) name.now bytes.items other) }
        ensures err { OnErr result ((other : List ℕ) → directory_of self.new other ≡ directory_of self.old other) }
    {
        let key = Vec::from_slice(self.alloc, name)?;
        self.bytes.insert(key, bytes)?;
        Ok(())
    }

    /// The bytes of a file with a piece after them; a missing file has none.
    fn extended(&self, name: &[u8], piece: &[u8]) -> Result<Vec<u8>, NoMemory>
        ensures { IfOk result (λ bytes. bytes.items ≡ unwrap_or (directory_of self.now name.now) [] ++ piece.now) }
    {
        let mut bytes = match self.get(name) {
            Some(old) => Vec::from_slice(self.alloc, old)?,
            None => Vec::new(self.alloc),
        };
        bytes.extend_from_slice(piece)?;
        Ok(bytes)
    }

    /// Appends a piece to the file of that name, and makes it where it is missing.
    fn append(&mut self, name: &[u8], piece: &[u8]) -> Result<(), NoMemory>
        ensures ok { OnOk result
            ((other : List ℕ)
            → directory_of self.new other ≡ appended name.now piece.now (directory_of self.old) other) }
        ensures err { OnErr result ((other : List ℕ) → directory_of self.new other ≡ directory_of self.old other) }
    {
        let bytes = self.extended(name, piece)?;
        self.put(name, bytes)
    }
}

impl FileTable {
    ghost use Rattle.ep_outside.specs.FileTables.{directory_of};

    /// Puts the bytes of a file into the buffer, where there are at most `limit`.
    fn load(&self, name: &[u8], limit: u32, into: &mut Vec<u8>) -> LoadAnswer
        requires { into.old.items ≡ [] }
        ensures loads { Loads result (Some (directory_of self.now)) name.now limit into.new.items }
        ensures sure { result ≢ LoadAnswer.Failed }
    {
        let Some(bytes) = self.get(name) else {
            return LoadAnswer::Missing;
        };
        if bytes.len() > limit as usize {
            return LoadAnswer::TooLong(bytes.len() as u64);
        }
        match into.extend_from_slice(bytes) {
            Ok(()) => LoadAnswer::Held,
            Err(_) => LoadAnswer::NoMemory,
        }
    }
}

/// What a change of a table answers.
fn answer(done: Result<(), NoMemory>) -> WriteAnswer
    ensures { result ≡ (if is_ok done then WriteAnswer.Done else WriteAnswer.NoMemory) }
{
    match done {
        Ok(()) => WriteAnswer::Done,
        Err(_) => WriteAnswer::NoMemory,
    }
}

/// Files in memory whose calls of given numbers fail. A failing append adds the first half of its bytes,
/// rounded down, and a failing create changes nothing.
#[derive(Drop)]
pub struct MemFiles {
    table: FileTable,
    schedule: Schedule,
}

impl MemFiles {
    /// No file, and calls of these numbers, counted from 1, fail. It takes no memory.
    pub fn new(alloc: Global, fails: Vec<u64>) -> MemFiles
        ensures files { (name : List ℕ) → HasFile (⟦<MemFiles as Files>⟧.files result) name None }
        ensures schedule { Begins fails.items (files_schedule result) }
    {
        MemFiles {
            table: FileTable::new(alloc),
            schedule: Schedule::new(fails),
        }
    }

    /// Makes the file of that name have these bytes. It is no counted call.
    pub fn hold(&mut self, name: &[u8], bytes: &[u8]) -> Result<(), NoMemory>
        ensures ok { OnOk result
            (ChangesBy (λ files. with_file files name.now bytes.now) (⟦<MemFiles as Files>⟧.files self.old)
            (⟦<MemFiles as Files>⟧.files self.new)) }
        ensures err { OnErr result
            (KeepsFiles (⟦<MemFiles as Files>⟧.files self.old) (⟦<MemFiles as Files>⟧.files self.new)) }
        ensures faults { ⟦<MemFiles as Files>⟧.faults self.new ≡ ⟦<MemFiles as Files>⟧.faults self.old }
        ensures schedule { files_schedule self.new ≡ files_schedule self.old }
    {
        let bytes = Vec::from_slice(self.table.alloc, bytes)?;
        self.table.put(name, bytes)
    }

    /// The bytes of a file, or `None` exactly where there is none of that name.
    pub fn get(&self, name: &[u8]) -> Option<&[u8]>
        ensures { HasFile (⟦<MemFiles as Files>⟧.files self.now) name.now (option_map (λ bytes. bytes.now) result) }
    {
        self.table.get(name)
    }
}

impl Files for MemFiles {
    ghost use Rattle.ep_outside.specs.InMemory.{file_map, files_faults};

    ghost files = { file_map };

    ghost faults = { files_faults };

    fn load(&mut self, name: &[u8], limit: u32, into: &mut Vec<u8>) -> LoadAnswer
        requires { into.old.items ≡ [] }
        ensures loads { Loads result (file_map self.old) name.now limit into.new.items }
        ensures files { KeepsFiles (file_map self.old) (file_map self.new) }
        ensures fails { (result ≡ LoadAnswer.Failed) ↔ FailsNext (files_schedule self.old) }
        ensures faults { files_faults self.new ≡ files_faults self.old + load_faults result }
        ensures counts { CountsCall (files_schedule self.old) (files_schedule self.new) }
    {
        if self.schedule.next_fails() {
            return LoadAnswer::Failed;
        }
        self.table.load(name, limit, into)
    }

    fn create(&mut self, name: &[u8]) -> WriteAnswer
        ensures creates { Creates result (file_map self.old) (file_map self.new) name.now }
        ensures nothing { CreatesNothing result (file_map self.old) (file_map self.new) }
        ensures fails { (result ≡ WriteAnswer.Failed) ↔ FailsNext (files_schedule self.old) }
        ensures faults { files_faults self.new ≡ files_faults self.old + write_faults result }
        ensures counts { CountsCall (files_schedule self.old) (files_schedule self.new) }
    {
        if self.schedule.next_fails() {
            // No file changes.
            return WriteAnswer::Failed;
        }
        let empty = Vec::new(self.table.alloc);
        answer(self.table.put(name, empty))
    }

    fn append(&mut self, name: &[u8], bytes: &[u8]) -> WriteAnswer
        ensures appends { AppendsTo result (file_map self.old) (file_map self.new) name.now bytes.now }
        ensures half { AppendsHalf result (file_map self.old) (file_map self.new) name.now bytes.now }
        ensures fails { (result ≡ WriteAnswer.Failed) ↔ FailsNext (files_schedule self.old) }
        ensures faults { files_faults self.new ≡ files_faults self.old + write_faults result }
        ensures counts { CountsCall (files_schedule self.old) (files_schedule self.new) }
    {
        if self.schedule.next_fails() {
            // Where memory is wanting nothing of it is kept.
            let _ = self.table.append(name, &bytes[..bytes.len() / 2]);
            return WriteAnswer::Failed;
        }
        answer(self.table.append(name, bytes))
    }
}

/// Files in memory that never fail.
#[derive(Drop)]
pub struct SureFiles {
    table: FileTable,
}

impl SureFiles {
    /// No file. It takes no memory.
    pub fn new(alloc: Global) -> SureFiles
        ensures { (name : List ℕ) → HasFile (⟦<SureFiles as Files>⟧.files result) name None }
    {
        SureFiles {
            table: FileTable::new(alloc),
        }
    }

    /// Makes the file of that name have these bytes.
    pub fn hold(&mut self, name: &[u8], bytes: &[u8]) -> Result<(), NoMemory>
        ensures ok { OnOk result
            (ChangesBy (λ files. with_file files name.now bytes.now) (⟦<SureFiles as Files>⟧.files self.old)
            (⟦<SureFiles as Files>⟧.files self.new)) }
        ensures err { OnErr result
            (KeepsFiles (⟦<SureFiles as Files>⟧.files self.old) (⟦<SureFiles as Files>⟧.files self.new)) }
    {
        let bytes = Vec::from_slice(self.table.alloc, bytes)?;
        self.table.put(name, bytes)
    }

    /// The bytes of a file, or `None` exactly where there is none of that name.
    pub fn get(&self, name: &[u8]) -> Option<&[u8]>
        ensures { HasFile (⟦<SureFiles as Files>⟧.files self.now) name.now (option_map (λ bytes. bytes.now) result) }
    {
        self.table.get(name)
    }
}

impl Files for SureFiles {
    ghost use Rattle.ep_outside.specs.InMemory.{sure_map};

    ghost files = { sure_map };

    ghost faults = { λ _. 0 };

    fn load(&mut self, name: &[u8], limit: u32, into: &mut Vec<u8>) -> LoadAnswer
        requires { into.old.items ≡ [] }
        ensures loads { Loads result (sure_map self.old) name.now limit into.new.items }
        ensures files { KeepsFiles (sure_map self.old) (sure_map self.new) }
        ensures sure { result ≢ LoadAnswer.Failed }
    {
        self.table.load(name, limit, into)
    }

    fn create(&mut self, name: &[u8]) -> WriteAnswer
        ensures creates { Creates result (sure_map self.old) (sure_map self.new) name.now }
        ensures sure { result ≢ WriteAnswer.Failed }
    {
        let empty = Vec::new(self.table.alloc);
        answer(self.table.put(name, empty))
    }

    fn append(&mut self, name: &[u8], bytes: &[u8]) -> WriteAnswer
        ensures appends { AppendsTo result (sure_map self.old) (sure_map self.new) name.now bytes.now }
        ensures sure { result ≢ WriteAnswer.Failed }
    {
        answer(self.table.append(name, bytes))
    }
}
