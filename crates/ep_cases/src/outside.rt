//! The outside of a call, in memory.

use crate::answer::Answer;
use crate::case::{Case, NamedBytes};
use crate::words::words_of;
use ep_base::Bytes;
use ep_drive::epc;
use ep_outside::{MemFiles, MemSink, MemSource};
use std::alloc::{AllocError, Global};

/// The objects that a call is handed.
pub struct Outside {
    files: MemFiles,
    input: MemSource,
    output: MemSink,
    report: MemSink,
}

impl Drop for Outside {
    fn drop(self) {
        let Outside {
            files: _,
            input: _,
            output: _,
            report: _,
        } = self;
    }
}

impl Outside {
    /// The outside of a case before its call.
    pub fn of(alloc: Global, case: &Case) -> Result<Outside, AllocError> {
        let files = files_of(alloc, case)?;
        let input = source_of(alloc, case)?;
        let output = sink_of(alloc, case.fails.output.as_slice())?;
        let report = sink_of(alloc, case.fails.report.as_slice())?;
        Ok(Outside {
            files,
            input,
            output,
            report,
        })
    }

    /// Calls `epc` with the words of a case, and an option behind the first one where there is one.
    pub fn call(
        &mut self,
        alloc: Global,
        case: &Case,
        option: Option<&str>,
    ) -> Result<Answer<'_>, AllocError> {
        let words = words_of(alloc, case.words(), option)?;
        let status = epc(
            alloc,
            &words,
            &mut self.files,
            &mut self.input,
            &mut self.output,
            &mut self.report,
        );
        Ok(Answer {
            status: status as u8,
            output: self.output.held(),
            report: self.report.held(),
        })
    }

    /// Whether each file of a case is as it is to be after the call.
    pub fn are_files_right(&self, case: &Case) -> bool {
        let after = case.after.as_slice();
        after.iter().all(|file| self.holds(file))
            && case
                .files
                .iter()
                .all(|file| self.holds(file) || is_named(file, after))
    }

    /// Whether this file is there.
    fn holds(&self, file: &NamedBytes) -> bool {
        match self.files.get(file.name.as_slice()) {
            Some(bytes) => bytes == file.bytes.as_slice(),
            None => false,
        }
    }
}

/// Whether a file of that name is among these.
fn is_named(file: &NamedBytes, others: &[NamedBytes]) -> bool {
    others
        .iter()
        .any(|other| other.name.as_slice() == file.name.as_slice())
}

/// The files of a case.
fn files_of(alloc: Global, case: &Case) -> Result<MemFiles, AllocError> {
    let fails = Vec::from_slice(alloc, case.fails.files.as_slice())?;
    let mut files = MemFiles::new(alloc, fails);
    for file in case.files.iter() {
        files.hold(file.name.as_slice(), file.bytes.as_slice())?;
    }
    Ok(files)
}

/// The input of a case.
fn source_of(alloc: Global, case: &Case) -> Result<MemSource, AllocError> {
    let bytes = Bytes::from_vec(Vec::from_slice(alloc, case.input.as_slice())?);
    let fails = Vec::from_slice(alloc, case.fails.input.as_slice())?;
    Ok(MemSource::new(bytes, fails))
}

/// An empty sink whose calls of these numbers fail.
fn sink_of(alloc: Global, fails: &[u64]) -> Result<MemSink, AllocError> {
    Ok(MemSink::new(alloc, Vec::from_slice(alloc, fails)?))
}
