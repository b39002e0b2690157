//! A case: the words of a command, what the outside holds, and what is wanted.

use crate::answer::{Answer, status_of};
use crate::spelling::spell;
use std::alloc::Global;

/// The name of the source where none is said.
pub const SOURCE: &str = "x.pas";

/// The words of the command where none are said.
const USUAL_WORDS: &str = "go x.pas";

/// The bytes of a file.
#[derive(Drop)]
pub struct NamedBytes {
    pub name: Vec<u8>,
    pub bytes: Vec<u8>,
}

/// The numbers of the calls that are to fail, for each object of the outside.
pub struct Fails {
    pub files: Vec<u64>,
    pub input: Vec<u64>,
    pub output: Vec<u64>,
    pub report: Vec<u64>,
}

impl Drop for Fails {
    fn drop(self) {
        let Fails {
            files: _,
            input: _,
            output: _,
            report: _,
        } = self;
    }
}

/// What the lines with a margin add to.
#[derive(Clone, Copy)]
enum Open {
    Nothing,
    File,
    After,
    Input,
    Output,
    Report,
}

/// A case as far as its lines were read.
pub struct Case {
    alloc: Global,
    /// Where it begins in its table.
    pub line: u64,
    /// Whether the answer must differ from what is wanted.
    pub is_wrong: bool,
    /// Whether each of its lines could be read.
    pub is_sound: bool,
    /// Whether it is enough that the tokens and the grammar take the text.
    pub is_accepted: bool,
    /// The ticks at which the run ends, where all budgets up to it are tried.
    pub ends_at: Option<u64>,
    /// The words of the command as they are written.
    pub words: Option<String>,
    pub files: Vec<NamedBytes>,
    pub after: Vec<NamedBytes>,
    pub input: Vec<u8>,
    pub fails: Fails,
    status: u8,
    output: Vec<u8>,
    report: Vec<u8>,
    open: Open,
}

impl Drop for Case {
    fn drop(self) {
        let Case {
            alloc: _,
            line: _,
            is_wrong: _,
            is_sound: _,
            is_accepted: _,
            ends_at: _,
            words: _,
            files: _,
            after: _,
            input: _,
            fails: _,
            status: _,
            output: _,
            report: _,
            open: _,
        } = self;
    }
}

impl Case {
    /// A case that wants status 0 and nothing else.
    pub fn new(alloc: Global, line: u64, is_wrong: bool) -> Case {
        let fails = Fails {
            files: Vec::new(alloc),
            input: Vec::new(alloc),
            output: Vec::new(alloc),
            report: Vec::new(alloc),
        };
        Case {
            alloc,
            line,
            is_wrong,
            is_sound: true,
            is_accepted: false,
            ends_at: None,
            words: None,
            files: Vec::new(alloc),
            after: Vec::new(alloc),
            input: Vec::new(alloc),
            fails,
            status: 0,
            output: Vec::new(alloc),
            report: Vec::new(alloc),
            open: Open::Nothing,
        }
    }

    /// The words of the command.
    pub fn words(&self) -> &str {
        match &self.words {
            Some(words) => words.as_str(),
            None => USUAL_WORDS,
        }
    }

    /// The answer that is wanted.
    pub fn wanted(&self) -> Answer<'_> {
        Answer {
            status: self.status,
            output: self.output.as_slice(),
            report: self.report.as_slice(),
        }
    }

    /// The bytes of the last file so far.
    pub fn last_file(&self) -> &[u8] {
        match self.files.last() {
            Some(file) => file.bytes.as_slice(),
            None => &[],
        }
    }

    /// A line with a margin, which ends the line of what it adds to.
    pub fn take_margin(&mut self, text: &str) {
        self.take_text(text);
        self.take_text("\\n");
    }

    /// Bytes of what is open.
    pub fn take_text(&mut self, text: &str) {
        let alloc = self.alloc;
        let is_spelled = match self.open {
            Open::Nothing => false,
            Open::File => spell_last(alloc, text, &mut self.files),
            Open::After => spell_last(alloc, text, &mut self.after),
            Open::Input => spell(alloc, text, &mut self.input),
            Open::Output => spell(alloc, text, &mut self.output),
            Open::Report => spell(alloc, text, &mut self.report),
        };
        self.is_sound &= is_spelled;
    }

    /// A line with a key and a value.
    pub fn take_pair(&mut self, key: &str, value: &str) {
        match key.split_once(' ') {
            Some(("file", name)) => self.take_file(name, value),
            Some(("after", name)) => self.take_after(name, value),
            Some((object, "fails")) => self.take_fails(object, value),
            _ => self.take_plain(key, value),
        }
    }

    /// A line whose key is one word, or `ends at`.
    fn take_plain(&mut self, key: &str, value: &str) {
        match key {
            "source" => self.take_file(SOURCE, value),
            "words" => self.take_words(value),
            "status" => self.take_status(value),
            "ends at" => self.take_end(value),
            "input" => self.open = Open::Input,
            "output" => self.open = Open::Output,
            "report" => self.open = Open::Report,
            _ => self.is_sound = false,
        }
        if matches!(key, "input" | "output" | "report") {
            self.take_text(value);
        }
    }

    /// The words of the command.
    fn take_words(&mut self, value: &str) {
        self.words = String::from_str(self.alloc, value).ok();
        self.is_sound &= self.words.is_some();
    }

    /// The status that is wanted.
    fn take_status(&mut self, value: &str) {
        match status_of(value) {
            Some(status) => self.status = status,
            None => self.is_sound = false,
        }
    }

    /// The ticks at which the run ends.
    fn take_end(&mut self, value: &str) {
        self.ends_at = value.parse::<u64>().ok();
        self.is_sound &= self.ends_at.is_some();
    }

    /// A file that is there before the call.
    pub fn take_file(&mut self, name: &str, value: &str) {
        self.is_sound &= push_file(self.alloc, name, &mut self.files);
        self.open = Open::File;
        self.take_text(value);
    }

    /// A program that is there as a file of these bytes, and is run.
    pub fn take_program(&mut self, name: &str, bytes: Vec<u8>) {
        self.take_file(name, "");
        if let Some(file) = self.files.last_mut() {
            file.bytes = bytes;
        }
        self.words = format!(in self.alloc; "go {name}").ok();
        self.is_sound &= self.words.is_some();
    }

    /// A file as it is to be after the call.
    fn take_after(&mut self, name: &str, value: &str) {
        self.is_sound &= push_file(self.alloc, name, &mut self.after);
        self.open = Open::After;
        self.take_text(value);
    }

    /// The numbers of the calls of an object that are to fail.
    fn take_fails(&mut self, object: &str, value: &str) {
        let is_read = match object {
            "files" => push_numbers(value, &mut self.fails.files),
            "input" => push_numbers(value, &mut self.fails.input),
            "output" => push_numbers(value, &mut self.fails.output),
            "report" => push_numbers(value, &mut self.fails.report),
            _ => false,
        };
        self.is_sound &= is_read;
    }
}

/// Pushes an empty file of the name that a text spells, and tells whether it spells one.
fn push_file(alloc: Global, text: &str, files: &mut Vec<NamedBytes>) -> bool {
    let mut name = Vec::new(alloc);
    let is_spelled = spell(alloc, text, &mut name);
    let bytes = Vec::new(alloc);
    files.push(NamedBytes { name, bytes }).is_ok() && is_spelled
}

/// Appends the bytes that a text spells to the last of the files, and tells whether it spells any.
fn spell_last(alloc: Global, text: &str, files: &mut Vec<NamedBytes>) -> bool {
    match files.last_mut() {
        Some(file) => spell(alloc, text, &mut file.bytes),
        None => false,
    }
}

/// Appends the numbers of a text, and tells whether all its words are some.
fn push_numbers(text: &str, into: &mut Vec<u64>) -> bool {
    let mut are_read = true;
    for word in text.split_whitespace() {
        are_read &= match word.parse::<u64>() {
            Ok(number) => into.push(number).is_ok(),
            Err(_) => false,
        };
    }
    are_read
}
