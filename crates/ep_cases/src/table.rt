//! The lines of a table.

use crate::case::Case;
use crate::judge::differs;
use crate::row::{is_row, take_row};
use crate::tally::Tally;
use std::alloc::Global;
use std::rt::Files;
use std::{fs, io};

/// A table as far as its lines were read.
#[derive(Drop)]
struct Table<'a> {
    alloc: Global,
    name: &'a str,
    frame: String,
    case: Option<Case>,
}

/// Carries out the cases of the table of that name.
pub fn carry_out(
    rt: &(impl Print + Files + AllocGlobal),
    name: &str,
    tally: &mut Tally,
) -> io::Result<()> {
    let text = fs::read_to_string(rt, name)?;
    let mut table = Table {
        alloc: rt.alloc(),
        name,
        frame: String::new(rt.alloc()),
        case: None,
    };
    let mut number = 0u64;
    for line in text.as_str().lines() {
        number = number.saturating_add(1);
        table.take_line(rt, number, line, tally)?;
    }
    table.end_case(rt, tally)
}

impl Table<'_> {
    /// One more line. A comment or an empty line says nothing.
    fn take_line(
        &mut self,
        rt: &(impl Print + Files + AllocGlobal),
        number: u64,
        line: &str,
        tally: &mut Tally,
    ) -> io::Result<()> {
        if line.is_empty() || line.starts_with('#') {
            return Ok(());
        }
        match line.strip_prefix('|') {
            Some(text) => {
                let text = text.strip_prefix(' ').unwrap_or(text);
                self.open_case(number).take_margin(text);
                Ok(())
            }
            None => self.take_key(rt, number, line, tally),
        }
    }

    /// A line that begins with a key, which may begin a case.
    fn take_key(
        &mut self,
        rt: &(impl Print + Files + AllocGlobal),
        number: u64,
        line: &str,
        tally: &mut Tally,
    ) -> io::Result<()> {
        let is_wrong = line.starts_with('!');
        let line = line.strip_prefix('!').unwrap_or(line);
        let (key, value) = line.split_once(':').unwrap_or((line, ""));
        if key != "case" && !is_row(key) {
            return self.take_pair(rt, number, key, value.trim());
        }
        self.end_case(rt, tally)?;
        let mut case = Case::new(self.alloc, number, is_wrong);
        if key != "case" {
            take_row(
                self.alloc,
                self.frame.as_str(),
                key,
                value.trim(),
                &mut case,
            );
        }
        self.case = Some(case);
        Ok(())
    }

    /// A key and a value that begin no case.
    fn take_pair(
        &mut self,
        rt: &(impl Files + AllocGlobal),
        number: u64,
        key: &str,
        value: &str,
    ) -> io::Result<()> {
        match key {
            "frame" => self.frame = String::from_str(self.alloc, value)?,
            "program" => {
                let bytes = fs::read(rt, value)?;
                self.open_case(number).take_program(value, bytes);
            }
            _ => self.open_case(number).take_pair(key, value),
        }
        Ok(())
    }

    /// The case that is open. A line where none is belongs to one that cannot be read.
    fn open_case(&mut self, number: u64) -> &mut Case {
        let alloc = self.alloc;
        self.case.get_or_insert_with(|| stray(alloc, number))
    }

    /// Carries out the case that is open, and prints how it differs.
    fn end_case(&mut self, rt: &impl Print, tally: &mut Tally) -> io::Result<()> {
        let Some(case) = self.case.take() else {
            return Ok(());
        };
        let mut told = String::new(self.alloc);
        let is_right = differs(self.alloc, &case, &mut told)? == case.is_wrong;
        tally.count(!is_right);
        if is_right {
            return Ok(());
        }
        let also = if case.is_wrong { "is to differ" } else { "" };
        println!(rt; "{}:{}: {told}{also}", self.name, case.line)
    }
}

/// A case for a line that belongs to none.
fn stray(alloc: Global, number: u64) -> Case {
    let mut case = Case::new(alloc, number, false);
    case.is_sound = false;
    case
}
