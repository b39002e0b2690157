//! A row, which is a whole case on one line: its kind says what is wanted of its text, and a bar shows where.

use crate::answer::is_cause;
use crate::case::{Case, SOURCE};
use std::alloc::{AllocError, Global};

/// Whether a key begins a row.
pub fn is_row(key: &str) -> bool {
    matches!(key, "accepted" | "prints" | "not built" | "usage") || is_rule(key) || is_cause(key)
}

/// Whether a text names a rule, as `rule 46`.
fn is_rule(text: &str) -> bool {
    match text.strip_prefix("rule ") {
        Some(number) => number.parse::<u64>().is_ok(),
        None => false,
    }
}

/// Fills a case by a row.
pub fn take_row(alloc: Global, frame: &str, key: &str, value: &str, case: &mut Case) {
    match key {
        "usage" => take_usage(value, case),
        "prints" => take_prints(alloc, frame, value, case),
        _ => match framed(alloc, frame, value) {
            Ok(text) => take_text(alloc, key, text.as_str(), case),
            Err(_) => case.is_sound = false,
        },
    }
}

/// The text of a row in its frame, where it stands for the percent sign.
fn framed(alloc: Global, frame: &str, text: &str) -> Result<String, AllocError> {
    let (before, after) = frame.split_once('%').unwrap_or(("", ""));
    format!(in alloc; "{before}{text}{after}")
}

/// A row of words that are no command, whatever the source is.
fn take_usage(words: &str, case: &mut Case) {
    case.take_file(SOURCE, "program p; begin end.");
    case.take_pair("words", words);
    case.take_pair("status", "usage");
    case.take_pair("report", "usage\\n");
}

/// A row whose text is run and prints what stands behind the arrow.
fn take_prints(alloc: Global, frame: &str, value: &str, case: &mut Case) {
    let (text, output) = value.rsplit_once("->").unwrap_or((value, "\\"));
    match framed(alloc, frame, text.trim()) {
        Ok(text) => case.take_file(SOURCE, text.as_str()),
        Err(_) => case.is_sound = false,
    }
    case.take_pair("output", output.trim());
}

/// A row whose whole text is accepted, or refused for the cause that the key names.
fn take_text(alloc: Global, key: &str, text: &str, case: &mut Case) {
    if key == "accepted" {
        case.is_accepted = true;
        case.take_file(SOURCE, text);
        return;
    }
    match text.split_once('|') {
        Some((before, behind)) => {
            let line = take_marked(before, behind.trim_start(), case);
            take_refusal(alloc, key, line, case);
        }
        None => case.is_sound = false,
    }
}

/// The status and the report of a text that is refused on this line.
fn take_refusal(alloc: Global, key: &str, line: u64, case: &mut Case) {
    let is_unbuilt = key == "not built";
    case.take_pair("status", if is_unbuilt { key } else { "source refused" });
    match format!(in alloc; "{SOURCE}: line {line}: {key}\\n") {
        Ok(report) => case.take_pair("report", report.as_str()),
        Err(_) => case.is_sound = false,
    }
}

/// A source whose part behind the bar, up to the next blank, is put on a line of its own, and the number of that line.
/// Where nothing stands behind it, it is the line of the last token.
fn take_marked(before: &str, behind: &str, case: &mut Case) -> u64 {
    case.take_file(SOURCE, before);
    if behind.is_empty() {
        return last_line(case.last_file());
    }
    let line = line_feeds(case.last_file()).saturating_add(2);
    let (token, after) = behind.split_once(' ').unwrap_or((behind, ""));
    case.take_text("\\n");
    case.take_text(token);
    case.take_text("\\n");
    case.take_text(after);
    line
}

/// How many line feeds there are.
fn line_feeds(bytes: &[u8]) -> u64 {
    let mut count = 0u64;
    for byte in bytes {
        if *byte == b'\n' {
            count = count.saturating_add(1);
        }
    }
    count
}

/// The line of the last byte that is no blank, or 1.
fn last_line(bytes: &[u8]) -> u64 {
    let mut line = 1u64;
    let mut last = 1u64;
    for byte in bytes {
        match *byte {
            b'\n' => line = line.saturating_add(1),
            b' ' | b'\t' | b'\r' => {}
            _ => last = line,
        }
    }
    last
}
