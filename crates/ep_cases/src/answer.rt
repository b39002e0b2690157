//! What a call of `epc` comes to, and what a table wants of it.

use std::alloc::AllocError;

/// The most bytes of an output or a report that are shown.
const MOST_SHOWN: usize = 80;

/// A status, an output and a report.
#[derive(Clone, Copy)]
pub struct Answer<'a> {
    pub status: u8,
    pub output: &'a [u8],
    pub report: &'a [u8],
}

/// The causes for which the tokens and the grammar refuse a text.
const CAUSES: [&str; 7] = [
    "no token",
    "open comment",
    "open string",
    "bad number",
    "long name",
    "syntax",
    "nested",
];

/// The names of the statuses, in the order of their numbers.
const STATUSES: [&str; 15] = [
    "done",
    "halted",
    "run error",
    "source refused",
    "link refused",
    "file refused",
    "usage",
    "budget",
    "file missing",
    "read fault",
    "write fault",
    "file fault",
    "broken image",
    "no memory",
    "not built",
];

/// The status of a text, which is its name or its number.
pub fn status_of(text: &str) -> Option<u8> {
    let mut number = 0u8;
    for name in STATUSES {
        if name == text {
            return Some(number);
        }
        number = number.saturating_add(1);
    }
    text.parse::<u8>().ok()
}

/// Whether this is a cause for which the tokens or the grammar refuse a text.
pub fn is_cause(text: &str) -> bool {
    for cause in CAUSES {
        if cause == text {
            return true;
        }
    }
    false
}

impl Answer<'_> {
    /// Whether the two answers are one.
    pub fn is(self, other: Answer<'_>) -> bool {
        self.status == other.status && self.output == other.output && self.report == other.report
    }

    /// Whether the tokens and the grammar took the text, whatever came of it then.
    pub fn is_accepted(self) -> bool {
        match self.status {
            0..=2 | 4 | 7 | 14 => true,
            3 => !self.names_a_cause(),
            _ => false,
        }
    }

    /// Whether the report ends with a cause of the tokens or the grammar.
    fn names_a_cause(self) -> bool {
        let line = self.report.strip_suffix(b"\n").unwrap_or(self.report);
        for cause in CAUSES {
            if line.ends_with(cause.as_bytes()) {
                return true;
            }
        }
        false
    }

    /// Shows the answer behind a title, as far as memory lets it.
    pub fn show(self, title: &str, told: &mut String) {
        let _ = write!(told, "{title} status {}", self.status);
        show_bytes(" output ", self.output, told);
        show_bytes(" report ", self.report, told);
    }
}

/// Shows some first bytes behind a title, if there are any.
fn show_bytes(title: &str, bytes: &[u8], told: &mut String) {
    if bytes.is_empty() {
        return;
    }
    let _ = told.push_str(title);
    for byte in bytes.iter().take(MOST_SHOWN) {
        let _ = show_byte(*byte, told);
    }
    if bytes.len() > MOST_SHOWN {
        let _ = write!(told, ".. ({} bytes)", bytes.len());
    }
}

/// Shows a byte as a table has it.
fn show_byte(byte: u8, told: &mut String) -> Result<(), AllocError> {
    match byte {
        b'\n' => told.push_str("\\n"),
        b' '..=b'~' => told.push(char::from(byte)),
        _ => write!(told, "\\x{byte:02X}"),
    }
}
