//! What is printed of trees.

use ep_base::{Line, Name, Names};
use ep_tree::QualifiedName;
use std::alloc::{AllocError, Global};

/// A text that grows, how deep the next line is indented, and the line that was told last. Where memory is wanting
/// something of the text is left out, and it is not whole.
#[derive(Drop)]
pub struct Dump {
    text: String,
    depth: u32,
    line: Line,
    is_whole: bool,
}

impl Dump {
    /// Nothing so far.
    pub fn new(alloc: Global) -> Dump {
        Dump {
            text: String::new(alloc),
            depth: 0,
            line: 0,
            is_whole: true,
        }
    }

    /// What is printed.
    pub fn text(&self) -> &str {
        if self.is_whole {
            return self.text.as_str();
        }
        "no memory"
    }

    /// Keeps in mind whether something was left out.
    fn keep(&mut self, done: Result<(), AllocError>) {
        self.is_whole &= done.is_ok();
    }

    /// Puts bytes of the text.
    fn put(&mut self, text: &str) {
        let done = self.text.push_str(text);
        self.keep(done);
    }

    /// A line for a node.
    pub fn begin(&mut self, line: Line, word: &str) {
        if !self.text.is_empty() {
            self.put("\n");
        }
        for _ in 0..self.depth {
            self.put("  ");
        }
        self.line = line;
        let done = write!(&mut self.text, "{line} {word}");
        self.keep(done);
    }

    /// What follows stands inside the last node.
    pub fn enter(&mut self) {
        self.depth = self.depth.saturating_add(1);
    }

    /// What follows stands beside it again.
    pub fn leave(&mut self) {
        self.depth = self.depth.saturating_sub(1);
    }

    /// The line of a node, where it is another one than the last.
    pub fn at(&mut self, line: Line) {
        if line != self.line {
            self.line = line;
            let done = write!(&mut self.text, " @{line}");
            self.keep(done);
        }
    }

    /// A word.
    pub fn word(&mut self, word: &str) {
        self.put(" ");
        self.put(word);
    }

    /// A word, where it is there.
    pub fn word_if(&mut self, is_there: bool, word: &str) {
        if is_there {
            self.word(word);
        }
    }

    /// A word for a node with its line.
    pub fn node(&mut self, line: Line, word: &str) {
        self.at(line);
        self.word(word);
    }

    /// A number.
    pub fn number(&mut self, value: i64) {
        let done = write!(&mut self.text, " {value}");
        self.keep(done);
    }

    /// A character string, between quotes.
    pub fn quoted(&mut self, bytes: &[u8]) {
        self.put(" '");
        self.put(str::from_utf8(bytes).unwrap_or("?"));
        self.put("'");
    }

    /// A name.
    pub fn name(&mut self, name: &Name) {
        self.word(str::from_utf8(name.bytes()).unwrap_or("?"));
    }

    /// A name behind a word, where it is there.
    pub fn name_if(&mut self, word: &str, name: &Option<Name>) {
        if let Some(name) = name {
            self.word(word);
            self.name(name);
        }
    }

    /// Names.
    pub fn names(&mut self, names: &Names) {
        for name in names.items() {
            self.name(name);
        }
    }

    /// A name that may be qualified.
    pub fn qualified(&mut self, name: &QualifiedName) {
        self.at(name.line);
        self.name(&name.first);
        self.name_if(".", &name.second);
    }
}
