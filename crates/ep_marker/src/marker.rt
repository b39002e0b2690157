//! The tokens that are left, and the marks of those before them.

ghost use Rattle.std.specs.Prelude.{◌≡◌, ℕ, [], None, Some};
ghost use Rattle.ep_grammar.specs.Descriptions as grammar;
ghost use Rattle.ep_marks.specs.Styles.{plain, new_line};
ghost use Rattle.ep_marker.specs.Marking.{Opened, Passed, Started, Walked, first_stop};

use ep_grammar::Stop;
use ep_marks::Mark;
use ep_reader::Reader;
use ep_token::Token;
use std::alloc::Global;

/// The tokens that are left, and the marks of those before them.
#[derive(Drop)]
pub(crate) struct Marker<'a> {
    pub(crate) reader: Reader<'a>,
    pub(crate) marks: Vec<Mark>,
    /// Why the walk was ended, if it was: no token is left to read then.
    pub(crate) stop: Option<Stop>,
}

impl<'a> Marker<'a> {
    /// A marker of these tokens.
    pub(crate) fn new(alloc: Global, tokens: &'a [Token]) -> Marker<'a>
        ensures reader { result.reader ≡ tokens.now }
        ensures marks { result.marks.items ≡ [] }
        ensures stop { result.stop ≡ None }
    {
        Marker {
            reader: Reader::new(tokens),
            marks: Vec::new(alloc),
            stop: None,
        }
    }

    /// Ends the walk for this cause, unless it was ended for another one.
    pub(crate) fn halt(&mut self, stop: Stop)
        ensures { self.new.stop ≡ Some (first_stop self.old.stop stop) }
    {
        self.reader = Reader::new(&[]);
        if let Some(_) = self.stop {
            return;
        }
        self.stop = Some(stop);
    }

    /// Begins what needs a level: the walk is ended where none is left.
    pub(crate) fn open(&mut self, room: u32)
        ensures { Opened room self.old self.new }
    {
        if room > 0 {
            return;
        }
        self.halt(Stop::Nested);
    }

    /// Marks the tokens that were read since `before` were left, which start no line. The walk is ended where they
    /// were refused.
    pub(crate) fn pass(&mut self, refusal: Option<Stop>, before: usize, depth: u32)
        ensures { Passed refusal before depth self.old self.new }
    {
        if let Some(stop) = refusal {
            self.halt(stop);
            return;
        }
        let passed = before.saturating_sub(self.reader.left());
        for _token in 0..passed {
            let mark = Mark {
                starts: false,
                depth,
            };
            if self.marks.push(mark).is_err() {
                self.halt(Stop::NoMemory);
                return;
            }
        }
    }

    /// The token with this number starts a line, if there is one.
    pub(crate) fn start(&mut self, first: usize)
        ensures { Started first self.old self.new }
    {
        if first < self.marks.len() {
            self.marks[first].starts = true;
        }
    }

    /// Takes this word symbol.
    pub(crate) fn word(&mut self, word: u8, depth: u32)
        ensures { (room : ℕ) → Walked room plain (grammar.keyword word) depth self.old self.new }
    {
        let before = self.reader.left();
        let refusal = self.reader.keyword(word).err();
        self.pass(refusal, before, depth);
    }

    /// Takes this word symbol, which starts a line.
    pub(crate) fn new_line(&mut self, word: u8, depth: u32)
        ensures { (room : ℕ) → Walked room new_line (grammar.keyword word) depth self.old self.new }
    {
        let first = self.marks.len();
        self.word(word, depth);
        self.start(first);
    }

    /// Takes this special symbol.
    pub(crate) fn symbol(&mut self, symbol: u8, depth: u32)
        ensures { (room : ℕ) → Walked room plain (grammar.symbol symbol) depth self.old self.new }
    {
        let before = self.reader.left();
        let refusal = self.reader.symbol(symbol).err();
        self.pass(refusal, before, depth);
    }
}
