//! The words of the command line.

ghost use Rattle.std.specs.Prelude.{◌≡◌, ◌∷◌, MatchOption, map};
ghost use Rattle.std.specs.Option.{option_map};
ghost use Rattle.ep_drive.specs.Commands.{Command as Asked, WordsOf, bytes_of, is_option};
ghost use Rattle.ep_drive.specs.Asked.{asked_by};
ghost use Rattle.ep_drive.specs.WordReading.{Gives, taken_by, ticks_of, take_ticks, take_source, take_any, take_word, asked, read_row, read_words};

use crate::number::{all_digits, number_of};

/// The ticks of a run where no option says how many.
const USUAL_BUDGET: u64 = 400_000_000;

/// The greatest number of ticks that an option may have.
const MAX_BUDGET: u64 = 9_999_999_999;

/// The most digits of such a number.
const MAX_BUDGET_DIGITS: usize = 10;

/// What a list of words asks for.
#[derive(Clone, Copy, Debug)]
pub enum Command<'a> {
    /// To compile, link and run a source.
    Go {
        /// The ticks that the run may spend.
        budget: u64,
        /// The name of the source.
        source: &'a str,
    },
}

/// What a word may be where it stands.
#[derive(Clone, Copy, Debug)]
enum Expected {
    /// An option or a source.
    Any,
    /// The number of the option `--ticks`.
    Ticks,
    /// A source: the options have ended.
    Source,
}

/// What the words so far ask for, and what may follow.
#[derive(Clone, Copy, Debug)]
struct Row<'a> {
    expected: Expected,
    ticks: Option<u64>,
    source: Option<&'a str>,
}

/// The command that the words are, or `None` exactly where they are none.
pub fn command_of(words: &[String]) -> Option<Command<'_>>
    ensures { MatchOption result ((other : Asked) → WordsOf (bytes_of words.now) other → ⊥)
        (λ command. WordsOf (bytes_of words.now) (asked_by command)
        × ((other : Asked) → WordsOf (bytes_of words.now) other → other ≡ asked_by command)) }
{
    read_words(words)
}

/// The same, as specs/WordReading.antt finds it.
fn read_words(words: &[String]) -> Option<Command<'_>>
    ensures { Gives asked_by result (read_words (bytes_of words.now)) }
{
    if words.len() > u32::MAX as usize {
        return None;
    }
    let [first, row @ ..] = words else {
        return None;
    };
    if first.as_str() != "go" {
        return None;
    }
    read_row(row)
}

/// The command of the words behind the first one.
fn read_row(words: &[String]) -> Option<Command<'_>>
    ensures { Gives asked_by result (read_row (bytes_of words.now)) }
{
    let mut row = Row {
        expected: Expected::Any,
        ticks: None,
        source: None,
    };
    for word in words {
        row = row.take(word.as_str())?;
    }
    row.command()
}

impl<'a> Row<'a> {
    /// The command, where no number is wanting and there is a source.
    fn command(self) -> Option<Command<'a>>
        ensures { Gives asked_by result (asked (taken_by self.entry)) }
    {
        if let Expected::Ticks = self.expected {
            return None;
        }
        let source = self.source?;
        let budget = self.ticks.unwrap_or(USUAL_BUDGET);
        Some(Command::Go { budget, source })
    }

    /// After one more word, or `None` where the word cannot stand there.
    #[tactic(auto, unfolding(crate::specs::WordReading::take_word))]
    fn take(self, word: &'a str) -> Option<Row<'a>>
        ensures { Gives taken_by result (take_word (taken_by self.entry) word.now) }
    {
        match self.expected {
            Expected::Any => self.take_any(word),
            Expected::Ticks => self.take_ticks(word.as_bytes()),
            Expected::Source => self.take_source(word),
        }
    }

    /// The same where options may stand.
    fn take_any(self, word: &'a str) -> Option<Row<'a>>
        ensures { Gives taken_by result (take_any (taken_by self.entry) word.now) }
    {
        let bytes = word.as_bytes();
        if bytes == b"--".as_slice() {
            return Some(self.expecting(Expected::Source));
        }
        if bytes == b"--ticks".as_slice() {
            return Some(self.expecting(Expected::Ticks));
        }
        match bytes.strip_prefix(b"--ticks=") {
            Some(number) => self.take_ticks(number),
            None if is_option(bytes) => None,
            None => self.take_source(word),
        }
    }

    /// The same row, after which something else may follow.
    fn expecting(self, expected: Expected) -> Row<'a>
        ensures { result ≡ record self.entry { expected = expected } }
    {
        Row { expected, ..self }
    }

    /// After the number of an option.
    fn take_ticks(self, text: &[u8]) -> Option<Row<'a>>
        ensures { Gives taken_by result (take_ticks (taken_by self.entry) text.now) }
    {
        if self.ticks.is_some() {
            return None;
        }
        let ticks = ticks_of(text)?;
        Some(Row {
            expected: Expected::Any,
            ticks: Some(ticks),
            source: self.source,
        })
    }

    /// After a source.
    fn take_source(self, word: &'a str) -> Option<Row<'a>>
        ensures { Gives taken_by result (take_source (taken_by self.entry) word.now) }
    {
        if self.source.is_some() {
            return None;
        }
        Some(Row {
            source: Some(word),
            ..self
        })
    }
}

/// The number of ticks that a text spells.
fn ticks_of(text: &[u8]) -> Option<u64>
    ensures { result ≡ ticks_of text.now }
{
    if !all_digits(text) || text.len() > MAX_BUDGET_DIGITS {
        return None;
    }
    match number_of(text) {
        Some(ticks) if 0 < ticks && ticks <= MAX_BUDGET => Some(ticks),
        _ => None,
    }
}

/// Whether a word has two or more bytes and begins with a hyphen.
fn is_option(word: &[u8]) -> bool
    ensures { result ≡ is_option word.now }
{
    word.len() >= 2 && word[0] == b'-'
}
