//! The bytes that a text of a table spells: `\n`, `\xFF`, `\\`, `\e` for nothing, and `\3{piece}` for repetitions.

use std::alloc::Global;

/// What may follow in a text.
#[derive(Clone, Copy)]
enum Expected {
    /// Any byte.
    Any,
    /// What stands behind a backslash.
    Escape,
    /// The first digit of a byte.
    HighDigit,
    /// The second digit of a byte, whose first is this.
    LowDigit(u8),
    /// More digits of this count, or the brace that opens its piece.
    Times(u32),
}

/// A text that is spelled byte by byte.
#[derive(Drop)]
struct Speller<'a> {
    out: &'a mut Vec<u8>,
    piece: &'a mut Vec<u8>,
    times: Option<u32>,
    expected: Expected,
    is_sound: bool,
}

/// Appends the bytes that the text spells, and tells whether it spells any and all are there.
pub fn spell(alloc: Global, text: &str, out: &mut Vec<u8>) -> bool {
    let mut piece = Vec::new(alloc);
    let mut speller = Speller {
        out,
        piece: &mut piece,
        times: None,
        expected: Expected::Any,
        is_sound: true,
    };
    for byte in text.as_bytes() {
        speller.take(*byte);
    }
    speller.is_done()
}

impl Speller<'_> {
    /// Whether the text may end here.
    fn is_done(&self) -> bool {
        self.is_sound && self.times.is_none() && matches!(self.expected, Expected::Any)
    }

    /// Goes on after one more byte of the text.
    fn take(&mut self, byte: u8) {
        match self.expected {
            Expected::Any => self.take_any(byte),
            Expected::Escape => self.take_escape(byte),
            Expected::HighDigit => {
                self.expected = Expected::LowDigit(self.digit(byte));
            }
            Expected::LowDigit(high) => {
                let low = self.digit(byte);
                self.put(high.wrapping_mul(16).wrapping_add(low));
            }
            Expected::Times(times) => self.take_times(times, byte),
        }
    }

    /// A byte where any may stand.
    fn take_any(&mut self, byte: u8) {
        match (byte, self.times) {
            (b'\\', _) => self.expected = Expected::Escape,
            (b'}', Some(times)) => self.repeat(times),
            _ => self.put(byte),
        }
    }

    /// A byte behind a backslash.
    fn take_escape(&mut self, byte: u8) {
        self.expected = Expected::Any;
        match byte {
            b'n' => self.put(b'\n'),
            b'r' => self.put(b'\r'),
            b't' => self.put(b'\t'),
            b'\\' | b'}' => self.put(byte),
            b'e' => {}
            b'x' => self.expected = Expected::HighDigit,
            _ => self.take_times(0, byte),
        }
    }

    /// A digit of a count, or the brace behind it. Pieces do not stand in pieces.
    fn take_times(&mut self, times: u32, byte: u8) {
        if byte == b'{' && self.times.is_none() {
            self.times = Some(times);
            self.expected = Expected::Any;
            return;
        }
        if !byte.is_ascii_digit() {
            self.is_sound = false;
        }
        let digit = u32::from(self.digit(byte));
        self.expected = Expected::Times(times.saturating_mul(10).saturating_add(digit));
    }

    /// The value of a hexadecimal digit.
    fn digit(&mut self, byte: u8) -> u8 {
        match byte {
            b'0'..=b'9' => byte - b'0',
            b'A'..=b'F' => byte - b'A' + 10,
            _ => {
                self.is_sound = false;
                0
            }
        }
    }

    /// Puts a byte where the text is.
    fn put(&mut self, byte: u8) {
        self.expected = Expected::Any;
        let done = match self.times {
            Some(_) => self.piece.push(byte),
            None => self.out.push(byte),
        };
        self.is_sound &= done.is_ok();
    }

    /// Puts the piece so many times.
    fn repeat(&mut self, times: u32) {
        self.times = None;
        for _ in 0..times {
            let done = self.out.extend_from_slice(self.piece.as_slice());
            self.is_sound &= done.is_ok();
        }
        self.piece.clear();
    }
}
