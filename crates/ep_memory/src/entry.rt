//! What stands for one segment.

ghost use Rattle.std.specs.Prelude.{◌≡◌, length, replicate, Some, None, option_map, IfOk};
ghost use Rattle.ep_memory.specs.Entries.{HasWords, with_word, with_words};
ghost use Rattle.ep_memory.specs.Stores.{cell_in};
ghost use Rattle.ep_object.specs.Places.{undefined_segment};
ghost use Rattle.ep_object.specs.State.{undefined};

use crate::answers::Cell;
use std::alloc::{AllocError, Global};
use std::marker::Model;
use std::slice;

/// The word of a variable that has no value.
pub const UNDEFINED: i64 = i64::MIN;

/// The words of a segment that has not one of them.
#[derive(Drop)]
pub struct Body {
    /// The number of its type.
    pub type_number: u32,
    /// The words.
    pub words: Vec<i64>,
}

/// What stands for a segment. Nearly every one has one word, which then stands here and takes no memory of its own.
#[derive(Drop)]
pub enum Form {
    /// It has ended.
    Ended,
    /// It is of the type of this number and has one word.
    Word(u32, i64),
    /// It has any number of words.
    Words(Box<Body>),
}

/// A segment, or that it has ended.
#[derive(Drop)]
pub struct Entry {
    form: Form,
}

impl Model for Entry {
    ghost use Rattle.std.specs.Prelude.{Option};
    ghost use Rattle.ep_object.specs.declared.state.Segment.{Segment};
    ghost use Rattle.ep_memory.specs.Entries.{segment_in};

    ghost Value = { Option Segment };

    ghost view = { λ s. segment_in s.form };
}

impl Entry {
    /// One that has ended.
    pub fn ended() -> Entry
        ensures { result ≡ None }
    {
        Entry { form: Form::Ended }
    }

    /// A segment of these words.
    pub fn of(alloc: Global, type_number: u32, words: &[i64]) -> Result<Entry, AllocError>
        ensures { IfOk result (λ s. s
            ≡ Some (record { type_number = type_number; words = words.now })) }
    {
        if let [word] = words {
            return Ok(Entry {
                form: Form::Word(type_number, *word),
            });
        }
        let words = Vec::from_slice(alloc, words)?;
        Entry::of_vec(alloc, type_number, words)
    }

    /// A segment of so many undefined words.
    pub fn undefined(alloc: Global, type_number: u32, size: u32) -> Result<Entry, AllocError>
        ensures { IfOk result (λ s. s ≡ Some (undefined_segment type_number size)) }
    {
        if size == 1 {
            return Ok(Entry {
                form: Form::Word(type_number, UNDEFINED),
            });
        }
        let words = vec![in alloc; UNDEFINED; size as usize]?;
        Entry::of_vec(alloc, type_number, words)
    }

    /// A segment of the words of a vector.
    fn of_vec(alloc: Global, type_number: u32, words: Vec<i64>) -> Result<Entry, AllocError>
        ensures { IfOk result (λ s. s
            ≡ Some (record { type_number = type_number; words = words.items })) }
    {
        let body = Box::new(alloc, Body { type_number, words })?;
        Ok(Entry {
            form: Form::Words(body),
        })
    }

    /// Its words, unless it has ended.
    #[inline(always)]
    pub fn words(&self) -> Option<&[i64]>
        ensures { option_map (λ w. w.now) result ≡ option_map (λ s. s.words) self.now }
    {
        match &self.form {
            Form::Ended => None,
            Form::Word(_, word) => Some(slice::from_ref(word)),
            Form::Words(body) => Some(body.words.as_slice()),
        }
    }

    /// What stands at an offset of it.
    #[inline(always)]
    pub fn cell(&self, offset: usize) -> Cell
        ensures { result ≡ cell_in self.now offset }
    {
        match &self.form {
            Form::Ended => Cell::Gone,
            Form::Word(_, word) => {
                if offset == 0 {
                    Cell::Word(*word)
                } else {
                    Cell::Outside
                }
            }
            Form::Words(body) => match body.words.get(offset) {
                Some(word) => Cell::Word(*word),
                None => Cell::Outside,
            },
        }
    }

    /// The number of its type, unless it has ended.
    pub fn type_number(&self) -> Option<u32>
        ensures { result ≡ option_map (λ s. s.type_number) self.now }
    {
        match &self.form {
            Form::Ended => None,
            Form::Word(type_number, _) => Some(*type_number),
            Form::Words(body) => Some(body.type_number),
        }
    }

    /// One of its words becomes another one.
    #[inline(always)]
    pub fn set(&mut self, offset: usize, w: i64)
        requires { HasWords self.old offset 1 }
        ensures { self.new ≡ with_word self.old offset w }
    {
        match &mut self.form {
            Form::Ended => {}
            Form::Word(_, word) => *word = w,
            Form::Words(body) => body.words[offset] = w,
        }
    }

    /// Some of its words, from an offset on, become others.
    pub fn put(&mut self, offset: usize, words: &[i64])
        requires { HasWords self.old offset (length words.now) }
        ensures { self.new ≡ with_words self.old offset words.now }
    {
        match &mut self.form {
            Form::Ended => {}
            Form::Word(_, word) => {
                if let [w] = words {
                    *word = *w;
                }
            }
            Form::Words(body) => {
                body.words[offset..offset + words.len()].copy_from_slice(words);
            }
        }
    }

    /// So many of its words, from an offset on, become undefined.
    pub fn undefine(&mut self, offset: usize, count: usize)
        requires { HasWords self.old offset count }
        ensures { self.new ≡ with_words self.old offset (replicate count undefined) }
    {
        match &mut self.form {
            Form::Ended => {}
            Form::Word(_, word) => {
                if count == 1 {
                    *word = UNDEFINED;
                }
            }
            Form::Words(body) => {
                body.words[offset..offset + count].fill(UNDEFINED);
            }
        }
    }

    /// It ends.
    #[inline(always)]
    pub fn end(&mut self)
        ensures { self.new ≡ None }
    {
        self.form = Form::Ended;
    }
}
