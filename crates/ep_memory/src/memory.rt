//! The memory itself.

ghost use Rattle.std.specs.Prelude.{◌≡◌, ◌≤◌, ◌<◌, ◌+◌, ◌-◌, ◌^◌, min, length, replicate, Some, option_map, IfErr, OnOk};
ghost use Rattle.ep_memory.specs.Stores.{Makes, cell_in, empty, end_of, given_back, held, live as live_words, next, put_into, segment_at, weight_in, with_charged, with_word_at, with_words_at, without, OnGone};
ghost use Rattle.ep_object.specs.Places.{undefined_segment};
ghost use Rattle.ep_object.specs.declared.state.Segment.{Segment};
ghost use Rattle.ep_object.specs.State.{live_limit, undefined};

use crate::answers::{Cell, Full, MakeRefusal, Released, Stored};
use crate::entry::Entry;
use ep_object::limit;
use std::alloc::Global;
use std::marker::Model;

/// Segments of words, numbered from 1 and never again.
#[derive(Drop)]
pub struct Memory {
    /// By number. 0 numbers none, and has its entry before the first segment has one.
    entries: Vec<Entry>,
    /// What the segments count that live.
    counted: u64,
    /// How many words are charged besides.
    charged: u64,
    /// The most words that have lived at once.
    peak: u64,
    /// The words of the segments that live.
    held: u64,
    alloc: Global,
}

impl Model for Memory {
    ghost use Rattle.std.specs.Prelude.{◌≡◌, ◌≤◌, ◌+◌};
    ghost use Rattle.std.specs.List.{sum_by};
    ghost use Rattle.ep_object.specs.State.{live_limit, undefined};
    ghost use Rattle.ep_memory.specs.Entries.{numbered};
    ghost use Rattle.ep_memory.specs.Stores.{Store, size_in, weight_in};

    ghost Value = { Store };

    ghost view = { λ m. record { segments = numbered m.entries.items; charged = m.charged; peak = m.peak } };

    ghost invariant = { λ m. (m.counted ≡ sum_by weight_in m.entries.items)
        × (m.held ≡ sum_by size_in m.entries.items)
        × (m.counted + m.charged ≤ m.peak) × (m.peak ≤ live_limit) };
}

impl Memory {
    /// No segment. It takes no memory.
    pub fn new(alloc: Global) -> Memory
        ensures { result ≡ empty }
    {
        Memory {
            entries: Vec::new(alloc),
            counted: 0,
            charged: 0,
            peak: 0,
            held: 0,
            alloc,
        }
    }

    /// How many segments were made so far.
    #[inline(always)]
    pub fn made(&self) -> u64
        ensures { result + 1 ≡ next self.now }
    {
        (self.entries.len() as u64).saturating_sub(1)
    }

    /// How many words live: what is charged, and for each segment that lives its words and one more.
    #[inline(always)]
    pub fn live(&self) -> u64
        ensures words { result ≡ live_words self.now }
        ensures within { result ≤ live_limit }
    {
        self.counted + self.charged
    }

    /// The most words that have lived at once so far.
    pub fn peak(&self) -> u64
        ensures peak { result ≡ self.now.peak }
        ensures reached { live_words self.now ≤ result }
        ensures within { result ≤ live_limit }
    {
        self.peak
    }

    /// How many words the segments have that live.
    pub fn held(&self) -> u64
        ensures { result ≡ held self.now }
    {
        self.held
    }

    /// How many words would live with a segment of so many, unless they pass the limit.
    #[inline(always)]
    fn room(&self, size: usize) -> Result<(), MakeRefusal>
        requires { size < 2 ^ 63 }
        ensures ok { OnOk result (live_words self.now + (size + 1) ≤ live_limit) }
        ensures full { IfErr result (λ e. (e ≡ MakeRefusal.Full (live_words self.now + (size + 1)))
            × (live_limit < live_words self.now + (size + 1))) }
    {
        let live = self.live() + (size as u64 + 1);
        if live > limit::LIVE_WORDS {
            return Err(MakeRefusal::Full(live));
        }
        Ok(())
    }

    /// The entry of a segment of so many words more, which has the next number, if there is memory.
    #[tactic(auto, using(crate::proofs::Counts::held_counted))]
    #[inline(always)]
    fn enter(&mut self, entry: Entry, size: u64) -> Result<u64, MakeRefusal>
        requires room { live_words self.old + (size + 1) ≤ live_limit }
        requires size { option_map (λ s. length s.words) entry ≡ Some size }
        ensures made { (s : Segment) → entry ≡ Some s → Makes s self.old result self.new }
        ensures live { OnOk result (live_words self.new ≡ live_words self.old + (size + 1)) }
    {
        if self.entries.is_empty() && self.entries.push(Entry::ended()).is_err() {
            return Err(MakeRefusal::NoMemory);
        }
        let number = self.entries.len() as u64;
        if self.entries.push(entry).is_err() {
            return Err(MakeRefusal::NoMemory);
        }
        self.counted += size + 1;
        self.held += size;
        self.peak = self.peak.max(self.counted + self.charged);
        Ok(number)
    }

    /// A segment of a type with these words, which has the next number. `Full` comes exactly where the words that would
    /// live with it pass the limit, and carries their count. After a refusal the memory is as it was.
    pub fn make(&mut self, ty: u32, words: &[i64]) -> Result<u64, MakeRefusal>
        ensures made { Makes (record { type_number = ty; words = words.now })
            self.old result self.new }
        ensures live { OnOk result (live_words self.new
            ≡ live_words self.old + (length words.now + 1)) }
    {
        self.room(words.len())?;
        let entry = Entry::of(self.alloc, ty, words)?;
        self.enter(entry, words.len() as u64)
    }

    /// A segment of a type with so many undefined words. (Until `words` lends the words of all segments at once, this
    /// spares a caller a list of them.)
    pub fn make_undefined(&mut self, ty: u32, size: u32) -> Result<u64, MakeRefusal>
        ensures made { Makes (undefined_segment ty size) self.old result self.new }
        ensures live { OnOk result (live_words self.new ≡ live_words self.old + (size + 1)) }
    {
        self.room(size as usize)?;
        let entry = Entry::undefined(self.alloc, ty, size)?;
        self.enter(entry, u64::from(size))
    }

    /// So many more words live. It is refused exactly where they would then pass the limit, and the refusal carries
    /// their count. It takes no memory.
    pub fn charge(&mut self, words: u64) -> Result<(), Full>
        ensures ok { OnOk result ((live_words self.old + words ≤ live_limit)
            × (self.new ≡ with_charged words self.old)) }
        ensures full { IfErr result (λ full. (live_limit < live_words self.old + words)
            × (full.0 ≡ min (live_words self.old + words) (2 ^ 64 - 1)) × (self.new ≡ self.old)) }
        ensures live { OnOk result (live_words self.new ≡ live_words self.old + words) }
    {
        let live = self.live().saturating_add(words);
        if live > limit::LIVE_WORDS {
            return Err(Full(live));
        }
        self.charged += words;
        self.peak = self.peak.max(live);
        Ok(())
    }

    /// So many fewer words live, which were charged. It takes no memory.
    pub fn give_back(&mut self, words: u64)
        requires { words ≤ self.old.charged }
        ensures store { self.new ≡ given_back words self.old }
        ensures live { live_words self.new ≡ live_words self.old - words }
    {
        self.charged -= words;
    }

    /// What stands at an offset of a segment. It takes no memory.
    #[inline(always)]
    pub fn load(&self, segment: u64, offset: u64) -> Cell
        ensures { result ≡ cell_in (segment_at self.now segment) offset }
    {
        match self.entries.get(segment as usize) {
            Some(entry) => entry.cell(offset as usize),
            None => Cell::Gone,
        }
    }

    /// A word takes the place of the one at an offset of a segment. It takes no memory.
    #[inline(always)]
    pub fn store(&mut self, segment: u64, offset: u64, word: i64) -> Stored
        ensures answer { result ≡ put_into (segment_at self.old segment) offset 1 }
        ensures store { self.new ≡ with_word_at segment offset word self.old }
        ensures live { live_words self.new ≡ live_words self.old }
    {
        let at = segment as usize;
        if at >= self.entries.len() {
            return Stored::Gone;
        }
        let Some(words) = self.entries[at].words() else {
            return Stored::Gone;
        };
        if offset as usize >= words.len() {
            return Stored::Outside;
        }
        self.entries[at].set(offset as usize, word);
        Stored::Done
    }

    /// A segment ends, where it lives. It takes no memory.
    #[tactic(auto, using(crate::proofs::Counts::live_without))]
    #[inline(always)]
    pub fn release(&mut self, segment: u64) -> Released
        ensures answer { result ≡ end_of (segment_at self.old segment) }
        ensures store { self.new ≡ without segment self.old }
        ensures gone { OnGone result (self.new ≡ self.old) }
        ensures live { live_words self.new
            ≡ live_words self.old - weight_in (segment_at self.old segment) }
    {
        let at = segment as usize;
        if at >= self.entries.len() {
            return Released::Gone;
        }
        let Some(words) = self.entries[at].words() else {
            return Released::Gone;
        };
        let size = words.len() as u64;
        self.entries[at].end();
        self.counted -= size + 1;
        self.held -= size;
        Released::Done
    }

    /// The number of the type of a segment, or `None` exactly where it does not live. It takes no memory.
    pub fn type_of(&self, segment: u64) -> Option<u32>
        ensures { result ≡ option_map (λ s. s.type_number) (segment_at self.now segment) }
    {
        let Some(entry) = self.entries.get(segment as usize) else {
            return None;
        };
        entry.type_number()
    }

    /// All words of a segment, or `None` exactly where it does not live. (Until `words` and the place of a segment in
    /// them are told.)
    #[inline(always)]
    pub fn words_of(&self, segment: u64) -> Option<&[i64]>
        ensures { option_map (λ w. w.now) result
            ≡ option_map (λ s. s.words) (segment_at self.now segment) }
    {
        let Some(entry) = self.entries.get(segment as usize) else {
            return None;
        };
        entry.words()
    }

    /// Words take the place of as many from an offset on in a segment.
    pub fn store_words(&mut self, segment: u64, offset: u64, words: &[i64]) -> Stored
        ensures answer { result
            ≡ put_into (segment_at self.old segment) offset (length words.now) }
        ensures store { self.new ≡ with_words_at segment offset words.now self.old }
        ensures live { live_words self.new ≡ live_words self.old }
    {
        let at = segment as usize;
        if at >= self.entries.len() {
            return Stored::Gone;
        }
        let Some(old) = self.entries[at].words() else {
            return Stored::Gone;
        };
        if offset > old.len() as u64 || words.len() as u64 > old.len() as u64 - offset {
            return Stored::Outside;
        }
        self.entries[at].put(offset as usize, words);
        Stored::Done
    }

    /// So many words of a segment become undefined from an offset on. It takes no memory. (Until `words` lends the words of
    /// all segments at once.)
    pub fn undefine(&mut self, segment: u64, offset: u64, count: u64) -> Stored
        ensures answer { result ≡ put_into (segment_at self.old segment) offset count }
        ensures store { self.new ≡ with_words_at segment offset (replicate count undefined) self.old }
        ensures live { live_words self.new ≡ live_words self.old }
    {
        let at = segment as usize;
        if at >= self.entries.len() {
            return Stored::Gone;
        }
        let Some(old) = self.entries[at].words() else {
            return Stored::Gone;
        };
        if offset > old.len() as u64 || count > old.len() as u64 - offset {
            return Stored::Outside;
        }
        self.entries[at].undefine(offset as usize, count as usize);
        Stored::Done
    }
}
