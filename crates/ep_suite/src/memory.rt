//! The memory of a machine: segments that are made and end, and the counts of words.

use ep_memory::{Cell, Full, MakeRefusal, Memory, Released, Stored};
use ep_object::limit;
use std::test::Fail;

/// A call of a memory, and what it is to answer.
#[derive(Clone, Copy, Drop)]
enum Row<'a> {
    /// A segment of a type with words, and its number.
    Make(u32, &'a [i64], Result<u64, MakeRefusal>),
    /// One of so many undefined words.
    MakeUndefined(u32, u32, Result<u64, MakeRefusal>),
    /// Words that are charged.
    Charge(u64, Result<(), Full>),
    /// What stands in a segment at an offset.
    Load(u64, u64, Cell),
    /// A word that goes there.
    Store(u64, u64, i64, Stored),
    /// Words that go there.
    StoreWords(u64, u64, &'a [i64], Stored),
    /// A segment that ends.
    Release(u64, Released),
    /// The type of a segment.
    Type(u64, Option<u32>),
    /// All words of a segment.
    Words(u64, Option<&'a [i64]>),
    /// How many segments were made, how many words live, how many did at once, and how many are held.
    Counts(u64, u64, u64, u64),
}

/// Whether a call answers what it is to.
fn answers(memory: &mut Memory, row: &Row) -> bool {
    match row {
        Row::Make(ty, words, want) => memory.make(*ty, words) == *want,
        Row::MakeUndefined(ty, size, want) => memory.make_undefined(*ty, *size) == *want,
        Row::Charge(words, want) => memory.charge(*words) == *want,
        Row::Load(segment, offset, want) => memory.load(*segment, *offset) == *want,
        Row::Store(segment, offset, word, want) => {
            memory.store(*segment, *offset, *word) == *want
        }
        Row::StoreWords(segment, offset, words, want) => {
            memory.store_words(*segment, *offset, words) == *want
        }
        Row::Release(segment, want) => memory.release(*segment) == *want,
        Row::Type(segment, want) => memory.type_of(*segment) == *want,
        Row::Words(segment, want) => memory.words_of(*segment) == *want,
        Row::Counts(made, live, peak, held) => {
            memory.made() == *made
                && memory.live() == *live
                && memory.peak() == *peak
                && memory.held() == *held
        }
    }
}

/// The number of the first row that does not answer what it is to, or of rows.
fn first_other(memory: &mut Memory, rows: &[Row]) -> usize {
    for number in 0..rows.len() {
        if !answers(memory, &rows[number]) {
            return number;
        }
    }
    rows.len()
}

#[test]
fn segments_are_made_and_end(rt: HostRuntime) -> Result<(), Fail> {
    let mut memory = Memory::new(rt.alloc());
    let rows = [
        Row::Counts(0, 0, 0, 0),
        Row::Load(0, 0, Cell::Gone),
        Row::Make(7, &[1, 2, 3], Ok(1)),
        Row::Counts(1, 4, 4, 3),
        Row::Load(1, 2, Cell::Word(3)),
        Row::Load(1, 3, Cell::Outside),
        Row::Load(0, 0, Cell::Gone),
        Row::Load(2, 0, Cell::Gone),
        Row::Store(1, 1, 9, Stored::Done),
        Row::Store(1, 3, 9, Stored::Outside),
        Row::Store(2, 0, 9, Stored::Gone),
        Row::Words(1, Some(&[1, 9, 3])),
        Row::Type(1, Some(7)),
        Row::Release(1, Released::Done),
        Row::Load(1, 0, Cell::Gone),
        Row::Store(1, 0, 9, Stored::Gone),
        Row::Type(1, None),
        Row::Words(1, None),
        Row::Release(1, Released::Gone),
        Row::Counts(1, 0, 4, 0),
        Row::Make(8, &[5], Ok(2)),
        Row::Load(2, 0, Cell::Word(5)),
        Row::MakeUndefined(9, 2, Ok(3)),
        Row::StoreWords(3, 0, &[6, 7], Stored::Done),
        Row::StoreWords(3, 1, &[6, 7], Stored::Outside),
        Row::StoreWords(1, 0, &[], Stored::Gone),
        Row::Words(3, Some(&[6, 7])),
        Row::Make(8, &[], Ok(4)),
        Row::Counts(4, 6, 6, 3),
    ];
    assert_eq!(rt; first_other(&mut memory, &rows), rows.len());
    Ok(())
}

#[test]
fn words_live_up_to_the_limit(rt: HostRuntime) -> Result<(), Fail> {
    let mut memory = Memory::new(rt.alloc());
    let charged = memory.charge(limit::LIVE_WORDS).is_ok();
    if charged {
        memory.give_back(limit::LIVE_WORDS);
    }
    let most = limit::LIVE_WORDS;
    let rows = [
        Row::Counts(0, 0, most, 0),
        Row::Make(8, &[5], Ok(1)),
        Row::Charge(most - 3, Ok(())),
        Row::Make(8, &[5], Err(MakeRefusal::Full(most + 1))),
        Row::MakeUndefined(8, 2, Err(MakeRefusal::Full(most + 2))),
        Row::Charge(2, Err(Full(most + 1))),
        Row::Charge(u64::MAX, Err(Full(u64::MAX))),
        Row::Counts(1, most - 1, most, 1),
        Row::Charge(1, Ok(())),
        Row::Release(1, Released::Done),
        Row::Counts(1, most - 2, most, 0),
    ];
    assert_eq!(rt;
        (charged, first_other(&mut memory, &rows)),
        (true, rows.len())
    );
    Ok(())
}
