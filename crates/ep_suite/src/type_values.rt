//! The words of types, and which types are the same.

use Step::{Array, Initial, Ordinal, Record, Set, Text};
use ep_base::{Boxed, List, NoMemory};
use ep_values::{Start, TypeValue, TypeValues, agree, size};
use std::alloc::Global;
use std::test::Fail;

/// The head of a type. What it is made of stands behind it, so `[Array(1, 3), Set(0, 9)]` is an array of sets.
#[derive(Clone, Copy, Drop)]
enum Step {
    Ordinal(i64, i64),
    Text,
    Array(i64, i64),
    /// With so many components.
    Record(u32),
    Set(i64, i64),
    /// With an initial state, which is this number.
    Initial(i64),
}

const INTEGER: Step = Ordinal(-9223372036854775807, 9223372036854775807);

const CHAR: Step = Ordinal(0, 255);

/// The type that was made last, and the type of texts where there is none.
fn last(made: &mut TypeValues) -> TypeValue {
    match made.pop() {
        Some(of) => of,
        None => TypeValue::Text,
    }
}

/// Makes a type of those that were made before it.
fn make(alloc: Global, made: &mut TypeValues, step: Step) -> Result<(), NoMemory> {
    match step {
        Ordinal(low, high) => made.push(TypeValue::Ordinal(low, high)),
        Text => made.push(TypeValue::Text),
        Array(low, high) => {
            let of = Boxed::new(alloc, last(made))?;
            made.push(TypeValue::Array(low, high, of))
        }
        Record(count) => {
            let mut components = List::new(alloc);
            for _ in 0..count {
                components.push(last(made))?;
            }
            made.push(TypeValue::Record(components))
        }
        Set(low, high) => made.push(TypeValue::Set(low, high)),
        Initial(start) => {
            let of = Boxed::new(alloc, last(made))?;
            made.push(TypeValue::Initial(of, Start::Simple(start)))
        }
    }
}

/// The type.
fn type_of(alloc: Global, steps: &[Step]) -> Result<TypeValue, NoMemory> {
    let mut made = List::new(alloc);
    for step in steps.iter().rev() {
        make(alloc, &mut made, *step)?;
    }
    Ok(last(&mut made))
}

/// The number of the first type of a table that has other words than it is to have, or of all.
fn first_of_other_size(alloc: Global, table: &[(&[Step], u64)]) -> Result<usize, NoMemory> {
    for (number, (steps, words)) in table.iter().enumerate() {
        let of = type_of(alloc, steps)?;
        if size(&of) != *words {
            return Ok(number);
        }
    }
    Ok(table.len())
}

/// The number of the first pair of a table that does not agree as it is to, in either order, or of all.
fn first_to_differ(alloc: Global, table: &[(&[Step], &[Step], bool)]) -> Result<usize, NoMemory> {
    for (number, (one, other, same)) in table.iter().enumerate() {
        let a = type_of(alloc, one)?;
        let b = type_of(alloc, other)?;
        if agree(&a, &b) != *same || agree(&b, &a) != *same {
            return Ok(number);
        }
    }
    Ok(table.len())
}

#[test]
fn types_have_their_words(rt: HostRuntime) -> Result<(), Fail> {
    let found = first_of_other_size(
        rt.alloc(),
        &[
            (&[INTEGER], 1),
            (&[CHAR], 1),
            (&[Text], 1),
            (&[Array(-1, 1), Array(0, 255), CHAR], 768),
            (&[Array(1, 0), INTEGER], 0),
            // A field, the record of the tag, and those of two variants.
            (
                &[
                    Record(4),
                    INTEGER,
                    Record(1),
                    CHAR,
                    Record(2),
                    INTEGER,
                    Array(1, 3),
                    CHAR,
                    Record(1),
                    Set(0, 255),
                ],
                14,
            ),
            (&[Set(0, 9)], 8),
            (&[Array(1, 4), Set(0, 9)], 32),
            (&[Initial(7), Array(1, 3), INTEGER], 3),
            (&[Array(i64::MIN, i64::MAX), CHAR], u64::MAX),
            (&[Array(1, i64::MAX), Array(1, 4), CHAR], u64::MAX),
        ],
    )?;
    assert!(rt; found == 11);
    Ok(())
}

#[test]
fn types_agree_but_for_initial_states(rt: HostRuntime) -> Result<(), Fail> {
    let found = first_to_differ(
        rt.alloc(),
        &[
            (&[INTEGER], &[INTEGER], true),
            (&[INTEGER], &[CHAR], false),
            (&[Text], &[Text], true),
            (&[Text], &[CHAR], false),
            (&[Initial(3), INTEGER], &[INTEGER], true),
            (&[Initial(3), INTEGER], &[Initial(4), INTEGER], true),
            (&[Initial(2), Initial(1), CHAR], &[Initial(2), CHAR], true),
            (&[Initial(3), CHAR], &[Initial(3), INTEGER], false),
            (
                &[Array(1, 3), Initial(65), CHAR],
                &[Array(1, 3), CHAR],
                true,
            ),
            (&[Array(1, 3), CHAR], &[Array(1, 4), CHAR], false),
            (&[Array(1, 3), CHAR], &[Array(1, 3), INTEGER], false),
            (
                &[Record(2), INTEGER, Initial(1), CHAR],
                &[Initial(0), Record(2), INTEGER, CHAR],
                true,
            ),
            (
                &[Record(2), INTEGER, CHAR],
                &[Record(2), CHAR, INTEGER],
                false,
            ),
            (&[Record(2), INTEGER, CHAR], &[Record(1), INTEGER], false),
            (&[Record(1), CHAR], &[CHAR], false),
            (&[Set(0, 9)], &[Set(0, 9)], true),
            (&[Set(0, 9)], &[Set(0, 8)], false),
            (&[Set(0, 9)], &[Ordinal(0, 9)], false),
        ],
    )?;
    assert!(rt; found == 18);
    Ok(())
}
