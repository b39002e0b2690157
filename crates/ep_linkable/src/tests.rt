//! Units as words, with the order in which they are linked or the refusal.

use super::*;
use ep_base::{Bytes, List, Name, NameRefusal, Names, NoMemory};
use std::alloc::Global;
use std::test::Fail;

/// A unit as words: its name, a capital letter for a program; the interfaces that it exports, each a letter; those
/// that it imports, each with the file that it was compiled with, as `i1`; its own file; and the size of its object
/// file.
type Words = (&'static str, &'static str, &'static str, &'static str, u64);

/// Units, and what is answered: their names in order, or a refusal in words.
const CASES: [(&[Words], &str); 26] = [
    (&[], "no program"),
    (
        &[("m", "i", "", "1", 9), ("k", "j", "", "1", 9)],
        "no program",
    ),
    (&[("P", "", "", "", 9)], "p"),
    (
        &[
            ("Q", "", "", "", 9),
            ("R", "", "", "", 9),
            ("P", "", "", "", 9),
        ],
        "two programs p q",
    ),
    (
        &[
            ("P", "", "", "", 9),
            ("Q", "", "x1", "", 9),
            ("P", "", "", "", 9),
        ],
        "two programs p p",
    ),
    (
        &[
            ("P", "", "", "", 9),
            ("m", "i", "", "1", 9),
            ("m", "j", "", "1", 9),
        ],
        "two units m",
    ),
    (
        &[
            ("n", "", "", "1", 9),
            ("n", "", "", "1", 9),
            ("m", "i", "", "1", 9),
            ("P", "", "", "", 9),
            ("m", "i", "", "1", 9),
        ],
        "two units m",
    ),
    (
        &[("P", "", "", "", 9), ("p", "i", "", "1", 9)],
        "two units p",
    ),
    (
        &[
            ("b", "ji", "", "1", 9),
            ("P", "", "x1", "", 9),
            ("a", "ij", "", "1", 9),
        ],
        "two interfaces i",
    ),
    (&[("P", "i", "", "", 9), ("a", "i", "", "1", 9)], "ap"),
    (&[("P", "i", "i1", "", 9)], "no module i p"),
    (
        &[("P", "", "z1", "", 9), ("m", "i", "y1x1", "1", 9)],
        "no module x m",
    ),
    (
        &[("P", "", "z1", "", 9), ("m", "i", "", "1", 9)],
        "no module z p",
    ),
    (
        &[("P", "", "i2z1", "", 9), ("m", "i", "", "1", 9)],
        "no module z p",
    ),
    (
        &[("P", "", "i2", "", 9), ("m", "i", "", "1", 9)],
        "differs i p",
    ),
    (
        &[
            ("P", "", "i2", "", 9),
            ("m", "ij", "", "1", 9),
            ("a", "", "j3i2", "1", 9),
        ],
        "differs i a",
    ),
    (&[("P", "", "i1", "", 9), ("m", "i", "", "1", 9)], "mp"),
    (
        &[("m", "i", "i1", "1", 9), ("P", "", "", "", 9)],
        "circle m",
    ),
    (
        &[
            ("c", "i", "j1", "1", 9),
            ("b", "j", "i1", "1", 9),
            ("P", "", "", "", 9),
        ],
        "circle b c",
    ),
    (
        &[
            ("c", "i", "j2", "1", 9),
            ("b", "j", "i1", "1", 9),
            ("P", "", "", "", 9),
        ],
        "differs j c",
    ),
    (
        &[
            ("c", "i", "j1", "1", 9),
            ("b", "j", "i1", "1", u64::MAX),
            ("P", "", "", "", 9),
        ],
        "circle b c",
    ),
    (
        &[("P", "", "", "", MAX_LINK), ("m", "i", "", "1", 1)],
        "too large 67108865",
    ),
    (
        &[("P", "", "", "", MAX_LINK - 1), ("m", "i", "", "1", 1)],
        "mp",
    ),
    (
        &[("P", "", "", "", u64::MAX), ("m", "i", "", "1", 2)],
        "too large 18446744073709551615",
    ),
    (
        &[
            ("P", "", "", "", 9),
            ("z", "i", "", "1", 9),
            ("c", "j", "i1", "1", 9),
            ("a", "k", "", "1", 9),
        ],
        "azcp",
    ),
    (
        &[
            ("P", "", "k1", "", 9),
            ("a", "k", "i1", "1", 9),
            ("z", "i", "", "1", 9),
            ("b", "j", "", "1", 9),
        ],
        "bzap",
    ),
];

/// Four units, and what is answered in whatever order they are listed.
const FOUR: [(&[Words], &str); 4] = [
    (
        &[
            ("P", "", "k1", "", 9),
            ("a", "k", "i1", "1", 9),
            ("z", "i", "", "1", 9),
            ("b", "j", "", "1", 9),
        ],
        "bzap",
    ),
    (
        &[
            ("P", "", "k1", "", 9),
            ("a", "k", "i2", "1", 9),
            ("z", "i", "k2", "1", 9),
            ("b", "j", "", "1", 9),
        ],
        "differs i a",
    ),
    (
        &[
            ("P", "", "", "", 9),
            ("Q", "", "", "", 9),
            ("z", "i", "", "1", 9),
            ("z", "i", "", "1", 9),
        ],
        "two programs p q",
    ),
    (
        &[
            ("P", "", "", "", 9),
            ("a", "", "x1", "1", 9),
            ("z", "i", "", "1", 9),
            ("b", "i", "", "1", 9),
        ],
        "two interfaces i",
    ),
];

/// All orders of four.
const ORDERS: [&str; 24] = [
    "0123", "0132", "0213", "0231", "0312", "0321", "1023", "1032", "1203", "1230", "1302", "1320",
    "2013", "2031", "2103", "2130", "2301", "2310", "3012", "3021", "3102", "3120", "3201", "3210",
];

/// The names that the letters of a text are.
fn names_of(alloc: Global, text: &str) -> Result<Names, NameRefusal> {
    let mut names = List::new(alloc);
    for byte in text.as_bytes() {
        if byte.is_ascii_alphabetic() {
            names.push(Name::from_bytes(alloc, &[*byte])?)?;
        }
    }
    Ok(names)
}

/// What units borrow: their names, what they export, and what they import.
struct Kept {
    names: Names,
    exports: List<Names>,
    imports: List<Names>,
}

impl Drop for Kept {
    fn drop(self) {
        let Kept {
            names: _,
            exports: _,
            imports: _,
        } = self;
    }
}

/// What units of these words borrow.
fn kept_of(alloc: Global, words: &[Words]) -> Result<Kept, NameRefusal> {
    let mut names = List::new(alloc);
    let mut exports = List::new(alloc);
    let mut imports = List::new(alloc);
    for (name, exported, imported, _, _) in words {
        names.push(Name::from_bytes(alloc, name.as_bytes())?)?;
        exports.push(names_of(alloc, exported)?)?;
        imports.push(names_of(alloc, imported)?)?;
    }
    Ok(Kept {
        names,
        exports,
        imports,
    })
}

/// The imports of a word, whose names these are.
fn imports_of<'a>(
    alloc: Global,
    word: &'a str,
    names: &'a [Name],
) -> Result<List<Import<'a>>, NoMemory> {
    let mut imports = List::new(alloc);
    for (pair, interface) in word.as_bytes().chunks_exact(2).zip(names) {
        if let Some((_, file)) = pair.split_first() {
            imports.push(Import { interface, file })?;
        }
    }
    Ok(imports)
}

/// The units of words.
fn units_of<'a>(
    alloc: Global,
    words: &[Words],
    kept: &'a Kept,
) -> Result<List<LinkUnit<'a>>, NoMemory> {
    let mut units = List::new(alloc);
    let borrowed = kept.exports.items().iter().zip(kept.imports.items());
    for ((word, name), (exports, imports)) in words.iter().zip(kept.names.items()).zip(borrowed) {
        let (letter, _, imported, file, size) = word;
        units.push(LinkUnit {
            name,
            is_program: letter
                .as_bytes()
                .first()
                .is_some_and(|byte| byte.is_ascii_uppercase()),
            exports: exports.items(),
            imports: imports_of(alloc, imported, imports.items())?,
            interface: file.as_bytes(),
            size: *size,
        })?;
    }
    Ok(units)
}

/// What is answered of units.
fn answer(alloc: Global, words: &[Words]) -> Result<Bytes, NameRefusal> {
    let kept = kept_of(alloc, words)?;
    let units = units_of(alloc, words, &kept)?;
    let mut told = Bytes::new(alloc);
    match link_order(alloc, units.items()) {
        Ok(places) => tell_order(&kept.names, places.items(), &mut told)?,
        Err(refusal) => tell_refusal(alloc, &refusal, &mut told)?,
    }
    Ok(told)
}

fn tell_order(names: &Names, places: &[u32], told: &mut Bytes) -> Result<(), NoMemory> {
    for place in places {
        if let Some(name) = names.items().get(*place as usize) {
            tell(name.bytes(), told)?;
        }
    }
    Ok(())
}

fn tell_refusal(alloc: Global, refusal: &LinkRefusal, told: &mut Bytes) -> Result<(), NoMemory> {
    match refusal {
        LinkRefusal::NoProgram => tell(b"no program", told),
        LinkRefusal::TwoPrograms(first, second) => tell_two(b"two programs", first, second, told),
        LinkRefusal::TwoUnits(name) => tell_one(b"two units", name, told),
        LinkRefusal::TwoInterfaces(name) => tell_one(b"two interfaces", name, told),
        LinkRefusal::NoModule(interface, by) => tell_two(b"no module", interface, by, told),
        LinkRefusal::InterfaceDiffers(interface, by) => tell_two(b"differs", interface, by, told),
        LinkRefusal::Circle(names) => {
            tell(b"circle", told)?;
            for name in names.items() {
                tell_one(b"", name, told)?;
            }
            Ok(())
        }
        LinkRefusal::TooLarge(size) => {
            let words = format!(in alloc; "too large {size}")?;
            tell(words.as_bytes(), told)
        }
        LinkRefusal::NoMemory => tell(b"no memory", told),
    }
}

fn tell_two(words: &[u8], first: &Name, second: &Name, told: &mut Bytes) -> Result<(), NoMemory> {
    tell_one(words, first, told)?;
    tell_one(b"", second, told)
}

fn tell_one(words: &[u8], name: &Name, told: &mut Bytes) -> Result<(), NoMemory> {
    tell(words, told)?;
    told.push(b' ')?;
    tell(name.bytes(), told)
}

fn tell(text: &[u8], told: &mut Bytes) -> Result<(), NoMemory> {
    for byte in text {
        told.push(*byte)?;
    }
    Ok(())
}

/// Words in an order, which a digit for each place tells.
fn ordered(alloc: Global, words: &[Words], order: &str) -> Result<List<Words>, NoMemory> {
    let mut listed = List::new(alloc);
    for digit in order.as_bytes() {
        if let Some(word) = words.get(digit.wrapping_sub(b'0') as usize) {
            listed.push(*word)?;
        }
    }
    Ok(listed)
}

#[test]
fn units_are_linked_or_refused(rt: HostRuntime) -> Result<(), Fail> {
    for (words, expected) in CASES {
        assert_eq!(rt; answer(rt.alloc(), words)?.items(), expected.as_bytes());
    }
    Ok(())
}

#[test]
fn lists_play_no_part(rt: HostRuntime) -> Result<(), Fail> {
    for (words, expected) in FOUR {
        for order in ORDERS {
            let listed = ordered(rt.alloc(), words, order)?;
            assert_eq!(rt;
                answer(rt.alloc(), listed.items())?.items(),
                expected.as_bytes()
            );
        }
    }
    Ok(())
}
