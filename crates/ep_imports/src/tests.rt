//! Imports of headings that are told by letters, and what comes of them.

use super::*;
use ep_base::{Bytes, List, Name, NameRefusal, NoMemory};
use ep_interface::{
    Constituent, ConstituentKind, Constituents, ExportEntry, ImportSpec, ImportSpecs, Interface,
    NamePair,
};
use std::alloc::Global;
use std::test::Fail;

/// An interface with its constituents, each a letter; `v` is protected.
type Export = (&'static str, &'static str);

/// An import: the interface, `q` for `qualified` and `o` for `only`, and the pairs.
type Import = (
    &'static str,
    &'static str,
    &'static [(&'static str, &'static str)],
);

/// Two headings that export `i`, `j` and `k`, and both `l`.
const HEADINGS: [&[Export]; 2] = [
    &[("i", "abv"), ("l", "x")],
    &[("j", "bc"), ("k", "aba"), ("l", "y")],
];

/// Imports where these headings are given, and what they bring: for each the place of the heading, or `I` or `O` for a
/// required interface, `q` where it is qualified, and the names with the numbers of the constituents, `*` where one is
/// protected. A refusal is the place of the import and `?` with the interface, `-` with the constituent, or `=` with
/// the name that is there twice.
const CASES: [(&[Import], &str); 32] = [
    (&[], ""),
    (&[("i", "", &[])], "0a0b1v2*;"),
    (&[("j", "", &[])], "1b0c1;"),
    (&[("i", "", &[("b", "z")])], "0z1a0v2*;"),
    (&[("i", "o", &[("b", "z")])], "0z1;"),
    (&[("i", "o", &[])], "0;"),
    (&[("i", "qo", &[("v", "v"), ("a", "c")])], "0qv2*c0;"),
    (&[("i", "o", &[("a", "c"), ("a", "d")])], "0c0d0;"),
    (&[("i", "", &[("a", "b"), ("b", "a")])], "0b0a1v2*;"),
    (&[("i", "", &[("a", "b")])], "0=b"),
    (&[("i", "", &[("a", "a"), ("a", "d")])], "0a0d0b1v2*;"),
    (&[("i", "o", &[("a", "c"), ("b", "c")])], "0=c"),
    (
        &[("i", "o", &[("a", "c"), ("b", "d"), ("v", "d"), ("v", "c")])],
        "0=c",
    ),
    (&[("k", "", &[])], "0=a"),
    (&[("k", "o", &[("a", "a")])], "1a0;"),
    (&[("k", "", &[("a", "c")])], "1c0b1;"),
    (&[("i", "o", &[("c", "a"), ("d", "a")])], "0-c"),
    (
        &[("i", "", &[("a", "b"), ("b", "b"), ("d", "d"), ("c", "c")])],
        "0-d",
    ),
    (&[("l", "o", &[("z", "z")])], "0?l"),
    (&[("m", "", &[])], "0?m"),
    (&[("standardinput", "", &[])], "Iinput0;"),
    (&[("standardoutput", "q", &[("output", "out")])], "Oqout0;"),
    (&[("standardoutput", "", &[("input", "in")])], "0-input"),
    (
        &[("standardinput", "", &[]), ("standardoutput", "", &[])],
        "Iinput0;Ooutput0;",
    ),
    (&[("i", "", &[]), ("m", "", &[]), ("l", "", &[])], "1?m"),
    (&[("i", "", &[]), ("j", "", &[])], "1=b"),
    (&[("i", "", &[]), ("j", "q", &[])], "0a0b1v2*;1qb0c1;"),
    (
        &[("i", "o", &[("a", "a")]), ("i", "o", &[("b", "b")])],
        "0a0;0b1;",
    ),
    (
        &[("i", "o", &[("a", "a")]), ("i", "qo", &[("b", "a")])],
        "1=a",
    ),
    (&[("i", "q", &[]), ("i", "q", &[("a", "c")])], "1=b"),
    (
        &[("i", "qo", &[("a", "a")]), ("i", "qo", &[("a", "b")])],
        "0qa0;0qb0;",
    ),
    (&[("j", "q", &[]), ("i", "", &[]), ("j", "", &[])], "2=b"),
];

/// Constituents, each a letter.
fn constituents_of(alloc: Global, letters: &str) -> Result<Constituents, NameRefusal> {
    let mut constituents = List::new(alloc);
    let mut index: u32 = 0;
    for letter in letters.as_bytes() {
        constituents.push(Constituent {
            name: Name::from_bytes(alloc, &[*letter])?,
            kind: ConstituentKind::Variable,
            index,
            protected: *letter == b'v',
        })?;
        index = index.saturating_add(1);
    }
    Ok(constituents)
}

/// A heading with these exports.
fn heading_of(alloc: Global, exports: &[Export]) -> Result<Interface, NameRefusal> {
    let mut entries = List::new(alloc);
    for (interface, letters) in exports {
        let constituents = constituents_of(alloc, letters)?;
        let interface = Name::from_bytes(alloc, interface.as_bytes())?;
        entries.push(ExportEntry {
            interface,
            constituents,
        })?;
    }
    let module = Name::from_bytes(alloc, b"m")?;
    Ok(Interface {
        module,
        imports: List::new(alloc),
        types: List::new(alloc),
        constants: List::new(alloc),
        variables: List::new(alloc),
        routines: List::new(alloc),
        exports: entries,
    })
}

/// An import.
fn import_of(alloc: Global, import: &Import) -> Result<ImportSpec, NameRefusal> {
    let (interface, flags, listed) = import;
    let mut pairs = List::new(alloc);
    for (constituent, here) in *listed {
        let constituent = Name::from_bytes(alloc, constituent.as_bytes())?;
        let here = Name::from_bytes(alloc, here.as_bytes())?;
        pairs.push(NamePair { constituent, here })?;
    }
    Ok(ImportSpec {
        interface: Name::from_bytes(alloc, interface.as_bytes())?,
        qualified: flags.as_bytes().contains(&b'q'),
        only: flags.as_bytes().contains(&b'o'),
        pairs,
    })
}

/// Adds bytes.
fn tell(told: &mut Bytes, bytes: &[u8]) -> Result<(), NoMemory> {
    for byte in bytes {
        told.push(*byte)?;
    }
    Ok(())
}

/// Tells a number below ten as its digit.
fn tell_number(told: &mut Bytes, number: usize) -> Result<(), NoMemory> {
    let digit = match number {
        0 => b'0',
        1 => b'1',
        2 => b'2',
        _ => b'9',
    };
    told.push(digit)
}

/// Tells what an import brings.
fn tell_import(told: &mut Bytes, imported: &Imported) -> Result<(), NoMemory> {
    match imported.exporter {
        Exporter::Heading(place) => tell_number(told, place)?,
        Exporter::Required(RequiredInterface::StandardInput) => told.push(b'I')?,
        Exporter::Required(RequiredInterface::StandardOutput) => told.push(b'O')?,
    }
    if imported.qualified {
        told.push(b'q')?;
    }
    for one in imported.brought.items() {
        tell(told, one.here.bytes())?;
        tell_number(told, one.denoted.index as usize)?;
        if one.denoted.protected {
            told.push(b'*')?;
        }
    }
    told.push(b';')
}

/// Tells why an import is refused.
fn tell_refusal(told: &mut Bytes, refusal: &ImportRefusal) -> Result<(), NoMemory> {
    match refusal {
        ImportRefusal::NoInterface(name) => {
            told.push(b'?')?;
            tell(told, name.bytes())
        }
        ImportRefusal::NoConstituent(name) => {
            told.push(b'-')?;
            tell(told, name.bytes())
        }
        ImportRefusal::Twice(name) => {
            told.push(b'=')?;
            tell(told, name.bytes())
        }
        ImportRefusal::NoMemory => told.push(b'!'),
    }
}

/// Tells what comes of imports.
fn answer(alloc: Global, specs: &ImportSpecs, given: &[Interface]) -> Result<Bytes, NoMemory> {
    let mut told = Bytes::new(alloc);
    match open_imports(alloc, specs.items(), given) {
        Ok(imports) => {
            for imported in imports.items() {
                tell_import(&mut told, imported)?;
            }
        }
        Err(refused) => {
            tell_number(&mut told, refused.place)?;
            tell_refusal(&mut told, &refused.refusal)?;
        }
    }
    Ok(told)
}

/// Tells what comes of the first import on its own, in the same words.
fn answer_first(
    alloc: Global,
    specs: &ImportSpecs,
    given: &[Interface],
) -> Result<Bytes, NoMemory> {
    let mut told = Bytes::new(alloc);
    if let Some(spec) = specs.items().first() {
        match open_import(alloc, spec, given) {
            Ok(imported) => tell_import(&mut told, &imported)?,
            Err(refusal) => {
                tell_number(&mut told, 0)?;
                tell_refusal(&mut told, &refusal)?;
            }
        }
    }
    Ok(told)
}

/// Whether a row of the table comes out as it says; the first import alone is answered as the front of the row.
fn comes_out(
    alloc: Global,
    given: &[Interface],
    imports: &[Import],
    want: &str,
) -> Result<bool, NameRefusal> {
    let mut specs = List::new(alloc);
    for import in imports {
        specs.push(import_of(alloc, import)?)?;
    }
    let told = answer(alloc, &specs, given)?;
    let first = answer_first(alloc, &specs, given)?;
    let is_first = imports.len() != 1 || first.items() == want.as_bytes();
    Ok(is_first && told.items() == want.as_bytes())
}

#[test]
fn imports_bring_names(rt: HostRuntime) -> Result<(), Fail> {
    let mut given = List::new(rt.alloc());
    for exports in HEADINGS {
        given.push(heading_of(rt.alloc(), exports)?)?;
    }
    for (imports, want) in CASES {
        let is_right = comes_out(rt.alloc(), given.items(), imports, want)?;
        assert!(rt; is_right, "{want}");
    }
    Ok(())
}
