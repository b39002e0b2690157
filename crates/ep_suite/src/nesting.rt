//! How deep the tree of a text nests.

use crate::texts::parsed;
use ep_tree::nesting;
use std::alloc::{AllocError, Global};
use std::test::Fail;

/// How deep the one component of a text nests.
fn levels(alloc: Global, text: &str) -> Option<u32> {
    let found = parsed(alloc, text)?;
    match found.as_slice() {
        [only] => Some(nesting(only)),
        _ => None,
    }
}

/// Tells of each text of a table, between two others, that does not nest as deep as is wanted.
fn told(
    alloc: Global,
    before: &str,
    after: &str,
    table: &[(&str, u32)],
) -> Result<String, AllocError> {
    let mut out = String::new(alloc);
    for (text, want) in table {
        let whole = format!(in alloc; "{before} {text} {after}")?;
        if levels(alloc, whole.as_str()) != Some(*want) {
            write!(&mut out, "{text}\n")?;
        }
    }
    Ok(out)
}

/// The statement is one level.
#[test]
fn of_statements(rt: HostRuntime) -> Result<(), Fail> {
    let table = [
        ("", 1),
        ("x", 1),
        ("x; y; z", 1),
        ("begin end", 2),
        ("if a then x", 2),
        ("if a then else begin x end", 3),
        ("case a of 1: x; otherwise begin y end end", 3),
        ("while a do while b do x", 3),
        ("repeat x; y until a", 2),
        ("for i := 1 to 2 do for i in a do x", 3),
        ("with a, b do x", 2),
    ];
    let out = told(rt.alloc(), "program p; begin", "end.", &table)?;
    assert_eq!(rt; out.as_str(), "");
    Ok(())
}

/// The statement is one level; a label or a value in brackets adds none of its own.
#[test]
fn of_expressions(rt: HostRuntime) -> Result<(), Fail> {
    let table = [
        ("1 + 2 * a", 1),
        ("(1)", 2),
        ("(1) + ((2))", 3),
        ("not a", 2),
        ("not not (a)", 4),
        ("[]", 1),
        ("[1, 2..(3)]", 3),
        ("a[1]", 2),
        ("a[b[1], 2]^.c", 3),
        ("f(1)", 2),
        ("f(1: g(2))", 3),
        ("a[1: 2]", 2),
        ("a[1: (2)]", 3),
        ("[1: 2]", 2),
        ("[(1): 2]", 3),
        ("[1: [2: 3]; otherwise [4: [otherwise 5]]]", 4),
        ("[case 1 of []]", 2),
        ("[case a: (1) of [2: 3]]", 3),
    ];
    let out = told(rt.alloc(), "program p; begin x :=", "end.", &table)?;
    assert_eq!(rt; out.as_str(), "");
    Ok(())
}

/// The type is one level; its initial state is outside it.
#[test]
fn of_types(rt: HostRuntime) -> Result<(), Fail> {
    let table = [
        ("a", 1),
        ("(a, b)", 1),
        ("^a", 1),
        ("1..(2)", 2),
        ("a((1))", 3),
        ("a value [1: [2: 3]]", 2),
        ("set of a", 2),
        ("array [a, 1..2] of b", 2),
        ("packed array [a] of array [b] of c", 3),
        ("record end", 2),
        ("record a: b end", 3),
        ("record case a of 1: (); otherwise (b: set of c) end", 5),
    ];
    let out = told(rt.alloc(), "program p; type t =", "; begin end.", &table)?;
    assert_eq!(rt; out.as_str(), "");
    Ok(())
}

#[test]
fn of_units(rt: HostRuntime) -> Result<(), Fail> {
    let table = [
        ("program p; const c = [1: 2]; begin end.", 1),
        ("program p; var v: set of a; begin end.", 2),
        ("program p; procedure q; forward; begin end.", 1),
        ("program p; procedure q; begin end; begin end.", 2),
        (
            "program p; procedure q; function f; begin end; begin end; begin end.",
            3,
        ),
        ("module m interface; export e = (a); end.", 0),
        (
            "module m interface; export e = (a); type t = set of a; procedure q; end.",
            2,
        ),
        (
            "module m implementation; to begin do x; to end do begin x end; end.",
            2,
        ),
        (
            "module m; export e = (a); var v: a; end; procedure q; begin end; end.",
            2,
        ),
    ];
    let out = told(rt.alloc(), "", "", &table)?;
    assert_eq!(rt; out.as_str(), "");
    Ok(())
}

/// A text that opens and shuts something many times round a middle, between two others.
#[derive(Clone, Copy)]
struct Nest {
    ends: (&'static str, &'static str),
    times: u32,
    open: &'static str,
    middle: &'static str,
    shut: &'static str,
}

/// The whole text.
fn nested(alloc: Global, nest: &Nest) -> Result<String, AllocError> {
    let mut out = String::from_str(alloc, nest.ends.0)?;
    for _ in 0..nest.times {
        write!(&mut out, " {}", nest.open)?;
    }
    write!(&mut out, " {}", nest.middle)?;
    for _ in 0..nest.times {
        write!(&mut out, " {}", nest.shut)?;
    }
    write!(&mut out, " {}", nest.ends.1)?;
    Ok(out)
}

/// Tells of each row of what is opened, put in the middle and shut, so many times each, that does not nest 100 deep.
fn told_of_limit(
    alloc: Global,
    ends: (&'static str, &'static str),
    times: u32,
    table: &[(&'static str, &'static str, &'static str)],
) -> Result<String, AllocError> {
    let mut out = String::new(alloc);
    for (open, middle, shut) in table {
        let nest = Nest {
            ends,
            times,
            open,
            middle,
            shut,
        };
        let text = nested(alloc, &nest)?;
        if levels(alloc, text.as_str()) != Some(100) {
            write!(&mut out, "{open} {middle} {shut}\n")?;
        }
    }
    Ok(out)
}

#[test]
fn of_statements_at_the_limit(rt: HostRuntime) -> Result<(), Fail> {
    let table = [
        ("begin", "x", "end"),
        ("if a then", "x", ""),
        ("if a then else", "x", ""),
        ("case a of 1:", "x", "end"),
        ("case a of otherwise", "x", "end"),
        ("while a do", "x", ""),
        ("repeat", "x", "until a"),
        ("for i := 1 to 2 do", "x", ""),
        ("for i in a do", "x", ""),
        ("with a do", "x", ""),
    ];
    let ends = ("program p; begin", "end.");
    let out = told_of_limit(rt.alloc(), ends, 99, &table)?;
    assert_eq!(rt; out.as_str(), "");
    Ok(())
}

#[test]
fn of_expressions_at_the_limit(rt: HostRuntime) -> Result<(), Fail> {
    let table = [
        ("(", "1", ")"),
        ("not", "a", ""),
        ("[", "1", "]"),
        ("[1..", "1", "]"),
        ("f(", "1", ")"),
        ("f(1:", "1", ")"),
        ("a[", "1", "]"),
        ("[1:", "1", "]"),
        ("[otherwise", "1", "]"),
        ("[case 1 of", "[]", "]"),
        ("a[1:", "1", "]"),
        ("a[otherwise", "1", "]"),
        ("(", "[]", ")"),
    ];
    let ends = ("program p; const c =", "; begin end.");
    let out = told_of_limit(rt.alloc(), ends, 100, &table)?;
    assert_eq!(rt; out.as_str(), "");
    Ok(())
}

#[test]
fn of_types_at_the_limit(rt: HostRuntime) -> Result<(), Fail> {
    let table = [
        ("set of", "a", ""),
        ("array[a] of", "a", ""),
        ("array[", "a", "] of a"),
        ("set of", "bindable restricted a", ""),
    ];
    let ends = ("program p; type t =", "; begin end.");
    let out = told_of_limit(rt.alloc(), ends, 99, &table)?;
    assert_eq!(rt; out.as_str(), "");
    Ok(())
}

#[test]
fn of_field_lists_at_the_limit(rt: HostRuntime) -> Result<(), Fail> {
    let table = [
        ("case a of 1: (", "", ")"),
        ("case a of 1: () otherwise (", "", ")"),
    ];
    let ends = ("program p; type t = record", "end; begin end.");
    let out = told_of_limit(rt.alloc(), ends, 98, &table)?;
    assert_eq!(rt; out.as_str(), "");
    let ends = ("program p; type t =", "; begin end.");
    let out = told_of_limit(rt.alloc(), ends, 49, &[("record a:", "record end", "end")])?;
    assert_eq!(rt; out.as_str(), "");
    Ok(())
}

#[test]
fn of_routines_at_the_limit(rt: HostRuntime) -> Result<(), Fail> {
    let table = [
        ("procedure q;", "", "begin end;"),
        ("procedure q;", "procedure r; forward;", "begin end;"),
        ("function f: a;", "procedure q; forward;", "begin end;"),
        ("procedure q;", "const c = (1);", "begin end;"),
        ("procedure q;", "var x: a;", "begin end;"),
    ];
    let ends = ("program p;", "begin end.");
    let out = told_of_limit(rt.alloc(), ends, 99, &table)?;
    assert_eq!(rt; out.as_str(), "");
    Ok(())
}
