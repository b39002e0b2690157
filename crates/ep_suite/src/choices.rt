//! Where a text could be read in two ways, the tree shows which was taken.

use crate::texts::parsed;
use ep_tree::{
    BlockPart, Component, ComponentValue, Core, Expression, Factor, Selector, Statement, Structure,
};
use std::alloc::{AllocError, Global};
use std::test::Fail;

/// What an expression begins with.
fn beginning(e: &Expression) -> &'static str {
    match e.left.first.first.get() {
        Factor::Access(access) => match access.selectors.items() {
            [Selector::Index(_, _), ..] => "index",
            _ => "access",
        },
        Factor::Set(_, _) => "set",
        Factor::Structured(_, _, _) => "structured value",
        _ => "another factor",
    }
}

/// What a component value is.
fn form_of_value(value: &ComponentValue) -> &'static str {
    match value {
        ComponentValue::Expression(e) => beginning(e.get()),
        ComponentValue::Bracketed(_, _) => "values",
    }
}

/// Which `if` has an `else`.
fn owner_of_else(s: &Statement) -> &'static str {
    match s {
        Statement::If(_, _, _, Some(_)) => "outer",
        Statement::If(_, _, body, None) => match body.get() {
            Statement::If(_, _, _, Some(_)) => "inner",
            _ => "none",
        },
        _ => "none",
    }
}

/// What the first statement shows.
fn form_of_statement(s: &Statement) -> &'static str {
    match s {
        Statement::Assignment(_, _, value) => form_of_value(value),
        _ => owner_of_else(s),
    }
}

/// What a type is.
fn form_of_core(core: &Core) -> &'static str {
    match core {
        Core::Named(_, _, _) => "name",
        Core::Range(_, _, _) => "range",
        Core::Enumeration(_, _) => "enumeration",
        Core::Structured(_, _, Structure::Set(_, base)) => form_of_core(&base.get().core),
        _ => "another type",
    }
}

/// What the first type of a block is, or else its first statement.
fn form(parts: &[BlockPart], statements: &[Statement]) -> &'static str {
    match parts {
        [BlockPart::Types(types), ..] => match types.definitions.items() {
            [definition, ..] => form_of_core(&definition.of.plain.get().core),
            [] => "no type",
        },
        _ => match statements {
            [first, ..] => form_of_statement(first),
            [] => "no statement",
        },
    }
}

/// What the first type or statement of a program is.
fn form_of_program(alloc: Global, text: &str) -> &'static str {
    let Some(found) = parsed(alloc, text) else {
        return "refused";
    };
    match found.as_slice() {
        [Component::Program(p)] => form(p.parts.items(), p.body.statements.items()),
        _ => "no program",
    }
}

/// Tells of each text of a table, between two others, whose form is not what is wanted.
fn told(
    alloc: Global,
    before: &str,
    after: &str,
    table: &[(&str, &str)],
) -> Result<String, AllocError> {
    let mut out = String::new(alloc);
    for (text, want) in table {
        let whole = format!(in alloc; "{before} {text} {after}")?;
        let found = form_of_program(alloc, whole.as_str());
        if found != *want {
            write!(&mut out, "{text}: wanted {want}, found {found}\n")?;
        }
    }
    Ok(out)
}

/// An `else` belongs to the nearest `if` that can take it.
#[test]
fn of_an_else(rt: HostRuntime) -> Result<(), Fail> {
    let table = [
        ("if a then if b then x else y", "inner"),
        ("if a then if b then x else y else z", "outer"),
        ("if a then begin if b then x end else y", "outer"),
        ("if a then while b do if c then x else y", "none"),
        ("if a then if b then x; y", "none"),
    ];
    let out = told(rt.alloc(), "program p; begin", "end.", &table)?;
    assert_eq!(rt; out.as_str(), "");
    Ok(())
}

/// A type that begins with a parenthesis is an enumeration, and a name with `..` after it begins a range.
#[test]
fn of_a_type(rt: HostRuntime) -> Result<(), Fail> {
    let table = [
        ("(a)", "enumeration"),
        ("(a, b)", "enumeration"),
        ("(a)..b", "refused"),
        ("(1)..2", "refused"),
        ("set of (a)", "enumeration"),
        ("a", "name"),
        ("a.b(1, 2)", "name"),
        ("a..b", "range"),
        ("a(1)..b", "range"),
        ("a.b..c", "range"),
        ("a[1]", "refused"),
        ("a[1]..b", "range"),
        ("1 + (a)..b", "range"),
    ];
    let out = told(rt.alloc(), "program p; type t =", "; begin end.", &table)?;
    assert_eq!(rt; out.as_str(), "");
    Ok(())
}

/// A bracket with `:`, `otherwise` or `case` at its own level holds values.
#[test]
fn of_a_bracket(rt: HostRuntime) -> Result<(), Fail> {
    let table = [
        ("[]", "set"),
        ("[1, 2..3]", "set"),
        ("[a[1: 2]]", "set"),
        ("[f(1: 2)]", "set"),
        ("[1: 2]", "values"),
        ("[1..2: [3]]", "values"),
        ("[otherwise []]", "values"),
        ("[case a of []]", "values"),
        ("a[1]", "index"),
        ("a[b[1: 2]]", "index"),
        ("a[f(1: 2), 3]", "index"),
        ("a[1: 2]", "structured value"),
        ("a.b[1: 2]", "structured value"),
        ("a[1, 2..3: 4]", "structured value"),
        ("a[otherwise b[1]]", "structured value"),
        ("a[case b: c of []]", "structured value"),
        ("a[]", "refused"),
        ("a[1..2]", "refused"),
        ("[[1: 2]]", "refused"),
    ];
    let out = told(rt.alloc(), "program p; begin x :=", "end.", &table)?;
    assert_eq!(rt; out.as_str(), "");
    Ok(())
}
