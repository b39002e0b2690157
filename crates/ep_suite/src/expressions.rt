//! What is answered of an expression on its own.

use crate::texts::parsed;
use ep_base::Name;
use ep_expr_laws::{ExpressionRefusal, constant, expression};
use ep_scope::{Declaration, Declared, Host, Kind, Protection, Scope, Thing, TypeName};
use ep_tree::{Component, ComponentValue, Expression, Statement};
use ep_typed::{RequiredType, Value};
use std::alloc::{AllocError, Global};
use std::test::Fail;

/// Expressions from line 2 on, with what is answered of the form and of the constant. `x` is an
/// integer variable, and `c` of the interface `i` a constant.
const EXPRESSIONS: &[(&str, &str)] = &[
    ("3 + 4", "form, 7"),
    ("'a'", "form, 97"),
    ("succ('a', 2) = 'c'", "form, 1"),
    ("i.c", "form, 5"),
    ("x + 1", "form, rule 33 at 2"),
    ("1 div\n0", "form, rule 33 at 2"),
    ("y", "rule 2 at 2, rule 2 at 2"),
    ("i.d", "rule 2 at 2, rule 2 at 2"),
    ("1 +\n'a'", "rule 32 at 2, rule 32 at 2"),
    ("'a' +\n'b'", "not built at 2, not built at 2"),
    ("[1]", "form, set of 1"),
    ("[3..5] + [4, 9]", "form, set of 4"),
    ("x^", "not built at 2, not built at 2"),
    ("x[1]", "rule 35 at 2, rule 35 at 2"),
    ("y + 1 +\nx^", "not built at 3, not built at 3"),
];

/// A declaration of the unit `m`.
fn declared(alloc: Global, what: Declaration) -> Option<Thing> {
    let unit = Name::from_bytes(alloc, b"m").ok()?;
    Some(Thing::Declared(Declared {
        unit,
        number: 0,
        level: 0,
        what,
    }))
}

/// The scope of the variable.
fn variable(alloc: Global) -> Option<Scope> {
    let integer = TypeName::Required(RequiredType::Integer);
    let what = Declaration::Variable(
        integer,
        Kind::Ordinal(Host::Integer),
        Protection::Unprotected,
    );
    let x = declared(alloc, what)?;
    let name = Name::from_bytes(alloc, b"x").ok()?;
    let mut scope = Scope::new(alloc);
    scope.enter(name, x).ok()?;
    Some(scope)
}

/// The scope of the variable and the constant.
fn scope(alloc: Global) -> Option<Scope> {
    let what = Declaration::Constant(Kind::Ordinal(Host::Integer), Value::Word(5), 1);
    let five = declared(alloc, what)?;
    let interface = Name::from_bytes(alloc, b"i").ok()?;
    let name = Name::from_bytes(alloc, b"c").ok()?;
    let mut scope = variable(alloc)?;
    scope.enter_in(interface, name, five).ok()?;
    Some(scope)
}

/// What a program assigns.
fn assigned(found: &[Component]) -> Option<&Expression> {
    let [Component::Program(p)] = found else {
        return None;
    };
    match p.body.statements.items() {
        [Statement::Assignment(_, _, ComponentValue::Expression(e))] => Some(e.get()),
        _ => None,
    }
}

/// Tells a refusal.
fn tell_refusal(out: &mut String, refusal: ExpressionRefusal) -> Result<(), AllocError> {
    match refusal {
        ExpressionRefusal::Broken(b) => write!(out, "rule {} at {}", b.rule, b.line),
        ExpressionRefusal::NotBuilt(line) => write!(out, "not built at {line}"),
        ExpressionRefusal::NoMemory => write!(out, "no memory"),
    }
}

/// Tells whether an expression has a typed form.
fn tell_form(
    alloc: Global,
    out: &mut String,
    e: &Expression,
    scopes: &[Scope],
) -> Result<(), AllocError> {
    match expression(alloc, e, scopes) {
        Ok(_) => write!(out, "form, "),
        Err(refusal) => {
            tell_refusal(out, refusal)?;
            write!(out, ", ")
        }
    }
}

/// Tells the value of a constant expression.
fn tell_constant(
    alloc: Global,
    out: &mut String,
    e: &Expression,
    scopes: &[Scope],
) -> Result<(), AllocError> {
    match &constant(alloc, e, scopes) {
        Ok(Value::Word(value)) => write!(out, "{value}"),
        Ok(Value::Text(_)) => write!(out, "text"),
        Ok(Value::Set(members)) => write!(out, "set of {}", members.items().len()),
        Ok(Value::Structured(..)) => write!(out, "structured"),
        Err(refusal) => tell_refusal(out, *refusal),
    }
}

/// What is answered of the expression that a text assigns.
fn answers(alloc: Global, text: &str, scopes: &[Scope]) -> Result<String, AllocError> {
    let mut out = String::new(alloc);
    if let Some(found) = parsed(alloc, text) {
        if let Some(e) = assigned(found.as_slice()) {
            tell_form(alloc, &mut out, e, scopes)?;
            tell_constant(alloc, &mut out, e, scopes)?;
        }
    }
    Ok(out)
}

/// Tells of each row of the table that is not answered as is wanted.
fn told(alloc: Global, scopes: &[Scope]) -> Result<String, AllocError> {
    let mut out = String::new(alloc);
    for (text, want) in EXPRESSIONS {
        let whole = format!(in alloc; "program p; begin x :=\n{text} end.")?;
        let found = answers(alloc, whole.as_str(), scopes)?;
        if found.as_str() != *want {
            write!(&mut out, "{text}: wanted {want}, found {found}\n")?;
        }
    }
    Ok(out)
}

#[test]
fn of_an_expression_on_its_own(rt: HostRuntime) -> Result<(), Fail> {
    let scope = scope(rt.alloc());
    let out = match &scope {
        Some(scope) => told(rt.alloc(), std::slice::from_ref(scope))?,
        None => String::from_str(rt.alloc(), "no scope")?,
    };
    assert_eq!(rt; out.as_str(), "");
    Ok(())
}
