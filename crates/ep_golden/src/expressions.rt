//! Expressions and component values.

use crate::dump::Dump;
use ep_base::Name;
use ep_tree::{
    Access, Addend, AddingOperator, Argument, ComponentValue, Element, Expression, Factor, Label,
    Multiplier, MultiplyingOperator, RelationalOperator, Selector, Sign, Simple, Term, Values,
};

#[cycle(expression)]
pub fn expression(e: &Expression, out: &mut Dump) {
    out.at(e.line);
    let Some(comparison) = &e.right else {
        return simple(&e.left, out);
    };
    out.word("compare(");
    simple(&e.left, out);
    out.word(relational(comparison.get().operator));
    simple(&comparison.get().right, out);
    out.word(")")
}

/// How a relational operator is written.
fn relational(operator: RelationalOperator) -> &'static str {
    match operator {
        RelationalOperator::Equal => "=",
        RelationalOperator::NotEqual => "<>",
        RelationalOperator::Less => "<",
        RelationalOperator::Greater => ">",
        RelationalOperator::AtMost => "<=",
        RelationalOperator::AtLeast => ">=",
        RelationalOperator::In => "in",
    }
}

#[cycle(expression)]
fn simple(s: &Simple, out: &mut Dump) {
    out.at(s.line);
    if s.sign.is_none() && s.more.items().is_empty() {
        return term(&s.first, out);
    }
    out.word("sum(");
    out.word_if(s.sign == Some(Sign::Plus), "+");
    out.word_if(s.sign == Some(Sign::Minus), "-");
    term(&s.first, out);
    addends(s.more.items(), out);
    out.word(")")
}

#[cycle(expression)]
fn addends(all: &[Addend], out: &mut Dump) {
    for addend in all {
        out.word(adding(addend.operator));
        term(&addend.term, out);
    }
}

/// How an adding operator is written.
fn adding(operator: AddingOperator) -> &'static str {
    match operator {
        AddingOperator::Plus => "+",
        AddingOperator::Minus => "-",
        AddingOperator::SymmetricDifference => "><",
        AddingOperator::Or => "or",
        AddingOperator::OrElse => "or_else",
    }
}

#[cycle(expression)]
fn term(t: &Term, out: &mut Dump) {
    out.at(t.line);
    if t.more.items().is_empty() {
        return factor(t.first.get(), out);
    }
    out.word("product(");
    factor(t.first.get(), out);
    multipliers(t.more.items(), out);
    out.word(")")
}

#[cycle(expression)]
fn multipliers(all: &[Multiplier], out: &mut Dump) {
    for multiplier in all {
        out.word(multiplying(multiplier.operator));
        factor(multiplier.factor.get(), out);
    }
}

/// How a multiplying operator is written.
fn multiplying(operator: MultiplyingOperator) -> &'static str {
    match operator {
        MultiplyingOperator::Times => "*",
        MultiplyingOperator::Div => "div",
        MultiplyingOperator::Mod => "mod",
        MultiplyingOperator::And => "and",
        MultiplyingOperator::AndThen => "and_then",
    }
}

#[cycle(expression)]
fn factor(f: &Factor, out: &mut Dump) {
    match f {
        Factor::Access(a) => access(a, out),
        Factor::Number(line, value) => {
            out.at(*line);
            out.number(*value)
        }
        Factor::Text(line, bytes) => {
            out.at(*line);
            out.quoted(bytes.items())
        }
        Factor::Nil(line) => out.node(*line, "nil"),
        Factor::Parenthesized(line, inner) => {
            out.node(*line, "(");
            expression(inner.get(), out);
            out.word(")")
        }
        Factor::Not(line, inner) => {
            out.node(*line, "not(");
            factor(inner.get(), out);
            out.word(")")
        }
        Factor::Set(line, members) => {
            out.node(*line, "set(");
            labels(members.items(), out);
            out.word(")")
        }
        Factor::Structured(line, name, inner) => {
            out.node(*line, "structured(");
            out.qualified(name);
            values(inner.get(), out);
            out.word(")")
        }
    }
}

#[cycle(expression)]
pub fn access(a: &Access, out: &mut Dump) {
    out.at(a.line);
    out.name(&a.name);
    for s in a.selectors.items() {
        selector(s, out);
    }
}

#[cycle(expression)]
fn selector(s: &Selector, out: &mut Dump) {
    match s {
        Selector::Field(line, name) => {
            out.node(*line, ".");
            out.name(name)
        }
        Selector::Index(line, all) => {
            out.node(*line, "index(");
            expressions(all.items(), out);
            out.word(")")
        }
        Selector::Dereference(line) => out.node(*line, "^"),
        Selector::Arguments(line, all) => {
            out.node(*line, "call(");
            arguments(all.items(), out);
            out.word(")")
        }
    }
}

#[cycle(expression)]
pub fn expressions(all: &[Expression], out: &mut Dump) {
    for e in all {
        expression(e, out);
    }
}

#[cycle(expression)]
fn arguments(all: &[Argument], out: &mut Dump) {
    for a in all {
        out.at(a.line);
        expression(a.value.get(), out);
        if let Some(width) = &a.width {
            out.word(":");
            expression(width.get(), out);
        }
    }
}

#[cycle(expression)]
pub fn labels(all: &[Label], out: &mut Dump) {
    for l in all {
        out.at(l.line);
        expression(l.low.get(), out);
        if let Some(high) = &l.high {
            out.word("..");
            expression(high.get(), out);
        }
    }
}

#[cycle(expression)]
pub fn component_value(v: &ComponentValue, out: &mut Dump) {
    match v {
        ComponentValue::Expression(e) => expression(e.get(), out),
        ComponentValue::Bracketed(line, inner) => {
            out.node(*line, "bracketed(");
            values(inner.get(), out);
            out.word(")")
        }
    }
}

#[cycle(expression)]
fn values(v: &Values, out: &mut Dump) {
    out.node(v.line, "values(");
    for e in v.elements.items() {
        element(e, out);
    }
    if let Some(other) = &v.otherwise {
        out.word("otherwise");
        component_value(other.get(), out);
    }
    out.word(")")
}

#[cycle(expression)]
fn element(e: &Element, out: &mut Dump) {
    match e {
        Element::Labelled(line, all, value) => {
            out.node(*line, "element(");
            labels(all.items(), out);
            out.word(":");
            component_value(value, out);
        }
        Element::Variant(line, tag, chosen, inner) => {
            variant_beginning(*line, tag, out);
            expression(chosen.get(), out);
            if let Some(inner) = inner {
                values(inner.get(), out);
            }
        }
    }
    out.word(")")
}

/// The beginning of a variant element.
fn variant_beginning(line: u32, tag: &Option<Name>, out: &mut Dump) {
    out.node(line, "case(");
    out.name_if("tag", tag)
}
