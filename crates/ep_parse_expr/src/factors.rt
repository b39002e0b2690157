//! Factors.

ghost use Rattle.ep_grammar.specs.Expressions.{called, called_field, factor, members};
ghost use Rattle.ep_grammar.specs.Expressions.{negated, parenthesized, set_constructor};
ghost use Rattle.ep_grammar.specs.Reading.{Reads, applied, read};
ghost use Rattle.ep_grammar.specs.Rules.{inside_at};

use crate::brackets::called_rest;
use crate::expressions::{expression, labels};
use crate::leaves::{nil_factor, number_factor, text_factor};
use crate::nodes::called_factor;
use ep_base::{Boxed, Line, List, Name};
use ep_grammar::Stop;
use ep_reader::{Reader, level};
use ep_token::{symbol, word};
use ep_tree::{Factor, Label, Selector};
use std::alloc::Global;

/// `"." id` after a name, and then selectors or a structured value
#[cycle(expression)]
#[tactic(auto, using(crate::proofs::Rests::rest_factor), unfolding(ep_grammar::specs::Expressions::called_field))]
fn called_field(
    alloc: Global,
    reader: &mut Reader<'_>,
    room: u32,
    line: Line,
    name: Name,
) -> Result<Boxed<Factor>, Stop>
    ensures { Reads (applied (λ r. r line name) (read (inside_at room) called_field reader.old)) result reader.new }
{
    let period = reader.line();
    reader.symbol(symbol::PERIOD)?;
    let field = reader.name(alloc)?;
    let mut before = List::with_room(alloc, 1)?;
    before.push(Selector::Field(period, field))?;
    let (selectors, values) = called_rest(alloc, reader, room, before)?;
    Ok(called_factor(alloc, line, name, selectors, values)?)
}

/// `access | name "[" values "]"`
#[cycle(expression)]
#[tactic(auto, using(crate::proofs::Rests::rest_factor), unfolding(ep_grammar::specs::Expressions::called))]
fn called(alloc: Global, reader: &mut Reader<'_>, room: u32) -> Result<Boxed<Factor>, Stop>
    ensures { Reads (read (inside_at room) called reader.old) result reader.new }
{
    let line = reader.line();
    let name = reader.name(alloc)?;
    if reader.sees_symbol(symbol::PERIOD) {
        return called_field(alloc, reader, room, line, name);
    }
    let (selectors, values) = called_rest(alloc, reader, room, List::new(alloc))?;
    Ok(called_factor(alloc, line, name, selectors, values)?)
}

/// `"(" expr ")"`
#[cycle(expression)]
#[tactic(auto, unfolding(ep_grammar::specs::Expressions::parenthesized))]
fn parenthesized(alloc: Global, reader: &mut Reader<'_>, room: u32) -> Result<Boxed<Factor>, Stop>
    ensures { Reads (read (inside_at room) parenthesized reader.old) result reader.new }
{
    let inner = level(room, reader.sees_symbol(symbol::LEFT_PARENTHESIS))?;
    let line = reader.line();
    reader.symbol(symbol::LEFT_PARENTHESIS)?;
    let expression = expression(alloc, reader, inner)?;
    reader.symbol(symbol::RIGHT_PARENTHESIS)?;
    Ok(Boxed::new(alloc, Factor::Parenthesized(line, expression))?)
}

/// `"not" factor`
#[cycle(expression)]
#[tactic(auto, unfolding(ep_grammar::specs::Expressions::negated))]
fn negated(alloc: Global, reader: &mut Reader<'_>, room: u32) -> Result<Boxed<Factor>, Stop>
    ensures { Reads (read (inside_at room) negated reader.old) result reader.new }
{
    let inner = level(room, reader.sees_word(word::NOT))?;
    let line = reader.line();
    reader.keyword(word::NOT)?;
    let factor = factor(alloc, reader, inner)?;
    Ok(Boxed::new(alloc, Factor::Not(line, factor))?)
}

/// `label { "," label } "]"`
#[cycle(expression)]
#[tactic(auto, using(crate::proofs::Rests::labels_inside), unfolding(ep_grammar::specs::Expressions::members))]
fn members(alloc: Global, reader: &mut Reader<'_>, room: u32) -> Result<List<Label>, Stop>
    ensures { Reads (read (inside_at room) members reader.old) result reader.new }
{
    let inner = level(room, reader.begins_expression())?;
    let found = labels(alloc, reader, inner)?;
    reader.symbol(symbol::RIGHT_BRACKET)?;
    Ok(found)
}

/// `"[" [ label { "," label } ] "]"`
#[cycle(expression)]
#[tactic(auto, unfolding(ep_grammar::specs::Expressions::set_constructor))]
fn set_constructor(alloc: Global, reader: &mut Reader<'_>, room: u32) -> Result<Boxed<Factor>, Stop>
    ensures { Reads (read (inside_at room) set_constructor reader.old) result reader.new }
{
    let line = reader.line();
    reader.symbol(symbol::LEFT_BRACKET)?;
    if !reader.sees_symbol(symbol::RIGHT_BRACKET) {
        let labels = members(alloc, reader, room)?;
        return Ok(Boxed::new(alloc, Factor::Set(line, labels))?);
    }
    reader.symbol(symbol::RIGHT_BRACKET)?;
    Ok(Boxed::new(alloc, Factor::Set(line, List::new(alloc)))?)
}

/// `factor = access | number | string | "nil" | "(" expr ")" | "not" factor | set | name "[" values "]"`
#[cycle(expression)]
#[tactic(auto, unfolding(ep_grammar::specs::Expressions::factor))]
pub(crate) fn factor(
    alloc: Global,
    reader: &mut Reader<'_>,
    room: u32,
) -> Result<Boxed<Factor>, Stop>
    ensures { Reads (read (inside_at room) factor reader.old) result reader.new }
{
    if reader.sees_name() {
        called(alloc, reader, room)
    } else if reader.sees_number() {
        number_factor(alloc, reader, room)
    } else if reader.sees_text() {
        text_factor(alloc, reader, room)
    } else if reader.sees_word(word::NIL) {
        nil_factor(alloc, reader, room)
    } else if reader.sees_word(word::NOT) {
        negated(alloc, reader, room)
    } else if reader.sees_symbol(symbol::LEFT_PARENTHESIS) {
        parenthesized(alloc, reader, room)
    } else {
        set_constructor(alloc, reader, room)
    }
}
