//! Component values. A bracket may be a set, with which an expression begins.

ghost use Rattle.std.specs.Prelude.{◌<◌, ◌≡◌};
ghost use Rattle.ep_tree.specs.declared.expression.Factor.TheVariants.{Set};
ghost use Rattle.ep_grammar.specs.Expressions.{bracketed_value, component_value};
ghost use Rattle.ep_grammar.specs.Expressions.{expression_rest, value_content, value_labels};
ghost use Rattle.ep_grammar.specs.Reading.{Reads, applied, read};
ghost use Rattle.ep_grammar.specs.Rules.{inside_at, inside_with};

use crate::elements::{labelled_values, values};
use crate::expressions::{addends, comparison_part, expression, labels, multipliers};
use crate::nodes::expression_of;
use ep_base::{Boxed, Line, List};
use ep_grammar::Stop;
use ep_reader::{Reader, level};
use ep_token::symbol;
use ep_tree::{ComponentValue, Expression, Factor, Label};
use std::alloc::Global;

/// The rest of an expression that begins with a set of these labels.
#[cycle(expression)]
#[tactic(auto, unfolding(ep_grammar::specs::Expressions::expression_rest))]
fn set_expression(
    alloc: Global,
    reader: &mut Reader<'_>,
    room: u32,
    line: Line,
    labels: List<Label>,
) -> Result<Boxed<Expression>, Stop>
    ensures { Reads (applied (λ r. r line (Set line labels)) (read (inside_at room) expression_rest reader.old))
        result reader.new }
{
    let set = Boxed::new(alloc, Factor::Set(line, labels))?;
    let multipliers = multipliers(alloc, reader, room)?;
    let addends = addends(alloc, reader, room)?;
    let right = comparison_part(alloc, reader, room)?;
    Ok(Boxed::new(alloc, expression_of(line, set, multipliers, addends, right))?)
}

/// `labels "]"` and the rest of an expression, or `labels ":" value .. "]"`
#[cycle(expression)]
#[tactic(auto, using(ep_reader::proofs::public::Outcomes::assoc, crate::proofs::Rests::labels_inside, crate::proofs::Rests::values_tail_is), unfolding(ep_grammar::specs::Expressions::value_labels, ep_grammar::specs::Expressions::set_tail))]
fn value_labels(
    alloc: Global,
    reader: &mut Reader<'_>,
    room: u32,
    inner: u32,
    bracket: Line,
) -> Result<ComponentValue, Stop>
    requires less { inner < room }
    requires inside { inside_at room ≡ inside_with inner }
    ensures { Reads (applied (λ r. r bracket) (read (inside_at room) value_labels reader.old)) result reader.new }
{
    let start = reader.line();
    let labels = labels(alloc, reader, inner)?;
    if reader.sees_symbol(symbol::RIGHT_BRACKET) {
        reader.symbol(symbol::RIGHT_BRACKET)?;
        let expression = set_expression(alloc, reader, room, bracket, labels)?;
        return Ok(ComponentValue::Expression(expression));
    }
    let values = labelled_values(alloc, reader, inner, start, labels)?;
    Ok(ComponentValue::Bracketed(bracket, values))
}

/// `values "]"`, or a set that is not empty and the rest of an expression
#[cycle(expression)]
#[tactic(auto, unfolding(ep_grammar::specs::Expressions::value_content, ep_grammar::specs::Expressions::value_values))]
fn value_content(
    alloc: Global,
    reader: &mut Reader<'_>,
    room: u32,
    bracket: Line,
) -> Result<ComponentValue, Stop>
    ensures { Reads (applied (λ r. r bracket) (read (inside_at room) value_content reader.old)) result reader.new }
{
    let inner = level(room, reader.begins_values())?;
    if reader.begins_other_values() {
        let values = values(alloc, reader, inner)?;
        reader.symbol(symbol::RIGHT_BRACKET)?;
        return Ok(ComponentValue::Bracketed(bracket, values));
    }
    value_labels(alloc, reader, room, inner, bracket)
}

/// `"[" values "]"`, or an expression that begins with a set
#[cycle(expression)]
#[tactic(auto, using(ep_reader::proofs::public::Outcomes::assoc), unfolding(ep_grammar::specs::Expressions::bracketed_value, ep_grammar::specs::Expressions::empty_set_tail))]
fn bracketed_value(
    alloc: Global,
    reader: &mut Reader<'_>,
    room: u32,
) -> Result<ComponentValue, Stop>
    ensures { Reads (read (inside_at room) bracketed_value reader.old) result reader.new }
{
    let bracket = reader.line();
    reader.symbol(symbol::LEFT_BRACKET)?;
    if reader.sees_symbol(symbol::RIGHT_BRACKET) {
        reader.symbol(symbol::RIGHT_BRACKET)?;
        let expression = set_expression(alloc, reader, room, bracket, List::new(alloc))?;
        return Ok(ComponentValue::Expression(expression));
    }
    value_content(alloc, reader, room, bracket)
}

/// `cvalue = expr | "[" values "]"`
#[cycle(expression)]
#[tactic(auto, unfolding(ep_grammar::specs::Expressions::component_value))]
pub fn component_value(
    alloc: Global,
    reader: &mut Reader<'_>,
    room: u32,
) -> Result<ComponentValue, Stop>
    ensures { Reads (read (inside_at room) component_value reader.old) result reader.new }
{
    if reader.sees_symbol(symbol::LEFT_BRACKET) {
        return bracketed_value(alloc, reader, room);
    }
    Ok(ComponentValue::Expression(expression(alloc, reader, room)?))
}
