//! The brackets after a name, which hold indexes or a structured value.

ghost use Rattle.ep_grammar.specs.Expressions.{bracket, bracket_labels, called_rest, index_tail};
ghost use Rattle.ep_grammar.specs.Reading.{applied, read};
ghost use Rattle.std.specs.Prelude.{◌<◌, ◌≡◌};
ghost use Rattle.ep_grammar.specs.Rules.{inside_at, inside_with};
ghost use Rattle.ep_parse_expr.specs.Called.{ReadsRest};

use crate::elements::{labelled_values, values};
use crate::expressions::labels;
use crate::selectors::selectors;
use ep_base::{Boxed, Line, List};
use ep_grammar::Stop;
use ep_reader::{Reader, level};
use ep_token::symbol;
use ep_tree::{Expression, Selector, Values, single_labels};
use std::alloc::Global;

/// `"]" { selector }` after indexes, which are added to the selectors before them
#[cycle(expression)]
#[tactic(auto, using(ep_reader::proofs::public::Outcomes::assoc), unfolding(ep_grammar::specs::Expressions::index_tail))]
fn index_tail(
    alloc: Global,
    reader: &mut Reader<'_>,
    room: u32,
    indexes: List<Expression>,
    bracket: Line,
    before: List<Selector>,
) -> Result<(List<Selector>, Option<Boxed<Values>>), Stop>
    ensures { ReadsRest before (applied (λ r. r indexes bracket) (read (inside_at room) index_tail reader.old))
        result reader.new }
{
    reader.symbol(symbol::RIGHT_BRACKET)?;
    let mut selected = before;
    selected.push(Selector::Index(bracket, indexes))?;
    Ok((selectors(alloc, reader, room, selected)?, None))
}

/// `labels ":" value .. "]"`, or `expr { "," expr } "]" { selector }`
#[cycle(expression)]
#[tactic(auto, unfolding(ep_grammar::specs::Expressions::bracket_labels, ep_grammar::specs::Expressions::labels_start))]
fn bracket_labels(
    alloc: Global,
    reader: &mut Reader<'_>,
    room: u32,
    inner: u32,
    bracket: Line,
    before: List<Selector>,
) -> Result<(List<Selector>, Option<Boxed<Values>>), Stop>
    requires less { inner < room }
    requires inside { inside_at room ≡ inside_with inner }
    ensures { ReadsRest before (applied (λ r. r bracket) (read (inside_at room) bracket_labels reader.old))
        result reader.new }
{
    let start = reader.line();
    let labels = labels(alloc, reader, inner)?;
    if reader.sees_symbol(symbol::COLON) {
        let values = labelled_values(alloc, reader, inner, start, labels)?;
        return Ok((before, Some(values)));
    }
    let Some(indexes) = single_labels(alloc, labels)? else {
        return Err(Stop::Syntax);
    };
    index_tail(alloc, reader, room, indexes, bracket, before)
}

/// `"[" values "]"`, or `"[" expr { "," expr } "]" { selector }`
#[cycle(expression)]
#[tactic(auto, unfolding(ep_grammar::specs::Expressions::bracket, ep_grammar::specs::Expressions::bracket_values))]
fn bracket(
    alloc: Global,
    reader: &mut Reader<'_>,
    room: u32,
    before: List<Selector>,
) -> Result<(List<Selector>, Option<Boxed<Values>>), Stop>
    ensures { ReadsRest before (read (inside_at room) bracket reader.old) result reader.new }
{
    let inner = level(room, reader.sees_symbol(symbol::LEFT_BRACKET))?;
    let bracket = reader.line();
    reader.symbol(symbol::LEFT_BRACKET)?;
    if reader.begins_other_values() {
        let values = values(alloc, reader, inner)?;
        reader.symbol(symbol::RIGHT_BRACKET)?;
        return Ok((before, Some(values)));
    }
    bracket_labels(alloc, reader, room, inner, bracket, before)
}

/// What follows a name: a bracket, or selectors alone.
#[cycle(expression)]
#[tactic(auto, unfolding(ep_grammar::specs::Expressions::called_rest))]
pub(crate) fn called_rest(
    alloc: Global,
    reader: &mut Reader<'_>,
    room: u32,
    before: List<Selector>,
) -> Result<(List<Selector>, Option<Boxed<Values>>), Stop>
    ensures { ReadsRest before (read (inside_at room) called_rest reader.old) result reader.new }
{
    if reader.sees_symbol(symbol::LEFT_BRACKET) {
        return bracket(alloc, reader, room, before);
    }
    Ok((selectors(alloc, reader, room, before)?, None))
}
