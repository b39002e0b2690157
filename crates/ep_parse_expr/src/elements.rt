//! The elements of structured values.

ghost use Rattle.std.specs.Prelude.{◌++◌};
ghost use Rattle.ep_tree.specs.Nodes.{values_node};
ghost use Rattle.ep_grammar.specs.Descriptions.{optional};
ghost use Rattle.ep_grammar.specs.Expressions.{case_element, case_tagged, case_tail, case_values, component_value};
ghost use Rattle.ep_grammar.specs.Expressions.{element, filled_values, labelled_element, more_elements_of};
ghost use Rattle.ep_grammar.specs.Expressions.{of_element, otherwise_of, values, values_rest_of};
ghost use Rattle.ep_grammar.specs.Reading.{Reads, ReadsOnto, applied, read};
ghost use Rattle.ep_grammar.specs.Rules.{inside_at, inside_with};
ghost use Rattle.ep_parse_expr.specs.Tails.{labelled_tail};

use crate::component_values::component_value;
use crate::expressions::{expression, labels};
use ep_base::{Boxed, Line, List, Name};
use ep_grammar::Stop;
use ep_reader::{Reader, closed, level};
use ep_token::{symbol, word};
use ep_tree::{ComponentValue, Element, Label, Values};
use std::alloc::Global;

/// `"otherwise" cvalue [ ";" ]`
#[cycle(expression)]
#[tactic(auto, unfolding(ep_grammar::specs::Expressions::otherwise_of))]
fn otherwise(
    alloc: Global,
    reader: &mut Reader<'_>,
    room: u32,
) -> Result<Boxed<ComponentValue>, Stop>
    ensures { Reads (read (inside_at room) (otherwise_of component_value) reader.old) result reader.new }
{
    reader.keyword(word::OTHERWISE)?;
    let value = Boxed::new(alloc, component_value(alloc, reader, room)?)?;
    if !reader.sees_symbol(symbol::SEMICOLON) {
        return Ok(value);
    }
    reader.symbol(symbol::SEMICOLON)?;
    Ok(value)
}

/// `{ ";" element }`, after the elements that were read before
#[cycle(expression)]
fn more_elements(
    alloc: Global,
    reader: &mut Reader<'_>,
    room: u32,
    before: List<Element>,
) -> Result<List<Element>, Stop>
    ensures { ReadsOnto before (read (inside_at room) (more_elements_of element) reader.old) result reader.new }
{
    closed(
        reader,
        before,
        |reader: &mut Reader<'_>| -> Result<Option<Element>, Stop>
            ensures { Reads (read (inside_at room) (optional of_element element) reader.entry.now)
                result reader.exit.now }
        {
            if !reader.begins_element() {
                return Ok(None);
            }
            Ok(Some(element(alloc, reader, room)?))
        },
    )
}

/// `{ ";" element } [ [ ";" ] "otherwise" cvalue ] [ ";" ]`, after these elements
#[cycle(expression)]
#[tactic(auto, unfolding(ep_grammar::specs::Expressions::values_rest_of))]
fn values_of(
    alloc: Global,
    reader: &mut Reader<'_>,
    room: u32,
    line: Line,
    before: List<Element>,
) -> Result<Boxed<Values>, Stop>
    ensures { Reads (applied (λ p. values_node line (before ++ p.0) p.1)
        (read (inside_at room) (values_rest_of element component_value) reader.old)) result reader.new }
{
    let elements = more_elements(alloc, reader, room, before)?;
    if !reader.sees_word(word::OTHERWISE) {
        return Ok(Boxed::new(
            alloc,
            Values {
                line,
                elements,
                otherwise: None,
            },
        )?);
    }
    let otherwise = Some(otherwise(alloc, reader, room)?);
    Ok(Boxed::new(
        alloc,
        Values {
            line,
            elements,
            otherwise,
        },
    )?)
}

/// `":" cvalue { ";" element } [ [ ";" ] "otherwise" cvalue ] [ ";" ] "]"`, after the labels of the first element
#[cycle(expression)]
#[tactic(auto, unfolding(crate::specs::Tails::labelled_tail, ep_grammar::specs::Expressions::inner_values_end, ep_grammar::specs::Expressions::inner_values_rest))]
pub(crate) fn labelled_values(
    alloc: Global,
    reader: &mut Reader<'_>,
    inner: u32,
    start: Line,
    labels: List<Label>,
) -> Result<Boxed<Values>, Stop>
    ensures { Reads (applied (λ w. w start labels) (read (inside_with inner) labelled_tail reader.old))
        result reader.new }
{
    reader.symbol(symbol::COLON)?;
    let value = component_value(alloc, reader, inner)?;
    let mut first = List::with_room(alloc, 1)?;
    first.push(Element::Labelled(start, labels, value))?;
    let values = values_of(alloc, reader, inner, start, first)?;
    reader.symbol(symbol::RIGHT_BRACKET)?;
    Ok(values)
}

/// `labels ":" cvalue`
#[cycle(expression)]
#[tactic(auto, unfolding(ep_grammar::specs::Expressions::labelled_element))]
fn labelled_element(alloc: Global, reader: &mut Reader<'_>, room: u32) -> Result<Element, Stop>
    ensures { Reads (read (inside_at room) labelled_element reader.old) result reader.new }
{
    let line = reader.line();
    let labels = labels(alloc, reader, room)?;
    reader.symbol(symbol::COLON)?;
    let value = component_value(alloc, reader, room)?;
    Ok(Element::Labelled(line, labels, value))
}

/// `values "]"`
#[cycle(expression)]
#[tactic(auto, unfolding(ep_grammar::specs::Expressions::filled_values))]
fn filled_values(
    alloc: Global,
    reader: &mut Reader<'_>,
    room: u32,
) -> Result<Option<Boxed<Values>>, Stop>
    ensures { Reads (read (inside_at room) filled_values reader.old) result reader.new }
{
    let inner = level(room, reader.begins_values())?;
    let values = values(alloc, reader, inner)?;
    reader.symbol(symbol::RIGHT_BRACKET)?;
    Ok(Some(values))
}

/// `"of" "[" [ values ] "]"`
#[cycle(expression)]
#[tactic(auto, unfolding(ep_grammar::specs::Expressions::case_values))]
fn case_values(
    alloc: Global,
    reader: &mut Reader<'_>,
    room: u32,
) -> Result<Option<Boxed<Values>>, Stop>
    ensures { Reads (read (inside_at room) case_values reader.old) result reader.new }
{
    reader.keyword(word::OF)?;
    reader.symbol(symbol::LEFT_BRACKET)?;
    if !reader.sees_symbol(symbol::RIGHT_BRACKET) {
        return filled_values(alloc, reader, room);
    }
    reader.symbol(symbol::RIGHT_BRACKET)?;
    Ok(None)
}

/// `":" expr "of" "[" [ values ] "]"`, after the identifier of a tag
#[cycle(expression)]
#[tactic(auto, unfolding(ep_grammar::specs::Expressions::case_tagged))]
fn case_tagged(
    alloc: Global,
    reader: &mut Reader<'_>,
    room: u32,
    name: Name,
    line: Line,
) -> Result<Element, Stop>
    ensures { Reads (applied (λ r. r name line) (read (inside_at room) case_tagged reader.old)) result reader.new }
{
    reader.symbol(symbol::COLON)?;
    let selector = expression(alloc, reader, room)?;
    let values = case_values(alloc, reader, room)?;
    Ok(Element::Variant(line, Some(name), selector, values))
}

/// `[ id ":" ] expr "of" "[" [ values ] "]"`
#[cycle(expression)]
#[tactic(auto, unfolding(ep_grammar::specs::Expressions::case_tail, ep_grammar::specs::Expressions::case_plain))]
fn case_tail(alloc: Global, reader: &mut Reader<'_>, room: u32, line: Line) -> Result<Element, Stop>
    ensures { Reads (applied (λ r. r line) (read (inside_at room) case_tail reader.old)) result reader.new }
{
    let selector = expression(alloc, reader, room)?;
    if reader.sees_word(word::OF) {
        let values = case_values(alloc, reader, room)?;
        return Ok(Element::Variant(line, None, selector, values));
    }
    let Some(name) = selector.into_inner().into_identifier() else {
        return Err(Stop::Syntax);
    };
    case_tagged(alloc, reader, room, name, line)
}

/// `"case" [ id ":" ] expr "of" "[" [ values ] "]"`
#[cycle(expression)]
#[tactic(auto, unfolding(ep_grammar::specs::Expressions::case_element))]
fn case_element(alloc: Global, reader: &mut Reader<'_>, room: u32) -> Result<Element, Stop>
    ensures { Reads (read (inside_at room) case_element reader.old) result reader.new }
{
    let line = reader.line();
    reader.keyword(word::CASE)?;
    case_tail(alloc, reader, room, line)
}

/// `element = labels ":" cvalue | "case" [ id ":" ] expr "of" "[" [ values ] "]"`
#[cycle(expression)]
#[tactic(auto, unfolding(ep_grammar::specs::Expressions::element))]
fn element(alloc: Global, reader: &mut Reader<'_>, room: u32) -> Result<Element, Stop>
    ensures { Reads (read (inside_at room) element reader.old) result reader.new }
{
    if reader.sees_word(word::CASE) {
        return case_element(alloc, reader, room);
    }
    labelled_element(alloc, reader, room)
}

/// `values = element { ";" element } [ [ ";" ] "otherwise" cvalue ] [ ";" ] | "otherwise" cvalue [ ";" ]`
#[cycle(expression)]
#[tactic(auto, unfolding(ep_grammar::specs::Expressions::values, ep_grammar::specs::Expressions::otherwise_values, ep_grammar::specs::Expressions::element_values))]
pub(crate) fn values(
    alloc: Global,
    reader: &mut Reader<'_>,
    room: u32,
) -> Result<Boxed<Values>, Stop>
    ensures { Reads (read (inside_at room) values reader.old) result reader.new }
{
    let line = reader.line();
    if reader.sees_word(word::OTHERWISE) {
        let otherwise = Some(otherwise(alloc, reader, room)?);
        let elements = List::new(alloc);
        return Ok(Boxed::new(
            alloc,
            Values {
                line,
                elements,
                otherwise,
            },
        )?);
    }
    let mut first = List::with_room(alloc, 1)?;
    first.push(element(alloc, reader, room)?)?;
    values_of(alloc, reader, room, line, first)
}
