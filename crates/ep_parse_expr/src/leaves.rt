//! What is read with no level inside it.

ghost use Rattle.ep_grammar.specs.Expressions.{field_selector, nil_factor, number_factor};
ghost use Rattle.ep_grammar.specs.Expressions.{pointer_selector, qualified_name, text_factor};
ghost use Rattle.ep_grammar.specs.Reading.{Reads, read};
ghost use Rattle.ep_grammar.specs.Rules.{inside_at};

use ep_base::Boxed;
use ep_grammar::Stop;
use ep_reader::Reader;
use ep_token::{symbol, word};
use ep_tree::{Factor, QualifiedName, Selector};
use std::alloc::Global;

/// `name = id [ "." id ]`
#[tactic(auto, unfolding(ep_grammar::specs::Expressions::qualified_name))]
pub fn qualified_name(
    alloc: Global,
    reader: &mut Reader<'_>,
    room: u32,
) -> Result<QualifiedName, Stop>
    ensures { Reads (read (inside_at room) qualified_name reader.old) result reader.new }
{
    let line = reader.line();
    let first = reader.name(alloc)?;
    if !reader.sees_symbol(symbol::PERIOD) {
        return Ok(QualifiedName {
            line,
            first,
            second: None,
        });
    }
    reader.symbol(symbol::PERIOD)?;
    let second = reader.name(alloc)?;
    Ok(QualifiedName {
        line,
        first,
        second: Some(second),
    })
}

/// `"." id`
#[tactic(auto, unfolding(ep_grammar::specs::Expressions::field_selector))]
pub(crate) fn field_selector(
    alloc: Global,
    reader: &mut Reader<'_>,
    room: u32,
) -> Result<Selector, Stop>
    ensures { Reads (read (inside_at room) field_selector reader.old) result reader.new }
{
    let line = reader.line();
    reader.symbol(symbol::PERIOD)?;
    let name = reader.name(alloc)?;
    Ok(Selector::Field(line, name))
}

/// `"^"`
#[tactic(auto, unfolding(ep_grammar::specs::Expressions::pointer_selector))]
pub(crate) fn pointer_selector(reader: &mut Reader<'_>, room: u32) -> Result<Selector, Stop>
    ensures { Reads (read (inside_at room) pointer_selector reader.old) result reader.new }
{
    let line = reader.line();
    reader.symbol(symbol::CARET)?;
    Ok(Selector::Dereference(line))
}

/// `number`
#[tactic(auto, unfolding(ep_grammar::specs::Expressions::number_factor))]
pub(crate) fn number_factor(
    alloc: Global,
    reader: &mut Reader<'_>,
    room: u32,
) -> Result<Boxed<Factor>, Stop>
    ensures { Reads (read (inside_at room) number_factor reader.old) result reader.new }
{
    let line = reader.line();
    let number = reader.number()?;
    Ok(Boxed::new(alloc, Factor::Number(line, number))?)
}

/// `string`
#[tactic(auto, unfolding(ep_grammar::specs::Expressions::text_factor))]
pub(crate) fn text_factor(
    alloc: Global,
    reader: &mut Reader<'_>,
    room: u32,
) -> Result<Boxed<Factor>, Stop>
    ensures { Reads (read (inside_at room) text_factor reader.old) result reader.new }
{
    let line = reader.line();
    let text = reader.text(alloc)?;
    Ok(Boxed::new(alloc, Factor::Text(line, text))?)
}

/// `"nil"`
#[tactic(auto, unfolding(ep_grammar::specs::Expressions::nil_factor))]
pub(crate) fn nil_factor(
    alloc: Global,
    reader: &mut Reader<'_>,
    room: u32,
) -> Result<Boxed<Factor>, Stop>
    ensures { Reads (read (inside_at room) nil_factor reader.old) result reader.new }
{
    let line = reader.line();
    reader.keyword(word::NIL)?;
    Ok(Boxed::new(alloc, Factor::Nil(line))?)
}
