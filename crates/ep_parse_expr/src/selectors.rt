//! Accesses: a name and what is selected of it.

ghost use Rattle.ep_grammar.specs.Descriptions.{optional};
ghost use Rattle.ep_grammar.specs.Expressions.{access, argument, argument_selector, arguments, expression};
ghost use Rattle.ep_grammar.specs.Expressions.{index_selector, inner_expressions, of_selector, selector, selectors};
ghost use Rattle.ep_grammar.specs.Reading.{Reads, ReadsOnto, read};
ghost use Rattle.ep_grammar.specs.Rules.{inside_at, inside_with};

use crate::expressions::expression;
use crate::leaves::{field_selector, pointer_selector};
use ep_base::List;
use ep_grammar::Stop;
use ep_reader::{Reader, level, many, separated};
use ep_token::symbol;
use ep_tree::{Access, Argument, Expression, Selector};
use std::alloc::Global;

/// `expr { "," expr }`, where so many levels are left inside the bracket
#[cycle(expression)]
fn indexes(alloc: Global, reader: &mut Reader<'_>, inner: u32) -> Result<List<Expression>, Stop>
    ensures { Reads (read (inside_with inner) inner_expressions reader.old) result reader.new }
{
    separated(
        alloc,
        reader,
        symbol::COMMA,
        |reader: &mut Reader<'_>| -> Result<Expression, Stop>
            ensures { Reads (read (inside_at inner) expression reader.entry.now) result reader.exit.now }
        { Ok(expression(alloc, reader, inner)?.into_inner()) },
    )
}

/// `arg = expr [ ":" expr ]`, where so many levels are left inside the parentheses
#[cycle(expression)]
#[tactic(auto, unfolding(ep_grammar::specs::Expressions::argument))]
fn argument(alloc: Global, reader: &mut Reader<'_>, inner: u32) -> Result<Argument, Stop>
    ensures { Reads (read (inside_with inner) argument reader.old) result reader.new }
{
    let line = reader.line();
    let value = expression(alloc, reader, inner)?;
    if !reader.sees_symbol(symbol::COLON) {
        return Ok(Argument {
            line,
            value,
            width: None,
        });
    }
    reader.symbol(symbol::COLON)?;
    let width = expression(alloc, reader, inner)?;
    Ok(Argument {
        line,
        value,
        width: Some(width),
    })
}

/// `arg { "," arg }`
#[cycle(expression)]
fn arguments(alloc: Global, reader: &mut Reader<'_>, inner: u32) -> Result<List<Argument>, Stop>
    ensures { Reads (read (inside_with inner) arguments reader.old) result reader.new }
{
    separated(
        alloc,
        reader,
        symbol::COMMA,
        |reader: &mut Reader<'_>| -> Result<Argument, Stop>
            ensures { Reads (read (inside_with inner) argument reader.entry.now) result reader.exit.now }
        { argument(alloc, reader, inner) },
    )
}

/// `"[" expr { "," expr } "]"`
#[cycle(expression)]
#[tactic(auto, unfolding(ep_grammar::specs::Expressions::index_selector))]
fn index_selector(alloc: Global, reader: &mut Reader<'_>, room: u32) -> Result<Selector, Stop>
    ensures { Reads (read (inside_at room) index_selector reader.old) result reader.new }
{
    let inner = level(room, reader.sees_symbol(symbol::LEFT_BRACKET))?;
    let line = reader.line();
    reader.symbol(symbol::LEFT_BRACKET)?;
    let found = indexes(alloc, reader, inner)?;
    reader.symbol(symbol::RIGHT_BRACKET)?;
    Ok(Selector::Index(line, found))
}

/// `"(" arg { "," arg } ")"`
#[cycle(expression)]
#[tactic(auto, unfolding(ep_grammar::specs::Expressions::argument_selector))]
fn argument_selector(alloc: Global, reader: &mut Reader<'_>, room: u32) -> Result<Selector, Stop>
    ensures { Reads (read (inside_at room) argument_selector reader.old) result reader.new }
{
    let inner = level(room, reader.sees_symbol(symbol::LEFT_PARENTHESIS))?;
    let line = reader.line();
    reader.symbol(symbol::LEFT_PARENTHESIS)?;
    let found = arguments(alloc, reader, inner)?;
    reader.symbol(symbol::RIGHT_PARENTHESIS)?;
    Ok(Selector::Arguments(line, found))
}

/// `"." id | "[" expr { "," expr } "]" | "^" | "(" arg { "," arg } ")"`
#[cycle(expression)]
#[tactic(auto, unfolding(ep_grammar::specs::Expressions::selector))]
fn selector(alloc: Global, reader: &mut Reader<'_>, room: u32) -> Result<Selector, Stop>
    ensures { Reads (read (inside_at room) selector reader.old) result reader.new }
{
    if reader.sees_symbol(symbol::PERIOD) {
        field_selector(alloc, reader, room)
    } else if reader.sees_symbol(symbol::LEFT_BRACKET) {
        index_selector(alloc, reader, room)
    } else if reader.sees_symbol(symbol::CARET) {
        pointer_selector(reader, room)
    } else {
        argument_selector(alloc, reader, room)
    }
}

/// `{ selector }`, after those that were read before
#[cycle(expression)]
pub(crate) fn selectors(
    alloc: Global,
    reader: &mut Reader<'_>,
    room: u32,
    before: List<Selector>,
) -> Result<List<Selector>, Stop>
    ensures { ReadsOnto before (read (inside_at room) selectors reader.old) result reader.new }
{
    many(
        reader,
        before,
        |reader: &mut Reader<'_>| -> Result<Option<Selector>, Stop>
            ensures { Reads (read (inside_at room) (optional of_selector selector) reader.entry.now)
                result reader.exit.now }
        {
            if !reader.begins_selector() {
                return Ok(None);
            }
            Ok(Some(selector(alloc, reader, room)?))
        },
    )
}

/// `access = id { selector }`
#[tactic(auto, unfolding(ep_grammar::specs::Expressions::access))]
pub fn access(alloc: Global, reader: &mut Reader<'_>, room: u32) -> Result<Access, Stop>
    ensures { Reads (read (inside_at room) access reader.old) result reader.new }
{
    let line = reader.line();
    let name = reader.name(alloc)?;
    let selectors = selectors(alloc, reader, room, List::new(alloc))?;
    Ok(Access {
        line,
        name,
        selectors,
    })
}
