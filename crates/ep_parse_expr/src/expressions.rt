//! Expressions and labels.

ghost use Rattle.std.specs.Prelude.{Some, None};
ghost use Rattle.ep_grammar.specs.Classes.{adding_operators, classes, multiplying_operators};
ghost use Rattle.ep_grammar.specs.Descriptions.{optional};
ghost use Rattle.ep_grammar.specs.Expressions.{addend, addends, comparison_part, expression, label_of};
ghost use Rattle.ep_grammar.specs.Expressions.{labels, multiplier, multipliers, simple, term};
ghost use Rattle.ep_grammar.specs.Reading.{Reads, read};
ghost use Rattle.ep_grammar.specs.Rules.{inside_at};

use crate::factors::factor;
use ep_base::{Boxed, List};
use ep_grammar::Stop;
use ep_reader::{Reader, many, separated};
use ep_token::symbol;
use ep_tree::{Addend, Comparison, Expression, Label, Multiplier, Simple, Term};
use std::alloc::Global;

/// `label = expr [ ".." expr ]`
#[cycle(expression)]
#[tactic(auto, unfolding(ep_grammar::specs::Expressions::label_of))]
fn label(alloc: Global, reader: &mut Reader<'_>, room: u32) -> Result<Label, Stop>
    ensures { Reads (read (inside_at room) (label_of expression) reader.old) result reader.new }
{
    let line = reader.line();
    let low = expression(alloc, reader, room)?;
    if !reader.sees_symbol(symbol::RANGE) {
        return Ok(Label {
            line,
            low,
            high: None,
        });
    }
    reader.symbol(symbol::RANGE)?;
    let high = expression(alloc, reader, room)?;
    Ok(Label {
        line,
        low,
        high: Some(high),
    })
}

/// `labels = label { "," label }`
#[cycle(expression)]
pub fn labels(alloc: Global, reader: &mut Reader<'_>, room: u32) -> Result<List<Label>, Stop>
    ensures { Reads (read (inside_at room) labels reader.old) result reader.new }
{
    separated(
        alloc,
        reader,
        symbol::COMMA,
        |reader: &mut Reader<'_>| -> Result<Label, Stop>
            ensures { Reads (read (inside_at room) (label_of expression) reader.entry.now) result reader.exit.now }
        { label(alloc, reader, room) },
    )
}

/// `{ multiplying-operator factor }`
#[cycle(expression)]
pub(crate) fn multipliers(
    alloc: Global,
    reader: &mut Reader<'_>,
    room: u32,
) -> Result<List<Multiplier>, Stop>
    ensures { Reads (read (inside_at room) multipliers reader.old) result reader.new }
{
    let none = List::new(alloc);
    many(
        reader,
        none,
        |reader: &mut Reader<'_>| -> Result<Option<Multiplier>, Stop>
            ensures { Reads
                (read (inside_at room) (optional (classes multiplying_operators) multiplier) reader.entry.now)
                result reader.exit.now }
        {
            let Some(operator) = reader.multiplying_operator() else {
                return Ok(None);
            };
            let factor = factor(alloc, reader, room)?;
            Ok(Some(Multiplier { operator, factor }))
        },
    )
}

/// `term = factor { multiplying-operator factor }`
#[cycle(expression)]
#[tactic(auto, unfolding(ep_grammar::specs::Expressions::term))]
fn term(alloc: Global, reader: &mut Reader<'_>, room: u32) -> Result<Term, Stop>
    ensures { Reads (read (inside_at room) term reader.old) result reader.new }
{
    let line = reader.line();
    let first = factor(alloc, reader, room)?;
    let more = multipliers(alloc, reader, room)?;
    Ok(Term { line, first, more })
}

/// `{ adding-operator term }`
#[cycle(expression)]
pub(crate) fn addends(
    alloc: Global,
    reader: &mut Reader<'_>,
    room: u32,
) -> Result<List<Addend>, Stop>
    ensures { Reads (read (inside_at room) addends reader.old) result reader.new }
{
    let none = List::new(alloc);
    many(
        reader,
        none,
        |reader: &mut Reader<'_>| -> Result<Option<Addend>, Stop>
            ensures { Reads (read (inside_at room) (optional (classes adding_operators) addend) reader.entry.now)
                result reader.exit.now }
        {
            let Some(operator) = reader.adding_operator() else {
                return Ok(None);
            };
            let term = term(alloc, reader, room)?;
            Ok(Some(Addend { operator, term }))
        },
    )
}

/// `simple = [ sign ] term { adding-operator term }`
#[cycle(expression)]
#[tactic(auto, unfolding(ep_grammar::specs::Expressions::simple))]
fn simple(alloc: Global, reader: &mut Reader<'_>, room: u32) -> Result<Simple, Stop>
    ensures { Reads (read (inside_at room) simple reader.old) result reader.new }
{
    let line = reader.line();
    let sign = reader.sign();
    let first = term(alloc, reader, room)?;
    let more = addends(alloc, reader, room)?;
    Ok(Simple {
        line,
        sign,
        first,
        more,
    })
}

/// `[ relational-operator simple ]`
#[cycle(expression)]
#[tactic(auto, unfolding(ep_grammar::specs::Expressions::comparison_part, ep_grammar::specs::Expressions::comparison))]
pub(crate) fn comparison_part(
    alloc: Global,
    reader: &mut Reader<'_>,
    room: u32,
) -> Result<Option<Boxed<Comparison>>, Stop>
    ensures { Reads (read (inside_at room) comparison_part reader.old) result reader.new }
{
    let Some(operator) = reader.relational_operator() else {
        return Ok(None);
    };
    let right = simple(alloc, reader, room)?;
    Ok(Some(Boxed::new(alloc, Comparison { operator, right })?))
}

/// `expr = simple [ relational-operator simple ]`
#[cycle(expression)]
#[tactic(auto, unfolding(ep_grammar::specs::Expressions::expression))]
pub fn expression(
    alloc: Global,
    reader: &mut Reader<'_>,
    room: u32,
) -> Result<Boxed<Expression>, Stop>
    ensures { Reads (read (inside_at room) expression reader.old) result reader.new }
{
    let line = reader.line();
    let left = simple(alloc, reader, room)?;
    let right = comparison_part(alloc, reader, room)?;
    Ok(Boxed::new(alloc, Expression { line, left, right })?)
}
