//! What has no lines of its own: the parser reads it, and its tokens are marked.

ghost use Rattle.ep_token.specs.declared.symbol.TheConstants as symbol;
ghost use Rattle.ep_grammar.specs.Classes.{Implementation, Interface, directions, exactly};
ghost use Rattle.ep_grammar.specs.Declarations as declarations;
ghost use Rattle.ep_grammar.specs.Descriptions as grammar;
ghost use Rattle.ep_grammar.specs.Expressions as expressions;
ghost use Rattle.ep_grammar.specs.Statements as statements;
ghost use Rattle.ep_grammar.specs.Types as types;
ghost use Rattle.ep_grammar.specs.Units as units;
ghost use Rattle.ep_marks.specs.Styles.{plain};
ghost use Rattle.ep_marker.specs.Marking.{Walked};

use crate::marker::Marker;
use ep_token::symbol;
use std::alloc::Global;

/// An expression.
pub(crate) fn expression(alloc: Global, m: &mut Marker<'_>, depth: u32, room: u32)
    ensures { Walked room plain expressions.expression depth m.old m.new }
{
    let before = m.reader.left();
    let refusal = ep_parse_expr::expression(alloc, &mut m.reader, room).err();
    m.pass(refusal, before, depth);
}

/// Labels.
pub(crate) fn labels(alloc: Global, m: &mut Marker<'_>, depth: u32, room: u32)
    ensures { Walked room plain expressions.labels depth m.old m.new }
{
    let before = m.reader.left();
    let refusal = ep_parse_expr::labels(alloc, &mut m.reader, room).err();
    m.pass(refusal, before, depth);
}

/// `access ":=" cvalue | access`
pub(crate) fn simple_statement(alloc: Global, m: &mut Marker<'_>, depth: u32, room: u32)
    ensures { Walked room plain statements.simple_statement depth m.old m.new }
{
    let before = m.reader.left();
    let refusal = ep_parse_stmt::simple_statement(alloc, &mut m.reader, room).err();
    m.pass(refusal, before, depth);
}

/// `access { "," access }`
pub(crate) fn accesses(alloc: Global, m: &mut Marker<'_>, depth: u32, room: u32)
    ensures { Walked room plain statements.accesses depth m.old m.new }
{
    let before = m.reader.left();
    let refusal = ep_parse_stmt::accesses(alloc, &mut m.reader, room).err();
    m.pass(refusal, before, depth);
}

/// `ids`
pub(crate) fn names(alloc: Global, m: &mut Marker<'_>, depth: u32, room: u32)
    ensures { Walked room plain types.names depth m.old m.new }
{
    let before = m.reader.left();
    let refusal = ep_parse_type::names(alloc, &mut m.reader, room).err();
    m.pass(refusal, before, depth);
}

/// `[ "value" cvalue ]`
pub(crate) fn initial(alloc: Global, m: &mut Marker<'_>, depth: u32, room: u32)
    ensures { Walked room plain types.initial depth m.old m.new }
{
    let before = m.reader.left();
    let refusal = ep_parse_type::initial(alloc, &mut m.reader, room).err();
    m.pass(refusal, before, depth);
}

/// `core`
pub(crate) fn core(alloc: Global, m: &mut Marker<'_>, depth: u32, room: u32)
    ensures { Walked room plain types.core depth m.old m.new }
{
    let before = m.reader.left();
    let refusal = ep_parse_type::core(alloc, &mut m.reader, room).err();
    m.pass(refusal, before, depth);
}

/// `id ":" name | id`
pub(crate) fn variant_selector(alloc: Global, m: &mut Marker<'_>, depth: u32, room: u32)
    ensures { Walked room plain types.variant_selector depth m.old m.new }
{
    let before = m.reader.left();
    let refusal = ep_parse_type::variant_selector(alloc, &mut m.reader, room).err();
    m.pass(refusal, before, depth);
}

/// `id "=" cvalue ";"`
pub(crate) fn constant_definition(alloc: Global, m: &mut Marker<'_>, depth: u32, room: u32)
    ensures { Walked room plain declarations.constant_definition depth m.old m.new }
{
    let before = m.reader.left();
    let refusal = ep_parse_unit::constant_definition(alloc, &mut m.reader, room).err();
    m.pass(refusal, before, depth);
}

/// `[ "(" dsec { ";" dsec } ")" ]`
pub(crate) fn discriminants(alloc: Global, m: &mut Marker<'_>, depth: u32, room: u32)
    ensures { Walked room plain declarations.discriminants depth m.old m.new }
{
    let before = m.reader.left();
    let refusal = ep_parse_unit::discriminants(alloc, &mut m.reader, room).err();
    m.pass(refusal, before, depth);
}

/// `rhead | "function" id`
pub(crate) fn routine_start(alloc: Global, m: &mut Marker<'_>, depth: u32, room: u32)
    ensures { Walked room plain declarations.routine_start depth m.old m.new }
{
    let before = m.reader.left();
    let refusal = ep_parse_unit::routine_start(alloc, &mut m.reader, room).err();
    m.pass(refusal, before, depth);
}

/// `"forward"`
pub(crate) fn forward_body(alloc: Global, m: &mut Marker<'_>, depth: u32, room: u32)
    ensures { Walked room plain declarations.forward_body depth m.old m.new }
{
    let before = m.reader.left();
    let refusal = ep_parse_unit::forward_body(alloc, &mut m.reader, room).err();
    m.pass(refusal, before, depth);
}

/// `rhead ";"`
pub(crate) fn heading_routine(alloc: Global, m: &mut Marker<'_>, depth: u32, room: u32)
    ensures { Walked room plain units.heading_routine depth m.old m.new }
{
    let before = m.reader.left();
    let refusal = ep_parse_unit::heading_routine(alloc, &mut m.reader, room).err();
    m.pass(refusal, before, depth);
}

/// `[ "(" ids ")" ]`
pub(crate) fn parameters(alloc: Global, m: &mut Marker<'_>, depth: u32, room: u32)
    ensures { Walked room plain units.parameters depth m.old m.new }
{
    let before = m.reader.left();
    let refusal = ep_parse_unit::parameters(alloc, &mut m.reader, room).err();
    m.pass(refusal, before, depth);
}

/// `import ";"`
pub(crate) fn import_specification(alloc: Global, m: &mut Marker<'_>, depth: u32, room: u32)
    ensures { Walked room plain units.import_specification depth m.old m.new }
{
    let before = m.reader.left();
    let refusal = ep_parse_unit::import_specification(alloc, &mut m.reader, room).err();
    m.pass(refusal, before, depth);
}

/// `export ";"`
pub(crate) fn export_part(alloc: Global, m: &mut Marker<'_>, depth: u32, room: u32)
    ensures { Walked room plain units.export_part depth m.old m.new }
{
    let before = m.reader.left();
    let refusal = ep_parse_unit::export_part(alloc, &mut m.reader, room).err();
    m.pass(refusal, before, depth);
}

/// An identifier.
pub(crate) fn name(alloc: Global, m: &mut Marker<'_>, depth: u32, room: u32)
    ensures { Walked room plain expressions.name depth m.old m.new }
{
    let before = m.reader.left();
    let refusal = m.reader.name(alloc).err();
    m.pass(refusal, before, depth);
}

/// `"to" | "downto"`
pub(crate) fn direction(m: &mut Marker<'_>, depth: u32, room: u32)
    ensures { Walked room plain (grammar.token directions) depth m.old m.new }
{
    let before = m.reader.left();
    let refusal = m.reader.direction().err();
    m.pass(refusal, before, depth);
}

/// The identifier `interface`.
pub(crate) fn interface(m: &mut Marker<'_>, depth: u32, room: u32)
    ensures { Walked room plain (grammar.token (exactly Interface)) depth m.old m.new }
{
    let before = m.reader.left();
    let refusal = m.reader.interface().err();
    m.pass(refusal, before, depth);
}

/// The identifier `implementation`.
pub(crate) fn implementation(m: &mut Marker<'_>, depth: u32, room: u32)
    ensures { Walked room plain (grammar.token (exactly Implementation)) depth m.old m.new }
{
    let before = m.reader.left();
    let refusal = m.reader.implementation().err();
    m.pass(refusal, before, depth);
}

/// This word symbol, if it comes next.
pub(crate) fn flag(m: &mut Marker<'_>, word: u8, depth: u32, room: u32)
    ensures { Walked room plain (grammar.flag word) depth m.old m.new }
{
    let before = m.reader.left();
    m.reader.takes_word(word);
    m.pass(None, before, depth);
}

/// `[ ";" ]`
pub(crate) fn optional_semicolon(m: &mut Marker<'_>, depth: u32, room: u32)
    ensures { Walked room plain
        (grammar.optional (expressions.on symbol.SEMICOLON) (grammar.symbol symbol.SEMICOLON)) depth m.old m.new }
{
    if !m.reader.sees_symbol(symbol::SEMICOLON) {
        return;
    }
    m.symbol(symbol::SEMICOLON, depth);
}
