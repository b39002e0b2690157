//! The marks of definitions, declarations and routines.

ghost use Rattle.std.specs.Prelude.{◌+◌, ◌≤◌};
ghost use Rattle.ep_grammar.specs.Declarations as grammar;
ghost use Rattle.ep_grammar.specs.Descriptions.{inside, routines};
ghost use Rattle.ep_marks.specs.Productions as style;
ghost use Rattle.ep_marks.specs.Styles.{choice, level, new_line, plain, some, starts, ◌&◌};
ghost use Rattle.ep_marker.specs.Marking.{Walked};

use crate::leaves::{constant_definition, discriminants, forward_body, name, names, routine_start};
use crate::marker::Marker;
use crate::statements::compound;
use crate::types::type_denoter;
use ep_grammar::Stop;
use ep_token::{symbol, word};
use std::alloc::Global;

/// `id "=" cvalue ";" { id "=" cvalue ";" }`
fn constant_definitions(alloc: Global, m: &mut Marker<'_>, depth: u32, room: u32)
    requires { depth + room ≤ 101 }
    ensures { Walked room (some plain new_line) grammar.constant_definitions depth m.old m.new }
{
    constant_definition(alloc, m, depth, room);
    for _turn in 0..m.reader.left() {
        if !m.reader.sees_name() {
            return;
        }
        let first = m.marks.len();
        constant_definition(alloc, m, depth, room);
        m.start(first);
    }
}

/// `"const" id "=" cvalue ";" { .. }`
pub(crate) fn constants(alloc: Global, m: &mut Marker<'_>, depth: u32, room: u32)
    requires { depth + room ≤ 101 }
    ensures { Walked room style.constants grammar.constants depth m.old m.new }
{
    m.word(word::CONST, depth);
    constant_definitions(alloc, m, depth, room);
}

/// `tdef ";"`
fn type_definition(alloc: Global, m: &mut Marker<'_>, depth: u32, room: u32)
    requires { depth + room ≤ 101 }
    ensures { Walked room style.type_definition grammar.type_definition depth m.old m.new }
{
    m.open(room);
    name(alloc, m, depth, room);
    discriminants(alloc, m, depth, room);
    m.symbol(symbol::EQUAL, depth);
    type_denoter(alloc, m, depth, room);
    m.symbol(symbol::SEMICOLON, depth);
}

/// `tdef ";" { tdef ";" }`
fn type_definitions(alloc: Global, m: &mut Marker<'_>, depth: u32, room: u32)
    requires { depth + room ≤ 101 }
    ensures { Walked room (some style.type_definition (starts style.type_definition))
        grammar.type_definitions depth m.old m.new }
{
    type_definition(alloc, m, depth, room);
    for _turn in 0..m.reader.left() {
        if !m.reader.sees_name() {
            return;
        }
        let first = m.marks.len();
        type_definition(alloc, m, depth, room);
        m.start(first);
    }
}

/// `types = "type" tdef ";" { tdef ";" }`
pub(crate) fn types(alloc: Global, m: &mut Marker<'_>, depth: u32, room: u32)
    requires { depth + room ≤ 101 }
    ensures { Walked room style.types grammar.types depth m.old m.new }
{
    m.open(room);
    m.word(word::TYPE, depth);
    type_definitions(alloc, m, depth, room);
}

/// `ids ":" type ";"`
fn variable_declaration(alloc: Global, m: &mut Marker<'_>, depth: u32, room: u32)
    requires { depth + room ≤ 101 }
    ensures { Walked room style.variable_declaration
        grammar.variable_declaration depth m.old m.new }
{
    m.open(room);
    names(alloc, m, depth, room);
    m.symbol(symbol::COLON, depth);
    type_denoter(alloc, m, depth, room);
    m.symbol(symbol::SEMICOLON, depth);
}

/// `ids ":" type ";" { ids ":" type ";" }`
fn variable_declarations(alloc: Global, m: &mut Marker<'_>, depth: u32, room: u32)
    requires { depth + room ≤ 101 }
    ensures { Walked room (some style.variable_declaration (starts style.variable_declaration))
        grammar.variable_declarations depth m.old m.new }
{
    variable_declaration(alloc, m, depth, room);
    for _turn in 0..m.reader.left() {
        if !m.reader.sees_name() {
            return;
        }
        let first = m.marks.len();
        variable_declaration(alloc, m, depth, room);
        m.start(first);
    }
}

/// `vars = "var" ids ":" type ";" { ids ":" type ";" }`
pub(crate) fn variables(alloc: Global, m: &mut Marker<'_>, depth: u32, room: u32)
    requires { depth + room ≤ 101 }
    ensures { Walked room style.variables grammar.variables depth m.old m.new }
{
    m.open(room);
    m.word(word::VAR, depth);
    variable_declarations(alloc, m, depth, room);
}

/// `rdecl`, one level deeper.
#[cycle(routine)]
fn inner_routine(alloc: Global, m: &mut Marker<'_>, depth: u32, room: u32)
    requires { depth + room ≤ 101 }
    ensures { Walked room style.deeper (inside routines) depth m.old m.new }
{
    if room == 0 {
        m.halt(Stop::Nested);
        return;
    }
    routine(alloc, m, depth, room - 1);
}

/// `rdecl`
#[cycle(routine)]
fn routine_part(alloc: Global, m: &mut Marker<'_>, depth: u32, room: u32)
    requires { depth + room ≤ 101 }
    ensures { Walked room (level (plain & style.deeper)) grammar.routine_part depth m.old m.new }
{
    m.open(room);
    inner_routine(alloc, m, depth, room);
}

/// `consts | types | vars | rdecl`
#[cycle(routine)]
fn part(alloc: Global, m: &mut Marker<'_>, depth: u32, room: u32)
    requires { depth + room ≤ 101 }
    ensures { Walked room (choice (plain & style.constants) (choice (plain & style.types)
        (choice (plain & style.variables) (level (plain & style.deeper))))) grammar.part depth m.old m.new }
{
    if m.reader.sees_word(word::CONST) {
        return constants(alloc, m, depth, room);
    }
    if m.reader.sees_word(word::TYPE) {
        return types(alloc, m, depth, room);
    }
    if m.reader.sees_word(word::VAR) {
        return variables(alloc, m, depth, room);
    }
    routine_part(alloc, m, depth, room);
}

/// `parts = { consts | types | vars | rdecl }`
#[cycle(routine)]
pub(crate) fn parts(alloc: Global, m: &mut Marker<'_>, depth: u32, room: u32)
    requires { depth + room ≤ 101 }
    ensures { Walked room style.parts grammar.parts depth m.old m.new }
{
    for _turn in 0..m.reader.left() {
        if !m.reader.begins_part() {
            return;
        }
        let first = m.marks.len();
        part(alloc, m, depth, room);
        m.start(first);
    }
}

/// `parts compound`
#[cycle(routine)]
fn block_body(alloc: Global, m: &mut Marker<'_>, depth: u32, room: u32)
    requires { depth + room ≤ 100 }
    ensures { Walked room style.block_body grammar.block_body depth m.old m.new }
{
    m.open(room);
    parts(alloc, m, depth + 1, room);
    compound(alloc, m, depth, room);
}

/// `"forward" | parts compound`
#[cycle(routine)]
fn routine_body(alloc: Global, m: &mut Marker<'_>, depth: u32, room: u32)
    requires { depth + room ≤ 100 }
    ensures { Walked room (choice plain style.block_body) grammar.routine_body depth m.old m.new }
{
    if m.reader.sees_forward() {
        return forward_body(alloc, m, depth, room);
    }
    block_body(alloc, m, depth, room)
}

/// `rdecl = ( rhead | "function" id ) ";" ( "forward" | parts compound ) ";"`
#[cycle(routine)]
fn routine(alloc: Global, m: &mut Marker<'_>, depth: u32, room: u32)
    requires { depth + room ≤ 100 }
    ensures { Walked room style.routine grammar.routine depth m.old m.new }
{
    routine_start(alloc, m, depth, room);
    m.symbol(symbol::SEMICOLON, depth);
    routine_body(alloc, m, depth, room);
    m.symbol(symbol::SEMICOLON, depth);
}
