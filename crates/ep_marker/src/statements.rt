//! The marks of statements.

ghost use Rattle.std.specs.Prelude.{◌≡◌, ◌+◌, ◌≤◌};
ghost use Rattle.ep_token.specs.declared.word.TheConstants as word;
ghost use Rattle.ep_grammar.specs.Classes.{class_of, has};
ghost use Rattle.ep_grammar.specs.Descriptions.{either, inside, statements};
ghost use Rattle.ep_grammar.specs.Expressions.{on_word};
ghost use Rattle.ep_grammar.specs.Statements as grammar;
ghost use Rattle.ep_marks.specs.Productions as style;
ghost use Rattle.ep_marks.specs.Styles.{choice, closed, given, starts};
ghost use Rattle.ep_marker.specs.Marking.{Walked};

use crate::leaves::{accesses, direction, expression, labels, name, simple_statement};
use crate::marker::Marker;
use ep_grammar::Stop;
use ep_token::{symbol, word};
use std::alloc::Global;

/// `stmt`, one level deeper.
#[cycle(statement)]
pub(crate) fn inner_statement(alloc: Global, m: &mut Marker<'_>, depth: u32, room: u32)
    requires { depth + room ≤ 101 }
    ensures { Walked room style.deeper (inside statements) depth m.old m.new }
{
    if room == 0 {
        m.halt(Stop::Nested);
        return;
    }
    statement(alloc, m, depth, room - 1);
}

/// Whether a statement comes next that is neither empty nor a compound.
fn begins_body(m: &Marker<'_>) -> bool
    ensures { result ≡ has style.of_body (class_of m.now.reader) }
{
    if m.reader.sees_name() {
        return true;
    }
    m.reader.sees_word(word::IF) || m.reader.sees_word(word::CASE) || m.reader.begins_loop()
}

/// Whether a statement comes next that is not empty.
fn begins_statement(m: &Marker<'_>) -> bool
    ensures { result ≡ has style.of_statement (class_of m.now.reader) }
{
    m.reader.sees_word(word::BEGIN) || begins_body(m)
}

/// The statement of `if`, `else`, `while`, `for` or `with`.
#[cycle(statement)]
fn body(alloc: Global, m: &mut Marker<'_>, depth: u32, room: u32)
    requires { depth + room ≤ 100 }
    ensures { Walked room style.body (inside statements) depth m.old m.new }
{
    if !begins_body(m) {
        inner_statement(alloc, m, depth, room);
        return;
    }
    let first = m.marks.len();
    inner_statement(alloc, m, depth + 1, room);
    m.start(first);
}

/// A statement of `stmts`.
#[cycle(statement)]
fn item(alloc: Global, m: &mut Marker<'_>, depth: u32, room: u32)
    requires { depth + room ≤ 101 }
    ensures { Walked room (given style.of_statement (starts style.deeper) style.deeper)
        (inside statements) depth m.old m.new }
{
    if !begins_statement(m) {
        inner_statement(alloc, m, depth, room);
        return;
    }
    let first = m.marks.len();
    inner_statement(alloc, m, depth, room);
    m.start(first);
}

/// `stmts = stmt { ";" stmt }`
#[cycle(statement)]
fn inner_statements(alloc: Global, m: &mut Marker<'_>, depth: u32, room: u32)
    requires { depth + room ≤ 101 }
    ensures { Walked room style.inner_statements grammar.inner_statements depth m.old m.new }
{
    item(alloc, m, depth, room);
    for _turn in 0..m.reader.left() {
        if !m.reader.sees_symbol(symbol::SEMICOLON) {
            return;
        }
        m.symbol(symbol::SEMICOLON, depth);
        item(alloc, m, depth, room);
    }
}

/// `compound = "begin" stmts "end"`
#[cycle(statement)]
pub(crate) fn compound(alloc: Global, m: &mut Marker<'_>, depth: u32, room: u32)
    requires { depth + room ≤ 100 }
    ensures { Walked room style.compound grammar.compound depth m.old m.new }
{
    m.open(room);
    m.new_line(word::BEGIN, depth);
    inner_statements(alloc, m, depth + 1, room);
    m.new_line(word::END, depth);
}

/// `[ "else" stmt ]`
#[cycle(statement)]
fn else_part(alloc: Global, m: &mut Marker<'_>, depth: u32, room: u32)
    requires { depth + room ≤ 100 }
    ensures { Walked room style.else_part grammar.else_part depth m.old m.new }
{
    if !m.reader.sees_word(word::ELSE) {
        return;
    }
    m.new_line(word::ELSE, depth);
    body(alloc, m, depth, room);
}

/// `"if" expr "then" stmt [ "else" stmt ]`
#[cycle(statement)]
fn if_statement(alloc: Global, m: &mut Marker<'_>, depth: u32, room: u32)
    requires { depth + room ≤ 100 }
    ensures { Walked room style.if_statement grammar.if_statement depth m.old m.new }
{
    m.open(room);
    m.word(word::IF, depth);
    expression(alloc, m, depth, room);
    m.word(word::THEN, depth);
    body(alloc, m, depth, room);
    else_part(alloc, m, depth, room);
}

/// `arm = labels ":" stmt`
#[cycle(statement)]
fn arm(alloc: Global, m: &mut Marker<'_>, depth: u32, room: u32)
    requires { depth + room ≤ 100 }
    ensures { Walked room style.arm grammar.arm depth m.old m.new }
{
    let first = m.marks.len();
    m.open(room);
    labels(alloc, m, depth + 1, room);
    m.symbol(symbol::COLON, depth + 1);
    inner_statement(alloc, m, depth + 1, room);
    m.start(first);
}

/// `arm { ";" arm } [ ";" ]`
#[cycle(statement)]
fn arms(alloc: Global, m: &mut Marker<'_>, depth: u32, room: u32)
    requires { depth + room ≤ 100 }
    ensures { Walked room (closed style.arm) grammar.arms depth m.old m.new }
{
    arm(alloc, m, depth, room);
    for _turn in 0..m.reader.left() {
        if !m.reader.sees_symbol(symbol::SEMICOLON) {
            return;
        }
        m.symbol(symbol::SEMICOLON, depth);
        if !m.reader.begins_expression() {
            return;
        }
        arm(alloc, m, depth, room);
    }
}

/// `other = "otherwise" stmts`
#[cycle(statement)]
fn other(alloc: Global, m: &mut Marker<'_>, depth: u32, room: u32)
    requires { depth + room ≤ 100 }
    ensures { Walked room style.other grammar.other depth m.old m.new }
{
    let first = m.marks.len();
    m.open(room);
    m.word(word::OTHERWISE, depth + 1);
    inner_statements(alloc, m, depth + 1, room);
    m.start(first);
}

/// `arm { ";" arm } [ ";" | [ ";" ] other ] | other`
#[cycle(statement)]
fn case_arms(alloc: Global, m: &mut Marker<'_>, depth: u32, room: u32)
    requires { depth + room ≤ 100 }
    ensures { Walked room style.case_arms grammar.case_arms depth m.old m.new }
{
    if m.reader.sees_word(word::OTHERWISE) {
        other(alloc, m, depth, room);
        return;
    }
    arms(alloc, m, depth, room);
    if !m.reader.sees_word(word::OTHERWISE) {
        return;
    }
    other(alloc, m, depth, room);
}

/// `"case" expr "of" ( arms | other ) "end"`
#[cycle(statement)]
fn case_statement(alloc: Global, m: &mut Marker<'_>, depth: u32, room: u32)
    requires { depth + room ≤ 100 }
    ensures { Walked room style.case_statement grammar.case_statement depth m.old m.new }
{
    m.open(room);
    m.word(word::CASE, depth);
    expression(alloc, m, depth, room);
    m.word(word::OF, depth);
    case_arms(alloc, m, depth, room);
    m.new_line(word::END, depth);
}

/// `"while" expr "do" stmt`
#[cycle(statement)]
fn while_statement(alloc: Global, m: &mut Marker<'_>, depth: u32, room: u32)
    requires { depth + room ≤ 100 }
    ensures { Walked room style.while_statement grammar.while_statement depth m.old m.new }
{
    m.open(room);
    m.word(word::WHILE, depth);
    expression(alloc, m, depth, room);
    m.word(word::DO, depth);
    body(alloc, m, depth, room);
}

/// `"repeat" stmts "until" expr`
#[cycle(statement)]
fn repeat_statement(alloc: Global, m: &mut Marker<'_>, depth: u32, room: u32)
    requires { depth + room ≤ 100 }
    ensures { Walked room style.repeat_statement grammar.repeat_statement depth m.old m.new }
{
    m.open(room);
    m.word(word::REPEAT, depth);
    inner_statements(alloc, m, depth + 1, room);
    m.new_line(word::UNTIL, depth);
    expression(alloc, m, depth, room);
}

/// `":=" expr ( "to" | "downto" ) expr "do" stmt`, after the name.
#[cycle(statement)]
fn for_range(alloc: Global, m: &mut Marker<'_>, depth: u32, room: u32)
    requires { depth + room ≤ 100 }
    ensures { Walked room style.for_range grammar.for_range depth m.old m.new }
{
    m.symbol(symbol::ASSIGN, depth);
    expression(alloc, m, depth, room);
    direction(m, depth, room);
    expression(alloc, m, depth, room);
    m.word(word::DO, depth);
    body(alloc, m, depth, room);
}

/// `"in" expr "do" stmt`, after the name.
#[cycle(statement)]
fn for_members(alloc: Global, m: &mut Marker<'_>, depth: u32, room: u32)
    requires { depth + room ≤ 100 }
    ensures { Walked room style.for_members grammar.for_members depth m.old m.new }
{
    m.word(word::IN, depth);
    expression(alloc, m, depth, room);
    m.word(word::DO, depth);
    body(alloc, m, depth, room);
}

/// `":=" expr ( "to" | "downto" ) expr "do" stmt | "in" expr "do" stmt`, after the name.
#[cycle(statement)]
fn for_rest(alloc: Global, m: &mut Marker<'_>, depth: u32, room: u32)
    requires { depth + room ≤ 100 }
    ensures { Walked room (choice style.for_members style.for_range)
        (either (on_word word.IN) grammar.for_members grammar.for_range) depth m.old m.new }
{
    if m.reader.sees_word(word::IN) {
        for_members(alloc, m, depth, room);
        return;
    }
    for_range(alloc, m, depth, room);
}

/// `"for" id ( ":=" expr ( "to" | "downto" ) expr | "in" expr ) "do" stmt`
#[cycle(statement)]
fn for_statement(alloc: Global, m: &mut Marker<'_>, depth: u32, room: u32)
    requires { depth + room ≤ 100 }
    ensures { Walked room style.for_statement grammar.for_statement depth m.old m.new }
{
    m.open(room);
    m.word(word::FOR, depth);
    name(alloc, m, depth, room);
    for_rest(alloc, m, depth, room);
}

/// `"with" access { "," access } "do" stmt`
#[cycle(statement)]
fn with_statement(alloc: Global, m: &mut Marker<'_>, depth: u32, room: u32)
    requires { depth + room ≤ 100 }
    ensures { Walked room style.with_statement grammar.with_statement depth m.old m.new }
{
    m.open(room);
    m.word(word::WITH, depth);
    accesses(alloc, m, depth, room);
    m.word(word::DO, depth);
    body(alloc, m, depth, room);
}

/// The statements with other statements inside.
#[cycle(statement)]
fn loop_statement(alloc: Global, m: &mut Marker<'_>, depth: u32, room: u32)
    requires { depth + room ≤ 100 }
    ensures { Walked room style.loop_statement grammar.loop_statement depth m.old m.new }
{
    if m.reader.sees_word(word::WHILE) {
        return while_statement(alloc, m, depth, room);
    }
    if m.reader.sees_word(word::REPEAT) {
        return repeat_statement(alloc, m, depth, room);
    }
    if m.reader.sees_word(word::FOR) {
        return for_statement(alloc, m, depth, room);
    }
    with_statement(alloc, m, depth, room);
}

/// `stmt`
#[cycle(statement)]
fn statement(alloc: Global, m: &mut Marker<'_>, depth: u32, room: u32)
    requires { depth + room ≤ 100 }
    ensures { Walked room style.statement grammar.statement depth m.old m.new }
{
    if m.reader.sees_name() {
        simple_statement(alloc, m, depth, room)
    } else if m.reader.sees_word(word::BEGIN) {
        compound(alloc, m, depth, room)
    } else if m.reader.sees_word(word::IF) {
        if_statement(alloc, m, depth, room)
    } else if m.reader.sees_word(word::CASE) {
        case_statement(alloc, m, depth, room)
    } else if m.reader.begins_loop() {
        loop_statement(alloc, m, depth, room)
    } else {}
}
