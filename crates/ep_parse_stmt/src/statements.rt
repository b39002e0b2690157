//! Statements.

ghost use Rattle.ep_grammar.specs.Descriptions.{either, optional, statements};
ghost use Rattle.ep_grammar.specs.Expressions.{access, name, of_expression, on_word};
ghost use Rattle.ep_token.specs.declared.word.TheConstants as word;
ghost use Rattle.ep_grammar.specs.Statements.{accesses, arm, arms, case_arms, case_statement, compound};
ghost use Rattle.ep_grammar.specs.Statements.{compound_statement, else_part, for_members, for_range};
ghost use Rattle.ep_grammar.specs.Statements.{for_statement, if_statement, inner_statements, labelled_arms};
ghost use Rattle.ep_grammar.specs.Statements.{loop_statement, other, other_arms, repeat_statement};
ghost use Rattle.ep_grammar.specs.Statements.{simple_statement, statement, while_statement, with_statement};
ghost use Rattle.ep_grammar.specs.Reading.{Reads, applied, read, read_inside};
ghost use Rattle.ep_grammar.specs.Rules.{inside_at};

use ep_base::{Boxed, Line, List, Name};
use ep_grammar::Stop;
use ep_parse_expr::{access, component_value, expression, labels};
use ep_reader::{Reader, closed, level, separated};
use ep_token::{symbol, word};
use ep_tree::{Access, Arm, Compound, Otherwise, Statement};
use std::alloc::Global;

/// `stmt`, one level deeper.
#[cycle(statement)]
fn inner_statement(alloc: Global, reader: &mut Reader<'_>, room: u32) -> Result<Statement, Stop>
    ensures { Reads (read_inside (inside_at room) statements reader.old) result reader.new }
{
    let inner = level(room, true)?;
    statement(alloc, reader, inner)
}

/// `stmt`, one level deeper, in a box.
#[cycle(statement)]
pub fn boxed_statement(
    alloc: Global,
    reader: &mut Reader<'_>,
    room: u32,
) -> Result<Boxed<Statement>, Stop>
    ensures { Reads (read_inside (inside_at room) statements reader.old) result reader.new }
{
    let statement = inner_statement(alloc, reader, room)?;
    Ok(Boxed::new(alloc, statement)?)
}

/// `stmts = stmt { ";" stmt }`
#[cycle(statement)]
fn inner_statements(
    alloc: Global,
    reader: &mut Reader<'_>,
    room: u32,
) -> Result<List<Statement>, Stop>
    ensures { Reads (read (inside_at room) inner_statements reader.old) result reader.new }
{
    separated(
        alloc,
        reader,
        symbol::SEMICOLON,
        |reader: &mut Reader<'_>| -> Result<Statement, Stop>
            ensures { Reads (read_inside (inside_at room) statements reader.entry.now) result reader.exit.now }
        { inner_statement(alloc, reader, room) },
    )
}

/// `compound = "begin" stmts "end"`
#[cycle(statement)]
#[tactic(auto, unfolding(ep_grammar::specs::Statements::compound))]
pub fn compound(alloc: Global, reader: &mut Reader<'_>, room: u32) -> Result<Compound, Stop>
    ensures { Reads (read (inside_at room) compound reader.old) result reader.new }
{
    let _inner = level(room, reader.sees_word(word::BEGIN))?;
    let line = reader.line();
    reader.keyword(word::BEGIN)?;
    let statements = inner_statements(alloc, reader, room)?;
    reader.keyword(word::END)?;
    Ok(Compound { line, statements })
}

/// `compound` as a statement.
#[cycle(statement)]
#[tactic(auto, unfolding(ep_grammar::specs::Statements::compound_statement))]
fn compound_statement(alloc: Global, reader: &mut Reader<'_>, room: u32) -> Result<Statement, Stop>
    ensures { Reads (read (inside_at room) compound_statement reader.old) result reader.new }
{
    let compound = compound(alloc, reader, room)?;
    Ok(Statement::Compound(compound))
}

/// `[ "else" stmt ]`
#[cycle(statement)]
#[tactic(auto, unfolding(ep_grammar::specs::Statements::else_part))]
fn else_part(
    alloc: Global,
    reader: &mut Reader<'_>,
    room: u32,
) -> Result<Option<Boxed<Statement>>, Stop>
    ensures { Reads (read (inside_at room) else_part reader.old) result reader.new }
{
    if !reader.sees_word(word::ELSE) {
        return Ok(None);
    }
    reader.keyword(word::ELSE)?;
    let statement = boxed_statement(alloc, reader, room)?;
    Ok(Some(statement))
}

/// `"if" expr "then" stmt [ "else" stmt ]`
#[cycle(statement)]
#[tactic(auto, unfolding(ep_grammar::specs::Statements::if_statement))]
fn if_statement(alloc: Global, reader: &mut Reader<'_>, room: u32) -> Result<Statement, Stop>
    ensures { Reads (read (inside_at room) if_statement reader.old) result reader.new }
{
    let _inner = level(room, reader.sees_word(word::IF))?;
    let line = reader.line();
    reader.keyword(word::IF)?;
    let condition = expression(alloc, reader, room)?;
    reader.keyword(word::THEN)?;
    let body = boxed_statement(alloc, reader, room)?;
    let second = else_part(alloc, reader, room)?;
    Ok(Statement::If(line, condition, body, second))
}

/// `arm = labels ":" stmt`
#[cycle(statement)]
#[tactic(auto, unfolding(ep_grammar::specs::Statements::arm))]
fn arm(alloc: Global, reader: &mut Reader<'_>, room: u32) -> Result<Arm, Stop>
    ensures { Reads (read (inside_at room) arm reader.old) result reader.new }
{
    let _inner = level(room, reader.begins_expression())?;
    let line = reader.line();
    let labels = labels(alloc, reader, room)?;
    reader.symbol(symbol::COLON)?;
    let body = boxed_statement(alloc, reader, room)?;
    Ok(Arm { line, labels, body })
}

/// `arm { ";" arm } [ ";" ]`
#[cycle(statement)]
#[tactic(auto, unfolding(ep_grammar::specs::Statements::arms))]
fn arms(alloc: Global, reader: &mut Reader<'_>, room: u32) -> Result<List<Arm>, Stop>
    ensures { Reads (read (inside_at room) arms reader.old) result reader.new }
{
    let mut found = List::with_room(alloc, 1)?;
    found.push(arm(alloc, reader, room)?)?;
    closed(
        reader,
        found,
        |reader: &mut Reader<'_>| -> Result<Option<Arm>, Stop>
            ensures { Reads (read (inside_at room) (optional of_expression arm) reader.entry.now)
                result reader.exit.now }
        {
            if !reader.begins_expression() {
                return Ok(None);
            }
            Ok(Some(arm(alloc, reader, room)?))
        },
    )
}

/// `other = "otherwise" stmts`
#[cycle(statement)]
#[tactic(auto, unfolding(ep_grammar::specs::Statements::other))]
fn other(alloc: Global, reader: &mut Reader<'_>, room: u32) -> Result<Otherwise, Stop>
    ensures { Reads (read (inside_at room) other reader.old) result reader.new }
{
    let _inner = level(room, reader.sees_word(word::OTHERWISE))?;
    let line = reader.line();
    reader.keyword(word::OTHERWISE)?;
    let statements = inner_statements(alloc, reader, room)?;
    Ok(Otherwise { line, statements })
}

/// `other`, without arms before it.
#[cycle(statement)]
#[tactic(auto, unfolding(ep_grammar::specs::Statements::other_arms))]
fn other_arms(
    alloc: Global,
    reader: &mut Reader<'_>,
    room: u32,
) -> Result<(List<Arm>, Option<Otherwise>), Stop>
    ensures { Reads (read (inside_at room) other_arms reader.old) result reader.new }
{
    let other = other(alloc, reader, room)?;
    Ok((List::new(alloc), Some(other)))
}

/// `arm { ";" arm } [ ";" | [ ";" ] other ]`
#[cycle(statement)]
#[tactic(auto, unfolding(ep_grammar::specs::Statements::labelled_arms))]
fn labelled_arms(
    alloc: Global,
    reader: &mut Reader<'_>,
    room: u32,
) -> Result<(List<Arm>, Option<Otherwise>), Stop>
    ensures { Reads (read (inside_at room) labelled_arms reader.old) result reader.new }
{
    let arms = arms(alloc, reader, room)?;
    if !reader.sees_word(word::OTHERWISE) {
        return Ok((arms, None));
    }
    let other = other(alloc, reader, room)?;
    Ok((arms, Some(other)))
}

/// `arm { ";" arm } [ ";" | [ ";" ] other ] | other`
#[cycle(statement)]
#[tactic(auto, unfolding(ep_grammar::specs::Statements::case_arms))]
fn case_arms(
    alloc: Global,
    reader: &mut Reader<'_>,
    room: u32,
) -> Result<(List<Arm>, Option<Otherwise>), Stop>
    ensures { Reads (read (inside_at room) case_arms reader.old) result reader.new }
{
    if reader.sees_word(word::OTHERWISE) {
        return other_arms(alloc, reader, room);
    }
    labelled_arms(alloc, reader, room)
}

/// `"case" expr "of" ( arms | other ) "end"`
#[cycle(statement)]
#[tactic(auto, unfolding(ep_grammar::specs::Statements::case_statement))]
fn case_statement(alloc: Global, reader: &mut Reader<'_>, room: u32) -> Result<Statement, Stop>
    ensures { Reads (read (inside_at room) case_statement reader.old) result reader.new }
{
    let _inner = level(room, reader.sees_word(word::CASE))?;
    let line = reader.line();
    reader.keyword(word::CASE)?;
    let selector = expression(alloc, reader, room)?;
    reader.keyword(word::OF)?;
    let parts = case_arms(alloc, reader, room)?;
    reader.keyword(word::END)?;
    Ok(Statement::Case(line, selector, parts.0, parts.1))
}

/// `"while" expr "do" stmt`
#[cycle(statement)]
#[tactic(auto, unfolding(ep_grammar::specs::Statements::while_statement))]
fn while_statement(alloc: Global, reader: &mut Reader<'_>, room: u32) -> Result<Statement, Stop>
    ensures { Reads (read (inside_at room) while_statement reader.old) result reader.new }
{
    let _inner = level(room, reader.sees_word(word::WHILE))?;
    let line = reader.line();
    reader.keyword(word::WHILE)?;
    let condition = expression(alloc, reader, room)?;
    reader.keyword(word::DO)?;
    let body = boxed_statement(alloc, reader, room)?;
    Ok(Statement::While(line, condition, body))
}

/// `"repeat" stmts "until" expr`
#[cycle(statement)]
#[tactic(auto, unfolding(ep_grammar::specs::Statements::repeat_statement))]
fn repeat_statement(alloc: Global, reader: &mut Reader<'_>, room: u32) -> Result<Statement, Stop>
    ensures { Reads (read (inside_at room) repeat_statement reader.old) result reader.new }
{
    let _inner = level(room, reader.sees_word(word::REPEAT))?;
    let line = reader.line();
    reader.keyword(word::REPEAT)?;
    let statements = inner_statements(alloc, reader, room)?;
    reader.keyword(word::UNTIL)?;
    let condition = expression(alloc, reader, room)?;
    Ok(Statement::Repeat(line, statements, condition))
}

/// `":=" expr ( "to" | "downto" ) expr "do" stmt`, after the name.
#[cycle(statement)]
#[tactic(auto, unfolding(ep_grammar::specs::Statements::for_range))]
fn for_range(
    alloc: Global,
    reader: &mut Reader<'_>,
    room: u32,
    line: Line,
    name: Name,
) -> Result<Statement, Stop>
    ensures { Reads (applied (λ r. r line name) (read (inside_at room) for_range reader.old)) result reader.new }
{
    reader.symbol(symbol::ASSIGN)?;
    let from = expression(alloc, reader, room)?;
    let direction = reader.direction()?;
    let to = expression(alloc, reader, room)?;
    reader.keyword(word::DO)?;
    let body = boxed_statement(alloc, reader, room)?;
    Ok(Statement::For(line, name, from, direction, to, body))
}

/// `"in" expr "do" stmt`, after the name.
#[cycle(statement)]
#[tactic(auto, unfolding(ep_grammar::specs::Statements::for_members))]
fn for_members(
    alloc: Global,
    reader: &mut Reader<'_>,
    room: u32,
    line: Line,
    name: Name,
) -> Result<Statement, Stop>
    ensures { Reads (applied (λ r. r line name) (read (inside_at room) for_members reader.old)) result reader.new }
{
    reader.keyword(word::IN)?;
    let members = expression(alloc, reader, room)?;
    reader.keyword(word::DO)?;
    let body = boxed_statement(alloc, reader, room)?;
    Ok(Statement::ForIn(line, name, members, body))
}

/// `"for" id ( ":=" expr ( "to" | "downto" ) expr | "in" expr ) "do" stmt`
#[cycle(statement)]
#[tactic(auto, unfolding(ep_grammar::specs::Statements::for_statement))]
fn for_statement(alloc: Global, reader: &mut Reader<'_>, room: u32) -> Result<Statement, Stop>
    ensures { Reads (read (inside_at room) for_statement reader.old) result reader.new }
{
    let _inner = level(room, reader.sees_word(word::FOR))?;
    let line = reader.line();
    reader.keyword(word::FOR)?;
    let name = reader.name(alloc)?;
    let statement = for_rest(alloc, reader, room, line, name)?;
    Ok(statement)
}

/// `":=" expr ( "to" | "downto" ) expr "do" stmt | "in" expr "do" stmt`, after the name
#[cycle(statement)]
fn for_rest(
    alloc: Global,
    reader: &mut Reader<'_>,
    room: u32,
    line: Line,
    name: Name,
) -> Result<Statement, Stop>
    ensures { Reads (applied (λ r. r line name)
        (read (inside_at room) (either (on_word word.IN) for_members for_range) reader.old)) result reader.new }
{
    if reader.sees_word(word::IN) {
        return for_members(alloc, reader, room, line, name);
    }
    for_range(alloc, reader, room, line, name)
}

/// `access { "," access }`
pub fn accesses(alloc: Global, reader: &mut Reader<'_>, room: u32) -> Result<List<Access>, Stop>
    ensures { Reads (read (inside_at room) accesses reader.old) result reader.new }
{
    separated(
        alloc,
        reader,
        symbol::COMMA,
        |reader: &mut Reader<'_>| -> Result<Access, Stop>
            ensures { Reads (read (inside_at room) access reader.entry.now) result reader.exit.now }
        { access(alloc, reader, room) },
    )
}

/// `"with" access { "," access } "do" stmt`
#[cycle(statement)]
#[tactic(auto, unfolding(ep_grammar::specs::Statements::with_statement))]
fn with_statement(alloc: Global, reader: &mut Reader<'_>, room: u32) -> Result<Statement, Stop>
    ensures { Reads (read (inside_at room) with_statement reader.old) result reader.new }
{
    let _inner = level(room, reader.sees_word(word::WITH))?;
    let line = reader.line();
    reader.keyword(word::WITH)?;
    let accesses = accesses(alloc, reader, room)?;
    reader.keyword(word::DO)?;
    let body = boxed_statement(alloc, reader, room)?;
    Ok(Statement::With(line, accesses, body))
}

/// `access [ ":=" cvalue ]`
#[tactic(auto, unfolding(ep_grammar::specs::Statements::simple_statement))]
pub fn simple_statement(
    alloc: Global,
    reader: &mut Reader<'_>,
    room: u32,
) -> Result<Statement, Stop>
    ensures { Reads (read (inside_at room) simple_statement reader.old) result reader.new }
{
    let line = reader.line();
    let access = access(alloc, reader, room)?;
    if !reader.sees_symbol(symbol::ASSIGN) {
        return Ok(Statement::Call(line, access));
    }
    reader.symbol(symbol::ASSIGN)?;
    let value = component_value(alloc, reader, room)?;
    Ok(Statement::Assignment(line, access, value))
}

/// A statement that begins with `while`, `repeat`, `for` or `with`.
#[cycle(statement)]
#[tactic(auto, unfolding(ep_grammar::specs::Statements::loop_statement))]
fn loop_statement(alloc: Global, reader: &mut Reader<'_>, room: u32) -> Result<Statement, Stop>
    ensures { Reads (read (inside_at room) loop_statement reader.old) result reader.new }
{
    if reader.sees_word(word::WHILE) {
        while_statement(alloc, reader, room)
    } else if reader.sees_word(word::REPEAT) {
        repeat_statement(alloc, reader, room)
    } else if reader.sees_word(word::FOR) {
        for_statement(alloc, reader, room)
    } else {
        with_statement(alloc, reader, room)
    }
}

/// `stmt`
#[cycle(statement)]
#[tactic(auto, unfolding(ep_grammar::specs::Statements::statement))]
fn statement(alloc: Global, reader: &mut Reader<'_>, room: u32) -> Result<Statement, Stop>
    ensures { Reads (read (inside_at room) statement reader.old) result reader.new }
{
    if reader.sees_name() {
        simple_statement(alloc, reader, room)
    } else if reader.sees_word(word::BEGIN) {
        compound_statement(alloc, reader, room)
    } else if reader.sees_word(word::IF) {
        if_statement(alloc, reader, room)
    } else if reader.sees_word(word::CASE) {
        case_statement(alloc, reader, room)
    } else if reader.begins_loop() {
        loop_statement(alloc, reader, room)
    } else {
        Ok(Statement::Empty(reader.line()))
    }
}
