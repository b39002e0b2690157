//! Definitions, declarations and routines.

ghost use Rattle.ep_grammar.specs.Descriptions.{optional, routines};
ghost use Rattle.ep_grammar.specs.Declarations.{block_body, constant_definition, constant_definitions, constants};
ghost use Rattle.ep_grammar.specs.Declarations.{discriminant_section, discriminant_sections, discriminants};
ghost use Rattle.ep_grammar.specs.Declarations.{formal_section, formal_sections, formal_type, formal_type_of, formals};
ghost use Rattle.ep_grammar.specs.Declarations.{forward_body, function, function_start, of_parts, part, parts};
ghost use Rattle.ep_grammar.specs.Declarations.{procedure, result_name, routine, routine_body, routine_heading};
ghost use Rattle.ep_grammar.specs.Declarations.{routine_part, routine_start, type_definition, type_definitions, types};
ghost use Rattle.ep_grammar.specs.Declarations.{variable_declaration, variable_declarations, variables};
ghost use Rattle.ep_grammar.specs.Reading.{Reads, read, read_inside};
ghost use Rattle.ep_grammar.specs.Rules.{inside_at};

use ep_base::{List, Name};
use ep_grammar::Stop;
use ep_parse_expr::{component_value, qualified_name};
use ep_parse_stmt::compound;
use ep_parse_type::{names, type_denoter};
use ep_reader::{Reader, level, many, one_or_more, separated};
use ep_token::{symbol, word};
use ep_tree::{
    BlockPart, ConstantDefinition, Constants, DiscriminantSection, FormalSection, FormalType,
    Routine, RoutineBody, RoutineHeading, RoutineStart, TypeDefinition, Types, VariableDeclaration,
    Variables,
};
use std::alloc::Global;

/// `id "=" cvalue ";"`
#[tactic(auto, unfolding(ep_grammar::specs::Declarations::constant_definition))]
pub fn constant_definition(
    alloc: Global,
    reader: &mut Reader<'_>,
    room: u32,
) -> Result<ConstantDefinition, Stop>
    ensures { Reads (read (inside_at room) constant_definition reader.old) result reader.new }
{
    let line = reader.line();
    let name = reader.name(alloc)?;
    reader.symbol(symbol::EQUAL)?;
    let value = component_value(alloc, reader, room)?;
    reader.symbol(symbol::SEMICOLON)?;
    Ok(ConstantDefinition { line, name, value })
}

/// `id "=" cvalue ";" { id "=" cvalue ";" }`
fn constant_definitions(
    alloc: Global,
    reader: &mut Reader<'_>,
    room: u32,
) -> Result<List<ConstantDefinition>, Stop>
    ensures { Reads (read (inside_at room) constant_definitions reader.old) result reader.new }
{
    one_or_more(
        alloc,
        reader,
        |reader: &mut Reader<'_>| -> Result<ConstantDefinition, Stop>
            ensures { Reads (read (inside_at room) constant_definition reader.entry.now) result reader.exit.now }
        { constant_definition(alloc, reader, room) },
    )
}

/// `consts = "const" id "=" cvalue ";" { id "=" cvalue ";" }`
#[tactic(auto, unfolding(ep_grammar::specs::Declarations::constants))]
pub(crate) fn constants(
    alloc: Global,
    reader: &mut Reader<'_>,
    room: u32,
) -> Result<Constants, Stop>
    ensures { Reads (read (inside_at room) constants reader.old) result reader.new }
{
    let line = reader.line();
    reader.keyword(word::CONST)?;
    let definitions = constant_definitions(alloc, reader, room)?;
    Ok(Constants { line, definitions })
}

/// `dsec = ids ":" name`
#[tactic(auto, unfolding(ep_grammar::specs::Declarations::discriminant_section))]
fn discriminant_section(
    alloc: Global,
    reader: &mut Reader<'_>,
    room: u32,
) -> Result<DiscriminantSection, Stop>
    ensures { Reads (read (inside_at room) discriminant_section reader.old) result reader.new }
{
    let line = reader.line();
    let names = names(alloc, reader, room)?;
    reader.symbol(symbol::COLON)?;
    let of = qualified_name(alloc, reader, room)?;
    Ok(DiscriminantSection { line, names, of })
}

/// `dsec { ";" dsec }`
fn discriminant_sections(
    alloc: Global,
    reader: &mut Reader<'_>,
    room: u32,
) -> Result<List<DiscriminantSection>, Stop>
    ensures { Reads (read (inside_at room) discriminant_sections reader.old) result reader.new }
{
    separated(
        alloc,
        reader,
        symbol::SEMICOLON,
        |reader: &mut Reader<'_>| -> Result<DiscriminantSection, Stop>
            ensures { Reads (read (inside_at room) discriminant_section reader.entry.now) result reader.exit.now }
        { discriminant_section(alloc, reader, room) },
    )
}

/// `[ "(" dsec { ";" dsec } ")" ]`
#[tactic(auto, unfolding(ep_grammar::specs::Declarations::discriminants))]
pub fn discriminants(
    alloc: Global,
    reader: &mut Reader<'_>,
    room: u32,
) -> Result<List<DiscriminantSection>, Stop>
    ensures { Reads (read (inside_at room) discriminants reader.old) result reader.new }
{
    if !reader.sees_symbol(symbol::LEFT_PARENTHESIS) {
        return Ok(List::new(alloc));
    }
    reader.symbol(symbol::LEFT_PARENTHESIS)?;
    let found = discriminant_sections(alloc, reader, room)?;
    reader.symbol(symbol::RIGHT_PARENTHESIS)?;
    Ok(found)
}

/// `tdef ";"`, where `tdef = id [ "(" dsec { ";" dsec } ")" ] "=" type`
#[tactic(auto, unfolding(ep_grammar::specs::Declarations::type_definition))]
fn type_definition(
    alloc: Global,
    reader: &mut Reader<'_>,
    room: u32,
) -> Result<TypeDefinition, Stop>
    ensures { Reads (read (inside_at room) type_definition reader.old) result reader.new }
{
    let _inner = level(room, reader.sees_name())?;
    let line = reader.line();
    let name = reader.name(alloc)?;
    let discriminants = discriminants(alloc, reader, room)?;
    reader.symbol(symbol::EQUAL)?;
    let of = type_denoter(alloc, reader, room)?;
    reader.symbol(symbol::SEMICOLON)?;
    Ok(TypeDefinition {
        line,
        name,
        discriminants,
        of,
    })
}

/// `tdef ";" { tdef ";" }`
fn type_definitions(
    alloc: Global,
    reader: &mut Reader<'_>,
    room: u32,
) -> Result<List<TypeDefinition>, Stop>
    ensures { Reads (read (inside_at room) type_definitions reader.old) result reader.new }
{
    one_or_more(
        alloc,
        reader,
        |reader: &mut Reader<'_>| -> Result<TypeDefinition, Stop>
            ensures { Reads (read (inside_at room) type_definition reader.entry.now) result reader.exit.now }
        { type_definition(alloc, reader, room) },
    )
}

/// `types = "type" tdef ";" { tdef ";" }`
#[tactic(auto, unfolding(ep_grammar::specs::Declarations::types))]
pub(crate) fn types(alloc: Global, reader: &mut Reader<'_>, room: u32) -> Result<Types, Stop>
    ensures { Reads (read (inside_at room) types reader.old) result reader.new }
{
    let _inner = level(room, reader.sees_word(word::TYPE))?;
    let line = reader.line();
    reader.keyword(word::TYPE)?;
    let definitions = type_definitions(alloc, reader, room)?;
    Ok(Types { line, definitions })
}

/// `ids ":" type ";"`
#[tactic(auto, unfolding(ep_grammar::specs::Declarations::variable_declaration))]
fn variable_declaration(
    alloc: Global,
    reader: &mut Reader<'_>,
    room: u32,
) -> Result<VariableDeclaration, Stop>
    ensures { Reads (read (inside_at room) variable_declaration reader.old) result reader.new }
{
    let _inner = level(room, reader.sees_name())?;
    let line = reader.line();
    let names = names(alloc, reader, room)?;
    reader.symbol(symbol::COLON)?;
    let of = type_denoter(alloc, reader, room)?;
    reader.symbol(symbol::SEMICOLON)?;
    Ok(VariableDeclaration { line, names, of })
}

/// `ids ":" type ";" { ids ":" type ";" }`
fn variable_declarations(
    alloc: Global,
    reader: &mut Reader<'_>,
    room: u32,
) -> Result<List<VariableDeclaration>, Stop>
    ensures { Reads (read (inside_at room) variable_declarations reader.old) result reader.new }
{
    one_or_more(
        alloc,
        reader,
        |reader: &mut Reader<'_>| -> Result<VariableDeclaration, Stop>
            ensures { Reads (read (inside_at room) variable_declaration reader.entry.now) result reader.exit.now }
        { variable_declaration(alloc, reader, room) },
    )
}

/// `vars = "var" ids ":" type ";" { ids ":" type ";" }`
#[tactic(auto, unfolding(ep_grammar::specs::Declarations::variables))]
pub(crate) fn variables(
    alloc: Global,
    reader: &mut Reader<'_>,
    room: u32,
) -> Result<Variables, Stop>
    ensures { Reads (read (inside_at room) variables reader.old) result reader.new }
{
    let _inner = level(room, reader.sees_word(word::VAR))?;
    let line = reader.line();
    reader.keyword(word::VAR)?;
    let declarations = variable_declarations(alloc, reader, room)?;
    Ok(Variables { line, declarations })
}

/// `"type" "of" name`
#[tactic(auto, unfolding(ep_grammar::specs::Declarations::formal_type_of))]
fn formal_type_of(alloc: Global, reader: &mut Reader<'_>, room: u32) -> Result<FormalType, Stop>
    ensures { Reads (read (inside_at room) formal_type_of reader.old) result reader.new }
{
    let line = reader.line();
    reader.keyword(word::TYPE)?;
    reader.keyword(word::OF)?;
    let name = qualified_name(alloc, reader, room)?;
    Ok(FormalType::TypeOf(line, name))
}

/// `name | "type" "of" name`
#[tactic(auto, unfolding(ep_grammar::specs::Declarations::formal_type))]
fn formal_type(alloc: Global, reader: &mut Reader<'_>, room: u32) -> Result<FormalType, Stop>
    ensures { Reads (read (inside_at room) formal_type reader.old) result reader.new }
{
    if reader.sees_word(word::TYPE) {
        return formal_type_of(alloc, reader, room);
    }
    let name = qualified_name(alloc, reader, room)?;
    Ok(FormalType::Named(name))
}

/// `psec = [ "protected" ] [ "var" ] ids ":" ( name | "type" "of" name )`
#[tactic(auto, unfolding(ep_grammar::specs::Declarations::formal_section))]
fn formal_section(alloc: Global, reader: &mut Reader<'_>, room: u32) -> Result<FormalSection, Stop>
    ensures { Reads (read (inside_at room) formal_section reader.old) result reader.new }
{
    let line = reader.line();
    let protected = reader.takes_word(word::PROTECTED);
    let variable = reader.takes_word(word::VAR);
    let names = names(alloc, reader, room)?;
    reader.symbol(symbol::COLON)?;
    let of = formal_type(alloc, reader, room)?;
    Ok(FormalSection {
        line,
        protected,
        variable,
        names,
        of,
    })
}

/// `psec { ";" psec }`
fn formal_sections(
    alloc: Global,
    reader: &mut Reader<'_>,
    room: u32,
) -> Result<List<FormalSection>, Stop>
    ensures { Reads (read (inside_at room) formal_sections reader.old) result reader.new }
{
    separated(
        alloc,
        reader,
        symbol::SEMICOLON,
        |reader: &mut Reader<'_>| -> Result<FormalSection, Stop>
            ensures { Reads (read (inside_at room) formal_section reader.entry.now) result reader.exit.now }
        { formal_section(alloc, reader, room) },
    )
}

/// `[ formals ]`, where `formals = "(" psec { ";" psec } ")"`
#[tactic(auto, unfolding(ep_grammar::specs::Declarations::formals))]
fn formals(alloc: Global, reader: &mut Reader<'_>, room: u32) -> Result<List<FormalSection>, Stop>
    ensures { Reads (read (inside_at room) formals reader.old) result reader.new }
{
    if !reader.sees_symbol(symbol::LEFT_PARENTHESIS) {
        return Ok(List::new(alloc));
    }
    reader.symbol(symbol::LEFT_PARENTHESIS)?;
    let found = formal_sections(alloc, reader, room)?;
    reader.symbol(symbol::RIGHT_PARENTHESIS)?;
    Ok(found)
}

/// `"procedure" id [ formals ]`
#[tactic(auto, unfolding(ep_grammar::specs::Declarations::procedure))]
fn procedure(alloc: Global, reader: &mut Reader<'_>, room: u32) -> Result<RoutineHeading, Stop>
    ensures { Reads (read (inside_at room) procedure reader.old) result reader.new }
{
    let line = reader.line();
    reader.keyword(word::PROCEDURE)?;
    let name = reader.name(alloc)?;
    let formals = formals(alloc, reader, room)?;
    Ok(RoutineHeading::Procedure(line, name, formals))
}

/// `[ "=" id ]`
#[tactic(auto, unfolding(ep_grammar::specs::Declarations::result_name))]
fn result_name(alloc: Global, reader: &mut Reader<'_>, room: u32) -> Result<Option<Name>, Stop>
    ensures { Reads (read (inside_at room) result_name reader.old) result reader.new }
{
    if !reader.sees_symbol(symbol::EQUAL) {
        return Ok(None);
    }
    reader.symbol(symbol::EQUAL)?;
    let name = reader.name(alloc)?;
    Ok(Some(name))
}

/// `"function" id [ formals ] [ "=" id ] ":" name`
#[tactic(auto, unfolding(ep_grammar::specs::Declarations::function))]
fn function(alloc: Global, reader: &mut Reader<'_>, room: u32) -> Result<RoutineHeading, Stop>
    ensures { Reads (read (inside_at room) function reader.old) result reader.new }
{
    let line = reader.line();
    reader.keyword(word::FUNCTION)?;
    let name = reader.name(alloc)?;
    let formals = formals(alloc, reader, room)?;
    let result = result_name(alloc, reader, room)?;
    reader.symbol(symbol::COLON)?;
    let of = qualified_name(alloc, reader, room)?;
    Ok(RoutineHeading::Function(line, name, formals, result, of))
}

/// `rhead`
#[tactic(auto, unfolding(ep_grammar::specs::Declarations::routine_heading))]
pub(crate) fn routine_heading(
    alloc: Global,
    reader: &mut Reader<'_>,
    room: u32,
) -> Result<RoutineHeading, Stop>
    ensures { Reads (read (inside_at room) routine_heading reader.old) result reader.new }
{
    if reader.sees_word(word::PROCEDURE) {
        return procedure(alloc, reader, room);
    }
    function(alloc, reader, room)
}

/// `"function" id [ [ formals ] [ "=" id ] ":" name ]`
#[tactic(auto, unfolding(ep_grammar::specs::Declarations::function_start, ep_grammar::specs::Declarations::function_rest))]
fn function_start(alloc: Global, reader: &mut Reader<'_>, room: u32) -> Result<RoutineStart, Stop>
    ensures { Reads (read (inside_at room) function_start reader.old) result reader.new }
{
    let line = reader.line();
    reader.keyword(word::FUNCTION)?;
    let name = reader.name(alloc)?;
    if !reader.begins_function_rest() {
        return Ok(RoutineStart::Function(line, name));
    }
    let formals = formals(alloc, reader, room)?;
    let result = result_name(alloc, reader, room)?;
    reader.symbol(symbol::COLON)?;
    let of = qualified_name(alloc, reader, room)?;
    Ok(RoutineStart::Heading(RoutineHeading::Function(line, name, formals, result, of)))
}

/// `rhead | "function" id`
#[tactic(auto, unfolding(ep_grammar::specs::Declarations::routine_start))]
pub fn routine_start(
    alloc: Global,
    reader: &mut Reader<'_>,
    room: u32,
) -> Result<RoutineStart, Stop>
    ensures { Reads (read (inside_at room) routine_start reader.old) result reader.new }
{
    if !reader.sees_word(word::PROCEDURE) {
        return function_start(alloc, reader, room);
    }
    let heading = procedure(alloc, reader, room)?;
    Ok(RoutineStart::Heading(heading))
}

/// `rdecl`, one level deeper.
#[cycle(routine)]
fn inner_routine(alloc: Global, reader: &mut Reader<'_>, room: u32) -> Result<Routine, Stop>
    ensures { Reads (read_inside (inside_at room) routines reader.old) result reader.new }
{
    let inner = level(room, true)?;
    routine(alloc, reader, inner)
}

/// `rdecl` as a part.
#[cycle(routine)]
#[tactic(auto, unfolding(ep_grammar::specs::Declarations::routine_part))]
fn routine_part(alloc: Global, reader: &mut Reader<'_>, room: u32) -> Result<BlockPart, Stop>
    ensures { Reads (read (inside_at room) routine_part reader.old) result reader.new }
{
    let _inner = level(room, reader.begins_routine())?;
    let routine = inner_routine(alloc, reader, room)?;
    Ok(BlockPart::Routine(routine))
}

/// `consts | types | vars | rdecl`
#[cycle(routine)]
#[tactic(auto, unfolding(ep_grammar::specs::Declarations::part))]
fn part(alloc: Global, reader: &mut Reader<'_>, room: u32) -> Result<BlockPart, Stop>
    ensures { Reads (read (inside_at room) part reader.old) result reader.new }
{
    if reader.sees_word(word::CONST) {
        let constants = constants(alloc, reader, room)?;
        return Ok(BlockPart::Constants(constants));
    }
    if reader.sees_word(word::TYPE) {
        let types = types(alloc, reader, room)?;
        return Ok(BlockPart::Types(types));
    }
    if reader.sees_word(word::VAR) {
        let variables = variables(alloc, reader, room)?;
        return Ok(BlockPart::Variables(variables));
    }
    routine_part(alloc, reader, room)
}

/// `parts = { consts | types | vars | rdecl }`
#[cycle(routine)]
pub(crate) fn parts(
    alloc: Global,
    reader: &mut Reader<'_>,
    room: u32,
) -> Result<List<BlockPart>, Stop>
    ensures { Reads (read (inside_at room) parts reader.old) result reader.new }
{
    let none = List::new(alloc);
    many(
        reader,
        none,
        |reader: &mut Reader<'_>| -> Result<Option<BlockPart>, Stop>
            ensures { Reads (read (inside_at room) (optional of_parts part) reader.entry.now) result reader.exit.now }
        {
            if !reader.begins_part() {
                return Ok(None);
            }
            Ok(Some(part(alloc, reader, room)?))
        },
    )
}

/// `"forward"`
#[tactic(auto, unfolding(ep_grammar::specs::Declarations::forward_body))]
pub fn forward_body(alloc: Global, reader: &mut Reader<'_>, room: u32) -> Result<RoutineBody, Stop>
    ensures { Reads (read (inside_at room) forward_body reader.old) result reader.new }
{
    let line = reader.line();
    reader.forward()?;
    Ok(RoutineBody::Forward(line))
}

/// `parts compound`
#[cycle(routine)]
#[tactic(auto, unfolding(ep_grammar::specs::Declarations::block_body))]
fn block_body(alloc: Global, reader: &mut Reader<'_>, room: u32) -> Result<RoutineBody, Stop>
    ensures { Reads (read (inside_at room) block_body reader.old) result reader.new }
{
    let _inner = level(room, reader.begins_block())?;
    let line = reader.line();
    let parts = parts(alloc, reader, room)?;
    let body = compound(alloc, reader, room)?;
    Ok(RoutineBody::Block(line, parts, body))
}

/// `"forward" | parts compound`
#[cycle(routine)]
#[tactic(auto, unfolding(ep_grammar::specs::Declarations::routine_body))]
fn routine_body(alloc: Global, reader: &mut Reader<'_>, room: u32) -> Result<RoutineBody, Stop>
    ensures { Reads (read (inside_at room) routine_body reader.old) result reader.new }
{
    if reader.sees_forward() {
        return forward_body(alloc, reader, room);
    }
    block_body(alloc, reader, room)
}

/// `rdecl = ( rhead | "function" id ) ";" ( "forward" | parts compound ) ";"`
#[cycle(routine)]
#[tactic(auto, unfolding(ep_grammar::specs::Declarations::routine))]
fn routine(alloc: Global, reader: &mut Reader<'_>, room: u32) -> Result<Routine, Stop>
    ensures { Reads (read (inside_at room) routine reader.old) result reader.new }
{
    let line = reader.line();
    let start = routine_start(alloc, reader, room)?;
    reader.symbol(symbol::SEMICOLON)?;
    let body = routine_body(alloc, reader, room)?;
    reader.symbol(symbol::SEMICOLON)?;
    Ok(Routine { line, start, body })
}
