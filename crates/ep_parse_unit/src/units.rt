//! Components.

ghost use Rattle.std.specs.Prelude.{◌≡◌, ◌≢◌, ◌++◌, [], ◌∷◌, IfErr, IfOk, OnOk, Err, Ok};
ghost use Rattle.ep_grammar.specs.Declarations.{of_parts};
ghost use Rattle.ep_grammar.specs.Descriptions.{optional};
ghost use Rattle.ep_grammar.specs.Units.{action, actions, begin_action, block, component, components, end_action};
ghost use Rattle.ep_grammar.specs.Units.{export_item, export_items, export_part, export_parts, exports};
ghost use Rattle.ep_grammar.specs.Units.{finalization, heading_part, heading_parts, heading_rest, heading_routine};
ghost use Rattle.ep_grammar.specs.Units.{implementation_rest, import_item, import_items, import_list, import_part};
ghost use Rattle.ep_grammar.specs.Units.{import_specification, import_specifications, imports, interface_rest};
ghost use Rattle.ep_grammar.specs.Units.{module_component, module_rest, parameters, plain_item, program};
ghost use Rattle.ep_grammar.specs.Units.{program_component, protected_item, renaming, some_actions, unit};
ghost use Rattle.ep_grammar.specs.Reading.{Reads, applied, read};
ghost use Rattle.ep_grammar.specs.Rules.{inside_at};
ghost use Rattle.ep_grammar.specs.declared.stop.Stop.TheVariants.{NoMemory};

use crate::declarations::{constants, parts, routine_heading, types, variables};
use ep_base::{Boxed, Line, List, Name, Names, NoMemory};
use ep_grammar::Stop;
use ep_parse_stmt::{boxed_statement, compound};
use ep_parse_type::names_in_parentheses;
use ep_reader::{Reader, level, many, one_or_more, separated};
use ep_token::{symbol, word};
use ep_tree::{
    Block, Component, Export, ExportItem, Heading, HeadingPart, Implementation, Import, ImportItem,
    Module, Program, Statement,
};
use std::alloc::Global;

/// What a module does at the start of a program and at its end, each in a box while the rest is read.
type Actions = (Option<Boxed<Statement>>, Option<Boxed<Statement>>);

/// `[ "(" ids ")" ]`
#[tactic(auto, unfolding(ep_grammar::specs::Units::parameters))]
pub fn parameters(alloc: Global, reader: &mut Reader<'_>, room: u32) -> Result<Names, Stop>
    ensures { Reads (read (inside_at room) parameters reader.old) result reader.new }
{
    if !reader.sees_symbol(symbol::LEFT_PARENTHESIS) {
        return Ok(List::new(alloc));
    }
    names_in_parentheses(alloc, reader, room)
}

/// `[ "=>" id ]`
#[tactic(auto, unfolding(ep_grammar::specs::Units::renaming))]
fn renaming(alloc: Global, reader: &mut Reader<'_>, room: u32) -> Result<Option<Name>, Stop>
    ensures { Reads (read (inside_at room) renaming reader.old) result reader.new }
{
    if !reader.sees_symbol(symbol::EXPORTED_AS) {
        return Ok(None);
    }
    reader.symbol(symbol::EXPORTED_AS)?;
    let name = reader.name(alloc)?;
    Ok(Some(name))
}

/// `iitem = id [ "=>" id ]`
#[tactic(auto, unfolding(ep_grammar::specs::Units::import_item))]
fn import_item(alloc: Global, reader: &mut Reader<'_>, room: u32) -> Result<ImportItem, Stop>
    ensures { Reads (read (inside_at room) import_item reader.old) result reader.new }
{
    let line = reader.line();
    let name = reader.name(alloc)?;
    let renamed = renaming(alloc, reader, room)?;
    Ok(ImportItem {
        line,
        name,
        renamed,
    })
}

/// `iitem { "," iitem }`
fn import_items(alloc: Global, reader: &mut Reader<'_>, room: u32) -> Result<List<ImportItem>, Stop>
    ensures { Reads (read (inside_at room) import_items reader.old) result reader.new }
{
    separated(
        alloc,
        reader,
        symbol::COMMA,
        |reader: &mut Reader<'_>| -> Result<ImportItem, Stop>
            ensures { Reads (read (inside_at room) import_item reader.entry.now) result reader.exit.now }
        { import_item(alloc, reader, room) },
    )
}

/// `"(" iitem { "," iitem } ")"`
#[tactic(auto, unfolding(ep_grammar::specs::Units::import_list))]
fn import_list(alloc: Global, reader: &mut Reader<'_>, room: u32) -> Result<List<ImportItem>, Stop>
    ensures { Reads (read (inside_at room) import_list reader.old) result reader.new }
{
    reader.symbol(symbol::LEFT_PARENTHESIS)?;
    let found = import_items(alloc, reader, room)?;
    reader.symbol(symbol::RIGHT_PARENTHESIS)?;
    Ok(found)
}

/// `[ [ "only" ] "(" iitem { "," iitem } ")" ]`
#[tactic(auto, unfolding(ep_grammar::specs::Units::import_part))]
fn import_part(
    alloc: Global,
    reader: &mut Reader<'_>,
    room: u32,
) -> Result<(bool, List<ImportItem>), Stop>
    ensures { Reads (read (inside_at room) import_part reader.old) result reader.new }
{
    if reader.sees_word(word::ONLY) {
        reader.keyword(word::ONLY)?;
        let items = import_list(alloc, reader, room)?;
        return Ok((true, items));
    }
    if !reader.sees_symbol(symbol::LEFT_PARENTHESIS) {
        return Ok((false, List::new(alloc)));
    }
    let items = import_list(alloc, reader, room)?;
    Ok((false, items))
}

/// `import ";"`, where `import = id [ "qualified" ] [ [ "only" ] "(" iitem { "," iitem } ")" ]`
#[tactic(auto, unfolding(ep_grammar::specs::Units::import_specification))]
pub fn import_specification(
    alloc: Global,
    reader: &mut Reader<'_>,
    room: u32,
) -> Result<Import, Stop>
    ensures { Reads (read (inside_at room) import_specification reader.old) result reader.new }
{
    let line = reader.line();
    let interface = reader.name(alloc)?;
    let qualified = reader.takes_word(word::QUALIFIED);
    let (only, items) = import_part(alloc, reader, room)?;
    reader.symbol(symbol::SEMICOLON)?;
    Ok(Import {
        line,
        interface,
        qualified,
        only,
        items,
    })
}

/// `import ";" { import ";" }`
fn import_specifications(
    alloc: Global,
    reader: &mut Reader<'_>,
    room: u32,
) -> Result<List<Import>, Stop>
    ensures { Reads (read (inside_at room) import_specifications reader.old) result reader.new }
{
    one_or_more(
        alloc,
        reader,
        |reader: &mut Reader<'_>| -> Result<Import, Stop>
            ensures { Reads (read (inside_at room) import_specification reader.entry.now) result reader.exit.now }
        { import_specification(alloc, reader, room) },
    )
}

/// `imports = [ "import" import ";" { import ";" } ]`
#[tactic(auto, unfolding(ep_grammar::specs::Units::imports))]
fn imports(alloc: Global, reader: &mut Reader<'_>, room: u32) -> Result<List<Import>, Stop>
    ensures { Reads (read (inside_at room) imports reader.old) result reader.new }
{
    if !reader.sees_word(word::IMPORT) {
        return Ok(List::new(alloc));
    }
    reader.keyword(word::IMPORT)?;
    import_specifications(alloc, reader, room)
}

/// `"protected" id [ "=>" id ]`
#[tactic(auto, unfolding(ep_grammar::specs::Units::protected_item))]
fn protected_item(alloc: Global, reader: &mut Reader<'_>, room: u32) -> Result<ExportItem, Stop>
    ensures { Reads (read (inside_at room) protected_item reader.old) result reader.new }
{
    let line = reader.line();
    reader.keyword(word::PROTECTED)?;
    let name = reader.name(alloc)?;
    let renamed = renaming(alloc, reader, room)?;
    Ok(ExportItem::Constituent(line, true, name, renamed))
}

/// `id [ "=>" id ] | id ".." id`
#[tactic(auto, unfolding(ep_grammar::specs::Units::plain_item, ep_grammar::specs::Units::item_range, ep_grammar::specs::Units::item_alone))]
fn plain_item(alloc: Global, reader: &mut Reader<'_>, room: u32) -> Result<ExportItem, Stop>
    ensures { Reads (read (inside_at room) plain_item reader.old) result reader.new }
{
    let line = reader.line();
    let name = reader.name(alloc)?;
    if !reader.sees_symbol(symbol::RANGE) {
        let renamed = renaming(alloc, reader, room)?;
        return Ok(ExportItem::Constituent(line, false, name, renamed));
    }
    reader.symbol(symbol::RANGE)?;
    let last = reader.name(alloc)?;
    Ok(ExportItem::Range(line, name, last))
}

/// `eitem = [ "protected" ] id [ "=>" id ] | id ".." id`
#[tactic(auto, unfolding(ep_grammar::specs::Units::export_item))]
fn export_item(alloc: Global, reader: &mut Reader<'_>, room: u32) -> Result<ExportItem, Stop>
    ensures { Reads (read (inside_at room) export_item reader.old) result reader.new }
{
    if reader.sees_word(word::PROTECTED) {
        return protected_item(alloc, reader, room);
    }
    plain_item(alloc, reader, room)
}

/// `eitem { "," eitem }`
fn export_items(alloc: Global, reader: &mut Reader<'_>, room: u32) -> Result<List<ExportItem>, Stop>
    ensures { Reads (read (inside_at room) export_items reader.old) result reader.new }
{
    separated(
        alloc,
        reader,
        symbol::COMMA,
        |reader: &mut Reader<'_>| -> Result<ExportItem, Stop>
            ensures { Reads (read (inside_at room) export_item reader.entry.now) result reader.exit.now }
        { export_item(alloc, reader, room) },
    )
}

/// `export ";"`, where `export = id "=" "(" eitem { "," eitem } ")"`
#[tactic(auto, unfolding(ep_grammar::specs::Units::export_part))]
pub fn export_part(alloc: Global, reader: &mut Reader<'_>, room: u32) -> Result<Export, Stop>
    ensures { Reads (read (inside_at room) export_part reader.old) result reader.new }
{
    let line = reader.line();
    let name = reader.name(alloc)?;
    reader.symbol(symbol::EQUAL)?;
    reader.symbol(symbol::LEFT_PARENTHESIS)?;
    let items = export_items(alloc, reader, room)?;
    reader.symbol(symbol::RIGHT_PARENTHESIS)?;
    reader.symbol(symbol::SEMICOLON)?;
    Ok(Export { line, name, items })
}

/// `export ";" { export ";" }`
fn export_parts(alloc: Global, reader: &mut Reader<'_>, room: u32) -> Result<List<Export>, Stop>
    ensures { Reads (read (inside_at room) export_parts reader.old) result reader.new }
{
    one_or_more(
        alloc,
        reader,
        |reader: &mut Reader<'_>| -> Result<Export, Stop>
            ensures { Reads (read (inside_at room) export_part reader.entry.now) result reader.exit.now }
        { export_part(alloc, reader, room) },
    )
}

/// `exports = "export" export ";" { export ";" }`
#[tactic(auto, unfolding(ep_grammar::specs::Units::exports))]
fn exports(alloc: Global, reader: &mut Reader<'_>, room: u32) -> Result<List<Export>, Stop>
    ensures { Reads (read (inside_at room) exports reader.old) result reader.new }
{
    reader.keyword(word::EXPORT)?;
    export_parts(alloc, reader, room)
}

/// `rhead ";"`
#[tactic(auto, unfolding(ep_grammar::specs::Units::heading_routine))]
pub fn heading_routine(
    alloc: Global,
    reader: &mut Reader<'_>,
    room: u32,
) -> Result<HeadingPart, Stop>
    ensures { Reads (read (inside_at room) heading_routine reader.old) result reader.new }
{
    let heading = routine_heading(alloc, reader, room)?;
    reader.symbol(symbol::SEMICOLON)?;
    Ok(HeadingPart::Routine(heading))
}

/// `consts | types | vars | rhead ";"`
#[tactic(auto, unfolding(ep_grammar::specs::Units::heading_part))]
fn heading_part(alloc: Global, reader: &mut Reader<'_>, room: u32) -> Result<HeadingPart, Stop>
    ensures { Reads (read (inside_at room) heading_part reader.old) result reader.new }
{
    if reader.sees_word(word::CONST) {
        let constants = constants(alloc, reader, room)?;
        return Ok(HeadingPart::Constants(constants));
    }
    if reader.sees_word(word::TYPE) {
        let types = types(alloc, reader, room)?;
        return Ok(HeadingPart::Types(types));
    }
    if reader.sees_word(word::VAR) {
        let variables = variables(alloc, reader, room)?;
        return Ok(HeadingPart::Variables(variables));
    }
    heading_routine(alloc, reader, room)
}

/// `{ consts | types | vars | rhead ";" }`
fn heading_parts(
    alloc: Global,
    reader: &mut Reader<'_>,
    room: u32,
) -> Result<List<HeadingPart>, Stop>
    ensures { Reads (read (inside_at room) heading_parts reader.old) result reader.new }
{
    let none = List::new(alloc);
    many(
        reader,
        none,
        |reader: &mut Reader<'_>| -> Result<Option<HeadingPart>, Stop>
            ensures { Reads (read (inside_at room) (optional of_parts heading_part) reader.entry.now)
                result reader.exit.now }
        {
            if !reader.begins_part() {
                return Ok(None);
            }
            Ok(Some(heading_part(alloc, reader, room)?))
        },
    )
}

/// `[ "(" ids ")" ] ";" exports imports { consts | types | vars | rhead ";" } "end"`
#[tactic(auto, unfolding(ep_grammar::specs::Units::heading_rest))]
fn heading_rest(
    alloc: Global,
    reader: &mut Reader<'_>,
    room: u32,
) -> Result<(Names, List<Export>, List<Import>, List<HeadingPart>), Stop>
    ensures { Reads (read (inside_at room) heading_rest reader.old) result reader.new }
{
    let parameters = parameters(alloc, reader, room)?;
    reader.symbol(symbol::SEMICOLON)?;
    let exports = exports(alloc, reader, room)?;
    let imports = imports(alloc, reader, room)?;
    let parts = heading_parts(alloc, reader, room)?;
    reader.keyword(word::END)?;
    Ok((parameters, exports, imports, parts))
}

/// `"do" stmt ";"`
#[tactic(auto, unfolding(ep_grammar::specs::Units::action))]
fn action(alloc: Global, reader: &mut Reader<'_>, room: u32) -> Result<Boxed<Statement>, Stop>
    ensures { Reads (read (inside_at room) action reader.old) result reader.new }
{
    reader.keyword(word::DO)?;
    let statement = boxed_statement(alloc, reader, room)?;
    reader.symbol(symbol::SEMICOLON)?;
    Ok(statement)
}

/// `"to" "end" "do" stmt ";"`
#[tactic(auto, unfolding(ep_grammar::specs::Units::finalization))]
fn finalization(alloc: Global, reader: &mut Reader<'_>, room: u32) -> Result<Boxed<Statement>, Stop>
    ensures { Reads (read (inside_at room) finalization reader.old) result reader.new }
{
    let _inner = level(room, reader.sees_word(word::TO))?;
    reader.keyword(word::TO)?;
    reader.keyword(word::END)?;
    action(alloc, reader, room)
}

/// `"begin" "do" stmt ";" [ "to" "end" "do" stmt ";" ]`
#[tactic(auto, unfolding(ep_grammar::specs::Units::begin_action))]
fn begin_action(alloc: Global, reader: &mut Reader<'_>, room: u32) -> Result<Actions, Stop>
    ensures { Reads (read (inside_at room) begin_action reader.old) result reader.new }
{
    reader.keyword(word::BEGIN)?;
    let first = action(alloc, reader, room)?;
    if !reader.sees_word(word::TO) {
        return Ok((Some(first), None));
    }
    let last = finalization(alloc, reader, room)?;
    Ok((Some(first), Some(last)))
}

/// `"end" "do" stmt ";"`
#[tactic(auto, unfolding(ep_grammar::specs::Units::end_action))]
fn end_action(alloc: Global, reader: &mut Reader<'_>, room: u32) -> Result<Actions, Stop>
    ensures { Reads (read (inside_at room) end_action reader.old) result reader.new }
{
    reader.keyword(word::END)?;
    let last = action(alloc, reader, room)?;
    Ok((None, Some(last)))
}

/// `"to" ( "begin" "do" stmt ";" [ "to" "end" "do" stmt ";" ] | "end" "do" stmt ";" )`
#[tactic(auto, unfolding(ep_grammar::specs::Units::some_actions))]
fn some_actions(alloc: Global, reader: &mut Reader<'_>, room: u32) -> Result<Actions, Stop>
    ensures { Reads (read (inside_at room) some_actions reader.old) result reader.new }
{
    let _inner = level(room, reader.sees_word(word::TO))?;
    reader.keyword(word::TO)?;
    if reader.sees_word(word::BEGIN) {
        return begin_action(alloc, reader, room);
    }
    end_action(alloc, reader, room)
}

/// `[ "to" "begin" "do" stmt ";" ] [ "to" "end" "do" stmt ";" ]`
#[tactic(auto, unfolding(ep_grammar::specs::Units::actions))]
fn actions(alloc: Global, reader: &mut Reader<'_>, room: u32) -> Result<Actions, Stop>
    ensures { Reads (read (inside_at room) actions reader.old) result reader.new }
{
    if reader.sees_word(word::TO) {
        return some_actions(alloc, reader, room);
    }
    Ok((None, None))
}

/// `modblock = imports parts [ "to" "begin" "do" stmt ";" ] [ "to" "end" "do" stmt ";" ] "end"`
#[tactic(auto, unfolding(ep_grammar::specs::Units::block))]
fn block(alloc: Global, reader: &mut Reader<'_>, room: u32) -> Result<Block, Stop>
    ensures { Reads (read (inside_at room) block reader.old) result reader.new }
{
    let line = reader.line();
    let imports = imports(alloc, reader, room)?;
    let parts = parts(alloc, reader, room)?;
    let (initialization, finalization) = actions(alloc, reader, room)?;
    reader.keyword(word::END)?;
    Ok(Block {
        line,
        imports,
        parts,
        initialization,
        finalization,
    })
}

/// `program = "program" id [ "(" ids ")" ] ";" imports parts compound`
#[tactic(auto, unfolding(ep_grammar::specs::Units::program))]
fn program(alloc: Global, reader: &mut Reader<'_>, room: u32) -> Result<Program, Stop>
    ensures { Reads (read (inside_at room) program reader.old) result reader.new }
{
    let line = reader.line();
    reader.keyword(word::PROGRAM)?;
    let name = reader.name(alloc)?;
    let parameters = parameters(alloc, reader, room)?;
    reader.symbol(symbol::SEMICOLON)?;
    let imports = imports(alloc, reader, room)?;
    let parts = parts(alloc, reader, room)?;
    let body = compound(alloc, reader, room)?;
    Ok(Program {
        line,
        name,
        parameters,
        imports,
        parts,
        body,
    })
}

/// `"interface"` and the rest of a heading, after its name.
#[tactic(auto, unfolding(ep_grammar::specs::Units::interface_rest))]
fn interface_rest(
    alloc: Global,
    reader: &mut Reader<'_>,
    room: u32,
    line: Line,
    name: Name,
) -> Result<Component, Stop>
    ensures { Reads (applied (λ r. r line name) (read (inside_at room) interface_rest reader.old)) result reader.new }
{
    reader.interface()?;
    let (parameters, exports, imports, parts) = heading_rest(alloc, reader, room)?;
    let heading = Heading {
        line,
        name,
        parameters,
        exports,
        imports,
        parts,
    };
    Ok(Component::Heading(heading))
}

/// `"implementation" ";" modblock`, after the name.
#[tactic(auto, unfolding(ep_grammar::specs::Units::implementation_rest))]
fn implementation_rest(
    alloc: Global,
    reader: &mut Reader<'_>,
    room: u32,
    line: Line,
    name: Name,
) -> Result<Component, Stop>
    ensures { Reads (applied (λ r. r line name) (read (inside_at room) implementation_rest reader.old))
        result reader.new }
{
    reader.implementation()?;
    reader.symbol(symbol::SEMICOLON)?;
    let block = block(alloc, reader, room)?;
    Ok(Component::Block(Implementation { line, name, block }))
}

/// The rest of a heading and `";" modblock`, after the name.
#[tactic(auto, unfolding(ep_grammar::specs::Units::module_rest))]
fn module_rest(
    alloc: Global,
    reader: &mut Reader<'_>,
    room: u32,
    line: Line,
    name: Name,
) -> Result<Component, Stop>
    ensures { Reads (applied (λ r. r line name) (read (inside_at room) module_rest reader.old)) result reader.new }
{
    let (parameters, exports, imports, parts) = heading_rest(alloc, reader, room)?;
    reader.symbol(symbol::SEMICOLON)?;
    let block = block(alloc, reader, room)?;
    let heading = Heading {
        line,
        name,
        parameters,
        exports,
        imports,
        parts,
    };
    Ok(Component::Module(Module {
        line,
        heading,
        block,
    }))
}

/// `module = head ";" modblock | ihead | "module" id "implementation" ";" modblock`
#[tactic(auto, unfolding(ep_grammar::specs::Units::module_component))]
fn module_component(alloc: Global, reader: &mut Reader<'_>, room: u32) -> Result<Component, Stop>
    ensures { Reads (read (inside_at room) module_component reader.old) result reader.new }
{
    let line = reader.line();
    reader.keyword(word::MODULE)?;
    let name = reader.name(alloc)?;
    if reader.sees_interface() {
        return interface_rest(alloc, reader, room, line, name);
    }
    if reader.sees_implementation() {
        return implementation_rest(alloc, reader, room, line, name);
    }
    module_rest(alloc, reader, room, line, name)
}

/// `program` as a component.
#[tactic(auto, unfolding(ep_grammar::specs::Units::program_component))]
fn program_component(alloc: Global, reader: &mut Reader<'_>, room: u32) -> Result<Component, Stop>
    ensures { Reads (read (inside_at room) program_component reader.old) result reader.new }
{
    let program = program(alloc, reader, room)?;
    Ok(Component::Program(program))
}

/// `program | module`
#[tactic(auto, unfolding(ep_grammar::specs::Units::unit))]
fn unit(alloc: Global, reader: &mut Reader<'_>, room: u32) -> Result<Component, Stop>
    ensures { Reads (read (inside_at room) unit reader.old) result reader.new }
{
    if reader.sees_word(word::PROGRAM) {
        return program_component(alloc, reader, room);
    }
    module_component(alloc, reader, room)
}

/// `component = ( program | module ) "."`
#[tactic(auto, unfolding(ep_grammar::specs::Units::component))]
fn component(alloc: Global, reader: &mut Reader<'_>, room: u32) -> Result<Component, Stop>
    ensures { Reads (read (inside_at room) component reader.old) result reader.new }
{
    let component = unit(alloc, reader, room)?;
    reader.symbol(symbol::PERIOD)?;
    Ok(component)
}

/// `component { component }`
#[tactic(auto, unfolding(ep_grammar::specs::Units::components))]
pub fn all_components(
    alloc: Global,
    reader: &mut Reader<'_>,
    room: u32,
) -> Result<Vec<Component>, Stop>
    ensures found { IfOk result (λ all. read (inside_at room) components reader.old ≡ Ok (all.items, reader.new)) }
    ensures stopped { IfErr result
        (λ e. e ≢ NoMemory → read (inside_at room) components reader.old ≡ Err (e, reader.new)) }
{
    let mut found = Vec::new(alloc);
    add(&mut found, component(alloc, reader, room)?)?;
    for _turn in 0..reader.left() {
        if !reader.begins_component() {
            return Ok(found);
        }
        add(&mut found, component(alloc, reader, room)?)?;
    }
    Ok(found)
}

/// Adds a component at the end.
fn add(found: &mut Vec<Component>, component: Component) -> Result<(), NoMemory>
    ensures { OnOk result (found.new.items ≡ found.old.items ++ component ∷ []) }
{
    found.push(component)?;
    Ok(())
}
