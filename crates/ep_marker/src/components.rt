//! The marks of components and of whole texts.

ghost use Rattle.std.specs.Prelude.{◌≡◌, ◌+◌, ◌≤◌, List, [], ◌∷◌, IfOk};
ghost use Rattle.ep_tree.specs.declared.component.Component.{Component};
ghost use Rattle.ep_grammar.specs.Classes.{Implementation, Interface};
ghost use Rattle.ep_grammar.specs.Descriptions.{either};
ghost use Rattle.ep_grammar.specs.Rules.{Grammar};
ghost use Rattle.ep_grammar.specs.Units as grammar;
ghost use Rattle.ep_marks.specs.Productions as style;
ghost use Rattle.ep_marks.specs.Styles.{choice, level, many, new_line, optional, plain, some, ◌&◌, ◌<*◌};
ghost use Rattle.ep_marks.specs.Texts.{text_marks};
ghost use Rattle.ep_marker.specs.Marking.{Walked};

use crate::declarations::{constants, parts, types, variables};
use crate::leaves::{
    export_part, heading_routine, implementation, import_specification, interface, name, parameters,
};
use crate::marker::Marker;
use crate::statements::{compound, inner_statement};
use ep_grammar::{MAX_NESTING, Stop};
use ep_marks::Mark;
use ep_token::{Token, symbol, word};
use std::alloc::{AllocError, Global};

/// `import ";" { import ";" }`
fn import_specifications(alloc: Global, m: &mut Marker<'_>, depth: u32, room: u32)
    requires { depth + room ≤ 100 }
    ensures { Walked room (some plain new_line) grammar.import_specifications depth m.old m.new }
{
    import_specification(alloc, m, depth, room);
    for _turn in 0..m.reader.left() {
        if !m.reader.sees_name() {
            return;
        }
        let first = m.marks.len();
        import_specification(alloc, m, depth, room);
        m.start(first);
    }
}

/// `imports = [ "import" import ";" { import ";" } ]`
fn imports(alloc: Global, m: &mut Marker<'_>, depth: u32, room: u32)
    requires { depth + room ≤ 100 }
    ensures { Walked room style.imports grammar.imports depth m.old m.new }
{
    if !m.reader.sees_word(word::IMPORT) {
        return;
    }
    let first = m.marks.len();
    m.word(word::IMPORT, depth);
    import_specifications(alloc, m, depth, room);
    m.start(first);
}

/// `export ";" { export ";" }`
fn export_parts(alloc: Global, m: &mut Marker<'_>, depth: u32, room: u32)
    requires { depth + room ≤ 100 }
    ensures { Walked room (some plain new_line) grammar.export_parts depth m.old m.new }
{
    export_part(alloc, m, depth, room);
    for _turn in 0..m.reader.left() {
        if !m.reader.sees_name() {
            return;
        }
        let first = m.marks.len();
        export_part(alloc, m, depth, room);
        m.start(first);
    }
}

/// `exports = "export" export ";" { export ";" }`
fn exports(alloc: Global, m: &mut Marker<'_>, depth: u32, room: u32)
    requires { depth + room ≤ 100 }
    ensures { Walked room style.exports grammar.exports depth m.old m.new }
{
    let first = m.marks.len();
    m.word(word::EXPORT, depth);
    export_parts(alloc, m, depth, room);
    m.start(first);
}

/// `consts | types | vars | rhead ";"`
fn heading_part(alloc: Global, m: &mut Marker<'_>, depth: u32, room: u32)
    requires { depth + room ≤ 100 }
    ensures { Walked room (choice (plain & style.constants) (choice (plain & style.types)
        (choice (plain & style.variables) plain))) grammar.heading_part depth m.old m.new }
{
    if m.reader.sees_word(word::CONST) {
        return constants(alloc, m, depth, room);
    }
    if m.reader.sees_word(word::TYPE) {
        return types(alloc, m, depth, room);
    }
    if m.reader.sees_word(word::VAR) {
        return variables(alloc, m, depth, room);
    }
    heading_routine(alloc, m, depth, room);
}

/// `{ consts | types | vars | rhead ";" }`
fn heading_parts(alloc: Global, m: &mut Marker<'_>, depth: u32, room: u32)
    requires { depth + room ≤ 100 }
    ensures { Walked room (many style.heading_part) grammar.heading_parts depth m.old m.new }
{
    for _turn in 0..m.reader.left() {
        if !m.reader.begins_part() {
            return;
        }
        let first = m.marks.len();
        heading_part(alloc, m, depth, room);
        m.start(first);
    }
}

/// `[ "(" ids ")" ] ";" exports imports { .. } "end"`
fn heading_rest(alloc: Global, m: &mut Marker<'_>, depth: u32, room: u32)
    requires { depth + room ≤ 100 }
    ensures { Walked room style.heading_rest grammar.heading_rest depth m.old m.new }
{
    parameters(alloc, m, depth, room);
    m.symbol(symbol::SEMICOLON, depth);
    exports(alloc, m, depth, room);
    imports(alloc, m, depth, room);
    heading_parts(alloc, m, depth, room);
    m.new_line(word::END, depth);
}

/// `"do" stmt ";"`
fn action(alloc: Global, m: &mut Marker<'_>, depth: u32, room: u32)
    requires { depth + room ≤ 100 }
    ensures { Walked room style.action grammar.action depth m.old m.new }
{
    m.word(word::DO, depth);
    inner_statement(alloc, m, depth, room);
    m.symbol(symbol::SEMICOLON, depth);
}

/// `"to" "end" "do" stmt ";"`
fn finalization(alloc: Global, m: &mut Marker<'_>, depth: u32, room: u32)
    requires { depth + room ≤ 100 }
    ensures { Walked room style.finalization grammar.finalization depth m.old m.new }
{
    m.open(room);
    m.new_line(word::TO, depth);
    m.word(word::END, depth);
    action(alloc, m, depth, room);
}

/// `"begin" "do" stmt ";" [ "to" "end" "do" stmt ";" ]`
fn begin_action(alloc: Global, m: &mut Marker<'_>, depth: u32, room: u32)
    requires { depth + room ≤ 100 }
    ensures { Walked room (plain <* plain & style.action & optional style.finalization)
        grammar.begin_action depth m.old m.new }
{
    m.word(word::BEGIN, depth);
    action(alloc, m, depth, room);
    if !m.reader.sees_word(word::TO) {
        return;
    }
    finalization(alloc, m, depth, room);
}

/// `"end" "do" stmt ";"`
fn end_action(alloc: Global, m: &mut Marker<'_>, depth: u32, room: u32)
    requires { depth + room ≤ 100 }
    ensures { Walked room (plain <* plain & style.action) grammar.end_action depth m.old m.new }
{
    m.word(word::END, depth);
    action(alloc, m, depth, room);
}

/// `"to" ( .. )`
fn some_actions(alloc: Global, m: &mut Marker<'_>, depth: u32, room: u32)
    requires { depth + room ≤ 100 }
    ensures { Walked room (level (plain <* new_line & choice
        (plain <* plain & style.action & optional style.finalization) (plain <* plain & style.action)))
        grammar.some_actions depth m.old m.new }
{
    m.open(room);
    m.new_line(word::TO, depth);
    if m.reader.sees_word(word::BEGIN) {
        begin_action(alloc, m, depth, room);
        return;
    }
    end_action(alloc, m, depth, room);
}

/// `[ "to" "begin" "do" stmt ";" ] [ "to" "end" "do" stmt ";" ]`
fn actions(alloc: Global, m: &mut Marker<'_>, depth: u32, room: u32)
    requires { depth + room ≤ 100 }
    ensures { Walked room style.actions grammar.actions depth m.old m.new }
{
    if m.reader.sees_word(word::TO) {
        return some_actions(alloc, m, depth, room);
    }
}

/// `modblock`
fn block(alloc: Global, m: &mut Marker<'_>, depth: u32, room: u32)
    requires { depth + room ≤ 100 }
    ensures { Walked room style.block grammar.block depth m.old m.new }
{
    let first = m.marks.len();
    imports(alloc, m, depth, room);
    parts(alloc, m, depth, room);
    actions(alloc, m, depth, room);
    m.new_line(word::END, depth);
    m.start(first);
}

/// `"program" id [ "(" ids ")" ] ";" imports parts compound`
fn program(alloc: Global, m: &mut Marker<'_>, depth: u32, room: u32)
    requires { depth + room ≤ 100 }
    ensures { Walked room style.program grammar.program depth m.old m.new }
{
    m.word(word::PROGRAM, depth);
    name(alloc, m, depth, room);
    parameters(alloc, m, depth, room);
    m.symbol(symbol::SEMICOLON, depth);
    imports(alloc, m, depth, room);
    parts(alloc, m, depth, room);
    compound(alloc, m, depth, room);
}

/// `"interface" ..`
fn interface_rest(alloc: Global, m: &mut Marker<'_>, depth: u32, room: u32)
    requires { depth + room ≤ 100 }
    ensures { Walked room (plain <* plain & style.heading_rest)
        grammar.interface_rest depth m.old m.new }
{
    interface(m, depth, room);
    heading_rest(alloc, m, depth, room);
}

/// `"implementation" ";" modblock`
fn implementation_rest(alloc: Global, m: &mut Marker<'_>, depth: u32, room: u32)
    requires { depth + room ≤ 100 }
    ensures { Walked room (plain <* plain <* plain & style.block)
        grammar.implementation_rest depth m.old m.new }
{
    implementation(m, depth, room);
    m.symbol(symbol::SEMICOLON, depth);
    block(alloc, m, depth, room);
}

/// A heading and `";" modblock`.
fn module_rest(alloc: Global, m: &mut Marker<'_>, depth: u32, room: u32)
    requires { depth + room ≤ 100 }
    ensures { Walked room (plain & style.heading_rest <* plain & style.block)
        grammar.module_rest depth m.old m.new }
{
    heading_rest(alloc, m, depth, room);
    m.symbol(symbol::SEMICOLON, depth);
    block(alloc, m, depth, room);
}

/// What follows the name of a module.
fn any_rest(alloc: Global, m: &mut Marker<'_>, depth: u32, room: u32)
    requires { depth + room ≤ 100 }
    ensures { Walked room (choice (plain <* plain & style.heading_rest) (choice
        (plain <* plain <* plain & style.block) (plain & style.heading_rest <* plain & style.block)))
        (either (Interface ∷ []) grammar.interface_rest
        (either (Implementation ∷ []) grammar.implementation_rest grammar.module_rest)) depth m.old m.new }
{
    if m.reader.sees_interface() {
        return interface_rest(alloc, m, depth, room);
    }
    if m.reader.sees_implementation() {
        return implementation_rest(alloc, m, depth, room);
    }
    module_rest(alloc, m, depth, room);
}

/// `"module" id ( .. )`
fn module_component(alloc: Global, m: &mut Marker<'_>, depth: u32, room: u32)
    requires { depth + room ≤ 100 }
    ensures { Walked room style.module_style grammar.module_component depth m.old m.new }
{
    m.word(word::MODULE, depth);
    name(alloc, m, depth, room);
    any_rest(alloc, m, depth, room);
}

/// `program | module`
fn unit(alloc: Global, m: &mut Marker<'_>, depth: u32, room: u32)
    requires { depth + room ≤ 100 }
    ensures { Walked room (choice (plain & style.program) style.module_style)
        grammar.unit depth m.old m.new }
{
    if m.reader.sees_word(word::PROGRAM) {
        return program(alloc, m, depth, room);
    }
    module_component(alloc, m, depth, room)
}

/// `component = program "." | module "."`
fn component(alloc: Global, m: &mut Marker<'_>, depth: u32, room: u32)
    requires { depth + room ≤ 100 }
    ensures { Walked room style.component grammar.component depth m.old m.new }
{
    let first = m.marks.len();
    unit(alloc, m, depth, room);
    m.symbol(symbol::PERIOD, depth);
    m.start(first);
}

/// `component { component }`
fn components(alloc: Global, m: &mut Marker<'_>, depth: u32, room: u32)
    requires { depth + room ≤ 100 }
    ensures { Walked room style.components grammar.components depth m.old m.new }
{
    component(alloc, m, depth, room);
    for _turn in 0..m.reader.left() {
        if !m.reader.begins_component() {
            return;
        }
        component(alloc, m, depth, room);
    }
}

/// What ended a walk that only want of memory can end.
fn failure(stop: Stop) -> AllocError
    requires { stop ≡ Stop.NoMemory }
{
    match stop {
        Stop::NoMemory => AllocError,
        Stop::Syntax => unreachable!(),
        Stop::Nested => unreachable!(),
    }
}

/// The marks of the tokens of a text of the grammar, one for each. Only memory can be wanting.
pub fn marks(alloc: Global, tokens: &[Token]) -> Result<Vec<Mark>, AllocError>
    requires { (list : List Component) × Grammar MAX_NESTING tokens.now list }
    ensures { IfOk result (λ found. found.items ≡ text_marks MAX_NESTING tokens.now) }
{
    let mut m = Marker::new(alloc, tokens);
    components(alloc, &mut m, 0, MAX_NESTING);
    match m.stop {
        None => Ok(m.marks),
        Some(stop) => Err(failure(stop)),
    }
}
