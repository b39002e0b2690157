//! The marks of type denoters.

ghost use Rattle.std.specs.Prelude.{◌+◌, ◌≤◌};
ghost use Rattle.ep_grammar.specs.Descriptions.{field_lists, inside, plains};
ghost use Rattle.ep_grammar.specs.Types as grammar;
ghost use Rattle.ep_marks.specs.Productions as style;
ghost use Rattle.ep_marks.specs.Styles.{choice, closed, level, optional, plain, separated, shapes, within};
ghost use Rattle.ep_marks.specs.Styles.{◌&◌, ◌<*◌};
ghost use Rattle.ep_marker.specs.Marking.{SectionsWalked, Walked};

use crate::leaves::{core, flag, initial, labels, names, optional_semicolon, variant_selector};
use crate::marker::Marker;
use ep_grammar::Stop;
use ep_token::{symbol, word};
use std::alloc::Global;

/// `plain`, one level deeper.
#[cycle(types)]
fn inner_plain(alloc: Global, m: &mut Marker<'_>, depth: u32, room: u32)
    requires { depth + room ≤ 101 }
    ensures { Walked room style.deeper (inside plains) depth m.old m.new }
{
    if room == 0 {
        m.halt(Stop::Nested);
        return;
    }
    plain(alloc, m, depth, room - 1);
}

/// `fields` of a record or of a variant, one level deeper.
#[cycle(types)]
fn inner_field_list(alloc: Global, m: &mut Marker<'_>, depth: u32, room: u32, in_record: bool)
    requires { depth + room ≤ 101 }
    ensures { Walked room (within in_record) (inside field_lists) depth m.old m.new }
{
    if room == 0 {
        m.halt(Stop::Nested);
        return;
    }
    fields(alloc, m, depth, room - 1, in_record);
}

/// `type = plain [ "value" cvalue ]`
#[cycle(types)]
pub(crate) fn type_denoter(alloc: Global, m: &mut Marker<'_>, depth: u32, room: u32)
    requires { depth + room ≤ 101 }
    ensures { Walked room style.type_denoter grammar.type_denoter depth m.old m.new }
{
    inner_plain(alloc, m, depth, room);
    initial(alloc, m, depth, room);
}

/// `plain { "," plain }`
#[cycle(types)]
fn inner_plains(alloc: Global, m: &mut Marker<'_>, depth: u32, room: u32)
    requires { depth + room ≤ 100 }
    ensures { Walked room (separated style.deeper) grammar.inner_plains depth m.old m.new }
{
    inner_plain(alloc, m, depth, room);
    for _turn in 0..m.reader.left() {
        if !m.reader.sees_symbol(symbol::COMMA) {
            return;
        }
        m.symbol(symbol::COMMA, depth);
        inner_plain(alloc, m, depth, room);
    }
}

/// `"array" "[" plain { "," plain } "]" "of" plain`
#[cycle(types)]
fn array(alloc: Global, m: &mut Marker<'_>, depth: u32, room: u32)
    requires { depth + room ≤ 100 }
    ensures { Walked room style.array grammar.array depth m.old m.new }
{
    m.word(word::ARRAY, depth);
    m.symbol(symbol::LEFT_BRACKET, depth);
    inner_plains(alloc, m, depth, room);
    m.symbol(symbol::RIGHT_BRACKET, depth);
    m.word(word::OF, depth);
    inner_plain(alloc, m, depth, room);
}

/// `"record" fields "end"`
#[cycle(types)]
fn record_structure(alloc: Global, m: &mut Marker<'_>, depth: u32, room: u32)
    requires { depth + room ≤ 100 }
    ensures { Walked room style.record_structure grammar.record_structure depth m.old m.new }
{
    m.word(word::RECORD, depth);
    inner_field_list(alloc, m, depth + 1, room, true);
    m.new_line(word::END, depth);
}

/// `"set" "of" plain`
#[cycle(types)]
fn set_structure(alloc: Global, m: &mut Marker<'_>, depth: u32, room: u32)
    requires { depth + room ≤ 100 }
    ensures { Walked room style.set_structure grammar.set_structure depth m.old m.new }
{
    m.word(word::SET, depth);
    m.word(word::OF, depth);
    inner_plain(alloc, m, depth, room);
}

/// `struct`
#[cycle(types)]
fn structure(alloc: Global, m: &mut Marker<'_>, depth: u32, room: u32)
    requires { depth + room ≤ 100 }
    ensures { Walked room (choice style.array (choice style.record_structure style.set_structure))
        grammar.structure depth m.old m.new }
{
    if m.reader.sees_word(word::ARRAY) {
        return array(alloc, m, depth, room);
    }
    if m.reader.sees_word(word::RECORD) {
        return record_structure(alloc, m, depth, room);
    }
    set_structure(alloc, m, depth, room);
}

/// `[ "packed" ] struct`
#[cycle(types)]
fn structured(alloc: Global, m: &mut Marker<'_>, depth: u32, room: u32)
    requires { depth + room ≤ 100 }
    ensures { Walked room style.structured grammar.structured depth m.old m.new }
{
    m.open(room);
    flag(m, word::PACKED, depth, room);
    structure(alloc, m, depth, room);
}

/// `plain = [ "bindable" ] core`
#[cycle(types)]
fn plain(alloc: Global, m: &mut Marker<'_>, depth: u32, room: u32)
    requires { depth + room ≤ 100 }
    ensures { Walked room style.plain_type grammar.plain depth m.old m.new }
{
    flag(m, word::BINDABLE, depth, room);
    if m.reader.begins_structure() {
        structured(alloc, m, depth, room);
        return;
    }
    core(alloc, m, depth, room);
}

/// `ids ":" type`
#[cycle(types)]
fn section(alloc: Global, m: &mut Marker<'_>, depth: u32, room: u32)
    requires { depth + room ≤ 100 }
    ensures { Walked room (level (plain & plain & plain <* plain & style.type_denoter))
        grammar.field_section depth m.old m.new }
{
    m.open(room);
    names(alloc, m, depth, room);
    m.symbol(symbol::COLON, depth);
    type_denoter(alloc, m, depth, room);
}

/// `fsec = ids ":" type`, of a record or of a variant.
#[cycle(types)]
fn field_section(alloc: Global, m: &mut Marker<'_>, depth: u32, room: u32, in_record: bool)
    requires { depth + room ≤ 100 }
    ensures { Walked room (style.field_section in_record) grammar.field_section depth m.old m.new }
{
    let first = m.marks.len();
    section(alloc, m, depth, room);
    if !in_record {
        return;
    }
    m.start(first);
}

/// `fsec { ";" fsec } [ ";" ]`, and whether a semicolon follows the last.
#[cycle(types)]
fn sections(alloc: Global, m: &mut Marker<'_>, depth: u32, room: u32, in_record: bool) -> bool
    requires { depth + room ≤ 100 }
    ensures { SectionsWalked room in_record depth result m.old m.new }
{
    field_section(alloc, m, depth, room, in_record);
    for _turn in 0..m.reader.left() {
        if !m.reader.sees_symbol(symbol::SEMICOLON) {
            return false;
        }
        m.symbol(symbol::SEMICOLON, depth);
        if !m.reader.sees_name() {
            return true;
        }
        field_section(alloc, m, depth, room, in_record);
    }
    false
}

/// `"(" fields ")"`
#[cycle(types)]
fn inner_fields(alloc: Global, m: &mut Marker<'_>, depth: u32, room: u32)
    requires { depth + room ≤ 100 }
    ensures { Walked room style.inner_fields grammar.inner_fields depth m.old m.new }
{
    m.symbol(symbol::LEFT_PARENTHESIS, depth);
    inner_field_list(alloc, m, depth + 1, room, false);
    m.symbol(symbol::RIGHT_PARENTHESIS, depth);
}

/// `variant = labels ":" "(" fields ")"`
#[cycle(types)]
fn variant(alloc: Global, m: &mut Marker<'_>, depth: u32, room: u32)
    requires { depth + room ≤ 100 }
    ensures { Walked room style.variant grammar.variant depth m.old m.new }
{
    let first = m.marks.len();
    m.open(room);
    labels(alloc, m, depth, room);
    m.symbol(symbol::COLON, depth);
    inner_fields(alloc, m, depth, room);
    m.start(first);
}

/// `variant { ";" variant } [ ";" ]`
#[cycle(types)]
fn variants(alloc: Global, m: &mut Marker<'_>, depth: u32, room: u32)
    requires { depth + room ≤ 100 }
    ensures { Walked room (closed style.variant) grammar.variants depth m.old m.new }
{
    variant(alloc, m, depth, room);
    for _turn in 0..m.reader.left() {
        if !m.reader.sees_symbol(symbol::SEMICOLON) {
            return;
        }
        m.symbol(symbol::SEMICOLON, depth);
        if !m.reader.begins_expression() {
            return;
        }
        variant(alloc, m, depth, room);
    }
}

/// `"otherwise" "(" fields ")" [ ";" ]`
#[cycle(types)]
fn other_fields(alloc: Global, m: &mut Marker<'_>, depth: u32, room: u32)
    requires { depth + room ≤ 100 }
    ensures { Walked room style.other_fields grammar.other_fields depth m.old m.new }
{
    m.open(room);
    m.new_line(word::OTHERWISE, depth);
    inner_fields(alloc, m, depth, room);
    optional_semicolon(m, depth, room);
}

/// `"case" selector "of" variants [ .. ]`
#[cycle(types)]
fn selected(alloc: Global, m: &mut Marker<'_>, depth: u32, room: u32)
    requires { depth + room ≤ 100 }
    ensures { Walked room (level (plain & plain <* plain & plain <* plain & closed style.variant
        & optional style.other_fields)) grammar.variant_part depth m.old m.new }
{
    m.open(room);
    m.word(word::CASE, depth);
    variant_selector(alloc, m, depth, room);
    m.word(word::OF, depth);
    variants(alloc, m, depth, room);
    if !m.reader.sees_word(word::OTHERWISE) {
        return;
    }
    other_fields(alloc, m, depth, room);
}

/// `vpart`, of a record or of a variant.
#[cycle(types)]
fn variant_part(alloc: Global, m: &mut Marker<'_>, depth: u32, room: u32, in_record: bool)
    requires { depth + room ≤ 100 }
    ensures { Walked room (style.variant_part in_record) grammar.variant_part depth m.old m.new }
{
    let first = m.marks.len();
    selected(alloc, m, depth, room);
    if !in_record {
        return;
    }
    m.start(first);
}

/// `fsec { ";" fsec } [ ";" [ vpart ] ]`
#[cycle(types)]
fn section_fields(alloc: Global, m: &mut Marker<'_>, depth: u32, room: u32, in_record: bool)
    requires { depth + room ≤ 100 }
    ensures { Walked room (plain & plain & shapes (style.sections in_record)
        (plain & style.variant_part in_record) plain) grammar.section_fields depth m.old m.new }
{
    let ended = sections(alloc, m, depth, room, in_record);
    if !ended {
        return;
    }
    if !m.reader.sees_word(word::CASE) {
        return;
    }
    variant_part(alloc, m, depth, room, in_record);
}

/// `fields`
#[cycle(types)]
fn fields(alloc: Global, m: &mut Marker<'_>, depth: u32, room: u32, in_record: bool)
    requires { depth + room ≤ 100 }
    ensures { Walked room (style.fields in_record) grammar.fields depth m.old m.new }
{
    if m.reader.sees_name() {
        section_fields(alloc, m, depth, room, in_record)
    } else if m.reader.sees_word(word::CASE) {
        variant_part(alloc, m, depth, room, in_record)
    } else {}
}
