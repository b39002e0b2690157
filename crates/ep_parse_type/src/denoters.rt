//! Type denoters.

ghost use Rattle.ep_token.specs.declared.word.TheConstants as word;
ghost use Rattle.ep_grammar.specs.Descriptions.{plains, field_lists, optional};
ghost use Rattle.ep_grammar.specs.Expressions.{of_expression, on_word};
ghost use Rattle.ep_grammar.specs.Types.{array, core, enumeration, field_section, fields, initial, inner_fields};
ghost use Rattle.ep_grammar.specs.Types.{inner_plains, named_or_range, names, names_in_parentheses, other_fields};
ghost use Rattle.ep_grammar.specs.Types.{plain, pointer, range_end, record_structure, restricted, section_fields};
ghost use Rattle.ep_grammar.specs.Types.{sections, sections_end, set_structure, structure, structured, type_denoter};
ghost use Rattle.ep_grammar.specs.Types.{type_of, variant, variant_fields, variant_part, variant_selector, variants};
ghost use Rattle.ep_grammar.specs.Classes.{names as name_tokens};
ghost use Rattle.ep_grammar.specs.Reading.{Reads, applied, read, read_inside, read_token};
ghost use Rattle.ep_grammar.specs.Rules.{inside_at};

use ep_base::{Boxed, Line, List, Name, Names};
use ep_grammar::Stop;
use ep_parse_expr::{component_value, expression, labels, qualified_name};
use ep_reader::{Reader, closed, level, separated};
use ep_token::{symbol, word};
use ep_tree::{
    ComponentValue, Core, Expression, FieldSection, Fields, Plain, Structure, TypeDenoter, Variant,
    VariantPart, VariantSelector,
};
use std::alloc::Global;

/// `ids = id { "," id }`
pub fn names(alloc: Global, reader: &mut Reader<'_>, room: u32) -> Result<Names, Stop>
    ensures { Reads (read (inside_at room) names reader.old) result reader.new }
{
    separated(
        alloc,
        reader,
        symbol::COMMA,
        |reader: &mut Reader<'_>| -> Result<Name, Stop>
            ensures { Reads (read_token name_tokens reader.entry.now) result reader.exit.now }
        { reader.name(alloc) },
    )
}

/// `"(" ids ")"`
#[tactic(auto, unfolding(ep_grammar::specs::Types::names_in_parentheses))]
pub fn names_in_parentheses(
    alloc: Global,
    reader: &mut Reader<'_>,
    room: u32,
) -> Result<Names, Stop>
    ensures { Reads (read (inside_at room) names_in_parentheses reader.old) result reader.new }
{
    reader.symbol(symbol::LEFT_PARENTHESIS)?;
    let found = names(alloc, reader, room)?;
    reader.symbol(symbol::RIGHT_PARENTHESIS)?;
    Ok(found)
}

/// `[ "value" cvalue ]`
#[tactic(auto, unfolding(ep_grammar::specs::Types::initial))]
pub fn initial(
    alloc: Global,
    reader: &mut Reader<'_>,
    room: u32,
) -> Result<Option<ComponentValue>, Stop>
    ensures { Reads (read (inside_at room) initial reader.old) result reader.new }
{
    if !reader.sees_word(word::VALUE) {
        return Ok(None);
    }
    reader.keyword(word::VALUE)?;
    let value = component_value(alloc, reader, room)?;
    Ok(Some(value))
}

/// `plain`, one level deeper.
#[cycle(types)]
fn inner_plain(alloc: Global, reader: &mut Reader<'_>, room: u32) -> Result<Boxed<Plain>, Stop>
    ensures { Reads (read_inside (inside_at room) plains reader.old) result reader.new }
{
    let inner = level(room, true)?;
    plain(alloc, reader, inner)
}

/// `fields`, one level deeper.
#[cycle(types)]
fn inner_field_list(alloc: Global, reader: &mut Reader<'_>, room: u32) -> Result<Fields, Stop>
    ensures { Reads (read_inside (inside_at room) field_lists reader.old) result reader.new }
{
    let inner = level(room, true)?;
    fields(alloc, reader, inner)
}

/// `type = plain [ "value" cvalue ]`
#[cycle(types)]
#[tactic(auto, unfolding(ep_grammar::specs::Types::type_denoter))]
pub fn type_denoter(alloc: Global, reader: &mut Reader<'_>, room: u32) -> Result<TypeDenoter, Stop>
    ensures { Reads (read (inside_at room) type_denoter reader.old) result reader.new }
{
    let line = reader.line();
    let plain = inner_plain(alloc, reader, room)?;
    let initial = initial(alloc, reader, room)?;
    Ok(TypeDenoter {
        line,
        plain,
        initial,
    })
}

/// `"(" ids ")"`
#[tactic(auto, unfolding(ep_grammar::specs::Types::enumeration))]
fn enumeration(alloc: Global, reader: &mut Reader<'_>, room: u32) -> Result<Core, Stop>
    ensures { Reads (read (inside_at room) enumeration reader.old) result reader.new }
{
    let line = reader.line();
    let names = names_in_parentheses(alloc, reader, room)?;
    Ok(Core::Enumeration(line, names))
}

/// `"^" name`
#[tactic(auto, unfolding(ep_grammar::specs::Types::pointer))]
fn pointer(alloc: Global, reader: &mut Reader<'_>, room: u32) -> Result<Core, Stop>
    ensures { Reads (read (inside_at room) pointer reader.old) result reader.new }
{
    let line = reader.line();
    reader.symbol(symbol::CARET)?;
    let name = qualified_name(alloc, reader, room)?;
    Ok(Core::Pointer(line, name))
}

/// `"restricted" name`
#[tactic(auto, unfolding(ep_grammar::specs::Types::restricted))]
fn restricted(alloc: Global, reader: &mut Reader<'_>, room: u32) -> Result<Core, Stop>
    ensures { Reads (read (inside_at room) restricted reader.old) result reader.new }
{
    let line = reader.line();
    reader.keyword(word::RESTRICTED)?;
    let name = qualified_name(alloc, reader, room)?;
    Ok(Core::Restricted(line, name))
}

/// `"type" "of" name`
#[tactic(auto, unfolding(ep_grammar::specs::Types::type_of))]
fn type_of(alloc: Global, reader: &mut Reader<'_>, room: u32) -> Result<Core, Stop>
    ensures { Reads (read (inside_at room) type_of reader.old) result reader.new }
{
    let line = reader.line();
    reader.keyword(word::TYPE)?;
    reader.keyword(word::OF)?;
    let name = qualified_name(alloc, reader, room)?;
    Ok(Core::TypeOf(line, name))
}

/// `".." expr`, after the lower bound.
#[tactic(auto, unfolding(ep_grammar::specs::Types::range_end))]
fn range_end(
    alloc: Global,
    reader: &mut Reader<'_>,
    room: u32,
    low: Boxed<Expression>,
    line: Line,
) -> Result<Core, Stop>
    ensures { Reads (applied (λ r. r low line) (read (inside_at room) range_end reader.old)) result reader.new }
{
    reader.symbol(symbol::RANGE)?;
    let high = expression(alloc, reader, room)?;
    Ok(Core::Range(line, low, high))
}

/// `name [ "(" expr { "," expr } ")" ] | expr ".." expr`
#[tactic(auto, unfolding(ep_grammar::specs::Types::named_or_range))]
fn named_or_range(alloc: Global, reader: &mut Reader<'_>, room: u32) -> Result<Core, Stop>
    ensures { Reads (read (inside_at room) named_or_range reader.old) result reader.new }
{
    let line = reader.line();
    let low = expression(alloc, reader, room)?;
    if reader.sees_symbol(symbol::RANGE) {
        return range_end(alloc, reader, room, low, line);
    }
    let Some((name, arguments)) = low.into_inner().into_named(alloc)? else {
        return Err(Stop::Syntax);
    };
    Ok(Core::Named(line, name, arguments))
}

/// `plain { "," plain }`
#[cycle(types)]
fn inner_plains(alloc: Global, reader: &mut Reader<'_>, room: u32) -> Result<List<Plain>, Stop>
    ensures { Reads (read (inside_at room) inner_plains reader.old) result reader.new }
{
    separated(
        alloc,
        reader,
        symbol::COMMA,
        |reader: &mut Reader<'_>| -> Result<Plain, Stop>
            ensures { Reads (read_inside (inside_at room) plains reader.entry.now) result reader.exit.now }
        { Ok(inner_plain(alloc, reader, room)?.into_inner()) },
    )
}

/// `"array" "[" plain { "," plain } "]" "of" plain`
#[cycle(types)]
#[tactic(auto, unfolding(ep_grammar::specs::Types::array))]
fn array(alloc: Global, reader: &mut Reader<'_>, room: u32) -> Result<Structure, Stop>
    ensures { Reads (read (inside_at room) array reader.old) result reader.new }
{
    let line = reader.line();
    reader.keyword(word::ARRAY)?;
    reader.symbol(symbol::LEFT_BRACKET)?;
    let indexes = inner_plains(alloc, reader, room)?;
    reader.symbol(symbol::RIGHT_BRACKET)?;
    reader.keyword(word::OF)?;
    let component = inner_plain(alloc, reader, room)?;
    Ok(Structure::Array(line, indexes, component))
}

/// `"record" fields "end"`
#[cycle(types)]
#[tactic(auto, unfolding(ep_grammar::specs::Types::record_structure))]
fn record_structure(alloc: Global, reader: &mut Reader<'_>, room: u32) -> Result<Structure, Stop>
    ensures { Reads (read (inside_at room) record_structure reader.old) result reader.new }
{
    let line = reader.line();
    reader.keyword(word::RECORD)?;
    let fields = inner_field_list(alloc, reader, room)?;
    reader.keyword(word::END)?;
    Ok(Structure::Record(line, fields))
}

/// `"set" "of" plain`
#[cycle(types)]
#[tactic(auto, unfolding(ep_grammar::specs::Types::set_structure))]
fn set_structure(alloc: Global, reader: &mut Reader<'_>, room: u32) -> Result<Structure, Stop>
    ensures { Reads (read (inside_at room) set_structure reader.old) result reader.new }
{
    let line = reader.line();
    reader.keyword(word::SET)?;
    reader.keyword(word::OF)?;
    let base = inner_plain(alloc, reader, room)?;
    Ok(Structure::Set(line, base))
}

/// `struct`
#[cycle(types)]
#[tactic(auto, unfolding(ep_grammar::specs::Types::structure))]
fn structure(alloc: Global, reader: &mut Reader<'_>, room: u32) -> Result<Structure, Stop>
    ensures { Reads (read (inside_at room) structure reader.old) result reader.new }
{
    if reader.sees_word(word::ARRAY) {
        array(alloc, reader, room)
    } else if reader.sees_word(word::RECORD) {
        record_structure(alloc, reader, room)
    } else {
        set_structure(alloc, reader, room)
    }
}

/// `[ "packed" ] struct`
#[cycle(types)]
#[tactic(auto, unfolding(ep_grammar::specs::Types::structured))]
fn structured(alloc: Global, reader: &mut Reader<'_>, room: u32) -> Result<Core, Stop>
    ensures { Reads (read (inside_at room) structured reader.old) result reader.new }
{
    let _inner = level(room, reader.begins_structure())?;
    let line = reader.line();
    let packed = reader.takes_word(word::PACKED);
    let structure = structure(alloc, reader, room)?;
    Ok(Core::Structured(line, packed, structure))
}

/// `core`
#[cycle(types)]
#[tactic(auto, unfolding(ep_grammar::specs::Types::core))]
pub fn core(alloc: Global, reader: &mut Reader<'_>, room: u32) -> Result<Core, Stop>
    ensures { Reads (read (inside_at room) core reader.old) result reader.new }
{
    if reader.sees_symbol(symbol::LEFT_PARENTHESIS) {
        enumeration(alloc, reader, room)
    } else if reader.sees_symbol(symbol::CARET) {
        pointer(alloc, reader, room)
    } else if reader.begins_structure() {
        structured(alloc, reader, room)
    } else if reader.sees_word(word::RESTRICTED) {
        restricted(alloc, reader, room)
    } else if reader.sees_word(word::TYPE) {
        type_of(alloc, reader, room)
    } else {
        named_or_range(alloc, reader, room)
    }
}

/// `plain = [ "bindable" ] core`
#[cycle(types)]
#[tactic(auto, unfolding(ep_grammar::specs::Types::plain))]
fn plain(alloc: Global, reader: &mut Reader<'_>, room: u32) -> Result<Boxed<Plain>, Stop>
    ensures { Reads (read (inside_at room) plain reader.old) result reader.new }
{
    let line = reader.line();
    let bindable = reader.takes_word(word::BINDABLE);
    let core = core(alloc, reader, room)?;
    let plain = Plain {
        line,
        bindable,
        core,
    };
    Ok(Boxed::new(alloc, plain)?)
}

/// `fsec = ids ":" type`
#[cycle(types)]
#[tactic(auto, unfolding(ep_grammar::specs::Types::field_section))]
fn field_section(alloc: Global, reader: &mut Reader<'_>, room: u32) -> Result<FieldSection, Stop>
    ensures { Reads (read (inside_at room) field_section reader.old) result reader.new }
{
    let _inner = level(room, reader.sees_name())?;
    let line = reader.line();
    let names = names(alloc, reader, room)?;
    reader.symbol(symbol::COLON)?;
    let of = type_denoter(alloc, reader, room)?;
    Ok(FieldSection { line, names, of })
}

/// `id ":" name | id`
#[tactic(auto, unfolding(ep_grammar::specs::Types::variant_selector))]
pub fn variant_selector(
    alloc: Global,
    reader: &mut Reader<'_>,
    room: u32,
) -> Result<VariantSelector, Stop>
    ensures { Reads (read (inside_at room) variant_selector reader.old) result reader.new }
{
    let line = reader.line();
    let name = reader.name(alloc)?;
    if !reader.sees_symbol(symbol::COLON) {
        return Ok(VariantSelector::Discriminant(line, name));
    }
    reader.symbol(symbol::COLON)?;
    let of = qualified_name(alloc, reader, room)?;
    Ok(VariantSelector::Tag(line, name, of))
}

/// `"(" fields ")"`
#[cycle(types)]
#[tactic(auto, unfolding(ep_grammar::specs::Types::inner_fields))]
fn inner_fields(alloc: Global, reader: &mut Reader<'_>, room: u32) -> Result<Fields, Stop>
    ensures { Reads (read (inside_at room) inner_fields reader.old) result reader.new }
{
    reader.symbol(symbol::LEFT_PARENTHESIS)?;
    let fields = inner_field_list(alloc, reader, room)?;
    reader.symbol(symbol::RIGHT_PARENTHESIS)?;
    Ok(fields)
}

/// `variant = labels ":" "(" fields ")"`
#[cycle(types)]
#[tactic(auto, unfolding(ep_grammar::specs::Types::variant))]
fn variant(alloc: Global, reader: &mut Reader<'_>, room: u32) -> Result<Variant, Stop>
    ensures { Reads (read (inside_at room) variant reader.old) result reader.new }
{
    let _inner = level(room, reader.begins_expression())?;
    let line = reader.line();
    let labels = labels(alloc, reader, room)?;
    reader.symbol(symbol::COLON)?;
    let fields = inner_fields(alloc, reader, room)?;
    Ok(Variant {
        line,
        labels,
        fields,
    })
}

/// `variant { ";" variant } [ ";" ]`
#[cycle(types)]
#[tactic(auto, unfolding(ep_grammar::specs::Types::variants))]
fn variants(alloc: Global, reader: &mut Reader<'_>, room: u32) -> Result<List<Variant>, Stop>
    ensures { Reads (read (inside_at room) variants reader.old) result reader.new }
{
    let mut found = List::with_room(alloc, 1)?;
    found.push(variant(alloc, reader, room)?)?;
    closed(
        reader,
        found,
        |reader: &mut Reader<'_>| -> Result<Option<Variant>, Stop>
            ensures { Reads (read (inside_at room) (optional of_expression variant) reader.entry.now)
                result reader.exit.now }
        {
            if !reader.begins_expression() {
                return Ok(None);
            }
            Ok(Some(variant(alloc, reader, room)?))
        },
    )
}

/// `"otherwise" "(" fields ")" [ ";" ]`
#[cycle(types)]
#[tactic(auto, unfolding(ep_grammar::specs::Types::other_fields))]
fn other_fields(alloc: Global, reader: &mut Reader<'_>, room: u32) -> Result<Fields, Stop>
    ensures { Reads (read (inside_at room) other_fields reader.old) result reader.new }
{
    let _inner = level(room, reader.sees_word(word::OTHERWISE))?;
    reader.keyword(word::OTHERWISE)?;
    let fields = inner_fields(alloc, reader, room)?;
    if !reader.sees_symbol(symbol::SEMICOLON) {
        return Ok(fields);
    }
    reader.symbol(symbol::SEMICOLON)?;
    Ok(fields)
}

/// `[ "otherwise" "(" fields ")" [ ";" ] ]`
#[cycle(types)]
fn other_part(
    alloc: Global,
    reader: &mut Reader<'_>,
    room: u32,
) -> Result<Option<Boxed<Fields>>, Stop>
    ensures { Reads (read (inside_at room) (optional (on_word word.OTHERWISE) other_fields) reader.old)
        result reader.new }
{
    if !reader.sees_word(word::OTHERWISE) {
        return Ok(None);
    }
    let other = other_fields(alloc, reader, room)?;
    Ok(Some(Boxed::new(alloc, other)?))
}

/// `vpart = "case" selector "of" variant { ";" variant } [ [ ";" ] "otherwise" "(" fields ")" ]`
#[cycle(types)]
#[tactic(auto, unfolding(ep_grammar::specs::Types::variant_part))]
fn variant_part(alloc: Global, reader: &mut Reader<'_>, room: u32) -> Result<VariantPart, Stop>
    ensures { Reads (read (inside_at room) variant_part reader.old) result reader.new }
{
    let _inner = level(room, reader.sees_word(word::CASE))?;
    let line = reader.line();
    reader.keyword(word::CASE)?;
    let selector = variant_selector(alloc, reader, room)?;
    reader.keyword(word::OF)?;
    let variants = variants(alloc, reader, room)?;
    let otherwise = other_part(alloc, reader, room)?;
    Ok(VariantPart {
        line,
        selector,
        variants,
        otherwise,
    })
}

/// `fsec { ";" fsec } [ ";" ]`
#[cycle(types)]
#[tactic(auto, unfolding(ep_grammar::specs::Types::sections))]
fn sections(
    alloc: Global,
    reader: &mut Reader<'_>,
    room: u32,
) -> Result<(List<FieldSection>, bool), Stop>
    ensures { Reads (read (inside_at room) sections reader.old) result reader.new }
{
    let mut found = List::with_room(alloc, 1)?;
    found.push(field_section(alloc, reader, room)?)?;
    for _turn in 0..reader.left() {
        if !reader.sees_symbol(symbol::SEMICOLON) {
            return Ok((found, false));
        }
        reader.symbol(symbol::SEMICOLON)?;
        if !reader.sees_name() {
            return Ok((found, true));
        }
        found.push(field_section(alloc, reader, room)?)?;
    }
    Ok((found, false))
}

/// `vpart`, after sections and a semicolon.
#[cycle(types)]
#[tactic(auto, unfolding(ep_grammar::specs::Types::sections_end))]
fn sections_end(
    alloc: Global,
    reader: &mut Reader<'_>,
    room: u32,
    sections: List<FieldSection>,
    line: Line,
) -> Result<Fields, Stop>
    ensures { Reads (applied (λ r. r sections line) (read (inside_at room) sections_end reader.old))
        result reader.new }
{
    let variants = Boxed::new(alloc, variant_part(alloc, reader, room)?)?;
    Ok(Fields {
        line,
        sections,
        variants: Some(variants),
    })
}

/// `fsec { ";" fsec } [ ";" [ vpart ] ]`
#[cycle(types)]
#[tactic(auto, unfolding(ep_grammar::specs::Types::section_fields))]
fn section_fields(alloc: Global, reader: &mut Reader<'_>, room: u32) -> Result<Fields, Stop>
    ensures { Reads (read (inside_at room) section_fields reader.old) result reader.new }
{
    let line = reader.line();
    let (sections, ended) = sections(alloc, reader, room)?;
    if ended {
        if reader.sees_word(word::CASE) {
            return sections_end(alloc, reader, room, sections, line);
        }
    }
    Ok(Fields {
        line,
        sections,
        variants: None,
    })
}

/// `vpart`, without sections before it.
#[cycle(types)]
#[tactic(auto, unfolding(ep_grammar::specs::Types::variant_fields))]
fn variant_fields(alloc: Global, reader: &mut Reader<'_>, room: u32) -> Result<Fields, Stop>
    ensures { Reads (read (inside_at room) variant_fields reader.old) result reader.new }
{
    let line = reader.line();
    let variants = Boxed::new(alloc, variant_part(alloc, reader, room)?)?;
    Ok(Fields {
        line,
        sections: List::new(alloc),
        variants: Some(variants),
    })
}

/// `fields = [ ( fsec { ";" fsec } [ ";" vpart ] | vpart ) [ ";" ] ]`
#[cycle(types)]
#[tactic(auto, unfolding(ep_grammar::specs::Types::fields))]
fn fields(alloc: Global, reader: &mut Reader<'_>, room: u32) -> Result<Fields, Stop>
    ensures { Reads (read (inside_at room) fields reader.old) result reader.new }
{
    if reader.sees_name() {
        section_fields(alloc, reader, room)
    } else if reader.sees_word(word::CASE) {
        variant_fields(alloc, reader, room)
    } else {
        let line = reader.line();
        Ok(Fields {
            line,
            sections: List::new(alloc),
            variants: None,
        })
    }
}
