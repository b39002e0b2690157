//! Rows of items, each read by a closure.

ghost use Rattle.ep_grammar.specs.Classes.{Class};
ghost use Rattle.ep_grammar.specs.Expressions.{of_name};
ghost use Rattle.ep_grammar.specs.Reading.{Parser, Reads};
ghost use Rattle.ep_reader.specs.Rows.{ReadsBy, closed_by, many_by, optional_by, separated_by, some_by};

use crate::reader::Reader;
use ep_base::List;
use ep_grammar::Stop;
use ep_token::symbol;
use std::alloc::Global;

/// `item { symbol item }`
pub fn separated<T: Drop, F: Fn(&mut Reader<'_>) -> Result<T, Stop>>(
    alloc: Global,
    reader: &mut Reader<'_>,
    symbol: u8,
    item: F,
) -> Result<List<T>, Stop>
    requires { F.IsAlwaysCallable item }
    ensures { (p : Parser T) → ReadsBy F.Fn item p → Reads (separated_by symbol p reader.old) result reader.new }
{
    let mut found = List::with_room(alloc, 1)?;
    let first = item(reader)?;
    found.push(first)?;
    for _turn in 0..reader.left() {
        if !reader.sees_symbol(symbol) {
            return Ok(found);
        }
        reader.symbol(symbol)?;
        let next = item(reader)?;
        found.push(next)?;
    }
    Ok(found)
}

/// `item { item }`, of items that begin with a name.
pub fn one_or_more<T: Drop, F: Fn(&mut Reader<'_>) -> Result<T, Stop>>(
    alloc: Global,
    reader: &mut Reader<'_>,
    item: F,
) -> Result<List<T>, Stop>
    requires { F.IsAlwaysCallable item }
    ensures { (p : Parser T) → ReadsBy F.Fn item p → Reads (some_by of_name p reader.old) result reader.new }
{
    let mut found = List::with_room(alloc, 1)?;
    let first = item(reader)?;
    found.push(first)?;
    for _turn in 0..reader.left() {
        if !reader.sees_name() {
            return Ok(found);
        }
        let next = item(reader)?;
        found.push(next)?;
    }
    Ok(found)
}

/// `{ item }`, after the items that were found; the closure answers `None` where no item begins.
pub fn many<T: Drop, F: Fn(&mut Reader<'_>) -> Result<Option<T>, Stop>>(
    reader: &mut Reader<'_>,
    found: List<T>,
    item: F,
) -> Result<List<T>, Stop>
    requires { F.IsAlwaysCallable item }
    ensures { (cs : List Class) (p : Parser T) → ReadsBy F.Fn item (optional_by cs p)
        → Reads (many_by cs p found reader.old) result reader.new }
{
    let mut found = found;
    for _turn in 0..reader.left() {
        let Some(next) = item(reader)? else {
            return Ok(found);
        };
        found.push(next)?;
    }
    Ok(found)
}

/// `{ ";" item } [ ";" ]`, after the items that were found; the closure answers `None` where no item begins.
pub fn closed<T: Drop, F: Fn(&mut Reader<'_>) -> Result<Option<T>, Stop>>(
    reader: &mut Reader<'_>,
    found: List<T>,
    item: F,
) -> Result<List<T>, Stop>
    requires { F.IsAlwaysCallable item }
    ensures { (cs : List Class) (p : Parser T) → ReadsBy F.Fn item (optional_by cs p)
        → Reads (closed_by cs p found reader.old) result reader.new }
{
    let mut found = found;
    for _turn in 0..reader.left() {
        if !reader.sees_symbol(symbol::SEMICOLON) {
            return Ok(found);
        }
        reader.symbol(symbol::SEMICOLON)?;
        let Some(next) = item(reader)? else {
            return Ok(found);
        };
        found.push(next)?;
    }
    Ok(found)
}
