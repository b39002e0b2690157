//! The code of `write` and `writeln`.

ghost use Rattle.std.specs.Prelude.{◌≡◌, [], ◌∷◌, OnOk, false, map};
ghost use Rattle.ep_typed.specs.Trees.{Plain, Wide};
ghost use Rattle.ep_typed.specs.Viewed.{expr_of, item_of};
ghost use Rattle.ep_gen_code.specs.Instructions.{bare};
ghost use Rattle.ep_gen_code.specs.Growth.{Grows};
ghost use Rattle.ep_gen_unit.specs.StmtCode.{output_code, plain_code, before_width, wide_code, line_end_code};
ghost use Rattle.ep_gen_unit.specs.StmtGrowth.{AppendsItem, AppendsItems};

use ep_base::NoMemory;
use ep_gen_code::{Code, emit};
use ep_gen_expr::{expression_code, standard_code};
use ep_object::op;
use ep_typed::{StandardFile, TypedExpr, WriteItem};
use ep_values::Print;
use std::alloc::Global;

/// The char that ends a line.
const LINE_END: i64 = 10;

/// How `Form` makes an integer, a Boolean and a text.
const FORM_INTEGER: i64 = 0;

const FORM_BOOLEAN: i64 = 1;

const FORM_TEXT: i64 = 2;

/// Appends the code that writes items one after another, and then the line end where there is one.
#[tactic(auto, using(crate::proofs::ItemForms::items_end))]
pub fn items_code(
    alloc: Global,
    items: &[WriteItem],
    ends_line: bool,
    code: &mut Code,
) -> Result<(), NoMemory>
    ensures { OnOk result (AppendsItems code.old code.new (map item_of items.now) ends_line) }
{
    each_code(alloc, items, code)?;
    if ends_line { line_end(code) } else { Ok(()) }
}

/// Appends the code that writes items one after another.
fn each_code(alloc: Global, items: &[WriteItem], code: &mut Code) -> Result<(), NoMemory>
    ensures { OnOk result (AppendsItems code.old code.new (map item_of items.now) false) }
{
    for item in items {
        item_code(alloc, item, code)?;
    }
    Ok(())
}

/// Appends the code that ends the line.
fn line_end(code: &mut Code) -> Result<(), NoMemory>
    ensures { OnOk result (Grows code.old code.new (line_end_code code.old.line)) }
{
    output_place(code)?;
    emit(code, op::PUSH, LINE_END, 0)?;
    emit(code, op::CHARS, 0, 0)?;
    emit(code, op::PUT, 0, 0)
}

/// Appends the place of `output`.
fn output_place(code: &mut Code) -> Result<(), NoMemory>
    ensures { OnOk result (Grows code.old code.new (output_code code.old.line ∷ [])) }
{
    standard_code(StandardFile::Output, code)
}

/// Appends the code that writes an item.
fn item_code(alloc: Global, item: &WriteItem, code: &mut Code) -> Result<(), NoMemory>
    ensures { OnOk result (AppendsItem code.old code.new (item_of item.now)) }
{
    match &item.width {
        None => plain_item(alloc, item.print, item.value.get(), code),
        Some(width) => wide_item(alloc, item.print, item.value.get(), width.get(), code),
    }
}

/// Appends the code that writes an item without a width.
fn plain_item(
    alloc: Global,
    print: Print,
    value: &TypedExpr,
    code: &mut Code,
) -> Result<(), NoMemory>
    ensures { OnOk result (AppendsItem code.old code.new (Plain print (expr_of value.now))) }
{
    output_place(code)?;
    expression_code(alloc, value, code)?;
    apply_plain(print, code)?;
    emit(code, op::PUT, 0, 0)
}

/// Appends the code that writes an item with a width.
fn wide_item(
    alloc: Global,
    print: Print,
    value: &TypedExpr,
    width: &TypedExpr,
    code: &mut Code,
) -> Result<(), NoMemory>
    ensures { OnOk result (AppendsItem code.old code.new (Wide print (expr_of value.now) (expr_of width.now))) }
{
    output_place(code)?;
    expression_code(alloc, value, code)?;
    apply_before_width(print, code)?;
    expression_code(alloc, width, code)?;
    apply_wide(print, code)?;
    emit(code, op::PUT, 0, 0)
}

/// Appends what makes a value a text. A text stays as it is.
fn apply_plain(print: Print, code: &mut Code) -> Result<(), NoMemory>
    ensures { OnOk result (Grows code.old code.new (plain_code code.old.line print)) }
{
    match print {
        Print::Integer => emit(code, op::FORM, FORM_INTEGER, 0),
        Print::Char => emit(code, op::CHARS, 0, 0),
        Print::Boolean => emit(code, op::FORM, FORM_BOOLEAN, 0),
        Print::Text => Ok(()),
    }
}

/// Appends what makes a char a text, before its width. Other values stay as they are.
fn apply_before_width(print: Print, code: &mut Code) -> Result<(), NoMemory>
    ensures { OnOk result (Grows code.old code.new (before_width code.old.line print)) }
{
    match print {
        Print::Char => emit(code, op::CHARS, 0, 0),
        Print::Integer | Print::Boolean | Print::Text => Ok(()),
    }
}

/// Appends what makes a value a text of a width.
fn apply_wide(print: Print, code: &mut Code) -> Result<(), NoMemory>
    ensures { OnOk result (Grows code.old code.new (wide_code code.old.line print ∷ [])) }
{
    match print {
        Print::Integer => emit(code, op::FORM, FORM_INTEGER, 1),
        Print::Boolean => emit(code, op::FORM, FORM_BOOLEAN, 1),
        Print::Char | Print::Text => emit(code, op::FORM, FORM_TEXT, 1),
    }
}
