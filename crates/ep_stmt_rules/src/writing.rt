//! `write` and `writeln`.

ghost use Rattle.std.specs.Prelude.{◌≡◌, IfOk, None, map};
ghost use Rattle.std.specs.Option.{option_copied, option_map};
ghost use Rattle.ep_built.specs.Built.{expression_unbuilt, first_if, first_in, written_unbuilt, written_value_unbuilt};
ghost use Rattle.ep_tree.specs.Shapes.{as_identifier};
ghost use Rattle.ep_typed.specs.Viewed.{expr_of, item_of, stmt_of};
ghost use Rattle.ep_check_expr.specs.Expressions.{given, judged};
ghost use Rattle.ep_rules.specs.Judgements.{Accepts, when_accepted};
ghost use Rattle.ep_stmt_rules.specs.Answers.{AnswersForm, items_of, shown_of};
ghost use Rattle.ep_stmt_rules.specs.Statements.{item_form, item_judged, items_judged, one_after, printed, shown, width_judged, written};

use ep_base::{Boxed, Line, List, Name, NoMemory};
use ep_check_expr::{typed_expression, written_expression};
use ep_rules::Refusal;
use ep_scope::{Host, Kind, View, rule};
use ep_tree::{Argument, Expression, Factor};
use ep_typed::{StandardFile, TypedExpr, TypedStmt, WriteItem, WriteItems};
use ep_values::Print;
use std::alloc::Global;

/// How values of this kind are printed.
fn printed(kind: Kind) -> Result<Print, Refusal>
    ensures { AnswersForm (λ how. how) result (printed kind) }
{
    match kind {
        Kind::Ordinal(Host::Integer) => Ok(Print::Integer),
        Kind::Ordinal(Host::Char) => Ok(Print::Char),
        Kind::Ordinal(Host::Boolean) => Ok(Print::Boolean),
        Kind::Ordinal(Host::Enumeration(_)) => Err(Refusal::Rule(rule::WRITTEN_TYPE)),
        Kind::Structured(_) => Err(Refusal::Rule(rule::WRITTEN_TYPE)),
        Kind::Set(_) => Err(Refusal::Rule(rule::WRITTEN_TYPE)),
        Kind::EmptySet => Err(Refusal::Rule(rule::WRITTEN_TYPE)),
        Kind::Text => Ok(Print::Text),
        Kind::File => Err(Refusal::Rule(rule::WRITTEN_TYPE)),
    }
}

/// What is written for a parameter, where it is built.
fn item_form(
    print: Print,
    value: Option<Boxed<TypedExpr>>,
    width: Option<Option<Boxed<TypedExpr>>>,
) -> Option<WriteItem>
    ensures { option_map item_of result
        ≡ item_form print (option_map expr_of value) (option_map (option_map expr_of) width) }
{
    let value = value?;
    let width = match width {
        None => None,
        Some(None) => return None,
        Some(Some(width)) => Some(width),
    };
    Some(WriteItem {
        print,
        value,
        width,
    })
}

/// The list with one more at the end, where all are built.
fn added<T: Drop>(list: Option<List<T>>, one: Option<T>) -> Result<Option<List<T>>, NoMemory>
    ensures { IfOk result (λ now. now ≡ one_after list one) }
{
    let Some(mut list) = list else {
        return Ok(None);
    };
    let Some(one) = one else {
        return Ok(None);
    };
    list.push(one)?;
    Ok(Some(list))
}

/// The name that an expression is, where it is nothing more.
pub fn identifier(e: &Expression) -> Option<&Name>
    ensures { option_copied result ≡ as_identifier e.now }
{
    if e.right.is_some() || e.left.sign.is_some() {
        return None;
    }
    if !e.left.more.items().is_empty() || !e.left.first.more.items().is_empty() {
        return None;
    }
    match e.left.first.first.get() {
        Factor::Access(access) if access.selectors.items().is_empty() => Some(&access.name),
        _ => None,
    }
}

/// These parameters are written to a file.
pub fn write_to(
    alloc: Global,
    scopes: &View<'_>,
    file: StandardFile,
    line: Line,
    ends_line: bool,
    arguments: &[Argument],
) -> Result<Option<Boxed<TypedStmt>>, Refusal>
    requires { first_in (map written_unbuilt arguments.now) ≡ None }
    ensures { AnswersForm (option_map stmt_of) result
        (written file line ends_line (map (given scopes.now) arguments.now)) }
{
    if !ends_line && arguments.is_empty() {
        return Err(Refusal::Rule(rule::ARGUMENTS));
    }
    let items = items(alloc, scopes, arguments)?;
    match (file, items) {
        (StandardFile::Output, Some(items)) => {
            let form = TypedStmt::Write(line, items, ends_line);
            Ok(Some(Boxed::new(alloc, form)?))
        }
        _ => Ok(None),
    }
}

/// What is written for parameters, where all are built.
fn items(
    alloc: Global,
    scopes: &View<'_>,
    arguments: &[Argument],
) -> Result<Option<WriteItems>, Refusal>
    requires { first_in (map written_unbuilt arguments.now) ≡ None }
    ensures { AnswersForm (option_map items_of) result
        (items_judged (map (given scopes.now) arguments.now)) }
{
    let mut items = Some(List::new(alloc));
    for argument in arguments {
        items = add_item(alloc, scopes, items, argument)?;
    }
    Ok(items)
}

/// The items with what is written for a parameter more, where all are built.
fn add_item(
    alloc: Global,
    scopes: &View<'_>,
    items: Option<WriteItems>,
    argument: &Argument,
) -> Result<Option<WriteItems>, Refusal>
    requires { written_unbuilt argument.now ≡ None }
    ensures { AnswersForm (option_map items_of) result
        (when_accepted (λ item. Accepts (one_after (option_map items_of items) item))
        (item_judged (given scopes.now argument.now))) }
{
    let item = item(alloc, scopes, argument)?;
    Ok(added(items, item)?)
}

/// What is written for a parameter, where it is built.
fn item(alloc: Global, scopes: &View<'_>, argument: &Argument) -> Result<Option<WriteItem>, Refusal>
    requires { written_unbuilt argument.now ≡ None }
    ensures { AnswersForm (option_map item_of) result (item_judged (given scopes.now argument.now)) }
{
    let (print, value) = shown(alloc, scopes, argument.value.get())?;
    let width = width(alloc, scopes, &argument.width)?;
    Ok(item_form(print, value, width))
}

/// How a value is printed, and its form where it is built.
fn shown(
    alloc: Global,
    scopes: &View<'_>,
    value: &Expression,
) -> Result<(Print, Option<Boxed<TypedExpr>>), Refusal>
    requires { written_value_unbuilt value.now ≡ None }
    ensures { AnswersForm shown_of result (when_accepted shown (judged scopes.now value.now)) }
{
    let value = written_expression(alloc, value, scopes)?;
    let print = printed(value.kind)?;
    Ok((print, value.into_form()))
}

/// The width of a parameter, where it has one.
fn width(
    alloc: Global,
    scopes: &View<'_>,
    width: &Option<Boxed<Expression>>,
) -> Result<Option<Option<Boxed<TypedExpr>>>, Refusal>
    requires { first_if (option_map expression_unbuilt width.now) ≡ None }
    ensures { AnswersForm (option_map (option_map expr_of)) result
        (width_judged (option_map (judged scopes.now) width.now)) }
{
    let Some(width) = width else {
        return Ok(None);
    };
    let value = typed_expression(alloc, width.get(), scopes)?;
    match value.kind {
        Kind::Ordinal(Host::Integer) => Ok(Some(value.into_form())),
        _ => Err(Refusal::Rule(rule::WIDTH)),
    }
}
