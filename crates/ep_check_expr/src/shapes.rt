//! Expressions that are one factor and nothing more, and accesses by what comes first behind their name.

ghost use Rattle.std.specs.Prelude.{◌≡◌};
ghost use Rattle.std.specs.Option.{option_copied, option_map};
ghost use Rattle.ep_tree.specs.Shapes.{as_identifier, bare};
ghost use Rattle.ep_check_expr.specs.StructuredValues.{label_name, single_label};
ghost use Rattle.ep_check_expr.specs.Shapes.{arguments_first, field_first, split_of};

use ep_base::Name;
use ep_tree::{Argument, Expression, Factor, Label, Selector};

/// The factor of an expression that is nothing more.
pub(crate) fn bare(e: &Expression) -> Option<&Factor>
    ensures { option_copied result ≡ bare e.now }
{
    if e.right.is_some() {
        return None;
    }
    let simple = &e.left;
    if simple.sign.is_some() || !simple.more.items().is_empty() {
        return None;
    }
    let term = &simple.first;
    if term.more.items().is_empty() {
        Some(term.first.get())
    } else {
        None
    }
}

/// The name that an expression is alone, if it is one.
fn identifier(e: &Expression) -> Option<&Name>
    ensures { option_copied result ≡ as_identifier e.now }
{
    match bare(e)? {
        Factor::Access(a) if a.selectors.items().is_empty() => Some(&a.name),
        _ => None,
    }
}

/// The name that a label is alone, if it is one.
pub(crate) fn label_name(l: &Label) -> Option<&Name>
    ensures { option_copied result ≡ label_name l.now }
{
    match &l.high {
        None => identifier(l.low.get()),
        Some(_) => None,
    }
}

/// The index of labels that are one index alone.
pub(crate) fn single_label(labels: &[Label]) -> Option<&Expression>
    ensures { option_copied result ≡ single_label labels.now }
{
    match labels {
        [label] => match &label.high {
            None => Some(label.low.get()),
            Some(_) => None,
        },
        _ => None,
    }
}

/// The arguments that come first, and the selectors behind them.
pub(crate) fn arguments_first(selectors: &[Selector]) -> Option<(&[Argument], &[Selector])>
    ensures { option_map split_of result ≡ arguments_first selectors.now }
{
    let (first, more) = selectors.split_first()?;
    match first {
        Selector::Arguments(_, arguments) => Some((arguments.items(), more)),
        _ => None,
    }
}

/// The name of a field that comes first, and the selectors behind it.
pub(crate) fn field_first(selectors: &[Selector]) -> Option<(&Name, &[Selector])>
    ensures { option_map split_of result ≡ field_first selectors.now }
{
    let (first, more) = selectors.split_first()?;
    match first {
        Selector::Field(_, name) => Some((name, more)),
        _ => None,
    }
}
