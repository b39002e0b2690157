//! The shapes of expressions and labels by which productions with a common beginning are told apart.

ghost use Rattle.std.specs.Prelude.{◌≡◌, IfOk, MatchOption, reverse, Some, None, [], ◌∷◌};
ghost use Rattle.ep_tree.specs.Nodes.{qualified_node};
ghost use Rattle.ep_tree.specs.Shapes.{all_single, all_plain, single_label, plain_argument, bare, as_identifier};
ghost use Rattle.ep_tree.specs.Shapes.{as_named, named_from, when_some};

use crate::expression::{Access, Argument, Expression, Factor, Label, Selector, Simple, Term};
use crate::operator::QualifiedName;
use ep_base::{Boxed, Line, List, Name, NoMemory};
use std::alloc::Global;

impl Expression {
    /// The expression's factor, if the expression is nothing more.
    fn into_factor(self) -> Option<Boxed<Factor>>
        ensures { result ≡ bare self }
    {
        let Expression { left, right, .. } = self;
        if right.is_some() {
            return None;
        }
        let Simple {
            sign,
            first,
            more,
            ..
        } = left;
        if sign.is_some() || !more.items().is_empty() {
            return None;
        }
        let Term { first, more, .. } = first;
        if more.items().is_empty() {
            Some(first)
        } else {
            None
        }
    }

    /// The expression's name, if the expression is an identifier and nothing more.
    pub fn into_identifier(self) -> Option<Name>
        ensures { result ≡ as_identifier self }
    {
        let Factor::Access(access) = self.into_factor()?.into_inner() else {
            return None;
        };
        let Access {
            name,
            selectors,
            ..
        } = access;
        if selectors.items().is_empty() {
            Some(name)
        } else {
            None
        }
    }
}

impl Label {
    /// The label's expression, if it has one alone.
    fn into_single(self) -> Option<Boxed<Expression>>
        ensures { result ≡ single_label self }
    {
        let Label { low, high, .. } = self;
        if high.is_none() { Some(low) } else { None }
    }
}

impl Argument {
    /// The argument's value, if it has no width.
    fn into_plain(self) -> Option<Boxed<Expression>>
        ensures { result ≡ plain_argument self }
    {
        let Argument { value, width, .. } = self;
        if width.is_none() { Some(value) } else { None }
    }
}

/// The same items, the last one first.
#[tactic(auto, using(crate::proofs::Reversed::back))]
fn turned(alloc: Global, items: List<Expression>) -> Result<List<Expression>, NoMemory>
    ensures { IfOk result (λ found. found ≡ reverse items) }
{
    let mut items = items;
    let mut found = List::new(alloc);
    while let Some(item) = items.pop() {
        found.push(item)?;
    }
    Ok(found)
}

/// The expressions of labels, if each label has one alone.
#[tactic(auto, using(crate::proofs::Reversed::back))]
pub fn single_labels(
    alloc: Global,
    labels: List<Label>,
) -> Result<Option<List<Expression>>, NoMemory>
    ensures { IfOk result (λ found. found ≡ all_single labels) }
{
    let mut labels = labels;
    let mut found = List::new(alloc);
    while let Some(label) = labels.pop() {
        let Some(one) = label.into_single() else {
            return Ok(None);
        };
        found.push(one.into_inner())?;
    }
    Ok(Some(turned(alloc, found)?))
}

/// The values of arguments, if none has a width.
#[tactic(auto, using(crate::proofs::Reversed::back))]
pub fn plain_arguments(
    alloc: Global,
    arguments: List<Argument>,
) -> Result<Option<List<Expression>>, NoMemory>
    ensures { IfOk result (λ found. found ≡ all_plain arguments) }
{
    let mut arguments = arguments;
    let mut found = List::new(alloc);
    while let Some(argument) = arguments.pop() {
        let Some(one) = argument.into_plain() else {
            return Ok(None);
        };
        found.push(one.into_inner())?;
    }
    Ok(Some(turned(alloc, found)?))
}

impl Expression {
    /// The name with its arguments, if the expression is that alone and no argument has a width.
    pub fn into_named(
        self,
        alloc: Global,
    ) -> Result<Option<(QualifiedName, List<Expression>)>, NoMemory>
        ensures { IfOk result (λ found. found ≡ as_named self) }
    {
        let Some(factor) = self.into_factor() else {
            return Ok(None);
        };
        match factor.into_inner() {
            Factor::Access(
                Access {
                    line,
                    name,
                    selectors,
                },
            ) => named_parts(alloc, line, name, selectors),
            _ => Ok(None),
        }
    }
}

/// A name with its selectors, if they are a field, arguments, or one after the other.
#[tactic(auto, using(crate::proofs::Named::counted))]
fn named_parts(
    alloc: Global,
    line: Line,
    name: Name,
    selectors: List<Selector>,
) -> Result<Option<(QualifiedName, List<Expression>)>, NoMemory>
    ensures { IfOk result (λ found. found ≡ named_from line name selectors) }
{
    let mut selectors = selectors;
    let Some(last) = selectors.pop() else {
        return Ok(Some((plain_name(line, name), List::new(alloc))));
    };
    let Some(field) = selectors.pop() else {
        return one_selector(alloc, line, name, last);
    };
    if !selectors.items().is_empty() {
        return Ok(None);
    }
    two_selectors(alloc, line, name, field, last)
}

/// A name alone.
fn plain_name(line: Line, first: Name) -> QualifiedName
    ensures { result ≡ qualified_node line first None }
{
    QualifiedName {
        line,
        first,
        second: None,
    }
}

/// A name with these arguments, if none has a width.
fn with_arguments(
    alloc: Global,
    name: QualifiedName,
    arguments: List<Argument>,
) -> Result<Option<(QualifiedName, List<Expression>)>, NoMemory>
    ensures { IfOk result (λ found. found ≡ when_some (all_plain arguments) (λ es. Some (name, es))) }
{
    let Some(plain) = plain_arguments(alloc, arguments)? else {
        return Ok(None);
    };
    Ok(Some((name, plain)))
}

fn one_selector(
    alloc: Global,
    line: Line,
    name: Name,
    selector: Selector,
) -> Result<Option<(QualifiedName, List<Expression>)>, NoMemory>
    ensures { IfOk result (λ found. found ≡ named_from line name (selector ∷ [])) }
{
    match selector {
        Selector::Field(_, second) => {
            let found = QualifiedName {
                line,
                first: name,
                second: Some(second),
            };
            Ok(Some((found, List::new(alloc))))
        }
        Selector::Arguments(_, arguments) => with_arguments(
            alloc,
            plain_name(line, name),
            arguments,
        ),
        Selector::Index(_, _) => Ok(None),
        Selector::Dereference(_) => Ok(None),
    }
}

fn two_selectors(
    alloc: Global,
    line: Line,
    name: Name,
    field: Selector,
    last: Selector,
) -> Result<Option<(QualifiedName, List<Expression>)>, NoMemory>
    ensures { IfOk result (λ found. found ≡ named_from line name (field ∷ last ∷ [])) }
{
    let Selector::Field(_, second) = field else {
        return Ok(None);
    };
    let Selector::Arguments(_, arguments) = last else {
        return Ok(None);
    };
    let found = QualifiedName {
        line,
        first: name,
        second: Some(second),
    };
    with_arguments(alloc, found, arguments)
}
