//! Nodes that are made of several parts.

ghost use Rattle.std.specs.Prelude.{◌≡◌, IfOk};
ghost use Rattle.ep_grammar.specs.Expressions.{expression_from};
ghost use Rattle.ep_parse_expr.specs.Called.{factor_with, last_field};

use ep_base::{Boxed, Line, List, Name, NoMemory};
use ep_tree::{
    Access, Addend, Comparison, Expression, Factor, Multiplier, QualifiedName, Selector, Simple,
    Term, Values,
};
use std::alloc::Global;

/// The name of the field that the last of these selectors takes.
#[tactic(auto, using(crate::proofs::Rests::last_of))]
fn last_field(selectors: List<Selector>) -> Option<Name>
    ensures { result ≡ last_field selectors }
{
    let mut selectors = selectors;
    let Some(last) = selectors.pop() else {
        return None;
    };
    match last {
        Selector::Field(_, name) => Some(name),
        Selector::Index(_, _) => None,
        Selector::Dereference(_) => None,
        Selector::Arguments(_, _) => None,
    }
}

/// A factor of its name, with its selectors or a structured value.
pub(crate) fn called_factor(
    alloc: Global,
    line: Line,
    name: Name,
    selectors: List<Selector>,
    values: Option<Boxed<Values>>,
) -> Result<Boxed<Factor>, NoMemory>
    ensures { IfOk result (λ factor. factor ≡ factor_with line name selectors values) }
{
    let Some(values) = values else {
        let access = Access {
            line,
            name,
            selectors,
        };
        return Boxed::new(alloc, Factor::Access(access));
    };
    let second = last_field(selectors);
    let name = QualifiedName {
        line,
        first: name,
        second,
    };
    Boxed::new(alloc, Factor::Structured(line, name, values))
}

/// An expression that begins with a factor.
pub(crate) fn expression_of(
    line: Line,
    factor: Boxed<Factor>,
    multipliers: List<Multiplier>,
    addends: List<Addend>,
    right: Option<Boxed<Comparison>>,
) -> Expression
    ensures { result ≡ expression_from multipliers addends right line factor }
{
    let first = Term {
        line,
        first: factor,
        more: multipliers,
    };
    let left = Simple {
        line,
        sign: None,
        first,
        more: addends,
    };
    Expression { line, left, right }
}
