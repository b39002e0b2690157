//! Expressions, variable accesses and component values (ISO 10206, 6.5 and 6.8).

use crate::operator::{
    AddingOperator, MultiplyingOperator, QualifiedName, RelationalOperator, Sign,
};
use ep_base::{Boxed, Bytes, Line, List, Name};

/// `expr = simple [ relational-operator simple ]`
#[cycle(expression)]
#[derive(Drop)]
pub struct Expression {
    pub line: Line,
    pub left: Simple,
    pub right: Option<Boxed<Comparison>>,
}

/// The second half of a comparison.
#[cycle(expression)]
#[derive(Drop)]
pub struct Comparison {
    pub operator: RelationalOperator,
    pub right: Simple,
}

/// `simple = [ sign ] term { adding-operator term }`
#[cycle(expression)]
#[derive(Drop)]
pub struct Simple {
    pub line: Line,
    pub sign: Option<Sign>,
    pub first: Term,
    pub more: List<Addend>,
}

/// A term with the operator before it.
#[cycle(expression)]
#[derive(Drop)]
pub struct Addend {
    pub operator: AddingOperator,
    pub term: Term,
}

/// `term = factor { multiplying-operator factor }`
#[cycle(expression)]
#[derive(Drop)]
pub struct Term {
    pub line: Line,
    pub first: Boxed<Factor>,
    pub more: List<Multiplier>,
}

/// A factor with the operator before it.
#[cycle(expression)]
#[derive(Drop)]
pub struct Multiplier {
    pub operator: MultiplyingOperator,
    pub factor: Boxed<Factor>,
}

/// `factor`
#[cycle(expression)]
#[derive(Drop)]
pub enum Factor {
    /// A variable, constant, function or bound, and what is selected of it.
    Access(Access),
    /// An unsigned number.
    Number(Line, i64),
    /// A character string.
    Text(Line, Bytes),
    /// `nil`
    Nil(Line),
    /// `"(" expr ")"`
    Parenthesized(Line, Boxed<Expression>),
    /// `"not" factor`
    Not(Line, Boxed<Factor>),
    /// `"[" [ label { "," label } ] "]"`
    Set(Line, List<Label>),
    /// `name "[" values "]"`
    Structured(Line, QualifiedName, Boxed<Values>),
}

/// `access = id { selector }`
#[cycle(expression)]
#[derive(Drop)]
pub struct Access {
    pub line: Line,
    pub name: Name,
    pub selectors: List<Selector>,
}

/// What follows the name of an access.
#[cycle(expression)]
#[derive(Drop)]
pub enum Selector {
    /// `"." id`
    Field(Line, Name),
    /// `"[" expr { "," expr } "]"`
    Index(Line, List<Expression>),
    /// `"^"`
    Dereference(Line),
    /// `"(" arg { "," arg } ")"`
    Arguments(Line, List<Argument>),
}

/// `arg = expr [ ":" expr ]`
#[cycle(expression)]
#[derive(Drop)]
pub struct Argument {
    pub line: Line,
    pub value: Boxed<Expression>,
    pub width: Option<Boxed<Expression>>,
}

/// `label = expr [ ".." expr ]`
#[cycle(expression)]
#[derive(Drop)]
pub struct Label {
    pub line: Line,
    pub low: Boxed<Expression>,
    pub high: Option<Boxed<Expression>>,
}

/// `cvalue = expr | "[" values "]"`
#[cycle(expression)]
#[derive(Drop)]
pub enum ComponentValue {
    /// An expression.
    Expression(Boxed<Expression>),
    /// A structured value without the name of its type.
    Bracketed(Line, Boxed<Values>),
}

/// `values = element { ";" element } [ [ ";" ] "otherwise" cvalue ] [ ";" ] | "otherwise" cvalue [ ";" ]`
#[cycle(expression)]
#[derive(Drop)]
pub struct Values {
    pub line: Line,
    pub elements: List<Element>,
    pub otherwise: Option<Boxed<ComponentValue>>,
}

/// `element`
#[cycle(expression)]
#[derive(Drop)]
pub enum Element {
    /// `labels ":" cvalue`
    Labelled(Line, List<Label>, ComponentValue),
    /// `"case" [ id ":" ] expr "of" "[" [ values ] "]"`
    Variant(Line, Option<Name>, Boxed<Expression>, Option<Boxed<Values>>),
}
