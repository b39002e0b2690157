//! Statements (ISO 10206, 6.9).

use crate::expression::{Access, ComponentValue, Expression, Label};
use crate::operator::Direction;
use ep_base::{Boxed, Line, List, Name};

/// `stmt`
#[cycle(statement)]
#[derive(Drop)]
pub enum Statement {
    /// Nothing; the line is that of the token that follows.
    Empty(Line),
    /// `access ":=" cvalue`
    Assignment(Line, Access, ComponentValue),
    /// `access`
    Call(Line, Access),
    /// `compound`
    Compound(Compound),
    /// `"if" expr "then" stmt [ "else" stmt ]`
    If(Line, Boxed<Expression>, Boxed<Statement>, Option<Boxed<Statement>>),
    /// `"case" expr "of" ( arm { ";" arm } [ ";" | [ ";" ] other ] | other ) "end"`
    Case(Line, Boxed<Expression>, List<Arm>, Option<Otherwise>),
    /// `"while" expr "do" stmt`
    While(Line, Boxed<Expression>, Boxed<Statement>),
    /// `"repeat" stmts "until" expr`
    Repeat(Line, List<Statement>, Boxed<Expression>),
    /// `"for" id ":=" expr ( "to" | "downto" ) expr "do" stmt`
    For(Line, Name, Boxed<Expression>, Direction, Boxed<Expression>, Boxed<Statement>),
    /// `"for" id "in" expr "do" stmt`
    ForIn(Line, Name, Boxed<Expression>, Boxed<Statement>),
    /// `"with" access { "," access } "do" stmt`
    With(Line, List<Access>, Boxed<Statement>),
}

/// `compound = "begin" stmts "end"`
#[cycle(statement)]
#[derive(Drop)]
pub struct Compound {
    pub line: Line,
    pub statements: List<Statement>,
}

/// `arm = labels ":" stmt`
#[cycle(statement)]
#[derive(Drop)]
pub struct Arm {
    pub line: Line,
    pub labels: List<Label>,
    pub body: Boxed<Statement>,
}

/// `other = "otherwise" stmts`
#[cycle(statement)]
#[derive(Drop)]
pub struct Otherwise {
    pub line: Line,
    pub statements: List<Statement>,
}
