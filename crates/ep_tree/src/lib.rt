//! Syntax trees: one kind of node for each production of the grammar, whose fields are the parts of the
//! production in order and the line of its first token.
//!
//! Contracts see a tree as plain data: its declared type is its value, and `≡` is equality of names, numbers,
//! lines and parts. `nesting` answers how deep a component nests (specs/Nesting.antt), and src/shape.rt what an
//! expression is where another production begins alike (specs/Shapes.antt). The crate stands on ep_base alone,
//! of whose `List` and `Boxed` the trees are built, so that all passes over trees stand beside the parser.
//!
//! Open src/expression.rt first: its module is the first of four cycles, each of which names only those before
//! it (expressions with component values, types, statements, routines with the parts of a block).
//! specs/Folds.antt is how a definition by recursion on them is written.
#![tactic(auto)]

mod component;
mod declaration;
mod expression;
mod levels;
mod operator;
mod routine;
mod shape;
mod statement;
mod types;

pub use component::{
    Block, Component, Export, ExportItem, Heading, HeadingPart, Implementation, Import, ImportItem,
    Module, Program,
};
pub use declaration::{
    ConstantDefinition, Constants, DiscriminantSection, FormalSection, FormalType, RoutineHeading,
    TypeDefinition, Types, VariableDeclaration, Variables,
};
pub use expression::{
    Access, Addend, Argument, Comparison, ComponentValue, Element, Expression, Factor, Label,
    Multiplier, Selector, Simple, Term, Values,
};
pub use levels::nesting;
pub use operator::{
    AddingOperator, Direction, MultiplyingOperator, QualifiedName, RelationalOperator, Sign,
};
pub use routine::{BlockPart, Routine, RoutineBody, RoutineStart};
pub use shape::single_labels;
pub use statement::{Arm, Compound, Otherwise, Statement};
pub use types::{
    Core, FieldSection, Fields, Plain, Structure, TypeDenoter, Variant, VariantPart,
    VariantSelector,
};
