//! Typed trees: expressions, places and statements whose names, types and kinds are settled.

use crate::selection::SharedSelection;
use crate::shared::Shared;
use ep_base::{Boxed, Bytes, Line, List, Name};
use ep_values::{Binary, Print, SetOperation, ShortOperation, Unary};

/// A standard file (ISO 10206, 6.10 and 6.12).
#[derive(Clone, Copy, Drop)]
pub enum StandardFile {
    /// `input`
    Input,
    /// `output`
    Output,
}

/// A place, which is where a variable is (ISO 10206, 6.5.1).
#[cycle(expression)]
#[derive(Drop)]
pub enum TypedPlace {
    /// The variable of this number of the unit of this name.
    Variable(Name, u32),
    /// A variable of a routine around the place, or of the one in whose block it stands: so many levels up, and its number.
    Own(u32, u32),
    /// A standard file.
    Standard(StandardFile),
    /// The component of an array at an index (ISO 10206, 6.5.3.2).
    Indexed(Boxed<TypedPlace>, Boxed<TypedExpr>),
    /// The component of a record by its number (ISO 10206, 6.5.3.3).
    Field(Boxed<TypedPlace>, u32),
    /// A variant of a record, as the record of its fields: what selects it, and its number among the variants of that
    /// variant part. All uses of that variant part share it.
    Variant(Boxed<TypedPlace>, SharedSelection, u32),
}

/// How a variant of a variant part is selected (ISO 10206, 6.4.3.4).
pub struct Selection {
    /// The number of the component that has the tag, in front of those of the variants.
    pub tag: u32,
    /// The labels of each variant, in order.
    pub labels: VariantLabels,
    /// Whether a variant follows them that every value selects which no label has.
    pub completed: bool,
}

impl Drop for Selection {
    fn drop(self) {
        let Selection {
            tag: _,
            labels: _,
            completed: _,
        } = self;
    }
}

/// The labels of variants, in order.
pub type VariantLabels = List<CaseRanges>;

/// An entire variable (ISO 10206, 6.5.2).
pub enum EntireVariable {
    /// The variable of this number of the unit of this name.
    Unit(Name, u32),
    /// A variable of a routine around the place, or of the one in whose block it stands: so many levels up, and its number.
    Own(u32, u32),
}

impl Drop for EntireVariable {
    fn drop(self) {
        match self {
            EntireVariable::Unit(_, _) => {}
            EntireVariable::Own(_, _) => {}
        }
    }
}

/// A routine that is called.
pub struct Callee {
    /// Its unit.
    pub unit: Name,
    /// Its number in that unit.
    pub number: u32,
    /// 0 for a routine of the unit, and else one more than how many levels up from the routine of the call stands the one
    /// in which it is declared.
    pub levels: u32,
}

impl Drop for Callee {
    fn drop(self) {
        let Callee {
            unit: _,
            number: _,
            levels: _,
        } = self;
    }
}

/// An expression (ISO 10206, 6.8.1).
#[cycle(expression)]
#[derive(Drop)]
pub enum TypedExpr {
    /// A constant of an ordinal type, by its ordinal number.
    Constant(i64),
    /// A text constant.
    Text(Bytes),
    /// The value of a variable.
    Read(TypedPlace),
    /// An operator or a required function of one operand.
    Unary(Unary, Boxed<TypedExpr>),
    /// An operator of two operands. Both are evaluated, the left one first.
    Binary(Binary, Boxed<TypedExpr>, Boxed<TypedExpr>),
    /// An operator of two operands, of which the right one is evaluated only where the left one decides nothing.
    Short(ShortOperation, Boxed<TypedExpr>, Boxed<TypedExpr>),
    /// `succ` and `pred` with a count, which the flag says is taken away: the value and the count, and the
    /// least and the greatest value of the host type.
    Step(bool, i64, i64, Boxed<TypedExpr>, Boxed<TypedExpr>),
    /// A function designator: the function, and what it is given for its parameters (ISO 10206, 6.8.5).
    Function(Callee, Actuals),
    /// The component at an index of an array that a function gives (ISO 10206, 6.8.6.2).
    IndexedValue(Boxed<TypedExpr>, Boxed<TypedExpr>),
    /// The component of a record that a function gives, by its number (ISO 10206, 6.8.6.3).
    FieldValue(Boxed<TypedExpr>, u32),
    /// The variant with this number of a record that a function gives, which is selected so (ISO 10206, 6.8.6.3).
    VariantValue(Boxed<TypedExpr>, SharedSelection, u32),
    /// A constant that is a set, by the ordinal numbers of its members in rising order.
    SetConstant(Bytes),
    /// A set constructor (ISO 10206, 6.8.7.4).
    Set(MemberDesignators),
    /// An operator on sets. Both operands are evaluated, the left one first.
    OnSets(SetOperation, Boxed<TypedExpr>, Boxed<TypedExpr>),
    /// `card`
    Card(Boxed<TypedExpr>),
    /// A structured value (ISO 10206, 6.8.7.1): the number of its type in the unit's list of types, and what its components
    /// are given. Uses of one constant share it.
    Structured(u32, Shared<Elements>),
}

/// What a component of a structured value is given.
#[cycle(expression)]
#[derive(Drop)]
pub enum Element {
    /// The component of an array at an index, and its value (ISO 10206, 6.8.7.2).
    AtIndex(Boxed<TypedExpr>, Boxed<TypedExpr>),
    /// The component of a record to which these steps lead, and its value (ISO 10206, 6.8.7.3).
    AtField(ComponentSteps, Boxed<TypedExpr>),
    /// The component of a record to which the second steps lead is given what that has to which the first lead.
    SameField(ComponentSteps, ComponentSteps),
    /// The components of an array at the indexes in these ranges, of which there is at least one and none is empty, and the
    /// value that all of them have. It is evaluated once (ISO 10206, 6.8.7.2).
    AtRanges(CaseRanges, Boxed<TypedExpr>),
    /// The components of an array at the indexes that these give, of which there may be none, and the value that all of them
    /// have. It is evaluated once, behind the indexes (ISO 10206, 6.8.7.2).
    AtIndexes(MemberDesignators, Boxed<TypedExpr>),
}

/// Steps from a record to a component inside of it, each the number of a component; there is at least one.
pub type ComponentSteps = List<u32>;

/// What the components of a structured value are given, in order.
pub type Elements = List<Element>;

/// What a set constructor says of members.
#[cycle(expression)]
#[derive(Drop)]
pub enum MemberDesignator {
    /// A value that is a member.
    Single(Boxed<TypedExpr>),
    /// The first and the last of values that are.
    Range(Boxed<TypedExpr>, Boxed<TypedExpr>),
}

/// The member designators of a set constructor, in order.
pub type MemberDesignators = List<MemberDesignator>;

/// An owned list of expressions.
pub type TypedExprs = List<TypedExpr>;

/// An actual parameter (ISO 10206, 6.7.3).
#[cycle(expression)]
#[derive(Drop)]
pub enum Actual {
    /// A value, for a value parameter.
    Value(Boxed<TypedExpr>),
    /// A variable, for a variable parameter.
    Variable(TypedPlace),
}

/// The actual parameters of a call, in order.
pub type Actuals = List<Actual>;

/// An expression that is written, and its width where there is one.
pub struct WriteItem {
    /// How it is printed.
    pub print: Print,
    /// The value.
    pub value: Boxed<TypedExpr>,
    /// The total width.
    pub width: Option<Boxed<TypedExpr>>,
}

impl Drop for WriteItem {
    fn drop(self) {
        let WriteItem {
            print: _,
            value: _,
            width: _,
        } = self;
    }
}

/// The values that a statement writes, in order.
pub type WriteItems = List<WriteItem>;

/// The values from the first to the second, for which an arm of a `case` is done (ISO 10206, 6.9.3.5).
#[derive(Clone, Copy, Drop)]
pub struct CaseRange {
    /// The first value.
    pub low: i64,
    /// The last one.
    pub high: i64,
}

/// The ranges of an arm, in order.
pub type CaseRanges = List<CaseRange>;

/// What a `for` statement counts with (ISO 10206, 6.9.3.9.1 and 6.9.3.9.2). The auxiliary variables are integers of the
/// block in which the statement is, and all its `for` statements have the same ones.
pub struct ForControl {
    /// The control variable.
    pub variable: EntireVariable,
    /// The auxiliary variable that has the initial value.
    pub initial: EntireVariable,
    /// The auxiliary variable that has the final value.
    pub last: EntireVariable,
    /// Whether the values fall, as `downto` says.
    pub falls: bool,
    /// The least value of the host type of the control variable.
    pub low: i64,
    /// The greatest one.
    pub high: i64,
}

impl Drop for ForControl {
    fn drop(self) {
        let ForControl {
            variable: _,
            initial: _,
            last: _,
            falls: _,
            low: _,
            high: _,
        } = self;
    }
}

/// What a `for` statement over the members of a set goes by (ISO 10206, 6.9.3.9.1 and 6.9.3.9.3). The auxiliary variable is a
/// set of the block in which the statement is, and all its `for` statements over members have the same one.
pub struct MemberControl {
    /// The control variable.
    pub variable: EntireVariable,
    /// The auxiliary variable that has the members that are still to come.
    pub rest: EntireVariable,
}

impl Drop for MemberControl {
    fn drop(self) {
        let MemberControl {
            variable: _,
            rest: _,
        } = self;
    }
}

/// What an assignment to a tag field works with (ISO 10206, 6.5.3.3). The auxiliary variable is one that `for` statements of
/// the block have: an integer, which holds nothing between two statements.
pub struct TagControl {
    /// The auxiliary variable that has the value.
    pub value: EntireVariable,
    /// The least value of the tag's type.
    pub low: i64,
    /// The greatest one.
    pub high: i64,
}

impl Drop for TagControl {
    fn drop(self) {
        let TagControl {
            value: _,
            low: _,
            high: _,
        } = self;
    }
}

/// A record that a `with` opens (ISO 10206, 6.9.3.10).
pub struct WithRecord {
    /// The variable of the block that stands for it, which is its alone.
    pub variable: EntireVariable,
    /// The number of its type in the unit's list of types.
    pub of: u32,
    /// The place that is accessed.
    pub place: TypedPlace,
}

impl Drop for WithRecord {
    fn drop(self) {
        let WithRecord {
            variable: _,
            of: _,
            place: _,
        } = self;
    }
}

/// The records that a `with` opens, in order.
pub type WithRecords = List<WithRecord>;

/// A statement, with the line of its first token (ISO 10206, 6.9.1).
#[cycle(statement)]
#[derive(Drop)]
pub enum TypedStmt {
    /// The empty statement.
    Empty,
    /// Statements in order.
    Compound(TypedStmts),
    /// An assignment.
    Assign(Line, TypedPlace, Boxed<TypedExpr>),
    /// An assignment to the tag of a record: what it works with, the record, how its variants are selected, and the value.
    AssignTag(Line, Boxed<TagControl>, TypedPlace, SharedSelection, Boxed<TypedExpr>),
    /// `if`; a missing `else` is the empty statement.
    If(Line, Boxed<TypedExpr>, Boxed<TypedStmt>, Boxed<TypedStmt>),
    /// `while`
    While(Line, Boxed<TypedExpr>, Boxed<TypedStmt>),
    /// `repeat`: the statements, and then the condition.
    Repeat(Line, TypedStmts, Boxed<TypedExpr>),
    /// `for`: what it counts with, the initial and the final value, and the statement.
    For(Line, Boxed<ForControl>, Boxed<TypedExpr>, Boxed<TypedExpr>, Boxed<TypedStmt>),
    /// `for` over the members of a set: what it goes by, the set, and the statement.
    ForIn(Line, Boxed<MemberControl>, Boxed<TypedExpr>, Boxed<TypedStmt>),
    /// `with`: the records that it opens, each where those before it are open, and the statement (ISO 10206, 6.9.3.10).
    With(Line, WithRecords, Boxed<TypedStmt>),
    /// A procedure statement: the procedure, and what it is given for its parameters (ISO 10206, 6.9.2.3).
    Procedure(Line, Callee, Actuals),
    /// `case`: the selector, the arms in order, and the statements where no range of theirs has its value.
    Case(Line, Boxed<TypedExpr>, CaseArms, Option<TypedStmts>),
    /// `halt`
    Halt(Line),
    /// `write`, or with the flag `writeln`, to `output`.
    Write(Line, WriteItems, bool),
}

/// Statements in order.
pub type TypedStmts = List<TypedStmt>;

/// An arm of a `case`: a statement, and the ranges of values for which it is done.
#[cycle(statement)]
#[derive(Drop)]
pub struct CaseArm {
    /// The ranges.
    pub ranges: CaseRanges,
    /// The statement.
    pub body: Boxed<TypedStmt>,
}

/// The arms of a `case`, in order.
pub type CaseArms = List<CaseArm>;
