//! Typed trees, built by words, each of which takes what the words before it left, the last first:
//!
//! | Word | Leaves |
//! |---|---|
//! | `7` `'ab'` | a constant, a text |
//! | `variable:6` | the value of the variable of this number of `main`, or of another unit by its name: `variable:stock.6` |
//! | `neg` `chr` | an operation with one operand |
//! | `mod` `<` | an operation with two operands |
//! | `pred` `succ` | `pred` or `succ` of a char and a count |
//! | `function:7` | what the function of this number gives, named as a variable is, which has no parameters |
//! | `index` | the component of an array that a function gives, at an index |
//! | `field:1` | the component of this number of a record that a function gives |
//! | `at` | what the component of a structured value at an index is given |
//! | `at-field:2.0` | what its component at these steps is given |
//! | `same-field:2.0:4.1` | that the component at the second steps is given what that at the first ones has |
//! | `at-ranges:1,3..5` | what all its components with the indexes of these ranges are given |
//! | `at-indexes` | what its component at an index and those in a range are given, by the three indexes and a value |
//! | `structured:2` | a structured value of the type of this number, of all that its components are given |
//! | `integer` `char` `boolean` `text` | a value that is written so, and with `wide-` in front a value and its width |
//! | `empty` | the empty statement |
//! | `assign:6` | an assignment of a value to the variable of this number |
//! | `if` | `if` with a condition and two statements |
//! | `while` | `while` with a condition and a statement |
//! | `procedure:7` | a call of the procedure of this number, which has no parameters |
//! | `halt` | `halt` |
//! | `write` `writeln` | `write` or `writeln` of all values that are written |
//! | `compound` | all statements in order, as one |
//!
//! A statement is on line 4, and `halt@5` is on line 5.

use ep_base::{Boxed, Bytes, Line, List, Name, NameRefusal};
use ep_typed::{
    Callee, CaseRange, Element, Elements, MemberDesignator, Shared, TypedExpr, TypedPlace,
    TypedStmt, WriteItem,
};
use ep_values::{Binary, Print, Unary};
use std::alloc::{AllocError, Global};

/// The line of a statement that names none.
const USUAL_LINE: &str = "4";

/// Why a tree is not built.
#[derive(Debug, Drop)]
pub(crate) enum Unbuilt {
    /// The words before one left too little.
    Lacking,
    /// A word is none of these.
    Unknown,
    /// Memory is wanting.
    NoMemory,
}

impl From<AllocError> for Unbuilt {
    fn from(_e: AllocError) -> Unbuilt {
        Unbuilt::NoMemory
    }
}

impl From<NameRefusal> for Unbuilt {
    fn from(_e: NameRefusal) -> Unbuilt {
        Unbuilt::NoMemory
    }
}

/// A number, which is 0 where none is given.
fn number(text: &str) -> u32 {
    text.parse::<u32>().unwrap_or(0)
}

/// The unit, which is `main` where none is named, and the number behind it.
fn unit_and_number(text: &str) -> (&str, u32) {
    match text.split_once('.') {
        Some((unit, number_text)) => (unit, number(number_text)),
        None => ("main", number(text)),
    }
}

/// The range that a text is, also of one number.
fn range(text: &str) -> CaseRange {
    let (low, high) = text.split_once("..").unwrap_or((text, text));
    CaseRange {
        low: i64::from(number(low)),
        high: i64::from(number(high)),
    }
}

/// What the words so far left.
#[derive(Drop)]
pub(crate) struct Builder {
    alloc: Global,
    pub(crate) expressions: List<Boxed<TypedExpr>>,
    items: List<WriteItem>,
    elements: Elements,
    pub(crate) statements: List<TypedStmt>,
}

impl Builder {
    /// What all these words leave.
    pub(crate) fn after(alloc: Global, words: &str) -> Result<Builder, Unbuilt> {
        let mut builder = Builder {
            alloc,
            expressions: List::new(alloc),
            items: List::new(alloc),
            elements: List::new(alloc),
            statements: List::new(alloc),
        };
        for word in words.split_whitespace() {
            builder.take(word)?;
        }
        Ok(builder)
    }

    /// The statements that are left.
    pub(crate) fn into_statements(self) -> List<TypedStmt> {
        self.statements
    }

    /// Takes one word: a constant, a text, or a name with what is given of it behind a colon and its line.
    fn take(&mut self, word: &str) -> Result<(), Unbuilt> {
        if let Ok(value) = word.parse::<i64>() {
            return self.push(TypedExpr::Constant(value));
        }
        if let Some(text) = word.strip_prefix('\'') {
            return self.text(text.strip_suffix('\'').unwrap_or(text).as_bytes());
        }
        let (word, line) = word.split_once('@').unwrap_or((word, USUAL_LINE));
        let (name, given) = word.split_once(':').unwrap_or((word, ""));
        self.take_expression(name, given, number(line))
    }

    /// Takes a word, which may be one of expressions.
    fn take_expression(&mut self, name: &str, given: &str, line: Line) -> Result<(), Unbuilt> {
        match name {
            "variable" => self.variable(given),
            "neg" => self.one(Unary::Negate),
            "chr" => self.one(Unary::Character),
            "mod" => self.two(Binary::Modulo),
            "<" => self.two(Binary::Less),
            "pred" => self.char_step(true),
            "succ" => self.char_step(false),
            "function" => self.function(given),
            "index" => self.indexed(),
            "field" => self.field(number(given)),
            "at" => self.at_index(),
            "at-field" => self.at_field(given),
            "same-field" => self.same_field(given),
            "at-ranges" => self.at_ranges(given),
            "at-indexes" => self.at_indexes(),
            "structured" => self.structured(number(given)),
            _ => self.take_statement(name, given, line),
        }
    }

    /// Takes a word that is none of expressions.
    fn take_statement(&mut self, name: &str, given: &str, line: Line) -> Result<(), Unbuilt> {
        match name {
            "empty" => self.put(TypedStmt::Empty),
            "assign" => self.assign(line, given),
            "if" => self.choice(line),
            "while" => self.repetition(line),
            "procedure" => self.call(line, given),
            "halt" => self.put(TypedStmt::Halt(line)),
            "write" => self.write(line, false),
            "writeln" => self.write(line, true),
            "compound" => self.compound(),
            _ => self.take_print(name),
        }
    }

    /// Takes how a value is written, with its width or without.
    fn take_print(&mut self, name: &str) -> Result<(), Unbuilt> {
        match name {
            "integer" => self.plain(Print::Integer),
            "char" => self.plain(Print::Char),
            "boolean" => self.plain(Print::Boolean),
            "text" => self.plain(Print::Text),
            "wide-integer" => self.wide(Print::Integer),
            "wide-char" => self.wide(Print::Char),
            "wide-boolean" => self.wide(Print::Boolean),
            "wide-text" => self.wide(Print::Text),
            _ => Err(Unbuilt::Unknown),
        }
    }

    /// The routine that is named so.
    fn callee(&self, given: &str) -> Result<Callee, Unbuilt> {
        let (unit, number) = unit_and_number(given);
        Ok(Callee {
            unit: Name::from_bytes(self.alloc, unit.as_bytes())?,
            number,
            levels: 0,
        })
    }

    /// A call of a procedure.
    fn call(&mut self, line: Line, given: &str) -> Result<(), Unbuilt> {
        let callee = self.callee(given)?;
        let none = List::new(self.alloc);
        self.put(TypedStmt::Procedure(line, callee, none))
    }

    /// The last expression.
    fn expression(&mut self) -> Result<Boxed<TypedExpr>, Unbuilt> {
        self.expressions.pop().ok_or(Unbuilt::Lacking)
    }

    /// The last statement.
    fn statement(&mut self) -> Result<Boxed<TypedStmt>, Unbuilt> {
        match self.statements.pop() {
            Some(s) => Ok(Boxed::new(self.alloc, s)?),
            None => Err(Unbuilt::Lacking),
        }
    }

    /// Leaves an expression.
    fn push(&mut self, e: TypedExpr) -> Result<(), Unbuilt> {
        let boxed = Boxed::new(self.alloc, e)?;
        Ok(self.expressions.push(boxed)?)
    }

    /// Leaves a statement.
    fn put(&mut self, s: TypedStmt) -> Result<(), Unbuilt> {
        Ok(self.statements.push(s)?)
    }

    fn text(&mut self, bytes: &[u8]) -> Result<(), Unbuilt> {
        let text = Bytes::from_slice(self.alloc, bytes)?;
        self.push(TypedExpr::Text(text))
    }

    /// The place of the variable that is named so.
    fn place(&self, given: &str) -> Result<TypedPlace, Unbuilt> {
        let (unit, number) = unit_and_number(given);
        let unit = Name::from_bytes(self.alloc, unit.as_bytes())?;
        Ok(TypedPlace::Variable(unit, number))
    }

    fn variable(&mut self, given: &str) -> Result<(), Unbuilt> {
        let place = self.place(given)?;
        self.push(TypedExpr::Read(place))
    }

    fn one(&mut self, operation: Unary) -> Result<(), Unbuilt> {
        let operand = self.expression()?;
        self.push(TypedExpr::Unary(operation, operand))
    }

    fn two(&mut self, operation: Binary) -> Result<(), Unbuilt> {
        let right = self.expression()?;
        let left = self.expression()?;
        self.push(TypedExpr::Binary(operation, left, right))
    }

    fn char_step(&mut self, down: bool) -> Result<(), Unbuilt> {
        let count = self.expression()?;
        let value = self.expression()?;
        self.push(TypedExpr::Step(down, 0, 255, value, count))
    }

    fn function(&mut self, given: &str) -> Result<(), Unbuilt> {
        let callee = self.callee(given)?;
        let none = List::new(self.alloc);
        self.push(TypedExpr::Function(callee, none))
    }

    fn indexed(&mut self) -> Result<(), Unbuilt> {
        let index = self.expression()?;
        let array = self.expression()?;
        self.push(TypedExpr::IndexedValue(array, index))
    }

    fn field(&mut self, number: u32) -> Result<(), Unbuilt> {
        let whole = self.expression()?;
        self.push(TypedExpr::FieldValue(whole, number))
    }

    fn at_index(&mut self) -> Result<(), Unbuilt> {
        let value = self.expression()?;
        let index = self.expression()?;
        Ok(self.elements.push(Element::AtIndex(index, value))?)
    }

    /// The steps to a component.
    fn steps(&self, given: &str) -> Result<List<u32>, Unbuilt> {
        let mut steps = List::new(self.alloc);
        for step in given.split('.') {
            steps.push(number(step))?;
        }
        Ok(steps)
    }

    fn at_field(&mut self, given: &str) -> Result<(), Unbuilt> {
        let steps = self.steps(given)?;
        let value = self.expression()?;
        Ok(self.elements.push(Element::AtField(steps, value))?)
    }

    fn same_field(&mut self, given: &str) -> Result<(), Unbuilt> {
        let (from, to) = given.split_once(':').unwrap_or((given, ""));
        let from = self.steps(from)?;
        let to = self.steps(to)?;
        Ok(self.elements.push(Element::SameField(from, to))?)
    }

    /// The ranges of indexes.
    fn ranges(&self, given: &str) -> Result<List<CaseRange>, Unbuilt> {
        let mut ranges = List::new(self.alloc);
        for text in given.split(',') {
            ranges.push(range(text))?;
        }
        Ok(ranges)
    }

    fn at_ranges(&mut self, given: &str) -> Result<(), Unbuilt> {
        let ranges = self.ranges(given)?;
        let value = self.expression()?;
        Ok(self.elements.push(Element::AtRanges(ranges, value))?)
    }

    /// The range from one index to another.
    fn index_range(&mut self) -> Result<MemberDesignator, Unbuilt> {
        let last = self.expression()?;
        let first = self.expression()?;
        Ok(MemberDesignator::Range(first, last))
    }

    /// An index and a range of them.
    fn indexes(&mut self) -> Result<List<MemberDesignator>, Unbuilt> {
        let range = self.index_range()?;
        let index = self.expression()?;
        let mut indexes = List::new(self.alloc);
        indexes.push(MemberDesignator::Single(index))?;
        indexes.push(range)?;
        Ok(indexes)
    }

    fn at_indexes(&mut self) -> Result<(), Unbuilt> {
        let value = self.expression()?;
        let indexes = self.indexes()?;
        Ok(self.elements.push(Element::AtIndexes(indexes, value))?)
    }

    fn structured(&mut self, number: u32) -> Result<(), Unbuilt> {
        let elements = std::mem::replace(&mut self.elements, List::new(self.alloc));
        let elements = Shared::new(self.alloc, elements)?;
        self.push(TypedExpr::Structured(number, elements))
    }

    fn plain(&mut self, print: Print) -> Result<(), Unbuilt> {
        let value = self.expression()?;
        self.item(print, value, None)
    }

    fn wide(&mut self, print: Print) -> Result<(), Unbuilt> {
        let width = self.expression()?;
        let value = self.expression()?;
        self.item(print, value, Some(width))
    }

    /// Leaves a value that is written.
    fn item(
        &mut self,
        print: Print,
        value: Boxed<TypedExpr>,
        width: Option<Boxed<TypedExpr>>,
    ) -> Result<(), Unbuilt> {
        Ok(
            self.items.push(WriteItem {
                print,
                value,
                width,
            })?,
        )
    }

    fn assign(&mut self, line: Line, given: &str) -> Result<(), Unbuilt> {
        let value = self.expression()?;
        let place = self.place(given)?;
        self.put(TypedStmt::Assign(line, place, value))
    }

    fn choice(&mut self, line: Line) -> Result<(), Unbuilt> {
        let condition = self.expression()?;
        let else_part = self.statement()?;
        let then_part = self.statement()?;
        self.put(TypedStmt::If(line, condition, then_part, else_part))
    }

    fn repetition(&mut self, line: Line) -> Result<(), Unbuilt> {
        let condition = self.expression()?;
        let body = self.statement()?;
        self.put(TypedStmt::While(line, condition, body))
    }

    fn write(&mut self, line: Line, ends_line: bool) -> Result<(), Unbuilt> {
        let items = std::mem::replace(&mut self.items, List::new(self.alloc));
        self.put(TypedStmt::Write(line, items, ends_line))
    }

    fn compound(&mut self) -> Result<(), Unbuilt> {
        let statements = std::mem::replace(&mut self.statements, List::new(self.alloc));
        self.put(TypedStmt::Compound(statements))
    }
}
