//! The code of typed trees, with instructions by hand. Each line of a table is a title, the words that build the trees
//! (typed_trees/builder.rt says which there are), their code, and how many texts and references it has where there are
//! not 0 and 4. Behind an instruction stands its line where that is not the usual one of the table.

pub(crate) mod builder;

use crate::instructions::told;
use builder::{Builder, Unbuilt};
use ep_base::{Line, List, Name};
use ep_gen_code::Code;
use ep_gen_expr::{expression_code, laws_of_code};
use ep_gen_unit::{laws_of_statements, statement_code};
use ep_typed::{TypedStmt, Unit, UnitTypes, UnitVariables};
use std::alloc::{AllocError, Global};
use std::test::Fail;

/// Expressions, on line 3. `R`, `Q` and `D` are the types of the numbers 0, 1 and 2.
const EXPRESSIONS: &str = "\
(-7) mod 2 | 7 neg 2 mod | Push 7; Neg; Push 2; Mod
chr(65) | 65 chr | Push 65; Push 0; Push 255; Check 14
pred of a char, two back | 67 2 pred | Push 67; Push 2; Neg; Push 0; Push 255; Step
one variable < another one | variable:6 variable:0 < | Unit 4; Load; Unit 5; Load; Cmp 2 | references 6
a field of a component of the array that a function gives | function:7 5 index field:1 | \
Call 4; Jump 2; Push 5; Index; Field 1 | references 5
D[1: 5; 2: 6] | 1 5 at 2 6 at structured:2 | \
Call 6; New; Dup; Deref; Dup; Push 1; Index; Push 5; Store; Dup; Push 2; Index; Push 6; Store; Load; Call 0; Dispose
D[1, 3..5: 7] | 7 at-ranges:1,3..5 structured:2 | \
Call 6; New; Dup; Deref; Dup; Push 1; Index; Push 7; Store; \
Dup; Push 1; Push 1; Push 1; Call 1; Dup; Push 1; Push 3; Push 5; Call 1; Load; Call 0; Dispose
D[i, j..k: 7], with 2, 3 and 4 for the indexes | 2 3 4 7 at-indexes structured:2 | \
Call 6; New; Dup; Deref; Push 2; Dup; Call 2; Index; Drop; Index; Drop; \
Push 3; Push 4; Call 2; Index; Drop; Index; Drop; \
Push 7; Dup; Call 3; JumpFalse 27; Index; Call 0; Store; Call 1; Jump 34; Drop; Drop; Drop; Drop; Drop; Drop; Drop; \
Dup; Call 3; JumpFalse 42; Index; Call 0; Store; Call 1; Jump 49; Drop; Drop; Drop; Drop; Drop; Drop; Drop; \
Drop; Load; Call 0; Dispose
R[a: 7], where a is the second field | 7 at-field:1 structured:0 | \
Call 4; New; Dup; Deref; Dup; Field 1; Push 7; Store; Load; Call 0; Dispose
Q[a, b: 7; case k: 1 of [d: 8]], where a is the second field, b the first one, k at steps 2 and 0, and d the first \
field of a variant that is component 4 | 7 at-field:1 same-field:1:0 1 at-field:2.0 8 at-field:4.0 structured:1 | \
Call 5; New; Dup; Deref; Dup; Field 1; Push 7; Store; Dup; Dup; Field 0; Call 0; Field 1; Load; Store; \
Dup; Field 2; Field 0; Push 1; Store; Dup; Field 4; Field 0; Push 8; Store; Load; Call 0; Dispose
two steps on both sides | same-field:2.0:4.1 structured:1 | \
Call 5; New; Dup; Deref; Dup; Dup; Field 4; Field 1; Call 0; Field 2; Field 0; Load; Store; Load; Call 0; Dispose
the same text twice | 'ab' 'ab' | Text 0; Text 0 | texts 1";

/// Statements, on line 4 where they name none.
const STATEMENTS: &str = "\
x := 7 | 7 assign:6 | Unit 4; Push 7; Store | references 5
if true then halt else halt | halt@5 halt@6 1 if | Push 1; JumpFalse 4; Halt @5; Jump 5; Halt @6
if true then halt | halt@5 empty 1 if | Push 1; JumpFalse 4; Halt @5; Jump 4
begin halt; while false do halt end | halt halt@6 0 while@5 compound | \
Halt; Push 0 @5; JumpFalse 5 @5; Halt @6; Jump 1 @5
the same procedure twice | procedure:7 procedure:7@5 | Call 4; Jump 2; Call 4 @5; Jump 4 @5 | references 5
writeln | writeln | Unit -1 1; Push 10; Chars; Put";

/// `write` of one value, on line 4.
const WRITES: &str = "\
an integer | 65 integer write | Unit -1 1; Push 65; Form 0; Put
a char | 65 char write | Unit -1 1; Push 65; Chars; Put
a Boolean | 65 boolean write | Unit -1 1; Push 65; Form 1; Put
a text | 'ab' text write | Unit -1 1; Text 0; Put | texts 1
an integer and its width | 65 8 wide-integer write | Unit -1 1; Push 65; Push 8; Form 0 1; Put
a char and its width | 65 8 wide-char write | Unit -1 1; Push 65; Chars; Push 8; Form 2 1; Put
a Boolean and its width | 65 8 wide-boolean write | Unit -1 1; Push 65; Push 8; Form 1 1; Put
a text and its width | 65 8 wide-text write | Unit -1 1; Push 65; Push 8; Form 2 1; Put";

/// A program `main` with these types and variables, which does these statements.
pub(crate) fn unit_of(
    alloc: Global,
    types: UnitTypes,
    variables: UnitVariables,
    statements: List<TypedStmt>,
) -> Result<Unit, Unbuilt> {
    let name = Name::from_bytes(alloc, b"main")?;
    Ok(Unit {
        name,
        program: true,
        interface: None,
        imports: List::new(alloc),
        types,
        constants: List::new(alloc),
        variables,
        routines: List::new(alloc),
        start: TypedStmt::Compound(statements),
        stop: TypedStmt::Empty,
    })
}

/// No code yet, at line 3.
fn no_code(alloc: Global) -> Result<Code, Unbuilt> {
    let unit = unit_of(alloc, List::new(alloc), List::new(alloc), List::new(alloc))?;
    let mut code = Code::new(alloc, &unit)?;
    code.line = 3;
    Ok(code)
}

/// Appends the code of the expressions that words left, and then of the statements.
fn append(alloc: Global, built: &Builder, code: &mut Code) -> Result<(), Unbuilt> {
    for e in built.expressions.items() {
        expression_code(alloc, e.get(), code)?;
    }
    for s in built.statements.items() {
        statement_code(alloc, s, code)?;
    }
    Ok(())
}

/// The code of the trees that these words build.
fn code_of(alloc: Global, words: &str) -> Result<Code, Unbuilt> {
    let built = Builder::after(alloc, words)?;
    let mut code = no_code(alloc)?;
    append(alloc, &built, &mut code)?;
    Ok(code)
}

/// Tells code, and the tables that it names where these are not the usual ones.
fn tell_code(alloc: Global, code: &Code, usual: Line) -> Result<String, AllocError> {
    let mut out = told(alloc, code.instructions.items(), usual)?;
    let texts = code.texts.count();
    let references = code.references.count();
    if texts != 0 {
        write!(&mut out, " | texts {texts}")?;
    }
    if references != 4 {
        write!(&mut out, " | references {references}")?;
    }
    Ok(out)
}

/// What the trees come to that these words build.
fn outcome(alloc: Global, words: &str, usual: Line) -> Result<String, AllocError> {
    match &code_of(alloc, words) {
        Ok(code) => tell_code(alloc, code, usual),
        Err(why) => format!(in alloc; "{why:?}"),
    }
}

/// The rows of a table that come to something else, with what they come to.
fn differing(alloc: Global, table: &str, usual: Line) -> Result<String, AllocError> {
    let mut all = String::new(alloc);
    for row in table.lines() {
        let (title, rest) = row.split_once(" | ").unwrap_or((row, ""));
        let (words, wanted) = rest.split_once(" | ").unwrap_or((rest, "nothing"));
        let outcome = outcome(alloc, words, usual)?;
        if outcome.as_str() != wanted {
            write!(&mut all, "{title} comes to {outcome}; ")?;
        }
    }
    Ok(all)
}

#[test]
fn trees_have_their_code(rt: HostRuntime) -> Result<(), Fail> {
    for (table, usual) in [(EXPRESSIONS, 3), (STATEMENTS, 4), (WRITES, 4)] {
        let differing = differing(rt.alloc(), table, usual)?;
        assert_eq!(rt; differing.as_str(), "");
    }
    laws_of_code();
    laws_of_statements();
    Ok(())
}
