//! Rows of the machine's table, on code that is written as texts: `Unit -1 1; Push 7` is `Unit` with -1 and 1 and then
//! `Push` with 7. The routine that starts the unit is routine 0, and before the first instruction of each other one
//! stands `Routine` with its arguments and its slots. Each line of a table is the code and, behind the arrow, what is
//! written, if anything, the end and the ticks of one run of 10,000 ticks or of two runs with the budgets that follow.

use crate::instructions::{field, instruction};
use ep_base::{Bytes, List, Name};
use ep_machine::{End, Machine};
use ep_object::{Image, ImageRoutine, ImageRoutines, ImageUnit, ImageUnits, Instrs, Texts};
use ep_outside::{SureFiles, SureSink, SureSource};
use std::alloc::{AllocError, Global};
use std::test::Fail;

/// What stands before the code of a routine.
const ROUTINE: &str = "Routine";

/// The instructions, each on a line of its own.
fn code(alloc: Global, text: &str) -> Result<Instrs, AllocError> {
    let mut code = List::new(alloc);
    let mut line: u32 = 1;
    for part in text.split("; ") {
        if part.starts_with(ROUTINE) {
            continue;
        }
        code.push(instruction(part, line))?;
        line = line.wrapping_add(1);
    }
    Ok(code)
}

/// A unit `p` with one slot.
fn units(alloc: Global) -> Result<ImageUnits, Fail> {
    let Ok(name) = Name::from_bytes(alloc, b"p") else {
        return Err(Fail::from("name"));
    };
    let unit = ImageUnit {
        name,
        slots: 1,
        start: 0,
        stop: 0,
    };
    let mut units = List::new(alloc);
    units.push(unit)?;
    Ok(units)
}

/// The routine that starts the unit, and those of the code.
fn routines(alloc: Global, text: &str) -> Result<ImageRoutines, AllocError> {
    let mut routines = List::new(alloc);
    routines.push(ImageRoutine {
        entry: 0,
        unit: 0,
        arguments: 0,
        slots: 0,
    })?;
    let mut entry: u32 = 0;
    for part in text.split("; ") {
        let mut words = part.split_whitespace();
        if words.next().unwrap_or("") == ROUTINE {
            routines.push(ImageRoutine {
                entry,
                unit: 0,
                arguments: u32::try_from(field(words.next())).unwrap_or(0),
                slots: u32::try_from(field(words.next())).unwrap_or(0),
            })?;
        } else {
            entry = entry.wrapping_add(1);
        }
    }
    Ok(routines)
}

/// The texts `hi` and the empty one.
fn texts(alloc: Global) -> Result<Texts, AllocError> {
    let mut texts: Texts = List::new(alloc);
    texts.push(List::from_slice(alloc, b"hi")?)?;
    texts.push(List::new(alloc))?;
    Ok(texts)
}

/// The code alone in a unit.
fn image(alloc: Global, text: &str) -> Result<Image, Fail> {
    let instructions = code(alloc, text)?;
    let routines = routines(alloc, text)?;
    let texts = texts(alloc)?;
    let units = units(alloc)?;
    Ok(Image {
        units,
        routines,
        texts,
        constant_types: List::new(alloc),
        instructions,
    })
}

fn told(alloc: Global, end: &End, ticks: u64) -> Result<String, AllocError> {
    match end {
        End::Normal => format!(in alloc; "normal, tick {ticks}"),
        End::Halt => format!(in alloc; "halt, tick {ticks}"),
        End::Error { number, line, .. } => format!(in alloc;
            "error {number} at {line}, tick {ticks}"
        ),
        End::Budget => format!(in alloc; "budget, tick {ticks}"),
        End::Broken { pc } => format!(in alloc; "broken at {pc}, tick {ticks}"),
        _ => String::from_str(alloc, "fault"),
    }
}

/// How a run with this budget ends.
pub(crate) fn end_of(
    alloc: Global,
    machine: &mut Machine,
    budget: u32,
    output: &mut SureSink,
) -> End {
    if machine.ticks() > 1_000_000_000 {
        return End::NoMemory;
    }
    let mut files = SureFiles::new(alloc);
    let mut input = SureSource::new(Bytes::new(alloc));
    machine.run(budget as u64, &mut files, &mut input, output)
}

/// How the second of two runs with these budgets ends, and the ticks.
fn outcome(
    alloc: Global,
    image: &Image,
    first: u32,
    second: u32,
    output: &mut SureSink,
) -> Result<String, AllocError> {
    let mut machine = Machine::new(alloc, image)?;
    end_of(alloc, &mut machine, first, output);
    let end = end_of(alloc, &mut machine, second, output);
    let ticks = machine.ticks();
    told(alloc, &end, ticks)
}

/// What was written, the end, and the ticks, of two runs with these budgets.
pub(crate) fn seen(
    alloc: Global,
    image: &Image,
    first: u32,
    second: u32,
) -> Result<String, AllocError> {
    let mut output = SureSink::new(alloc);
    let outcome = outcome(alloc, image, first, second, &mut output)?;
    let written = str::from_utf8(output.held()).unwrap_or("no text");
    if written.is_empty() {
        return Ok(outcome);
    }
    format!(in alloc; "'{written}', {outcome}")
}

/// The same of the code.
fn ran(alloc: Global, text: &str, first: u32, second: u32) -> Result<String, Fail> {
    let image = image(alloc, text)?;
    Ok(seen(alloc, &image, first, second)?)
}

fn number(text: &str) -> u32 {
    text.parse::<u32>().unwrap_or(0)
}

/// The lines of a table that come to something else, with what they come to.
fn differing(alloc: Global, table: &str) -> Result<String, Fail> {
    let mut all = String::new(alloc);
    for line in table.lines() {
        let (text, rest) = line.split_once(" -> ").unwrap_or((line, "nothing"));
        let (wanted, budgets) = rest.split_once(" | ").unwrap_or((rest, "10000"));
        let (first, second) = budgets.split_once(' ').unwrap_or((budgets, "0"));
        let told = ran(alloc, text, number(first), number(second))?;
        if told.as_str() != wanted {
            write!(all, "{line} comes to {told}; ")?;
        }
    }
    Ok(all)
}

/// Words and texts on the operand stack.
const OPERANDS: &str = "\
Unit -1 1; Push 7; Form; Put; Return -> '7', normal, tick 7
Push 7 1 -> broken at 0, tick 1
Unit -1 1; Text 0; Put; Return -> 'hi', normal, tick 8
Unit -1 1; Text 1; Put; Return -> normal, tick 4
Text 2 -> broken at 0, tick 1
Text 0; Drop; Return -> normal, tick 7
Drop -> broken at 0, tick 1
Text 0; Dup; Halt -> halt, tick 11
Unit -1 1; Push 4; Dup; Add; Form; Put; Return -> '8', normal, tick 9";

/// Jumps, ends and what is not in the table.
const JUMPS: &str = "\
Jump 2; Halt; Return -> normal, tick 2
Jump 3; Halt; Return -> broken at 0, tick 1
Push 0; JumpFalse 3; Halt; Return -> normal, tick 3
Push 1; JumpFalse 3; Halt; Return -> halt, tick 3
Push 1; JumpFalse 4; Halt; Return -> broken at 1, tick 2
Text 0; JumpFalse 2; Return -> broken at 1, tick 4
Halt 1 -> broken at 0, tick 1
Push 1 -> broken at 1, tick 2
Unknown -> broken at 0, tick 1
Fail 1 -> error 1 at 1, tick 1
Push 7; Fail 12 -> error 12 at 2, tick 2
Unit -1 1; Text 0; Put; Fail 25 -> 'hi', error 25 at 4, tick 8
Fail 0 -> broken at 0, tick 1
Fail 26 -> broken at 0, tick 1
Fail -1 -> broken at 0, tick 1
Fail 1 1 -> broken at 0, tick 1";

/// Slots and variables.
const VARIABLES: &str = "\
Slot 0 -> error 1 at 1, tick 1
Slot 1 -> broken at 0, tick 1
Slot 0 1 -> broken at 0, tick 1
Unit 0 0 -> error 1 at 1, tick 1
Unit -1 2 -> broken at 0, tick 1
Push 0; Make 0; Unit 0 0; Push 5; Store; Unit -1 1; Slot 0; Load; Form; Put; Return -> '5', normal, tick 14
Push 0; Make 0; Slot 0; Load -> error 1 at 4, tick 5
Push 2; Make 0; Slot 0; Push 2; Store -> error 2 at 5, tick 6
Push 9; Make 0 -> broken at 1, tick 2
Push 0; Make 1 -> broken at 1, tick 2
Unit -1 1; Load -> broken at 1, tick 2
Push 0; Make 0; Slot 0; Text 0; Store -> broken at 4, tick 8";

/// Places that go into slots, and what is asked and done of variables besides their values.
const PLACES: &str = "\
Unit -1 1; Bind 0; Slot 0; Text 0; Put; Return -> 'hi', normal, tick 10
Unit -1 1; Bind 1 -> broken at 1, tick 2
Unit -1 1; Bind -1 -> broken at 1, tick 2
Unit -1 1; Bind 0 1 -> broken at 1, tick 2
Push 1; Bind 0 -> broken at 1, tick 2
Bind 0 -> broken at 0, tick 1
Unit -1 1; Push 0; Make 0; Slot 0; Defined; Form; Put; Return -> '0', normal, tick 11
Unit -1 1; Push 0; Make 0; Slot 0; Push 5; Store; Slot 0; Defined; Form; Put; Return -> '1', normal, tick 14
Unit -1 1; Defined; Halt -> halt, tick 3
Push 1; Defined -> broken at 1, tick 2
Push 0; Make 0; Slot 0; Push 5; Store; Slot 0; Undefine; Slot 0; Load -> error 1 at 9, tick 11
Unit -1 1; Undefine -> broken at 1, tick 2
Push 1; Undefine -> broken at 1, tick 2
Push 2; Make 0; Slot 0; Like; Make 0; Slot 0; Push 2; Store -> error 2 at 8, tick 10
Push 7; Like -> broken at 1, tick 2
Text 0; Like -> broken at 1, tick 4
Like -> broken at 0, tick 1";

/// Variables that pointers identify. The first one that is made is segment 3, behind `input` and `output`, whose places
/// a pointer may have too.
const POINTERS: &str = "\
Unit -1 1; Push 0; New; Form; Put; Return -> '3', normal, tick 9
Unit -1 1; Push 0; New; Drop; Push 0; New; Form; Put; Return -> '4', normal, tick 13
Push 0; New; Deref; Load -> error 1 at 4, tick 5
Unit -1 1; Push 0; New; Dup; Deref; Push 5; Store; Deref; Load; Form; Put; Return -> '5', normal, tick 15
Push 2; New; Deref; Push 2; Store -> error 2 at 5, tick 6
Unit -1 1; Push 0; New; Dup; Deref; Bind 0; Deref; Push 7; Store; Slot 0; Load; Form; Put; \
Return -> '7', normal, tick 17
Unit -1 1; Call 1; Deref; Load; Form; Put; Return; \
Routine; Push 0; New; Dup; Deref; Push 5; Store; Return -> '5', normal, tick 17
Push 2; Deref; Text 0; Put; Return -> 'hi', normal, tick 9
Push 1; Deref; Text 0; Put -> error 18 at 4, tick 8
Push 9; New -> broken at 1, tick 2
Push -1; New -> broken at 1, tick 2
Unit -1 1; New -> broken at 1, tick 2
New -> broken at 0, tick 1
Push 0; New 1 -> broken at 1, tick 2
Push 0; New 0 1 -> broken at 1, tick 2";

/// What is disposed of, and what is no pointer to anything.
const DISPOSALS: &str = "\
Push 0; New; Dup; Dispose; Deref -> error 11 at 5, tick 6
Push 0; New; Dup; Dispose; Dispose -> error 11 at 5, tick 6
Push 0; New; Dup; Deref; Bind 0; Dispose; Slot 0; Load -> error 11 at 8, tick 9
Push 0; New; Dup; Deref; Bind 0; Dispose; Slot 0; Push 1; Store -> error 11 at 9, tick 10
Unit -1 1; Push 0; New; Dispose; Push 0; New; Form; Put; Return -> '4', normal, tick 13
Push 0; New; Drop; Push 0; New; Dispose; Push 3; Deref; Load -> error 1 at 9, tick 11
Push 0; Deref -> error 10 at 2, tick 2
Push 0; Dispose -> error 10 at 2, tick 2
Push -9223372036854775808; Deref -> error 1 at 2, tick 2
Push -9223372036854775808; Dispose -> error 1 at 2, tick 2
Push 3; Deref -> broken at 1, tick 2
Push 3; Dispose -> broken at 1, tick 2
Push -1; Deref -> broken at 1, tick 2
Push -9223372036854775807; Dispose -> broken at 1, tick 2
Push 1; Dispose; Push 1; Dispose -> error 11 at 4, tick 4
Push 1; Dispose; Push 1; Deref -> error 11 at 4, tick 4
Push 2; Dispose; Unit -1 1; Text 0; Put -> error 11 at 5, tick 9
Push 2; Dispose; Push 0; New; Deref; Push 7; Store; Halt -> halt, tick 9
Text 0; Dispose -> broken at 1, tick 4
Unit -1 1; Deref -> broken at 1, tick 2
Deref -> broken at 0, tick 1
Push 0; New; Dispose 1 -> broken at 2, tick 4
Push 0; New; Deref 0 1 -> broken at 2, tick 4";

/// Arguments, which a start has none of.
const ARGUMENTS: &str = "\
Arg 0 -> broken at 0, tick 1
Arg 0 1 -> broken at 0, tick 1
Peek 0 -> broken at 0, tick 1
Push 7; Peek 0 -> broken at 1, tick 2
Return 1 -> broken at 0, tick 1";

/// Calls, what they take and give, what ends with them, and how many there may be.
const CALLS: &str = "\
Unit -1 1; Call 1; Form; Put; Return; Routine; Push 7; Return -> '7', normal, tick 9
Unit -1 1; Push 7; Push 2; Call 1; Form; Put; Return; Routine 2; Arg 0; Arg 1; Sub; Return -> '5', normal, tick 13
Unit -1 1; Push 7; Call 1; Form; Put; Return; Routine 1; Peek 0; Arg 0; Add; Return -> '14', normal, tick 14
Unit -1 1; Text 0; Call 1; Put; Return; Routine 1; Arg 0; Return -> 'hi', normal, tick 15
Unit -1 1; Call 1; Return; Routine 1 1; Arg 0; Bind 0; Slot 0; Text 0; Put; Return -> 'hi', normal, tick 13
Push 1; Call 1; Return; Routine 1; Arg 0; Arg 0 -> broken at 4, tick 4
Push 1; Call 1; Return; Routine 1; Arg 1 -> broken at 3, tick 3
Push 1; Call 1; Return; Routine 2; Return -> broken at 1, tick 2
Text 0; Call 1; Return; Routine 1; Peek 0 -> broken at 3, tick 7
Call 1 -> broken at 0, tick 1
Call -1 -> broken at 0, tick 1
Call 0 2 -> broken at 0, tick 1
Call 1; Return; Routine 0 1; Slot 0 -> error 1 at 3, tick 2
Call 1; Load; Return; Routine 0 1; Push 0; Make 0; Slot 0; Return -> error 11 at 2, tick 7
Call 0 -> budget, tick 10000
Call 0 -> error 25 at 1, tick 10001 | 20000
Text 0; Call 1; Return; Routine 1; Arg 0; Call 1 -> error 25 at 5, tick 60006 | 80000";

/// The routine that gives the value of a component of an array to others, with the one that leaves two operands in the
/// other order: for components 3 to 5, of which the last is written; for the last one only, so that the one before it
/// has no value; and for components up to the greatest number.
const FILLED: &str = "\
Push 1; Push 5; TOrd; Push 0; TArr; Make 0; Slot 0; Push 1; Index; Push 7; Store; Slot 0; Push 1; Push 3; Push 5; \
Call 2; Unit -1 1; Slot 0; Push 5; Index; Load; Form; Put; Return; \
Routine 2; Arg 1; Arg 0; Return; \
Routine 4 1; Arg 0; Bind 0; Peek 2; Dup; Slot 0; Call 1; Index; Slot 0; Peek 1; Index; Load; Store; \
Dup; Peek 3; Cmp 2; JumpFalse 46; Push 1; Add; Jump 30; Drop; Return -> '7', normal, tick 90
Push 1; Push 5; TOrd; Push 0; TArr; Make 0; Slot 0; Push 1; Index; Push 7; Store; Slot 0; Push 1; Push 5; Push 5; \
Call 2; Unit -1 1; Slot 0; Push 4; Index; Load; Form; Put; Return; \
Routine 2; Arg 1; Arg 0; Return; \
Routine 4 1; Arg 0; Bind 0; Peek 2; Dup; Slot 0; Call 1; Index; Slot 0; Peek 1; Index; Load; Store; \
Dup; Peek 3; Cmp 2; JumpFalse 46; Push 1; Add; Jump 30; Drop; Return -> error 1 at 21, tick 47
Push 9223372036854775806; Push 9223372036854775807; TOrd; Push 0; TArr; Make 0; Slot 0; Push 9223372036854775806; \
Index; Push 7; Store; Slot 0; Push 9223372036854775806; Push 9223372036854775806; Push 9223372036854775807; Call 2; \
Unit -1 1; Slot 0; Push 9223372036854775807; Index; Load; Form; Put; Return; \
Routine 2; Arg 1; Arg 0; Return; \
Routine 4 1; Arg 0; Bind 0; Peek 2; Dup; Slot 0; Call 1; Index; Slot 0; Peek 1; Index; Load; Store; \
Dup; Peek 3; Cmp 2; JumpFalse 46; Push 1; Add; Jump 30; Drop; Return -> '7', normal, tick 68";

/// Levels of routines: the second one is declared in the first, and the third in it too.
const LEVELS: &str = "\
Call 1; Return; Routine 0 1; Push 0; Make 0; Slot 0; Push 5; Store; Call 2 1; Return; \
Routine; Unit -1 1; Slot 0 1; Load; Form; Put; Return -> '5', normal, tick 18
Call 1; Return; Routine 0 1; Push 0; Make 0; Slot 0; Push 6; Store; Call 2 1; Return; \
Routine; Call 3 2; Return; Routine; Unit -1 1; Slot 0 1; Load; Form; Put; Return -> '6', normal, tick 20
Call 1; Return; Routine 0 1; Call 2 1; Return; Routine; Slot 0 1 -> error 1 at 5, tick 3
Call 1; Return; Routine 0 1; Call 2 1; Return; Routine; Slot 0 2 -> error 1 at 5, tick 3
Call 1; Return; Routine 0 1; Call 2 1; Return; Routine; Slot 0 3 -> broken at 4, tick 3
Call 1; Return; Routine 0 1; Call 2; Return; Routine; Slot 0 2 -> broken at 4, tick 3
Call 1; Return; Routine 0 1; Call 2 3; Return; Routine; Return -> broken at 2, tick 2";

/// Numbers.
const SUMS: &str = "\
Push 9223372036854775807; Push 1; Add -> error 8 at 3, tick 3
Push -9223372036854775807; Push 1; Sub -> error 8 at 3, tick 3
Unit -1 1; Push -7; Push 6; Mul; Form; Put; Return -> '-42', normal, tick 13
Unit -1 1; Push -7; Push 2; Div; Form; Put; Return -> '-3', normal, tick 11
Unit -1 1; Push -7; Push 2; Mod; Form; Put; Return -> '1', normal, tick 9
Push 7; Push -2; Mod -> error 9 at 3, tick 3
Push 7; Push 0; Div -> error 9 at 3, tick 3
Unit -1 1; Push 7; Neg; Abs; Sqr; Form; Put; Return -> '49', normal, tick 12
Unit -1 1; Push -3; Odd; Form; Put; Return -> '1', normal, tick 8
Push 1; Add -> broken at 1, tick 2
Push 1; Text 0; Add -> broken at 2, tick 5
Push 1; Push 1; Add 1 -> broken at 2, tick 3";

/// Truth values, comparisons and bounds.
const TRUTHS: &str = "\
Unit -1 1; Push 0; Not; Form 1; Put; Return -> 'True', normal, tick 14
Push 2; Not -> broken at 1, tick 2
Unit -1 1; Push 1; Push 0; And; Form; Put; Return -> '0', normal, tick 9
Unit -1 1; Push 1; Push 0; Or; Form; Put; Return -> '1', normal, tick 9
Push 1; Push 2; Or -> broken at 2, tick 3
Unit -1 1; Push 1; Push 2; Cmp 2; Form; Put; Return -> '1', normal, tick 9
Unit -1 1; Push 1; Push 2; Cmp 5; Form; Put; Return -> '0', normal, tick 9
Push 1; Push 2; Cmp 6 -> broken at 2, tick 3
Unit -1 1; Push 3; Push 1; Push 5; Between; Form; Put; Return -> '1', normal, tick 10
Push 6; Push 1; Push 5; Check 3 -> error 3 at 4, tick 4
Push 3; Push 1; Push 5; Check 26 -> broken at 3, tick 4
Unit -1 1; Push 5; Push 2; Push 1; Push 7; Step; Form; Put; Return -> '7', normal, tick 11
Push 5; Push 3; Push 1; Push 7; Step -> error 14 at 5, tick 5";

/// Ordinal types.
const TYPES: &str = "\
Unit -1 1; Push 1; Push 5; TOrd; Drop; Push 0; Push 255; TOrd; Form; Put; Return -> '1', normal, tick 13
Unit -1 1; Push 1; Push 5; TOrd; Drop; Push 1; Push 5; TOrd; Form; Put; Return -> '5', normal, tick 13
Push 5; Push 1; TOrd -> error 5 at 3, tick 3
Push 1; Push 5; TOrd; Make 0; Slot 0; Push 6; Store -> error 2 at 7, tick 8";

/// Array types, by the numbers of an index type and a component type: 0 integer, 1 char, 2 Boolean, 3 text, 4 pointer.
/// A variable of one has 16,777,216 words at most.
const ARRAY_TYPES: &str = "\
Unit -1 1; Push 1; Push 3; TOrd; Push 0; TArr; Form; Put; Return -> '6', normal, tick 11
Unit -1 1; Push 2; Push 0; TArr; Form; Put; Return -> '5', normal, tick 9
Unit -1 1; Push 2; Push 0; TArr; Drop; Push 2; Push 0; TArr; Form; Put; Return -> '5', normal, tick 13
Unit -1 1; Push 2; Push 0; TArr; Drop; Push 2; Push 1; TArr; Form; Put; Return -> '6', normal, tick 13
Unit -1 1; Push 2; Push 0; TArr; Drop; Push 1; Push 0; TArr; Form; Put; Return -> '6', normal, tick 13
Unit -1 1; Push 2; Push 0; TArr; Drop; Push 0; Push 1; TOrd; Form; Put; Return -> '2', normal, tick 13
Unit -1 1; Push 2; Push 2; Push 0; TArr; TArr; Form; Put; Return -> '6', normal, tick 11
Unit -1 1; Push 1; Push 16777216; TOrd; Push 0; TArr; Form; Put; Return -> '6', normal, tick 11
Push 1; Push 16777217; TOrd; Push 0; TArr -> error 24 at 5, tick 5
Unit -1 1; Push 1; Push 4096; TOrd; Push 1; Push 4096; TOrd; Push 0; TArr; TArr; Form; Put; \
Return -> '7', normal, tick 15
Push 1; Push 4096; TOrd; Push 1; Push 4097; TOrd; Push 0; TArr; TArr -> error 24 at 9, tick 9
Push 0; Push 0; TArr -> error 24 at 3, tick 3
Push 0; Push 1; Push 16777216; TOrd; Push 0; TArr; TArr -> error 24 at 7, tick 7
Push -9223372036854775808; Push 9223372036854775807; TOrd; Push 0; TArr -> error 24 at 5, tick 5
Push 1; Push 16777216; TOrd; Push 0; TArr; Make 0 -> error 24 at 6, tick 6
Push 3; Push 0; TArr -> broken at 2, tick 3
Push 4; Push 0; TArr -> broken at 2, tick 3
Push 2; Push 0; TArr; Push 0; TArr -> broken at 4, tick 5
Push 5; Push 0; TArr -> broken at 2, tick 3
Push -1; Push 0; TArr -> broken at 2, tick 3
Push 2; Push 5; TArr -> broken at 2, tick 3
Push 2; Push -1; TArr -> broken at 2, tick 3
Push 2; TArr -> broken at 1, tick 2
Unit -1 1; Push 0; TArr -> broken at 2, tick 3
Push 2; Push 0; TArr 1 -> broken at 2, tick 3
Push 2; Push 0; TArr 0 1 -> broken at 2, tick 3";

/// Components of arrays. Those of one type stand one behind the other.
const COMPONENTS: &str = "\
Unit -1 1; Push 1; Push 3; TOrd; Push 0; TArr; Make 0; \
Slot 0; Push 1; Index; Push 7; Store; Slot 0; Push 3; Index; Push 9; Store; \
Slot 0; Push 1; Index; Load; Slot 0; Push 3; Index; Load; Sub; Form; Put; Return -> '-2', normal, tick 36
Push 1; Push 3; TOrd; Push 0; TArr; Make 0; Slot 0; Push 1; Index; Push 7; Store; \
Slot 0; Push 2; Index; Load -> error 1 at 15, tick 18
Push 1; Push 3; TOrd; Push 0; TArr; Make 0; Slot 0; Push 0; Index -> error 3 at 9, tick 12
Push 1; Push 3; TOrd; Push 0; TArr; Make 0; Slot 0; Push 4; Index -> error 3 at 9, tick 12
Push 1; Push 3; TOrd; Push 0; TArr; Make 0; Slot 0; Push -9223372036854775808; Index -> error 3 at 9, tick 12
Unit -1 1; Push -2; Push 1; TOrd; Push 0; TArr; Make 0; \
Slot 0; Push -2; Index; Push 5; Store; Slot 0; Push 1; Index; Push 7; Store; \
Slot 0; Push -2; Index; Load; Slot 0; Push 1; Index; Load; Sub; Form; Put; Return -> '-2', normal, tick 37
Push -2; Push 1; TOrd; Push 0; TArr; Make 0; Slot 0; Push -3; Index -> error 3 at 9, tick 13
Push -2; Push 1; TOrd; Push 0; TArr; Make 0; Slot 0; Push 2; Index -> error 3 at 9, tick 13
Unit -1 1; Push 2; Push 1; Push 3; TOrd; Push 0; TArr; TArr; Make 0; \
Slot 0; Push 1; Index; Push 2; Index; Push 5; Store; Slot 0; Push 0; Index; Push 3; Index; Push 7; Store; \
Slot 0; Push 1; Index; Push 2; Index; Load; Slot 0; Push 0; Index; Push 3; Index; Load; Sub; Form; Put; \
Return -> '-2', normal, tick 49
Push 2; Push 1; Push 3; TOrd; Push 0; TArr; TArr; Make 0; Slot 0; Push 1; Index; Push 4; \
Index -> error 3 at 13, tick 19
Push 2; Push 1; Push 3; TOrd; Push 0; TArr; TArr; Make 0; Slot 0; Push 1; Index; Load; Halt -> halt, tick 22
Push 2; Push 2; TArr; Make 0; Slot 0; Push 1; Index; Push 2; Store -> error 2 at 9, tick 11
Push 2; Push 0; TArr; Make 0; Slot 0; Push 1; Store -> broken at 6, tick 9
Push 2; Push 0; TArr; Make 0; Slot 0; Undefine; Halt -> halt, tick 11
Push 2; Push 0; TArr; Make 0; Slot 0; Undefine; Halt -> budget, tick 7 | 9
Push 2; Push 0; TArr; New; Dup; Deref; Bind 0; Dispose; Slot 0; Undefine -> error 11 at 10, tick 14
Push 0; Push 2; TRec 2; Make 0; Slot 0; Field 0; Push 5; Store; Slot 0; Undefine; Slot 0; Field 0; \
Load -> error 1 at 13, tick 19
Unit -1 1; Push 0; Push 2; Push 0; TArr; TRec 2; Make 0; Slot 0; Field 0; Push 5; Store; Slot 0; Field 1; \
Undefine; Slot 0; Field 0; Load; Form; Put; Return -> '5', normal, tick 29
TRec 0; Make 0; Slot 0; Undefine; Halt -> halt, tick 5
Push 2; Push 0; TArr; Make 0; Slot 0; Defined -> broken at 5, tick 8
Push 2; Push 0; TArr; Make 0; Slot 0; Text 0; Put -> broken at 6, tick 11
Push 0; Make 0; Slot 0; Push 1; Index -> broken at 4, tick 6
Unit -1 1; Push 0; Index -> broken at 2, tick 3
Push 1; Push 1; Index -> broken at 2, tick 3
Push 2; Push 0; TArr; Make 0; Slot 0; Text 0; Index -> broken at 6, tick 11
Push 1; Index -> broken at 1, tick 2
Index -> broken at 0, tick 1
Push 2; Push 0; TArr; Make 0; Slot 0; Push 1; Index 1 -> broken at 6, tick 9
Push 2; Push 0; TArr; Make 0; Slot 0; Push 1; Index 0 1 -> broken at 6, tick 9
Push 2; Push 0; TArr; New; Dup; Deref; Bind 0; Dispose; Slot 0; Push 1; Index -> error 11 at 11, tick 13
Push 2; Push 0; TArr; New; Dup; Deref; Bind 0; Dispose; Slot 0; Push 5; Index -> error 11 at 11, tick 13
Push 2; Push 0; TArr; New; Dup; Deref; Push 1; Index; Bind 0; Dispose; Slot 0; Load -> error 11 at 12, tick 14";

/// Values of arrays and records, which have the words of their variables.
const VALUES: &str = "\
Unit -1 1; Push 2; Push 0; TArr; Make 0; Slot 0; Push 1; Index; Push 9; Store; \
Push 2; Push 0; TArr; New; Dup; Deref; Slot 0; Load; Store; Deref; Push 1; Index; Load; Form; Put; \
Return -> '9', normal, tick 36
Push 2; Push 0; TArr; Make 0; Slot 0; Push 1; Index; Push 9; Store; \
Push 2; Push 0; TArr; New; Dup; Deref; Slot 0; Load; Store; Deref; Push 0; Index; Load -> error 1 at 22, tick 30
Unit -1 1; Push 0; Push 2; TRec 2; Make 0; Slot 0; Field 0; Push 5; Store; \
Push 0; Push 2; TRec 2; New; Dup; Deref; Slot 0; Load; Store; Deref; Field 0; Load; Form; Put; \
Return -> '5', normal, tick 38
Unit -1 1; Push 2; Push 2; Push 0; TArr; TArr; Make 0; Slot 0; Push 0; Index; Push 1; Index; Push 6; Store; \
Slot 0; Push 1; Index; Slot 0; Push 0; Index; Load; Store; \
Slot 0; Push 1; Index; Push 1; Index; Load; Form; Put; Return -> '6', normal, tick 41
Push 2; Push 0; TArr; Make 0; Slot 0; Load; Drop; Return -> normal, tick 14
Push 2; Push 0; TArr; Make 0; Slot 0; Load; Dup; Halt -> halt, tick 18
Push 2; Push 0; TArr; Make 0; Slot 0; Load; Halt -> budget, tick 7 | 9
Push 2; Push 0; TArr; Make 0; Slot 0; Load; Halt -> halt, tick 11 | 11
Push 2; Push 0; TArr; Make 0; Slot 0; Load; Like; Make 0; Drop; Slot 0; Push 0; Index; Load -> error 1 at 13, tick 21
Push 2; Push 0; TArr; Make 0; Push 2; Push 2; TArr; New; Deref; Slot 0; Load; Store -> error 6 at 12, tick 20
Push 2; Push 0; TArr; Make 0; Push 0; New; Deref; Slot 0; Load; Store -> broken at 9, tick 15
Push 2; Push 0; TArr; Make 0; Push 0; Slot 0; Load; Store -> broken at 7, tick 12
Push 2; Push 0; TArr; Make 0; Slot 0; Load; Load -> broken at 6, tick 11
Push 2; Push 0; TArr; Make 0; Slot 0; Load; Push 1; Add -> broken at 7, tick 12
Push 2; Push 0; TArr; New; Dup; Deref; Bind 0; Dispose; Slot 0; Load -> error 11 at 10, tick 12
Push 2; Push 0; TArr; New; Deref; Dup; Load; Push 3; Dispose; Store -> error 11 at 10, tick 16
Unit -1 1; Push 2; Push 0; TArr; Make 0; Slot 0; Push 0; Index; Push 8; Store; Slot 0; Load; Call 1; Form; Put; \
Return; \
Routine 1 1; Push 2; Push 0; TArr; Make 0; Slot 0; Arg 0; Store; Slot 0; Push 0; Index; Load; \
Return -> '8', normal, tick 42
Call 1; Drop; Return; Routine 0 1; Push 2; Push 0; TArr; Make 0; Slot 0; Load; Return -> normal, tick 16
Push 2; Push 0; TArr; Make 0; Slot 0; Load; Call 1; Return; Routine 1; Peek 0 -> broken at 8, tick 14";

/// Components of values, which leave what `Load` leaves of a variable.
const PARTS: &str = "\
Unit -1 1; Push 2; Push 0; TArr; Make 0; Slot 0; Push 1; Index; Push 9; Store; \
Slot 0; Load; Push 1; Index; Form; Put; Return -> '9', normal, tick 25
Unit -1 1; Push 0; Push 2; TRec 2; Make 0; Slot 0; Field 0; Push 5; Store; \
Slot 0; Load; Field 0; Form; Put; Return -> '5', normal, tick 25
Unit -1 1; Push 2; Push 2; Push 0; TArr; TArr; Make 0; Slot 0; Push 0; Index; Push 1; Index; Push 6; Store; \
Slot 0; Load; Push 0; Index; Push 1; Index; Form; Put; Return -> '6', normal, tick 41
Push 2; Push 0; TArr; Make 0; Slot 0; Load; Push 0; Index -> error 1 at 8, tick 14
Push 2; Push 0; TArr; Make 0; Slot 0; Load; Push 2; Index -> error 3 at 8, tick 14
Push 2; Push 0; TArr; Make 0; Slot 0; Load; Push 1; Index; Halt -> budget, tick 11 | 13
Push 0; Push 2; TRec 2; Make 0; Slot 0; Load; Field 1 -> error 1 at 7, tick 15
Push 2; Push 0; TArr; Make 0; Slot 0; Load; Field 0 -> broken at 6, tick 11
Push 0; Push 2; TRec 2; Make 0; Slot 0; Load; Push 0; Index -> broken at 7, tick 14
Push 0; Push 2; TRec 2; Make 0; Slot 0; Load; Field 2 -> broken at 6, tick 13
Unit -1 1; Push 0; TRec 1; Make 0; Slot 0; Load; Defined; Form; Put; Return -> '0', normal, tick 15
Unit -1 1; Push 0; TRec 1; Make 0; Slot 0; Field 0; Push 5; Store; Slot 0; Load; Defined; Form; Put; \
Return -> '1', normal, tick 19
Push 0; Push 2; TRec 2; Make 0; Slot 0; Load; Defined -> broken at 6, tick 13";

/// A component and its value, which are done as one: with both, with one tick left or none, with an error of the first or
/// of the second, of a value, and where a jump leads to the second alone.
const PAIRS: &str = "\
Push 2; Push 0; TArr; Make 0; Slot 0; Push 1; Index; Push 9; Store; Slot 0; Push 1; Index; Load; Halt -> halt, tick 16
Push 2; Push 0; TArr; Make 0; Slot 0; Push 1; Index; Push 9; Store; Slot 0; Push 1; Index; Load; \
Halt -> budget, tick 14 | 13 1
Push 2; Push 0; TArr; Make 0; Slot 0; Push 1; Index; Push 9; Store; Slot 0; Push 1; Index; Load; \
Halt -> budget, tick 15 | 13 2
Push 2; Push 0; TArr; Make 0; Slot 0; Push 1; Index; Push 9; Store; Slot 0; Push 1; Index; Load; \
Halt -> halt, tick 16 | 14 9
Push 2; Push 0; TArr; Make 0; Slot 0; Push 2; Index; Load -> error 3 at 7, tick 9
Push 2; Push 0; TArr; Make 0; Slot 0; Push -1; Index; Load -> error 3 at 7, tick 9
Push 2; Push 0; TArr; Make 0; Slot 0; Push 1; Index; Load -> error 1 at 8, tick 10
Push 2; Push 0; TArr; Make 0; Slot 0; Push 1; Index; Load -> budget, tick 9 | 9
Push 2; Push 0; TArr; New; Dup; Deref; Bind 0; Dispose; Slot 0; Push 1; Index; Load -> error 11 at 11, tick 13
Push 1; Push 1; Index; Load -> broken at 2, tick 3
Push 2; Push 0; TArr; Make 0; Slot 0; Push 1; Index; Push 9; Store; Slot 0; Load; Push 1; Index; \
Load -> broken at 13, tick 20
Push 0; Make 0; Slot 0; Push 5; Store; Slot 0; Jump 8; Index; Load; Halt -> halt, tick 10
Push 0; Push 2; TRec 2; Make 0; Slot 0; Field 0; Push 5; Store; Slot 0; Field 0; Load; Halt -> halt, tick 16
Push 0; Push 2; TRec 2; Make 0; Slot 0; Field 0; Push 5; Store; Slot 0; Field 0; Load; Halt -> budget, tick 14 | 13 1
Push 0; Push 2; TRec 2; Make 0; Slot 0; Field 0; Push 5; Store; Slot 0; Field 0; Load; Halt -> budget, tick 15 | 13 2
Push 0; Push 2; TRec 2; Make 0; Slot 0; Field 0; Push 5; Store; Slot 0; Field 0; Load; Halt -> halt, tick 16 | 14 9
Push 0; Push 2; TRec 2; Make 0; Slot 0; Field 1; Load -> error 1 at 7, tick 11
Push 0; TRec 1; New; Dup; Deref; Bind 0; Dispose; Slot 0; Field 0; Load -> error 11 at 9, tick 11
Push 0; Push 2; TRec 2; Make 0; Slot 0; Field 2; Load -> broken at 5, tick 10
Push 0; TRec 1; Make 0; Slot 0; Field 0; Push 5; Store; Slot 0; Load; Field 0; Load -> broken at 10, tick 15
Push 0; Make 0; Slot 0; Push 5; Store; Slot 0; Jump 8; Field 0; Load; Halt -> halt, tick 10";

/// Sets and what is made of them. No member is less than 0 or greater than 255.
const SETS: &str = "\
Unit -1 1; SetNone; Card; Form; Put; Return -> '0', normal, tick 8
Unit -1 1; SetNone; Push 3; SetAdd; Push 255; SetAdd; Push 3; SetAdd; Card; Form; Put; Return -> '2', normal, tick 14
SetNone; Push 256; SetAdd -> error 23 at 3, tick 3
SetNone; Push -1; SetAdd -> error 23 at 3, tick 3
Unit -1 1; SetNone; Push 30; Push 34; SetSpan; Card; Form; Put; Return -> '5', normal, tick 11
Unit -1 1; SetNone; Push 300; Push 299; SetSpan; Card; Form; Put; Return -> '0', normal, tick 11
Unit -1 1; SetNone; Push 0; Push 255; SetSpan; Card; Form; Put; Return -> '256', normal, tick 15
SetNone; Push 0; Push 256; SetSpan -> error 23 at 4, tick 4
SetNone; Push -1; Push 5; SetSpan -> error 23 at 4, tick 4
Unit -1 1; Push 32; SetNone; Push 30; Push 34; SetSpan; In; Form; Put; Return -> '1', normal, tick 12
Unit -1 1; Push 35; SetNone; Push 30; Push 34; SetSpan; In; Form; Put; Return -> '0', normal, tick 12
Unit -1 1; Push 62; SetNone; Push 30; Push 34; SetSpan; In; Form; Put; Return -> '0', normal, tick 12
Unit -1 1; Push 288; SetNone; Push 30; Push 34; SetSpan; In; Form; Put; Return -> '0', normal, tick 12
Unit -1 1; Push -9223372036854775807; SetNone; Push 30; Push 34; SetSpan; In; Form; Put; \
Return -> '0', normal, tick 12
Unit -1 1; Push 31; SetNone; Push 5; SetAdd; Push 200; SetAdd; Next; Form; Put; Return -> '200', normal, tick 17
Unit -1 1; Push 200; SetNone; Push 5; SetAdd; Push 200; SetAdd; Next; Form; Put; Return -> '200', normal, tick 17
Unit -1 1; Push 201; SetNone; Push 5; SetAdd; Push 200; SetAdd; Next; Form; Put; Return -> '-1', normal, tick 15
Unit -1 1; Push -7; SetNone; Push 5; SetAdd; Push 200; SetAdd; Next; Form; Put; Return -> '5', normal, tick 13
Unit -1 1; Push 0; SetNone; Push 1; SetAdd; Push 2; SetAdd; SetNone; Push 2; SetAdd; Push 3; SetAdd; \
SetOp 1; Next; Form; Put; Return -> '1', normal, tick 19
Unit -1 1; Push 0; SetNone; Push 1; SetAdd; Push 2; SetAdd; SetNone; Push 2; SetAdd; Push 3; SetAdd; \
SetOp 2; Next; Form; Put; Return -> '2', normal, tick 19
Unit -1 1; Push 2; SetNone; Push 1; SetAdd; Push 2; SetAdd; SetNone; Push 2; SetAdd; Push 3; SetAdd; \
SetOp 3; In; Form; Put; Return -> '0', normal, tick 19
Unit -1 1; SetNone; Push 1; SetAdd; Push 2; SetAdd; SetNone; Push 2; SetAdd; Push 3; SetAdd; SetOp; Card; \
Form; Put; Return -> '3', normal, tick 18
Unit -1 1; SetNone; Push 1; SetAdd; Push 2; SetAdd; SetNone; Push 2; SetAdd; Push 3; SetAdd; SetOp 1; Card; \
Form; Put; Return -> '1', normal, tick 18
Unit -1 1; SetNone; Push 1; SetAdd; Push 2; SetAdd; SetNone; Push 2; SetAdd; Push 3; SetAdd; SetOp 2; Card; \
Form; Put; Return -> '1', normal, tick 18
Unit -1 1; SetNone; Push 1; SetAdd; Push 2; SetAdd; SetNone; Push 2; SetAdd; Push 3; SetAdd; SetOp 3; Card; \
Form; Put; Return -> '2', normal, tick 18
SetNone; SetNone; SetOp 4 -> broken at 2, tick 3
SetNone; SetNone; SetOp -1 -> broken at 2, tick 3
Unit -1 1; SetNone; Push 1; SetAdd; SetNone; Push 1; SetAdd; Push 2; SetAdd; SetCmp; Form; Put; \
Return -> '0', normal, tick 15
Unit -1 1; SetNone; Push 1; SetAdd; SetNone; Push 1; SetAdd; Push 2; SetAdd; SetCmp 1; Form; Put; \
Return -> '1', normal, tick 15
Unit -1 1; SetNone; Push 1; SetAdd; SetNone; Push 1; SetAdd; Push 2; SetAdd; SetCmp 4; Form; Put; \
Return -> '1', normal, tick 15
Unit -1 1; SetNone; Push 1; SetAdd; SetNone; Push 1; SetAdd; Push 2; SetAdd; SetCmp 5; Form; Put; \
Return -> '0', normal, tick 15
Unit -1 1; SetNone; Push 40; SetAdd; SetNone; Push 40; SetAdd; SetCmp; Form; Put; Return -> '1', normal, tick 13
Unit -1 1; SetNone; Push 40; SetAdd; SetNone; Push 40; SetAdd; SetCmp 1; Form; Put; Return -> '0', normal, tick 13
Unit -1 1; SetNone; Push 40; SetAdd; SetNone; Push 40; SetAdd; SetCmp 5; Form; Put; Return -> '1', normal, tick 13
SetNone; SetNone; SetCmp 2 -> broken at 2, tick 3
SetNone; SetNone; SetCmp 3 -> broken at 2, tick 3
SetNone; SetNone; SetCmp 6 -> broken at 2, tick 3
Unit -1 1; SetNone; Push 3; SetAdd; Dup; SetCmp; Form; Put; Return -> '1', normal, tick 11
SetNone; Drop; Halt -> halt, tick 3
SetNone; Like -> broken at 1, tick 2
SetNone; Form -> broken at 1, tick 2
Unit -1 1; SetNone; Push 9; SetAdd; Call 1; Form; Put; Return; Routine 1; Arg 0; Card; Return -> '1', normal, tick 13
Push 1; SetAdd -> broken at 1, tick 2
SetNone; SetAdd -> broken at 1, tick 2
SetNone; Push 1; In -> broken at 2, tick 3
SetNone; In -> broken at 1, tick 2
Card -> broken at 0, tick 1
SetNone 1 -> broken at 0, tick 1
SetNone; SetNone; SetOp 0 1 -> broken at 2, tick 3";

/// Set types and their variables, which have eight words. The first set type is type 5.
const SET_VARIABLES: &str = "\
Unit -1 1; Push 1; TSet; Form; Put; Return -> '5', normal, tick 8
Unit -1 1; Push 1; TSet; Drop; Push 1; TSet; Form; Put; Return -> '5', normal, tick 11
Unit -1 1; Push 1; TSet; Drop; Push 2; TSet; Form; Put; Return -> '6', normal, tick 11
Push 0; TSet -> error 5 at 2, tick 2
Push -1; Push 5; TOrd; TSet -> error 5 at 4, tick 4
Push 0; Push 256; TOrd; TSet -> error 5 at 4, tick 4
Push 3; TSet -> broken at 1, tick 2
Push 4; TSet -> broken at 1, tick 2
Push 5; TSet -> broken at 1, tick 2
Push 1; TSet; TSet -> broken at 2, tick 3
Push 1; TSet 1 -> broken at 1, tick 2
SetNone; TSet -> broken at 1, tick 2
Push 1; TSet; Make 0; Slot 0; Load -> error 1 at 5, tick 13
Unit -1 1; Push 1; TSet; Make 0; Slot 0; SetNone; Push 97; SetAdd; Push 255; SetAdd; Push 0; SetAdd; Store; \
Slot 0; Load; Card; Form; Put; Return -> '3', normal, tick 29
Push 1; Push 5; TOrd; TSet; Make 0; Slot 0; SetNone; Push 6; SetAdd; Store -> error 23 at 10, tick 18
Push 1; Push 5; TOrd; TSet; Make 0; Slot 0; SetNone; Push 0; SetAdd; Store -> error 23 at 10, tick 18
Push 1; Push 5; TOrd; TSet; Make 0; Slot 0; SetNone; Push 1; Push 5; SetSpan; Store; Halt -> halt, tick 20
Push 1; TSet; Make 0; Slot 0; SetNone; Store; Slot 0; Undefine; Slot 0; Load -> error 1 at 10, tick 26
Push 1; TSet; New; Dup; Deref; Bind 0; Dispose; Slot 0; Load -> error 11 at 9, tick 17
Push 1; Push 5; TOrd; TSet; New; Dup; Deref; Bind 0; Dispose; Slot 0; SetNone; Push 6; SetAdd; \
Store -> error 11 at 14, tick 22
Push 1; TSet; New; Dup; Deref; Bind 0; Dispose; Slot 0; Undefine -> error 11 at 9, tick 25
Push 1; TSet; Make 0; Slot 0; Push 1; Store -> broken at 5, tick 14
Push 0; Make 0; Slot 0; SetNone; Store -> broken at 4, tick 6
Push 1; TSet; Make 0; Slot 0; Defined -> broken at 4, tick 13
Unit -1 1; Push 0; Push 1; TSet; TRec 2; Make 0; Slot 0; Field 1; SetNone; Push 7; SetAdd; Store; Slot 0; \
Field 1; Load; Card; Form; Put; Return -> '1', normal, tick 32
Unit -1 1; Push 1; TSet; TRec 1; Make 0; Slot 0; Field 0; SetNone; Push 7; SetAdd; Store; Slot 0; Load; \
Field 0; Card; Form; Put; Return -> '1', normal, tick 45
Push 1; TSet; TRec 1; Make 0; Slot 0; Load; Field 0 -> error 1 at 7, tick 32";

/// What is printed.
const PRINTS: &str = "\
Unit -1 1; Push 65; Chars; Put; Return -> 'A', normal, tick 7
Push 256; Chars -> broken at 1, tick 2
Unit -1 1; Push -12; Push 5; Form 0 1; Put; Return -> '  -12', normal, tick 16
Unit -1 1; Push -12; Push 2; Form 0 1; Put; Return -> '-12', normal, tick 12
Unit -1 1; Push 1; Push 2; Form 1 1; Put; Return -> 'Tr', normal, tick 10
Unit -1 1; Text 0; Push 1; Form 2 1; Put; Return -> 'h', normal, tick 12
Text 0; Push -1; Form 2 1 -> error 21 at 3, tick 7
Push 2; Form 1 -> broken at 1, tick 2
Push 2; Form 3 -> broken at 1, tick 2
Unit -1 0; Text 0; Put -> error 18 at 3, tick 7
Push 1; Text 0; Put -> broken at 2, tick 5
Push 0; Make 0; Slot 0; Text 0; Put -> broken at 4, tick 8";

#[test]
fn each_row_comes_to_what_the_table_of_instructions_says(rt: HostRuntime) -> Result<(), Fail> {
    for table in [
        OPERANDS,
        JUMPS,
        VARIABLES,
        PLACES,
        POINTERS,
        DISPOSALS,
        ARGUMENTS,
        CALLS,
        FILLED,
        LEVELS,
        SUMS,
        TRUTHS,
        TYPES,
        ARRAY_TYPES,
        COMPONENTS,
        VALUES,
        PARTS,
        PAIRS,
        SETS,
        SET_VARIABLES,
        PRINTS,
    ] {
        let differing = differing(rt.alloc(), table)?;
        assert_eq!(rt; differing.as_str(), "");
    }
    Ok(())
}

/// Types with initial states, and variables of them and of types that are made of them.
const INITIAL_STATES: &str = "\
Unit -1 1; Push 0; Push 3; TInit; Form; Put; Return -> '5', normal, tick 10
Unit -1 1; Push 0; Push 3; TInit; Drop; Push 0; Push 3; TInit; Form; Put; Return -> '5', normal, tick 15
Unit -1 1; Push 0; Push 3; TInit; Drop; Push 0; Push 4; TInit; Form; Put; Return -> '6', normal, tick 15
Push 0; Push 3; TInit; Make 0; Unit -1 1; Slot 0; Load; Form; Put; Return -> '3', normal, tick 14
Push 2; Push 2; TInit -> error 2 at 3, tick 3
Push 2; TSet; SetNone; Push 1; SetAdd; TInit; Make 0; Unit -1 1; Slot 0; Load; Card; Form; Put; \
Return -> '1', normal, tick 32
Push 2; TSet; SetNone; Push 2; SetAdd; TInit -> error 23 at 6, tick 6
Unit -1 1; Push 2; Push 0; Push 7; TInit; TArr; Form; Put; Return -> '7', normal, tick 12
Push 2; Push 0; Push 7; TInit; TArr; Make 0; Unit -1 1; Slot 0; Push 1; Index; Load; Form; Put; \
Return -> '7', normal, tick 19
Push 0; Push 7; TInit; Push 0; TRec 2; Make 0; Unit -1 1; Slot 0; Field 0; Load; Form; Put; \
Return -> '7', normal, tick 20
Push 0; Push 7; TInit; Push 0; TRec 2; Make 0; Slot 0; Field 1; Load -> error 1 at 9, tick 14
Push 2; Push 0; Push 7; TInit; TArr; Push 2; Push 0; TArr; TRec 2; Make 0; Slot 0; Field 1; Slot 0; Field 0; Load; \
Store; \
Unit -1 1; Slot 0; Field 1; Push 1; Index; Load; Form; Put; Return -> '7', normal, tick 38
Unit -1 1; Push 2; Push 0; TArr; Make 0; Slot 0; Push 1; Index; Push 9; Store; \
Push 2; Push 0; TArr; Slot 0; Load; TInit; New; Deref; Push 1; Index; Load; Form; Put; Return -> '9', normal, tick 36
Unit -1 1; Push 0; Push 2; TRec 2; Make 0; Slot 0; Field 0; Push 5; Store; \
Push 0; Push 2; TRec 2; Slot 0; Load; TInit; New; Deref; Field 0; Load; Form; Put; Return -> '5', normal, tick 38
Unit -1 1; Push 2; Push 0; TArr; Make 0; Push 2; Push 0; TArr; Slot 0; Load; TInit; Form; Put; \
Return -> '6', normal, tick 24
Push 2; Push 0; TArr; Make 0; Push 2; Push 0; Push 7; TInit; TArr; Slot 0; Load; TInit; New; Deref; Push 1; Index; \
Load -> error 1 at 17, tick 28
Push 2; Push 0; TArr; Make 0; Push 2; Push 0; TArr; Slot 0; Load; TInit; Halt -> budget, tick 13 | 17
Push 2; Push 0; TArr; Make 0; Push 2; Push 0; TArr; Slot 0; Load; TInit; Halt -> halt, tick 19 | 19
Push 2; Push 0; TArr; Make 0; Push 2; Push 2; TArr; Slot 0; Load; TInit -> error 6 at 10, tick 16
Push 2; Push 0; TArr; Make 0; Push 0; Slot 0; Load; TInit -> broken at 7, tick 12
Push 2; Push 0; TArr; Make 0; Slot 0; Load; TInit -> broken at 6, tick 11
Push 2; Push 0; TArr; Push 7; TInit -> broken at 4, tick 5
Push 3; Push 1; TInit -> broken at 2, tick 3
Push 0; SetNone; TInit -> broken at 2, tick 3
Push 0; TInit -> broken at 1, tick 2";

#[test]
fn variables_begin_in_their_initial_states(rt: HostRuntime) -> Result<(), Fail> {
    let differing = differing(rt.alloc(), INITIAL_STATES)?;
    assert_eq!(rt; differing.as_str(), "");
    Ok(())
}

/// Budgets of two runs, after the second one of which this is told.
const BUDGETS: &str = "\
Unit -1 1; Text 0; Put; Return -> budget, tick 0 | 0 0
Unit -1 1; Text 0; Put; Return -> budget, tick 1 | 1 0
Unit -1 1; Text 0; Put; Return -> budget, tick 1 | 3 0
Unit -1 1; Text 0; Put; Return -> budget, tick 4 | 4 0
Unit -1 1; Text 0; Put; Return -> budget, tick 4 | 6 0
Unit -1 1; Text 0; Put; Return -> 'hi', budget, tick 7 | 7 0
Unit -1 1; Text 0; Put; Return -> 'hi', normal, tick 8 | 8 0
Unit -1 1; Text 0; Put; Return -> budget, tick 4 | 3 5
Unit -1 1; Text 0; Put; Return -> 'hi', normal, tick 8 | 3 7
Push 1; Push 0; Div -> error 9 at 3, tick 3 | 9 9
Return -> normal, tick 1 | 0 1";

#[test]
fn a_run_stops_at_its_budget_and_a_further_one_goes_on(rt: HostRuntime) -> Result<(), Fail> {
    let differing = differing(rt.alloc(), BUDGETS)?;
    assert_eq!(rt; differing.as_str(), "");
    Ok(())
}

/// 16,777,216 words may live, of which `input` and `output` are 4 and a variable of one word is 2. So 8,388,606 of them
/// are made, each in five ticks with what stands around it, and the next one ends the run at its second tick. One that
/// is disposed of at once gives its words back, however often. An ordinal type is 1 word and an array type 2, so besides
/// these the array may have 16,777,208.
const STORAGE: &str = "\
Push 0; New; Drop; Jump 0 -> error 24 at 2, tick 41943032 | 50000000
Push 0; New; Dispose; Jump 0 -> budget, tick 45000000 | 45000000
Push 1; Push 16777208; TOrd; Push 0; TArr; Make 0; Return -> normal, tick 16777215 | 20000000
Push 1; Push 16777209; TOrd; Push 0; TArr; Make 0 -> error 24 at 6, tick 6 | 20000000";

#[test]
fn variables_are_made_up_to_the_limit_of_words_that_live(rt: HostRuntime) -> Result<(), Fail> {
    let differing = differing(rt.alloc(), STORAGE)?;
    assert_eq!(rt; differing.as_str(), "");
    Ok(())
}
