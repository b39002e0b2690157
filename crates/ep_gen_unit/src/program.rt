//! The object of a program.

ghost use Rattle.std.specs.Prelude.{◌≡◌, ◌+◌, ◌<◌, ◌^◌, OnOk, IfOk, length};
ghost use Rattle.ep_gen_code.specs.Growth.{Grows};
ghost use Rattle.ep_gen_unit.specs.StmtCode.{function_end, result_code, make_code, make_all_code, value_code, place_taken, take_code, take_all_code};
ghost use Rattle.ep_gen_unit.specs.StmtGrowth.{AppendsArrays, AppendsBlock, AppendsEnd, AppendsFill, AppendsShuffle, AppendsStart, AppendsRoutine, AppendsRoutines, AppendsSwap, AppendsType, AppendsTypes, Follows, IsCompact, MakesBlock, MakesOwn, MakesResult, assembled};
ghost use Rattle.ep_typed.specs.Auxiliaries.{with_variables};
ghost use Rattle.ep_typed.specs.Denoters.{host_of};
ghost use Rattle.ep_typed.specs.Routines.{made_by_unit, unit_block, unit_variables};
ghost use Rattle.ep_gen_type.specs.Ordinals.{Knows};
ghost use Rattle.ep_meaning.specs.Meaning.{line_where};
ghost use Rattle.ep_typed.specs.Viewed.{denoter_of, stmt_of};
ghost use Rattle.ep_gen_unit.specs.UnitCode.{HasProgramParts, IsUnitCode, routine_at};
ghost use Rattle.ep_gen_code.specs.declared.code.TheConstants as code_line;
ghost use Rattle.ep_gen_code.specs.declared.references.TheConstants as routine;
ghost use Rattle.ep_simulation.specs.Promises.{copying_code, first_code, next_code, ranging_code, row_code, spreading_code};

use crate::statements::statement_code;
use ep_base::{Line, List, Name, NoMemory};
use ep_gen_code::{Code, NO_LINE, SWAP, emit, field_number, next_place};
use ep_gen_expr::apply_binary;
use ep_gen_type::{OrdinalTypes, elaborate};
use ep_object::{CodeRoutine, CodeRoutines, Object, op};
use ep_typed::{
    Denoter, Formal, FormalMode, TypedStmt, Unit, UnitRoutine, UnitType, UnitVariable,
    block_auxiliaries, unit_auxiliaries, unit_with_count, with_count,
};
use ep_values::{Binary, run_error};
use std::alloc::{AllocError, Global};

/// Behind so many instructions a turn of the routine that fills begins.
const TURN: u64 = 3;

/// And behind so many its end.
const FILL_END: u64 = 19;

/// The object of a program. Its first routines are those of the program, by their numbers; the one after them makes
/// the variables and runs the block, the next one runs the statement of the stop, which a program leaves empty, then there is one
/// that leaves two operands in the other order and those that give values to components of arrays, and the last ones elaborate the
/// types, by their numbers. Where memory is wanting, or the code or a table would reach 2 ^ 32 - 1 entries, the program is refused.
pub fn program_code(alloc: Global, u: &Unit) -> Result<Object, NoMemory>
    ensures code { IfOk result (λ o. IsUnitCode u.now o) }
    ensures program { IfOk result (λ o. HasProgramParts o) }
    ensures compact { IfOk result (λ o. IsCompact o) }
{
    let name = u.name.copy(alloc)?;
    let slots = unit_slots(alloc, u)?;
    let mut code = Code::new(alloc, u)?;
    let stop_entry = start_code(alloc, u, &mut code)?;
    let mut routines = routines_code(alloc, u.types.items(), u.routines.items(), &mut code)?;
    let start = field_number(routines.items().len())?;
    routines.push(routine_at(0, 0, 0))?;
    routines.push(routine_at(stop_entry, 0, 0))?;
    let swap_entry = swap_code(&mut code)?;
    routines.push(routine_at(swap_entry, 2, 0))?;
    array_routines_code(&mut routines, &mut code)?;
    types_code(u.types.items(), &mut routines, &mut code)?;
    // A place of the code has to fit a field of an instruction.
    next_place(&code)?;
    assemble(alloc, name, code, routines, start, slots)
}

/// Appends the code of the start and of the stop, and answers the entry of the stop.
fn start_code(alloc: Global, u: &Unit, code: &mut Code) -> Result<u32, NoMemory>
    ensures { IfOk result (λ k. AppendsStart code.old code.new u.now k) }
{
    make_unit(alloc, u, code)?;
    block_code(alloc, &u.start, code)?;
    let stop_entry = next_place(code)?;
    block_code(alloc, &u.stop, code)?;
    Ok(stop_entry)
}

/// Appends the code of a block, and a `Return` behind it.
fn block_code(alloc: Global, block: &TypedStmt, code: &mut Code) -> Result<(), NoMemory>
    ensures { OnOk result (AppendsBlock code.old code.new (stmt_of block.now)) }
{
    statement_code(alloc, block, code)?;
    code.line = NO_LINE;
    emit(code, op::RETURN, 0, 0)
}

/// Appends the code of the routine that leaves two operands in the other order, and answers its entry.
fn swap_code(code: &mut Code) -> Result<u32, NoMemory>
    ensures { IfOk result (λ entry. AppendsSwap code.old code.new entry) }
{
    let entry = next_place(code)?;
    code.line = NO_LINE;
    emit(code, op::ARG, 1, 0)?;
    emit(code, op::ARG, 0, 0)?;
    emit(code, op::RETURN, 0, 0)?;
    Ok(entry)
}

/// Appends the code of the routines that give values to components of arrays, and their entries.
fn array_routines_code(routines: &mut CodeRoutines, code: &mut Code) -> Result<(), NoMemory>
    ensures { OnOk result (AppendsArrays code.old code.new routines.old routines.new) }
{
    let fill_entry = fill_code(code)?;
    let range_entry = range_code(code)?;
    let spread_entry = spread_code(code)?;
    routines.push(routine_at(fill_entry, 4, 1))?;
    routines.push(routine_at(range_entry, 3, 1))?;
    routines.push(routine_at(spread_entry, 5, 1))?;
    Ok(())
}

/// Appends the code of the routine that leaves the indexes of a range and what tests them, and answers its entry.
fn range_code(code: &mut Code) -> Result<u32, NoMemory>
    ensures { IfOk result (λ entry. AppendsShuffle code.old code.new (ranging_code code_line.NO_LINE) entry) }
{
    let entry = next_place(code)?;
    code.line = NO_LINE;
    emit(code, op::ARG, 0, 0)?;
    emit(code, op::BIND, 0, 0)?;
    emit(code, op::PEEK, 1, 0)?;
    emit(code, op::PEEK, 2, 0)?;
    emit(code, op::SLOT, 0, 0)?;
    emit(code, op::SLOT, 0, 0)?;
    emit(code, op::PEEK, 2, 0)?;
    emit(code, op::SLOT, 0, 0)?;
    emit(code, op::PEEK, 1, 0)?;
    emit(code, op::RETURN, 0, 0)?;
    Ok(entry)
}

/// Appends the code of the routine that leaves what the components with the indexes of a range are given by, and answers its
/// entry.
fn spread_code(code: &mut Code) -> Result<u32, NoMemory>
    ensures { IfOk result (λ entry. AppendsShuffle code.old code.new (spreading_code code_line.NO_LINE) entry) }
{
    let entry = next_place(code)?;
    code.line = NO_LINE;
    leave_row(code)?;
    leave_first(code)?;
    Ok(entry)
}

/// Appends what leaves the place and the value, and above them what the routine that fills takes.
fn leave_row(code: &mut Code) -> Result<(), NoMemory>
    ensures { OnOk result (Grows code.old code.new (row_code code.old.line)) }
{
    emit(code, op::ARG, 2, 0)?;
    emit(code, op::BIND, 0, 0)?;
    emit(code, op::SLOT, 0, 0)?;
    emit(code, op::ARG, 3, 0)?;
    emit(code, op::SLOT, 0, 0)?;
    emit(code, op::PEEK, 0, 0)?;
    emit(code, op::PEEK, 0, 0)?;
    emit(code, op::PEEK, 1, 0)
}

/// Appends what leaves the value again, the first component by the place and its index, and whether there is one.
fn leave_first(code: &mut Code) -> Result<(), NoMemory>
    ensures { OnOk result (Grows code.old code.new (first_code code.old.line)) }
{
    emit(code, op::ARG, 4, 0)?;
    emit(code, op::SLOT, 0, 0)?;
    emit(code, op::PEEK, 0, 0)?;
    emit(code, op::PEEK, 0, 0)?;
    emit(code, op::PEEK, 1, 0)?;
    apply_binary(Binary::AtMost, code)?;
    emit(code, op::RETURN, 0, 0)
}

/// Appends the code of the routine that gives the value of a component of an array to others, and answers its entry.
fn fill_code(code: &mut Code) -> Result<u32, NoMemory>
    ensures { IfOk result (λ entry. AppendsFill code.old code.new entry) }
{
    let entry = next_place(code)?;
    code.line = NO_LINE;
    emit(code, op::ARG, 0, 0)?;
    emit(code, op::BIND, 0, 0)?;
    emit(code, op::PEEK, 2, 0)?;
    copy_component(code)?;
    next_component(entry, code)?;
    Ok(entry)
}

/// Appends what stores the value of the component of which it is given in the one with the index on top, which stays there.
fn copy_component(code: &mut Code) -> Result<(), NoMemory>
    ensures { OnOk result (Grows code.old code.new (copying_code routine.SWAP code.old.line)) }
{
    emit(code, op::DUP, 0, 0)?;
    emit(code, op::SLOT, 0, 0)?;
    emit(code, op::CALL, SWAP as i64, 0)?;
    emit(code, op::INDEX, 0, 0)?;
    emit(code, op::SLOT, 0, 0)?;
    emit(code, op::PEEK, 1, 0)?;
    emit(code, op::INDEX, 0, 0)?;
    emit(code, op::LOAD, 0, 0)?;
    emit(code, op::STORE, 0, 0)
}

/// Appends what goes on with the next index, in the code that begins at this entry, or returns behind the last one.
fn next_component(entry: u32, code: &mut Code) -> Result<(), NoMemory>
    ensures { OnOk result (Grows code.old code.new (next_code entry code.old.line)) }
{
    emit(code, op::DUP, 0, 0)?;
    emit(code, op::PEEK, 3, 0)?;
    apply_binary(Binary::Less, code)?;
    emit(code, op::JUMP_FALSE, (entry as u64 + FILL_END) as i64, 0)?;
    emit(code, op::PUSH, 1, 0)?;
    emit(code, op::ADD, 0, 0)?;
    emit(code, op::JUMP, (entry as u64 + TURN) as i64, 0)?;
    emit(code, op::DROP, 0, 0)?;
    emit(code, op::RETURN, 0, 0)
}

/// Appends the code of the routines that elaborate these types, and their entries to the others.
fn types_code(
    types: &[UnitType],
    routines: &mut CodeRoutines,
    code: &mut Code,
) -> Result<(), NoMemory>
    ensures { OnOk result (AppendsTypes code.old code.new types.now routines.old routines.new) }
{
    for t in types {
        let entry = elaborating_code(t, code)?;
        routines.push(routine_at(entry, 0, 0))?;
    }
    Ok(())
}

/// Appends the code of the routine that elaborates a type, and answers its entry.
fn elaborating_code(t: &UnitType, code: &mut Code) -> Result<u32, NoMemory>
    ensures { IfOk result (λ entry. AppendsType code.old code.new t.now entry) }
{
    let entry = next_place(code)?;
    code.line = definition_line(t);
    elaborate(&t.entry.denoter, code)?;
    emit(code, op::RETURN, 0, 0)?;
    Ok(entry)
}

/// The line of a type's definition, where the unit writes it.
fn definition_line(t: &UnitType) -> Line
    ensures { result ≡ line_where t.now.line }
{
    match t.line {
        None => NO_LINE,
        Some(line) => line,
    }
}

/// A routine with this entry, and with so many arguments and slots.
fn routine_at(entry: u32, arguments: u32, slots: u32) -> CodeRoutine
    ensures { result ≡ routine_at entry arguments slots }
{
    CodeRoutine {
        entry,
        arguments,
        slots,
    }
}

/// Appends the code of routines of a unit with these types, and answers their entries.
fn routines_code(
    alloc: Global,
    types: &[UnitType],
    routines: &[UnitRoutine],
    code: &mut Code,
) -> Result<CodeRoutines, NoMemory>
    ensures { IfOk result (λ entries. AppendsRoutines code.old code.new types.now routines.now entries) }
{
    let mut entries = List::new(alloc);
    let ordinals = OrdinalTypes::of(alloc, types)?;
    for routine in routines {
        let entry = routine_code(alloc, types, &ordinals, routine, code)?;
        entries.push(entry)?;
    }
    Ok(entries)
}

/// Appends the code of a routine of a unit with these types.
fn routine_code(
    alloc: Global,
    types: &[UnitType],
    ordinals: &OrdinalTypes,
    routine: &UnitRoutine,
    code: &mut Code,
) -> Result<CodeRoutine, NoMemory>
    requires { Knows types.now ordinals.now }
    ensures { IfOk result (λ entry. AppendsRoutine code.old code.new types.now routine.now entry) }
{
    let formals = routine.formals.items();
    let arguments = field_number(formals.len())?;
    let entry = next_place(code)?;
    take_all(routine.line, formals, code)?;
    let slots = make_own(alloc, routine, code)?;
    statement_code(alloc, &routine.block, code)?;
    end_routine(types, ordinals, routine, arguments, code)?;
    Ok(routine_at(entry, arguments, slots))
}

/// Appends the code that makes the variables of a routine's own, of which the one that has its result is the first, and
/// answers how many slots the routine has, with those of its `with` statements.
fn make_own(alloc: Global, routine: &UnitRoutine, code: &mut Code) -> Result<u32, NoMemory>
    ensures { IfOk result (λ slots. MakesOwn code.old code.new routine.now slots) }
{
    let variables = routine.variables.items();
    let first = make_result(routine, code)?;
    let made = make_block(alloc, first as usize, variables, &routine.block, code)?;
    with_slots(made, &routine.block)
}

/// Appends the code that makes these variables and the auxiliary ones of a block, from this number on, and answers the first
/// number behind them.
fn make_block(
    alloc: Global,
    first: usize,
    variables: &[UnitVariable],
    block: &TypedStmt,
    code: &mut Code,
) -> Result<u32, NoMemory>
    ensures { IfOk result (λ behind. MakesBlock code.old code.new first variables.now (stmt_of block.now) behind) }
{
    let auxiliaries = block_auxiliaries(alloc, block)?;
    let middle = field_sum(first, variables.len())?;
    let behind = field_sum(middle as usize, auxiliaries.items().len())?;
    make_all(first, variables, code)?;
    make_all(middle as usize, auxiliaries.items(), code)?;
    Ok(behind)
}

/// The slots of so many variables that are made, and of those of a block's `with` statements.
fn with_slots(made: u32, block: &TypedStmt) -> Result<u32, NoMemory>
    ensures { IfOk result (λ slots. slots ≡ made + length (with_variables (stmt_of block.now))) }
{
    field_sum(made as usize, with_count(block))
}

/// How many slots the frame of a unit has: one for each of its variables, with the auxiliary ones of its start and its stop.
fn unit_slots(alloc: Global, u: &Unit) -> Result<u32, NoMemory>
    ensures { IfOk result (λ slots. slots ≡ length (unit_variables u.now)) }
{
    let auxiliaries = unit_auxiliaries(alloc, u)?;
    let made = field_sum(u.variables.items().len(), auxiliaries.items().len())?;
    unit_with_slots(made, u)
}

/// The slots of so many variables that are made, and of those of the `with` statements of a unit's start and its stop.
fn unit_with_slots(made: u32, u: &Unit) -> Result<u32, NoMemory>
    ensures { IfOk result (λ slots. slots ≡ made + length (with_variables (unit_block u.now))) }
{
    field_sum(made as usize, unit_with_count(u))
}

/// Appends the code that makes the variables of a unit: those that it declares, and the auxiliary ones of its start and its
/// stop.
fn make_unit(alloc: Global, u: &Unit, code: &mut Code) -> Result<(), NoMemory>
    ensures { OnOk result (Follows code.old code.new (make_all_code 0 (made_by_unit u.now))) }
{
    let auxiliaries = unit_auxiliaries(alloc, u)?;
    let variables = u.variables.items();
    make_all(0, variables, code)?;
    make_all(variables.len(), auxiliaries.items(), code)
}

/// Appends the code that makes the variable of a function's result, and answers the number of the first variable behind.
fn make_result(routine: &UnitRoutine, code: &mut Code) -> Result<u32, NoMemory>
    ensures { IfOk result (λ first. MakesResult code.old code.new routine.now first) }
{
    let slot = field_number(routine.formals.items().len())?;
    match &routine.result {
        None => Ok(slot),
        Some(result) => {
            let behind = field_sum(slot as usize, 1)?;
            code.line = routine.line;
            elaborate(&result.denoter, code)?;
            emit(code, op::MAKE, slot as i64, 0)?;
            Ok(behind)
        }
    }
}

/// Appends the code with which a routine ends. A function has its result in the variable of this number.
fn end_routine(
    types: &[UnitType],
    ordinals: &OrdinalTypes,
    routine: &UnitRoutine,
    number: u32,
    code: &mut Code,
) -> Result<(), NoMemory>
    requires { Knows types.now ordinals.now }
    ensures { OnOk result (AppendsEnd code.old code.new types.now routine.now number) }
{
    match &routine.result {
        None => {
            code.line = NO_LINE;
            emit(code, op::RETURN, 0, 0)
        }
        Some(result) => {
            code.line = routine.line;
            end_function(types, ordinals, &result.denoter, number, code)
        }
    }
}

/// Appends the code with which a function with a result of this denoter ends.
fn end_function(
    types: &[UnitType],
    ordinals: &OrdinalTypes,
    denoter: &Denoter,
    number: u32,
    code: &mut Code,
) -> Result<(), NoMemory>
    requires { Knows types.now ordinals.now }
    ensures { OnOk result (Grows code.old code.new (function_end
        (host_of types.now (denoter_of denoter.now)) code.old.line number (length code.old.instructions))) }
{
    if ordinals.has(types, denoter) {
        return give_result(number, code);
    }
    emit(code, op::SLOT, number as i64, 0)?;
    emit(code, op::LOAD, 0, 0)?;
    emit(code, op::RETURN, 0, 0)
}

/// Appends the code with which a function ends: it leaves the value of the variable of this number, or ends with an error
/// where that is undefined.
fn give_result(number: u32, code: &mut Code) -> Result<(), NoMemory>
    ensures { OnOk result (Grows code.old code.new (result_code code.old.line number (length code.old.instructions))) }
{
    emit(code, op::SLOT, number as i64, 0)?;
    emit(code, op::DUP, 0, 0)?;
    emit(code, op::DEFINED, 0, 0)?;
    let jump = next_place(code)?;
    emit(code, op::JUMP_FALSE, (jump as u64 + 3) as i64, 0)?;
    emit(code, op::LOAD, 0, 0)?;
    emit(code, op::RETURN, 0, 0)?;
    emit(code, op::FAIL, run_error::RESULT_UNDEFINED as i64, 0)
}

/// The object of the code. Its tables take memory for their items alone, which are moved.
fn assemble(
    alloc: Global,
    name: Name,
    code: Code,
    routines: CodeRoutines,
    start: u32,
    unit_slots: u32,
) -> Result<Object, NoMemory>
    requires { start + 1 < 2 ^ 32 }
    ensures { IfOk result (λ o. o ≡ assembled name code routines start unit_slots) }
{
    let texts = code.texts.into_texts(alloc)?;
    let references = code.references.into_references(alloc)?;
    Ok(Object {
        module: false,
        name,
        interface: List::new(alloc),
        imports: List::new(alloc),
        references,
        texts,
        constant_types: code.constant_types,
        routines,
        unit_slots,
        start,
        stop: start + 1,
        instructions: code.instructions,
    })
}

/// The sum of two numbers, as a number of a field.
fn field_sum(first: usize, second: usize) -> Result<u32, NoMemory>
    ensures { IfOk result (λ sum. sum ≡ first + second) }
{
    match first.checked_add(second) {
        None => Err(AllocError),
        Some(sum) => field_number(sum),
    }
}

/// Appends the code that makes the variables of a unit or a routine, in order and from this number on.
fn make_all(first: usize, variables: &[UnitVariable], code: &mut Code) -> Result<(), NoMemory>
    ensures { OnOk result (Follows code.old code.new (make_all_code first variables.now)) }
{
    for (number, variable) in variables.iter().enumerate() {
        let slot = field_sum(first, number)?;
        make_variable(variable, slot, code)?;
    }
    Ok(())
}

/// Appends the code by which the formal parameters of a routine take their arguments, in order. The routine is declared on
/// this line.
fn take_all(line: Line, formals: &[Formal], code: &mut Code) -> Result<(), NoMemory>
    ensures { OnOk result (Follows code.old code.new (take_all_code line 0 formals.now)) }
{
    code.line = line;
    for (number, formal) in formals.iter().enumerate() {
        let slot = field_number(number)?;
        take_argument(formal, slot, code)?;
    }
    Ok(())
}

/// Appends the code by which a formal parameter takes its argument, on the line that is set.
fn take_argument(formal: &Formal, slot: u32, code: &mut Code) -> Result<(), NoMemory>
    ensures { OnOk result (Grows code.old code.new (take_code code.old.line slot formal.now.mode formal.now)) }
{
    match formal.mode {
        FormalMode::Value | FormalMode::ProtectedValue => take_value(formal, slot, code),
        FormalMode::Variable | FormalMode::ProtectedVariable => take_place(slot, code),
    }
}

/// Appends the code by which a value parameter takes its argument.
fn take_value(formal: &Formal, slot: u32, code: &mut Code) -> Result<(), NoMemory>
    ensures { OnOk result (Grows code.old code.new (value_code code.old.line slot formal.now)) }
{
    elaborate(&formal.denoter, code)?;
    emit(code, op::MAKE, slot as i64, 0)?;
    emit(code, op::SLOT, slot as i64, 0)?;
    emit(code, op::ARG, slot as i64, 0)?;
    emit(code, op::STORE, 0, 0)
}

/// Appends the code by which a variable parameter takes its argument.
fn take_place(slot: u32, code: &mut Code) -> Result<(), NoMemory>
    ensures { OnOk result (Grows code.old code.new (place_taken code.old.line slot)) }
{
    emit(code, op::ARG, slot as i64, 0)?;
    emit(code, op::BIND, slot as i64, 0)
}

/// Appends the code that makes a variable in a slot.
fn make_variable(variable: &UnitVariable, slot: u32, code: &mut Code) -> Result<(), NoMemory>
    ensures { OnOk result (Follows code.old code.new (make_code slot variable.now)) }
{
    code.line = variable.line;
    elaborate(&variable.denoter, code)?;
    emit(code, op::MAKE, slot as i64, 0)
}
