//! The routines of a unit, of which those in another one are found without a walk over all.

ghost use Rattle.std.specs.Prelude.{◌≡◌, ◌≤◌, ◌<◌, ℕ, [], ◌∷◌, ◌++◌, OnOk, OnErr, length, map};
ghost use Rattle.std.specs.Bool.{Decides};
ghost use Rattle.ep_typed.specs.Trees as tree;
ghost use Rattle.ep_typed.specs.Trees.{stmts};
ghost use Rattle.ep_typed.specs.Viewed.{stmt_of};
ghost use Rattle.ep_threats.specs.Inner.{AreBehind, AreNoted, IsNoted, KeepsNoted};
ghost use Rattle.ep_threats.specs.RoutineForms.{block_set, routine_form, with_its_block};

use ep_base::{Line, List, NoMemory};
use ep_typed::{TypedStmt, TypedStmts, UnitRoutine, UnitVariables};
use std::alloc::{AllocError, Global};
use std::collections::HashMap;
use std::marker::Model;
use std::mem;

/// Routines, by number. Contracts see their list.
pub struct RoutineTable {
    all: Vec<UnitRoutine>,
    /// For each number a place behind which all routines stand that are in the routine of that number; there are none where
    /// it has no place. A routine is declared before those in it, so few others stand there.
    places: HashMap<u32, usize>,
}

impl Model for RoutineTable {
    ghost use Rattle.std.specs.Prelude.{List};
    ghost use Rattle.std.specs.Coded.{codes};
    ghost use Rattle.ep_typed.specs.declared.unit.UnitRoutine.{UnitRoutine};
    ghost use Rattle.ep_typed.specs.contracts.unit.UnitRoutine as unit_routine;
    ghost use Rattle.ep_threats.specs.Inner.{ArePlaces, all_around};

    ghost Value = { List UnitRoutine };

    ghost coded = { Prim.hlevel (codes, unit_routine.the_row.coded) };

    ghost view = { λ t. t.all.items };

    ghost invariant = { λ t. ArePlaces t.places.entries (all_around t.all.items) };
}

impl Drop for RoutineTable {
    fn drop(self) {
        let RoutineTable { all: _, places: _ } = self;
    }
}

/// A routine gets the block of a declaration on this line, with the variables that are declared there.
fn take_block(
    routine: &mut UnitRoutine,
    line: Line,
    variables: UnitVariables,
    statements: TypedStmts,
)
    ensures { routine_form routine.new ≡ with_its_block line variables
        (tree.Compound (stmts (map stmt_of statements))) (routine_form routine.old) }
{
    // What was there goes by a call each, since the walk over all forms of a statement takes longer to check.
    drop(mem::replace(&mut routine.block, TypedStmt::Compound(statements)));
    drop(mem::replace(&mut routine.variables, variables));
    routine.line = line;
}

/// Whether a place is noted for a number that does not come behind this one.
fn is_noted(places: &HashMap<u32, usize>, number: u32, place: usize) -> bool
    ensures { Decides result (IsNoted places.now.entries number place) }
{
    match places.get(&number) {
        None => false,
        Some(first) => *first <= place,
    }
}

/// A place is noted for a number, unless one further in front is.
fn note(places: &mut HashMap<u32, usize>, number: u32, place: usize) -> Result<(), NoMemory>
    ensures noted { OnOk result (IsNoted places.new.entries number place) }
    ensures kept { KeepsNoted places.old.entries places.new.entries }
{
    if is_noted(places, number, place) {
        return Ok(());
    }
    match places.insert(number, place) {
        Ok(_) => Ok(()),
        Err(refused) => Err(AllocError::from(refused)),
    }
}

/// A place is noted for each of these numbers, unless one further in front is.
fn note_all(places: &mut HashMap<u32, usize>, numbers: &[u32], place: usize) -> Result<(), NoMemory>
    ensures noted { OnOk result (AreNoted places.new.entries numbers.now place) }
    ensures kept { KeepsNoted places.old.entries places.new.entries }
{
    for number in numbers {
        note(places, *number, place)?;
    }
    Ok(())
}

/// Of these routines that of a number, where there is one, gets the block of a declaration on this line, with the variables
/// that are declared there.
fn set_in(
    all: &mut Vec<UnitRoutine>,
    number: u32,
    line: Line,
    variables: UnitVariables,
    statements: TypedStmts,
)
    ensures { map routine_form all.new.items ≡ block_set number line variables
        (tree.Compound (stmts (map stmt_of statements))) (map routine_form all.old.items) }
{
    if let Some(routine) = all.get_mut(number as usize) {
        take_block(routine, line, variables, statements);
    }
}

/// One routine more, where memory is found for it.
fn add(all: &mut Vec<UnitRoutine>, routine: UnitRoutine) -> Result<(), NoMemory>
    ensures ok { OnOk result (all.new.items ≡ all.old.items ++ routine ∷ []) }
    ensures err { OnErr result (all.new.items ≡ all.old.items) }
{
    match all.push(routine) {
        Ok(()) => Ok(()),
        Err(refused) => Err(AllocError::from(refused)),
    }
}

/// A place, at most that of the count, in front of which none is noted for a number.
fn first_place(places: &HashMap<u32, usize>, number: u32, count: usize) -> usize
    ensures within { result ≤ count }
    ensures first { (place : ℕ) → place < result → IsNoted places.now.entries number place → ⊥ }
{
    match places.get(&number) {
        None => count,
        Some(first) => (*first).min(count),
    }
}

impl RoutineTable {
    /// None. It takes no memory.
    pub fn new(alloc: Global) -> RoutineTable
        ensures { result ≡ [] }
    {
        RoutineTable {
            all: Vec::new(alloc),
            places: HashMap::new(alloc),
        }
    }

    /// All of them, by number. It takes no memory.
    pub fn items(&self) -> &[UnitRoutine]
        ensures { result.now ≡ self.now }
    {
        self.all.as_slice()
    }

    /// How many there are, which is the number of the next one. It takes no memory.
    pub fn len(&self) -> usize
        ensures { result ≡ length self.now }
    {
        self.all.len()
    }

    /// Their list. It takes no memory.
    pub fn into_list(self) -> List<UnitRoutine>
        ensures { result ≡ self }
    {
        let RoutineTable { all, places: _ } = self;
        List::from_vec(all)
    }

    /// Adds a routine at the end. Where memory is wanting they are as before, and the routine is dropped.
    pub fn push(&mut self, routine: UnitRoutine) -> Result<(), NoMemory>
        ensures ok { OnOk result (self.new ≡ self.old ++ routine ∷ []) }
        ensures err { OnErr result (self.new ≡ self.old) }
    {
        let place = self.all.len();
        note_all(&mut self.places, routine.around.items(), place)?;
        add(&mut self.all, routine)?;
        Ok(())
    }

    /// The routine of a number, where there is one, gets the block of a declaration on this line, with the variables that are
    /// declared there. It takes no memory.
    pub fn set_block(
        &mut self,
        number: u32,
        line: Line,
        variables: UnitVariables,
        statements: TypedStmts,
    )
        ensures { map routine_form self.new ≡ block_set number line variables
            (tree.Compound (stmts (map stmt_of statements))) (map routine_form self.old) }
    {
        set_in(&mut self.all, number, line, variables, statements);
    }

    /// Some of the last ones, with all that are in the routine of this number, however deep. It takes no memory.
    pub fn inner(&self, routine: u32) -> &[UnitRoutine]
        ensures { AreBehind routine self.now result.now }
    {
        let first = first_place(&self.places, routine, self.all.len());
        let (_, behind) = self.all.as_slice().split_at(first);
        behind
    }
}
