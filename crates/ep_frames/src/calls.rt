//! The calls under way and their frames.

ghost use Rattle.std.specs.Bool.{OnTrue, OnFalse};
ghost use Rattle.std.specs.Prelude.{◌^◌, IfSome, IsTrue, is_some, ◌≡◌, ◌<◌, ◌≤◌, ℕ, List, [], ◌∷◌, ◌++◌, Option, Some, None, MatchOption, OnOk, option_map, slice_get, slice_set, length, map, take, drop, reverse};
ghost use Rattle.ep_object.specs.Calls.{new_frame, word_of};
ghost use Rattle.ep_object.specs.Frames.{call_at, found_by};
ghost use Rattle.std.specs.Prelude.{◌+◌};
ghost use Rattle.ep_frames.specs.Calls.{innermost_routine, innermost_slots, innermost_parent, IsSlot, bound, placed, first, innermost_made, innermost_back, rest_of, argument_of, argument_among, operand_of, place_of, operands_in, StartsWith, without};
ghost use Rattle.ep_object.specs.Operands.{weight};

use crate::members::Members;
use crate::stack::Stack;
use ep_base::Bytes;
use ep_object::{FrameNumber, ImageRoutine, Place};
use std::alloc::Global;
use std::marker::Model;

/// An argument of a call.
#[derive(Drop)]
pub enum Argument {
    /// A word.
    Word(i64),
    /// A place.
    Place(Place),
    /// A text.
    Text(Bytes),
    /// A value of many words, with the number of its type.
    Value(u32, Vec<i64>),
    /// A set.
    Set(Members),
}

impl Argument {
    /// How many ticks it costs to push it, besides the one of each instruction.
    fn weight(&self) -> u64
        ensures weight { result ≡ weight (operand_of self.now) }
        ensures small { result < 2 ^ 63 }
    {
        match self {
            Argument::Text(bytes) => bytes.items().len() as u64,
            Argument::Value(_, words) => words.len() as u64,
            Argument::Word(_) | Argument::Place(_) | Argument::Set(_) => 0,
        }
    }

    /// The word that it is, where it is one.
    #[inline(always)]
    fn word(&self) -> Option<i64>
        ensures { result ≡ word_of (operand_of self.now) }
    {
        match self {
            Argument::Word(w) => Some(*w),
            _ => None,
        }
    }
}

/// A call under way. Its slots and arguments stand among those of all calls, behind those of the calls below it, and
/// so do the segments that were made in it.
#[derive(Clone, Copy, Drop)]
pub struct Activation {
    /// The routine.
    pub routine: u32,
    /// The frame in which the routine is declared.
    pub parent: FrameNumber,
    /// The place at which the caller goes on.
    pub back: u32,
    /// How many slots stand before its own.
    pub slots_from: usize,
    /// How many slots it has.
    pub slots: usize,
    /// How many arguments stand before its own.
    pub arguments_from: usize,
    /// How many arguments it has.
    pub arguments: usize,
    /// How many segments were made before.
    pub made_from: usize,
}

/// The frames of all calls under way, which contracts see with the innermost first.
#[derive(Drop)]
pub struct Calls {
    calls: Vec<Activation>,
    slots: Vec<Option<Place>>,
    arguments: Vec<Option<Argument>>,
    made: Vec<u64>,
}

impl Model for Calls {
    ghost use Rattle.std.specs.Prelude.{List, reverse, length};
    ghost use Rattle.ep_object.specs.State.{Frame};
    ghost use Rattle.ep_frames.specs.Calls.{frames_over, operands_in, AreBelow};

    ghost Value = { List Frame };

    ghost view = { λ s. frames_over s.slots.items (operands_in s.arguments.items) s.made.items
        (reverse s.calls.items) };

    ghost invariant = { λ s. AreBelow (length s.slots.items) (length s.arguments.items)
        (length s.made.items) (reverse s.calls.items) };
}

/// The call over so many others.
fn call(calls: &[Activation], number: usize) -> Option<Activation>
    ensures { result ≡ slice_get calls.now number }
{
    calls.get(number).copied()
}

/// The innermost call.
#[inline(always)]
fn last(calls: &[Activation]) -> Option<Activation>
    ensures { result ≡ first (reverse calls.now) }
{
    if calls.is_empty() {
        return None;
    }
    Some(calls[calls.len() - 1])
}

impl Calls {
    /// No calls.
    pub fn new(alloc: Global) -> Calls
        ensures { result ≡ [] }
    {
        Calls {
            calls: Vec::new(alloc),
            slots: Vec::new(alloc),
            arguments: Vec::new(alloc),
            made: Vec::new(alloc),
        }
    }

    /// How many there are.
    #[tactic(auto, using(crate::proofs::CallFrames::frames_count))]
    #[inline(always)]
    pub fn count(&self) -> usize
        ensures { result ≡ length self.now }
    {
        self.calls.len()
    }

    /// The routine of the innermost call.
    #[inline(always)]
    pub fn routine(&self) -> Option<u32>
        ensures { result ≡ innermost_routine self.now }
    {
        match last(&self.calls) {
            Some(call) => Some(call.routine),
            None => None,
        }
    }

    /// The slots of the innermost call.
    #[inline(always)]
    pub fn slots(&self) -> Option<&[Option<Place>]>
        ensures { option_map (λ s. s.now) result ≡ innermost_slots self.now }
    {
        if self.calls.is_empty() {
            return None;
        }
        let call = self.calls[self.calls.len() - 1];
        Some(&self.slots[call.slots_from..call.slots_from + call.slots])
    }

    /// The frame in which the routine of the innermost call is declared.
    pub fn parent(&self) -> Option<FrameNumber>
        ensures { result ≡ innermost_parent self.now }
    {
        if self.calls.is_empty() {
            return None;
        }
        Some(self.calls[self.calls.len() - 1].parent)
    }

    /// The frame in which the routine is declared of the call over so many others.
    #[tactic(auto, using(crate::proofs::CallFrames::parent_of_call))]
    pub fn parent_at(&self, number: usize) -> Option<FrameNumber>
        ensures { result ≡ option_map (λ c. c.parent) (call_at self.now number) }
    {
        let Some(call) = call(&self.calls, number) else {
            return None;
        };
        Some(call.parent)
    }

    /// The slots of the call over so many others.
    #[tactic(auto, using(crate::proofs::CallFrames::slots_of_call, crate::proofs::CallFrames::slots_within))]
    pub fn slots_at(&self, number: usize) -> Option<&[Option<Place>]>
        ensures { option_map (λ s. s.now) result
            ≡ option_map (λ c. c.slots) (call_at self.now number) }
    {
        let Some(call) = call(&self.calls, number) else {
            return None;
        };
        Some(&self.slots[call.slots_from..call.slots_from + call.slots])
    }

    /// A slot of the innermost call holds the place of a variable that was made in it. Answers whether there was memory.
    pub fn place(&mut self, slot: usize, place: Place, segment: u64) -> bool
        requires { IsSlot self.old slot }
        ensures placed { OnTrue result (self.new ≡ placed self.old slot place segment) }
        ensures kept { OnFalse result (self.new ≡ self.old) }
    {
        let Some(call) = last(&self.calls) else {
            return false;
        };
        if self.made.push(segment).is_err() {
            return false;
        }
        self.slots[call.slots_from + slot] = Some(place);
        true
    }

    /// A slot of the innermost call holds a place. Answers whether there is one.
    pub fn bind(&mut self, slot: usize, place: Place) -> bool
        requires { IsSlot self.old slot }
        ensures bound { OnTrue result (self.new ≡ bound self.old slot place) }
        ensures kept { OnFalse result (self.new ≡ self.old) }
    {
        let Some(call) = last(&self.calls) else {
            return false;
        };
        self.slots[call.slots_from + slot] = Some(place);
        true
    }

    /// The segments that were made in the innermost call.
    pub fn made(&self) -> Option<&[u64]>
        ensures { option_map (λ s. s.now) result ≡ innermost_made self.now }
    {
        let Some(call) = last(&self.calls) else {
            return None;
        };
        Some(&self.made[call.made_from..])
    }

    /// The place at which the caller of the innermost call goes on.
    pub fn back(&self) -> Option<u32>
        ensures { result ≡ innermost_back self.now }
    {
        match last(&self.calls) {
            Some(call) => Some(call.back),
            None => None,
        }
    }

    /// A routine is called, which takes its arguments from the operands and goes on at a place when it is left. Answers
    /// whether there was memory.
    #[inline(always)]
    pub fn enter(
        &mut self,
        number: u32,
        routine: ImageRoutine,
        parent: FrameNumber,
        back: u32,
        alloc: Global,
        stack: &mut Stack,
    ) -> bool
        requires { routine.arguments ≤ length stack.old }
        ensures entered { OnTrue result (self.new ≡ new_frame number routine parent back
            (take routine.arguments stack.old) ∷ self.old) }
        ensures below { OnTrue result (stack.new ≡ drop routine.arguments stack.old) }
        ensures kept { OnFalse result (self.new ≡ self.old) }
    {
        let call = Activation {
            routine: number,
            parent,
            back,
            slots_from: self.slots.len(),
            slots: routine.slots as usize,
            arguments_from: self.arguments.len(),
            arguments: routine.arguments as usize,
            made_from: self.made.len(),
        };
        if !take_arguments(call.arguments, stack, &mut self.arguments) {
            return false;
        }
        if self
            .slots
            .resize(call.slots_from + call.slots, None)
            .is_err()
        {
            return false;
        }
        self.calls.push(call).is_ok()
    }

    /// The innermost call is no longer under way.
    #[tactic(auto, using(crate::proofs::CallFrames::left_view, crate::proofs::CallFrames::left_below))]
    pub fn leave(&mut self)
        ensures { self.new ≡ rest_of self.old }
    {
        let Some(call) = self.calls.pop() else {
            return;
        };
        self.made.truncate(call.made_from);
        self.slots.truncate(call.slots_from);
        self.arguments.truncate(call.arguments_from);
    }

    /// The weight of an argument of the innermost call.
    #[tactic(auto, using(crate::proofs::CallFrames::argument_view))]
    pub fn weight(&self, number: usize) -> Option<u64>
        ensures weight { result ≡ option_map weight (argument_of self.now number) }
        ensures small { IfSome result (λ w. w < 2 ^ 63) }
    {
        let Some(call) = last(&self.calls) else {
            return None;
        };
        match find_argument(call, number, &self.arguments) {
            Some(argument) => Some(argument.weight()),
            None => None,
        }
    }

    /// Takes an argument out of the innermost call, where it is there.
    #[tactic(auto, using(crate::proofs::CallFrames::without_view, crate::proofs::CallFrames::argument_view))]
    #[inline(never)]
    pub fn take(&mut self, number: usize) -> Option<Argument>
        requires { IsTrue (is_some (argument_of self.old number)) }
        ensures taken { option_map operand_of result ≡ argument_of self.old number }
        ensures left { self.new ≡ without self.old number }
    {
        let Some(call) = last(&self.calls) else {
            return None;
        };
        self.arguments[call.arguments_from + (call.arguments - number - 1)].take()
    }

    /// An argument of the innermost call that is a place.
    #[tactic(auto, using(crate::proofs::CallFrames::argument_view))]
    #[inline(always)]
    pub fn place_given(&self, number: usize) -> Option<Place>
        ensures { result ≡ found_by (argument_of self.now number) place_of }
    {
        let Some(call) = last(&self.calls) else {
            return None;
        };
        match find_argument(call, number, &self.arguments) {
            Some(Argument::Place(place)) => Some(*place),
            _ => None,
        }
    }

    /// An argument of the innermost call that is a word.
    #[tactic(auto, using(crate::proofs::CallFrames::argument_view))]
    #[inline(always)]
    pub fn word(&self, number: usize) -> Option<i64>
        ensures { result ≡ found_by (argument_of self.now number) word_of }
    {
        let Some(call) = last(&self.calls) else {
            return None;
        };
        match find_argument(call, number, &self.arguments) {
            Some(argument) => argument.word(),
            None => None,
        }
    }
}

/// So many operands are taken from the top and become arguments, the top one first. Answers whether there was memory.
#[tactic(auto, using(crate::proofs::CallEntry::taken_one, crate::proofs::CallEntry::left_one))]
#[inline(always)]
fn take_arguments(count: usize, stack: &mut Stack, arguments: &mut Vec<Option<Argument>>) -> bool
    requires { count ≤ length stack.old }
    ensures taken { OnTrue result (operands_in arguments.new.items
        ≡ operands_in arguments.old.items ++ map Some (take count stack.old)) }
    ensures below { OnTrue result (stack.new ≡ drop count stack.old) }
    ensures before { StartsWith arguments.old.items arguments.new.items }
{
    for taken in 0..count {
        let Some(argument) = stack.pop_argument() else {
            return false;
        };
        if arguments.push(Some(argument)).is_err() {
            return false;
        }
    }
    true
}

/// An argument of a call, the first one for 0.
#[tactic(auto, using(crate::proofs::CallFrames::argument_read, crate::proofs::CallFrames::argument_past))]
#[inline(always)]
fn find_argument(
    call: Activation,
    number: usize,
    arguments: &[Option<Argument>],
) -> Option<&Argument>
    requires { call.arguments_from + call.arguments ≤ length arguments.now }
    ensures { option_map (λ a. operand_of a.now) result ≡ argument_among call number (operands_in arguments.now) }
{
    if number >= call.arguments {
        return None;
    }
    arguments[call.arguments_from + (call.arguments - number - 1)].as_ref()
}
