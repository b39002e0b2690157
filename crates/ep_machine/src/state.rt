//! The state of a machine.

ghost use Rattle.ep_object.specs.Calls.{ended, parent_by, words_of};
ghost use Rattle.ep_frames.specs.Calls.{made_in, rest_of};
ghost use Rattle.ep_memory.specs.Stores.{live};
ghost use Rattle.std.specs.Prelude.{◌≡◌, ◌-◌, suc, option_map, length};
ghost use Rattle.ep_object.specs.Frames.{routine_in, slots_of, frame_above, frame_over, frame_up, parent_of as parent_of_frame, slots_up};
ghost use Rattle.ep_machine.specs.Views.{frames_of, routines_of, HasSlot, IsPlaced, IsBound};
ghost use Rattle.std.specs.Bool.{OnTrue};

use ep_base::List;
use ep_frames::{Calls, Stack};
use ep_memory::Memory;
use ep_object::{FrameNumber, ImageRoutine, Place};
use ep_rows::{TypeTable, segments};
use std::alloc::Global;

/// What a machine has besides its place, its ticks and its operands.
#[derive(Drop)]
pub struct Environment {
    /// How many starts and stops are done.
    pub turn: usize,
    /// The routine that runs.
    pub routine: u32,
    /// The unit in whose frame it runs.
    pub unit: usize,
    /// The slots of the frame of each unit.
    pub units: Vec<List<Option<Place>>>,
    /// The calls under way.
    pub calls: Calls,
    /// The types by number.
    pub types: TypeTable,
    /// The segments, and how many words live.
    pub store: Memory,
}

impl Environment {
    /// The routine that runs.
    #[inline(always)]
    pub fn running(&self) -> u32
        ensures { result ≡ routine_in (frames_of self.now) }
    {
        match self.calls.routine() {
            Some(routine) => routine,
            None => self.routine,
        }
    }

    /// How many slots the frame has in which the routine runs.
    pub fn slot_count(&self) -> Option<usize>
        ensures { result ≡ option_map length (slots_of (frames_of self.now)) }
    {
        if let Some(slots) = self.calls.slots() {
            return Some(slots.len());
        }
        match self.units.get(self.unit) {
            Some(slots) => Some(slots.items().len()),
            None => None,
        }
    }

    /// A slot of the frame in which the routine runs holds the place of a variable that was made. Answers whether there
    /// was memory.
    #[tactic(auto, using(crate::proofs::Routines::placed_routines))]
    pub fn place(&mut self, slot: usize, place: Place) -> bool
        requires { HasSlot (slots_of (frames_of self.old)) slot }
        ensures frames { OnTrue result (IsPlaced (slots_of (frames_of self.old))
            (frames_of self.old) slot place (frames_of self.new)) }
        ensures routines { routines_of self.new ≡ routines_of self.old }
        ensures store { self.new.store ≡ self.old.store }
        ensures types { self.new.types ≡ self.old.types }
    {
        if self.calls.count() > 0 {
            return self.calls.place(slot, place, place.segment);
        }
        let Ok(number) = u32::try_from(slot) else {
            return false;
        };
        let unit = self.unit;
        if unit >= self.units.len() {
            return false;
        }
        self.units[unit].set(number, Some(place));
        true
    }

    /// A slot of the frame in which the routine runs holds a place. Answers whether the number of the slot was small
    /// enough.
    #[tactic(auto, using(crate::proofs::Routines::bound_routines))]
    pub fn bind(&mut self, slot: usize, place: Place) -> bool
        requires { HasSlot (slots_of (frames_of self.old)) slot }
        ensures frames { OnTrue result
            (IsBound (slots_of (frames_of self.old)) (frames_of self.old) slot place (frames_of self.new)) }
        ensures routines { routines_of self.new ≡ routines_of self.old }
        ensures store { self.new.store ≡ self.old.store }
        ensures types { self.new.types ≡ self.old.types }
    {
        if self.calls.count() > 0 {
            return self.calls.bind(slot, place);
        }
        let Ok(number) = u32::try_from(slot) else {
            return false;
        };
        let unit = self.unit;
        if unit >= self.units.len() {
            return false;
        }
        self.units[unit].set(number, Some(place));
        true
    }

    /// The innermost call is left, and the segments that were made in it end.
    #[tactic(auto, using(crate::proofs::CallRows::made_innermost))]
    pub fn leave(&mut self)
        ensures calls { self.new.calls ≡ rest_of self.old.calls }
        ensures segments { self.new.store.segments
            ≡ ended (made_in self.old.calls) self.old.store.segments }
        ensures live { live self.new.store
            ≡ live self.old.store - words_of (made_in self.old.calls) self.old.store.segments }
        ensures rest { self.new ≡ record self.old {
          calls = self.new.calls;
          store = self.new.store;
        } }
    {
        if let Some(made) = self.calls.made() {
            segments::end(made, &mut self.store);
        }
        self.calls.leave();
    }

    /// The frame so many levels over the one in which the innermost routine is declared.
    fn frame_over(&self, up: u32) -> Option<FrameNumber>
        ensures { result ≡ frame_over self.now.calls up }
    {
        let Some(parent) = self.calls.parent() else {
            return None;
        };
        above(&self.calls, up, parent)
    }

    /// The frame so many levels up from the one in which the routine runs.
    fn frame_up(&self, up: u32) -> Option<FrameNumber>
        ensures { result ≡ frame_up (frames_of self.now) up }
    {
        if up > 0 {
            return self.frame_over(up - 1);
        }
        if self.calls.count() == 0 {
            return Some(FrameNumber::Unit(self.unit));
        }
        Some(FrameNumber::Call(self.calls.count() - 1))
    }

    /// The frame in which a routine that is called is declared: for 0 that of its unit, and else the one so many levels
    /// less one up.
    pub fn parent_by(&self, routine: ImageRoutine, up: u32) -> Option<FrameNumber>
        ensures { result ≡ parent_by (frames_of self.now) routine up }
    {
        if up > 0 {
            return self.frame_up(up - 1);
        }
        Some(FrameNumber::Unit(routine.unit as usize))
    }

    /// The slots of the frame one level up from the one in which the routine runs and so many more.
    pub fn slots_up(&self, up: u32) -> Option<&[Option<Place>]>
        ensures { option_map (λ s. s.now) result ≡ slots_up (frames_of self.now) (suc up) }
    {
        match self.frame_over(up) {
            Some(FrameNumber::Unit(number)) => match self.units.get(number) {
                Some(slots) => Some(slots.items()),
                None => None,
            },
            Some(FrameNumber::Call(number)) => self.calls.slots_at(number),
            None => None,
        }
    }
}

/// The frame so many levels up from a frame.
#[tactic(auto, using(crate::proofs::CallRows::above_parent, crate::proofs::CallRows::above_none))]
fn above(calls: &Calls, up: u32, from: FrameNumber) -> Option<FrameNumber>
    ensures { result ≡ frame_above calls.now up from }
{
    let mut left = up;
    let mut frame = from;
    while left > 0 {
        match parent_of(calls, frame) {
            Some(parent) => frame = parent,
            None => return None,
        }
        left -= 1;
    }
    Some(frame)
}

/// The frame in which the routine of a frame is declared.
fn parent_of(calls: &Calls, frame: FrameNumber) -> Option<FrameNumber>
    ensures { result ≡ parent_of_frame calls.now frame }
{
    match frame {
        FrameNumber::Unit(_) => None,
        FrameNumber::Call(number) => calls.parent_at(number),
    }
}

/// The state of a machine before an instruction.
#[derive(Drop)]
pub struct Configuration {
    /// The place of the instruction.
    pub place: u32,
    /// The ticks that were spent.
    pub ticks: u64,
    /// The operands.
    pub stack: Stack,
    /// The frames, the types and the segments.
    pub environment: Environment,
    /// Where memory comes from.
    pub alloc: Global,
}
