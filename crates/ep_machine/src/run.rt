//! The machine.

ghost use Rattle.std.specs.Prelude.{◌≡◌, ◌≢◌, ◌⊎◌, ℕ, ◌<◌, ◌≤◌, ◌+◌, ◌^◌, length, List, [], Option, Some, None, IsTrue, IfOk, MatchOption};
ghost use Rattle.ep_object.specs.Runs.{begin as beginning, timed};
ghost use Rattle.ep_values.specs.Events.{Trace, DoesFront, DoesPart, Outside};
ghost use Rattle.ep_memory.specs.Stores.{live};
ghost use Rattle.ep_object.specs.State.{State};
ghost use Rattle.ep_machine.specs.Answers.{Answers, UnlessStopped, OnNoMemoryEnd, OnWriteFaultEnd, IsEnd, outside};
ghost use Rattle.ep_machine.specs.Turns.{ended_at};
ghost use Rattle.ep_machine.specs.Views.{routines_of};
ghost use Rattle.ep_machine.specs.declared.end.Ended.TheVariants as ended;
ghost use Rattle.ep_machine.specs.Turns.{UnlessFailed, OnFailed, OnWriteFault, Ran, RunFailed, is_ready, is_known};

use crate::end::{End, Ended};
use crate::start;
use crate::state::Configuration;
use ep_base::NoMemory;
use ep_decode::Code;
use ep_memory::Memory;
use ep_object::Image;
use ep_outside::{Files, Sink, Source};
use std::alloc::{AllocError, Global};

/// A machine at work on an image.
#[derive(Drop)]
pub struct Machine<'a> {
    code: Code<'a>,
    state: Configuration,
    ended: Ended,
    ghost ready: { IsTrue (is_ready code.image.now (routines_of state.environment) ended) },
}

impl<'a> Machine<'a> {
    ghost use Rattle.ep_machine.specs.Machines.{image_of, ticks_of, ended_of, standing, state_in, GoesOnTo, events_within};

    /// A machine before the first instruction of an image. An image of 2^32 or more instructions is refused as if
    /// memory were wanting.
    pub fn new(alloc: Global, image: &'a Image) -> Result<Machine<'a>, NoMemory>
        ensures start { IfOk result (λ m. standing m [] ≡ timed 0 (beginning image.now)) }
        ensures image { IfOk result (λ m. image_of m ≡ image.now) }
        ensures ticks { IfOk result (λ m. ticks_of m ≡ 0) }
        ensures whole { IfOk result (λ m. ended_of m ≢ ended.WriteFault) }
    {
        let code = Code::new(alloc, image)?;
        let mut state = start::state(alloc, image.units.items())?;
        let ended = match state.begin(image, 0) {
            None => Ended::Budget,
            Some(Ended::Normal) => Ended::Normal,
            Some(Ended::Broken(at)) => Ended::Broken(at),
            Some(_) => return Err(AllocError),
        };
        Ok(Machine { code, state, ended })
    }

    /// Goes on for at most so many ticks, unless it has ended.
    fn resume<O: Sink>(&mut self, budget: u64, output: &mut O)
        requires { ticks_of self.old + budget < 2 ^ 61 }
        ensures exact { UnlessFailed (ended_of self.new) (Ran (image_of self.old)
            (ticks_of self.old + budget)
            (standing self.old) (standing self.new) (O.held output.old) (O.held output.new)) }
        ensures failed { OnFailed (ended_of self.new) (RunFailed (image_of self.old)
            (ticks_of self.old + budget)
            (standing self.old) (O.held output.old) (O.held output.new)) }
        ensures image { image_of self.new ≡ image_of self.old }
        ensures within { ticks_of self.new < 2 ^ 61 }
        ensures counts { O.faults output.old ≤ O.faults output.new }
        ensures fault { OnWriteFault (ended_of self.new)
            ((ended_of self.old ≡ ended.WriteFault) ⊎ (O.faults output.old < O.faults output.new)) }
        ensures again { ended_of self.old ≢ ended.Budget → (ended_of self.new ≡ ended_of self.old)
            × (ticks_of self.new ≡ ticks_of self.old) × (output.new ≡ output.old) }
    {
        if let Ended::Budget = self.ended {
            let limit = self.state.ticks + budget;
            self.ended = self.state.go(&self.code, limit, output);
        }
    }

    /// Goes on for at most so many ticks. `Budget` says that a further call goes on from here; any other end is
    /// answered again by a further call, which does nothing. The name of a unit takes memory, so `NoMemory` may come
    /// in place of an error. With `NoMemory` whole events were done and no half of one. Nothing is read, and no file
    /// is touched.
    pub fn run<F: Files, I: Source, O: Sink>(
        &mut self,
        budget: u64,
        files: &mut F,
        input: &mut I,
        output: &mut O,
    ) -> End
        requires { ticks_of self.old + budget < 2 ^ 61 }
        ensures exact { UnlessStopped result (GoesOnTo self.old budget self.new
            (outside (O.held output.old) (F.files files.old))
            (outside (O.held output.new) (F.files files.new))) }
        ensures part { OnWriteFaultEnd result (DoesPart (events_within self.old budget)
            (outside (O.held output.old) (F.files files.old))
            (outside (O.held output.new) (F.files files.new))) }
        ensures whole { OnNoMemoryEnd result (DoesFront (events_within self.old budget)
            (outside (O.held output.old) (F.files files.old))
            (outside (O.held output.new) (F.files files.new))) }
        ensures end { (trace : Trace) → IsEnd result (standing self.new trace).going }
        ensures image { image_of self.new ≡ image_of self.old }
        ensures within { ticks_of self.new < 2 ^ 61 }
        ensures counts { O.faults output.old ≤ O.faults output.new }
        ensures fault { OnWriteFaultEnd result
            ((ended_of self.old ≡ ended.WriteFault) ⊎ (O.faults output.old < O.faults output.new)) }
        ensures again { ended_of self.old ≢ ended.Budget
            → Answers (ended_of self.old) result × (ticks_of self.new ≡ ticks_of self.old)
            × (output.new ≡ output.old) }
        ensures files { files.new ≡ files.old }
        ensures input { input.new ≡ input.old }
    {
        self.resume(budget, output);
        match answer(self.code.image, self.state.alloc, self.ended) {
            End::NoMemory => {
                self.ended = Ended::NoMemory;
                End::NoMemory
            }
            end => end,
        }
    }

    /// The memory with the segments and the live words of the state in which it is.
    pub fn memory(&self) -> &Memory
        ensures segments { (trace : Trace) → (state_in self.now trace).segments ≡ result.now.segments }
        ensures live { (trace : Trace) → (state_in self.now trace).live ≡ live result.now }
    {
        &self.state.environment.store
    }

    /// The ticks that it has spent.
    pub fn ticks(&self) -> u64
        ensures { result ≡ ticks_of self.now }
    {
        self.state.ticks
    }
}

/// The answer of an end.
fn answer(image: &Image, alloc: Global, ended: Ended) -> End
    requires { IsTrue (is_known image.now ended) }
    ensures answers { Answers ended result }
    ensures end { (s : State) → IsEnd result (ended_at image.now ended s) }
{
    match ended {
        Ended::Normal => End::Normal,
        Ended::Halt => End::Halt,
        Ended::Error(number, unit, line) => {
            let Some(unit) = image.units.items().get(unit as usize) else {
                unreachable!()
            };
            match unit.name.copy(alloc) {
                Ok(unit) => End::Error { number, unit, line },
                Err(_) => End::NoMemory,
            }
        }
        Ended::Budget => End::Budget,
        Ended::Broken(pc) => End::Broken { pc },
        Ended::WriteFault => End::WriteFault,
        Ended::NoMemory => End::NoMemory,
    }
}
