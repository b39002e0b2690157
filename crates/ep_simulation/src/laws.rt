//! The laws of simulations and of calls.

ghost use Rattle.ep_simulation.specs.Promises.{CallsAnswer};
ghost use Rattle.ep_simulation.specs.Simulates.{ProceduresAnswer, FunctionsAnswer};

/// Does nothing: its contract states what a run from the entry of a routine does that simulates a computation. Where
/// that gives a value after m steps the machine leaves the routine after t ticks, where it ends the run the machine ends
/// so, and m is at most 64 * t and t at most 64 * m. Where it is not done after m steps the machine stays in the routine
/// for m / 64 ticks, with a front of the events, and from 64 * m ticks on its events begin with all of them. But where
/// the computation needs more words, types or calls in each other than every run has room for within m steps, the machine
/// may end for want of storage or of depth within 64 * m ticks.
pub fn laws_of_simulations()
    ensures procedures { ProceduresAnswer }
    ensures functions { FunctionsAnswer }
{}

/// Does nothing: its contract states what a run from a call does of a routine that keeps its promise. Where the call gives
/// its results after m steps the machine stands at the instruction after it, and matches, after t ticks; where it ends the
/// run the machine ends so; where it is not done the caller is not left for m / 64 ticks. The bounds are those of
/// simulations, and so is the exception for want of room.
pub fn laws_of_calls()
    ensures calls { CallsAnswer }
{}
