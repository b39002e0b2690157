//! The laws of runs.

ghost use Rattle.ep_object.specs.Laws.{RunsAgree, RunsExtend, EndsStay, EndsExactly, EventsGrow};

/// Does nothing: its contract states what holds of every run of every image. Instruction by instruction and tick by
/// tick a run comes to the same, a longer run goes on from a shorter one, an ended one stays as it is and ended at
/// exactly the ticks that it tells, and the events only grow.
pub fn laws_of_runs()
    ensures agree { RunsAgree }
    ensures extend { RunsExtend }
    ensures stay { EndsStay }
    ensures exact { EndsExactly }
    ensures grow { EventsGrow }
{}
