//! The laws of the code of statements.

ghost use Rattle.ep_gen_unit.specs.Laws.{StmtCodeStays, StmtCodeIsShort};
ghost use Rattle.ep_gen_unit.specs.ProgramLaws.{ProgramsTell, ProgramsTellAtEnd, ProgramsSpend};
ghost use Rattle.ep_gen_unit.specs.UnitLaws.{ObjectsImplement, StartsAreSimulated, StartsAreSimulatedUnder, RoutinesAreKept, StopsAreSimulated, StopsAreSimulatedUnder};

/// Does nothing: its contract states what holds of the code of every statement. It stays code when the tables grow,
/// and has at most 32 instructions for each typed node.
pub fn laws_of_statements()
    ensures stays { StmtCodeStays }
    ensures short { StmtCodeIsShort }
{}

/// Does nothing: its contract states that wherever the object of a unit stands in an image, its start routine simulates
/// the meaning of the unit's start, and its stop routine that of its stop, and that its procedures and functions keep their
/// promises for what calls of them mean. So the object implements its unit, whatever other units run with it.
pub fn laws_of_units()
    ensures starts { StartsAreSimulated }
    ensures starts_under { StartsAreSimulatedUnder }
    ensures routines { RoutinesAreKept }
    ensures stops { StopsAreSimulated }
    ensures stops_under { StopsAreSimulatedUnder }
    ensures implements { ObjectsImplement }
{}

/// Does nothing: its contract states that a run of the image of a program tells what the program means. A run that has
/// ended has done the same events and ended in the same way, and the events of one that goes on are a front of those of
/// the meaning, and begin with all that the meaning does in one step for 64 ticks. Only where the meaning needs more words,
/// types or calls in each other than every run has room for may the machine have ended for want of storage or of depth. A
/// run that has ended after exactly t ticks and the m steps of the meaning, by its end or where room was lost, have m at most 64 * (t + 1) and t at most
/// 64 * (m + 1).
pub fn laws_of_programs()
    ensures tell { ProgramsTell }
    ensures tell_at_end { ProgramsTellAtEnd }
    ensures spend { ProgramsSpend }
{}
