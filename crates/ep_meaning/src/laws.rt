//! The law of meanings.

ghost use Rattle.ep_meaning.specs.Laws.{MeaningsLast};

/// Does nothing: its contract states what holds of the meaning of every list of units. With more steps a meaning that
/// has ended ends so too, and the steps are left; one that has not goes on from there, so that no event is taken back.
pub fn laws_of_meanings()
    ensures { MeaningsLast }
{}
