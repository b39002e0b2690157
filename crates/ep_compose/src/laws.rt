//! The law of composition.

ghost use Rattle.ep_compose.specs.Laws.{LinkedImplement, LinkedSpend, LinkedTellAtEnd};

/// Does nothing: its contract states that the image to which objects are linked implements joined units, where each of the
/// objects implements its unit, and that the ticks of a run of it that ends and the steps of the meaning bound one another.
pub fn laws_of_composition()
    ensures linked { LinkedImplement }
    ensures at_end { LinkedTellAtEnd }
    ensures spend { LinkedSpend }
{}
