//! What holds of fields, whatever reads or writes them.

ghost use Rattle.ep_fields.specs.Laws.{FieldLaws};

/// A field that is written is read again, whatever follows it, and one that is read is spelled by the bytes that it took:
/// so each value has one spelling.
#[tactic(auto, using(crate::proofs::Spelled::field_laws))]
pub fn laws_of_fields()
    ensures { FieldLaws }
{}
