//! The fields of which files are made: numbers, byte fields and names, read from the front and written at the end.
//!
//! Promise: a field that is read is spelled by the bytes that it took, what is written is read again, whatever follows
//! it, and a refused read tells the place of the field's first byte and leaves the reader there. Open specs/Fields.antt
//! first. It stands on ep_base alone; the formats of files stand on it.
//! To change how a number, a byte field or a name is spelled: specs/Fields.antt, src/reader.rt, src/writer.rt.
#![tactic(auto)]

mod laws;
mod reader;
mod refusal;
mod writer;

pub use laws::laws_of_fields;
pub use reader::FieldReader;
pub use refusal::FieldRefusal;
pub use writer::FieldWriter;

#[cfg(test)]
mod tests;
