//! The formats of files: how images are written and read.
//!
//! Promise: each image has one spelling; what is written is read again, a file that is read is spelled so, byte by byte,
//! and one that is refused is no image, at the place of the first field that cannot be. Open specs/Images.antt first. It
//! stands on ep_object for what is in the files and on ep_fields for the fields.
//! To change the format of an image: specs/Images.antt, src/images.rt.
#![tactic(auto)]

mod constant_types;
mod flag;
mod images;
mod item;
mod letters;
mod refusal;

pub use images::{read_image, write_image};
pub use refusal::FileRefusal;

#[cfg(test)]
mod tests;
