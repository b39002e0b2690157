//! The marks of the tokens of a text: which of them start a line, and how deep each stands.
//!
//! A style says what a production does to the lines of its tokens. It is written beside the description that
//! ep_grammar has of the production, form by form, and the marks of a text are what the styles of its productions give
//! where the text is read. `laws_of_marks` promises that each production has a style which fits its description, and
//! that a text which is derived has a mark for each of its tokens.
//! The crate stands on ep_grammar, whose productions the styles follow, and changes nothing there.
//! Open specs/Productions.antt first, the styles themselves; specs/Styles.antt has the forms of which a style is made,
//! specs/Marks.antt the marks that it gives, and specs/Texts.antt the laws.
#![tactic(auto)]

mod mark;

ghost use Rattle.ep_marks.specs.Texts.{EachTokenIsMarked, StylesFit};

pub use mark::Mark;

/// Does nothing: its contract states what holds of the styles and of every text.
pub fn laws_of_marks()
    ensures fit { StylesFit }
    ensures each { EachTokenIsMarked }
{}
