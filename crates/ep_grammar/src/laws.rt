//! The laws of the grammar.

ghost use Rattle.ep_grammar.specs.Refusals.{ReadIsDerived, DerivedIsRead, OneTree, MoreLevels, StopIsRefused};
ghost use Rattle.ep_grammar.specs.Refusals.{LeftIsRefused};

/// Does nothing: its contract states what holds of every text. A text is that of a list of components in which at
/// most k levels nest exactly where a parser with k levels reads it to the end, and it is that of at most one.
pub fn laws_of_the_grammar()
    ensures sound { ReadIsDerived }
    ensures complete { DerivedIsRead }
    ensures one_tree { OneTree }
    ensures more_levels { MoreLevels }
{}

/// Does nothing: its contract states what holds of every text that a parser does not read to the end. Where it stops
/// or leaves tokens, no text of any nesting begins with the tokens up to and with that place; but where it stops for
/// want of levels, there is a token that only texts of deeper nesting have there, and there are such texts. The tokens
/// before the place begin a text that nests no deeper than it may.
pub fn laws_of_refusals()
    ensures stop { StopIsRefused }
    ensures left { LeftIsRefused }
{}
