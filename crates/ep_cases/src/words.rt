//! The words of a command.

use crate::spelling::spell;
use std::alloc::{AllocError, Global};

/// The words that a text spells between its blanks, with an option behind the first one where there is one.
pub fn words_of(
    alloc: Global,
    text: &str,
    option: Option<&str>,
) -> Result<Vec<String>, AllocError> {
    let mut words = Vec::new(alloc);
    let mut option = option;
    for word in text.split_whitespace() {
        push_word(alloc, word, &mut words)?;
        if let Some(option) = option.take() {
            push_word(alloc, option, &mut words)?;
        }
    }
    Ok(words)
}

/// Pushes the word that a text spells. One that is no UTF-8 is left as it is written.
fn push_word(alloc: Global, text: &str, words: &mut Vec<String>) -> Result<(), AllocError> {
    let mut bytes = Vec::new(alloc);
    let _ = spell(alloc, text, &mut bytes);
    let word = str::from_utf8(bytes.as_slice()).unwrap_or(text);
    words.push(String::from_str(alloc, word)?)?;
    Ok(())
}
