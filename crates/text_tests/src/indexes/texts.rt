//! Texts in which a mark has to move: chars of several bytes and CRLFs are where it would stand, or beside that.

use super::STRETCH;
use std::alloc::{AllocError, Global};

/// Texts to put round the places of marks.
const AT_MARKS: [&str; 9] = [
    "\r\n",
    "\r\r\n\n",
    "\n\r",
    "é",
    "せ",
    "🐸",
    "\u{2028}\r\n",
    "\u{85}🐸\r\n",
    "\r",
];

/// How many bytes before the place of a mark such a text begins, at most.
pub(crate) const BEFORE: usize = 6;

/// A text of more than two stretches, with `what` beginning `before` bytes before the place of each mark.
fn text_round(alloc: Global, what: &str, before: usize) -> Result<String, AllocError> {
    let mut text = String::new(alloc);
    for mark in 1..3 {
        let start = (mark * STRETCH).saturating_sub(before);
        for i in text.len()..start {
            text.push_str(if i % 50 == 49 { "\n" } else { "a" })?;
        }
        text.push_str(what)?;
    }
    text.push_str("b\r\nc")?;
    Ok(text)
}

/// All such texts.
pub(crate) fn round_marks(alloc: Global) -> Result<Vec<String>, AllocError> {
    let mut texts = Vec::new(alloc);
    for what in AT_MARKS {
        for before in 0..BEFORE {
            texts.push(text_round(alloc, what, before)?)?;
        }
    }
    Ok(texts)
}

/// A text of chars of each length and breaks of each kind, in which marks stand where they will.
pub(crate) fn mixed_text(alloc: Global, many: usize) -> Result<String, AllocError> {
    "Zeile – über 🐸 und せかい\r\nx\ry\u{B}\u{C}\u{85}z\u{2028}\u{2029}\n\n".repeat(alloc, many)
}
