//! Slices of a UTF-8 text, by chars and by lines: a caller that is proved with no proof file.
//!
//! Every text and index has an answer: nothing panics, nothing allocates.
#[cfg(test)]
mod tests;

ghost use Rattle.std.specs.Prelude.{◌≡◌, ◌+◌, ◌≤◌, IsCharBoundary, chars, drop, slice_range};
ghost use Rattle.str_indices.specs.Schemes.{to_byte_idx};
ghost use Rattle.str_indices.specs.declared.Scheme.TheVariants.{Chars, Lines};

use str_indices::{chars, laws, lines};

/// The text after its first `n` chars; nothing where it has no more.
pub fn after_chars(text: &str, n: usize) -> &str
    ensures { result.now ≡ drop (to_byte_idx Chars (chars text.now) n) text.now }
{
    let at = chars::to_byte_idx(text, n);
    &text[at..]
}

/// Line `k` of the text, counted from 0, with the line break that ends it; nothing past the last line.
pub fn line(text: &str, k: usize) -> &str
    ensures { let cs = chars text.now in
        result.now ≡ slice_range text.now (to_byte_idx Lines cs k) (to_byte_idx Lines cs (k + 1)) }
{
    let start = lines::to_byte_idx(text, k);
    let end = end_of_line(text, k);
    &text[start..end]
}

/// Where line `k` ends, after its line break: the beginning of line `k + 1`, or the end of the text.
fn end_of_line(text: &str, k: usize) -> usize
    ensures answer { result ≡ to_byte_idx Lines (chars text.now) (k + 1) }
    ensures boundary { IsCharBoundary text.now result }
    ensures order { to_byte_idx Lines (chars text.now) k ≤ result }
{
    match k.checked_add(1) {
        Some(next) => {
            laws::monotone(text, k, next);
            lines::to_byte_idx(text, next)
        }
        // No text has so many lines.
        None => {
            laws::past_end(text);
            text.len()
        }
    }
}
