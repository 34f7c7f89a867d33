//! The answers of the schemes, by a walk over the chars of a text, one after the other.
use str_indices::Scheme;

/// Counts the ends of the scheme where a char ends, by that char and the one after it.
fn ending_with(scheme: Scheme, c: char, after: Option<char>) -> usize {
    let return_alone = c == '\r' && after != Some('\n');
    match scheme {
        Scheme::Chars => 1,
        Scheme::Utf16 => c.len_utf16(),
        Scheme::Lf => usize::from(c == '\n'),
        Scheme::Crlf => usize::from(c == '\n' || return_alone),
        Scheme::Lines => usize::from(
            matches!(
                c,
                '\n' | '\u{B}' | '\u{C}' | '\u{85}' | '\u{2028}' | '\u{2029}'
            ) || return_alone,
        ),
    }
}

/// Counts the ends at or before the byte.
pub fn from_byte_idx(scheme: Scheme, text: &str, byte_idx: usize) -> usize {
    let mut count = 0usize;
    for (start, c) in text.char_indices() {
        let end = start.saturating_add(c.len_utf8());
        if end <= byte_idx {
            count = count.saturating_add(ending_with(scheme, c, char_at(text, end)));
        }
    }
    count
}

/// Where the char or the line of the index begins; a unit is at the byte where its char begins.
pub fn to_byte_idx(scheme: Scheme, text: &str, idx: usize) -> usize {
    let mut count = 0usize;
    for (start, c) in text.char_indices() {
        let end = start.saturating_add(c.len_utf8());
        let next = count.saturating_add(ending_with(scheme, c, char_at(text, end)));
        let of_a_pair = scheme == Scheme::Utf16 && next > idx;
        if count >= idx || of_a_pair {
            return start;
        }
        count = next;
    }
    text.len()
}

/// The char that begins at the byte.
fn char_at(text: &str, byte_idx: usize) -> Option<char> {
    text.get(byte_idx..)?.chars().next()
}

/// How many chars take two UTF-16 code units.
pub fn surrogate_pairs(text: &str) -> usize {
    let mut count = 0usize;
    for c in text.chars() {
        if c.len_utf16() == 2 {
            count = count.saturating_add(1);
        }
    }
    count
}

/// The chars that end at or before the byte, as a text by itself.
pub fn cut(text: &str, end: usize) -> &str {
    for place in (0..=end).rev() {
        if let Some(front) = text.get(..place) {
            return front;
        }
    }
    text
}
