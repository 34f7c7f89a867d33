//! The answers of calls, by a walk over the chars of the text, one after the other.
use crate::calls::Call;
use str_indices::Scheme;

/// How many of what the scheme counts end with the char at the byte.
fn ending_with(scheme: Scheme, text: &str, start: usize, c: char) -> usize {
    let after = start.saturating_add(c.len_utf8());
    let is_return = c == '\r' && text.as_bytes().get(after) != Some(&b'\n');
    let ends = match scheme {
        Scheme::Chars => return 1,
        Scheme::Utf16 => return c.len_utf16(),
        Scheme::Lf => c == '\n',
        Scheme::Crlf => c == '\n' || is_return,
        Scheme::Lines => {
            is_return
                || matches!(
                    c,
                    '\n' | '\u{B}' | '\u{C}' | '\u{85}' | '\u{2028}' | '\u{2029}'
                )
        }
    };
    usize::from(ends)
}

/// How many end at or before the byte.
fn count_to(scheme: Scheme, text: &str, byte: usize) -> usize {
    let mut count = 0usize;
    for (start, c) in text.char_indices() {
        if start.saturating_add(c.len_utf8()) <= byte {
            count = count.saturating_add(ending_with(scheme, text, start, c));
        }
    }
    count
}

/// Finds the first char boundary with `index` counted before it, or where the char with the unit of that index begins.
fn place_of(scheme: Scheme, text: &str, index: usize) -> usize {
    let mut count = 0usize;
    for (start, c) in text.char_indices() {
        let next = count.saturating_add(ending_with(scheme, text, start, c));
        if count >= index || (scheme == Scheme::Utf16 && next > index) {
            return start;
        }
        count = next;
    }
    text.len()
}

/// Answers the call.
pub fn answer(call: Call, text: &str) -> usize {
    match call {
        Call::Count(scheme) => count_to(scheme, text, text.len()),
        Call::Surrogates => {
            count_to(Scheme::Utf16, text, text.len()).saturating_sub(text.chars().count())
        }
        Call::From(scheme, byte) => count_to(scheme, text, byte),
        Call::To(scheme, index) => place_of(scheme, text, index),
    }
}
