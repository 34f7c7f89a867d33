//! What a text that lends its parts answers about lines and positions, beside what the text by itself does. A function answers
//! the first kind of line break, and the first encoding, by which the two differ.
use byte_chunk::Chunk;
use positions::{
    Encoding, LineType, Parts, Position, Range, Whole, byte_of, byte_range, exact_byte_of,
    exact_position_of, line, line_end, position_of, range_of,
};

/// The kinds of line break.
pub const KINDS: [LineType; 3] = [LineType::Lf, LineType::Crlf, LineType::Lines];

/// The units of an offset.
pub const ENCODINGS: [Encoding; 3] = [Encoding::Utf8, Encoding::Utf16, Encoding::Utf32];

/// A position.
pub fn at(line: usize, character: usize) -> Position {
    Position { line, character }
}

/// Compares where a line begins and ends.
pub fn differs_on_line<'a, P: Parts<'a>>(parts: &mut P, text: &str, k: usize) -> Option<LineType> {
    for l in KINDS {
        if !is_line_same(parts, text, l, k) {
            return Some(l);
        }
    }
    None
}

/// Compares the byte of a position, whether it names a place, and the range to it from another position.
pub fn differs_at_position<'a, P: Parts<'a>>(
    parts: &mut P,
    text: &str,
    start: Position,
    end: Position,
) -> Option<(LineType, Encoding)> {
    for l in KINDS {
        for e in ENCODINGS {
            if !is_position_same(parts, text, (l, e), start, end) {
                return Some((l, e));
            }
        }
    }
    None
}

/// Compares the position of a byte, whether it is a place, the spans from there, and what is answered at that position and
/// the one after it.
pub fn differs_at_byte<'a, P: Parts<'a>>(
    parts: &mut P,
    text: &str,
    byte: usize,
) -> Option<(LineType, Encoding)> {
    for l in KINDS {
        for e in ENCODINGS {
            if !is_byte_same(parts, text, (l, e), byte) {
                return Some((l, e));
            }
        }
    }
    None
}

fn is_line_same<'a, P: Parts<'a>>(parts: &mut P, text: &str, l: LineType, k: usize) -> bool {
    let wanted = line(&mut Whole::<Chunk>::of(text), l, k);
    line_end(parts, l, k) == wanted.end && line(parts, l, k) == wanted
}

fn is_position_same<'a, P: Parts<'a>>(
    parts: &mut P,
    text: &str,
    (l, e): (LineType, Encoding),
    start: Position,
    end: Position,
) -> bool {
    let whole = &mut Whole::<Chunk>::of(text);
    let range = Range { start, end };
    byte_of(parts, l, e, end) == byte_of(whole, l, e, end)
        && exact_byte_of(parts, l, e, end) == exact_byte_of(whole, l, e, end)
        && byte_range(parts, l, e, range) == byte_range(whole, l, e, range)
}

fn is_byte_same<'a, P: Parts<'a>>(
    parts: &mut P,
    text: &str,
    (l, e): (LineType, Encoding),
    byte: usize,
) -> bool {
    let whole = &mut Whole::<Chunk>::of(text);
    let position = position_of(whole, l, e, byte);
    let next = at(position.line, position.character.saturating_add(1));
    let (near, end) = (byte.saturating_add(7), text.len());
    position_of(parts, l, e, byte) == position
        && exact_position_of(parts, l, e, byte) == exact_position_of(whole, l, e, byte)
        && range_of(parts, l, e, byte..near) == range_of(whole, l, e, byte..near)
        && range_of(parts, l, e, byte..end) == range_of(whole, l, e, byte..end)
        && is_position_same(parts, text, (l, e), at(0, 0), position)
        && is_position_same(parts, text, (l, e), position, next)
        && is_position_same(parts, text, (l, e), next, position)
        && is_line_same(parts, text, l, position.line)
}
