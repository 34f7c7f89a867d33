//! Positions in a text by itself, and the laws about them, as another crate calls them: tables of worked answers, and callers
//! that are proved.
ghost use Rattle.std.specs.Prelude.{◌≡◌, chars, min};
ghost use Rattle.str_indices.specs.Schemes.{count};
ghost use Rattle.str_indices.specs.declared.Scheme.TheVariants.{Crlf};
ghost use Rattle.positions.specs.Relations.{IsGreatestPlace};

use byte_chunk::Chunk;
use positions::{
    Encoding, LineType, Position, Range, Whole, byte_of, byte_range, exact_byte_of, laws, line_end,
    position_of,
};
use std::process::Abort;

/// A line that ends in CRLF, one with a surrogate pair that ends in CR, one of a char of three bytes, an empty one, and
/// one that no break ends.
const TEXT: &str = "a\r\n🐸b\rせ\n\nx";

fn at(line: usize, character: usize) -> Position {
    Position { line, character }
}

/// From a byte to its position and back, as a caller writes it, who knows by the law what comes back.
fn there_and_back(text: &str, byte: usize) -> usize
    ensures { IsGreatestPlace LineType.Crlf (chars text.now) byte result }
{
    laws::round_trip(LineType::Crlf, Encoding::Utf16, text, byte);
    let whole = &mut Whole::<Chunk>::of(text);
    let position = position_of(whole, LineType::Crlf, Encoding::Utf16, byte);
    byte_of(whole, LineType::Crlf, Encoding::Utf16, position)
}

/// From a position to its byte and back, so too.
fn back_from_byte(text: &str, position: Position) -> Position
    ensures { result.line ≡ min position.line (count Crlf (chars text.now)) }
{
    laws::position_round_trip(LineType::Crlf, Encoding::Utf16, text, position);
    let whole = &mut Whole::<Chunk>::of(text);
    let byte = byte_of(whole, LineType::Crlf, Encoding::Utf16, position);
    position_of(whole, LineType::Crlf, Encoding::Utf16, byte)
}

/// A text by itself, read by the library's own chunks.
fn whole(text: &str) -> Whole<'_, Chunk>
    ensures { result ≡ chars text.now }
{
    Whole::of(text)
}

/// Compares the byte index that a row of a table asks for.
fn assert_byte(rt: &impl Abort, found: usize, wanted: usize, row: usize) {
    assert!(rt; found == wanted, "row {row}: {found}");
}

/// Compares the position and the byte index that a row of a table asks for.
fn assert_both(rt: &impl Abort, found: (Position, usize), wanted: (Position, usize), row: usize) {
    assert!(rt; found == wanted, "row {row}: {found:?}");
}

/// Texts, lines, and where the lines end.
const LINE_ENDS: [(&str, usize, usize); 16] = [
    (TEXT, 0, 1),
    (TEXT, 1, 8),
    (TEXT, 2, 12),
    (TEXT, 3, 13),
    (TEXT, 4, 15),
    (TEXT, 5, 15),
    (TEXT, usize::MAX, 15),
    ("", 0, 0),
    ("", 1, 0),
    ("\r", 0, 0),
    ("\r", 1, 1),
    ("\r\r\n\n", 0, 0),
    ("\r\r\n\n", 1, 1),
    ("\r\r\n\n", 2, 3),
    ("\r\r\n\n", 3, 4),
    ("a\u{0B}\u{0C}\u{85}\u{2028}\u{2029}b", 0, 12),
];

#[test]
fn a_line_ends_before_its_break(rt: HostRuntime) {
    for i in 0..LINE_ENDS.len() {
        let (text, line, end) = LINE_ENDS[i];
        assert_byte(
            &rt,
            line_end(&mut whole(text), LineType::Crlf, line),
            end,
            i,
        );
    }
}

/// Bytes, the lines and the offsets of their positions, and the bytes of those.
const BYTES: [(usize, usize, usize, usize); 18] = [
    (0, 0, 0, 0),
    (1, 0, 1, 1),
    (2, 0, 1, 1), // between CR and LF
    (3, 1, 0, 3),
    (4, 1, 0, 3), // inside a char, as the next two
    (5, 1, 0, 3),
    (6, 1, 0, 3),
    (7, 1, 2, 7),
    (8, 1, 3, 8),
    (9, 2, 0, 9),
    (10, 2, 0, 9),
    (11, 2, 0, 9),
    (12, 2, 1, 12),
    (13, 3, 0, 13),
    (14, 4, 0, 14),
    (15, 4, 1, 15),
    (16, 4, 1, 15), // past the end
    (usize::MAX, 4, 1, 15),
];

#[test]
fn each_byte_has_a_position(rt: HostRuntime) {
    for i in 0..BYTES.len() {
        let (byte, line, character, back) = BYTES[i];
        let found = (
            position_of(&mut whole(TEXT), LineType::Crlf, Encoding::Utf16, byte),
            there_and_back(TEXT, byte),
        );
        assert_both(&rt, found, (at(line, character), back), i);
    }
}

/// Lines and offsets, their bytes, and the lines and the offsets of those.
const POSITIONS: [(usize, usize, usize, usize, usize); 21] = [
    (0, 0, 0, 0, 0),
    (0, 1, 1, 0, 1),
    (0, 2, 1, 0, 1), // past the end of its line
    (0, usize::MAX, 1, 0, 1),
    (1, 0, 3, 1, 0),
    (1, 1, 3, 1, 0), // the second unit of a pair
    (1, 2, 7, 1, 2),
    (1, 3, 8, 1, 3),
    (1, 4, 8, 1, 3),
    (2, 0, 9, 2, 0),
    (2, 1, 12, 2, 1),
    (2, 2, 12, 2, 1),
    (3, 0, 13, 3, 0),
    (3, 1, 13, 3, 0),
    (4, 0, 14, 4, 0),
    (4, 1, 15, 4, 1),
    (4, 2, 15, 4, 1),
    (5, 0, 15, 4, 1), // past the last line
    (5, 7, 15, 4, 1),
    (usize::MAX, 0, 15, 4, 1),
    (usize::MAX, usize::MAX, 15, 4, 1),
];

#[test]
fn each_position_has_a_byte(rt: HostRuntime) {
    for i in 0..POSITIONS.len() {
        let (line, character, byte, back_line, back_character) = POSITIONS[i];
        let position = at(line, character);
        let back = back_from_byte(TEXT, position);
        let wanted = (at(back_line, back_character), byte);
        assert_both(
            &rt,
            (
                back,
                byte_of(&mut whole(TEXT), LineType::Crlf, Encoding::Utf16, position),
            ),
            wanted,
            i,
        );
    }
}

#[test]
fn the_empty_text_has_one_position(rt: HostRuntime) {
    for index in [0, 1, usize::MAX] {
        let found = (
            position_of(&mut whole(""), LineType::Crlf, Encoding::Utf16, index),
            byte_of(
                &mut whole(""),
                LineType::Crlf,
                Encoding::Utf16,
                at(index, index),
            ),
        );
        assert_both(&rt, found, (at(0, 0), 0), index);
    }
}

/// Bytes, the offsets of their positions in bytes and in scalar values, and the bytes of those.
const OFFSETS: [(usize, usize, usize, usize); 8] = [
    (1, 1, 1, 1),
    (3, 0, 0, 3),
    (6, 0, 0, 3), // inside a char
    (7, 4, 1, 7),
    (8, 5, 2, 8),
    (11, 0, 0, 9), // inside a char
    (12, 3, 1, 12),
    (15, 1, 1, 15),
];

#[test]
fn an_offset_is_in_the_encoding(rt: HostRuntime) {
    for i in 0..OFFSETS.len() {
        let (byte, in_bytes, in_chars, back) = OFFSETS[i];
        let position = position_of(&mut whole(TEXT), LineType::Crlf, Encoding::Utf8, byte);
        assert_both(
            &rt,
            (
                position,
                byte_of(&mut whole(TEXT), LineType::Crlf, Encoding::Utf8, position),
            ),
            (at(position.line, in_bytes), back),
            i,
        );
        let position = position_of(&mut whole(TEXT), LineType::Crlf, Encoding::Utf32, byte);
        assert_both(
            &rt,
            (
                position,
                byte_of(&mut whole(TEXT), LineType::Crlf, Encoding::Utf32, position),
            ),
            (at(position.line, in_chars), back),
            i,
        );
    }
}

/// Lines and offsets in UTF-16 code units, and the bytes of those that name a place.
const EXACT: [(usize, usize, Option<usize>); 10] = [
    (0, 0, Some(0)),
    (0, 1, Some(1)),
    (0, 2, None), // past the end of its line
    (1, 1, None), // inside a char
    (1, 2, Some(7)),
    (2, 1, Some(12)),
    (3, 0, Some(13)),
    (4, 1, Some(15)),
    (5, 0, None), // past the last line
    (usize::MAX, usize::MAX, None),
];

/// Compares the byte that an exact position names, where it names one.
fn assert_place(rt: &impl Abort, found: Option<usize>, wanted: Option<usize>, row: usize) {
    assert!(rt; found == wanted, "row {row}: {found:?}");
}

#[test]
fn an_exact_position_names_a_place(rt: HostRuntime) {
    for i in 0..EXACT.len() {
        let (line, character, byte) = EXACT[i];
        let found = exact_byte_of(
            &mut whole(TEXT),
            LineType::Crlf,
            Encoding::Utf16,
            at(line, character),
        );
        assert_place(&rt, found, byte, i);
    }
    // A last line that is empty is there, and the one after it is not.
    assert_place(
        &rt,
        exact_byte_of(&mut whole("a\n"), LineType::Crlf, Encoding::Utf8, at(1, 0)),
        Some(2),
        0,
    );
    assert_place(
        &rt,
        exact_byte_of(&mut whole("a\n"), LineType::Crlf, Encoding::Utf8, at(2, 0)),
        None,
        1,
    );
    assert_place(
        &rt,
        exact_byte_of(&mut whole(""), LineType::Crlf, Encoding::Utf32, at(0, 0)),
        Some(0),
        2,
    );
}

/// Offsets in bytes that are inside a char, past the end of a line and past the last line, and their bytes.
#[test]
fn a_byte_inside_a_char_belongs_to_it(rt: HostRuntime) {
    assert_byte(
        &rt,
        byte_of(&mut whole(TEXT), LineType::Crlf, Encoding::Utf8, at(1, 3)),
        3,
        0,
    );
    assert_byte(
        &rt,
        byte_of(&mut whole(TEXT), LineType::Crlf, Encoding::Utf8, at(1, 9)),
        8,
        1,
    );
    assert_byte(
        &rt,
        byte_of(&mut whole(TEXT), LineType::Crlf, Encoding::Utf8, at(9, 0)),
        15,
        2,
    );
}

/// The text of a range, which a caller may slice at the answer.
fn text_of(encoding: Encoding, text: &str, range: Range) -> Option<&str> {
    let bytes = byte_range(&mut whole(text), LineType::Crlf, encoding, range)?;
    Some(&text[bytes.start..bytes.end])
}

/// Lines and offsets in UTF-16 code units of the start and the end of a range, and its text.
const RANGES: [((usize, usize), (usize, usize), Option<&str>); 10] = [
    ((0, 0), (0, 0), Some("")),
    ((0, 0), (0, 9), Some("a")), // to the end of the line, before its break
    ((0, 1), (1, 0), Some("\r\n")),
    ((1, 1), (1, 2), Some("🐸")), // from the second unit of a pair
    ((1, 2), (3, 0), Some("b\rせ\n")),
    ((2, 0), (9, 9), Some("せ\n\nx")),
    ((9, 9), (9, 9), Some("")),
    ((0, 2), (0, 1), None), // both are the same place, and still the end is before the start
    ((1, 0), (0, 9), None),
    ((usize::MAX, 0), (0, 0), None),
];

/// Compares the text of a range, and whether it has bytes at all.
fn assert_part(rt: &impl Abort, range: Range, part: Option<&str>, row: usize) {
    let found = text_of(Encoding::Utf16, TEXT, range);
    let has_bytes = byte_range(&mut whole(TEXT), LineType::Crlf, Encoding::Utf16, range).is_some();
    assert!(rt;
        found == part && has_bytes == part.is_some(),
        "row {row}: {found:?}"
    );
}

#[test]
fn a_range_is_from_its_start_to_its_end(rt: HostRuntime) {
    for i in 0..RANGES.len() {
        let (start, end, part) = RANGES[i];
        let range = Range {
            start: at(start.0, start.1),
            end: at(end.0, end.1),
        };
        assert_part(&rt, range, part, i);
    }
}

#[test]
fn a_range_is_in_the_encoding(rt: HostRuntime) {
    let range = Range {
        start: at(1, 1),
        end: at(2, 2),
    };
    assert_eq!(&rt; text_of(Encoding::Utf8, TEXT, range), Some("🐸b\r"));
    assert_eq!(&rt; text_of(Encoding::Utf32, TEXT, range), Some("b\rせ"));
}
