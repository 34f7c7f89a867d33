//! Converts between positions and byte indices, by one search and one part where that is enough.
ghost use Rattle.std.specs.Prelude.{◌≡◌, ◌+◌, ◌-◌, ◌*◌, ◌<◌, ◌≤◌, ◌⊎◌, ◌↔◌, IfSome, IsSome, IsTrue, chars};
ghost use Rattle.str_indices.specs.Relations.{IsBoundary};
ghost use Rattle.str_indices.specs.Schemes.{count, from_byte_idx, to_byte_idx, weighed};
ghost use Rattle.str_indices.specs.Text.{size};
ghost use Rattle.positions.specs.Encodings.{units_of};
ghost use Rattle.positions.specs.Lines.{scheme_of};
ghost use Rattle.positions.specs.Parts.{HasByte, IsPart, Searched};
ghost use Rattle.positions.specs.Positions.{LineBeginsAfter, byte_at, byte_range_at, exact_byte_at, position_at};

use crate::look_back::line_start;
use crate::middles::crlf_offset;
use crate::starts::{Place, has_line, later_line, line_end, line_in, tells, units_up_to};
use crate::texts::{from_byte, len_of};
use crate::units::units_before;
use crate::{Encoding, LineType, Part, Parts, Position, Range};
use std::ops;

/// Converts a byte index to a position: its line, and the units from that line's beginning to the byte.
///
/// A byte inside a char has the position where the char begins. A byte in a line break has the position of its line's
/// end, and a byte past the end has the position of the text's end. It takes one search by the byte if the line begins
/// after the latest place where the byte's part may begin, `latest_start`. Otherwise it takes one by the line too, and
/// two more by a byte if parts come without the units before them.
pub fn position_of<'a, P: Parts<'a>>(
    parts: &mut P,
    lines: LineType,
    encoding: Encoding,
    byte: usize,
) -> Position
    ensures answer { result ≡ position_at lines encoding (P.state parts.old).text byte }
    ensures cost { Searched (1 + 2 * (P.state parts.old).unit_searches) 1 (P.state parts.old) (P.state parts.new) }
    ensures near { LineBeginsAfter lines (P.state parts.old).text byte ((P.state parts.old).latest_start byte)
        → Searched 1 0 (P.state parts.old) (P.state parts.new) }
{
    let part = parts.part_of_byte(lines, encoding, byte);
    position_from(parts, lines, encoding, &part, byte)
}

/// Converts a byte index to a position, by a part that the byte is in.
pub(crate) fn position_from<'a, P: Parts<'a>>(
    parts: &mut P,
    lines: LineType,
    encoding: Encoding,
    part: &Part<'a>,
    byte: usize,
) -> Position
    requires part { IsPart (P.state parts.old).text lines encoding part.now }
    requires round { HasByte (P.state parts.old).text byte part.now }
    requires units { (P.state parts.old).unit_searches ≡ 0 → IsSome part.now.units }
    ensures answer { result ≡ position_at lines encoding (P.state parts.old).text byte }
    ensures cost { Searched (2 * (P.state parts.old).unit_searches) 1 (P.state parts.old) (P.state parts.new) }
    ensures near { LineBeginsAfter lines (P.state parts.old).text byte part.now.start
        → Searched 0 0 (P.state parts.old) (P.state parts.new) }
{
    let first = part.start == 0;
    let at = (byte - part.start).min(len_of(part.text));
    let breaks = part.breaks_up_to::<P::Chunk>(lines, at);
    let _len = parts.len();
    let line = part.lines + breaks;
    let offset = crlf_offset(lines, part, at);
    if breaks > 0 || first {
        let start = line_start::<P::Chunk>(part.kind(lines), part.text, at, breaks);
        let rest = from_byte(part.text, start);
        let units = units_before::<P::Chunk>(part.encoding(encoding), rest, at - start);
        return Position {
            line,
            character: units - offset,
        };
    }
    let units = units_up_to(parts, lines, encoding, part, at) - offset;
    let before_line = units_before_line(parts, lines, encoding, line);
    Position {
        line,
        character: units - before_line,
    }
}

/// Counts the units of the chars before a line.
fn units_before_line<'a, P: Parts<'a>>(
    parts: &mut P,
    lines: LineType,
    encoding: Encoding,
    line: usize,
) -> usize
    ensures answer { let cs = (P.state parts.old).text in
        result ≡ weighed (units_of encoding) cs (to_byte_idx (scheme_of lines) cs line) }
    ensures cost { Searched (P.state parts.old).unit_searches 1 (P.state parts.old) (P.state parts.new) }
{
    let _len = parts.len();
    if line == 0 {
        return 0;
    }
    let start = line_in(parts, lines, encoding, line);
    units_up_to(parts, lines, encoding, &start.part, start.offset)
}

/// Converts a position to the byte index where its char begins.
///
/// A unit inside a char belongs to it. An offset past the end of the line gives the line's end, before its break, and a
/// line past the last one the text's length in bytes. It takes at most three searches by a count, and one by a byte if
/// parts come without the units before them.
pub fn byte_of<'a, P: Parts<'a>>(
    parts: &mut P,
    lines: LineType,
    encoding: Encoding,
    position: Position,
) -> usize
    ensures answer { result ≡ byte_at lines encoding (P.state parts.old).text position }
    ensures boundary { IsBoundary (P.state parts.old).text result }
    ensures cost { Searched (P.state parts.old).unit_searches 3 (P.state parts.old) (P.state parts.new) }
{
    let start = line_in(parts, lines, encoding, position.line);
    byte_on(parts, lines, encoding, &start, position)
}

/// Converts a position that names a place to its byte index. It answers `None` if the text has no such line, if the
/// offset is past the end of the line, or if the unit is inside a char: so a server notices a client that is out of
/// step. It takes at most one search by a byte more than `byte_of`.
pub fn exact_byte_of<'a, P: Parts<'a>>(
    parts: &mut P,
    lines: LineType,
    encoding: Encoding,
    position: Position,
) -> Option<usize>
    ensures answer { result ≡ exact_byte_at lines encoding (P.state parts.old).text position }
    ensures boundary { IfSome result (λ byte. IsBoundary (P.state parts.old).text byte) }
    ensures cost { Searched ((P.state parts.old).unit_searches + 1) 3 (P.state parts.old) (P.state parts.new) }
{
    let _len = parts.len();
    let start = line_in(parts, lines, encoding, position.line);
    if !has_line(parts, lines, &start, position.line) {
        return None;
    }
    let rest = from_byte(start.part.text, start.offset);
    let offset = start
        .part
        .place_on_line::<P::Chunk>(lines, encoding, position.line, rest, position.character);
    if tells(parts, &start.part, rest, offset) {
        if units_before::<P::Chunk>(start.part.encoding(encoding), rest, offset)
            != position.character
        {
            return None;
        }
        return Some(start.part.start + start.offset + offset);
    }
    exact_byte_after(parts, lines, encoding, &start, position)
}

/// Converts a range to byte indices, each as `byte_of` answers it, or `None` if its end is before its start. Positions
/// on one line share the search by the line.
pub fn byte_range<'a, P: Parts<'a>>(
    parts: &mut P,
    lines: LineType,
    encoding: Encoding,
    range: Range,
) -> Option<ops::Range<usize>>
    ensures answer { result ≡ byte_range_at lines encoding (P.state parts.old).text range }
    ensures ordered { IfSome result (λ bytes. bytes.start ≤ bytes.end) }
    ensures boundaries { let cs = (P.state parts.old).text in
        IfSome result (λ bytes. IsBoundary cs bytes.start × IsBoundary cs bytes.end) }
    ensures cost { Searched (2 * (P.state parts.old).unit_searches) 6 (P.state parts.old) (P.state parts.new) }
    ensures on_line { range.start.line ≡ range.end.line
        → Searched (2 * (P.state parts.old).unit_searches) 5 (P.state parts.old) (P.state parts.new) }
{
    let _len = parts.len();
    let Range { start, end } = range;
    if !start.is_at_or_before(end) {
        return None;
    }
    let first = line_in(parts, lines, encoding, start.line);
    let last = later_line(parts, lines, encoding, &first, start.line, end.line);
    let from = byte_on(parts, lines, encoding, &first, start);
    let to = byte_on(parts, lines, encoding, &last, end);
    Some(from..to)
}

/// Converts a position to a byte index, by the place `start` where its line begins.
#[inline(always)]
fn byte_on<'a, P: Parts<'a>>(
    parts: &mut P,
    lines: LineType,
    encoding: Encoding,
    start: &Place<'a>,
    position: Position,
) -> usize
    requires part { IsPart (P.state parts.old).text lines encoding start.now.part }
    requires place { start.now.part.start + start.now.offset ≡ to_byte_idx (scheme_of lines) (P.state parts.old).text position.line }
    requires offset { let part = start.now.part in
        start.now.offset ≡ to_byte_idx (scheme_of lines) (chars part.text.now) (position.line - part.lines) }
    requires boundary { IsBoundary (chars start.now.part.text.now) start.now.offset }
    requires units { (P.state parts.old).unit_searches ≡ 0 → IsSome start.now.part.units }
    ensures answer { result ≡ byte_at lines encoding (P.state parts.old).text position }
    ensures boundary { IsBoundary (P.state parts.old).text result }
    ensures cost { Searched (P.state parts.old).unit_searches 2 (P.state parts.old) (P.state parts.new) }
{
    let _len = parts.len();
    let rest = from_byte(start.part.text, start.offset);
    let offset = start
        .part
        .place_on_line::<P::Chunk>(lines, encoding, position.line, rest, position.character);
    if tells(parts, &start.part, rest, offset) {
        return start.part.start + start.offset + offset;
    }
    let before_line = units_up_to(parts, lines, encoding, &start.part, start.offset);
    byte_after(parts, lines, encoding, position, before_line)
}

/// Converts a position to a byte index, by the number of units before its line.
#[inline(always)]
fn byte_after<'a, P: Parts<'a>>(
    parts: &mut P,
    lines: LineType,
    encoding: Encoding,
    position: Position,
    before_line: usize,
) -> usize
    requires { let cs = (P.state parts.old).text in
        before_line ≡ weighed (units_of encoding) cs (to_byte_idx (scheme_of lines) cs position.line) }
    ensures answer { result ≡ byte_at lines encoding (P.state parts.old).text position }
    ensures cost { Searched 0 2 (P.state parts.old) (P.state parts.new) }
{
    let end = line_end(parts, lines, position.line);
    // from the text's length on, every number of units means the text's end
    let _len = parts.len();
    let units = before_line.saturating_add(position.character);
    parts.byte_of_units(encoding, units).min(end)
}

/// Converts a position as `exact_byte_of` does, where the part that its line begins in is not enough.
fn exact_byte_after<'a, P: Parts<'a>>(
    parts: &mut P,
    lines: LineType,
    encoding: Encoding,
    start: &Place<'a>,
    position: Position,
) -> Option<usize>
    requires part { IsPart (P.state parts.old).text lines encoding start.now.part }
    requires place { start.now.part.start + start.now.offset ≡ to_byte_idx (scheme_of lines) (P.state parts.old).text position.line }
    requires boundary { IsBoundary (chars start.now.part.text.now) start.now.offset }
    requires units { (P.state parts.old).unit_searches ≡ 0 → IsSome start.now.part.units }
    requires has { position.line ≤ count (scheme_of lines) (P.state parts.old).text }
    ensures answer { result ≡ exact_byte_at lines encoding (P.state parts.old).text position }
    ensures boundary { IfSome result (λ byte. IsBoundary (P.state parts.old).text byte) }
    ensures cost { Searched ((P.state parts.old).unit_searches + 1) 2 (P.state parts.old) (P.state parts.new) }
{
    let before_line = units_up_to(parts, lines, encoding, &start.part, start.offset);
    let byte = byte_after(parts, lines, encoding, position, before_line);
    let units = parts.units_of_byte(encoding, byte);
    if units - before_line != position.character {
        return None;
    }
    Some(byte)
}
