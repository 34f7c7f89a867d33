//! Laws of lines and positions. Each function does nothing: its contract is the law.
ghost use Rattle.std.specs.Prelude.{◌≡◌, ◌+◌, ◌<◌, ◌≤◌, ◌⊎◌, ◌↔◌, IfSome, IsSome, chars, min, sum_by};
ghost use Rattle.str_indices.specs.Relations.{IsBoundary};
ghost use Rattle.str_indices.specs.Schemes.{boundary_weighed, count, from_byte_idx, to_byte_idx, weighed};
ghost use Rattle.str_indices.specs.Starts.{IsInside};
ghost use Rattle.positions.specs.Encodings.{units_of};
ghost use Rattle.positions.specs.Lines.{IsPlace, line_content, line_end, scheme_of};
ghost use Rattle.positions.specs.Positions.{byte_at, byte_range_at, exact_byte_at, position_at};
ghost use Rattle.positions.specs.Relations.{IsAtOrBefore, IsGreatestPlace, IsLineEnd};

use crate::{Encoding, LineType, Position, Range};

/// A line's content ends at the least place, from the line's beginning on, where a line break begins, or at the end of
/// the text if none does. That place is on the line, and no later line begins before it.
pub fn ends_of_lines(lines: LineType, text: &str, line: usize, next: usize)
    ensures least { IsLineEnd lines (chars text.now) line (line_end lines (chars text.now) line) }
    ensures on_line { let cs = chars text.now in
        from_byte_idx (scheme_of lines) cs (line_end lines cs line) ≡ min line (count (scheme_of lines) cs) }
    ensures order { let cs = chars text.now in line < next → line_end lines cs line ≤ to_byte_idx (scheme_of lines) cs next }
{}

/// Converting a byte index to a position and back gives the greatest place at or before the byte that a position may
/// have: between chars, and not between a CR that begins a line break and LF.
///
/// So such a place comes back as itself, a byte index inside a char as the char's beginning, one between the CR and
/// the LF of one line break as the place before it, and one past the end as the text's length in bytes.
pub fn round_trip(lines: LineType, encoding: Encoding, text: &str, byte: usize)
    ensures greatest { let cs = chars text.now in
        IsGreatestPlace lines cs byte (byte_at lines encoding cs (position_at lines encoding cs byte)) }
    ensures place { let cs = chars text.now in
        IsPlace lines cs byte → byte_at lines encoding cs (position_at lines encoding cs byte) ≡ byte }
{}

/// Converting a position to a byte index and back gives the position, with an offset past the line's length cut to that
/// length, a unit inside a char moved to the char's first, and a line past the last one moved to the end of the text.
pub fn position_round_trip(lines: LineType, encoding: Encoding, text: &str, position: Position)
    ensures line { let cs = chars text.now in
        (position_at lines encoding cs (byte_at lines encoding cs position)).line ≡ min position.line (count (scheme_of lines) cs) }
    ensures cut { let cs = chars text.now in let content = line_content lines cs position.line in
        let units = units_of encoding in position.line ≤ count (scheme_of lines) cs
        → ((position_at lines encoding cs (byte_at lines encoding cs position)).character
        ≡ min position.character (sum_by units content))
        ⊎ IsInside units content position.character }
    ensures inside { let cs = chars text.now in let units = units_of encoding in position.line ≤ count (scheme_of lines) cs
        → (inside : IsInside units (line_content lines cs position.line) position.character)
        → (position_at lines encoding cs (byte_at lines encoding cs position)).character ≡ sum_by units inside.front }
    ensures past { let cs = chars text.now in count (scheme_of lines) cs < position.line
        → (position_at lines encoding cs (byte_at lines encoding cs position)).character
        ≡ sum_by (units_of encoding) (line_content lines cs (count (scheme_of lines) cs)) }
{}

/// A position names a place exactly if some byte has that position, and then the byte index of the place has it.
pub fn exact_positions(
    lines: LineType,
    encoding: Encoding,
    text: &str,
    position: Position,
    byte: usize,
)
    ensures back { let cs = chars text.now in
        IfSome (exact_byte_at lines encoding cs position) (λ place. position_at lines encoding cs place ≡ position) }
    ensures only { let cs = chars text.now in
        position_at lines encoding cs byte ≡ position → IsSome (exact_byte_at lines encoding cs position) }
{}

/// A greater byte index never has an earlier position.
pub fn positions_in_order(lines: LineType, encoding: Encoding, text: &str, i: usize, j: usize)
    ensures { let cs = chars text.now in
        i ≤ j → IsAtOrBefore (position_at lines encoding cs i) (position_at lines encoding cs j) }
{}

/// A later position never has a lesser byte index.
pub fn bytes_in_order(lines: LineType, encoding: Encoding, text: &str, p: Position, q: Position)
    ensures { let cs = chars text.now in IsAtOrBefore p q → byte_at lines encoding cs p ≤ byte_at lines encoding cs q }
{}

/// A range has byte indices exactly if its end is not before its start, and then they are boundaries in order.
pub fn byte_ranges(lines: LineType, encoding: Encoding, text: &str, range: Range)
    ensures some { IsSome (byte_range_at lines encoding (chars text.now) range) ↔ IsAtOrBefore range.start range.end }
    ensures ordered { IfSome (byte_range_at lines encoding (chars text.now) range) (λ bytes. bytes.start ≤ bytes.end) }
    ensures boundaries { let cs = chars text.now in
        IfSome (byte_range_at lines encoding cs range) (λ bytes. IsBoundary cs bytes.start × IsBoundary cs bytes.end) }
{}

/// In units of the whole text: the offset of a byte's position and the units before its line are together the units
/// before the byte, or before the line's end if the byte is after it. The byte index of a position is that of the sum
/// of its offset and the units before its line, or the line's end if that is less.
pub fn units_of_the_text(
    lines: LineType,
    encoding: Encoding,
    text: &str,
    byte: usize,
    position: Position,
)
    ensures offset { let cs = chars text.now in let p = position_at lines encoding cs byte in
        let before = weighed (units_of encoding) cs in
        p.character + before (to_byte_idx (scheme_of lines) cs p.line) ≡ before (min byte (line_end lines cs p.line)) }
    ensures byte { let cs = chars text.now in let units = units_of encoding in
        let whole = weighed units cs (to_byte_idx (scheme_of lines) cs position.line) + position.character in
        byte_at lines encoding cs position ≡ min (line_end lines cs position.line) (boundary_weighed units cs whole) }
{}
