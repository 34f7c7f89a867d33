//! Converts spans to positions, and bytes that may be no place on a line.
ghost use Rattle.std.specs.Prelude.{◌≡◌, ◌+◌, ◌*◌, ◌≤◌, ◌<◌, ◌⊎◌, ◌↔◌, IfSome, IsSome, IsTrue, chars};
ghost use Rattle.str_indices.specs.Schemes.{from_byte_idx, to_byte_idx};
ghost use Rattle.str_indices.specs.Text.{Text, size};
ghost use Rattle.positions.specs.declared.encodings.Encoding.{Encoding};
ghost use Rattle.positions.specs.Lines.{IsPlace, scheme_of};
ghost use Rattle.positions.specs.Parts.{HasByte, IsPart, Searched};
ghost use Rattle.positions.specs.Positions.{LineBeginsAfter, position_at};

use crate::middles::crlf_offset;
use crate::queries::{position_from, position_of};
use crate::texts::{is_boundary, len_of};
use crate::{Encoding, LineType, Part, Parts, Position, Range};
use std::ops;

/// Converts the two ends of a span to positions, each as `position_of` answers it. It takes at most the searches of two.
pub fn range_of<'a, P: Parts<'a>>(
    parts: &mut P,
    lines: LineType,
    encoding: Encoding,
    span: ops::Range<usize>,
) -> Range
    ensures start { result.start ≡ position_at lines encoding (P.state parts.old).text span.start }
    ensures end { result.end ≡ position_at lines encoding (P.state parts.old).text span.end }
    ensures cost { Searched (2 + 4 * (P.state parts.old).unit_searches) 2 (P.state parts.old) (P.state parts.new) }
{
    let part = parts.part_of_byte(lines, encoding, span.start);
    let _len = parts.len();
    let start = position_from(parts, lines, encoding, &part, span.start);
    let end = if is_in(&part, span.end) {
        position_from(parts, lines, encoding, &part, span.end)
    } else {
        position_of(parts, lines, encoding, span.end)
    };
    Range { start, end }
}

/// Whether a byte is in a part.
fn is_in(part: &Part<'_>, byte: usize) -> bool
    ensures { IsTrue result ↔ ((part.now.start ≤ byte) × (byte < part.now.start + size (chars part.now.text.now))) }
{
    part.start <= byte && byte - part.start < len_of(part.text)
}

/// Converts a byte index that is a place on a line to its position. It answers `None` if the byte is inside a char,
/// between the CR and the LF of a line break, or past the text's end: so a compiler notices a span that is wrong. It
/// takes the searches of `position_of`.
pub fn exact_position_of<'a, P: Parts<'a>>(
    parts: &mut P,
    lines: LineType,
    encoding: Encoding,
    byte: usize,
) -> Option<Position>
    ensures answer { IfSome result (λ position. position ≡ position_at lines encoding (P.state parts.old).text byte) }
    ensures some { IsSome result ↔ IsPlace lines (P.state parts.old).text byte }
    ensures cost { Searched (1 + 2 * (P.state parts.old).unit_searches) 1 (P.state parts.old) (P.state parts.new) }
    ensures near { LineBeginsAfter lines (P.state parts.old).text byte ((P.state parts.old).latest_start byte)
        → Searched 1 0 (P.state parts.old) (P.state parts.new) }
{
    let part = parts.part_of_byte(lines, encoding, byte);
    let _len = parts.len();
    if !is_place(lines, &part, byte - part.start) {
        return None;
    }
    Some(position_from(parts, lines, encoding, &part, byte))
}

/// Whether `at` in a part is a place on a line: between chars, and not inside a line break.
fn is_place(lines: LineType, part: &Part<'_>, at: usize) -> bool
    ensures { (cs : Text) (e : Encoding) → IsPart cs lines e part.now → HasByte cs (part.now.start + at) part.now
        → IsTrue result ↔ IsPlace lines cs (part.now.start + at) }
{
    is_boundary(part.text, at) && crlf_offset(lines, part, at) == 0
}
