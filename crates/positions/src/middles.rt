//! Places between CR and LF.
ghost use Rattle.std.specs.Prelude.{◌≡◌, ◌+◌, ◌<◌, ◌≤◌, ◌⊎◌, ◌↔◌, IsTrue, chars, true};
ghost use Rattle.str_indices.specs.Relations.{IsCrlfMiddle};
ghost use Rattle.str_indices.specs.Text.{Text, size};
ghost use Rattle.positions.specs.declared.encodings.Encoding.{Encoding};
ghost use Rattle.positions.specs.Parts.{IsPart};
ghost use Rattle.positions.specs.Lines.{IsCrlfOffset};
ghost use Rattle.positions.specs.declared.line_type.LineType.{LineType};

use crate::{LineType, Part};

/// Whether byte index `at` of a text is between CR and LF.
pub(crate) fn is_middle(text: &str, at: usize) -> bool
    ensures { IsTrue result ↔ IsCrlfMiddle (chars text.now) at }
{
    if at == 0 || at >= text.len() {
        return false;
    }
    let bytes = text.as_bytes();
    bytes[at] == b'\n' && bytes[at - 1] == b'\r'
}

/// Whether a place in a part is between CR and LF.
pub(crate) fn is_middle_in(part: &Part<'_>, at: usize) -> bool
    ensures { (cs : Text) (l : LineType) (e : Encoding) → IsPart cs l e part.now
        → (at < size (chars part.now.text.now)) ⊎ (part.now.start + size (chars part.now.text.now) ≡ size cs)
        → IsTrue result ↔ IsCrlfMiddle cs (part.now.start + at) }
{
    if at == 0 {
        return part.in_crlf;
    }
    is_middle(part.text, at)
}

/// Returns 1 if the place `at` in a part is between a CR that begins a line break and LF, otherwise 0.
pub(crate) fn crlf_offset(lines: LineType, part: &Part<'_>, at: usize) -> usize
    ensures { (cs : Text) (l : LineType) (e : Encoding) → IsPart cs l e part.now
        → (at < size (chars part.now.text.now)) ⊎ (part.now.start + size (chars part.now.text.now) ≡ size cs)
        → IsCrlfOffset lines cs (part.now.start + at) result }
{
    if lines.ends_at_return() && is_middle_in(part, at) {
        1
    } else {
        0
    }
}
