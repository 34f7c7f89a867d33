//! Searches on the first line of a text that is one `&str`.
ghost use Rattle.std.specs.Prelude.{◌≡◌, ◌<◌, ◌≤◌, IsCharBoundary, chars, length};
ghost use Rattle.std.specs.List.{before_first};
ghost use Rattle.str_indices.specs.Text.{size};
ghost use Rattle.positions.specs.Lines.{is_break};
ghost use Rattle.positions.specs.Positions.{byte_at};

use crate::kernels::to_byte_idx;
use crate::middles::is_middle;
use crate::texts::{char_start, from_byte, up_to};
use crate::units::place_of;
use crate::{Encoding, LineType, kernels};
use byte_chunk::ByteChunk;

/// An offset below this is near: reading up to there past the line's end does no harm.
pub(crate) const NEAR: usize = 1024;

/// Finds the byte index where the content of the first line ends: before its break, or at the text's end if it has
/// none. It reads the text up to there.
pub(crate) fn content_end<T: ByteChunk>(lines: LineType, text: &str) -> usize
    ensures { result ≡ size (before_first (is_break lines) (chars text.now)) }
{
    let next = to_byte_idx::<T>(lines.scheme(), text, 1);
    let last = char_start(text, next.saturating_sub(1));
    if next == text.len() && kernels::count::<T>(lines.scheme(), from_byte(text, last)) == 0 {
        return next;
    }
    if lines.ends_at_return() && is_middle(text, last) {
        last - 1
    } else {
        last
    }
}

/// Converts the offset `character` on the first line to the byte index where its char begins, or to the end of the
/// line's content if the line has no such unit. It reads up to where `character` units end, and looks for the line's
/// end before that.
fn near_place<T: ByteChunk>(
    lines: LineType,
    encoding: Encoding,
    text: &str,
    character: usize,
) -> usize
    ensures { result ≡ byte_at lines encoding (chars text.now) (record { line = 0; character = character }) }
{
    let place = place_of::<T>(encoding, text, character);
    let front = up_to(text, place);
    if kernels::count::<T>(lines.scheme(), front) == 0 {
        return place;
    }
    content_end::<T>(lines, front)
}

/// Converts the offset `character` on the first line to the byte index where its char begins, or to the end of the
/// line's content if the line has no such unit. A unit takes at least one byte: so if the offset is not near, it looks
/// for the line's end in the first `character` bytes, and then no further than where `character` units end.
pub(crate) fn place_on_first_line<T: ByteChunk>(
    lines: LineType,
    encoding: Encoding,
    text: &str,
    character: usize,
) -> usize
    ensures { result ≡ byte_at lines encoding (chars text.now) (record { line = 0; character = character }) }
{
    if character < NEAR {
        return near_place::<T>(lines, encoding, text, character);
    }
    let near = char_start(text, character);
    let end = content_end::<T>(lines, up_to(text, near));
    if end < near {
        return end;
    }
    let place = place_of::<T>(encoding, text, character);
    let rest = from_byte(up_to(text, place), near);
    near + content_end::<T>(lines, rest)
}
