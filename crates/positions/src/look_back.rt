//! Finds where a line begins by a search backwards from a byte on it.
ghost use Rattle.std.specs.Prelude.{◌≡◌, ◌≤◌, chars};
ghost use Rattle.str_indices.specs.Relations.{IsBoundary};
ghost use Rattle.str_indices.specs.Schemes.{from_byte_idx, to_byte_idx};
ghost use Rattle.str_indices.specs.Text.{size};
ghost use Rattle.positions.specs.Lines.{scheme_of};

use crate::LineType;
use crate::kernels::{from_byte_idx, to_byte_idx};
use crate::texts::{char_start, from_byte, len_of};
use byte_chunk::ByteChunk;

/// How many bytes the first window has: more than most lines.
const FIRST_WINDOW: usize = 64;

/// Finds the byte index where line `line` begins, the line of `byte`. It searches windows that end at `byte`, each
/// eight times as long as the one before: so a window has at most `FIRST_WINDOW` bytes or about eight times the line's
/// bytes before `byte`, wherever in the text that is. On the first line it reads nothing.
pub(crate) fn line_start<T: ByteChunk>(
    lines: LineType,
    text: &str,
    byte: usize,
    line: usize,
) -> usize
    requires line { line ≡ from_byte_idx (scheme_of lines) (chars text.now) byte }
    requires within { byte ≤ size (chars text.now) }
    ensures start { result ≡ to_byte_idx (scheme_of lines) (chars text.now) line }
    ensures boundary { IsBoundary (chars text.now) result }
{
    if line == 0 {
        return 0;
    }
    let _len = len_of(text);
    let scheme = lines.scheme();
    let mut window = FIRST_WINDOW;
    'windows: loop {
        let from = char_start(text, byte.saturating_sub(window));
        let rest = from_byte(text, from);
        let breaks = from_byte_idx::<T>(scheme, rest, byte - from);
        if from == 0 || breaks > 0 {
            return from + to_byte_idx::<T>(scheme, rest, breaks);
        }
        window = window.saturating_mul(8);
    }
}
