//! The char that begins at a byte index, and the one that ends there.
ghost use Rattle.std.specs.Prelude.{◌≡◌, ◌+◌, ◌-◌, ◌<◌, ◌↔◌, IfSome, IfNone, IsSome, IsTrue, chars};
ghost use Rattle.std.specs.Char.{len_utf8};
ghost use Rattle.str_indices.specs.Relations.{IsBoundary, IsEndOf};
ghost use Rattle.str_indices.specs.Text.{size};
ghost use Rattle.text_summary.specs.Pieces.{joined, joined_size};
ghost use Rattle.text_rope.specs.Looks.{Asks};
ghost use Rattle.text_rope.specs.States.{RopeState};

use crate::chunks::chunk_in;
use crate::rope::views::View;

/// The char that begins at a byte index; none inside a char, and from the end of the text on. One question, as `chunk_in`.
pub fn char_at_in(v: &mut View, byte_idx: usize) -> Option<char>
    ensures char { IfSome result (λ c. IsEndOf (joined v.old.texts) c (byte_idx + len_utf8 c)) }
    ensures some { IsSome result
        ↔ (IsBoundary (joined v.old.texts) byte_idx × (byte_idx < joined_size v.old.texts)) }
    ensures cost { Asks 1 v.old v.new }
{
    let chunk = chunk_in(v, byte_idx)?;
    let at = byte_idx - chunk.start;
    if is_boundary(chunk.text, at) {
        first_after(chunk.text, at)
    } else {
        None
    }
}

/// The char that ends at a byte index; none at the beginning, inside a char, and past the end. One question, as `chunk_in`.
pub fn char_before_in(v: &mut View, byte_idx: usize) -> Option<char>
    ensures char { IfSome result (λ c. IsEndOf (joined v.old.texts) c byte_idx) }
    ensures some { IsSome result ↔ (IsBoundary (joined v.old.texts) byte_idx × (0 < byte_idx)) }
    ensures cost { Asks 1 v.old v.new }
{
    if byte_idx == 0 {
        return None;
    }
    let chunk = chunk_in(v, byte_idx - 1)?;
    let at = byte_idx - chunk.start;
    if is_boundary(chunk.text, at) {
        last_before(chunk.text, at)
    } else {
        None
    }
}

/// Whether a byte index is a boundary of a text.
fn is_boundary(text: &str, at: usize) -> bool
    ensures { IsTrue result ↔ IsBoundary (chars text.now) at }
{
    text.is_char_boundary(at)
}

/// The char after a boundary, none at the end.
fn first_after(text: &str, at: usize) -> Option<char>
    requires { IsBoundary (chars text.now) at }
    ensures some { IfSome result (λ c. IsEndOf (chars text.now) c (at + len_utf8 c)) }
    ensures none { IfNone result (at ≡ size (chars text.now)) }
{
    text[at..].chars().next()
}

/// The char before a boundary, none at the beginning.
fn last_before(text: &str, at: usize) -> Option<char>
    requires { IsBoundary (chars text.now) at }
    ensures some { IfSome result (λ c. IsEndOf (chars text.now) c at) }
    ensures none { IfNone result (at ≡ 0) }
{
    let start = text.floor_char_boundary(at.saturating_sub(1));
    text[start..at].chars().next()
}
