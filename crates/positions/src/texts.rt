//! Calls of `str`, with contracts about the chars of the text.
ghost use Rattle.std.specs.Prelude.{◌≡◌, ◌↔◌, IsTrue, chars};
ghost use Rattle.str_indices.specs.Relations.{IsBoundary};
ghost use Rattle.str_indices.specs.Starts.{IsGreatestBoundary};
ghost use Rattle.str_indices.specs.Text.{cut, size};
ghost use Rattle.positions.specs.Characters.{IsBackOf};

/// How many bytes a text has.
pub(crate) fn len_of(text: &str) -> usize
    ensures { result ≡ size (chars text.now) }
{
    text.len()
}

/// Whether a byte index is between chars, or at the text's beginning or end.
pub(crate) fn is_boundary(text: &str, at: usize) -> bool
    ensures { IsTrue result ↔ IsBoundary (chars text.now) at }
{
    text.is_char_boundary(at)
}

/// Returns the greatest boundary at or before `byte`; past the end, the text's length.
pub fn char_start(text: &str, byte: usize) -> usize
    ensures { IsGreatestBoundary (chars text.now) byte result }
{
    text.floor_char_boundary(byte)
}

/// The text up to a byte index.
pub(crate) fn up_to(text: &str, at: usize) -> &str
    requires boundary { IsBoundary (chars text.now) at }
    ensures { chars result.now ≡ cut (chars text.now) at }
{
    &text[..at]
}

/// The text from a byte index on.
pub(crate) fn from_byte(text: &str, at: usize) -> &str
    requires boundary { IsBoundary (chars text.now) at }
    ensures { IsBackOf (chars text.now) (chars result.now) at }
{
    &text[at..]
}
