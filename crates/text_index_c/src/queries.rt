// Questions about a text, by its index.
ghost use Rattle.std.specs.Prelude.{◌≡◌, ◌↔◌, IsTrue};
ghost use Rattle.str_indices.specs.Relations.{IsBoundary};
ghost use Rattle.str_indices.specs.Schemes.{count, from_byte_idx, to_byte_idx};
ghost use Rattle.str_indices.specs.Text.{size};
ghost use Rattle.c_values.specs.Numbers.{scheme_at};
ghost use Rattle.text_index_c.specs.Handles.{IsIndex, text_of};

use crate::handle::{IndexHandle, index_of};
use c_values::scheme_at;
use text_index::{count_in, from_in, to_in};

/// How many bytes the text has.
#[unsafe(no_mangle)]
pub extern "C" fn str_index_len(handle: &IndexHandle<'_>) -> usize
    requires { IsIndex handle.now }
    ensures { result ≡ size (text_of handle.now) }
{
    index_of(handle).len()
}

/// Counts the chars, UTF-16 code units or line breaks of the text.
#[unsafe(no_mangle)]
pub extern "C" fn str_index_count(handle: &IndexHandle<'_>, scheme: u32) -> usize
    requires { IsIndex handle.now }
    ensures { result ≡ count (scheme_at scheme) (text_of handle.now) }
{
    count_in(&mut index_of(handle).view(), scheme_at(scheme))
}

/// Counts those of the text up to a byte index; past the end, all.
#[unsafe(no_mangle)]
pub extern "C" fn str_index_from_byte_idx(
    handle: &IndexHandle<'_>,
    scheme: u32,
    byte_idx: usize,
) -> usize
    requires { IsIndex handle.now }
    ensures { result ≡ from_byte_idx (scheme_at scheme) (text_of handle.now) byte_idx }
{
    from_in(&mut index_of(handle).view(), scheme_at(scheme), byte_idx)
}

/// Returns the byte index after the first `idx` of them; the text's length if it has fewer.
#[unsafe(no_mangle)]
pub extern "C" fn str_index_to_byte_idx(handle: &IndexHandle<'_>, scheme: u32, idx: usize) -> usize
    requires { IsIndex handle.now }
    ensures { result ≡ to_byte_idx (scheme_at scheme) (text_of handle.now) idx }
{
    to_in(&mut index_of(handle).view(), scheme_at(scheme), idx)
}

/// Whether a byte index is between chars, or at the beginning or end of the text; past the end it is not.
#[unsafe(no_mangle)]
pub extern "C" fn str_index_is_char_boundary(handle: &IndexHandle<'_>, byte_idx: usize) -> bool
    requires { IsIndex handle.now }
    ensures { IsTrue result ↔ IsBoundary (text_of handle.now) byte_idx }
{
    index_of(handle).is_char_boundary(byte_idx)
}
