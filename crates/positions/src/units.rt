//! Counts and finds units of an encoding in a text that is one `&str`.
ghost use Rattle.std.specs.Prelude.{◌≡◌, IsCharBoundary, chars};
ghost use Rattle.str_indices.specs.Schemes.{boundary_weighed, weighed};
ghost use Rattle.positions.specs.Encodings.{units_of};
ghost use Rattle.positions.specs.Units.{unit_scheme};

use crate::texts::char_start;
use crate::{Encoding, kernels};
use byte_chunk::ByteChunk;
use str_indices::Scheme;

/// Returns the scheme that counts the units of an encoding, or `None` for bytes.
pub fn unit_scheme(encoding: Encoding) -> Option<Scheme>
    ensures { result ≡ unit_scheme encoding }
{
    match encoding {
        Encoding::Utf8 => None,
        Encoding::Utf16 => Some(Scheme::Utf16),
        Encoding::Utf32 => Some(Scheme::Chars),
    }
}

/// Counts the units of the chars before a byte index.
pub(crate) fn units_before<T: ByteChunk>(encoding: Encoding, text: &str, byte: usize) -> usize
    ensures { result ≡ weighed (units_of encoding) (chars text.now) byte }
{
    if byte == 0 {
        return 0;
    }
    match unit_scheme(encoding) {
        None => char_start(text, byte),
        Some(scheme) => kernels::from_byte_idx::<T>(scheme, text, byte),
    }
}

/// Finds the byte index with `units` units before it, or where the char begins that this number falls inside of; the
/// text's length in bytes if the text has fewer.
pub(crate) fn place_of<T: ByteChunk>(encoding: Encoding, text: &str, units: usize) -> usize
    ensures answer { result ≡ boundary_weighed (units_of encoding) (chars text.now) units }
    ensures boundary { IsCharBoundary text.now result }
{
    match unit_scheme(encoding) {
        None => text.floor_char_boundary(units),
        Some(scheme) => kernels::to_byte_idx::<T>(scheme, text, units),
    }
}
