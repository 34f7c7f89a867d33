//! The functions of a scheme, over chunks of any type.
ghost use Rattle.std.specs.Prelude.{◌≡◌, IsCharBoundary, chars};
ghost use Rattle.str_indices.specs.Schemes.{count, from_byte_idx, to_byte_idx};

use byte_chunk::{ByteChunk, Probe};
use str_indices::Scheme;

/// How many of the scheme the text has, as [`Scheme::count`].
#[tactic(auto, using(str_indices::proofs::lemmas::Callers::whole_text))]
pub(crate) fn count<T: ByteChunk>(scheme: Scheme, text: &str) -> usize
    ensures { result ≡ count scheme (chars text.now) }
{
    let mut probe = Probe::<T>::of(text);
    scheme.count_impl(&mut probe, text.len(), 0)
}

/// Converts a byte index to an index of the scheme, as [`Scheme::from_byte_idx`].
pub(crate) fn from_byte_idx<T: ByteChunk>(scheme: Scheme, text: &str, byte: usize) -> usize
    ensures { result ≡ from_byte_idx scheme (chars text.now) byte }
{
    let mut probe = Probe::<T>::of(text);
    scheme.from_byte_idx_impl(&mut probe, byte, 0)
}

/// Converts an index of the scheme to a byte index, as [`Scheme::to_byte_idx`].
pub(crate) fn to_byte_idx<T: ByteChunk>(scheme: Scheme, text: &str, idx: usize) -> usize
    ensures answer { result ≡ to_byte_idx scheme (chars text.now) idx }
    ensures boundary { IsCharBoundary text.now result }
{
    if idx == 0 {
        return 0;
    }
    let mut probe = Probe::<T>::of(text);
    scheme.to_byte_idx_impl(&mut probe, idx, 0)
}
