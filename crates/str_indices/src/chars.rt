//! Index by chars: the Unicode scalar values of a text (the Unicode Standard, chapter 3).
ghost use Rattle.std.specs.Prelude.{◌≡◌, ◌+◌, ◌-◌, ◌/◌, ◌<◌, ◌≤◌, IsCharBoundary, chars, length, min};
ghost use Rattle.str_indices.specs.Prelude.{cut, count, from_byte_idx, to_byte_idx, Chars, IsBoundary, passing_before, is_leading, IsCountingPass, IsFindingPass};

use crate::passes::{count_up_to, find};
use crate::places::boundary_at_or_before;
use crate::weights::{CharStarts, Weights};
use byte_chunk::{ByteChunk, Chunk, Probe};

/// Counts the chars of the text. An empty text has none.
#[tactic(auto, using(crate::proofs::lemmas::Bytes::whole_text))]
pub fn count(text: &str) -> usize
    ensures { result ≡ count Chars (chars text.now) }
{
    count_impl(&mut Probe::<Chunk>::of(text), text.len(), 0)
}

/// Converts a byte index to a char index: the number of chars that end at or before the byte.
///
/// A byte inside a char belongs to that char. Any byte index past the end gives the number of chars.
pub fn from_byte_idx(text: &str, byte_idx: usize) -> usize
    ensures { result ≡ from_byte_idx Chars (chars text.now) byte_idx }
{
    from_byte_idx_impl(&mut Probe::<Chunk>::of(text), byte_idx, 0)
}

/// Converts a char index to the byte index where that char begins.
///
/// Any index past the last char gives the length of the text in bytes. The text may be sliced at the answer.
pub fn to_byte_idx(text: &str, char_idx: usize) -> usize
    ensures answer { result ≡ to_byte_idx Chars (chars text.now) char_idx }
    ensures boundary { IsCharBoundary text.now result }
{
    to_byte_idx_impl(&mut Probe::<Chunk>::of(text), char_idx, 0)
}

/// Counts the chars before the boundary `end`, over chunks of any type.
///
/// `lead` bytes, or as many of them as stand before `end`, are walked one by one before the first chunk.
pub fn count_impl<T: ByteChunk>(probe: &mut Probe<'_, T>, end: usize, lead: usize) -> usize
    requires within { end ≤ length probe.old.text }
    requires boundary { IsBoundary (chars probe.old.text) end }
    ensures count { result ≡ count Chars (cut (chars probe.old.text) end) }
    ensures text { probe.new.text ≡ probe.old.text }
    ensures pass { IsCountingPass probe.old probe.new T.SIZE lead end 0 }
{
    prove!(end <= probe.len());
    count_up_to::<Weights<CharStarts>, T>(probe, end, lead)
}

/// Converts a byte index to a char index, as [`from_byte_idx`], over chunks of any type.
///
/// `lead` bytes, or as many of them as the pass covers, are walked one by one before the first chunk.
#[tactic(auto, using(crate::proofs::lemmas::Schemes::chars_up_to))]
pub fn from_byte_idx_impl<T: ByteChunk>(
    probe: &mut Probe<'_, T>,
    byte_idx: usize,
    lead: usize,
) -> usize
    ensures answer { result ≡ from_byte_idx Chars (chars probe.old.text) byte_idx }
    ensures text { probe.new.text ≡ probe.old.text }
    ensures pass { IsCountingPass probe.old probe.new T.SIZE lead (min byte_idx (length probe.old.text)) 3 }
{
    let end = boundary_at_or_before(probe, byte_idx);
    count_impl(probe, end, lead)
}

/// Converts a char index to a byte index, as [`to_byte_idx`], over chunks of any type.
///
/// `lead` bytes, or as many of them as the text has, are walked one by one before the first chunk.
pub fn to_byte_idx_impl<T: ByteChunk>(probe: &mut Probe<'_, T>, idx: usize, lead: usize) -> usize
    ensures answer { result ≡ to_byte_idx Chars (chars probe.old.text) idx }
    ensures boundary { IsCharBoundary probe.old.text result }
    ensures text { probe.new.text ≡ probe.old.text }
    ensures pass { IsFindingPass probe.old probe.new T.SIZE lead (length probe.old.text) result 3 }
{
    let first_chunk = lead.min(probe.len());
    find::<Weights<CharStarts>, T>(probe, idx, first_chunk)
}
