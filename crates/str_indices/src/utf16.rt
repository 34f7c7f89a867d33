//! Index by UTF-16 code units (the Unicode Standard, chapter 3).
//!
//! A char that takes four bytes in UTF-8 takes a surrogate pair in UTF-16, which is two units. Each other char takes
//! one.
ghost use Rattle.std.specs.Prelude.{◌≡◌, ◌+◌, ◌-◌, ◌*◌, ◌/◌, ◌<◌, ◌≤◌, ◌⊎◌, IsCharBoundary, chars, length, min};
ghost use Rattle.str_indices.specs.Prelude.{cut, count, from_byte_idx, to_byte_idx, surrogates, Utf16, IsBoundary, mark, units_before, is_leading, begins_four_bytes, Reads, IsCountingPass, IsFindingPass, leading_bytes, pass_turns};

use crate::passes::{count_up_to, find};
use crate::places::boundary_at_or_before;
use crate::weights::{FourByteStarts, Units, Weights};
use byte_chunk::{ByteChunk, Chunk, Probe};

/// Counts the UTF-16 code units that the text would take.
#[tactic(auto, using(crate::proofs::lemmas::Bytes::whole_text))]
pub fn count(text: &str) -> usize
    ensures { result ≡ count Utf16 (chars text.now) }
{
    count_impl(&mut Probe::<Chunk>::of(text), text.len(), 0)
}

/// Counts the surrogate pairs that the text would have in UTF-16, one for each char of four bytes.
#[tactic(auto, using(crate::proofs::lemmas::Bytes::whole_text))]
pub fn count_surrogates(text: &str) -> usize
    ensures { result ≡ surrogates (chars text.now) }
{
    count_surrogates_impl(&mut Probe::<Chunk>::of(text), text.len(), 0)
}

/// Converts a byte index to a UTF-16 code unit index: the number of units of the chars that end at or before the byte.
///
/// A byte inside a char belongs to that char, whose first unit is the answer. A byte past the end gives the number of
/// units.
pub fn from_byte_idx(text: &str, byte_idx: usize) -> usize
    ensures { result ≡ from_byte_idx Utf16 (chars text.now) byte_idx }
{
    from_byte_idx_impl(&mut Probe::<Chunk>::of(text), byte_idx, 0)
}

/// Converts a UTF-16 code unit index to the byte index where the char of that unit begins.
///
/// The second unit of a surrogate pair belongs to its char. An index past the last unit gives the length of the
/// text in bytes. The text may be sliced at the answer.
pub fn to_byte_idx(text: &str, utf16_idx: usize) -> usize
    ensures answer { result ≡ to_byte_idx Utf16 (chars text.now) utf16_idx }
    ensures boundary { IsCharBoundary text.now result }
{
    to_byte_idx_impl(&mut Probe::<Chunk>::of(text), utf16_idx, 0)
}

/// Counts the UTF-16 code units of the text before `end`, over chunks of any type, after `lead` bytes that are walked
/// one by one.
pub fn count_impl<T: ByteChunk>(probe: &mut Probe<'_, T>, end: usize, lead: usize) -> usize
    requires within { end ≤ length probe.old.text }
    requires boundary { IsBoundary (chars probe.old.text) end }
    ensures count { result ≡ count Utf16 (cut (chars probe.old.text) end) }
    ensures text { probe.new.text ≡ probe.old.text }
    ensures pass { IsCountingPass probe.old probe.new T.SIZE lead end 0 }
{
    prove!(end <= probe.len());
    count_up_to::<Weights<Units>, T>(probe, end, lead)
}

/// Counts the surrogate pairs of the text before `end`, over chunks of any type, after `lead` bytes that are walked
/// one by one.
///
/// No char of four bytes begins in the last three bytes, so the pass covers `end - 3` bytes.
pub fn count_surrogates_impl<T: ByteChunk>(
    probe: &mut Probe<'_, T>,
    end: usize,
    lead: usize,
) -> usize
    requires within { end ≤ length probe.old.text }
    requires boundary { IsBoundary (chars probe.old.text) end }
    ensures count { result ≡ surrogates (cut (chars probe.old.text) end) }
    ensures text { probe.new.text ≡ probe.old.text }
    ensures pass { let first = leading_bytes lead (end - 3) in
        Reads probe.old probe.new first (pass_turns T.SIZE lead (end - 3)) ((end - first) / T.SIZE) 0 }
{
    prove!(end <= probe.len());
    count_up_to::<Weights<FourByteStarts>, T>(probe, end.saturating_sub(3), lead)
}

/// Converts a byte index to a UTF-16 code unit index, over chunks of any type, after `lead` bytes that are walked one
/// by one.
#[tactic(auto, using(crate::proofs::lemmas::Schemes::units_up_to))]
pub fn from_byte_idx_impl<T: ByteChunk>(
    probe: &mut Probe<'_, T>,
    byte_idx: usize,
    lead: usize,
) -> usize
    ensures answer { result ≡ from_byte_idx Utf16 (chars probe.old.text) byte_idx }
    ensures text { probe.new.text ≡ probe.old.text }
    ensures pass { IsCountingPass probe.old probe.new T.SIZE lead (min byte_idx (length probe.old.text)) 3 }
{
    let end = boundary_at_or_before(probe, byte_idx);
    count_impl(probe, end, lead)
}

/// Converts a UTF-16 code unit index to a byte index, over chunks of any type, after `lead` bytes that are walked one
/// by one.
pub fn to_byte_idx_impl<T: ByteChunk>(probe: &mut Probe<'_, T>, idx: usize, lead: usize) -> usize
    ensures answer { result ≡ to_byte_idx Utf16 (chars probe.old.text) idx }
    ensures boundary { IsCharBoundary probe.old.text result }
    ensures text { probe.new.text ≡ probe.old.text }
    ensures pass { IsFindingPass probe.old probe.new T.SIZE lead (length probe.old.text) result 3 }
{
    let first_chunk = lead.min(probe.len());
    find::<Weights<Units>, T>(probe, idx, first_chunk)
}
