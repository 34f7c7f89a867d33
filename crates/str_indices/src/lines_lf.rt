//! Index by lines, where LF (U+000A) alone breaks a line.
//!
//! LF is one of the breaks of the Unicode Standard's Annex 14 that the Rust crate lists; the others do not count here.
//! CR LF counts once, because of its LF.
ghost use Rattle.std.specs.Prelude.{◌≡◌, ◌+◌, ◌-◌, ◌/◌, ◌<◌, ◌≤◌, ◌⊎◌, ℕ, IsCharBoundary, chars, length, min};
ghost use Rattle.str_indices.specs.Prelude.{cut, count, from_byte_idx, to_byte_idx, Lf, passing_before, is_line_feed, IsCountingPass, IsFindingPass};

use crate::passes::{count_up_to, find_first};
use crate::weights::{LineFeeds, Weights};
use byte_chunk::{ByteChunk, Chunk, Probe};

/// Counts the line breaks of the text.
///
/// A text has one line more: after a break at its end an empty line begins.
#[tactic(auto, using(crate::proofs::lemmas::Bytes::whole_text))]
pub fn count_breaks(text: &str) -> usize
    ensures { result ≡ count Lf (chars text.now) }
{
    count_breaks_impl(&mut Probe::<Chunk>::of(text), text.len(), 0)
}

/// Converts a byte index to a line index: the number of line breaks that end at or before the byte.
///
/// A break belongs to the line that it ends, and the byte between CR and LF to the line of the CR. A byte past the end
/// gives the index of the last line.
pub fn from_byte_idx(text: &str, byte_idx: usize) -> usize
    ensures { result ≡ from_byte_idx Lf (chars text.now) byte_idx }
{
    from_byte_idx_impl(&mut Probe::<Chunk>::of(text), byte_idx, 0)
}

/// Converts a line index to the byte index where that line begins: 0, or right after a line break.
///
/// An index past the last line gives the length of the text in bytes. The text may be sliced at the answer.
pub fn to_byte_idx(text: &str, line_idx: usize) -> usize
    ensures answer { result ≡ to_byte_idx Lf (chars text.now) line_idx }
    ensures boundary { IsCharBoundary text.now result }
{
    to_byte_idx_impl(&mut Probe::<Chunk>::of(text), line_idx, 0)
}

/// Counts the line breaks before `end`, over chunks of any type, after `lead` bytes that are walked one by one.
///
/// An `end` inside a char leaves that char out.
pub fn count_breaks_impl<T: ByteChunk>(probe: &mut Probe<'_, T>, end: usize, lead: usize) -> usize
    requires within { end ≤ length probe.old.text }
    ensures count { result ≡ count Lf (cut (chars probe.old.text) end) }
    ensures text { probe.new.text ≡ probe.old.text }
    ensures pass { IsCountingPass probe.old probe.new T.SIZE lead end 0 }
{
    prove!(end <= probe.len());
    count_up_to::<Weights<LineFeeds>, T>(probe, end, lead)
}

/// Converts a byte index to a line index, over chunks of any type, after `lead` bytes that are walked one by one.
#[tactic(auto, using(crate::proofs::lemmas::Schemes::line_of_byte))]
pub fn from_byte_idx_impl<T: ByteChunk>(
    probe: &mut Probe<'_, T>,
    byte_idx: usize,
    lead: usize,
) -> usize
    ensures answer { result ≡ from_byte_idx Lf (chars probe.old.text) byte_idx }
    ensures text { probe.new.text ≡ probe.old.text }
    ensures pass { IsCountingPass probe.old probe.new T.SIZE lead (min byte_idx (length probe.old.text)) 3 }
{
    let end = byte_idx.min(probe.len());
    count_breaks_impl(probe, end, lead)
}

/// Converts a line index to a byte index, over chunks of any type, after `lead` bytes that are walked one by one.
pub fn to_byte_idx_impl<T: ByteChunk>(probe: &mut Probe<'_, T>, idx: usize, lead: usize) -> usize
    ensures answer { result ≡ to_byte_idx Lf (chars probe.old.text) idx }
    ensures boundary { IsCharBoundary probe.old.text result }
    ensures text { probe.new.text ≡ probe.old.text }
    ensures pass { IsFindingPass probe.old probe.new T.SIZE lead (length probe.old.text) result 3 }
{
    let first_chunk = lead.min(probe.len());
    find_first::<Weights<LineFeeds>, T>(probe, idx, first_chunk)
}
