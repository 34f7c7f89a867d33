//! Index by lines that end in LF (U+000A), CR (U+000D) or CRLF, which is one break.
//!
//! The Unicode Standard's Annex 14 lists the characters that break lines; of those in the Rust crate's list only LF
//! and CR count here.
ghost use Rattle.std.specs.Prelude.{◌≡◌, ◌+◌, ◌-◌, ◌/◌, ◌<◌, ◌≤◌, ◌⊎◌, ℕ, ◌∷◌, [], Bool, IsCharBoundary, chars, drop, length, min};
ghost use Rattle.std.proofs.Common.{lit≤, lit<};
ghost use Rattle.str_indices.specs.Prelude.{cut, count, from_byte_idx, to_byte_idx, Crlf, flag, mark, is_carriage_return, byte_before, starts_break, break_start, breaks_before, is_middle, break_start-le, Reads, IsCountingPass, IsFindingPass};

use crate::passes::{count_up_to, find_first};
use crate::place_counts::{Counted, PlaceCounts};
use crate::places::{byte_before, is_not_crlf_middle};
use crate::weights::{CR, LF};
use byte_chunk::{ByteChunk, Chunk, Probe};

/// Counts the line breaks of the text: LF, CR and CRLF, which is one break.
///
/// That is one less than its lines: after a break at the end of the text an empty line begins.
#[tactic(auto, using(crate::proofs::lemmas::Bytes::whole_text))]
pub fn count_breaks(text: &str) -> usize
    ensures { result ≡ count Crlf (chars text.now) }
{
    count_breaks_impl(&mut Probe::<Chunk>::of(text), text.len(), 0)
}

/// Converts a byte index to a line index: the number of line breaks that end at or before the byte.
///
/// A break belongs to the line that it ends, and the byte between CR and LF to the line that the CRLF ends. A byte past
/// the end gives the index of the last line.
pub fn from_byte_idx(text: &str, byte_idx: usize) -> usize
    ensures { result ≡ from_byte_idx Crlf (chars text.now) byte_idx }
{
    from_byte_idx_impl(&mut Probe::<Chunk>::of(text), byte_idx, 0)
}

/// Converts a line index to the byte index where that line begins: 0, or right after a line break.
///
/// An index past the last line gives the length of the text in bytes. The text may be sliced at the answer.
pub fn to_byte_idx(text: &str, line_idx: usize) -> usize
    ensures answer { result ≡ to_byte_idx Crlf (chars text.now) line_idx }
    ensures boundary { IsCharBoundary text.now result }
{
    to_byte_idx_impl(&mut Probe::<Chunk>::of(text), line_idx, 0)
}

/// Counts the line breaks before `end`, LF, CR and CRLF, which is one break, over chunks of any type, after `lead`
/// bytes that are walked one by one.
///
/// `end` may lie inside a char, and between CR and LF: the text before it then ends in CR, which counts.
pub fn count_breaks_impl<T: ByteChunk>(probe: &mut Probe<'_, T>, end: usize, lead: usize) -> usize
    requires within { end ≤ length probe.old.text }
    ensures count { result ≡ count Crlf (cut (chars probe.old.text) end) }
    ensures text { probe.new.text ≡ probe.old.text }
    ensures pass { IsCountingPass probe.old probe.new T.SIZE lead end 0 }
{
    prove!(end <= probe.len());
    count_up_to::<BreakStarts, T>(probe, end, lead)
}

/// Converts a byte index to a line index, over chunks of any type, after `lead` bytes that are walked one by one.
#[tactic(auto, using(crate::proofs::lemmas::Schemes::breaks_by_cut))]
pub fn from_byte_idx_impl<T: ByteChunk>(
    probe: &mut Probe<'_, T>,
    byte_idx: usize,
    lead: usize,
) -> usize
    ensures answer { result ≡ from_byte_idx Crlf (chars probe.old.text) byte_idx }
    ensures text { probe.new.text ≡ probe.old.text }
    ensures pass { IsCountingPass probe.old probe.new T.SIZE lead (min byte_idx (length probe.old.text)) 3 }
{
    let end = byte_idx.min(probe.len());
    let is_outside_crlf = is_not_crlf_middle(probe, end);
    let breaks = count_breaks_impl(probe, end, lead);
    if is_outside_crlf { breaks } else { breaks - 1 }
}

/// Converts a line index to a byte index, over chunks of any type, after `lead` bytes that are walked one by one.
pub fn to_byte_idx_impl<T: ByteChunk>(probe: &mut Probe<'_, T>, idx: usize, lead: usize) -> usize
    ensures answer { result ≡ to_byte_idx Crlf (chars probe.old.text) idx }
    ensures boundary { IsCharBoundary probe.old.text result }
    ensures text { probe.new.text ≡ probe.old.text }
    ensures pass { IsFindingPass probe.old probe.new T.SIZE lead (length probe.old.text) result 3 }
{
    let first_chunk = lead.min(probe.len());
    let place = find_first::<BreakStarts, T>(probe, idx, first_chunk);
    if is_not_crlf_middle(probe, place) {
        place
    } else {
        place + 1
    }
}

/// 1 at each place where a break starts. A chunk hands on 1 in each lane that is CR; the next chunk reads the last of
/// these lanes.
struct BreakStarts;

impl<T: ByteChunk> PlaceCounts<T> for BreakStarts {
    type Carry = T;

    ghost MOST = { 1 };

    ghost GROUP = { 2 };

    ghost STEP = { 4 };

    ghost LAST_STEP = { 4 };

    ghost counted_at = { λ _. break_start };

    ghost carries = { λ text at returns.
        drop (T.SIZE - 1) (T.lanes returns) ≡ mark is_carriage_return (byte_before text at) ∷ [] };

    const MOST: usize = 1;

    const GROUP: usize = 2;

    const STEP: usize = 4;

    const LAST_STEP: usize = 4;

    const IS_DENSE: bool = false;

    fn count_byte(_: &mut Probe<'_, T>, before: u8, byte: u8, _: usize, _: usize) -> usize {
        usize::from(byte == CR || byte == LF && before != CR)
    }

    fn carry_at(probe: &mut Probe<'_, T>, at: usize) -> T {
        T::splat(u8::from(byte_before(probe, at) == CR))
    }

    fn count_lanes(_: &mut Probe<'_, T>, chunk: T, _: usize, _: usize, before: T) -> Counted<T, T> {
        let feeds = chunk.cmp_eq_byte(LF);
        let returns = chunk.cmp_eq_byte(CR);
        let pairs = before.shift_across(returns).bitand(feeds);
        Counted {
            lanes: feeds.add(returns).sub(pairs),
            carry: returns,
        }
    }

    ghost bounded = { (lit< tt, lit≤ tt, λ _. break_start-le) };

    ghost grouped = { (lit< tt, lit≤ tt, lit< tt, lit< tt) };
}
