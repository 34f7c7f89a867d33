//! The two passes of a kernel, whatever it counts: one counts before `end`, the other searches for a place.
//!
//! Each walks `lead` bytes one by one, or all its bytes if they are fewer, then takes whole chunks, then the rest.
ghost use Rattle.std.specs.Prelude.{◌≡◌, ℕ, ◌+◌, ◌-◌, ◌*◌, ◌/◌, ◌<◌, ◌≤◌, length};
ghost use Rattle.str_indices.specs.Prelude.{sum_below, FitsIn, IsSteady, Reads, IsCountingPass, IsFindingPass, SearchesOn};

use crate::chunk_search::find_in_last;
use crate::place_counts::{Cursor, PlaceCounts, count_chunks, skip_chunks};
use crate::rest::lanes_up_to;
use crate::walks::{Walked, walk};
use byte_chunk::{ByteChunk, Probe};

/// The fewest chunks that a search counts in one go, without comparing with `idx` in between.
const LEAST: usize = 8;

/// Counts in the first `end` bytes of the text. Bytes from `end` on are not read.
pub(crate) fn count_up_to<C: PlaceCounts<T>, T: ByteChunk>(
    probe: &mut Probe<'_, T>,
    end: usize,
    lead: usize,
) -> usize
    requires within { end ≤ length probe.old.text }
    requires fits { FitsIn (sum_below (C.counted_at end probe.old.text)) (length probe.old.text) }
    ensures counted { result ≡ sum_below (C.counted_at end probe.old.text) end }
    ensures reads { IsCountingPass probe.old probe.new T.SIZE lead end 0 }
{
    prove!(end <= probe.len());
    let byte = lead.min(end);
    let count = walk::<C, T>(probe, 0, 0, byte, end, usize::MAX).count;
    if end < T::SIZE {
        return walk::<C, T>(probe, byte, count, end, end, usize::MAX).count;
    }
    let carry = C::carry_at(probe, byte);
    let after_lead = Cursor { byte, count, carry };
    let after_chunks = count_chunks::<C, T>(probe, after_lead, end, end);
    let rest = lanes_up_to::<C, T>(probe, after_chunks, end, end);
    after_chunks.count + rest.sum_bytes()
}

/// Finds the first place before which `idx` are counted, or the end of the text if fewer are.
pub(crate) fn find_first<C: PlaceCounts<T>, T: ByteChunk>(
    probe: &mut Probe<'_, T>,
    idx: usize,
    lead: usize,
) -> usize
    requires single { C.MOST ≡ 1 }
    requires within { lead ≤ length probe.old.text }
    requires steady { let n = length probe.old.text in IsSteady (sum_below (C.counted_at n probe.old.text)) n }
    ensures reached { result ≤ length probe.old.text }
    ensures stopped { result < length probe.old.text
        → idx ≤ sum_below (C.counted_at (length probe.old.text) probe.old.text) result }
    ensures first { (d : ℕ) → d < result → sum_below (C.counted_at (length probe.old.text) probe.old.text) d < idx }
    ensures reads { IsFindingPass probe.old probe.new T.SIZE lead (length probe.old.text) result 0 }
{
    let Walked { place: byte, count } = count_breaks_up_to::<C, T>(probe, lead, idx);
    if count == idx {
        return byte;
    }
    let carry = C::carry_at(probe, byte);
    let after_lead = Cursor { byte, count, carry };
    let last = find_from::<C, T>(probe, after_lead, idx - 1);
    if last < probe.len() { last + 1 } else { last }
}

/// Counts breaks byte by byte in the first `bytes` bytes of the text, and stops after the byte that brings the count to
/// `breaks`. It returns the place where it stops and the breaks before it. If `breaks` is 0, it walks no byte.
#[inline(always)]
fn count_breaks_up_to<C: PlaceCounts<T>, T: ByteChunk>(
    probe: &mut Probe<'_, T>,
    bytes: usize,
    breaks: usize,
) -> Walked
    requires single { C.MOST ≡ 1 }
    requires within { bytes ≤ length probe.old.text }
    requires fits { let n = length probe.old.text in FitsIn (sum_below (C.counted_at n probe.old.text)) n }
    ensures reached { result.place ≤ bytes }
    ensures counted { result.count ≡ sum_below (C.counted_at (length probe.old.text) probe.old.text) result.place }
    ensures at_most { result.count ≤ breaks }
    ensures stopped { result.place < bytes → result.count ≡ breaks }
    ensures first { (d : ℕ) → d < result.place → sum_below (C.counted_at (length probe.old.text) probe.old.text) d < breaks }
    ensures reads { Reads probe.old probe.new 0 (bytes + 1) 0 0 }
{
    if breaks == 0 {
        return Walked { place: 0, count: 0 };
    }
    let len = probe.len();
    let walked = walk::<C, T>(probe, 0, 0, bytes, len, breaks - 1);
    if walked.place < bytes {
        return Walked {
            place: walked.place + 1,
            count: breaks,
        };
    }
    walked
}

/// Finds the byte that takes the count above `idx`, or the end of the text if none does.
pub(crate) fn find<C: PlaceCounts<T>, T: ByteChunk>(
    probe: &mut Probe<'_, T>,
    idx: usize,
    lead: usize,
) -> usize
    requires within { lead ≤ length probe.old.text }
    requires steady { let n = length probe.old.text in IsSteady (sum_below (C.counted_at n probe.old.text)) n }
    ensures reached { result ≤ length probe.old.text }
    ensures at_most { sum_below (C.counted_at (length probe.old.text) probe.old.text) result ≤ idx }
    ensures stopped { result < length probe.old.text
        → idx < sum_below (C.counted_at (length probe.old.text) probe.old.text) (result + 1) }
    ensures reads { IsFindingPass probe.old probe.new T.SIZE lead (length probe.old.text) result 0 }
{
    let len = probe.len();
    let Walked { place, count } = walk::<C, T>(probe, 0, 0, lead, len, idx);
    if place < lead {
        return place;
    }
    let carry = C::carry_at(probe, lead);
    let after_lead = Cursor {
        byte: lead,
        count,
        carry,
    };
    find_from::<C, T>(probe, after_lead, idx)
}

/// Finds, from `from` on, the byte that takes the count above `idx`, or the end of the text if none does.
///
/// It skips chunks that cannot do so, then groups of chunks, then single chunks, and searches the chunk that does.
#[inline(always)]
fn find_from<C: PlaceCounts<T>, T: ByteChunk>(
    probe: &mut Probe<'_, T>,
    from: Cursor<C::Carry>,
    idx: usize,
) -> usize
    requires steady { let n = length probe.old.text in IsSteady (sum_below (C.counted_at n probe.old.text)) n }
    requires searches { SearchesOn C.counted_at C.carries probe.old.text idx from.byte from.count from.carry }
    ensures reached { (from.byte ≤ result) × (result ≤ length probe.old.text) }
    ensures at_most { sum_below (C.counted_at (length probe.old.text) probe.old.text) result ≤ idx }
    ensures stopped { result < length probe.old.text
        → idx < sum_below (C.counted_at (length probe.old.text) probe.old.text) (result + 1) }
    ensures reads { Reads probe.old probe.new from.byte (T.SIZE + 1) ((result - from.byte) / T.SIZE + 5) 0 }
{
    let after_sure = skip_unreachable::<C, T>(probe, from, idx);
    let after_groups = skip_groups::<C, T>(probe, after_sure, idx);
    let after_chunks = skip_chunks::<C, T>(probe, after_groups, idx, 1, 1);
    find_in_last::<C, T>(probe, after_chunks, idx)
}

/// Counts whole chunks from `from` on, as long as they cannot take the count above `idx`: in `n` bytes at most `n + 1`
/// are counted.
///
/// It stops where fewer than `LEAST` are left, and counts none unless `C::IS_DENSE`.
#[inline(always)]
fn skip_unreachable<C: PlaceCounts<T>, T: ByteChunk>(
    probe: &mut Probe<'_, T>,
    from: Cursor<C::Carry>,
    idx: usize,
) -> Cursor<C::Carry>
    requires steady { let n = length probe.old.text in IsSteady (sum_below (C.counted_at n probe.old.text)) n }
    requires searches { SearchesOn C.counted_at C.carries probe.old.text idx from.byte from.count from.carry }
    ensures onward { from.byte ≤ result.byte }
    ensures searches { SearchesOn C.counted_at C.carries probe.old.text idx result.byte result.count result.carry }
    ensures reads { Reads probe.old probe.new from.byte 0 ((result.byte - from.byte) / T.SIZE) 0 }
{
    let len = probe.len();
    let mut at = from;
    'rounds: loop {
        let chunks = sure_chunks::<T>(idx - at.count, len - at.byte);
        if !C::IS_DENSE || chunks < LEAST {
            break;
        }
        let to = at.byte + chunks * T::SIZE;
        at = count_chunks::<C, T>(probe, at, to, len);
    }
    at
}

/// Skips chunks from `from` on, while they do not take the count above `idx`.
///
/// First it skips `step` chunks at a time, as many as every chunk type can sum, while at least `least` remain, then
/// `group` at a time. The second loop is left out if `group` is 1 or `step`, or if the first met a step that goes above
/// `idx`.
#[inline(always)]
fn skip_groups<C: PlaceCounts<T>, T: ByteChunk>(
    probe: &mut Probe<'_, T>,
    from: Cursor<C::Carry>,
    idx: usize,
) -> Cursor<C::Carry>
    requires fits { let n = length probe.old.text in FitsIn (sum_below (C.counted_at n probe.old.text)) n }
    requires searches { SearchesOn C.counted_at C.carries probe.old.text idx from.byte from.count from.carry }
    ensures onward { from.byte ≤ result.byte }
    ensures searches { SearchesOn C.counted_at C.carries probe.old.text idx result.byte result.count result.carry }
    ensures reads { Reads probe.old probe.new from.byte 0 ((result.byte - from.byte) / T.SIZE + 4) 0 }
{
    let group = C::GROUP;
    let step = 4 / C::MOST;
    let least = if group < step { 2 * step } else { step };
    let after_steps = skip_chunks::<C, T>(probe, from, idx, step, least);
    if group == 1 || group == step || least * T::SIZE <= probe.len() - after_steps.byte {
        return after_steps;
    }
    skip_chunks::<C, T>(probe, after_steps, idx, group, group)
}

/// Returns how many whole chunks of `bytes` bytes count at most `most`, whatever is in them.
fn sure_chunks<T: ByteChunk>(most: usize, bytes: usize) -> usize
    ensures within { result * T.SIZE ≤ bytes }
    ensures sure { 0 < result → result * T.SIZE + 1 ≤ most }
{
    let surely = most.saturating_sub(1) / T::SIZE;
    surely.min(bytes / T::SIZE)
}
