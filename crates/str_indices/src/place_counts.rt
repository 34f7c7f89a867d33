//! Counts at each place of a text, and their sums over whole chunks.
//!
//! Functions that return lanes are inlined, even long ones: else a chunk would go through memory each time.
ghost use Rattle.std.specs.Prelude.{◌≡◌, ℕ, ◌+◌, ◌-◌, ◌*◌, ◌/◌, ◌%◌, ◌<◌, ◌≤◌, ◌⊎◌, List, length, slice_index, take, drop};
ghost use Rattle.str_indices.specs.Prelude.{byte_before, sum_below, AddsUp, CountsOn, FitsIn, HasLanes, HasLaterLanes, IsHandedOn, Reads, SearchesOn};

use byte_chunk::{ByteChunk, Probe};

/// A count at each place of a text, at one byte or in all lanes of a chunk.
///
/// In contracts `counted_at end text n` is the count at place `n` if only the bytes before `end` are seen, and
/// `carries text at carry` says that the chunk before place `at` hands on `carry`.
pub(crate) trait PlaceCounts<T: ByteChunk> {
    /// The value that a chunk hands on to the next one.
    type Carry: Copy;

    ghost MOST: { ℕ };

    ghost GROUP: { ℕ };

    ghost STEP: { ℕ };

    ghost LAST_STEP: { ℕ };

    ghost counted_at: { ℕ → List ℕ → ℕ → ℕ };

    ghost carries: { List ℕ → ℕ → Self.Carry → Type 0 };

    /// The greatest count at one place.
    const MOST: usize;

    /// How many chunks a group has.
    const GROUP: usize;

    /// How many chunks are added in one step, a multiple of `GROUP`.
    const STEP: usize;

    /// How many chunks are added in one step of the last round. A short text has no other round.
    const LAST_STEP: usize;

    /// Whether a large part of all bytes count, so that a search gains by skipping chunks that cannot reach its index.
    const IS_DENSE: bool;

    /// Counts at `byte`, which stands at `at`, with at most two peeks. `before` is the byte before it, or 0.
    ///
    /// Bytes from `end` on are not read.
    fn count_byte(probe: &mut Probe<'_, T>, before: u8, byte: u8, at: usize, end: usize) -> usize
        requires seen { (at < end) × (end ≤ length probe.old.text) }
        requires before { before ≡ byte_before probe.old.text at }
        requires byte { byte ≡ slice_index probe.old.text at }
        ensures counted { result ≡ counted_at end probe.old.text at }
        ensures reads { Reads probe.old probe.new 0 0 0 2 };

    /// Returns the carry that the chunk before place `at` hands on, with at most one turn.
    fn carry_at(probe: &mut Probe<'_, T>, at: usize) -> Self::Carry
        requires within { at ≤ length probe.old.text }
        ensures carried { carries probe.old.text at result }
        ensures reads { Reads probe.old probe.new 0 1 0 0 };

    /// Counts in each lane of `chunk`, the one at `at`, with at most four peeks.
    ///
    /// Bytes from `end` on are not read. `carry` is one that some chunk hands on. The first lane is right only if that
    /// is the chunk before this one.
    fn count_lanes(
        probe: &mut Probe<'_, T>,
        chunk: T,
        at: usize,
        end: usize,
        carry: Self::Carry,
    ) -> Counted<T, Self::Carry>
        requires seen { (at + T.SIZE ≤ end) × (end ≤ length probe.old.text) }
        requires chunk { T.lanes chunk ≡ take T.SIZE (drop at probe.old.text) }
        requires handed_on { IsHandedOn (carries probe.old.text) carry }
        ensures lanes { carries probe.old.text at carry →
            HasLanes T.SIZE (λ j. counted_at end probe.old.text (at + j)) (T.lanes result.lanes) }
        ensures later { HasLaterLanes T.SIZE (λ j. counted_at end probe.old.text (at + j)) (T.lanes result.lanes) }
        ensures carried { carries probe.old.text (at + T.SIZE) result.carry }
        ensures reads { Reads probe.old probe.new 0 0 0 4 };

    ghost bounded: { (0 < MOST) × (MOST ≤ 2) × ((end : ℕ) (text : List ℕ) (n : ℕ) → counted_at end text n ≤ MOST) };

    ghost grouped: { (0 < GROUP) × (GROUP * MOST ≤ 4) × (0 < STEP) × (0 < LAST_STEP) };
}

/// The counts in the lanes of a chunk, or of several chunks added, and the carry of the last.
#[derive(Clone, Copy)]
pub(crate) struct Counted<T, C> {
    pub(crate) lanes: T,
    pub(crate) carry: C,
}

/// A place in a text, the count before it, and the carry of the chunk before it.
#[derive(Clone, Copy)]
pub(crate) struct Cursor<C> {
    pub(crate) byte: usize,
    pub(crate) count: usize,
    pub(crate) carry: C,
}

/// Counts in the whole chunks from `from` on that end at or before `to`: in rounds of `chunks_of_round` chunks, then in
/// a last round of the chunks that are left.
///
/// Bytes from `end` on are not read.
pub(crate) fn count_chunks<C: PlaceCounts<T>, T: ByteChunk>(
    probe: &mut Probe<'_, T>,
    from: Cursor<C::Carry>,
    to: usize,
    end: usize,
) -> Cursor<C::Carry>
    requires ordered { from.byte ≤ to }
    requires seen { (to ≤ end) × (end ≤ length probe.old.text) }
    requires fits { FitsIn (sum_below (C.counted_at end probe.old.text)) (length probe.old.text) }
    requires counts { CountsOn (C.counted_at end probe.old.text) (C.carries probe.old.text) from.byte from.count from.carry }
    ensures reached { (from.byte ≤ result.byte) × (result.byte ≤ to) × (to < result.byte + T.SIZE) }
    ensures counts { CountsOn (C.counted_at end probe.old.text) (C.carries probe.old.text) result.byte result.count
        result.carry }
    ensures reads { Reads probe.old probe.new from.byte 0 ((result.byte - from.byte) / T.SIZE) 0 }
{
    prove!(end <= probe.len());
    let size = T::SIZE;
    let most = chunks_of_round::<C, T>();
    let mut at = from;
    'rounds: while most * size <= to - at.byte {
        at = count_in_steps::<C, T>(probe, at, most, C::STEP, end);
    }
    let left = (to - at.byte) / size;
    count_in_steps::<C, T>(probe, at, left, C::LAST_STEP, end)
}

/// Returns how many chunks a round has: as many as `T` can sum, rounded down to whole steps if at least one step fits.
fn chunks_of_round<C: PlaceCounts<T>, T: ByteChunk>() -> usize
    ensures some { 0 < result }
    ensures few { result ≤ 255 }
    ensures summable { result * C.MOST ≤ T.MAX_ACC }
{
    let fitting = T::MAX_ACC / C::MOST;
    if fitting < C::STEP {
        fitting
    } else {
        fitting / C::STEP * C::STEP
    }
}

/// Skips `group` chunks at a time from `from` on, while at least `least` chunks remain and the count with these `group`
/// chunks is at most `idx`.
#[inline(always)]
pub(crate) fn skip_chunks<C: PlaceCounts<T>, T: ByteChunk>(
    probe: &mut Probe<'_, T>,
    from: Cursor<C::Carry>,
    idx: usize,
    group: usize,
    least: usize,
) -> Cursor<C::Carry>
    requires some { 0 < group }
    requires room { group * C.MOST ≤ 4 }
    requires least { (group ≤ least) × (least ≤ 8) }
    requires fits { let n = length probe.old.text in FitsIn (sum_below (C.counted_at n probe.old.text)) n }
    requires searches { SearchesOn C.counted_at C.carries probe.old.text idx from.byte from.count from.carry }
    ensures onward { from.byte ≤ result.byte }
    ensures searches { SearchesOn C.counted_at C.carries probe.old.text idx result.byte result.count result.carry }
    ensures stopped { (length probe.old.text < result.byte + least * T.SIZE)
        ⊎ (idx < sum_below (C.counted_at (length probe.old.text) probe.old.text) (result.byte + group * T.SIZE)) }
    ensures reads { Reads probe.old probe.new from.byte 0 ((result.byte - from.byte) / T.SIZE + group) 0 }
    ensures reads_at_end { length probe.old.text < result.byte + least * T.SIZE →
        Reads probe.old probe.new from.byte 0 ((result.byte - from.byte) / T.SIZE) 0 }
{
    let len = probe.len();
    let mut at = from;
    'groups: while least * T::SIZE <= len - at.byte {
        let added = add_chunks::<C, T>(probe, at.byte, group, len, at.carry);
        let count = at.count + added.lanes.sum_bytes();
        if count > idx {
            return at;
        }
        let byte = at.byte + group * T::SIZE;
        let carry = added.carry;
        at = Cursor { byte, count, carry };
    }
    at
}

/// Counts in the next `chunks` chunks from `from` on. They must be few enough for `T` to sum.
///
/// It adds the lanes of `step` chunks at a time, then those of the chunks that are left. Bytes from `end` on are not
/// read.
#[inline(always)]
fn count_in_steps<C: PlaceCounts<T>, T: ByteChunk>(
    probe: &mut Probe<'_, T>,
    from: Cursor<C::Carry>,
    chunks: usize,
    step: usize,
    end: usize,
) -> Cursor<C::Carry>
    requires some { 0 < step }
    requires summable { chunks * C.MOST ≤ T.MAX_ACC }
    requires seen { (from.byte + chunks * T.SIZE ≤ end) × (end ≤ length probe.old.text) }
    requires fits { FitsIn (sum_below (C.counted_at end probe.old.text)) (length probe.old.text) }
    requires counts { CountsOn (C.counted_at end probe.old.text) (C.carries probe.old.text) from.byte from.count from.carry }
    ensures byte { result.byte ≡ from.byte + chunks * T.SIZE }
    ensures counts { CountsOn (C.counted_at end probe.old.text) (C.carries probe.old.text) result.byte result.count
        result.carry }
    ensures reads { Reads probe.old probe.new from.byte 0 chunks 0 }
{
    prove!(end <= probe.len());
    let mut lanes = T::zero();
    let mut at = from.byte;
    let mut carry = from.carry;
    'steps: for _ in 0..chunks / step {
        let groups = add_chunks::<C, T>(probe, at, step, end, carry);
        lanes = lanes.add(groups.lanes);
        carry = groups.carry;
        at += step * T::SIZE;
    }
    let rest = add_in_groups::<C, T>(probe, at, chunks % step, end, carry);
    Cursor {
        byte: from.byte + chunks * T::SIZE,
        count: from.count + lanes.add(rest.lanes).sum_bytes(),
        carry: rest.carry,
    }
}

/// Adds the lane counts of the next `chunks` chunks, group by group, then those of the chunks that fill no group.
#[inline(always)]
fn add_in_groups<C: PlaceCounts<T>, T: ByteChunk>(
    probe: &mut Probe<'_, T>,
    from: usize,
    chunks: usize,
    end: usize,
    mut carry: C::Carry,
) -> Counted<T, C::Carry>
    requires room { chunks * C.MOST ≤ 255 }
    requires seen { (from + chunks * T.SIZE ≤ end) × (end ≤ length probe.old.text) }
    requires carried { C.carries probe.old.text from carry }
    ensures lanes { AddsUp (sum_below (C.counted_at end probe.old.text)) C.MOST T.SIZE from (from + chunks * T.SIZE) chunks
        (T.lanes result.lanes) }
    ensures carried { C.carries probe.old.text (from + chunks * T.SIZE) result.carry }
    ensures reads { Reads probe.old probe.new from 0 chunks 0 }
{
    prove!(end <= probe.len());
    let size = C::GROUP;
    let mut lanes = T::zero();
    let mut at = from;
    'groups: for _ in 0..chunks / size {
        let group = add_chunks::<C, T>(probe, at, size, end, carry);
        lanes = lanes.add(group.lanes);
        carry = group.carry;
        at += size * T::SIZE;
    }
    let single = add_chunks::<C, T>(probe, at, chunks % size, end, carry);
    Counted {
        lanes: lanes.add(single.lanes),
        carry: single.carry,
    }
}

/// Adds the lane counts of the next `chunks` chunks.
#[inline(always)]
fn add_chunks<C: PlaceCounts<T>, T: ByteChunk>(
    probe: &mut Probe<'_, T>,
    from: usize,
    chunks: usize,
    end: usize,
    mut carry: C::Carry,
) -> Counted<T, C::Carry>
    requires room { chunks * C.MOST ≤ 255 }
    requires seen { (from + chunks * T.SIZE ≤ end) × (end ≤ length probe.old.text) }
    requires carried { C.carries probe.old.text from carry }
    ensures lanes { AddsUp (sum_below (C.counted_at end probe.old.text)) C.MOST T.SIZE from (from + chunks * T.SIZE) chunks
        (T.lanes result.lanes) }
    ensures carried { C.carries probe.old.text (from + chunks * T.SIZE) result.carry }
    ensures reads { Reads probe.old probe.new from 0 chunks 0 }
{
    let mut lanes = T::zero();
    let mut at = from;
    'chunks: for _ in 0..chunks {
        let chunk = probe.load(at);
        let counted = C::count_lanes(probe, chunk, at, end, carry);
        lanes = lanes.add(counted.lanes);
        carry = counted.carry;
        at += T::SIZE;
    }
    Counted { lanes, carry }
}
