//! Bytes taken one by one, until the count passes an index.
ghost use Rattle.std.specs.Prelude.{◌≡◌, ◌+◌, ◌-◌, ◌<◌, ◌≤◌, length};
ghost use Rattle.str_indices.specs.Prelude.{sum_below, FitsIn, Reads};

use crate::place_counts::PlaceCounts;
use crate::places::byte_before;
use byte_chunk::{ByteChunk, Probe};

/// The place that a walk found, and its count where it ended.
#[derive(Clone, Copy)]
pub(crate) struct Walked {
    pub(crate) place: usize,
    pub(crate) count: usize,
}

/// Walks the bytes from `from` to `to` and finds the one that takes the count above `idx`, or `to`. It takes one turn
/// for each byte, and one for the byte before `from`.
///
/// If `C::IS_DENSE`, it does not stop at the byte it finds: a few bytes more cost less than a branch that no processor
/// predicts. Bytes from `end` on are not read.
#[inline(always)]
pub(crate) fn walk<C: PlaceCounts<T>, T: ByteChunk>(
    probe: &mut Probe<'_, T>,
    from: usize,
    mut count: usize,
    to: usize,
    end: usize,
    idx: usize,
) -> Walked
    requires ordered { from ≤ to }
    requires seen { (to ≤ end) × (end ≤ length probe.old.text) }
    requires fits { FitsIn (sum_below (C.counted_at end probe.old.text)) (length probe.old.text) }
    requires counted { count ≡ sum_below (C.counted_at end probe.old.text) from }
    requires at_most { count ≤ idx }
    ensures reached { (from ≤ result.place) × (result.place ≤ to) }
    ensures counted { let counted = sum_below (C.counted_at end probe.old.text) to in
        counted ≤ idx → result.count ≡ counted }
    ensures at_most { sum_below (C.counted_at end probe.old.text) result.place ≤ idx }
    ensures stopped { result.place < to → idx < sum_below (C.counted_at end probe.old.text) (result.place + 1) }
    ensures reads { Reads probe.old probe.new 0 (to - from + 1) 0 0 }
{
    prove!(end <= probe.len());
    let mut place = from;
    let mut before = byte_before(probe, from);
    for i in from..to {
        let byte = probe.turn(i);
        count += C::count_byte(probe, before, byte, i, end);
        if !C::IS_DENSE && count > idx {
            return Walked { place, count };
        }
        place += usize::from(count <= idx);
        before = byte;
    }
    Walked { place, count }
}
