//! Searches the chunk in which an index is reached, all lanes at once.
//!
//! A walk would branch at each byte, and no processor predicts at which one it ends; or it would go over all of them.
//! So each lane gets the sum of the lanes from it to the last. These sums never rise from lane to lane: those that are
//! too great stand first, and the last of them is the place.
ghost use Rattle.std.specs.Prelude.{◌≡◌, ◌+◌, ◌-◌, ◌*◌, ◌<◌, ◌≤◌, length, drop, map, slice_index, sum};
ghost use Rattle.std.specs.Simd.Lanes.{Each1};
ghost use Rattle.str_indices.specs.Prelude.{is_between, sum_below, CountsUpTo, FitsIn, HasLanes, Reads, SearchesOn};

use crate::place_counts::{Cursor, PlaceCounts};
use crate::rest::lanes_up_to;
use crate::walks::walk;
use byte_chunk::{ByteChunk, Probe};

/// The greatest sum of lanes that can be compared with another.
const MOST_COMPARED: usize = 126;

/// Finds, in the next `T::SIZE` bytes from `from` on, or all that are left, the byte that takes the count above `idx`,
/// or the place after them if none does.
///
/// It searches them by lanes, with one turn for each. It walks them instead if a sum of lanes may be too great to be
/// compared, or if the text is shorter than a chunk.
pub(crate) fn find_in_last<C: PlaceCounts<T>, T: ByteChunk>(
    probe: &mut Probe<'_, T>,
    from: Cursor<C::Carry>,
    idx: usize,
) -> usize
    requires fits { let n = length probe.old.text in FitsIn (sum_below (C.counted_at n probe.old.text)) n }
    requires searches { SearchesOn C.counted_at C.carries probe.old.text idx from.byte from.count from.carry }
    ensures reached { (from.byte ≤ result) × (result ≤ length probe.old.text) × (result ≤ from.byte + T.SIZE) }
    ensures at_most { sum_below (C.counted_at (length probe.old.text) probe.old.text) result ≤ idx }
    ensures stopped { result < length probe.old.text → result < from.byte + T.SIZE
        → idx < sum_below (C.counted_at (length probe.old.text) probe.old.text) (result + 1) }
    ensures reads { Reads probe.old probe.new 0 (T.SIZE + 1) 0 0 }
{
    let len = probe.len();
    let to = from.byte + T::SIZE.min(len - from.byte);
    if len < T::SIZE || MOST_COMPARED / C::MOST < T::SIZE {
        return walk::<C, T>(probe, from.byte, from.count, to, len, idx).place;
    }
    let lanes = lanes_up_to::<C, T>(probe, from, to, len);
    let total = lanes.sum_bytes();
    let more = idx - from.count;
    if total <= more {
        return to;
    }
    let after = total - more - 1;
    let above = sums_to_end(lanes).bytes_between_127(after as u8, 127);
    to - T::SIZE + (above.sum_bytes() - 1)
}

/// Returns in each lane the sum of the lanes from it to the last.
#[inline(always)]
fn sums_to_end<T: ByteChunk>(lanes: T) -> T
    requires long { length (T.lanes lanes) ≡ T.SIZE }
    requires small { Each1 (λ lane. lane ≤ 2) (T.lanes lanes) }
    ensures { HasLanes T.SIZE (λ j. sum (drop j (T.lanes lanes))) (T.lanes result) }
{
    let twos = lanes.add(lanes.shift_back_lex(1));
    let mut sums = twos.add(twos.shift_back_lex(2));
    let mut fours = 1;
    'widths: while 4 * fours < T::SIZE {
        sums = sums.add(move_back(sums, fours));
        fours *= 2;
    }
    sums
}

/// Moves the lanes from lane `4 * fours` on to the front, and fills up with lanes 0.
#[inline(always)]
fn move_back<T: ByteChunk>(lanes: T, fours: usize) -> T
    requires long { length (T.lanes lanes) ≡ T.SIZE }
    requires in_range { 4 * fours < T.SIZE }
    ensures { HasLanes T.SIZE (λ j. slice_index (T.lanes lanes) (4 * fours + j)) (T.lanes result) }
{
    let mut moved = lanes;
    'fours: for _ in 0..fours {
        moved = moved.shift_back_lex(4);
    }
    moved
}
