//! Counts in the last bytes of a pass, at most as many as a chunk has, all at once.
//!
//! One by one they would take a branch each, and no processor predicts where they end: for a short text that is most of
//! the time. So a chunk is made of the last bytes before the end, and the lanes that are counted already are left out.
ghost use Rattle.std.specs.Prelude.{◌≡◌, ◌+◌, ◌≤◌, length, take, drop};
ghost use Rattle.str_indices.specs.Prelude.{sum_below, CountsUpTo, Reads};

use crate::place_counts::{Cursor, PlaceCounts};
use byte_chunk::{ByteChunk, Probe};

/// The most lanes that a chunk has.
const MOST_LANES: usize = 64;

/// 0 for each lane that is left out, and then a byte with all bits set for each that is kept.
static LEFT_OUT_AND_KEPT: [[u8; MOST_LANES]; 2] = [[0; MOST_LANES], [0xFF; MOST_LANES]];

/// Counts in each lane of the chunk that ends at `to`, with one turn a lane.
///
/// Bytes from `end` on are not read. The lanes before `from` are 0, since they are counted already. If there are any,
/// the first lane is one of them, so the carry need not be that of the chunk before this one.
#[inline(always)]
pub(crate) fn lanes_up_to<C: PlaceCounts<T>, T: ByteChunk>(
    probe: &mut Probe<'_, T>,
    from: Cursor<C::Carry>,
    to: usize,
    end: usize,
) -> T
    requires long { T.SIZE ≤ to }
    requires near { (from.byte ≤ to) × (to ≤ from.byte + T.SIZE) }
    requires seen { (to ≤ end) × (end ≤ length probe.old.text) }
    requires carried { C.carries probe.old.text from.byte from.carry }
    ensures lanes { CountsUpTo (sum_below (C.counted_at end probe.old.text)) C.MOST T.SIZE from.byte to (T.lanes result) }
    ensures reads { Reads probe.old probe.new 0 T.SIZE 0 0 }
{
    let first = to - T::SIZE;
    let chunk = chunk_by_turns(probe, first);
    let counted = C::count_lanes(probe, chunk, first, end, from.carry);
    let left_out = T::SIZE - (to - from.byte);
    let kept = T::load(&LEFT_OUT_AND_KEPT.as_flattened()[MOST_LANES - left_out..]);
    counted.lanes.bitand(kept)
}

/// Reads the chunk at `at`, with one turn a byte.
#[inline(always)]
fn chunk_by_turns<T: ByteChunk>(probe: &mut Probe<'_, T>, at: usize) -> T
    requires { at + T.SIZE ≤ length probe.old.text }
    ensures lanes { T.lanes result ≡ take T.SIZE (drop at probe.old.text) }
    ensures turns { probe.new ≡ record probe.old { turns = probe.old.turns + T.SIZE } }
{
    prove!(T::SIZE <= probe.len() - at);
    let mut bytes = [0; MOST_LANES];
    for i in 0..T::SIZE {
        bytes[i] = probe.turn(at + i);
    }
    T::load(&bytes)
}
