//! The calls of a chunk on a vector of any width, for chunk types that are vectors.
//!
//! Each function says of the lanes of a vector what the call of [`ByteChunk`](crate::ByteChunk) with its name says of
//! those of a chunk; `inc_lane` and `dec_lane` are told which lane. `load`, `zero`, `splat` and `bitand` are one call
//! of `std::simd` each. The two lane shifts are shuffles, and a shuffle takes its positions as literals: a chunk type
//! writes them for its own width, and `shuffled_from` says what they give.
ghost use Rattle.std.specs.Prelude.{◌≡◌, ◌+◌, ◌-◌, ◌/◌, ◌%◌, ◌^◌, ◌<◌, ◌≤◌, ◌↔◌, ◌++◌, IsTrue, map, sum, drop, take, replicate, slice_index, slice_set};
ghost use Rattle.std.specs.List.{range_with_len};
ghost use Rattle.std.specs.Simd.Lanes.{zip2, pick_l, Each2};
ghost use Rattle.byte_chunk.specs.Lanes.{is_byte, is_between};

use std::simd::prelude::*;

/// Whether all lanes are 0.
pub fn is_zero<const N: usize>(lanes: Simd<u8, N>) -> bool
    ensures { IsTrue result ↔ (lanes.entry ≡ replicate N 0) }
{
    lanes.reduce_or() == 0
}

/// Does nothing: its contract is a law. If a shuffle takes `N` lanes from place `k` on of `lanes` followed by `next`,
/// it gives the lanes of `lanes` from `k` on and then the first `k` of `next`.
///
/// A lane shift calls it before its shuffle, and is then proved with no lemma.
#[tactic(auto, using(crate::proofs::lemmas::VectorLanes::shuffled_from))]
pub fn shuffled_from<const N: usize>(lanes: Simd<u8, N>, next: Simd<u8, N>, k: usize)
    requires { k ≤ N }
    ensures { pick_l 0 (lanes.entry ++ next.entry) (range_with_len k N)
        ≡ drop k lanes.entry ++ take k next.entry }
{}

/// Shifts each lane right by `n` bits, at most 4. Only the low `8 - n` bits of a lane are specified.
#[tactic(auto, using(std::proofs::lemmas::Simd::shifts_fit_splat))]
pub fn shr<const N: usize>(lanes: Simd<u8, N>, n: usize) -> Simd<u8, N>
    requires { n ≤ 4 }
    ensures { map (λ lane. lane % 2 ^ (8 - n)) result ≡ map (λ lane. lane / 2 ^ n) lanes.entry }
{
    lanes >> Simd::splat(n as u8)
}

/// Returns 1 in each lane that is `byte`, and 0 in the others.
pub fn cmp_eq_byte<const N: usize>(lanes: Simd<u8, N>, byte: u8) -> Simd<u8, N>
    ensures { result ≡ map (is_byte byte) lanes.entry }
{
    lanes
        .simd_eq(Simd::splat(byte))
        .select(Simd::splat(1), Simd::splat(0))
}

/// 1 in each lane above `a` and below `b`, and 0 in the others.
pub fn bytes_between_127<const N: usize>(lanes: Simd<u8, N>, a: u8, b: u8) -> Simd<u8, N>
    ensures { result ≡ map (is_between a b) lanes.entry }
{
    let inside = lanes.simd_gt(Simd::splat(a)) & lanes.simd_lt(Simd::splat(b));
    inside.select(Simd::splat(1), Simd::splat(0))
}

/// The sums, lane by lane.
#[tactic(auto, using(crate::proofs::lemmas::VectorLanes::sums_fit))]
pub fn add<const N: usize>(lanes: Simd<u8, N>, other: Simd<u8, N>) -> Simd<u8, N>
    requires { Each2 (λ a b. a + b ≤ 255) lanes other }
    ensures { result ≡ zip2 (λ a b. a + b) lanes.entry other.entry }
{
    lanes.strict_add(other)
}

/// Subtracts lane by lane. No lane of `other` may be above the one it is taken from.
pub fn sub<const N: usize>(lanes: Simd<u8, N>, other: Simd<u8, N>) -> Simd<u8, N>
    requires { Each2 (λ a b. b ≤ a) lanes other }
    ensures { result ≡ zip2 (λ a b. a - b) lanes.entry other.entry }
{
    lanes.strict_sub(other)
}

/// Adds one to lane `at`, which must be below 255. The other lanes stay.
pub fn inc_lane<const N: usize>(lanes: Simd<u8, N>, at: usize) -> Simd<u8, N>
    requires in_range { at < N }
    requires room { slice_index lanes at < 255 }
    ensures { result ≡ slice_set lanes.entry at (slice_index lanes.entry at + 1) }
{
    let mut array = lanes.to_array();
    array[at] += 1;
    Simd::from_array(array)
}

/// Subtracts one from lane `at`, which must not be 0. The other lanes stay.
pub fn dec_lane<const N: usize>(lanes: Simd<u8, N>, at: usize) -> Simd<u8, N>
    requires in_range { at < N }
    requires room { 0 < slice_index lanes at }
    ensures { result ≡ slice_set lanes.entry at (slice_index lanes.entry at - 1) }
{
    let mut array = lanes.to_array();
    array[at] -= 1;
    Simd::from_array(array)
}

/// Returns the sum of all lanes. A vector has at most 64.
#[tactic(auto, using(crate::proofs::lemmas::VectorLanes::total_fits))]
pub fn sum_bytes<const N: usize>(lanes: Simd<u8, N>) -> usize
    requires { N ≤ 64 }
    ensures { result ≡ sum lanes.entry }
{
    lanes.cast::<usize>().strict_reduce_sum()
}
