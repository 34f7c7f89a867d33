//! Whether the bytes of a chunk may follow those before them, in all lanes at once.
//!
//! A chunk type has the rule by the calls of a chunk alone. A vector looks it up in three tables, after Keiser and Lemire,
//! "Validating UTF-8 in less than one instruction per byte".
ghost use Rattle.std.specs.Prelude.{◌≡◌, ℕ, ◌*◌, ◌/◌, ◌<◌, ◌↔◌, not, ◌&&◌, IsTrue, length, ◌==◌, bit_and, slice_index};
ghost use Rattle.std.specs.Simd.Lanes.{Each1};
ghost use Rattle.str_indices.specs.Prelude.{HasLanes, flag};
ghost use Rattle.str_indices.specs.Utf8.{may_follow, AreBytes};
ghost use Rattle.str_indices.specs.Utf8Lanes.{ShowsFaults, IsNibbles, is_masked, is_long, is_due, may_lead, keeps_min, keeps_max};

use byte_chunk::{ByteChunk, Plain};
use std::simd::prelude::*;

/// A chunk that shows in all its lanes at once whether their bytes may follow the three before them.
pub trait Utf8Chunk: ByteChunk {
    /// Returns 0 in each lane whose byte of `here` may follow those of `three_back`, `two_back` and `one_back`, and
    /// another byte in the others.
    #[inline(always)]
    fn faults(three_back: Self, two_back: Self, one_back: Self, here: Self) -> Self
        requires three { AreBytes Self.SIZE (Self.lanes three_back) }
        requires two { AreBytes Self.SIZE (Self.lanes two_back) }
        requires one { AreBytes Self.SIZE (Self.lanes one_back) }
        requires here { AreBytes Self.SIZE (Self.lanes here) }
        ensures bytes { AreBytes Self.SIZE (Self.lanes result) }
        ensures lanes { (j : ℕ) → j < Self.SIZE → ((slice_index (Self.lanes result) j ≡ 0) ↔ IsTrue (may_follow
            (slice_index (Self.lanes three_back) j) (slice_index (Self.lanes two_back) j)
            (slice_index (Self.lanes one_back) j) (slice_index (Self.lanes here) j))) }
    {
        let due = due_faults(three_back, two_back, one_back, here);
        let bounds = min_faults(one_back, here).add(max_faults(one_back, here));
        due.add(lead_faults(one_back)).add(bounds)
    }

    /// Whether all lanes are ASCII.
    #[inline(always)]
    fn is_ascii(self) -> bool
        requires { AreBytes Self.SIZE (Self.lanes self) }
        ensures { IsTrue result ↔ ((j : ℕ) → j < Self.SIZE → slice_index (Self.lanes self) j < 128) }
    {
        self.bitand(Self::splat(0x80)).is_zero()
    }
}

/// Returns 1 in each lane that is `byte` where `mask` has bits, and 0 in the others.
#[inline(always)]
fn mark_byte<T: ByteChunk>(chunk: T, mask: u8, byte: u8) -> T
    requires { length (T.lanes chunk) ≡ T.SIZE }
    ensures { HasLanes T.SIZE (λ j. flag (is_masked mask byte (slice_index (T.lanes chunk) j))) (T.lanes result) }
{
    chunk.bitand(T::splat(mask)).cmp_eq_byte(byte)
}

/// Returns 1 in each lane that is `byte` where `mask` has bits, after a byte `before`, and 0 in the others.
#[inline(always)]
fn mark_byte_after<T: ByteChunk>(one_back: T, before: u8, here: T, mask: u8, byte: u8) -> T
    requires one { length (T.lanes one_back) ≡ T.SIZE }
    requires here { length (T.lanes here) ≡ T.SIZE }
    ensures { HasLanes T.SIZE (λ j. flag (slice_index (T.lanes one_back) j == before
        && is_masked mask byte (slice_index (T.lanes here) j))) (T.lanes result) }
{
    one_back
        .cmp_eq_byte(before)
        .bitand(mark_byte(here, mask, byte))
}

/// Returns 0 in each lane where a char of three or four bytes goes on, and 1 in the others.
#[inline(always)]
fn mark_short<T: ByteChunk>(three_back: T, two_back: T) -> T
    requires three { AreBytes T.SIZE (T.lanes three_back) }
    requires two { AreBytes T.SIZE (T.lanes two_back) }
    ensures { HasLanes T.SIZE (λ j. flag (not (is_long (slice_index (T.lanes three_back) j)
        (slice_index (T.lanes two_back) j)))) (T.lanes result) }
{
    let begun = mark_byte(three_back, 0xF0, 0xF0).add(mark_byte(two_back, 0xE0, 0xE0));
    begun.cmp_eq_byte(0)
}

/// Returns 0 in each lane that is a trailing byte just where one is due. In a char of three or four bytes the byte before
/// it has to trail too.
#[inline(always)]
fn due_faults<T: ByteChunk>(three_back: T, two_back: T, one_back: T, here: T) -> T
    requires three { AreBytes T.SIZE (T.lanes three_back) }
    requires two { AreBytes T.SIZE (T.lanes two_back) }
    requires one { length (T.lanes one_back) ≡ T.SIZE }
    requires here { length (T.lanes here) ≡ T.SIZE }
    ensures { ShowsFaults 2 T.SIZE (λ j. is_due (is_long (slice_index (T.lanes three_back) j)
        (slice_index (T.lanes two_back) j)) (slice_index (T.lanes one_back) j) (slice_index (T.lanes here) j))
        (T.lanes result) }
{
    let trails = mark_byte(here, 0xC0, 0x80);
    let both = mark_byte(one_back, 0xC0, 0x80).bitand(trails);
    let right = mark_short(three_back, two_back).add(both).cmp_eq_byte(1);
    let alone = mark_byte(one_back, 0xC0, 0xC0)
        .add(trails)
        .add(both)
        .cmp_eq_byte(1);
    T::splat(1).sub(right).add(alone)
}

/// Returns 0 in each lane that is none of 0xC0, 0xC1 and 0xF8 to 0xFF.
#[inline(always)]
fn lead_faults<T: ByteChunk>(one_back: T) -> T
    requires { length (T.lanes one_back) ≡ T.SIZE }
    ensures { ShowsFaults 2 T.SIZE (λ j. may_lead (slice_index (T.lanes one_back) j)) (T.lanes result) }
{
    mark_byte(one_back, 0xFE, 0xC0).add(mark_byte(one_back, 0xF8, 0xF8))
}

/// Returns 0 in each lane whose trailing byte is not too small for the byte before it.
#[inline(always)]
fn min_faults<T: ByteChunk>(one_back: T, here: T) -> T
    requires one { length (T.lanes one_back) ≡ T.SIZE }
    requires here { length (T.lanes here) ≡ T.SIZE }
    ensures { ShowsFaults 2 T.SIZE (λ j. keeps_min (slice_index (T.lanes one_back) j) (slice_index (T.lanes here) j))
        (T.lanes result) }
{
    mark_byte_after(one_back, 0xE0, here, 0x20, 0).add(mark_byte_after(
        one_back, 0xF0, here, 0x30, 0,
    ))
}

/// Returns 0 in each lane whose trailing byte is not too great for the byte before it.
#[inline(always)]
fn max_faults<T: ByteChunk>(one_back: T, here: T) -> T
    requires one { length (T.lanes one_back) ≡ T.SIZE }
    requires here { length (T.lanes here) ≡ T.SIZE }
    ensures { ShowsFaults 2 T.SIZE (λ j. keeps_max (slice_index (T.lanes one_back) j) (slice_index (T.lanes here) j))
        (T.lanes result) }
{
    let last = mark_byte(one_back, 0xFC, 0xF4).sub(mark_byte_after(one_back, 0xF4, here, 0x30, 0));
    mark_byte_after(one_back, 0xED, here, 0x20, 0x20).add(last)
}

impl Utf8Chunk for usize {}

impl Utf8Chunk for u128 {}

impl Utf8Chunk for Plain {}

/// A trailing byte that follows ASCII.
const STRAY: u8 = 1;

/// A byte that does not trail, and follows one that begins a char of two bytes or more.
const CUT: u8 = 2;

/// A char of two bytes for which one would do.
const OVERLONG_TWO: u8 = 4;

/// A char of three bytes for which two would do.
const OVERLONG_THREE: u8 = 8;

/// A surrogate.
const SURROGATE: u8 = 16;

/// A char of four bytes for which three would do, or 0xF5 to 0xFF before 0x80 to 0x8F.
const OVERLONG_FOUR: u8 = 32;

/// A char above 0x10FFFF whose second byte is 0x90 to 0xBF.
const TOO_LARGE: u8 = 64;

/// Two trailing bytes: a fault but in a char of three or four bytes.
const TRAILING: u8 = 128;

/// The faults that the lower four bits of a byte have no part in.
const ANY: u8 = STRAY | CUT | TRAILING;

/// These, and the faults of 0xF5 to 0xFF.
const LARGE: u8 = ANY | OVERLONG_FOUR | TOO_LARGE;

/// The faults that a byte may have a part in, by its upper four bits, before another.
const BEFORE_HIGH: [u8; 16] = [
    STRAY,
    STRAY,
    STRAY,
    STRAY,
    STRAY,
    STRAY,
    STRAY,
    STRAY,
    TRAILING,
    TRAILING,
    TRAILING,
    TRAILING,
    CUT | OVERLONG_TWO,
    CUT,
    CUT | OVERLONG_THREE | SURROGATE,
    CUT | OVERLONG_FOUR | TOO_LARGE,
];

/// The same by its lower four bits.
const BEFORE_LOW: [u8; 16] = [
    ANY | OVERLONG_TWO | OVERLONG_THREE | OVERLONG_FOUR,
    ANY | OVERLONG_TWO,
    ANY,
    ANY,
    ANY | TOO_LARGE,
    LARGE,
    LARGE,
    LARGE,
    LARGE,
    LARGE,
    LARGE,
    LARGE,
    LARGE,
    LARGE | SURROGATE,
    LARGE,
    LARGE,
];

/// The same by the upper four bits of the byte after it.
const AFTER_HIGH: [u8; 16] = [
    CUT,
    CUT,
    CUT,
    CUT,
    CUT,
    CUT,
    CUT,
    CUT,
    STRAY | TRAILING | OVERLONG_TWO | OVERLONG_THREE | OVERLONG_FOUR,
    STRAY | TRAILING | OVERLONG_TWO | OVERLONG_THREE | TOO_LARGE,
    STRAY | TRAILING | OVERLONG_TWO | SURROGATE | TOO_LARGE,
    STRAY | TRAILING | OVERLONG_TWO | SURROGATE | TOO_LARGE,
    CUT,
    CUT,
    CUT,
    CUT,
];

/// Returns the upper four bits of each lane.
#[tactic(auto, using(std::proofs::lemmas::Simd::shifts_fit_splat))]
#[inline(always)]
fn high_bits<const N: usize>(bytes: Simd<u8, N>) -> Simd<u8, N>
    ensures { IsNibbles N (λ j. slice_index bytes.entry j / 16) result }
{
    bytes >> Simd::splat(4)
}

/// Returns the lower four bits of each lane.
#[tactic(auto, using(crate::proofs::lemmas::Utf8Lanes::low_nibbles))]
#[inline(always)]
fn low_bits<const N: usize>(bytes: Simd<u8, N>) -> Simd<u8, N>
    ensures { IsNibbles N (λ j. bit_and (slice_index bytes.entry j) 15) result }
{
    bytes & Simd::splat(15)
}

/// Returns `TRAILING` in each lane where a char of three or four bytes goes on, and 0 in the others.
#[inline(always)]
fn long_bits<const N: usize>(three_back: Simd<u8, N>, two_back: Simd<u8, N>) -> Simd<u8, N>
    ensures { HasLanes N (λ j. 128 * flag (is_long (slice_index three_back.entry j) (slice_index two_back.entry j))) result }
{
    let three = two_back.saturating_sub(Simd::splat(0x60));
    let four = three_back.saturating_sub(Simd::splat(0x70));
    (three | four) & Simd::splat(TRAILING)
}

/// Returns the entry of the table at each lane.
#[inline(always)]
fn look_up_16(table: [u8; 16], at: u8x16) -> u8x16
    requires { Each1 (λ lane. lane < 16) at }
    ensures { HasLanes 16 (λ j. slice_index table (slice_index at j)) result }
{
    u8x16::from_array(table).swizzle_dyn_within::<16>(at)
}

/// Returns the entry of the table at each lane.
#[inline(always)]
fn look_up_32(table: [u8; 16], at: u8x32) -> u8x32
    requires { Each1 (λ lane. lane < 16) at }
    ensures { HasLanes 32 (λ j. slice_index table (slice_index at j)) result }
{
    let table = u8x16::from_array(table);
    let twice: u8x32 = table.shuffle(
        table,
        [
            0, 1, 2, 3, 4, 5, 6, 7, 8, 9, 10, 11, 12, 13, 14, 15, 16, 17, 18, 19, 20, 21, 22, 23,
            24, 25, 26, 27, 28, 29, 30, 31,
        ],
    );
    twice.swizzle_dyn_within::<16>(at)
}

impl Utf8Chunk for Simd<u8, 16> {
    #[inline(always)]
    fn faults(three_back: Self, two_back: Self, one_back: Self, here: Self) -> Self {
        let before = look_up_16(BEFORE_HIGH, high_bits(one_back))
            & look_up_16(BEFORE_LOW, low_bits(one_back));
        let pairs = before & look_up_16(AFTER_HIGH, high_bits(here));
        pairs ^ long_bits(three_back, two_back)
    }

    #[inline(always)]
    fn is_ascii(self) -> bool {
        self.simd_ge(u8x16::splat(0x80)).to_bitmask() == 0
    }
}

impl Utf8Chunk for Simd<u8, 32> {
    #[inline(always)]
    fn faults(three_back: Self, two_back: Self, one_back: Self, here: Self) -> Self {
        let before = look_up_32(BEFORE_HIGH, high_bits(one_back))
            & look_up_32(BEFORE_LOW, low_bits(one_back));
        let pairs = before & look_up_32(AFTER_HIGH, high_bits(here));
        pairs ^ long_bits(three_back, two_back)
    }

    #[inline(always)]
    fn is_ascii(self) -> bool {
        self.simd_ge(u8x32::splat(0x80)).to_bitmask() == 0
    }
}
