//! LF, CR, and weights of bytes: of one byte, and of all lanes of a chunk at once.
ghost use Rattle.std.specs.Prelude.{◌≡◌, ℕ, ◌*◌, ◌<◌, ◌≤◌, length, map, slice_index};
ghost use Rattle.std.proofs.Common.{lit≤, lit<};
ghost use Rattle.str_indices.specs.Prelude.{mark, is_trailing, is_leading, begins_four_bytes, is_line_feed, units_begun, mark-le, units_begun-le};

use crate::place_counts::{Counted, PlaceCounts};
use byte_chunk::{ByteChunk, Probe};
use std::marker::PhantomData;

pub(crate) const LF: u8 = b'\n';

pub(crate) const CR: u8 = b'\r';

/// A weight of one byte, and of all lanes of a chunk at once.
pub(crate) trait ByteWeight {
    ghost weight: { ℕ → ℕ };

    ghost MOST: { ℕ };

    ghost GROUP: { ℕ };

    ghost LAST_STEP: { ℕ };

    /// The greatest weight of a byte.
    const MOST: usize;

    /// How many chunks a group has.
    const GROUP: usize;

    /// How many chunks are added in one step of the last round.
    const LAST_STEP: usize;

    /// Whether most bytes, or every second or third, have a weight.
    const IS_DENSE: bool;

    /// Returns the weight of `byte`.
    fn in_byte(byte: u8) -> usize
        ensures { result ≡ weight byte };

    /// Returns the weight of each lane of `chunk`.
    fn in_lanes<T: ByteChunk>(chunk: T) -> T
        requires { length (T.lanes chunk) ≡ T.SIZE }
        ensures { T.lanes result ≡ map weight (T.lanes chunk) };

    ghost bounded: { (0 < MOST) × (MOST ≤ 2) × ((byte : ℕ) → weight byte ≤ MOST) };

    ghost grouped: { (0 < GROUP) × (GROUP * MOST ≤ 4) × (0 < LAST_STEP) };
}

/// 1 for each LF.
pub(crate) struct LineFeeds;

impl ByteWeight for LineFeeds {
    ghost weight = { mark is_line_feed };

    ghost MOST = { 1 };

    ghost GROUP = { 4 };

    ghost LAST_STEP = { 4 };

    const MOST: usize = 1;

    const GROUP: usize = 4;

    const LAST_STEP: usize = 4;

    const IS_DENSE: bool = false;

    fn in_byte(byte: u8) -> usize {
        usize::from(byte == LF)
    }

    fn in_lanes<T: ByteChunk>(chunk: T) -> T {
        chunk.cmp_eq_byte(LF)
    }

    ghost bounded = { (lit< tt, lit≤ tt, mark-le is_line_feed) };

    ghost grouped = { (lit< tt, lit≤ tt, lit< tt) };
}

/// 1 for each byte that begins a char.
pub(crate) struct CharStarts;

impl ByteWeight for CharStarts {
    ghost weight = { mark is_leading };

    ghost MOST = { 1 };

    ghost GROUP = { 4 };

    ghost LAST_STEP = { 4 };

    const MOST: usize = 1;

    const GROUP: usize = 4;

    const LAST_STEP: usize = 4;

    const IS_DENSE: bool = true;

    fn in_byte(byte: u8) -> usize {
        usize::from(is_leading_byte(byte))
    }

    #[tactic(auto, using(crate::proofs::lemmas::Lanes::leading_lanes))]
    fn in_lanes<T: ByteChunk>(chunk: T) -> T {
        T::splat(1).sub(count_trailing_chunk(chunk))
    }

    ghost bounded = { (lit< tt, lit≤ tt, mark-le is_leading) };

    ghost grouped = { (lit< tt, lit≤ tt, lit< tt) };
}

/// 1 for each byte that begins a char of four bytes, which takes a surrogate pair.
pub(crate) struct FourByteStarts;

impl ByteWeight for FourByteStarts {
    ghost weight = { mark begins_four_bytes };

    ghost MOST = { 1 };

    ghost GROUP = { 4 };

    ghost LAST_STEP = { 8 };

    const MOST: usize = 1;

    const GROUP: usize = 4;

    const LAST_STEP: usize = 8;

    const IS_DENSE: bool = false;

    fn in_byte(byte: u8) -> usize {
        usize::from(byte & 0xF0 == 0xF0)
    }

    fn in_lanes<T: ByteChunk>(chunk: T) -> T {
        chunk.bitand(T::splat(0xF0)).cmp_eq_byte(0xF0)
    }

    ghost bounded = { (lit< tt, lit≤ tt, mark-le begins_four_bytes) };

    ghost grouped = { (lit< tt, lit≤ tt, lit< tt) };
}

/// For each byte that begins a char the UTF-16 code units of that char, 1 or 2.
pub(crate) struct Units;

impl ByteWeight for Units {
    ghost weight = { units_begun };

    ghost MOST = { 2 };

    ghost GROUP = { 2 };

    ghost LAST_STEP = { 8 };

    const MOST: usize = 2;

    const GROUP: usize = 2;

    const LAST_STEP: usize = 8;

    const IS_DENSE: bool = true;

    fn in_byte(byte: u8) -> usize {
        CharStarts::in_byte(byte) + FourByteStarts::in_byte(byte)
    }

    fn in_lanes<T: ByteChunk>(chunk: T) -> T {
        let leading = CharStarts::in_lanes(chunk);
        leading.add(FourByteStarts::in_lanes(chunk))
    }

    ghost bounded = { (lit< tt, lit≤ tt, units_begun-le) };

    ghost grouped = { (lit< tt, lit≤ tt, lit< tt) };
}

/// Counts at each place the weight of its byte.
pub(crate) struct Weights<B>(PhantomData<B>);

impl<B: ByteWeight, T: ByteChunk> PlaceCounts<T> for Weights<B> {
    type Carry = ();

    ghost MOST = { B.MOST };

    ghost GROUP = { B.GROUP };

    ghost STEP = { 16 };

    ghost LAST_STEP = { B.LAST_STEP };

    ghost counted_at = { λ _ text n. B.weight (slice_index text n) };

    ghost carries = { λ _ _ _. Unit {0} };

    const MOST: usize = B::MOST;

    const GROUP: usize = B::GROUP;

    const STEP: usize = 16;

    const LAST_STEP: usize = B::LAST_STEP;

    const IS_DENSE: bool = B::IS_DENSE;

    fn count_byte(_: &mut Probe<'_, T>, _: u8, byte: u8, _: usize, _: usize) -> usize {
        B::in_byte(byte)
    }

    fn carry_at(_: &mut Probe<'_, T>, _: usize) {}

    fn count_lanes(_: &mut Probe<'_, T>, chunk: T, _: usize, _: usize, _: ()) -> Counted<T, ()> {
        Counted {
            lanes: B::in_lanes(chunk),
            carry: (),
        }
    }

    ghost bounded = { (B.bounded.0, B.bounded.1, λ _ text n. B.bounded.2 (slice_index text n)) };

    ghost grouped = { (B.grouped.0, B.grouped.1, lit< tt, B.grouped.2) };
}

/// Whether the byte begins a char.
fn is_leading_byte(byte: u8) -> bool
    ensures { result ≡ is_leading byte }
{
    byte & 0xC0 != 0x80
}

/// Whether the byte belongs to a char and does not begin it.
pub(crate) fn is_trailing_byte(byte: u8) -> bool
    ensures { result ≡ is_trailing byte }
{
    byte & 0xC0 == 0x80
}

/// Returns 1 in each lane that is a trailing byte.
fn count_trailing_chunk<T: ByteChunk>(chunk: T) -> T
    requires { length (T.lanes chunk) ≡ T.SIZE }
    ensures { T.lanes result ≡ map (mark is_trailing) (T.lanes chunk) }
{
    chunk.bitand(T::splat(0xC0)).cmp_eq_byte(0x80)
}
