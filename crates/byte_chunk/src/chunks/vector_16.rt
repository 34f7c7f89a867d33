//! The chunk that is a vector: sixteen bytes, one in each lane.
ghost use Rattle.std.specs.Prelude.{◌≡◌, ◌≤◌, ◌++◌, drop, take, replicate};
ghost use Rattle.std.proofs.Common.{lit≤};

use crate::{ByteChunk, vectors};
use std::simd::prelude::*;

// Moves the lanes from lane `n` on to the front, and adds `n` lanes 0 at the end.
fn move_to_front(lanes: u8x16, n: usize) -> u8x16
    requires { n ≤ 4 }
    ensures { result ≡ drop n lanes ++ replicate n 0 }
{
    let zeros = u8x16::splat(0);
    vectors::shuffled_from(lanes, zeros, n);
    match n {
        0 => lanes,
        1 => lanes.shuffle(
            zeros,
            [1, 2, 3, 4, 5, 6, 7, 8, 9, 10, 11, 12, 13, 14, 15, 16],
        ),
        2 => lanes.shuffle(
            zeros,
            [2, 3, 4, 5, 6, 7, 8, 9, 10, 11, 12, 13, 14, 15, 16, 17],
        ),
        3 => lanes.shuffle(
            zeros,
            [3, 4, 5, 6, 7, 8, 9, 10, 11, 12, 13, 14, 15, 16, 17, 18],
        ),
        _ => lanes.shuffle(
            zeros,
            [4, 5, 6, 7, 8, 9, 10, 11, 12, 13, 14, 15, 16, 17, 18, 19],
        ),
    }
}

// Returns the last lane of `lanes`, and then all lanes of `next` but its last.
fn start_one_before(lanes: u8x16, next: u8x16) -> u8x16
    ensures { result ≡ drop 15 lanes ++ take 15 next }
{
    vectors::shuffled_from(lanes, next, 15);
    lanes.shuffle(
        next,
        [
            15, 16, 17, 18, 19, 20, 21, 22, 23, 24, 25, 26, 27, 28, 29, 30,
        ],
    )
}

impl ByteChunk for Simd<u8, 16> {
    ghost SIZE = { 16 };

    ghost MAX_ACC = { 255 };

    ghost lanes = { λ chunk. chunk };

    const SIZE: usize = 16;

    const MAX_ACC: usize = 255;

    fn load(bytes: &[u8]) -> Self {
        Simd::from_slice(bytes)
    }

    fn zero() -> Self {
        Simd::splat(0)
    }

    fn splat(n: u8) -> Self {
        Simd::splat(n)
    }

    fn is_zero(&self) -> bool {
        vectors::is_zero(*self)
    }

    fn shift_back_lex(&self, n: usize) -> Self {
        move_to_front(*self, n)
    }

    fn shift_across(&self, n: Self) -> Self {
        start_one_before(*self, n)
    }

    fn shr(&self, n: usize) -> Self {
        vectors::shr(*self, n)
    }

    fn cmp_eq_byte(&self, byte: u8) -> Self {
        vectors::cmp_eq_byte(*self, byte)
    }

    fn bytes_between_127(&self, a: u8, b: u8) -> Self {
        vectors::bytes_between_127(*self, a, b)
    }

    #[tactic(auto, using(crate::proofs::lemmas::VectorLanes::bits_exchanged))]
    fn bitand(&self, other: Self) -> Self {
        *self & other
    }

    #[tactic(auto, using(crate::proofs::lemmas::VectorLanes::added_either_way))]
    fn add(&self, other: Self) -> Self {
        vectors::add(*self, other)
    }

    fn sub(&self, other: Self) -> Self {
        vectors::sub(*self, other)
    }

    fn inc_nth_from_end_lex_byte(&self, n: usize) -> Self {
        vectors::inc_lane(*self, 15 - n)
    }

    fn dec_last_lex_byte(&self) -> Self {
        vectors::dec_lane(*self, 15)
    }

    fn sum_bytes(&self) -> usize {
        vectors::sum_bytes(*self)
    }

    ghost lawful = { record { least = lit≤ tt; most = lit≤ tt; room = lit≤ tt; fits = lit≤ tt } };
}
