// A chunk type of the program's own: a vector of thirty-two lanes, by the public contract of `byte_chunk` alone.
ghost use Rattle.std.specs.Prelude.{◌≡◌, ◌≤◌, ◌++◌, drop, take, replicate};
ghost use Rattle.std.proofs.Common.{lit≤};

use byte_chunk::{ByteChunk, vectors};
use std::simd::prelude::*;

/// Thirty-two bytes, one in each lane of a vector.
#[derive(Clone, Copy)]
pub struct Wide(pub Simd<u8, 32>);

// Moves the lanes from lane `n` on to the front, and adds `n` lanes 0 at the end.
fn move_to_front(lanes: u8x32, n: usize) -> u8x32
    requires { n ≤ 4 }
    ensures { result ≡ drop n lanes ++ replicate n 0 }
{
    let zeros = u8x32::splat(0);
    vectors::shuffled_from(lanes, zeros, n);
    match n {
        0 => lanes,
        1 => lanes.shuffle(
            zeros,
            [
                1, 2, 3, 4, 5, 6, 7, 8, 9, 10, 11, 12, 13, 14, 15, 16, 17, 18, 19, 20, 21, 22, 23,
                24, 25, 26, 27, 28, 29, 30, 31, 32,
            ],
        ),
        2 => lanes.shuffle(
            zeros,
            [
                2, 3, 4, 5, 6, 7, 8, 9, 10, 11, 12, 13, 14, 15, 16, 17, 18, 19, 20, 21, 22, 23, 24,
                25, 26, 27, 28, 29, 30, 31, 32, 33,
            ],
        ),
        3 => lanes.shuffle(
            zeros,
            [
                3, 4, 5, 6, 7, 8, 9, 10, 11, 12, 13, 14, 15, 16, 17, 18, 19, 20, 21, 22, 23, 24,
                25, 26, 27, 28, 29, 30, 31, 32, 33, 34,
            ],
        ),
        _ => lanes.shuffle(
            zeros,
            [
                4, 5, 6, 7, 8, 9, 10, 11, 12, 13, 14, 15, 16, 17, 18, 19, 20, 21, 22, 23, 24, 25,
                26, 27, 28, 29, 30, 31, 32, 33, 34, 35,
            ],
        ),
    }
}

// Returns the last lane of `lanes`, and then all lanes of `next` but its last.
fn start_one_before(lanes: u8x32, next: u8x32) -> u8x32
    ensures { result ≡ drop 31 lanes ++ take 31 next }
{
    vectors::shuffled_from(lanes, next, 31);
    lanes.shuffle(
        next,
        [
            31, 32, 33, 34, 35, 36, 37, 38, 39, 40, 41, 42, 43, 44, 45, 46, 47, 48, 49, 50, 51, 52,
            53, 54, 55, 56, 57, 58, 59, 60, 61, 62,
        ],
    )
}

impl ByteChunk for Wide {
    ghost SIZE = { 32 };

    ghost MAX_ACC = { 255 };

    ghost lanes = { λ chunk. chunk.0 };

    const SIZE: usize = 32;

    const MAX_ACC: usize = 255;

    fn load(bytes: &[u8]) -> Self {
        Wide(Simd::from_slice(bytes))
    }

    fn zero() -> Self {
        Wide(Simd::splat(0))
    }

    fn splat(n: u8) -> Self {
        Wide(Simd::splat(n))
    }

    fn is_zero(&self) -> bool {
        vectors::is_zero(self.0)
    }

    fn shift_back_lex(&self, n: usize) -> Self {
        Wide(move_to_front(self.0, n))
    }

    fn shift_across(&self, n: Self) -> Self {
        Wide(start_one_before(self.0, n.0))
    }

    fn shr(&self, n: usize) -> Self {
        Wide(vectors::shr(self.0, n))
    }

    fn cmp_eq_byte(&self, byte: u8) -> Self {
        Wide(vectors::cmp_eq_byte(self.0, byte))
    }

    fn bytes_between_127(&self, a: u8, b: u8) -> Self {
        Wide(vectors::bytes_between_127(self.0, a, b))
    }

    fn bitand(&self, other: Self) -> Self {
        Wide(self.0 & other.0)
    }

    fn add(&self, other: Self) -> Self {
        Wide(vectors::add(self.0, other.0))
    }

    fn sub(&self, other: Self) -> Self {
        Wide(vectors::sub(self.0, other.0))
    }

    fn inc_nth_from_end_lex_byte(&self, n: usize) -> Self {
        Wide(vectors::inc_lane(self.0, 31 - n))
    }

    fn dec_last_lex_byte(&self) -> Self {
        Wide(vectors::dec_lane(self.0, 31))
    }

    fn sum_bytes(&self) -> usize {
        vectors::sum_bytes(self.0)
    }

    ghost lawful = { record { least = lit≤ tt; most = lit≤ tt; room = lit≤ tt; fits = lit≤ tt } };
}
