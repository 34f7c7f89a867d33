//! Sixty-four lanes, as many as a chunk may have: a vector as a chunk type.
ghost use Rattle.std.specs.Prelude.{◌≡◌, ◌≤◌, ◌++◌, drop, take, replicate};
ghost use Rattle.std.proofs.Common.{lit≤};

use super::{chunks_of, has_digit, numbers_are, numbers_of};
use byte_chunk::{ByteChunk, vectors};
use std::process::Abort;
use std::simd::prelude::*;
use str_indices::Utf8Chunk;

/// Sixty-four bytes, one in each lane of a vector.
#[derive(Clone, Copy)]
pub struct Widest(pub u8x64);

// The lanes from `n` on, and then `n` lanes 0.
fn move_to_front(lanes: u8x64, n: usize) -> u8x64
    requires { n ≤ 4 }
    ensures { result ≡ drop n lanes ++ replicate n 0 }
{
    let zeros = u8x64::splat(0);
    vectors::shuffled_from(lanes, zeros, n);
    match n {
        0 => lanes,
        1 => lanes.shuffle(
            zeros,
            [
                1, 2, 3, 4, 5, 6, 7, 8, 9, 10, 11, 12, 13, 14, 15, 16, 17, 18, 19, 20, 21, 22, 23,
                24, 25, 26, 27, 28, 29, 30, 31, 32, 33, 34, 35, 36, 37, 38, 39, 40, 41, 42, 43, 44,
                45, 46, 47, 48, 49, 50, 51, 52, 53, 54, 55, 56, 57, 58, 59, 60, 61, 62, 63, 64,
            ],
        ),
        2 => lanes.shuffle(
            zeros,
            [
                2, 3, 4, 5, 6, 7, 8, 9, 10, 11, 12, 13, 14, 15, 16, 17, 18, 19, 20, 21, 22, 23, 24,
                25, 26, 27, 28, 29, 30, 31, 32, 33, 34, 35, 36, 37, 38, 39, 40, 41, 42, 43, 44, 45,
                46, 47, 48, 49, 50, 51, 52, 53, 54, 55, 56, 57, 58, 59, 60, 61, 62, 63, 64, 65,
            ],
        ),
        3 => lanes.shuffle(
            zeros,
            [
                3, 4, 5, 6, 7, 8, 9, 10, 11, 12, 13, 14, 15, 16, 17, 18, 19, 20, 21, 22, 23, 24,
                25, 26, 27, 28, 29, 30, 31, 32, 33, 34, 35, 36, 37, 38, 39, 40, 41, 42, 43, 44, 45,
                46, 47, 48, 49, 50, 51, 52, 53, 54, 55, 56, 57, 58, 59, 60, 61, 62, 63, 64, 65, 66,
            ],
        ),
        _ => lanes.shuffle(
            zeros,
            [
                4, 5, 6, 7, 8, 9, 10, 11, 12, 13, 14, 15, 16, 17, 18, 19, 20, 21, 22, 23, 24, 25,
                26, 27, 28, 29, 30, 31, 32, 33, 34, 35, 36, 37, 38, 39, 40, 41, 42, 43, 44, 45, 46,
                47, 48, 49, 50, 51, 52, 53, 54, 55, 56, 57, 58, 59, 60, 61, 62, 63, 64, 65, 66, 67,
            ],
        ),
    }
}

// The last lane of `lanes`, and then all lanes of `next` but its last.
fn start_one_before(lanes: u8x64, next: u8x64) -> u8x64
    ensures { result ≡ drop 63 lanes ++ take 63 next }
{
    vectors::shuffled_from(lanes, next, 63);
    lanes.shuffle(
        next,
        [
            63, 64, 65, 66, 67, 68, 69, 70, 71, 72, 73, 74, 75, 76, 77, 78, 79, 80, 81, 82, 83, 84,
            85, 86, 87, 88, 89, 90, 91, 92, 93, 94, 95, 96, 97, 98, 99, 100, 101, 102, 103, 104,
            105, 106, 107, 108, 109, 110, 111, 112, 113, 114, 115, 116, 117, 118, 119, 120, 121,
            122, 123, 124, 125, 126,
        ],
    )
}

impl ByteChunk for Widest {
    ghost SIZE = { 64 };

    ghost MAX_ACC = { 255 };

    ghost lanes = { λ chunk. chunk.0 };

    const SIZE: usize = 64;

    const MAX_ACC: usize = 255;

    fn load(bytes: &[u8]) -> Self {
        Widest(Simd::from_slice(bytes))
    }

    fn zero() -> Self {
        Widest(Simd::splat(0))
    }

    fn splat(n: u8) -> Self {
        Widest(Simd::splat(n))
    }

    fn is_zero(&self) -> bool {
        vectors::is_zero(self.0)
    }

    fn shift_back_lex(&self, n: usize) -> Self {
        Widest(move_to_front(self.0, n))
    }

    fn shift_across(&self, n: Self) -> Self {
        Widest(start_one_before(self.0, n.0))
    }

    fn shr(&self, n: usize) -> Self {
        Widest(vectors::shr(self.0, n))
    }

    fn cmp_eq_byte(&self, byte: u8) -> Self {
        Widest(vectors::cmp_eq_byte(self.0, byte))
    }

    fn bytes_between_127(&self, a: u8, b: u8) -> Self {
        Widest(vectors::bytes_between_127(self.0, a, b))
    }

    fn bitand(&self, other: Self) -> Self {
        Widest(self.0 & other.0)
    }

    fn add(&self, other: Self) -> Self {
        Widest(vectors::add(self.0, other.0))
    }

    fn sub(&self, other: Self) -> Self {
        Widest(vectors::sub(self.0, other.0))
    }

    fn inc_nth_from_end_lex_byte(&self, n: usize) -> Self {
        Widest(vectors::inc_lane(self.0, 63 - n))
    }

    fn dec_last_lex_byte(&self) -> Self {
        Widest(vectors::dec_lane(self.0, 63))
    }

    fn sum_bytes(&self) -> usize {
        vectors::sum_bytes(self.0)
    }

    ghost lawful = { record { least = lit≤ tt; most = lit≤ tt; room = lit≤ tt; fits = lit≤ tt } };
}

impl Utf8Chunk for Widest {}

fn lanes_are(rt: &impl Abort, chunk: Widest, lanes: &[u8; 64]) {
    let found = chunk.0.to_array();
    assert!(rt; found == *lanes, "{found:?}");
}

const LETTERS: &[u8; 64] = b"abcdefghijklmnopqrstuvwxyz0123456789ABCDEFGHIJKLMNOPQRSTUVWXYZ+-";

const UPPER_HALVES: [u8; 64] = [
    6, 6, 6, 6, 6, 6, 6, 6, 6, 6, 6, 6, 6, 6, 6, 7, 7, 7, 7, 7, 7, 7, 7, 7, 7, 7, 3, 3, 3, 3, 3, 3,
    3, 3, 3, 3, 4, 4, 4, 4, 4, 4, 4, 4, 4, 4, 4, 4, 4, 4, 4, 5, 5, 5, 5, 5, 5, 5, 5, 5, 5, 5, 2, 2,
];

const NO_DIGIT: &[u8; 64] = b"/a.b:c-d/a.b:c-d/a.b:c-d/a.b:c-d/a.b:c-d/a.b:c-d/a.b:c-d/a.b:c-d";

const ONE_DIGIT: &[u8; 64] = b"/a.b:c-d/a.b:c-d/a.b:c-d/a.b:c-d/a.b:c-d/a.b:c-d/a.b:c-d/a.b:c-9";

#[test]
fn generic_code_calls_each_method_of_the_widest_vector(rt: HostRuntime) {
    let accented =
        "a\u{e9}\u{305b}bcdefghijklmnopqrstuvwxyz0123456789ABCDEFGHIJKLMNOPQRSTUVWXYZ+-".as_bytes();
    let numbers = numbers_of::<Widest>(accented, LETTERS, 255);
    numbers_are(&rt, numbers, [3, 0, 64, 16320]);
    assert!(rt; has_digit::<Widest>(ONE_DIGIT));
    assert!(rt; !has_digit::<Widest>(NO_DIGIT));
    let (third, before, halves, threes) = chunks_of::<Widest>(LETTERS, LETTERS);
    lanes_are(
        &rt,
        third,
        b"cdefghijklmnopqrstuvwxyz0123456789ABCDEFGHIJKLMNOPQRSTUVWXYZ+-\0\0",
    );
    lanes_are(
        &rt,
        before,
        b"-abcdefghijklmnopqrstuvwxyz0123456789ABCDEFGHIJKLMNOPQRSTUVWXYZ+",
    );
    lanes_are(&rt, halves, &UPPER_HALVES);
    let mut threes_with_a_step = [3; 64];
    threes_with_a_step[62] = 4;
    threes_with_a_step[63] = 2;
    lanes_are(&rt, threes, &threes_with_a_step);
}
