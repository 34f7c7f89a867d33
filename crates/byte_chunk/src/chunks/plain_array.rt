//! The chunk that is an array.
ghost use Rattle.std.specs.Prelude.{◌≡◌};
ghost use Rattle.std.proofs.Common.{lit≤};

use crate::ByteChunk;
use std::array;

/// Eight bytes in an array: the plainest chunk.
///
/// Lane `i` is byte `i` of the array.
#[derive(Clone, Copy)]
pub struct Plain(pub [u8; 8]);

impl ByteChunk for Plain {
    ghost SIZE = { 8 };

    ghost MAX_ACC = { 255 };

    ghost lanes = { λ chunk. chunk.0 };

    const SIZE: usize = 8;

    const MAX_ACC: usize = 255;

    fn load(bytes: &[u8]) -> Self {
        Plain(array::from_fn(|i| bytes[i]))
    }

    fn zero() -> Self {
        Plain([0; 8])
    }

    fn splat(n: u8) -> Self {
        Plain([n; 8])
    }

    fn is_zero(&self) -> bool {
        self.0 == [0; 8]
    }

    fn shift_back_lex(&self, n: usize) -> Self {
        Plain(array::from_fn(|i| if i + n < 8 { self.0[i + n] } else { 0 }))
    }

    fn shift_across(&self, n: Self) -> Self {
        Plain(array::from_fn(|i| if i == 0 { self.0[7] } else { n.0[i - 1] }))
    }

    fn shr(&self, n: usize) -> Self {
        Plain(self.0.map(|lane| lane >> n))
    }

    fn cmp_eq_byte(&self, byte: u8) -> Self {
        Plain(self.0.map(|lane| u8::from(lane == byte)))
    }

    fn bytes_between_127(&self, a: u8, b: u8) -> Self {
        Plain(self.0.map(|lane| u8::from(a < lane && lane < b)))
    }

    fn bitand(&self, other: Self) -> Self {
        Plain(array::from_fn(|i| self.0[i] & other.0[i]))
    }

    fn add(&self, other: Self) -> Self {
        Plain(array::from_fn(|i| self.0[i] + other.0[i]))
    }

    fn sub(&self, other: Self) -> Self {
        Plain(array::from_fn(|i| self.0[i] - other.0[i]))
    }

    fn inc_nth_from_end_lex_byte(&self, n: usize) -> Self {
        let mut lanes = self.0;
        lanes[7 - n] += 1;
        Plain(lanes)
    }

    fn dec_last_lex_byte(&self) -> Self {
        let mut lanes = self.0;
        lanes[7] -= 1;
        Plain(lanes)
    }

    fn sum_bytes(&self) -> usize {
        let mut total = 0;
        for lane in self.0 {
            total += usize::from(lane);
        }
        total
    }

    ghost lawful = { record { least = lit≤ tt; most = lit≤ tt; room = lit≤ tt; fits = lit≤ tt } };
}
