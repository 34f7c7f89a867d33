//! The machine word as a chunk: eight lanes in one number.
ghost use Rattle.std.proofs.Common.{lit≤};
ghost use Rattle.byte_chunk.specs.Lanes.{word_lanes};

use crate::ByteChunk;

/// 1 in each lane.
const ONES: usize = 0x0101_0101_0101_0101;

/// The lower seven bits of each lane.
const LOW: usize = 0x7F7F_7F7F_7F7F_7F7F;

/// The top bit of each lane.
const HIGH: usize = 0x8080_8080_8080_8080;

impl ByteChunk for usize {
    ghost SIZE = { 8 };

    ghost MAX_ACC = { 31 };

    ghost lanes = { λ word. word_lanes 8 word };

    const SIZE: usize = 8;

    const MAX_ACC: usize = 31;

    fn load(bytes: &[u8]) -> Self {
        usize::from_le_bytes([
            bytes[0], bytes[1], bytes[2], bytes[3], bytes[4], bytes[5], bytes[6], bytes[7],
        ])
    }

    #[tactic(auto, using(crate::proofs::lemmas::Words::word_zero))]
    fn zero() -> Self {
        0
    }

    #[tactic(auto, using(crate::proofs::lemmas::Words::word_splat))]
    fn splat(n: u8) -> Self {
        usize::from(n) * ONES
    }

    #[tactic(auto, using(crate::proofs::lemmas::Words::word_zero, crate::proofs::lemmas::Words::word_is_zero))]
    fn is_zero(&self) -> bool {
        *self == 0
    }

    #[tactic(auto, using(crate::proofs::lemmas::Words::word_shift_back))]
    fn shift_back_lex(&self, n: usize) -> Self {
        *self >> (8 * n)
    }

    #[tactic(auto, using(crate::proofs::lemmas::Words::word_across, std::proofs::lemmas::Nat::or_comm))]
    fn shift_across(&self, n: Self) -> Self {
        (n << 8) | (*self >> 56)
    }

    fn shr(&self, n: usize) -> Self {
        *self >> n
    }

    #[tactic(auto, using(crate::proofs::lemmas::Words::word_is_byte))]
    fn cmp_eq_byte(&self, byte: u8) -> Self {
        // 0 in each lane that is the byte.
        let word = *self ^ (usize::from(byte) * ONES);
        (!(((word & LOW) + LOW) | word) & HIGH) >> 7
    }

    #[tactic(auto, using(crate::proofs::lemmas::Words::word_is_between))]
    fn bytes_between_127(&self, a: u8, b: u8) -> Self {
        let low = *self & LOW;
        let below = usize::from(127 + b) * ONES - low;
        let above = low + usize::from(127 - a) * ONES;
        (below & !*self & above & HIGH) >> 7
    }

    #[tactic(auto, using(crate::proofs::lemmas::Words::word_and, std::proofs::lemmas::Nat::and_comm))]
    fn bitand(&self, other: Self) -> Self {
        *self & other
    }

    #[tactic(auto, using(crate::proofs::lemmas::Words::word_add, crate::proofs::lemmas::Words::word_add_fits))]
    fn add(&self, other: Self) -> Self {
        *self + other
    }

    #[tactic(auto, using(crate::proofs::lemmas::Words::word_sub, crate::proofs::lemmas::Words::word_sub_fits))]
    fn sub(&self, other: Self) -> Self {
        *self - other
    }

    fn inc_nth_from_end_lex_byte(&self, n: usize) -> Self {
        *self + (1 << (8 * (7 - n)))
    }

    #[tactic(auto, using(crate::proofs::lemmas::Words::word_dec_fits))]
    fn dec_last_lex_byte(&self) -> Self {
        *self - (1 << 56)
    }

    fn sum_bytes(&self) -> usize {
        self.wrapping_mul(ONES) >> 56
    }

    ghost lawful = { record { least = lit≤ tt; most = lit≤ tt; room = lit≤ tt; fits = lit≤ tt } };
}
