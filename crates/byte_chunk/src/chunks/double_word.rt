//! Two machine words in one number as a chunk: sixteen lanes in 128 bits, by the formulas of the word.
ghost use Rattle.std.proofs.Common.{lit≤};
ghost use Rattle.byte_chunk.specs.Lanes.{word_lanes};

use crate::ByteChunk;

/// 1 in each lane.
const ONES: u128 = 0x0101_0101_0101_0101_0101_0101_0101_0101;

/// The lower seven bits of each lane.
const LOW: u128 = 0x7F7F_7F7F_7F7F_7F7F_7F7F_7F7F_7F7F_7F7F;

/// The top bit of each lane.
const HIGH: u128 = 0x8080_8080_8080_8080_8080_8080_8080_8080;

impl ByteChunk for u128 {
    ghost SIZE = { 16 };

    ghost MAX_ACC = { 15 };

    ghost lanes = { λ word. word_lanes 16 word };

    const SIZE: usize = 16;

    // The sum of all lanes is made in one lane: sixteen times 15 is 240.
    const MAX_ACC: usize = 15;

    fn load(bytes: &[u8]) -> Self {
        u128::from_le_bytes([
            bytes[0], bytes[1], bytes[2], bytes[3], bytes[4], bytes[5], bytes[6], bytes[7],
            bytes[8], bytes[9], bytes[10], bytes[11], bytes[12], bytes[13], bytes[14], bytes[15],
        ])
    }

    #[tactic(auto, using(crate::proofs::lemmas::Words::word_zero))]
    fn zero() -> Self {
        0
    }

    #[tactic(auto, using(crate::proofs::lemmas::Words::word_splat))]
    fn splat(n: u8) -> Self {
        u128::from(n) * ONES
    }

    #[tactic(auto, using(crate::proofs::lemmas::Words::word_zero, crate::proofs::lemmas::Words::word_is_zero))]
    fn is_zero(&self) -> bool {
        *self == 0
    }

    #[tactic(auto, using(crate::proofs::lemmas::Words::word_shift_back))]
    fn shift_back_lex(&self, n: usize) -> Self {
        *self >> (8 * n)
    }

    #[tactic(auto, using(crate::proofs::lemmas::Words::word_across, std::proofs::lemmas::Nat::or_comm))]
    fn shift_across(&self, n: Self) -> Self {
        (n << 8) | (*self >> 120)
    }

    fn shr(&self, n: usize) -> Self {
        *self >> n
    }

    #[tactic(auto, using(crate::proofs::lemmas::Words::word_is_byte))]
    fn cmp_eq_byte(&self, byte: u8) -> Self {
        // 0 in each lane that is the byte.
        let word = *self ^ (u128::from(byte) * ONES);
        (!(((word & LOW) + LOW) | word) & HIGH) >> 7
    }

    #[tactic(auto, using(crate::proofs::lemmas::Words::word_is_between))]
    fn bytes_between_127(&self, a: u8, b: u8) -> Self {
        let low = *self & LOW;
        let below = u128::from(127 + b) * ONES - low;
        let above = low + u128::from(127 - a) * ONES;
        (below & !*self & above & HIGH) >> 7
    }

    #[tactic(auto, using(crate::proofs::lemmas::Words::word_and, std::proofs::lemmas::Nat::and_comm))]
    fn bitand(&self, other: Self) -> Self {
        *self & other
    }

    #[tactic(auto, using(crate::proofs::lemmas::Words::word_add, crate::proofs::lemmas::Words::word_add_fits))]
    fn add(&self, other: Self) -> Self {
        *self + other
    }

    #[tactic(auto, using(crate::proofs::lemmas::Words::word_sub, crate::proofs::lemmas::Words::word_sub_fits))]
    fn sub(&self, other: Self) -> Self {
        *self - other
    }

    fn inc_nth_from_end_lex_byte(&self, n: usize) -> Self {
        *self + (1 << (8 * (15 - n)))
    }

    #[tactic(auto, using(crate::proofs::lemmas::Words::word_dec_fits))]
    fn dec_last_lex_byte(&self) -> Self {
        *self - (1 << 120)
    }

    fn sum_bytes(&self) -> usize {
        (self.wrapping_mul(ONES) >> 120) as usize
    }

    ghost lawful = { record { least = lit≤ tt; most = lit≤ tt; room = lit≤ tt; fits = lit≤ tt } };
}
