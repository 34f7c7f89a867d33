//! Four lanes in a number of 32 bits: how a chunk type is added.
ghost use Rattle.std.specs.Prelude.{◌≡◌};
ghost use Rattle.std.proofs.Common.{lit≤};
ghost use Rattle.byte_chunk.specs.Lanes.{word_lanes};

use byte_chunk::ByteChunk;
use str_indices::Utf8Chunk;

/// 1 in each lane.
const ONES: u32 = 0x0101_0101;

/// The lower seven bits of each lane.
const LOW: u32 = 0x7F7F_7F7F;

/// The top bit of each lane.
const HIGH: u32 = 0x8080_8080;

/// Four bytes in a number, the lowest first.
#[derive(Clone, Copy)]
pub struct HalfWord(pub u32);

impl HalfWord {
    // A proof knows the range of a number that a call returns, and not of one behind a reference.
    fn number(self) -> u32
        ensures { result ≡ self.0 }
    {
        self.0
    }
}

impl ByteChunk for HalfWord {
    ghost SIZE = { 4 };

    ghost MAX_ACC = { 63 };

    ghost lanes = { λ chunk. word_lanes 4 chunk.0 };

    const SIZE: usize = 4;

    const MAX_ACC: usize = 63;

    fn load(bytes: &[u8]) -> Self {
        HalfWord(u32::from_le_bytes([bytes[0], bytes[1], bytes[2], bytes[3]]))
    }

    #[tactic(auto, using(byte_chunk::proofs::lemmas::Callers::word_zero))]
    fn zero() -> Self {
        HalfWord(0)
    }

    #[tactic(auto, using(byte_chunk::proofs::lemmas::Callers::word_splat))]
    fn splat(n: u8) -> Self {
        HalfWord(u32::from(n) * ONES)
    }

    #[tactic(auto, using(byte_chunk::proofs::lemmas::Callers::word_zero, byte_chunk::proofs::lemmas::Callers::word_is_zero))]
    fn is_zero(&self) -> bool {
        self.0 == 0
    }

    #[tactic(auto, using(byte_chunk::proofs::lemmas::Callers::word_shift_back))]
    fn shift_back_lex(&self, n: usize) -> Self {
        HalfWord(self.0 >> (8 * n))
    }

    #[tactic(auto, using(byte_chunk::proofs::lemmas::Callers::word_across))]
    fn shift_across(&self, n: Self) -> Self {
        HalfWord((n.0 << 8) | (self.number() >> 24))
    }

    fn shr(&self, n: usize) -> Self {
        HalfWord(self.0 >> n)
    }

    #[tactic(auto, using(byte_chunk::proofs::lemmas::Callers::word_is_byte))]
    fn cmp_eq_byte(&self, byte: u8) -> Self {
        let word = self.0 ^ (u32::from(byte) * ONES);
        HalfWord((!(((word & LOW) + LOW) | word) & HIGH) >> 7)
    }

    #[tactic(auto, using(byte_chunk::proofs::lemmas::Callers::word_is_between))]
    fn bytes_between_127(&self, a: u8, b: u8) -> Self {
        let low = self.0 & LOW;
        let below = u32::from(127 + b) * ONES - low;
        let above = low + u32::from(127 - a) * ONES;
        HalfWord((below & !self.0 & above & HIGH) >> 7)
    }

    #[tactic(auto, using(byte_chunk::proofs::lemmas::Callers::word_and))]
    fn bitand(&self, other: Self) -> Self {
        HalfWord(self.0 & other.0)
    }

    #[tactic(auto, using(byte_chunk::proofs::lemmas::Callers::word_add, byte_chunk::proofs::lemmas::Callers::word_add_fits))]
    fn add(&self, other: Self) -> Self {
        HalfWord(self.0 + other.0)
    }

    #[tactic(auto, using(byte_chunk::proofs::lemmas::Callers::word_sub, byte_chunk::proofs::lemmas::Callers::word_sub_fits))]
    fn sub(&self, other: Self) -> Self {
        HalfWord(self.0 - other.0)
    }

    fn inc_nth_from_end_lex_byte(&self, n: usize) -> Self {
        HalfWord(self.0 + (1 << (8 * (3 - n))))
    }

    #[tactic(auto, using(byte_chunk::proofs::lemmas::Callers::word_dec_fits))]
    fn dec_last_lex_byte(&self) -> Self {
        HalfWord(self.0 - (1 << 24))
    }

    fn sum_bytes(&self) -> usize {
        (self.0.wrapping_mul(ONES) >> 24) as usize
    }

    ghost lawful = { record { least = lit≤ tt; most = lit≤ tt; room = lit≤ tt; fits = lit≤ tt } };
}

impl Utf8Chunk for HalfWord {}
