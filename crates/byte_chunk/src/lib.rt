//! Blocks of bytes that are handled lane by lane, and the probe through which generic code sees a text.
//!
//! A contract sees a chunk as the list of its lanes. Whoever adds a chunk type implements [`ByteChunk`] and
//! proves each call against that list; code that is generic over the trait then holds for it unchanged.
#![tactic(auto)]

ghost use Rattle.std.specs.Prelude.{◌≡◌, ℕ, ◌+◌, ◌-◌, ◌/◌, ◌%◌, ◌^◌, ◌<◌, ◌≤◌, ◌↔◌, ◌++◌, List, IsTrue, length, take, drop, map, sum, replicate, bit_and, slice_index, slice_set};
ghost use Rattle.std.specs.Simd.Lanes.{zip2, Each1, Each2};
ghost use Rattle.byte_chunk.specs.Lanes.{is_byte, is_between, IsLawful};

mod byte_probe;
mod chunks;
mod counters;
mod text_probe;
pub mod vectors;

pub use byte_probe::ByteProbe;
pub use chunks::plain_array::Plain;
pub use counters::Counter;
pub use text_probe::Probe;

/// The chunk type that the public functions of the crates above use.
pub type Chunk = std::simd::Simd<u8, 16>;

/// A block of `SIZE` bytes, called its lanes, in the order of the text.
pub trait ByteChunk: Copy + Clone {
    ghost SIZE: { ℕ };

    ghost MAX_ACC: { ℕ };

    ghost lanes: { Self → List ℕ };

    /// How many lanes a chunk has.
    const SIZE: usize;

    /// The greatest lane that `sum_bytes` sums.
    const MAX_ACC: usize;

    /// Loads the first `SIZE` bytes of `bytes`, each into its lane.
    fn load(bytes: &[u8]) -> Self
        requires { SIZE ≤ length bytes.now }
        ensures { lanes result ≡ take SIZE bytes.now };

    /// Makes a chunk with all lanes 0.
    fn zero() -> Self
        ensures { lanes result ≡ replicate SIZE 0 };

    /// Makes a chunk with all lanes `n`.
    fn splat(n: u8) -> Self
        ensures { lanes result ≡ replicate SIZE n };

    /// Whether all lanes are 0.
    fn is_zero(&self) -> bool
        ensures { IsTrue result ↔ (lanes self.now ≡ replicate SIZE 0) };

    /// Moves the lanes from lane `n` on to the front, and adds `n` lanes 0 at the end. `n` is at most 4, and less than
    /// `SIZE`.
    fn shift_back_lex(&self, n: usize) -> Self
        requires few { n ≤ 4 }
        requires in_range { n < SIZE }
        ensures { lanes result ≡ drop n (lanes self.now) ++ replicate n 0 };

    /// Returns the last lane of `self`, and then all lanes of `n` but its last: if `n` follows `self` in a text, that
    /// is the chunk that starts one byte before `n`.
    fn shift_across(&self, n: Self) -> Self
        ensures { lanes result ≡ drop (SIZE - 1) (lanes self.now) ++ take (SIZE - 1) (lanes n) };

    /// Shifts each lane right by `n` bits, at most 4. Only the low `8 - n` bits of a lane are specified: mask the upper
    /// `n` before use.
    fn shr(&self, n: usize) -> Self
        requires { n ≤ 4 }
        ensures { map (λ lane. lane % 2 ^ (8 - n)) (lanes result)
            ≡ map (λ lane. lane / 2 ^ n) (lanes self.now) };

    /// Returns 1 in each lane that is `byte`, and 0 in the others.
    fn cmp_eq_byte(&self, byte: u8) -> Self
        ensures { lanes result ≡ map (is_byte byte) (lanes self.now) };

    /// Returns 1 in each lane above `a` and below `b`, and 0 in the others. The lanes may be any bytes; `a` is below
    /// `b`, and `b` at most 127.
    fn bytes_between_127(&self, a: u8, b: u8) -> Self
        requires ordered { a < b }
        requires ascii { b ≤ 127 }
        ensures { lanes result ≡ map (is_between a b) (lanes self.now) };

    /// Returns the bits that are set in both, lane by lane.
    fn bitand(&self, other: Self) -> Self
        ensures { lanes result ≡ zip2 bit_and (lanes self.now) (lanes other) };

    /// Adds lane by lane. No sum may be above 255.
    fn add(&self, other: Self) -> Self
        requires { Each2 (λ a b. a + b ≤ 255) (lanes self.now) (lanes other) }
        ensures { lanes result ≡ zip2 (λ a b. a + b) (lanes self.now) (lanes other) };

    /// Subtracts lane by lane. No lane of `other` may be above that of `self`.
    fn sub(&self, other: Self) -> Self
        requires { Each2 (λ a b. b ≤ a) (lanes self.now) (lanes other) }
        ensures { lanes result ≡ zip2 (λ a b. a - b) (lanes self.now) (lanes other) };

    /// Adds one to lane `SIZE - 1 - n`, which must be below 255. The other lanes stay.
    fn inc_nth_from_end_lex_byte(&self, n: usize) -> Self
        requires in_range { n < SIZE }
        requires room { slice_index (lanes self.now) (SIZE - 1 - n) < 255 }
        ensures { lanes result
            ≡ slice_set (lanes self.now) (SIZE - 1 - n) (slice_index (lanes self.now) (SIZE - 1 - n) + 1) };

    /// Subtracts one from the last lane, which must not be 0. The other lanes stay.
    fn dec_last_lex_byte(&self) -> Self
        requires { 0 < slice_index (lanes self.now) (SIZE - 1) }
        ensures { lanes result
            ≡ slice_set (lanes self.now) (SIZE - 1) (slice_index (lanes self.now) (SIZE - 1) - 1) };

    /// Returns the sum of all lanes, each at most `MAX_ACC`.
    fn sum_bytes(&self) -> usize
        requires { Each1 (λ lane. lane ≤ MAX_ACC) (lanes self.now) }
        ensures { result ≡ sum (lanes self.now) };

    ghost lawful: { IsLawful SIZE MAX_ACC };
}
