//! The probe of bytes: bytes that count how they are read.
ghost use Rattle.std.specs.Prelude.{◌≡◌, ℕ, ◌+◌, ◌<◌, ◌≤◌, length, slice_index, take, drop, min};

use crate::ByteChunk;
use crate::counters::Counter;
use std::marker::{Model, PhantomData};

/// Bytes, of a text or not, that are lent one by one, or as chunks of the type `T` alone, and count what they lend.
///
/// A probe has the size of the slice that it reads: only contracts see its counters. It is neither `Copy` nor
/// `Clone`, and hands out no bytes, so nothing is read past it.
#[derive(Drop)]
pub struct ByteProbe<'a, T> {
    bytes: &'a [u8],
    turns: Counter,
    loads: Counter,
    peeks: Counter,
    low: Counter,
    chunk: PhantomData<T>,
}

impl<'a, T> Model for ByteProbe<'a, T> {
    ghost use Rattle.std.specs.Prelude.{ℕ, ◌<◌, slice_index};
    ghost use Rattle.byte_chunk.specs.ProbeState.{ProbeState};

    ghost Value = { ProbeState };

    ghost invariant = { λ p. (i : ℕ) → slice_index p.bytes.now i < 256 };

    ghost view = { λ p. record { text = p.bytes.now; turns = p.turns; loads = p.loads; peeks = p.peeks; low = p.low } };
}

impl<'a, T: ByteChunk> ByteProbe<'a, T> {
    ghost use Rattle.byte_chunk.specs.ProbeState.{ProbeState};

    /// Makes a probe of the bytes, with nothing read yet.
    pub fn of(bytes: &'a [u8]) -> ByteProbe<'a, T>
        ensures state { result ≡
            record { text = bytes.entry.now; turns = 0; loads = 0; peeks = 0; low = length bytes.entry.now } }
    {
        let mut low = Counter::zero();
        low.place(bytes.len());
        ByteProbe {
            bytes,
            turns: Counter::zero(),
            loads: Counter::zero(),
            peeks: Counter::zero(),
            low,
            chunk: PhantomData,
        }
    }

    /// Returns how many bytes there are. No read is counted.
    pub fn len(&self) -> usize
        ensures len { result ≡ length self.now.text }
        ensures bytes { (i : ℕ) → slice_index self.now.text i < 256 }
    {
        self.bytes.len()
    }

    /// Reads the byte at `i`, and counts one turn.
    pub fn turn(&mut self, i: usize) -> u8
        requires { i < length self.old.text }
        ensures byte { result ≡ slice_index self.old.text i }
        ensures state { self.new ≡ record self.old { turns = self.old.turns + 1 } }
    {
        self.turns.tick();
        self.bytes[i]
    }

    /// Reads the byte at `i`, and counts one peek.
    pub fn peek(&mut self, i: usize) -> u8
        requires { i < length self.old.text }
        ensures byte { result ≡ slice_index self.old.text i }
        ensures state { self.new ≡ record self.old { peeks = self.old.peeks + 1 } }
    {
        self.peeks.tick();
        self.bytes[i]
    }

    /// Reads the chunk of the bytes from `at` on, and counts one load.
    pub fn load(&mut self, at: usize) -> T
        requires { at + T.SIZE ≤ length self.old.text }
        ensures lanes { T.lanes result ≡ take T.SIZE (drop at self.old.text) }
        ensures state { self.new ≡ record self.old { loads = self.old.loads + 1; low = min self.old.low at } }
    {
        self.loads.tick();
        self.low.lower(at);
        T::load(&self.bytes[at..at + T::SIZE])
    }
}
