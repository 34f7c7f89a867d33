//! The probe: a text that counts how it is read.
ghost use Rattle.std.specs.Prelude.{◌≡◌, ◌+◌, ◌<◌, ◌≤◌, length, slice_index, take, drop, min};
ghost use Rattle.std.specs.Str.{IsUtf8};

use crate::ByteChunk;
use crate::counters::Counter;
use std::marker::{Model, PhantomData};

/// A text that lends its bytes one by one, and chunks of the type `T` alone, and counts what it lends.
///
/// A probe has the size of the `&str` that it reads: only contracts see its counters. It is neither `Copy` nor
/// `Clone`, and hands out no text, so nothing is read past it.
#[derive(Drop)]
pub struct Probe<'a, T> {
    text: &'a str,
    turns: Counter,
    loads: Counter,
    peeks: Counter,
    low: Counter,
    chunk: PhantomData<T>,
}

impl<'a, T> Model for Probe<'a, T> {
    ghost use Rattle.byte_chunk.specs.ProbeState.{ProbeState};

    ghost Value = { ProbeState };

    ghost view = { λ p. record { text = p.text.now; turns = p.turns; loads = p.loads; peeks = p.peeks; low = p.low } };
}

impl<'a, T: ByteChunk> Probe<'a, T> {
    ghost use Rattle.byte_chunk.specs.ProbeState.{ProbeState};

    /// Makes a probe of the text, with nothing read yet.
    pub fn of(text: &'a str) -> Probe<'a, T>
        ensures state { result ≡
            record { text = text.entry.now; turns = 0; loads = 0; peeks = 0; low = length text.entry.now } }
        ensures utf8 { IsUtf8 text.entry.now }
    {
        let mut low = Counter::zero();
        low.place(text.as_bytes().len());
        Probe {
            text,
            turns: Counter::zero(),
            loads: Counter::zero(),
            peeks: Counter::zero(),
            low,
            chunk: PhantomData,
        }
    }

    /// Returns how many bytes the text has. No read is counted.
    pub fn len(&self) -> usize
        ensures len { result ≡ length self.now.text }
        ensures utf8 { IsUtf8 self.now.text }
    {
        self.text.as_bytes().len()
    }

    /// Reads the byte at `i`, and counts one turn.
    pub fn turn(&mut self, i: usize) -> u8
        requires { i < length self.old.text }
        ensures byte { result ≡ slice_index self.old.text i }
        ensures state { self.new ≡ record self.old { turns = self.old.turns + 1 } }
    {
        self.turns.tick();
        self.text.as_bytes()[i]
    }

    /// Reads the byte at `i`, and counts one peek.
    pub fn peek(&mut self, i: usize) -> u8
        requires { i < length self.old.text }
        ensures byte { result ≡ slice_index self.old.text i }
        ensures state { self.new ≡ record self.old { peeks = self.old.peeks + 1 } }
    {
        self.peeks.tick();
        self.text.as_bytes()[i]
    }

    /// Reads the chunk of the bytes from `at` on, and counts one load.
    pub fn load(&mut self, at: usize) -> T
        requires { at + T.SIZE ≤ length self.old.text }
        ensures lanes { T.lanes result ≡ take T.SIZE (drop at self.old.text) }
        ensures state { self.new ≡ record self.old { loads = self.old.loads + 1; low = min self.old.low at } }
    {
        self.loads.tick();
        self.low.lower(at);
        T::load(&self.text.as_bytes()[at..at + T::SIZE])
    }
}
