//! The five schemes as values, for a caller that chooses one at run time.
ghost use Rattle.std.specs.Prelude.{◌≡◌, ◌≤◌, IsCharBoundary, chars, length, min};
ghost use Rattle.str_indices.specs.Prelude.{count, cut, from_byte_idx, to_byte_idx, IsBoundary, IsCountingPass, IsFindingPass};

use crate::{chars, lines, lines_crlf, lines_lf, utf16};
use byte_chunk::{ByteChunk, Probe};

/// An indexing scheme: one of the five modules.
#[derive(Clone, Copy, PartialEq, Eq, Debug)]
pub enum Scheme {
    /// Chars, the Unicode scalar values, as `chars` counts them.
    Chars,
    /// UTF-16 code units, as `utf16`.
    Utf16,
    /// Line breaks by LF alone, as `lines_lf`.
    Lf,
    /// Line breaks by LF, CR and CRLF, as `lines_crlf`.
    Crlf,
    /// Line breaks by all of the Rust crate's list, as `lines`.
    Lines,
}

impl Scheme {
    /// Every scheme, in the order of its declaration.
    pub const ALL: [Scheme; 5] = [
        Scheme::Chars,
        Scheme::Utf16,
        Scheme::Lf,
        Scheme::Crlf,
        Scheme::Lines,
    ];

    /// Counts the chars, UTF-16 code units or line breaks of the text.
    pub fn count(self, text: &str) -> usize
        ensures { result ≡ count self (chars text.now) }
    {
        match self {
            Scheme::Chars => chars::count(text),
            Scheme::Utf16 => utf16::count(text),
            Scheme::Lf => lines_lf::count_breaks(text),
            Scheme::Crlf => lines_crlf::count_breaks(text),
            Scheme::Lines => lines::count_breaks(text),
        }
    }

    /// Converts a byte index to an index of the scheme: how many chars, UTF-16 code units or line breaks end at or
    /// before it. A byte index past the end gives the count of the text.
    pub fn from_byte_idx(self, text: &str, byte_idx: usize) -> usize
        ensures { result ≡ from_byte_idx self (chars text.now) byte_idx }
    {
        match self {
            Scheme::Chars => chars::from_byte_idx(text, byte_idx),
            Scheme::Utf16 => utf16::from_byte_idx(text, byte_idx),
            Scheme::Lf => lines_lf::from_byte_idx(text, byte_idx),
            Scheme::Crlf => lines_crlf::from_byte_idx(text, byte_idx),
            Scheme::Lines => lines::from_byte_idx(text, byte_idx),
        }
    }

    /// Converts an index of the scheme to the byte index where its char, its unit's char or its line begins. An index
    /// past the last gives the length of the text in bytes. The text may be sliced at the answer.
    pub fn to_byte_idx(self, text: &str, idx: usize) -> usize
        ensures answer { result ≡ to_byte_idx self (chars text.now) idx }
        ensures boundary { IsCharBoundary text.now result }
    {
        match self {
            Scheme::Chars => chars::to_byte_idx(text, idx),
            Scheme::Utf16 => utf16::to_byte_idx(text, idx),
            Scheme::Lf => lines_lf::to_byte_idx(text, idx),
            Scheme::Crlf => lines_crlf::to_byte_idx(text, idx),
            Scheme::Lines => lines::to_byte_idx(text, idx),
        }
    }

    /// Counts by the scheme's kernel, before the boundary `end`.
    ///
    /// `lead` bytes, or as many of them as stand before `end`, are walked one by one before the first chunk.
    #[inline(always)]
    pub fn count_impl<T: ByteChunk>(
        self,
        probe: &mut Probe<'_, T>,
        end: usize,
        lead: usize,
    ) -> usize
        requires within { end ≤ length probe.old.text }
        requires boundary { IsBoundary (chars probe.old.text) end }
        ensures count { result ≡ count self (cut (chars probe.old.text) end) }
        ensures text { probe.new.text ≡ probe.old.text }
        ensures pass { IsCountingPass probe.old probe.new T.SIZE lead end 0 }
    {
        match self {
            Scheme::Chars => chars::count_impl(probe, end, lead),
            Scheme::Utf16 => utf16::count_impl(probe, end, lead),
            Scheme::Lf => lines_lf::count_breaks_impl(probe, end, lead),
            Scheme::Crlf => lines_crlf::count_breaks_impl(probe, end, lead),
            Scheme::Lines => lines::count_breaks_impl(probe, end, lead),
        }
    }

    /// Converts a byte index by the scheme's kernel, as [`Scheme::from_byte_idx`].
    ///
    /// `lead` bytes, or as many of them as the pass covers, are walked one by one before the first chunk.
    #[inline(always)]
    pub fn from_byte_idx_impl<T: ByteChunk>(
        self,
        probe: &mut Probe<'_, T>,
        byte_idx: usize,
        lead: usize,
    ) -> usize
        ensures answer { result ≡ from_byte_idx self (chars probe.old.text) byte_idx }
        ensures text { probe.new.text ≡ probe.old.text }
        ensures pass { IsCountingPass probe.old probe.new T.SIZE lead (min byte_idx (length probe.old.text)) 3 }
    {
        match self {
            Scheme::Chars => chars::from_byte_idx_impl(probe, byte_idx, lead),
            Scheme::Utf16 => utf16::from_byte_idx_impl(probe, byte_idx, lead),
            Scheme::Lf => lines_lf::from_byte_idx_impl(probe, byte_idx, lead),
            Scheme::Crlf => lines_crlf::from_byte_idx_impl(probe, byte_idx, lead),
            Scheme::Lines => lines::from_byte_idx_impl(probe, byte_idx, lead),
        }
    }

    /// Converts an index of the scheme by its kernel, as [`Scheme::to_byte_idx`].
    ///
    /// `lead` bytes, or as many of them as the text has, are walked one by one before the first chunk.
    #[inline(always)]
    pub fn to_byte_idx_impl<T: ByteChunk>(
        self,
        probe: &mut Probe<'_, T>,
        idx: usize,
        lead: usize,
    ) -> usize
        ensures answer { result ≡ to_byte_idx self (chars probe.old.text) idx }
        ensures boundary { IsCharBoundary probe.old.text result }
        ensures text { probe.new.text ≡ probe.old.text }
        ensures pass { IsFindingPass probe.old probe.new T.SIZE lead (length probe.old.text) result 3 }
    {
        match self {
            Scheme::Chars => chars::to_byte_idx_impl(probe, idx, lead),
            Scheme::Utf16 => utf16::to_byte_idx_impl(probe, idx, lead),
            Scheme::Lf => lines_lf::to_byte_idx_impl(probe, idx, lead),
            Scheme::Crlf => lines_crlf::to_byte_idx_impl(probe, idx, lead),
            Scheme::Lines => lines::to_byte_idx_impl(probe, idx, lead),
        }
    }
}
