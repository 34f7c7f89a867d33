//! Queries that use a text's summary to pick a cheaper way: in ASCII, bytes; with no break but LF, the scheme `Lf`.
ghost use Rattle.std.specs.Prelude.{◌≡◌, ◌↔◌, IsTrue, chars};
ghost use Rattle.str_indices.specs.Relations.{IsBoundary};
ghost use Rattle.str_indices.specs.Schemes.{from_byte_idx, to_byte_idx};
ghost use Rattle.str_indices.specs.Text.{Text};
ghost use Rattle.text_summary.specs.Queries.{IsWay};
ghost use Rattle.text_summary.specs.Summaries.{summary_of};

use crate::{Scheme, Summary};

/// A way to answer queries in a scheme.
#[derive(Clone, Copy)]
enum Way {
    /// Each byte counts one, so no byte is read.
    Bytes,
    /// By this scheme, which answers the same.
    By(Scheme),
}

impl Summary {
    /// Counts the chars, UTF-16 code units or line breaks of the text of this summary up to a byte index; past the end,
    /// all. For chars and units it reads none of an ASCII text, and if all breaks are LFs it looks for LF alone.
    pub fn from_byte_idx(&self, s: Scheme, text: &str, byte_idx: usize) -> usize
        requires { self.now ≡ summary_of (chars text.now) }
        ensures { result ≡ from_byte_idx s (chars text.now) byte_idx }
    {
        match self.way(s) {
            Way::Bytes => byte_idx.min(self.len),
            Way::By(same) => same.from_byte_idx(text, byte_idx),
        }
    }

    /// Converts an index of scheme `s` to a byte index in the text of this summary; the text's length if the text has
    /// fewer. It reads as little as `from_byte_idx`.
    pub fn to_byte_idx(&self, s: Scheme, text: &str, idx: usize) -> usize
        requires { self.now ≡ summary_of (chars text.now) }
        ensures { result ≡ to_byte_idx s (chars text.now) idx }
    {
        match self.way(s) {
            Way::Bytes => idx.min(self.len),
            Way::By(same) => same.to_byte_idx(text, idx),
        }
    }

    /// Whether a byte index in the text of this summary is between chars, or at its beginning or end. It reads no byte
    /// of an ASCII text.
    pub fn is_char_boundary(&self, text: &str, byte_idx: usize) -> bool
        requires { self.now ≡ summary_of (chars text.now) }
        ensures { IsTrue result ↔ IsBoundary (chars text.now) byte_idx }
    {
        if self.chars == self.len {
            byte_idx <= self.len
        } else {
            text.is_char_boundary(byte_idx)
        }
    }

    /// Picks a way to answer for scheme `s`.
    fn way(&self, s: Scheme) -> Way
        ensures { (t : Text) → self.now ≡ summary_of t → IsWay t s result }
    {
        match s {
            Scheme::Chars if self.chars == self.len => Way::Bytes,
            Scheme::Utf16 if self.chars == self.len => Way::Bytes,
            Scheme::Utf16 if self.utf16 == self.chars => Way::By(Scheme::Chars),
            Scheme::Crlf if self.crlf == self.lf => Way::By(Scheme::Lf),
            Scheme::Lines if self.lines == self.lf => Way::By(Scheme::Lf),
            Scheme::Lines if self.lines == self.crlf => Way::By(Scheme::Crlf),
            _ => Way::By(s),
        }
    }
}
