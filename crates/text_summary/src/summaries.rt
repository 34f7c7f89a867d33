//! The summary of a text: its length, its counts, and how it starts and ends.
ghost use Rattle.std.specs.Prelude.{◌≡◌, ◌<◌, [], ◌∷◌, chars};
ghost use Rattle.str_indices.specs.declared.Scheme.{Scheme};
ghost use Rattle.str_indices.specs.Schemes.{count};
ghost use Rattle.str_indices.specs.ByScheme.{number_of};
ghost use Rattle.str_indices.specs.Joins.{starts_with_feed, ends_in_return};

use crate::Scheme;
use str_indices::{Counts, counts};

const LF: u8 = 0x0A;

const CR: u8 = 0x0D;

/// The length and the counts of a text, and how it starts and ends.
#[derive(Clone, Copy)]
pub struct Summary {
    /// How many bytes it has.
    pub len: usize,
    /// How many chars, the Unicode scalar values.
    pub chars: usize,
    /// How many UTF-16 code units.
    pub utf16: usize,
    /// How many LFs.
    pub lf: usize,
    /// How many line breaks by LF, CR and CRLF.
    pub crlf: usize,
    /// How many line breaks by all of the Rust crate's list.
    pub lines: usize,
    /// Whether its first char is LF.
    pub starts_lf: bool,
    /// Whether its last char is CR.
    pub ends_cr: bool,
}

impl Summary {
    ghost use Rattle.text_summary.specs.Summaries.{summary_of, count_of};

    /// Summarizes a text.
    #[inline(always)]
    pub fn of(text: &str) -> Summary
        ensures { result ≡ summary_of (chars text.now) }
    {
        match text.as_bytes() {
            [] => Summary::none(),
            [byte] if *byte < 128 => Summary::of_ascii(*byte),
            _ => Summary::count_text(text),
        }
    }

    /// Summarizes one ASCII char.
    #[inline(always)]
    fn of_ascii(byte: u8) -> Summary
        requires { byte < 128 }
        ensures { result ≡ summary_of (byte ∷ []) }
    {
        Summary {
            len: 1,
            chars: 1,
            utf16: 1,
            lf: usize::from(byte == LF),
            crlf: usize::from(byte == LF || byte == CR),
            lines: usize::from(LF <= byte && byte <= CR),
            starts_lf: byte == LF,
            ends_cr: byte == CR,
        }
    }

    /// Summarizes a text by counting it in every scheme.
    #[inline(never)]
    fn count_text(text: &str) -> Summary
        ensures { result ≡ summary_of (chars text.now) }
    {
        Summary::with_counts(text, &counts(text))
    }

    /// Summarizes a text that has the counts `counts`.
    #[inline(always)]
    pub fn with_counts(text: &str, counts: &Counts) -> Summary
        requires { (s : Scheme) → number_of counts.now s ≡ count s (chars text.now) }
        ensures { result ≡ summary_of (chars text.now) }
    {
        Summary::of_each(
            text.len(),
            |s| counts.get(s),
            starts_lf(text),
            ends_cr(text),
        )
    }

    /// Makes a summary, each count by a function of its scheme.
    #[inline(always)]
    pub(crate) fn of_each<F: Fn(Scheme) -> usize>(
        len: usize,
        number: F,
        starts_lf: bool,
        ends_cr: bool,
    ) -> Summary
        requires { (s : Scheme) → F.pre number s }
        ensures len { result.len ≡ len }
        ensures counts { (s : Scheme) → F.post number s (count_of result s) }
        ensures starts { result.starts_lf ≡ starts_lf }
        ensures ends { result.ends_cr ≡ ends_cr }
    {
        Summary {
            len,
            chars: number(Scheme::Chars),
            utf16: number(Scheme::Utf16),
            lf: number(Scheme::Lf),
            crlf: number(Scheme::Crlf),
            lines: number(Scheme::Lines),
            starts_lf,
            ends_cr,
        }
    }

    /// Returns the summary of the empty text.
    pub fn none() -> Summary
        ensures { result ≡ summary_of [] }
    {
        Summary {
            len: 0,
            chars: 0,
            utf16: 0,
            lf: 0,
            crlf: 0,
            lines: 0,
            starts_lf: false,
            ends_cr: false,
        }
    }

    /// Returns the count of scheme `s`.
    #[inline(always)]
    pub fn count(&self, s: Scheme) -> usize
        ensures { result ≡ count_of self.now s }
    {
        match s {
            Scheme::Chars => self.chars,
            Scheme::Utf16 => self.utf16,
            Scheme::Lf => self.lf,
            Scheme::Crlf => self.crlf,
            Scheme::Lines => self.lines,
        }
    }
}

/// Whether the first char of a text is LF.
pub fn starts_lf(text: &str) -> bool
    ensures { result ≡ starts_with_feed (chars text.now) }
{
    match text.as_bytes().first() {
        Some(&byte) => byte == LF,
        None => false,
    }
}

/// Whether the last char of a text is CR.
pub fn ends_cr(text: &str) -> bool
    ensures { result ≡ ends_in_return (chars text.now) }
{
    match text.as_bytes().last() {
        Some(&byte) => byte == CR,
        None => false,
    }
}
