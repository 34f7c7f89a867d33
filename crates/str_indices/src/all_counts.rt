//! Counts a text in all schemes. First it finds which kinds of bytes the text lacks, and so which counts are equal.
ghost use Rattle.std.specs.Prelude.{◌≡◌, ◌⊎◌, chars, IsTrue};
ghost use Rattle.str_indices.specs.Prelude.{count, Scheme, Chars, Utf16, Lf, Crlf, Lines};
ghost use Rattle.str_indices.specs.ByScheme.{number_of};
ghost use Rattle.str_indices.specs.Kinds.{AreKinds, HasNoVtFf, HasNoWideLead, HasNoWidePair};

use crate::by_scheme::Counts;
use crate::kinds::{Kinds, kinds_of, no_wide_break};
use crate::{chars, lines, lines_crlf, lines_lf, utf16};

/// Counts a text in every scheme.
pub fn counts(text: &str) -> Counts
    ensures { (s : Scheme) → number_of result s ≡ count s (chars text.now) }
{
    let kinds = kinds_of(text.as_bytes());
    let characters = characters_of(text, kinds);
    let units = units_of(text, kinds, characters);
    let lf = lines_lf::count_breaks(text);
    let BreakCounts { crlf, lines } = line_breaks_of(text, kinds, lf);
    Counts {
        numbers: [characters, units, lf, crlf, lines],
    }
}

/// Counts the chars of a text: its bytes, if each is ASCII.
#[tactic(auto, using(crate::proofs::lemmas::Kinds::characters_of_ascii))]
fn characters_of(text: &str, kinds: Kinds) -> usize
    requires { AreKinds kinds text.now }
    ensures { result ≡ count Chars (chars text.now) }
{
    if kinds.is_ascii {
        text.len()
    } else {
        chars::count(text)
    }
}

/// Counts the UTF-16 code units of a text: its chars, if none takes two.
#[tactic(auto, using(crate::proofs::lemmas::Kinds::units_without_pairs))]
fn units_of(text: &str, kinds: Kinds, characters: usize) -> usize
    requires kinds { AreKinds kinds text.now }
    requires characters { characters ≡ count Chars (chars text.now) }
    ensures { result ≡ count Utf16 (chars text.now) }
{
    if kinds.no_pair {
        characters
    } else {
        utf16::count(text)
    }
}

/// The numbers of line breaks of a text.
#[derive(Clone, Copy)]
struct BreakCounts {
    /// By LF, CR and CRLF.
    crlf: usize,
    /// By all of the Rust crate's list.
    lines: usize,
}

/// Counts the line breaks of a text. Both numbers are equal if it has no break but LF, CR and CRLF.
fn line_breaks_of(text: &str, kinds: Kinds, lf: usize) -> BreakCounts
    requires kinds { AreKinds kinds text.now }
    requires lf { lf ≡ count Lf (chars text.now) }
    ensures crlf { result.crlf ≡ count Crlf (chars text.now) }
    ensures lines { result.lines ≡ count Lines (chars text.now) }
{
    if has_narrow_breaks(text, kinds) {
        let crlf = returns_of(text, kinds, lf);
        return BreakCounts { crlf, lines: crlf };
    }
    let lines = lines::count_breaks(text);
    BreakCounts {
        crlf: breaks_of(text, kinds, lf, lines),
        lines,
    }
}

/// Whether a text is found to have no line break but LF, CR and CRLF. It is `false` too where finding out takes more
/// time than counting.
fn has_narrow_breaks(text: &str, kinds: Kinds) -> bool
    requires { AreKinds kinds text.now }
    ensures narrow { IsTrue result → HasNoVtFf text.now × (HasNoWideLead text.now ⊎ HasNoWidePair text.now) }
    ensures told { HasNoVtFf text.now → HasNoWideLead text.now → IsTrue result }
{
    kinds.no_vt_ff && (kinds.is_ascii || no_wide_break(text.as_bytes(), kinds))
}

/// Counts the breaks of a text by LF, CR and CRLF: its LFs, if it has no CR.
#[inline(always)]
fn returns_of(text: &str, kinds: Kinds, lf: usize) -> usize
    requires kinds { AreKinds kinds text.now }
    requires lf { lf ≡ count Lf (chars text.now) }
    ensures { result ≡ count Crlf (chars text.now) }
{
    if kinds.no_return {
        lf
    } else {
        lines_crlf::count_breaks(text)
    }
}

/// Counts the breaks of a text by LF, CR and CRLF: its LFs, if it has no other line break at all.
fn breaks_of(text: &str, kinds: Kinds, lf: usize, lines: usize) -> usize
    requires kinds { AreKinds kinds text.now }
    requires lf { lf ≡ count Lf (chars text.now) }
    requires lines { lines ≡ count Lines (chars text.now) }
    ensures { result ≡ count Crlf (chars text.now) }
{
    if lf == lines {
        lf
    } else {
        returns_of(text, kinds, lf)
    }
}
