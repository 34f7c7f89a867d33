//! The part that a piece of a text is, by its summary and what is known of the text before it.
ghost use Rattle.std.specs.Prelude.{◌≡◌, ◌⊎◌, ◌↔◌, [], ◌++◌, IfSome, IsSome, IsTrue, None, chars, sum_by, true};
ghost use Rattle.str_indices.specs.Text.{Text};
ghost use Rattle.text_summary.specs.Fronts.{IsFollowed, IsFront};
ghost use Rattle.text_summary.specs.Summaries.{summary_of};
ghost use Rattle.positions.specs.Encodings.{units_of};
ghost use Rattle.positions.specs.Lines.{scheme_of};
ghost use Rattle.positions.specs.Parts.{HasPartCounts, IsPart};
ghost use Rattle.positions.specs.Units.{unit_scheme};
ghost use Rattle.positions.specs.declared.encodings.Encoding.{Encoding};
ghost use Rattle.positions.specs.declared.line_type.LineType.{LineType};

use crate::{Encoding, LineType, Part, PartCounts, unit_scheme};
use text_summary::{Front, Summary};

impl<'a> Part<'a> {
    /// The one part of the empty text.
    pub fn of_nothing() -> Part<'a>
        ensures part { (l : LineType) (e : Encoding) → IsPart [] l e result }
        ensures start { result.start ≡ 0 }
        ensures text { chars result.text.now ≡ [] }
    {
        Part {
            text: "",
            start: 0,
            lines: 0,
            units: Some(0),
            in_crlf: false,
            counts: None,
        }
    }

    /// The part that a piece is, by its summary and what is known of the text before it. It comes with the units before
    /// it only if these are bytes, or nothing is before it.
    #[inline(always)]
    pub fn of_piece(
        lines: LineType,
        encoding: Encoding,
        text: &'a str,
        before: &Front,
        summary: &Summary,
    ) -> Part<'a>
        requires summary { summary.now ≡ summary_of (chars text.now) }
        requires followed { IsFollowed (scheme_of lines) before.now summary.now }
        ensures part { (front back : Text) → IsFront (scheme_of lines) front before.now →
            IsPart (front ++ (chars text.now ++ back)) lines encoding result }
        ensures start { result.start ≡ before.now.len }
        ensures text { chars result.text.now ≡ chars text.now }
        ensures counts { IsSome result.counts }
        ensures units { IsSome result.units ↔ ((unit_scheme encoding ≡ None) ⊎ (before.now.len ≡ 0)) }
    {
        Part {
            text,
            start: before.len,
            lines: before.step(lines.scheme(), *summary).reached,
            units: units_in(encoding, before.len),
            in_crlf: is_between(before, summary),
            counts: Some(part_counts(lines, encoding, summary)),
        }
    }
}

/// The counts of a piece, taken from its summary.
fn part_counts(lines: LineType, encoding: Encoding, summary: &Summary) -> PartCounts
    ensures { (cs : Text) → summary.now ≡ summary_of cs → HasPartCounts lines encoding cs result }
{
    PartCounts {
        chars: summary.chars,
        units: count_units(encoding, summary),
        lf: summary.lf,
        breaks: summary.count(lines.scheme()),
    }
}

/// Counts the units of a piece, by its summary.
fn count_units(encoding: Encoding, summary: &Summary) -> usize
    ensures { (cs : Text) → summary.now ≡ summary_of cs → result ≡ sum_by (units_of encoding) cs }
{
    match unit_scheme(encoding) {
        None => summary.len,
        Some(s) => summary.count(s),
    }
}

/// The units of an encoding that `bytes` bytes of chars are, where it counts bytes or there are none.
fn units_in(encoding: Encoding, bytes: usize) -> Option<usize>
    ensures bytes { IfSome result (λ units. units ≡ bytes) }
    ensures some { IsSome result ↔ ((unit_scheme encoding ≡ None) ⊎ (bytes ≡ 0)) }
{
    match unit_scheme(encoding) {
        Some(_) if 0 < bytes => None,
        _ => Some(bytes),
    }
}

/// Whether a text ends in CR, and LF comes after it.
fn is_between(before: &Front, summary: &Summary) -> bool
    ensures { IsTrue result ↔ ((before.now.ends_cr ≡ true) × (summary.now.starts_lf ≡ true)) }
{
    before.ends_cr && summary.starts_lf
}
