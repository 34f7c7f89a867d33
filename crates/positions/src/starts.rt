//! Finds where a line begins and ends, by the part that it begins in.
ghost use Rattle.std.specs.Prelude.{◌≡◌, ◌+◌, ◌-◌, ◌<◌, ◌≤◌, ◌⊎◌, ◌↔◌, IsSome, IsTrue, chars};
ghost use Rattle.str_indices.specs.Relations.{IsBoundary};
ghost use Rattle.str_indices.specs.Schemes.{count, to_byte_idx, weighed};
ghost use Rattle.str_indices.specs.Text.{size};
ghost use Rattle.positions.specs.Encodings.{units_of};
ghost use Rattle.positions.specs.Lines.{line_end, scheme_of};
ghost use Rattle.positions.specs.Parts.{HasLine, IsPart, Searched};

use crate::middles::crlf_offset;
use crate::texts::{char_start, from_byte, len_of};
use crate::units::units_before;
use crate::{Encoding, LineType, Part, Parts, kernels};
use std::ops;

/// A part, and a byte index in it.
#[derive(Clone, Copy)]
pub(crate) struct Place<'a> {
    pub(crate) part: Part<'a>,
    pub(crate) offset: usize,
}

/// Finds where line `line` begins.
#[inline(always)]
pub(crate) fn line_in<'a, P: Parts<'a>>(
    parts: &mut P,
    lines: LineType,
    encoding: Encoding,
    line: usize,
) -> Place<'a>
    ensures part { IsPart (P.state parts.old).text lines encoding result.part }
    ensures round { HasLine (P.state parts.old).text lines line result.part }
    ensures place { result.part.start + result.offset ≡ to_byte_idx (scheme_of lines) (P.state parts.old).text line }
    ensures offset { let part = result.part in
        result.offset ≡ to_byte_idx (scheme_of lines) (chars part.text.now) (line - part.lines) }
    ensures boundary { IsBoundary (chars result.part.text.now) result.offset }
    ensures units { (P.state parts.old).unit_searches ≡ 0 → IsSome result.part.units }
    ensures cost { Searched 0 1 (P.state parts.old) (P.state parts.new) }
{
    let part = parts.part_of_line(lines, encoding, line);
    let scheme = part.kind(lines).scheme();
    let offset = kernels::to_byte_idx::<P::Chunk>(scheme, part.text, line - part.lines);
    Place { part, offset }
}

/// Whether the text has line `line`, which would begin at `start`.
pub(crate) fn has_line<'a, P: Parts<'a>>(
    parts: &P,
    lines: LineType,
    start: &Place<'a>,
    line: usize,
) -> bool
    requires within { start.now.part.start + size (chars start.now.part.text.now) ≤ size (P.state parts.now).text }
    requires offset { start.now.offset ≤ size (chars start.now.part.text.now) }
    requires place { start.now.part.start + start.now.offset ≡ to_byte_idx (scheme_of lines) (P.state parts.now).text line }
    ensures { IsTrue result ↔ (line ≤ count (scheme_of lines) (P.state parts.now).text) }
{
    // A line that begins before the end is there: the breaks are counted only if it would begin at the end.
    let len = parts.len();
    start.part.start + start.offset < len || line <= parts.count(lines)
}

/// Finds where line `later` begins, by where `line` does. It searches only if the two differ and the text goes on after
/// the part. Otherwise it goes over the part from `line` on.
pub(crate) fn later_line<'a, P: Parts<'a>>(
    parts: &mut P,
    lines: LineType,
    encoding: Encoding,
    start: &Place<'a>,
    line: usize,
    later: usize,
) -> Place<'a>
    requires part { IsPart (P.state parts.old).text lines encoding start.now.part }
    requires round { HasLine (P.state parts.old).text lines line start.now.part }
    requires offset { let part = start.now.part in
        start.now.offset ≡ to_byte_idx (scheme_of lines) (chars part.text.now) (line - part.lines) }
    requires boundary { IsBoundary (chars start.now.part.text.now) start.now.offset }
    requires units { (P.state parts.old).unit_searches ≡ 0 → IsSome start.now.part.units }
    requires order { line ≤ later }
    ensures part { IsPart (P.state parts.old).text lines encoding result.part }
    ensures place { result.part.start + result.offset ≡ to_byte_idx (scheme_of lines) (P.state parts.old).text later }
    ensures offset { let part = result.part in
        result.offset ≡ to_byte_idx (scheme_of lines) (chars part.text.now) (later - part.lines) }
    ensures boundary { IsBoundary (chars result.part.text.now) result.offset }
    ensures units { (P.state parts.old).unit_searches ≡ 0 → IsSome result.part.units }
    ensures cost { Searched 0 1 (P.state parts.old) (P.state parts.new) }
    ensures same { line ≡ later → Searched 0 0 (P.state parts.old) (P.state parts.new) }
{
    let len = parts.len();
    let part = start.part;
    if line != later && part.start + len_of(part.text) < len {
        return line_in(parts, lines, encoding, later);
    }
    let rest = from_byte(part.text, start.offset);
    let offset = start.offset
        + kernels::to_byte_idx::<P::Chunk>(lines.scheme(), rest, later - line);
    Place { part, offset }
}

/// Whether the part that a line begins in is enough to answer for `offset`, a place in `rest`, the part from the line's
/// beginning on: it is if the place is before the end of `rest`, or if the text ends with the part.
pub(crate) fn tells<'a, P: Parts<'a>>(parts: &P, part: &Part<'a>, rest: &str, offset: usize) -> bool
    requires { part.now.start + size (chars part.now.text.now) ≤ size (P.state parts.now).text }
    ensures { IsTrue result ↔ ((offset < size (chars rest.now))
        ⊎ (part.now.start + size (chars part.now.text.now) ≡ size (P.state parts.now).text)) }
{
    let len = parts.len();
    offset < len_of(rest) || part.start + len_of(part.text) == len
}

/// Counts the units of the text before the place `at` in a part. It takes a search by the byte if the part does not say
/// how many are before its start.
#[inline(always)]
pub(crate) fn units_up_to<'a, P: Parts<'a>>(
    parts: &mut P,
    lines: LineType,
    encoding: Encoding,
    part: &Part<'a>,
    at: usize,
) -> usize
    requires part { IsPart (P.state parts.old).text lines encoding part.now }
    requires units { (P.state parts.old).unit_searches ≡ 0 → IsSome part.now.units }
    requires within { at ≤ size (chars part.now.text.now) }
    ensures answer { result ≡ weighed (units_of encoding) (P.state parts.old).text (part.now.start + at) }
    ensures cost { Searched (P.state parts.old).unit_searches 0 (P.state parts.old) (P.state parts.new) }
{
    let _len = parts.len();
    match part.units {
        Some(before) => before + units_before::<P::Chunk>(part.encoding(encoding), part.text, at),
        None => parts.units_of_byte(encoding, part.start + at),
    }
}

/// Finds the byte index where the content of a line ends, by where the next line begins.
pub(crate) fn end_before<'a, P: Parts<'a>>(
    parts: &P,
    lines: LineType,
    encoding: Encoding,
    line: usize,
    next: &Place<'a>,
) -> usize
    requires part { IsPart (P.state parts.now).text lines encoding next.now.part }
    requires round { HasLine (P.state parts.now).text lines (line + 1) next.now.part }
    requires place { next.now.part.start + next.now.offset ≡ to_byte_idx (scheme_of lines) (P.state parts.now).text (line + 1) }
    requires boundary { IsBoundary (chars next.now.part.text.now) next.now.offset }
    requires more { line < count (scheme_of lines) (P.state parts.now).text }
    ensures { result ≡ line_end lines (P.state parts.now).text line }
{
    let _len = parts.len();
    let part = next.part;
    let last = char_start(part.text, next.offset - 1);
    part.start + last - crlf_offset(lines, &part, last)
}

/// Finds the byte index where the content of a line, counted from 0, ends: before its break, or at the length of the
/// text in bytes if it is the last line or past it. It takes one search by the line.
pub fn line_end<'a, P: Parts<'a>>(parts: &mut P, lines: LineType, line: usize) -> usize
    ensures answer { result ≡ line_end lines (P.state parts.old).text line }
    ensures boundary { IsBoundary (P.state parts.old).text result }
    ensures cost { Searched 0 1 (P.state parts.old) (P.state parts.new) }
{
    if parts.count(lines) <= line {
        return parts.len();
    }
    let next = line_in(parts, lines, Encoding::Utf8, line + 1);
    end_before(parts, lines, Encoding::Utf8, line, &next)
}

/// Finds the byte indices where a line, counted from 0, begins and where its content ends; for a line past the last
/// one, the length of the text in bytes twice. The text may be sliced at both. It takes at most two searches by the line.
pub fn line<'a, P: Parts<'a>>(parts: &mut P, lines: LineType, line: usize) -> ops::Range<usize>
    ensures start { result.start ≡ to_byte_idx (scheme_of lines) (P.state parts.old).text line }
    ensures end { result.end ≡ line_end lines (P.state parts.old).text line }
    ensures boundaries { let cs = (P.state parts.old).text in IsBoundary cs result.start × IsBoundary cs result.end }
    ensures cost { Searched 0 2 (P.state parts.old) (P.state parts.new) }
{
    let _len = parts.len();
    let start = line_in(parts, lines, Encoding::Utf8, line);
    let rest = from_byte(start.part.text, start.offset);
    let offset = start.part.content_end::<P::Chunk>(lines, line, rest);
    let begins = start.part.start + start.offset;
    if tells(parts, &start.part, rest, offset) {
        return begins..begins + offset;
    }
    begins..line_end(parts, lines, line)
}
