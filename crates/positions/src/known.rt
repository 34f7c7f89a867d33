//! Questions about a part, which use what is known of it to read less.
ghost use Rattle.std.specs.Prelude.{◌≡◌, ◌-◌, ◌≤◌, ℕ, IsTrue, chars, sum_by};
ghost use Rattle.std.specs.List.{before_first};
ghost use Rattle.str_indices.specs.Schemes.{count, from_byte_idx, to_byte_idx};
ghost use Rattle.str_indices.specs.Text.{Text, size};
ghost use Rattle.positions.specs.Encodings.{units_of};
ghost use Rattle.positions.specs.declared.encodings.Encoding.{Encoding};
ghost use Rattle.positions.specs.Characters.{IsBackOf};
ghost use Rattle.positions.specs.Lines.{HasSameBreaks, is_break, scheme_of};
ghost use Rattle.positions.specs.Parts.{IsPart};
ghost use Rattle.positions.specs.Positions.{byte_at};
ghost use Rattle.positions.specs.Units.{HasSameUnits};
ghost use Rattle.positions.specs.declared.line_type.LineType.{LineType};

use crate::first_lines::{NEAR, content_end, place_on_first_line};
use crate::plain::is_after_plain;
use crate::texts::len_of;
use crate::units::place_of;
use crate::{Encoding, LineType, Part, kernels};
use byte_chunk::ByteChunk;

impl Part<'_> {
    /// Whether it is known that no line after `line` begins in the part.
    pub(crate) fn ends_on(&self, line: usize) -> bool
        ensures { (cs : Text) (l : LineType) (e : Encoding) → IsPart cs l e self.now → IsTrue result
            → count (scheme_of l) (chars self.now.text.now) ≤ line - self.now.lines }
    {
        match &self.counts {
            Some(counts) => counts.breaks <= line.saturating_sub(self.lines),
            None => false,
        }
    }

    /// Whether the part is known to have at most `units` units.
    fn has_at_most(&self, units: usize) -> bool
        ensures { (cs : Text) (l : LineType) (e : Encoding) → IsPart cs l e self.now → IsTrue result
            → sum_by (units_of e) (chars self.now.text.now) ≤ units }
    {
        match &self.counts {
            Some(counts) => counts.units <= units,
            None => false,
        }
    }

    /// Returns the encoding in which to ask the part: bytes, or else chars, if it has as many of these as units;
    /// otherwise `encoding`.
    pub(crate) fn encoding(&self, encoding: Encoding) -> Encoding
        ensures { (cs : Text) (l : LineType) → IsPart cs l encoding self.now
            → HasSameUnits encoding result (chars self.now.text.now) }
    {
        let Some(counts) = &self.counts else {
            return encoding;
        };
        if counts.units == len_of(self.text) {
            Encoding::Utf8
        } else if counts.units == counts.chars {
            Encoding::Utf32
        } else {
            encoding
        }
    }

    /// Whether the part may be ASCII, as far as is known.
    fn may_be_ascii(&self) -> bool {
        match &self.counts {
            Some(counts) => counts.chars == len_of(self.text),
            None => true,
        }
    }

    /// Returns the kind of line break to look for in the part: LF if it has as many LFs as breaks, otherwise `lines`.
    pub(crate) fn kind(&self, lines: LineType) -> LineType
        ensures { (cs : Text) (e : Encoding) → IsPart cs lines e self.now
            → HasSameBreaks lines result (chars self.now.text.now) }
    {
        match &self.counts {
            Some(counts) if counts.lf == counts.breaks => LineType::Lf,
            _ => lines,
        }
    }

    /// Counts the line breaks of the part that end at or before `at`. It reads nothing if the part is known to have
    /// none.
    pub(crate) fn breaks_up_to<T: ByteChunk>(&self, lines: LineType, at: usize) -> usize
        ensures { (cs : Text) (e : Encoding) → IsPart cs lines e self.now
            → result ≡ from_byte_idx (scheme_of lines) (chars self.now.text.now) at }
    {
        if self.ends_on(self.lines) {
            return 0;
        }
        kernels::from_byte_idx::<T>(self.kind(lines).scheme(), self.text, at)
    }

    /// Finds where the content of `line` ends in `rest`, the part from the line's beginning on: the end of `rest`, if
    /// the line does not end in it. It reads `rest` up to the answer, or nothing if it is known that no later line
    /// begins in the part.
    pub(crate) fn content_end<T: ByteChunk>(
        &self,
        lines: LineType,
        line: usize,
        rest: &str,
    ) -> usize
        ensures { (cs : Text) (e : Encoding) (at : ℕ) → IsPart cs lines e self.now
            → at ≡ to_byte_idx (scheme_of lines) (chars self.now.text.now) (line - self.now.lines)
            → IsBackOf (chars self.now.text.now) (chars rest.now) at
            → result ≡ size (before_first (is_break lines) (chars rest.now)) }
    {
        if !self.ends_on(line) {
            return content_end::<T>(lines, rest);
        }
        len_of(rest)
    }

    /// Converts the offset `character` on `line` to the byte index in `rest`, the part from the line's beginning on,
    /// where its char begins or the line's content ends. It reads nothing if it is known that no later line begins in
    /// the part and that the part has at most `character` units.
    #[inline(always)]
    pub(crate) fn place_on_line<T: ByteChunk>(
        &self,
        lines: LineType,
        encoding: Encoding,
        line: usize,
        rest: &str,
        character: usize,
    ) -> usize
        ensures { (cs : Text) (at : ℕ) → IsPart cs lines encoding self.now
            → at ≡ to_byte_idx (scheme_of lines) (chars self.now.text.now) (line - self.now.lines)
            → IsBackOf (chars self.now.text.now) (chars rest.now) at
            → result ≡ byte_at lines encoding (chars rest.now) (record { line = 0; character = character }) }
    {
        if self.ends_on(line) {
            if self.has_at_most(character) {
                return len_of(rest);
            }
            return place_of::<T>(self.encoding(encoding), rest, character);
        }
        if character < NEAR && self.may_be_ascii() && is_after_plain(rest, character) {
            return character;
        }
        place_on_first_line::<T>(lines, self.encoding(encoding), rest, character)
    }
}
