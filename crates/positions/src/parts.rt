//! A text that lends the part round a place.
ghost use Rattle.std.specs.Prelude.{◌≡◌, ◌^◌, ◌<◌, ◌≤◌, IsSome};
ghost use Rattle.str_indices.specs.Schemes.{boundary_weighed, count, weighed};
ghost use Rattle.str_indices.specs.Text.{size};
ghost use Rattle.positions.specs.Lines.{scheme_of};
ghost use Rattle.positions.specs.Encodings.{units_of};
ghost use Rattle.positions.specs.Parts.{HasByte, HasLine, IsPart, IsSearched, PartsState, Searched};

use crate::{Encoding, LineType};
use byte_chunk::ByteChunk;

/// A part of a text, and what is before it.
#[derive(Clone, Copy)]
pub struct Part<'a> {
    /// The part.
    pub text: &'a str,
    /// The byte index where it starts.
    pub start: usize,
    /// How many line breaks end at or before its start.
    pub lines: usize,
    /// How many units of an encoding are before its start, where the search for the part told them.
    pub units: Option<usize>,
    /// Whether it starts between CR and LF.
    pub in_crlf: bool,
    /// The counts of the part itself, where the text knows them without reading the part.
    pub counts: Option<PartCounts>,
}

/// The counts of a part.
#[derive(Clone, Copy)]
pub struct PartCounts {
    /// How many chars.
    pub chars: usize,
    /// How many units of the encoding asked for.
    pub units: usize,
    /// How many LFs.
    pub lf: usize,
    /// How many line breaks of the kind asked for.
    pub breaks: usize,
}

/// A text that lends the part round a place. A contract sees the text, how often it was searched and how many parts were
/// read, and what a search may cost.
pub trait Parts<'a> {
    /// The chunk type by which its parts are read.
    type Chunk: ByteChunk;

    ghost state: { Self → PartsState };

    /// How many bytes the text has.
    fn len(&self) -> usize
        ensures len { result ≡ size (state self.now).text }
        ensures short { size (state self.now).text < 2 ^ 64 }
        ensures searched { IsSearched (state self.now) };

    /// How many line breaks the text has. It is no search, and no contract counts what it reads.
    fn count(&self, lines: LineType) -> usize
        ensures { result ≡ count (scheme_of lines) (state self.now).text };

    /// The part that a byte is in. A byte past the end is in the last part.
    fn part_of_byte(&mut self, lines: LineType, encoding: Encoding, byte: usize) -> Part<'a>
        ensures part { IsPart (state self.old).text lines encoding result }
        ensures round { HasByte (state self.old).text byte result }
        ensures start { result.start ≤ (state self.old).latest_start byte }
        ensures units { (state self.old).unit_searches ≡ 0 → IsSome result.units }
        ensures cost { Searched 1 0 (state self.old) (state self.new) };

    /// The part in which a line begins: after its start, or at the text's start. A line past the last one is in the last
    /// part.
    fn part_of_line(&mut self, lines: LineType, encoding: Encoding, line: usize) -> Part<'a>
        ensures part { IsPart (state self.old).text lines encoding result }
        ensures round { HasLine (state self.old).text lines line result }
        ensures units { (state self.old).unit_searches ≡ 0 → IsSome result.units }
        ensures cost { Searched 0 1 (state self.old) (state self.new) };

    /// The units of the chars before a byte index.
    fn units_of_byte(&mut self, encoding: Encoding, byte: usize) -> usize
        ensures answer { result ≡ weighed (units_of encoding) (state self.old).text byte }
        ensures cost { Searched 1 0 (state self.old) (state self.new) };

    /// The byte index before which the chars have `units` units, or where the char begins that has that unit inside it; past
    /// them all the text's length in bytes.
    fn byte_of_units(&mut self, encoding: Encoding, units: usize) -> usize
        ensures answer { result ≡ boundary_weighed (units_of encoding) (state self.old).text units }
        ensures cost { Searched 0 1 (state self.old) (state self.new) };
}
