//! The chunks of a text, as the parts in which positions are searched.
ghost use Rattle.std.specs.Prelude.{◌≡◌, ◌≢◌, [], IsTrue, chars};
ghost use Rattle.str_indices.specs.Starts.{IsGreatestBoundary};
ghost use Rattle.str_indices.specs.Schemes.{count};
ghost use Rattle.str_indices.specs.declared.Scheme.TheVariants.{Chars};
ghost use Rattle.text_summary.specs.Pieces.{joined, joined_size};
ghost use Rattle.positions.specs.Lines.{scheme_of};
ghost use Rattle.positions.specs.Parts.{IsPart, PartsState};
ghost use Rattle.text_rope.specs.Looks.{Asks};
ghost use Rattle.text_rope.specs.Parts.{parts_of};
ghost use Rattle.text_rope.specs.Places.{IsPlaced};
ghost use Rattle.text_rope.specs.States.{RopeState};

use crate::chunks::chunk_in;
use crate::queries::{Placed, from_in, place_at, place_of, to_in};
use crate::rope::views::View;
use byte_chunk::Chunk;
use positions::{Encoding, LineType, Part, Parts, char_start, unit_scheme};

impl<'a> Parts<'a> for View<'a> {
    type Chunk = Chunk;

    ghost state = { λ v. parts_of v };

    fn len(&self) -> usize {
        View::len(self)
    }

    fn count(&self, lines: LineType) -> usize {
        match self.root() {
            None => 0,
            Some(subtree) => subtree.summary().count(lines.scheme()),
        }
    }

    fn part_of_byte(&mut self, lines: LineType, encoding: Encoding, byte: usize) -> Part<'a> {
        let Some(subtree) = self.root() else {
            return Part::of_nothing();
        };
        // the last chunk has the text's end too
        let last = subtree.summary().len - 1;
        let place = place_at(self, subtree, lines.scheme(), byte.min(last));
        let text = self.read(place.chunk);
        part_in(self, lines, encoding, &place, text)
    }

    fn part_of_line(&mut self, lines: LineType, encoding: Encoding, line: usize) -> Part<'a> {
        if line == 0 {
            return self.part_of_byte(lines, encoding, 0);
        }
        let Some(subtree) = self.root() else {
            return Part::of_nothing();
        };
        let place = place_of(self, subtree, lines.scheme(), line);
        let text = self.read(place.chunk);
        part_in(self, lines, encoding, &place, text)
    }

    fn units_of_byte(&mut self, encoding: Encoding, byte: usize) -> usize {
        if is_ascii(self) {
            return byte.min(View::len(self));
        }
        match unit_scheme(encoding) {
            None => char_start_in(self, byte),
            Some(s) => from_in(self, s, byte),
        }
    }

    fn byte_of_units(&mut self, encoding: Encoding, units: usize) -> usize {
        if is_ascii(self) {
            return units.min(View::len(self));
        }
        match unit_scheme(encoding) {
            None => char_start_in(self, units),
            Some(s) => to_in(self, s, units),
        }
    }
}

/// Whether all chars of the text are ASCII: then each byte is a unit in every encoding.
fn is_ascii(v: &View) -> bool
    ensures { IsTrue result → count Chars (joined v.now.texts) ≡ joined_size v.now.texts }
{
    match v.root() {
        None => true,
        Some(subtree) => subtree.summary().chars == subtree.summary().len,
    }
}

/// The part that a chunk is, by what is known of the text before it: its line breaks and its bytes, and so its units only where
/// these are bytes.
#[inline(always)]
fn part_in<'a>(
    v: &View<'_>,
    lines: LineType,
    encoding: Encoding,
    place: &Placed<'a>,
    text: &'a str,
) -> Part<'a>
    requires placed { IsPlaced (scheme_of lines) v.now.texts place.now.chunk.now place.now.before }
    requires text { chars text.now ≡ place.now.chunk.now }
    ensures part { IsPart (joined v.now.texts) lines encoding result }
    ensures text { chars result.text.now ≡ place.now.chunk.now }
    ensures some { place.now.chunk.now ≢ [] }
    ensures start { result.start ≡ place.now.before.len }
{
    let _len = v.len();
    let Placed { chunk, before } = *place;
    let own = chunk.summary();
    Part::of_piece(lines, encoding, text, &before, &own)
}

/// The greatest byte index between chars that is at most this one, in as many looks and reads at most as a question.
fn char_start_in(v: &mut View, byte: usize) -> usize
    ensures answer { IsGreatestBoundary (joined v.old.texts) byte result }
    ensures cost { Asks 1 v.old v.new }
{
    let len = v.len();
    let Some(chunk) = chunk_in(v, byte) else {
        return len;
    };
    chunk.start + char_start(chunk.text, byte - chunk.start)
}
