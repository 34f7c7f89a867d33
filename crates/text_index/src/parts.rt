//! The stretches of a text, as the parts in which positions are searched.
ghost use Rattle.std.specs.Prelude.{◌≡◌, ◌+◌, IsSome, chars};
ghost use Rattle.str_indices.specs.Text.{size};
ghost use Rattle.positions.specs.Parts.{IsPart, PartsState};
ghost use Rattle.text_index.specs.Marks.{MarksState, parts_of};
ghost use Rattle.text_index.specs.Stretches.{IsStretch};

use crate::Marks;
use crate::queries::{char_start_in, from_in, stretch_at, stretch_up_to, to_in};
use crate::stretch::Stretch;
use byte_chunk::Chunk;
use positions::{Encoding, LineType, Part, PartCounts, Parts, unit_scheme};
use str_indices::Scheme;

impl<'a> Parts<'a> for Marks<'a> {
    type Chunk = Chunk;

    ghost state = { λ m. parts_of m };

    fn len(&self) -> usize {
        self.whole().byte
    }

    fn count(&self, lines: LineType) -> usize {
        self.whole().count(lines.scheme())
    }

    fn part_of_byte(&mut self, lines: LineType, encoding: Encoding, byte: usize) -> Part<'a> {
        let stretch = stretch_at(self, byte);
        part_in(self, lines, encoding, &stretch)
    }

    #[inline(always)]
    fn part_of_line(&mut self, lines: LineType, encoding: Encoding, line: usize) -> Part<'a> {
        let stretch = stretch_up_to(self, lines.scheme(), line);
        part_in(self, lines, encoding, &stretch)
    }

    fn units_of_byte(&mut self, encoding: Encoding, byte: usize) -> usize {
        match unit_scheme(encoding) {
            None => char_start_in(self, byte),
            Some(s) => from_in(self, s, byte),
        }
    }

    fn byte_of_units(&mut self, encoding: Encoding, units: usize) -> usize {
        match unit_scheme(encoding) {
            None => char_start_in(self, units),
            Some(s) => to_in(self, s, units),
        }
    }
}

/// The part that a stretch is, for one read. Its marks tell what is counted before it and in it.
#[inline(always)]
fn part_in<'a>(
    m: &mut Marks<'a>,
    lines: LineType,
    encoding: Encoding,
    stretch: &Stretch<'_>,
) -> Part<'a>
    requires { IsStretch m.old.text stretch.now }
    ensures part { IsPart m.old.text lines encoding result }
    ensures start { result.start ≡ stretch.now.start.now.byte }
    ensures units { IsSome result.units }
    ensures end { result.start + size (chars result.text.now) ≡ stretch.now.end.now.byte }
    ensures kept { m.new.text ≡ m.old.text }
    ensures looks { m.new.looks ≡ m.old.looks }
    ensures reads { m.new.reads ≡ m.old.reads + 1 }
{
    let Stretch { start, end } = *stretch;
    let s = lines.scheme();
    let (breaks, units) = (start.count(s), start.units(encoding));
    Part {
        text: m.read(stretch),
        start: start.byte,
        lines: breaks,
        units: Some(units),
        in_crlf: false,
        counts: Some(PartCounts {
            chars: end.count(Scheme::Chars) - start.count(Scheme::Chars),
            units: end.units(encoding) - units,
            lf: end.count(Scheme::Lf) - start.count(Scheme::Lf),
            breaks: end.count(s) - breaks,
        }),
    }
}
