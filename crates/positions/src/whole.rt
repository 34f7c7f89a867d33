//! A text that is one part.
ghost use Rattle.std.specs.Prelude.{◌≡◌, ◌+◌, [], ◌∷◌, Some, chars};
ghost use Rattle.str_indices.specs.Text.{Text, size};
ghost use Rattle.positions.specs.Parts.{IsPart, PartsState};
ghost use Rattle.positions.specs.declared.encodings.Encoding.{Encoding};
ghost use Rattle.positions.specs.declared.line_type.LineType.{LineType};

use crate::texts::len_of;
use crate::units::{place_of, units_before};
use crate::{Encoding, LineType, Part, Parts, kernels};
use byte_chunk::ByteChunk;
use std::marker::{Model, PhantomData};

/// One `&str`, as a text of one part, which is read by chunks of the type `T`. A contract sees the text. Nothing counts how
/// often an answer reads it.
#[derive(Drop)]
pub struct Whole<'a, T> {
    text: &'a str,
    chunk: PhantomData<T>,
}

impl<'a, T> Model for Whole<'a, T> {
    ghost use Rattle.std.specs.Prelude.{chars};
    ghost use Rattle.str_indices.specs.Text.{Text};

    ghost Value = { Text };

    ghost view = { λ t. chars t.text.now };
}

impl<'a, T: ByteChunk> Whole<'a, T> {
    /// Takes the text as one part.
    pub fn of(text: &'a str) -> Whole<'a, T>
        ensures { result ≡ chars text.entry.now }
    {
        Whole {
            text,
            chunk: PhantomData,
        }
    }
}

impl<'a, T: ByteChunk> Parts<'a> for Whole<'a, T> {
    type Chunk = T;

    ghost state = { λ text. record {
      text = text;
      pieces = text ∷ [];
      latest_start = λ _. 0;
      byte_choices = 1;
      count_choices = 1;
      unit_searches = 0;
      looks = 0;
      reads = 0;
    } };

    fn len(&self) -> usize {
        len_of(self.text)
    }

    fn count(&self, lines: LineType) -> usize {
        kernels::count::<T>(lines.scheme(), self.text)
    }

    fn part_of_byte(&mut self, _lines: LineType, _encoding: Encoding, _byte: usize) -> Part<'a> {
        whole_part(self.text)
    }

    fn part_of_line(&mut self, _lines: LineType, _encoding: Encoding, _line: usize) -> Part<'a> {
        whole_part(self.text)
    }

    fn units_of_byte(&mut self, encoding: Encoding, byte: usize) -> usize {
        units_before::<T>(encoding, self.text, byte)
    }

    fn byte_of_units(&mut self, encoding: Encoding, units: usize) -> usize {
        place_of::<T>(encoding, self.text, units)
    }
}

/// Returns the text as one part.
fn whole_part(text: &str) -> Part<'_>
    ensures part { (l : LineType) (e : Encoding) → IsPart (chars text.now) l e result }
    ensures start { result.start ≡ 0 }
    ensures units { result.units ≡ Some 0 }
    ensures all { result.start + size (chars result.text.now) ≡ size (chars text.now) }
{
    Part {
        text,
        start: 0,
        lines: 0,
        units: Some(0),
        in_crlf: false,
        counts: None,
    }
}
