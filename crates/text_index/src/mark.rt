//! The counts of a text before a place in it.
ghost use Rattle.std.specs.Prelude.{◌≡◌, ◌≤◌, chars, false};
ghost use Rattle.str_indices.specs.Relations.{IsBoundary};
ghost use Rattle.str_indices.specs.Schemes.{weighed};
ghost use Rattle.str_indices.specs.Text.{Text, size};
ghost use Rattle.positions.specs.Encodings.{units_of};
ghost use Rattle.text_index.specs.Marks.{IsMark, count_at};
ghost use Rattle.text_index.specs.Places.{IsMarkPlace};

use crate::places::text_between;
use positions::{Encoding, unit_scheme};
use str_indices::{Counts, Scheme, counts};

/// A byte index, and how many chars, UTF-16 code units and line breaks are before it.
#[derive(Clone, Copy)]
#[repr(C)]
pub struct Mark {
    pub(crate) byte: usize,
    pub(crate) counts: Counts,
}

/// The mark at the beginning of a text.
pub(crate) const BEGINNING: Mark = Mark {
    byte: 0,
    counts: Counts::NONE,
};

impl Mark {
    /// Returns its count in scheme `s`.
    pub(crate) fn count(&self, s: Scheme) -> usize
        ensures { result ≡ count_at self.now s }
    {
        self.counts.get(s)
    }

    /// Returns the units of an encoding before it.
    pub(crate) fn units(&self, encoding: Encoding) -> usize
        ensures { (text : Text) → IsMark text self.now
            → result ≡ weighed (units_of encoding) text self.now.byte }
    {
        match unit_scheme(encoding) {
            None => self.byte,
            Some(s) => self.count(s),
        }
    }

    /// Returns the mark at a later place `to` of the text, by going over the text between the two.
    pub(crate) fn move_to(self, text: &str, to: usize) -> Mark
        requires mark { IsMark (chars text.now) self }
        requires order { self.byte ≤ to }
        requires place { IsMarkPlace (chars text.now) to }
        ensures mark { IsMark (chars text.now) result }
        ensures byte { result.byte ≡ to }
    {
        let own = counts(text_between(text, self.byte, to));
        Mark {
            byte: to,
            counts: self.counts.plus(own),
        }
    }
}
