//! Lines, and positions of the Language Server Protocol 3.17, in any text that lends the part around a place: one
//! `&str`, a text with an index beside it, or a text in pieces. They are written once, over a trait, for each encoding
//! and each kind of line break.
//!
//! A position is a line and an offset on it, which an [`Encoding`] counts in bytes, UTF-16 code units or scalar values. No
//! position names a place inside or after a break on its line: an offset past the line's end means the line's end,
//! before its break.
//!
//! Every text, byte index and position has an answer: nothing panics, nothing allocates.
#![tactic(auto)]

ghost use Rattle.std.specs.Prelude.{◌≡◌, ◌↔◌, IsTrue};
ghost use Rattle.positions.specs.Positions.{is_at_or_before};
ghost use Rattle.positions.specs.Relations.{IsAtOrBefore};

mod encodings;
mod first_lines;
mod kernels;
mod known;
pub mod laws;
mod line_type;
mod look_back;
mod middles;
mod parts;
mod pieces;
mod plain;
mod queries;
mod spans;
mod starts;
mod texts;
mod units;
mod whole;

pub use encodings::Encoding;
pub use line_type::LineType;
pub use parts::{Part, PartCounts, Parts};
pub use queries::{byte_of, byte_range, exact_byte_of, position_of};
pub use spans::{exact_position_of, range_of};
pub use starts::{line, line_end};
pub use texts::char_start;
pub use units::unit_scheme;
pub use whole::Whole;

/// A place in a text, as a language server names it.
#[derive(Clone, Copy, PartialEq, Eq, Debug)]
#[repr(C)]
pub struct Position {
    /// The line, counted from 0.
    pub line: usize,
    /// The offset on that line, in the units of an encoding.
    pub character: usize,
}

impl Position {
    /// Whether it is on an earlier line, or on the same line and no further on it.
    pub fn is_at_or_before(self, other: Position) -> bool
        ensures answer { result ≡ is_at_or_before self other }
        ensures order { IsTrue result ↔ IsAtOrBefore self other }
    {
        self.line < other.line || self.line == other.line && self.character <= other.character
    }
}

/// A part of a text, as a language server names it: from its start up to its end.
#[derive(Clone, Copy, PartialEq, Eq, Debug)]
#[repr(C)]
pub struct Range {
    /// Where it begins.
    pub start: Position,
    /// Where it ends: the char at this position is no part of it.
    pub end: Position,
}
