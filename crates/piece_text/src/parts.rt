//! The pieces of a text, as the parts in which positions are searched.
ghost use Rattle.std.specs.Prelude.{◌≡◌, ◌+◌, ◌≤◌, length, chars};
ghost use Rattle.str_indices.specs.Starts.{IsGreatestBoundary};
ghost use Rattle.positions.specs.Lines.{scheme_of};
ghost use Rattle.positions.specs.Parts.{HasByte, HasLine, IsPart, PartsState};
ghost use Rattle.piece_text.specs.Parts.{Asks, IsPlaced, parts_of};
ghost use Rattle.piece_text.specs.Pieces.{PiecesState, joined, piece_at};

use crate::places::{Placed, piece_round, piece_up_to};
use crate::queries::{from_in, to_in};
use crate::sums::summary_in;
use crate::{Pieces, Scheme, Summary};
use byte_chunk::Chunk;
use positions::{Encoding, LineType, Part, Parts, char_start, unit_scheme};
use std::marker::Model;

/// The pieces of a text, for questions about positions, with the summary of the joined text. A contract sees the view.
#[derive(Drop)]
pub struct PieceParts<'a> {
    pieces: Pieces<'a>,
    whole: Summary,
}

impl<'a> Model for PieceParts<'a> {
    ghost use Rattle.std.specs.Prelude.{◌≡◌};
    ghost use Rattle.piece_text.specs.Pieces.{PiecesState, joined};
    ghost use Rattle.piece_text.specs.Summaries.{summary_of};

    ghost Value = { PiecesState };

    ghost view = { λ p. p.pieces };

    ghost invariant = { λ p. p.whole ≡ summary_of (joined p.pieces.texts) };
}

impl<'a> PieceParts<'a> {
    /// Makes the parts of a view, for at most as many looks as there are pieces. It reads no piece.
    pub fn of(pieces: Pieces<'a>) -> PieceParts<'a>
        ensures texts { result.texts ≡ pieces.entry.texts }
        ensures looks { result.looks ≤ pieces.entry.looks + length pieces.entry.texts }
        ensures looks_kept { pieces.entry.looks ≤ result.looks }
        ensures reads { result.reads ≡ pieces.entry.reads }
    {
        let mut pieces = pieces;
        let whole = summary_in(&mut pieces);
        PieceParts { pieces, whole }
    }
}

impl<'a> Parts<'a> for PieceParts<'a> {
    type Chunk = Chunk;

    ghost state = { λ p. parts_of p };

    fn len(&self) -> usize {
        self.whole.len
    }

    fn count(&self, lines: LineType) -> usize {
        self.whole.count(lines.scheme())
    }

    fn part_of_byte(&mut self, lines: LineType, encoding: Encoding, byte: usize) -> Part<'a> {
        part_at_byte(&mut self.pieces, lines, encoding, byte)
    }

    fn part_of_line(&mut self, lines: LineType, encoding: Encoding, line: usize) -> Part<'a> {
        part_at_line(&mut self.pieces, lines, encoding, line)
    }

    fn units_of_byte(&mut self, encoding: Encoding, byte: usize) -> usize {
        if self.whole.chars == self.whole.len {
            return byte.min(self.whole.len);
        }
        match unit_scheme(encoding) {
            None => char_start_in(&mut self.pieces, byte),
            Some(s) => from_in(&mut self.pieces, s, byte),
        }
    }

    fn byte_of_units(&mut self, encoding: Encoding, units: usize) -> usize {
        if self.whole.chars == self.whole.len {
            return units.min(self.whole.len);
        }
        match unit_scheme(encoding) {
            None => char_start_in(&mut self.pieces, units),
            Some(s) => to_in(&mut self.pieces, s, units),
        }
    }
}

/// Finds the part that a byte is in; past the end, the last one.
fn part_at_byte<'a>(
    p: &mut Pieces<'a>,
    lines: LineType,
    encoding: Encoding,
    byte: usize,
) -> Part<'a>
    ensures part { IsPart (joined p.old.texts) lines encoding result }
    ensures round { HasByte (joined p.old.texts) byte result }
    ensures start { result.start ≤ byte }
    ensures cost { Asks p.old p.new }
{
    if p.len() == 0 {
        return Part::of_nothing();
    }
    let placed = piece_round(p, lines.scheme(), byte);
    part_in(p, lines, encoding, &placed)
}

/// Finds the part in which a line begins; the last one if the text has no such line.
fn part_at_line<'a>(
    p: &mut Pieces<'a>,
    lines: LineType,
    encoding: Encoding,
    line: usize,
) -> Part<'a>
    ensures part { IsPart (joined p.old.texts) lines encoding result }
    ensures round { HasLine (joined p.old.texts) lines line result }
    ensures cost { Asks p.old p.new }
{
    if line == 0 {
        return part_at_byte(p, lines, encoding, 0);
    }
    if p.len() == 0 {
        return Part::of_nothing();
    }
    let placed = piece_up_to(p, lines.scheme(), line);
    part_in(p, lines, encoding, &placed)
}

/// Lends a piece as a part, for one read.
#[inline(always)]
fn part_in<'a>(p: &mut Pieces<'a>, lines: LineType, encoding: Encoding, placed: &Placed) -> Part<'a>
    requires { IsPlaced (scheme_of lines) p.old.texts placed.now }
    ensures part { IsPart (joined p.old.texts) lines encoding result }
    ensures text { chars result.text.now ≡ piece_at p.old.texts placed.now.piece }
    ensures start { result.start ≡ placed.now.before.len }
    ensures state { p.new ≡ record p.old { reads = p.old.reads + 1 } }
{
    let _short = p.len();
    let Placed { piece, before, own } = *placed;
    Part::of_piece(lines, encoding, p.text(piece), &before, &own)
}

/// Returns the greatest boundary at or before a byte index.
fn char_start_in(p: &mut Pieces, byte: usize) -> usize
    ensures answer { IsGreatestBoundary (joined p.old.texts) byte result }
    ensures cost { Asks p.old p.new }
{
    if p.len() == 0 {
        return 0;
    }
    let placed = piece_round(p, Scheme::Lf, byte);
    let start = placed.before.len;
    start + char_start(p.text(placed.piece), byte - start)
}
