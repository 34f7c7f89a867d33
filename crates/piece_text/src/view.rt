//! A text in pieces as a query sees it, with counted looks and reads.
ghost use Rattle.std.specs.Prelude.{◌≡◌, ◌≢◌, ◌+◌, ◌^◌, ◌<◌, [], length, chars};
ghost use Rattle.piece_text.specs.Pieces.{PiecesState, joined_size, piece_at};
ghost use Rattle.piece_text.specs.Runs.{AreRuns};
ghost use Rattle.piece_text.specs.Summaries.{summary_of};

use self::runs::Run;
use crate::Summary;
use crate::piece::Piece;
use byte_chunk::Counter;
use std::marker::Model;

pub(crate) mod runs;

/// The pieces of a text, for a query: it lends their summaries and their texts, and counts both.
///
/// Only contracts see its counters. It is neither `Copy` nor `Clone`, and lends a text or a summary by the calls alone that
/// count it.
#[derive(Drop)]
pub struct Pieces<'a> {
    pieces: &'a [Piece],
    runs: &'a [Run],
    looks: Counter,
    reads: Counter,
}

impl<'a> Model for Pieces<'a> {
    ghost use Rattle.std.specs.Prelude.{◌^◌, ◌<◌};
    ghost use Rattle.piece_text.specs.Pieces.{PiecesState, joined_size};
    ghost use Rattle.piece_text.specs.Runs.{AreRuns};

    ghost Value = { PiecesState };

    ghost view = { λ p. record { texts = p.pieces.now; looks = p.looks; reads = p.reads } };

    ghost invariant = { λ p. (joined_size p.pieces.now < 2 ^ 63) × AreRuns p.runs.now p.pieces.now };
}

impl<'a> Pieces<'a> {
    /// A view of the pieces, with nothing counted.
    pub(crate) fn of(pieces: &'a [Piece], runs: &'a [Run]) -> Pieces<'a>
        requires short { joined_size pieces.now < 2 ^ 63 }
        requires runs { AreRuns runs.now pieces.now }
        ensures { result ≡ record { texts = pieces.now; looks = 0; reads = 0 } }
    {
        Pieces {
            pieces,
            runs,
            looks: Counter::zero(),
            reads: Counter::zero(),
        }
    }

    /// How many pieces there are. Counts nothing.
    pub fn len(&self) -> usize
        ensures len { result ≡ length self.now.texts }
        ensures short { joined_size self.now.texts < 2 ^ 63 }
    {
        self.pieces.len()
    }

    /// The summary of piece `i`, for one look.
    pub fn summary(&mut self, i: usize) -> Summary
        requires { i < length self.old.texts }
        ensures summary { result ≡ summary_of (piece_at self.old.texts i) }
        ensures some { piece_at self.old.texts i ≢ [] }
        ensures short { joined_size self.old.texts < 2 ^ 63 }
        ensures state { self.new ≡ record self.old { looks = self.old.looks + 1 } }
    {
        self.looks.tick();
        let piece = &self.pieces[i];
        piece.summary()
    }

    /// The text of piece `i`, for one read.
    pub fn text(&mut self, i: usize) -> &'a str
        requires { i < length self.old.texts }
        ensures text { chars result.now ≡ piece_at self.old.texts i }
        ensures state { self.new ≡ record self.old { reads = self.old.reads + 1 } }
    {
        self.reads.tick();
        let pieces = self.pieces;
        pieces[i].text()
    }

    /// The runs of its pieces. Counts nothing: a run tells how many pieces it has, and only `whole` lends its sum.
    pub(crate) fn runs(&self) -> &'a [Run]
        ensures { AreRuns result.now self.now.texts }
    {
        self.runs
    }
}
