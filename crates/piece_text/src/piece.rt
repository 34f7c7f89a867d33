//! One piece of a text, with its summary.
ghost use Rattle.std.specs.Prelude.{◌≡◌, ◌≢◌, ◌<◌, ◌↔◌, [], chars, IfOk, IsTrue};
ghost use Rattle.str_indices.specs.Text.{size};
ghost use Rattle.str_indices.specs.Relations.{IsBoundary};
ghost use Rattle.piece_text.specs.Summaries.{summary_of};
ghost use Rattle.piece_text.specs.Splits.{IsHalved};

use crate::Summary;
use std::alloc::{AllocError, Global};
use std::marker::Model;
use str_indices::counts;

/// A text that is not empty, and its summary. A contract sees the text's chars.
///
/// It takes one word in a list, so that a change of the list moves little.
#[derive(Drop)]
pub(crate) struct Piece {
    body: Box<Body>,
}

/// The text of a piece, and its summary.
#[derive(Drop)]
struct Body {
    text: String,
    summary: Summary,
}

impl Model for Piece {
    ghost use Rattle.std.specs.Prelude.{chars, string_bytes};
    ghost use Rattle.str_indices.specs.Text.{Text};
    ghost use Rattle.piece_text.specs.Summaries.{IsPiece};

    ghost Value = { Text };

    ghost view = { λ p. chars (string_bytes p.body.value.text) };

    ghost invariant = { λ p. IsPiece p.body.value.summary (chars (string_bytes p.body.value.text)) };
}

impl Piece {
    /// Makes the piece of a text that is not empty: a copy of it, and its summary.
    pub(crate) fn of(alloc: Global, text: &str) -> Result<Piece, AllocError>
        requires { chars text.now ≢ [] }
        ensures { IfOk result (λ piece. piece ≡ chars text.now) }
    {
        let body = Body {
            text: String::new(alloc),
            summary: Summary::with_counts(text, &counts(text)),
        };
        // before its text, so that both lie side by side
        let Ok(mut body) = Box::new(alloc, body) else {
            return Err(AllocError);
        };
        body.text = String::from_str(alloc, text)?;
        Ok(Piece { body })
    }

    /// The summary of its text.
    pub(crate) fn summary(&self) -> Summary
        ensures summary { result ≡ summary_of self.now }
        ensures some { self.now ≢ [] }
    {
        self.body.summary
    }

    /// How many bytes it has.
    pub(crate) fn len(&self) -> usize
        ensures { result ≡ size self.now }
    {
        self.body.summary.len
    }

    /// Its text.
    pub(crate) fn text(&self) -> &str
        ensures { chars result.now ≡ self.now }
    {
        self.body.text.as_str()
    }

    /// Whether a byte index in the piece is a boundary of its text.
    pub(crate) fn is_boundary(&self, at: usize) -> bool
        ensures { IsTrue result ↔ IsBoundary self.now at }
    {
        is_boundary(self.body.text.as_str(), at)
    }

    /// Cuts the piece in two at a boundary.
    pub(crate) fn halves(&self, alloc: Global, at: usize) -> Result<(Piece, Piece), AllocError>
        requires above { 0 < at }
        requires below { at < size self.now }
        requires boundary { IsBoundary self.now at }
        ensures { IfOk result (λ halves. IsHalved self.now halves.0 halves.1 at) }
    {
        let (left, right) = self.split(at);
        Ok((Piece::of(alloc, left)?, Piece::of(alloc, right)?))
    }

    // Cuts the text in two parts, neither of them empty.
    fn split(&self, at: usize) -> (&str, &str)
        requires above { 0 < at }
        requires below { at < size self.now }
        requires boundary { IsBoundary self.now at }
        ensures { IsHalved self.now (chars result.0.now) (chars result.1.now) at }
    {
        self.text().split_at(at)
    }
}

/// Whether a byte index of a text is a boundary.
fn is_boundary(text: &str, at: usize) -> bool
    ensures { IsTrue result ↔ IsBoundary (chars text.now) at }
{
    text.is_char_boundary(at)
}
