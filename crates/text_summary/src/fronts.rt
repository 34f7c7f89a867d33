//! The text before a piece: its counts, and how it ends.
ghost use Rattle.std.specs.Prelude.{◌≡◌, ◌≢◌, ◌-◌, [], ◌++◌};
ghost use Rattle.str_indices.specs.Text.{Text};
ghost use Rattle.str_indices.specs.Schemes.{count};
ghost use Rattle.str_indices.specs.Joins.{starts_with_feed, seam_loss};
ghost use Rattle.str_indices.specs.declared.Scheme.{Scheme};
ghost use Rattle.text_summary.specs.Summaries.{summary_of};
ghost use Rattle.text_summary.specs.Fronts.{IsFront, IsStep, IsBefore, IsFollowed};

use crate::{Scheme, Summary, lost_at_seam};

/// The text before a piece, as far as it is known: its bytes, its count in a scheme, and whether it ends in CR.
#[derive(Clone, Copy)]
pub struct Front {
    /// How many bytes it has.
    pub len: usize,
    /// How many chars, UTF-16 code units or line breaks.
    pub total: usize,
    /// Whether its last char is CR.
    pub ends_cr: bool,
}

/// A step over a piece: what is known before it and after it.
#[derive(Clone, Copy)]
pub struct Step {
    /// The count of the text before the piece, less what the seam takes off.
    pub reached: usize,
    /// The front of the next piece.
    pub after: Front,
}

impl Front {
    /// Returns the front of the first piece.
    pub fn none() -> Front
        ensures { (s : Scheme) → IsFront s [] result }
    {
        Front {
            len: 0,
            total: 0,
            ends_cr: false,
        }
    }

    /// Returns the count of the text before, less what the seam takes off. `starts_lf` says whether the text after it
    /// starts with LF.
    pub fn count_before(self, s: Scheme, starts_lf: bool) -> usize
        requires { IsBefore s self starts_lf }
        ensures { (a b : Text) → IsFront s a self → starts_lf ≡ starts_with_feed b →
            result ≡ count s a - seam_loss s a b }
    {
        self.total - lost_at_seam(s, self.ends_cr, starts_lf)
    }

    /// Steps over the next piece, by its summary.
    pub fn step(self, s: Scheme, piece: Summary) -> Step
        requires { IsFollowed s self piece }
        ensures { (a b : Text) → IsFront s a self → piece ≡ summary_of b → b ≢ [] → IsStep s a b result }
    {
        let reached = self.count_before(s, piece.starts_lf);
        let len = self.len + piece.len;
        let total = reached + piece.count(s);
        Step {
            reached,
            after: Front {
                len,
                total,
                ends_cr: piece.ends_cr,
            },
        }
    }
}
