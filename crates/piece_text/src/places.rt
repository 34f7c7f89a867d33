//! Finds the piece that a byte is in, or in which a count is reached, with its summary and the front before it.
ghost use Rattle.std.specs.Prelude.{◌≡◌, ◌+◌, ◌<◌, ◌≤◌, length};
ghost use Rattle.piece_text.specs.Parts.{Comes, HasPlace};

use crate::ranges::{range_for, range_round};
use crate::{Pieces, Scheme, Summary};
use text_summary::Front;

/// A piece, the front before it, and its summary.
#[derive(Clone, Copy)]
pub(crate) struct Placed {
    /// The number of the piece.
    pub(crate) piece: usize,
    /// The bytes and the count of the text before it, and whether that ends in CR.
    pub(crate) before: Front,
    /// Its summary.
    pub(crate) own: Summary,
}

/// Finds the piece that a byte is in; past the end, the last one. It reads no piece.
pub(crate) fn piece_round(p: &mut Pieces, s: Scheme, b: usize) -> Placed
    requires { 0 < length p.old.texts }
    ensures place { HasPlace s p.old.texts result b }
    ensures texts { p.new.texts ≡ p.old.texts }
    ensures looks { p.new.looks ≤ p.old.looks + length p.old.texts }
    ensures looks_kept { p.old.looks ≤ p.new.looks }
    ensures reads { p.new.reads ≡ p.old.reads }
{
    let range = range_round(p, s, b);
    let last = range.end - 1;
    let mut front = range.front;
    for i in range.first..last {
        let own = p.summary(i);
        let after = front.step(s, own).after;
        if b < after.len {
            return Placed {
                piece: i,
                before: front,
                own,
            };
        }
        front = after;
    }
    Placed {
        piece: last,
        before: front,
        own: p.summary(last),
    }
}

/// Finds the last piece before which the count is below `k`: an LF that begins a piece may take off the break that the piece
/// before it ends with. It reads no piece.
pub(crate) fn piece_up_to(p: &mut Pieces, s: Scheme, k: usize) -> Placed
    requires pieces { 0 < length p.old.texts }
    requires count { 0 < k }
    ensures comes { Comes s p.old.texts result k }
    ensures texts { p.new.texts ≡ p.old.texts }
    ensures looks { p.new.looks ≤ p.old.looks + length p.old.texts }
    ensures looks_kept { p.old.looks ≤ p.new.looks }
    ensures reads { p.new.reads ≡ p.old.reads }
{
    let range = range_for(p, s, k);
    let mut front = range.front;
    let mut last = Placed {
        piece: range.first,
        before: front,
        own: Summary::none(),
    };
    for i in range.first..range.end {
        let own = p.summary(i);
        let step = front.step(s, own);
        if k <= step.reached {
            return last;
        }
        last = Placed {
            piece: i,
            before: front,
            own,
        };
        front = step.after;
    }
    last
}
