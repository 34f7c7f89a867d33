//! The answers for the joined text, from the summaries of its pieces and the text of at most one.
ghost use Rattle.std.specs.Prelude.{◌≡◌, ◌≢◌, ℕ, ◌+◌, ◌-◌, ◌<◌, ◌≤◌, [], length, take};
ghost use Rattle.str_indices.specs.Schemes.{count, from_byte_idx, to_byte_idx};
ghost use Rattle.piece_text.specs.Pieces.{joined, piece_at};
ghost use Rattle.text_summary.specs.Fronts.{IsFront};

use crate::ranges::{past_runs, range_for, range_round};
use crate::{Pieces, Scheme};
use text_summary::{Front, Step};

/// A piece, where it starts in the joined text, and the index to ask for in it.
#[derive(Clone, Copy)]
struct Asked {
    piece: usize,
    start: usize,
    index: usize,
}

/// How many chars, UTF-16 code units or line breaks the joined text has. Reads no piece.
pub fn count_in(p: &mut Pieces, s: Scheme) -> usize
    ensures answer { result ≡ count s (joined p.old.texts) }
    ensures texts { p.new.texts ≡ p.old.texts }
    ensures looks { p.new.looks ≤ p.old.looks + length p.old.texts }
    ensures looks_kept { p.old.looks ≤ p.new.looks }
    ensures reads { p.new.reads ≡ p.old.reads }
{
    let rest = past_runs(p, s);
    let mut front = rest.front;
    for i in rest.first..rest.end {
        front = step_over(p, s, i, front).after;
    }
    front.total
}

/// How many chars, UTF-16 code units or line breaks of the joined text end at or before a byte index; past the end, all. Reads
/// one piece at most.
pub fn from_in(p: &mut Pieces, s: Scheme, b: usize) -> usize
    ensures answer { result ≡ from_byte_idx s (joined p.old.texts) b }
    ensures texts { p.new.texts ≡ p.old.texts }
    ensures looks { p.new.looks ≤ p.old.looks + length p.old.texts }
    ensures looks_kept { p.old.looks ≤ p.new.looks }
    ensures reads { p.new.reads ≤ p.old.reads + 1 }
    ensures reads_kept { p.old.reads ≤ p.new.reads }
{
    let range = range_round(p, s, b);
    let mut front = range.front;
    for i in range.first..range.end {
        let step = step_over(p, s, i, front);
        if b < step.after.len {
            return step.reached + s.from_byte_idx(p.text(i), b - front.len);
        }
        front = step.after;
    }
    front.total
}

/// The byte index where char `k`, the char of code unit `k` or line `k` of the joined text begins; its length where it has
/// fewer. Reads one piece at most.
pub fn to_in(p: &mut Pieces, s: Scheme, k: usize) -> usize
    ensures answer { result ≡ to_byte_idx s (joined p.old.texts) k }
    ensures texts { p.new.texts ≡ p.old.texts }
    ensures looks { p.new.looks ≤ p.old.looks + length p.old.texts }
    ensures looks_kept { p.old.looks ≤ p.new.looks }
    ensures reads { p.new.reads ≤ p.old.reads + 1 }
    ensures reads_kept { p.old.reads ≤ p.new.reads }
{
    if k == 0 || p.len() == 0 {
        return 0;
    }
    let asked = piece_for(p, s, k);
    asked.start + s.to_byte_idx(p.text(asked.piece), asked.index)
}

/// Finds the piece that answers for index `k`: the last one before which the count is below `k`. The piece after it may take
/// off the break that it ends with.
fn piece_for(p: &mut Pieces, s: Scheme, k: usize) -> Asked
    requires pieces { 0 < length p.old.texts }
    requires index { 0 < k }
    ensures inside { result.piece < length p.old.texts }
    ensures answer { to_byte_idx s (joined p.old.texts) k
        ≡ result.start + to_byte_idx s (piece_at p.old.texts result.piece) result.index }
    ensures texts { p.new.texts ≡ p.old.texts }
    ensures looks { p.new.looks ≤ p.old.looks + length p.old.texts }
    ensures looks_kept { p.old.looks ≤ p.new.looks }
    ensures reads { p.new.reads ≡ p.old.reads }
{
    let range = range_for(p, s, k);
    let mut front = range.front;
    let mut asked = Asked {
        piece: range.first,
        start: 0,
        index: 0,
    };
    for i in range.first..range.end {
        let step = step_over(p, s, i, front);
        if k <= step.reached {
            return asked;
        }
        asked = Asked {
            piece: i,
            start: front.len,
            index: k - step.reached,
        };
        front = step.after;
    }
    asked
}

/// Steps over piece `i`, for one look.
fn step_over(p: &mut Pieces, s: Scheme, i: usize, front: Front) -> Step
    requires inside { i < length p.old.texts }
    requires front { IsFront s (joined (take i p.old.texts)) front }
    ensures state { p.new ≡ record p.old { looks = p.old.looks + 1 } }
    ensures some { piece_at p.old.texts i ≢ [] }
    ensures reached { result.reached ≤ front.total }
    ensures after { IsFront s (joined (take (i + 1) p.old.texts)) result.after }
    ensures from_here { (b : ℕ) → front.len ≤ b → b < result.after.len →
        from_byte_idx s (joined p.old.texts) b
        ≡ result.reached + from_byte_idx s (piece_at p.old.texts i) (b - front.len) }
    ensures to_reached { (k : ℕ) → k ≤ result.reached →
        to_byte_idx s (joined p.old.texts) k
        ≡ to_byte_idx s (joined (take i p.old.texts)) k }
    ensures to_here { (k : ℕ) → result.reached < k →
        to_byte_idx s (joined (take (i + 1) p.old.texts)) k
        ≡ front.len + to_byte_idx s (piece_at p.old.texts i) (k - result.reached) }
{
    let piece = p.summary(i);
    front.step(s, piece)
}
