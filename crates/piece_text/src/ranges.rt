//! Finds the few pieces to look at one by one for an answer, after runs of pieces have been passed.
ghost use Rattle.std.specs.Prelude.{◌≡◌, ◌+◌, ◌-◌, ◌^◌, ◌<◌, ◌≤◌, length, take};
ghost use Rattle.piece_text.specs.Pieces.{joined, joined_size};
ghost use Rattle.piece_text.specs.PieceRanges.{IsPieceRange, IsRunAt, IsSettled};
ghost use Rattle.text_summary.specs.Fronts.{IsFront};

use crate::view::runs::Run;
use crate::{Pieces, Scheme};
use text_summary::Front;

/// Neighbouring pieces, and the front before them.
#[derive(Clone, Copy)]
pub(crate) struct PieceRange {
    /// The number of the first one.
    pub(crate) first: usize,
    /// The number of the piece after the last one.
    pub(crate) end: usize,
    /// The front before the first one.
    pub(crate) front: Front,
}

/// Finds the pieces that are in no run, by one look at each run.
#[inline(always)]
pub(crate) fn past_runs(p: &mut Pieces, s: Scheme) -> PieceRange
    ensures range { IsPieceRange s p.old.texts result }
    ensures end { result.end ≡ length p.old.texts }
    ensures texts { p.new.texts ≡ p.old.texts }
    ensures looks { p.new.looks + (result.end - result.first) ≤ p.old.looks + length p.old.texts }
    ensures looks_kept { p.old.looks ≤ p.new.looks }
    ensures reads { p.new.reads ≡ p.old.reads }
{
    if !p.runs().is_empty() {
        return past_all_runs(p, s);
    }
    PieceRange {
        first: 0,
        end: p.len(),
        front: Front::none(),
    }
}

/// Passes all runs, one after the other, and returns the pieces after them.
#[inline(never)]
fn past_all_runs(p: &mut Pieces, s: Scheme) -> PieceRange
    ensures range { IsPieceRange s p.old.texts result }
    ensures end { result.end ≡ length p.old.texts }
    ensures texts { p.new.texts ≡ p.old.texts }
    ensures looks { p.new.looks + (result.end - result.first) ≤ p.old.looks + length p.old.texts }
    ensures looks_kept { p.old.looks ≤ p.new.looks }
    ensures reads { p.new.reads ≡ p.old.reads }
{
    let all = p.len();
    let mut first: usize = 0;
    let mut front = Front::none();
    for run in p.runs() {
        front = pass(p, s, first, front, run);
        first += run.pieces;
    }
    PieceRange {
        first,
        end: all,
        front,
    }
}

/// Finds the pieces of the run that a byte is in, or those that are in no run. If the last run has the last piece, the byte can
/// be nowhere else, so that run is not looked at.
#[inline(always)]
pub(crate) fn range_round(p: &mut Pieces, s: Scheme, b: usize) -> PieceRange
    ensures range { IsPieceRange s p.old.texts result }
    ensures past { result.front.len ≤ b }
    ensures some { 0 < length p.old.texts → result.first < result.end }
    ensures end { result.end < length p.old.texts → b < joined_size (take result.end p.old.texts) }
    ensures short { joined_size p.old.texts < 2 ^ 63 }
    ensures texts { p.new.texts ≡ p.old.texts }
    ensures looks { p.new.looks + (result.end - result.first) ≤ p.old.looks + length p.old.texts }
    ensures looks_kept { p.old.looks ≤ p.new.looks }
    ensures reads { p.new.reads ≡ p.old.reads }
{
    let all = p.len();
    let mut first: usize = 0;
    let mut front = Front::none();
    for run in p.runs() {
        let end = first + run.pieces;
        if end == all {
            return PieceRange { first, end, front };
        }
        let after = pass(p, s, first, front, run);
        if b < after.len {
            return PieceRange { first, end, front };
        }
        first = end;
        front = after;
    }
    PieceRange {
        first,
        end: all,
        front,
    }
}

/// Finds the pieces of the run in which the count reaches `k`, and the piece after it, which may take off the break that the
/// run ends with. If no run reaches `k`, it returns the pieces in no run, and those of the last run if one piece at most
/// follows it.
#[inline(always)]
pub(crate) fn range_for(p: &mut Pieces, s: Scheme, k: usize) -> PieceRange
    requires { 0 < k }
    ensures range { IsPieceRange s p.old.texts result }
    ensures below { result.front.total < k }
    ensures some { 0 < length p.old.texts → result.first < result.end }
    ensures end { result.end < length p.old.texts → IsSettled s p.old.texts result.end k }
    ensures texts { p.new.texts ≡ p.old.texts }
    ensures looks { p.new.looks + (result.end - result.first) ≤ p.old.looks + length p.old.texts }
    ensures looks_kept { p.old.looks ≤ p.new.looks }
    ensures reads { p.new.reads ≡ p.old.reads }
{
    let all = p.len();
    let mut first: usize = 0;
    let mut front = Front::none();
    for run in p.runs() {
        let end = first + run.pieces;
        if all - end < 2 {
            return PieceRange {
                first,
                end: all,
                front,
            };
        }
        let after = pass(p, s, first, front, run);
        if k <= after.total {
            return PieceRange {
                first,
                end: end + 1,
                front,
            };
        }
        first = end;
        front = after;
    }
    PieceRange {
        first,
        end: all,
        front,
    }
}

/// Passes a run, for one look: returns the front before the piece after it.
fn pass(p: &mut Pieces, s: Scheme, first: usize, front: Front, run: &Run) -> Front
    requires run { IsRunAt p.old.texts first run.now }
    requires front { IsFront s (joined (take first p.old.texts)) front }
    ensures state { p.new ≡ record p.old { looks = p.old.looks + 1 } }
    ensures after { IsFront s (joined (take (first + run.now.pieces) p.old.texts)) result }
{
    let whole = p.whole(run);
    front.step(s, whole).after
}
