//! The summary of the joined text, added up from the runs and the pieces that are in none.
ghost use Rattle.std.specs.Prelude.{◌≡◌, ◌+◌, ◌≤◌, length, take};
ghost use Rattle.piece_text.specs.Pieces.{joined};
ghost use Rattle.piece_text.specs.Summaries.{summary_of};

use crate::{Pieces, Summary};
use text_summary::join_summaries;

/// Some first pieces, and the summary of their joined text.
#[derive(Clone, Copy)]
struct Sum {
    /// How many pieces.
    pieces: usize,
    /// The summary.
    whole: Summary,
}

/// Returns the summary of the joined text. It reads no piece.
pub(crate) fn summary_in(p: &mut Pieces) -> Summary
    ensures answer { result ≡ summary_of (joined p.old.texts) }
    ensures texts { p.new.texts ≡ p.old.texts }
    ensures looks { p.new.looks ≤ p.old.looks + length p.old.texts }
    ensures looks_kept { p.old.looks ≤ p.new.looks }
    ensures reads { p.new.reads ≡ p.old.reads }
{
    let all = p.len();
    let sum = sum_of_runs(p);
    let mut whole = sum.whole;
    for i in sum.pieces..all {
        whole = join_summaries(whole, p.summary(i));
    }
    whole
}

/// Sums the pieces that are in runs.
fn sum_of_runs(p: &mut Pieces) -> Sum
    ensures within { result.pieces ≤ length p.old.texts }
    ensures whole { result.whole ≡ summary_of (joined (take result.pieces p.old.texts)) }
    ensures texts { p.new.texts ≡ p.old.texts }
    ensures looks { p.new.looks ≤ p.old.looks + result.pieces }
    ensures looks_kept { p.old.looks ≤ p.new.looks }
    ensures reads { p.new.reads ≡ p.old.reads }
{
    let _all = p.len();
    let mut pieces: usize = 0;
    let mut whole = Summary::none();
    for run in p.runs() {
        whole = join_summaries(whole, p.whole(run));
        pieces += run.pieces;
    }
    Sum { pieces, whole }
}
