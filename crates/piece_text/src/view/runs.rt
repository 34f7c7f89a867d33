//! Sums over runs of pieces, so that a question passes many pieces at one look.
//!
//! The runs stand one after the other, from the first piece on. The pieces after the last run are in none: they are few, so a
//! change at the end of the list sums nothing. A change in a run corrects its sum by what goes out and what comes in. The list
//! takes its memory before a run is cut or a new one is made, so nothing can be refused after that.
ghost use Rattle.std.specs.Prelude.{◌≡◌, ◌≢◌, ◌+◌, ◌^◌, ◌<◌, ◌≤◌, [], List, length, take, drop};
ghost use Rattle.str_indices.specs.Joins.{starts_with_feed, ends_in_return};
ghost use Rattle.str_indices.specs.Text.{Text};
ghost use Rattle.piece_text.specs.Pieces.{joined, joined_size};
ghost use Rattle.piece_text.specs.Summaries.{summary_of};
ghost use Rattle.piece_text.specs.Runs.{IsRun, AreRuns, IsRunSwapped, Swapped, pieces_in};
ghost use Rattle.piece_text.specs.PieceRanges.{IsRunOf, IsSpanRound};

use crate::piece::Piece;
use crate::{Pieces, Summary};
use std::alloc::{AllocError, Global};
use std::marker::Model;
use text_summary::{Update, apply_update, join_summaries};

/// How many pieces a new run has. A run with twice as many is cut before it grows.
const RUN: usize = 64;

/// The pieces that replace others at one place of a list.
#[derive(Clone, Copy)]
pub(crate) struct Swap {
    /// How many pieces go out: one at most.
    pub(crate) gone: usize,
    /// How many come in.
    pub(crate) come: usize,
    /// The summary of what goes out.
    pub(crate) out: Summary,
    /// The summary of what comes in.
    pub(crate) own: Summary,
}

/// Neighbouring pieces: how many there are, and their sum.
#[derive(Clone, Copy)]
pub(crate) struct Run {
    /// How many pieces the run has.
    pub(crate) pieces: usize,
    /// The summary of their joined text. Other modules get it by `Pieces::whole` alone, which counts a look.
    whole: Summary,
}

impl<'a> Pieces<'a> {
    /// The sum of one of its own runs, for one look.
    pub(crate) fn whole(&mut self, run: &Run) -> Summary
        requires { IsRunOf self.old.texts run.now }
        ensures whole { result ≡ run.now.whole }
        ensures short { joined_size self.old.texts < 2 ^ 63 }
        ensures state { self.new ≡ record self.old { looks = self.old.looks + 1 } }
    {
        self.looks.tick();
        run.whole
    }
}

impl Run {
    /// Makes the run of `count` pieces from piece `first` on.
    fn of(pieces: &[Piece], first: usize, count: usize) -> Run
        requires some { 0 < count }
        requires within { first + count ≤ length pieces.now }
        requires short { joined_size pieces.now < 2 ^ 63 }
        ensures run { IsRun result (take count (drop first pieces.now)) }
        ensures count { result.pieces ≡ count }
    {
        let whole = Run::sum(&pieces[first..first + count]);
        Run {
            pieces: count,
            whole,
        }
    }

    /// Sums some pieces: the summary of their joined text.
    fn sum(pieces: &[Piece]) -> Summary
        requires some { 0 < length pieces.now }
        requires short { joined_size pieces.now < 2 ^ 63 }
        ensures sum { result ≡ summary_of (joined pieces.now) }
        ensures some { joined pieces.now ≢ [] }
    {
        let mut whole = pieces[0].summary();
        for i in 1..pieces.len() {
            whole = join_summaries(whole, pieces[i].summary());
        }
        whole
    }

    /// Returns the run after a swap of pieces in it. `own` are the pieces that it has then, and `at` is the number of the first
    /// new one.
    fn swap(self, own: &[Piece], at: usize, swap: Swap) -> Run
        requires swapped { IsRunSwapped self own.now at swap }
        requires some { 0 < length own.now }
        requires short { joined_size own.now < 2 ^ 63 }
        ensures { IsRun result own.now }
    {
        let change = Update {
            ends_cr: ends_before(own, at),
            starts_lf: starts_from(own, at + swap.come),
            removed: swap.out,
            inserted: swap.own,
        };
        let count = own.len();
        let starts_lf = starts_from(own, 0);
        let ends_cr = ends_before(own, count);
        Run {
            pieces: count,
            whole: apply_update(self.whole, change, starts_lf, ends_cr),
        }
    }
}

/// The runs of a list of pieces. A contract sees the list of them.
#[derive(Drop)]
pub(crate) struct Runs {
    runs: Vec<Run>,
    /// How many pieces are in them.
    pieces: usize,
}

impl Model for Runs {
    ghost use Rattle.std.specs.Prelude.{◌≡◌, List};
    ghost use Rattle.piece_text.specs.Runs.{pieces_in};
    ghost use Rattle.piece_text.specs.declared.view.runs.Run.{Run};

    ghost Value = { List Run };

    ghost view = { λ r. r.runs.items };

    ghost invariant = { λ r. r.pieces ≡ pieces_in r.runs.items };
}

impl Runs {
    /// No runs. Takes no memory.
    pub(crate) fn new(alloc: Global) -> Runs
        ensures { result ≡ [] }
    {
        Runs {
            runs: Vec::new(alloc),
            pieces: 0,
        }
    }

    /// The runs one after the other.
    pub(crate) fn as_slice(&self) -> &[Run]
        ensures { result.now ≡ self.now }
    {
        self.runs.as_slice()
    }

    /// Finds the run that piece `at` is in, and the number of that run's first piece. It goes over the runs from the last one
    /// back.
    fn run_of(&self, at: usize) -> (usize, usize)
        requires { at < pieces_in self.now }
        ensures run { result.0 < length self.now }
        ensures first { result.1 ≡ pieces_in (take result.0 self.now) }
        ensures past { result.1 ≤ at }
        ensures within { at < pieces_in (take (result.0 + 1) self.now) }
    {
        let all = self.runs.len();
        let mut end = self.pieces;
        for after in 0..all {
            let r = all - 1 - after;
            let first = end - self.runs[r].pieces;
            if first <= at {
                return (r, first);
            }
            end = first;
        }
        unreachable!()
    }

    /// Makes room for a piece at `at`: it cuts the run there in two if that is full, or makes a run of the first pieces that
    /// are in none, if they are many. If memory for that is refused, all stays.
    #[inline(always)]
    pub(crate) fn make_room(&mut self, pieces: &[Piece], at: usize) -> Result<(), AllocError>
        requires are { AreRuns self.old pieces.now }
        requires few { length pieces.now < 2 ^ 64 }
        requires short { joined_size pieces.now < 2 ^ 63 }
        ensures { AreRuns self.new pieces.now }
    {
        if at < self.pieces {
            self.halve(pieces, at)
        } else if pieces.len() - self.pieces < 2 * RUN {
            Ok(())
        } else {
            self.gather(pieces)
        }
    }

    /// Drops the last run, so that its pieces are in none, if the last piece is in it and goes out. So taking pieces out at the
    /// end sums nothing.
    #[inline(always)]
    pub(crate) fn open_end(&mut self, at: usize, last: usize)
        ensures { (texts : List Text) → AreRuns self.old texts → AreRuns self.new texts }
    {
        if at < last || self.pieces <= last {
            return;
        }
        if let Some(run) = self.runs.pop() {
            self.pieces -= run.pieces;
        }
    }

    /// Corrects the sum of the run in which pieces were swapped at `at`.
    #[inline(always)]
    pub(crate) fn swap(&mut self, pieces: &[Piece], at: usize, swap: Swap)
        requires swapped { Swapped self.old pieces.now at swap }
        requires few { length pieces.now < 2 ^ 64 }
        requires short { joined_size pieces.now < 2 ^ 63 }
        ensures { AreRuns self.new pieces.now }
    {
        if at < self.pieces {
            self.swap_in_run(pieces, at, swap);
        }
    }

    /// Corrects the sum of the run of piece `at`, which there is.
    fn swap_in_run(&mut self, pieces: &[Piece], at: usize, swap: Swap)
        requires swapped { Swapped self.old pieces.now at swap }
        requires few { length pieces.now < 2 ^ 64 }
        requires short { joined_size pieces.now < 2 ^ 63 }
        requires inside { at < pieces_in self.old }
        ensures { AreRuns self.new pieces.now }
    {
        let (r, first) = self.run_of(at);
        let run = self.runs[r];
        let count = run.pieces - swap.gone + swap.come;
        self.pieces = self.pieces - swap.gone + swap.come;
        if count == 0 {
            self.runs.remove(r);
            return;
        }
        self.runs[r] = run.swap(&pieces[first..first + count], at - first, swap);
    }

    /// Cuts the run that piece `at` is in in two, if it has many pieces.
    fn halve(&mut self, pieces: &[Piece], at: usize) -> Result<(), AllocError>
        requires are { AreRuns self.old pieces.now }
        requires few { length pieces.now < 2 ^ 64 }
        requires inside { at < pieces_in self.old }
        requires short { joined_size pieces.now < 2 ^ 63 }
        ensures { AreRuns self.new pieces.now }
    {
        let (r, first) = self.run_of(at);
        let count = self.runs[r].pieces;
        if count < 2 * RUN {
            return Ok(());
        }
        let right = Run::of(pieces, first + RUN, count - RUN);
        let Ok(()) = self.runs.insert(r + 1, right) else {
            return Err(AllocError);
        };
        self.runs[r] = Run::of(pieces, first, RUN);
        Ok(())
    }

    /// Makes a run of the first pieces that are in none.
    fn gather(&mut self, pieces: &[Piece]) -> Result<(), AllocError>
        requires are { AreRuns self.old pieces.now }
        requires many { pieces_in self.old + 64 ≤ length pieces.now }
        requires short { joined_size pieces.now < 2 ^ 63 }
        ensures { AreRuns self.new pieces.now }
    {
        let run = Run::of(pieces, self.pieces, RUN);
        let Ok(()) = self.runs.push(run) else {
            return Err(AllocError);
        };
        self.pieces += RUN;
        Ok(())
    }
}

/// Whether the text of the pieces before piece `at` ends in CR.
fn ends_before(pieces: &[Piece], at: usize) -> bool
    requires { at ≤ length pieces.now }
    ensures ends { result ≡ ends_in_return (joined (take at pieces.now)) }
    ensures some { 0 < at → joined (take at pieces.now) ≢ [] }
{
    if at == 0 {
        return false;
    }
    pieces[at - 1].summary().ends_cr
}

/// Whether the text of the pieces from piece `at` on starts with LF.
fn starts_from(pieces: &[Piece], at: usize) -> bool
    ensures { result ≡ starts_with_feed (joined (drop at pieces.now)) }
{
    if at >= pieces.len() {
        return false;
    }
    pieces[at].summary().starts_lf
}

/// Neighbouring pieces, and the byte index where they start.
#[derive(Clone, Copy)]
pub(crate) struct PieceSpan {
    /// The number of the first one.
    pub(crate) first: usize,
    /// The number of the piece after the last one.
    pub(crate) end: usize,
    /// Where the first one starts.
    pub(crate) start: usize,
}

/// Finds the pieces of the run that a byte is in, or those that are in no run.
pub(crate) fn span_round(runs: &[Run], pieces: &[Piece], byte_idx: usize) -> PieceSpan
    requires runs { AreRuns runs.now pieces.now }
    requires short { joined_size pieces.now < 2 ^ 63 }
    ensures { IsSpanRound pieces.now byte_idx result }
{
    let all = pieces.len();
    let mut first: usize = 0;
    let mut start: usize = 0;
    for run in runs {
        let end = first + run.pieces;
        let len = run.whole.len;
        if byte_idx - start < len {
            return PieceSpan { first, end, start };
        }
        first = end;
        start += len;
    }
    PieceSpan {
        first,
        end: all,
        start,
    }
}
