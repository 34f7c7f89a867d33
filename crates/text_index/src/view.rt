//! The marks of a text as a query sees them, with counted looks and reads.
ghost use Rattle.std.specs.Prelude.{◌≡◌, ◌+◌, ◌^◌, ◌<◌, ◌≤◌, chars};
ghost use Rattle.str_indices.specs.Text.{size};
ghost use Rattle.text_index.specs.Marks.{AreMarks, IsMark, IsMarkAt, MarksState, stretches_of};
ghost use Rattle.text_index.specs.Stretches.{EndsBy, IsPart, IsStretch};

use crate::mark::{BEGINNING, Mark};
use crate::places::text_between;
use crate::stretch::Stretch;
use byte_chunk::Counter;
use std::marker::Model;

/// The marks of a text, for a query: it lends them and the text between two of them, and counts both.
///
/// A read is of one stretch, which has at most 1,028 bytes. The beginning and the end of the text are known without a look.
/// Only contracts see the counters. It is neither `Copy` nor `Clone`.
#[derive(Drop)]
pub struct Marks<'a> {
    text: &'a str,
    marks: &'a [Mark],
    whole: &'a Mark,
    looks: Counter,
    reads: Counter,
}

impl<'a> Model for Marks<'a> {
    ghost use Rattle.std.specs.Prelude.{chars};
    ghost use Rattle.text_index.specs.Marks.{AreMarks, MarksState};

    ghost Value = { MarksState };

    ghost view = { λ m. record { text = chars m.text.now; looks = m.looks; reads = m.reads } };

    ghost invariant = { λ m. AreMarks (chars m.text.now) m.marks.now m.whole.now };
}

impl<'a> Marks<'a> {
    /// A view of the marks, with nothing counted.
    pub(crate) fn of(text: &'a str, marks: &'a [Mark], whole: &'a Mark) -> Marks<'a>
        requires { AreMarks (chars text.now) marks.now whole.now }
        ensures { result ≡ record { text = chars text.now; looks = 0; reads = 0 } }
    {
        Marks {
            text,
            marks,
            whole,
            looks: Counter::zero(),
            reads: Counter::zero(),
        }
    }

    /// How many stretches the text has: its length in kilobytes, and one more. Counts nothing.
    pub fn stretches(&self) -> usize
        ensures { result ≡ stretches_of self.now.text }
    {
        self.marks.len() + 1
    }

    /// The mark at the text's beginning. Counts nothing.
    pub(crate) fn first(&self) -> &'a Mark
        ensures mark { IsMarkAt self.now.text 0 result.now }
        ensures start { result.now.byte ≡ 0 }
    {
        &BEGINNING
    }

    /// The mark at the text's end. Counts nothing.
    pub(crate) fn whole(&self) -> &'a Mark
        ensures mark { IsMark self.now.text result.now }
        ensures end { result.now.byte ≡ size self.now.text }
        ensures short { size self.now.text < 2 ^ 64 }
    {
        self.whole
    }

    /// Mark `i`, for one look.
    pub(crate) fn mark(&mut self, i: usize) -> &'a Mark
        requires above { 0 < i }
        requires within { i < stretches_of self.old.text }
        ensures mark { IsMarkAt self.old.text i result.now }
        ensures state { self.new ≡ record self.old { looks = self.old.looks + 1 } }
    {
        self.looks.tick();
        let marks = self.marks;
        &marks[i - 1]
    }

    /// Mark `i`, which is the text's beginning for 0. One look at most.
    pub(crate) fn start_of(&mut self, i: usize) -> &'a Mark
        requires within { i < stretches_of self.old.text }
        ensures mark { IsMarkAt self.old.text i result.now }
        ensures text { self.new.text ≡ self.old.text }
        ensures looks { self.new.looks ≤ self.old.looks + 1 }
        ensures looks_kept { self.old.looks ≤ self.new.looks }
        ensures reads { self.new.reads ≡ self.old.reads }
    {
        if i == 0 { self.first() } else { self.mark(i) }
    }

    /// The mark with which stretch `i - 1` ends: mark `i`, or for the last stretch the one at the text's end. One look
    /// at most.
    pub(crate) fn end_by(&mut self, i: usize) -> &'a Mark
        requires above { 0 < i }
        requires within { i ≤ stretches_of self.old.text }
        ensures mark { EndsBy self.old.text i result.now }
        ensures text { self.new.text ≡ self.old.text }
        ensures looks { self.new.looks ≤ self.old.looks + 1 }
        ensures looks_kept { self.old.looks ≤ self.new.looks }
        ensures reads { self.new.reads ≡ self.old.reads }
    {
        if i <= self.marks.len() {
            self.mark(i)
        } else {
            self.whole()
        }
    }

    /// The text of a stretch, for one read.
    pub(crate) fn read(&mut self, stretch: &Stretch<'_>) -> &'a str
        requires { IsStretch self.old.text stretch.now }
        ensures part { IsPart self.old.text stretch.now.start.now.byte stretch.now.end.now.byte (chars result.now) }
        ensures state { self.new ≡ record self.old { reads = self.old.reads + 1 } }
    {
        self.reads.tick();
        text_between(self.text, stretch.start.byte, stretch.end.byte)
    }
}
