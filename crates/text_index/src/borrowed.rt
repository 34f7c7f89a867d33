//! An index with borrowed marks.
ghost use Rattle.std.specs.Prelude.{◌≡◌, ◌<◌, ◌^◌, ◌↔◌, IsTrue, chars};
ghost use Rattle.str_indices.specs.Relations.{IsBoundary};
ghost use Rattle.str_indices.specs.Text.{size};
ghost use Rattle.text_index.specs.Marks.{AreMarks, MarksState};

use crate::Marks;
use crate::mark::Mark;
use std::marker::Model;

/// An index with borrowed marks: those of a [`TextIndex`](crate::TextIndex), or marks in the caller's own memory. A
/// contract sees the text.
#[derive(Drop)]
pub struct BorrowedIndex<'a> {
    text: &'a str,
    marks: &'a [Mark],
    whole: &'a Mark,
}

impl<'a> Model for BorrowedIndex<'a> {
    ghost use Rattle.std.specs.Prelude.{chars};
    ghost use Rattle.str_indices.specs.Text.{Text};
    ghost use Rattle.text_index.specs.Marks.{AreMarks};

    ghost Value = { Text };

    ghost view = { λ t. chars t.text.now };

    ghost invariant = { λ t. AreMarks (chars t.text.now) t.marks.now t.whole.now };
}

impl<'a> BorrowedIndex<'a> {
    /// Makes the index of a text from what `fill` wrote for it, `marks`, and answered, `whole`.
    pub fn of(text: &'a str, marks: &'a [Mark], whole: &'a Mark) -> BorrowedIndex<'a>
        requires { AreMarks (chars text.now) marks.now whole.now }
        ensures { result ≡ chars text.now }
    {
        BorrowedIndex { text, marks, whole }
    }

    /// The text.
    pub fn text(&self) -> &'a str
        ensures { chars result.now ≡ self.now }
    {
        self.text
    }

    /// How many bytes the text has.
    pub fn len(&self) -> usize
        ensures len { result ≡ size self.now }
        ensures short { size self.now < 2 ^ 64 }
    {
        self.whole.byte
    }

    /// Whether a byte index is between chars, or at the text's beginning or end.
    pub fn is_char_boundary(&self, b: usize) -> bool
        ensures { IsTrue result ↔ IsBoundary self.now b }
    {
        let text = self.text();
        text.is_char_boundary(b)
    }

    /// Lends the marks to a query, with no look and no read counted yet.
    pub fn view(&self) -> Marks<'a>
        ensures { result ≡ record { text = self.now; looks = 0; reads = 0 } }
    {
        Marks::of(self.text, self.marks, self.whole)
    }
}
