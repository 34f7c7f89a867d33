//! A text with an index beside it.
ghost use Rattle.std.specs.Prelude.{◌≡◌, ◌<◌, ◌^◌, ◌↔◌, IfOk, IsOk, IsTrue, chars, length};
ghost use Rattle.str_indices.specs.Relations.{IsBoundary};
ghost use Rattle.str_indices.specs.Schemes.{count, from_byte_idx, to_byte_idx};
ghost use Rattle.str_indices.specs.Text.{size};
ghost use Rattle.text_index.specs.Marks.{AreMarks, MarksState, stretch_size};

use crate::mark::{BEGINNING, Mark};
use crate::marking::{fill, marks_for};
use crate::{BorrowedIndex, Marks, Scheme, count_in, from_in, to_in};
use std::alloc::{AllocError, Global};
use std::marker::Model;

/// A text with an index beside it, that answers for each byte and each index, past the end too. A contract sees the text.
///
/// It keeps one [`Mark`](crate::Mark) of 48 bytes for each 1,024 bytes of the text, and so takes no memory for a shorter one.
#[derive(Drop)]
pub struct TextIndex<'a> {
    text: &'a str,
    marks: Vec<Mark>,
    whole: Mark,
}

impl<'a> Model for TextIndex<'a> {
    ghost use Rattle.std.specs.Prelude.{chars};
    ghost use Rattle.str_indices.specs.Text.{Text};
    ghost use Rattle.text_index.specs.Marks.{AreMarks};

    ghost Value = { Text };

    ghost view = { λ t. chars t.text.now };

    ghost invariant = { λ t. AreMarks (chars t.text.now) t.marks.items t.whole };
}

impl<'a> TextIndex<'a> {
    /// Makes the index of a text, in one pass over it. It fails if memory is refused, and never for a text of fewer than
    /// 1,024 bytes.
    pub fn of(alloc: Global, text: &'a str) -> Result<TextIndex<'a>, AllocError>
        ensures ok { IfOk result (λ index. index ≡ chars text.now) }
        ensures small { length text.now < stretch_size → IsOk result }
    {
        let many = marks_for(text.len());
        let mut marks = Vec::with_capacity(alloc, many)?;
        marks.resize(many, BEGINNING)?;
        let whole = fill(text, marks.as_mut_slice());
        Ok(TextIndex { text, marks, whole })
    }

    /// The text.
    pub fn text(&self) -> &'a str
        ensures { chars result.now ≡ self.now }
    {
        self.text
    }

    /// How many bytes the text has.
    pub fn len(&self) -> usize
        ensures len { result ≡ size self.now }
        ensures short { size self.now < 2 ^ 64 }
    {
        self.whole.byte
    }

    /// Borrows the index.
    pub fn as_borrowed(&self) -> BorrowedIndex<'_>
        ensures { result ≡ self.now }
    {
        BorrowedIndex::of(self.text, self.marks.as_slice(), &self.whole)
    }

    /// Lends the marks to a query, with no look and no read counted yet.
    pub fn view(&self) -> Marks<'_>
        ensures { result ≡ record { text = self.now; looks = 0; reads = 0 } }
    {
        let index = self.as_borrowed();
        index.view()
    }

    /// Counts the chars, UTF-16 code units or line breaks of the text, in one step.
    pub fn count(&self, s: Scheme) -> usize
        ensures { result ≡ count s self.now }
    {
        count_in(&mut self.view(), s)
    }

    /// Counts those that end at or before byte index `b`; past the end, all. It reads at most 1,028 bytes of the text.
    pub fn from_byte_idx(&self, s: Scheme, b: usize) -> usize
        ensures { result ≡ from_byte_idx s self.now b }
    {
        from_in(&mut self.view(), s, b)
    }

    /// Converts index `k` to the byte index where its char, its unit's char or its line begins; the text's length if it
    /// has fewer. It searches the marks by halving, and reads at most 1,028 bytes of the text.
    pub fn to_byte_idx(&self, s: Scheme, k: usize) -> usize
        ensures { result ≡ to_byte_idx s self.now k }
    {
        to_in(&mut self.view(), s, k)
    }

    /// Whether a byte index is between chars, or at the text's beginning or end.
    pub fn is_char_boundary(&self, b: usize) -> bool
        ensures { IsTrue result ↔ IsBoundary self.now b }
    {
        self.as_borrowed().is_char_boundary(b)
    }
}
