//! The index of a text as C holds it.
ghost use Rattle.std.specs.Prelude.{◌≡◌};
ghost use Rattle.text_index.specs.Marks.{MarksState};
ghost use Rattle.text_index_c.specs.Handles.{IsIndex, text_of};

use c_values::utf8_of;
use text_index::{BorrowedIndex, Mark, Marks};

/// The index of a text as C holds it: the text, which C keeps, its marks, and the one at its end.
#[derive(Clone, Copy)]
#[repr(C)]
pub struct IndexHandle<'a> {
    pub(crate) text: &'a [u8],
    pub(crate) marks: &'a [Mark],
    pub(crate) whole: Mark,
}

/// The index that a handle stands for.
pub(crate) fn index_of<'a>(handle: &'a IndexHandle<'_>) -> BorrowedIndex<'a>
    requires { IsIndex handle.now }
    ensures { result ≡ text_of handle.now }
{
    BorrowedIndex::of(utf8_of(handle.text), handle.marks, &handle.whole)
}

/// Lends the marks of that index to a query.
pub(crate) fn view_of<'a>(handle: &'a IndexHandle<'_>) -> Marks<'a>
    requires { IsIndex handle.now }
    ensures { result ≡ record { text = text_of handle.now; looks = 0; reads = 0 } }
{
    index_of(handle).view()
}
