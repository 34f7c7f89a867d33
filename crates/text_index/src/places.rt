//! Places of a text, and what stands between two of them.
ghost use Rattle.std.specs.Prelude.{◌≡◌, ◌+◌, ◌≤◌, ◌↔◌, IsTrue, chars, length};
ghost use Rattle.str_indices.specs.Relations.{IsBoundary, IsCrlfMiddle};
ghost use Rattle.text_index.specs.Places.{IsMarkPlace};
ghost use Rattle.text_index.specs.Stretches.{IsPart};

use text_summary::{ends_cr, halves, starts_lf};

/// The text between two byte indices.
pub(crate) fn text_between(text: &str, from: usize, to: usize) -> &str
    requires order { from ≤ to }
    requires start { IsBoundary (chars text.now) from }
    requires end { IsBoundary (chars text.now) to }
    ensures { IsPart (chars text.now) from to (chars result.now) }
{
    let (front, _) = halves(text, to);
    let (_, part) = halves(front, from);
    part
}

/// Returns the place of a mark: at most four bytes before `at`, between chars and not between CR and LF.
pub(crate) fn mark_place(text: &str, at: usize) -> usize
    requires { at ≤ length text.now }
    ensures whole { IsMarkPlace (chars text.now) result }
    ensures before { result ≤ at }
    ensures near { at ≤ result + 4 }
{
    let start = text.floor_char_boundary(at);
    if is_middle(text, start) {
        start - 1
    } else {
        start
    }
}

/// Whether a byte index is between CR and LF.
pub(crate) fn is_middle(text: &str, at: usize) -> bool
    ensures { IsTrue result ↔ IsCrlfMiddle (chars text.now) at }
{
    if !text.is_char_boundary(at) {
        return false;
    }
    let (front, back) = halves(text, at);
    ends_cr(front) && starts_lf(back)
}
