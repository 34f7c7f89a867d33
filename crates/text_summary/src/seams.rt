//! Two joined texts: a CR before the seam and an LF after it make one break of two.
ghost use Rattle.std.specs.Prelude.{◌≡◌, ◌≢◌, ◌≤◌, [], ◌++◌};
ghost use Rattle.str_indices.specs.Schemes.{count};
ghost use Rattle.str_indices.specs.Text.{Text, size};
ghost use Rattle.str_indices.specs.Joins.{starts_with_feed, ends_in_return, seam_loss};
ghost use Rattle.text_summary.specs.Summaries.{summary_of, AreSummaries};

use crate::{Scheme, Summary};

/// Returns how many breaks a seam takes off in scheme `s`. `ends_cr` says whether the text before it ends in CR, and
/// `starts_lf` whether the text after it starts with LF.
#[inline(always)]
pub fn lost_at_seam(s: Scheme, ends_cr: bool, starts_lf: bool) -> usize
    ensures loss { (a b : Text) → ends_cr ≡ ends_in_return a → starts_lf ≡ starts_with_feed b →
        result ≡ seam_loss s a b }
    ensures small { result ≤ 1 }
{
    match s {
        Scheme::Crlf | Scheme::Lines => usize::from(ends_cr && starts_lf),
        _ => 0,
    }
}

/// Returns the summary of two texts, one after the other, from those of each.
pub fn join_summaries(front: Summary, after: Summary) -> Summary
    requires { AreSummaries front after }
    ensures { (a b : Text) → front ≡ summary_of a → after ≡ summary_of b → result ≡ summary_of (a ++ b) }
{
    Summary::of_each(
        front.len + after.len,
        |s| joined_count(&front, &after, s),
        joined_starts_lf(front.len, front.starts_lf, after.starts_lf),
        joined_ends_cr(front.ends_cr, after.len, after.ends_cr),
    )
}

/// Counts two texts, one after the other, in scheme `s`.
#[inline(always)]
fn joined_count(front: &Summary, after: &Summary, s: Scheme) -> usize
    requires { AreSummaries front.now after.now }
    ensures { (a b : Text) → front.now ≡ summary_of a → after.now ≡ summary_of b → result ≡ count s (a ++ b) }
{
    let lost = lost_at_seam(s, front.ends_cr, after.starts_lf);
    front.count(s) - lost + after.count(s)
}

/// Whether two texts, one after the other, start with LF: as the first if it has bytes, otherwise as the second.
pub(crate) fn joined_starts_lf(len: usize, first: bool, second: bool) -> bool
    ensures { (a b : Text) → len ≡ size a → (a ≢ [] → first ≡ starts_with_feed a) → second ≡ starts_with_feed b →
        result ≡ starts_with_feed (a ++ b) }
{
    if len == 0 { second } else { first }
}

/// Whether two texts, one after the other, end in CR: as the second if it has bytes, otherwise as the first.
pub(crate) fn joined_ends_cr(first: bool, len: usize, second: bool) -> bool
    ensures { (a b : Text) → first ≡ ends_in_return a → len ≡ size b → (b ≢ [] → second ≡ ends_in_return b) →
        result ≡ ends_in_return (a ++ b) }
{
    if len == 0 { first } else { second }
}
