//! The summary of a text after a part of it is replaced, from the summaries of the old part and the new one.
ghost use Rattle.std.specs.Prelude.{◌≡◌, ◌≤◌, ◌<◌, ◌+◌, ◌-◌, ◌^◌, ◌++◌, chars, length};
ghost use Rattle.str_indices.specs.Schemes.{count};
ghost use Rattle.str_indices.specs.Text.{Text};
ghost use Rattle.str_indices.specs.Joins.{starts_with_feed, ends_in_return, seam_loss};
ghost use Rattle.str_indices.specs.Relations.{IsBoundary};
ghost use Rattle.text_summary.specs.Summaries.{summary_of};
ghost use Rattle.text_summary.specs.Changes.{IsReplaced, IsUpdate, FitsIn};

use crate::seams::{joined_ends_cr, joined_starts_lf};
use crate::{Scheme, Summary, ends_cr, halves, lost_at_seam, starts_lf};

/// A part of a text that is replaced by another text, wherever it is, and the edges of the text around it.
#[derive(Clone, Copy)]
pub struct Update {
    /// Whether the text before the part ends in CR.
    pub ends_cr: bool,
    /// Whether the text after the part starts with LF.
    pub starts_lf: bool,
    /// The summary of the part, which goes out.
    pub removed: Summary,
    /// The summary of the text that comes in for it.
    pub inserted: Summary,
}

/// Returns the summary of `text` after the part between the boundaries `from` and `to` is replaced by
/// `inserted`, whose summary is `own`. Of `text` it reads the part that goes out, and the chars beside it.
pub fn summary_after(
    text: &str,
    whole: Summary,
    from: usize,
    to: usize,
    inserted: &str,
    own: Summary,
) -> Summary
    requires whole { whole ≡ summary_of (chars text.now) }
    requires own { own ≡ summary_of (chars inserted.now) }
    requires order { from ≤ to }
    requires start { IsBoundary (chars text.now) from }
    requires end { IsBoundary (chars text.now) to }
    requires short { length text.now + length inserted.now < 2 ^ 63 + (to - from) }
    ensures summary { (new : Text) → IsReplaced (chars text.now) new from to (chars inserted.now) → result ≡ summary_of new }
    ensures len { result.len + (to - from) ≡ length text.now + length inserted.now }
{
    let (front, back) = halves(text, to);
    let (front, part) = halves(front, from);
    let change = Update {
        ends_cr: ends_cr(front),
        starts_lf: starts_lf(back),
        removed: Summary::of(part),
        inserted: own,
    };
    let own_starts = joined_starts_lf(own.len, own.starts_lf, change.starts_lf);
    let own_ends = joined_ends_cr(change.ends_cr, own.len, own.ends_cr);
    let starts_lf = joined_starts_lf(from, whole.starts_lf, own_starts);
    let ends_cr = joined_ends_cr(own_ends, whole.len - to, whole.ends_cr);
    apply_update(whole, change, starts_lf, ends_cr)
}

/// Returns the summary of a text after a change, from its summary before and from how it starts and ends afterwards.
#[inline(always)]
pub fn apply_update(whole: Summary, update: Update, starts_lf: bool, ends_cr: bool) -> Summary
    requires { FitsIn whole update }
    ensures { (a m b t : Text) → whole ≡ summary_of (a ++ (m ++ b)) → IsUpdate a m b t update →
        starts_lf ≡ starts_with_feed (a ++ (t ++ b)) → ends_cr ≡ ends_in_return (a ++ (t ++ b)) →
        result ≡ summary_of (a ++ (t ++ b)) }
{
    Summary::of_each(
        whole.len - update.removed.len + update.inserted.len,
        |s| count_after(&whole, &update, s),
        starts_lf,
        ends_cr,
    )
}

/// Counts a text after a change, in scheme `s`.
#[inline(always)]
fn count_after(whole: &Summary, update: &Update, s: Scheme) -> usize
    requires { FitsIn whole.now update.now }
    ensures { (a m b t : Text) → whole.now ≡ summary_of (a ++ (m ++ b)) → IsUpdate a m b t update.now →
        result ≡ count s (a ++ (t ++ b)) }
{
    let gained = lost_round(s, update.ends_cr, &update.removed, update.starts_lf);
    let lost = lost_round(s, update.ends_cr, &update.inserted, update.starts_lf);
    whole.count(s) + gained - update.removed.count(s) + update.inserted.count(s) - lost
}

/// Returns how many breaks the two seams of `part` take off in scheme `s`.
#[inline(always)]
fn lost_round(s: Scheme, ends_cr: bool, part: &Summary, starts_lf: bool) -> usize
    ensures { (a m b : Text) → ends_cr ≡ ends_in_return a → part.now ≡ summary_of m → starts_lf ≡ starts_with_feed b →
        result ≡ seam_loss s a (m ++ b) + seam_loss s m b }
{
    let part_starts = joined_starts_lf(part.len, part.starts_lf, starts_lf);
    let before = lost_at_seam(s, ends_cr, part_starts);
    let after = lost_at_seam(s, part.ends_cr, starts_lf);
    before + after
}
