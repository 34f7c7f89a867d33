//! The answers for a text, from its marks and the text of one stretch at most.
ghost use Rattle.std.specs.Prelude.{◌≡◌, ◌+◌, ◌-◌, ◌*◌, ◌^◌, ◌<◌, ◌≤◌};
ghost use Rattle.str_indices.specs.Schemes.{count, from_byte_idx, to_byte_idx};
ghost use Rattle.str_indices.specs.Starts.{IsGreatestBoundary};
ghost use Rattle.str_indices.specs.Text.{size};
ghost use Rattle.text_index.specs.Marks.{MarksState, begins_at, stretches_of};
ghost use Rattle.text_index.specs.Stretches.{Answers, HasPlace, Reaches, StandsRound};

use crate::stretch::Stretch;
use crate::{Marks, Scheme};

/// How many bytes a stretch has, give or take four.
pub(crate) const STRETCH: usize = 1024;

/// Counts the chars, UTF-16 code units or line breaks of the text. It looks at no mark.
pub fn count_in(m: &mut Marks, s: Scheme) -> usize
    ensures answer { result ≡ count s m.old.text }
    ensures state { m.new ≡ m.old }
{
    m.whole().count(s)
}

/// Counts those of the text up to a byte index. It looks at two marks at most, and reads one stretch at most.
pub fn from_in(m: &mut Marks, s: Scheme, b: usize) -> usize
    ensures answer { result ≡ from_byte_idx s m.old.text b }
    ensures text { m.new.text ≡ m.old.text }
    ensures looks { m.new.looks ≤ m.old.looks + 2 }
    ensures looks_kept { m.old.looks ≤ m.new.looks }
    ensures reads { m.new.reads ≤ m.old.reads + 1 }
    ensures reads_kept { m.old.reads ≤ m.new.reads }
{
    let whole = m.whole();
    if whole.byte <= b {
        return whole.count(s);
    }
    let stretch = stretch_round(m, b);
    let start = stretch.start;
    let text = m.read(&stretch);
    start.count(s) + stretch.from_byte_idx(s, text, b - start.byte)
}

/// Converts index `k` of scheme `s` to a byte index; the text's length if it has fewer. If it looks at `n` marks, 2 to
/// the power of `n` is at most twice the number of stretches. It reads one stretch at most.
pub fn to_in(m: &mut Marks, s: Scheme, k: usize) -> usize
    ensures answer { result ≡ to_byte_idx s m.old.text k }
    ensures text { m.new.text ≡ m.old.text }
    ensures looks { 2 ^ (m.new.looks - m.old.looks) ≤ 2 * stretches_of m.old.text }
    ensures looks_kept { m.old.looks ≤ m.new.looks }
    ensures reads { m.new.reads ≤ m.old.reads + 1 }
    ensures reads_kept { m.old.reads ≤ m.new.reads }
{
    if k == 0 {
        return 0;
    }
    let stretch = stretch_for(m, s, k);
    let start = stretch.start;
    let text = m.read(&stretch);
    start.byte + stretch.to_byte_idx(s, text, k - start.count(s))
}

/// Returns the greatest boundary at or before `b`. It looks at two marks at most, and reads one stretch.
pub(crate) fn char_start_in(m: &mut Marks, b: usize) -> usize
    ensures answer { IsGreatestBoundary m.old.text b result }
    ensures text { m.new.text ≡ m.old.text }
    ensures looks { m.new.looks ≤ m.old.looks + 2 }
    ensures few { 2 ^ (m.new.looks - m.old.looks) ≤ 2 * stretches_of m.old.text }
    ensures looks_kept { m.old.looks ≤ m.new.looks }
    ensures reads { m.new.reads ≡ m.old.reads + 1 }
{
    let stretch = stretch_at(m, b);
    let start = stretch.start.byte;
    let text = m.read(&stretch);
    start + text.floor_char_boundary(b - start)
}

/// Finds the stretch that byte `b` is in. Mark `i` may stand a little before byte `i * STRETCH`.
fn stretch_round<'a>(m: &mut Marks<'a>, b: usize) -> Stretch<'a>
    requires { b < size m.old.text }
    ensures round { StandsRound m.old.text b result }
    ensures start { result.start.now.byte ≤ begins_at b }
    ensures text { m.new.text ≡ m.old.text }
    ensures looks { m.new.looks ≤ m.old.looks + 2 }
    ensures looks_kept { m.old.looks ≤ m.new.looks }
    ensures reads { m.new.reads ≡ m.old.reads }
{
    let i = b / STRETCH;
    let next = m.end_by(i + 1);
    if b < next.byte {
        Stretch {
            start: m.start_of(i),
            end: next,
        }
    } else {
        Stretch {
            start: next,
            end: m.end_by(i + 2),
        }
    }
}

/// Finds the stretch that answers for the count `k` in scheme `s`: the last one before which the count is less than
/// `k`.
fn stretch_for<'a>(m: &mut Marks<'a>, s: Scheme, k: usize) -> Stretch<'a>
    requires { 0 < k }
    ensures answers { Answers s m.old.text k result }
    ensures short { size m.old.text < 2 ^ 64 }
    ensures text { m.new.text ≡ m.old.text }
    ensures looks { 2 ^ (m.new.looks - m.old.looks) ≤ 2 * stretches_of m.old.text }
    ensures looks_kept { m.old.looks ≤ m.new.looks }
    ensures reads { m.new.reads ≡ m.old.reads }
{
    let mut low = 0;
    let mut high = m.stretches();
    let mut found = Stretch {
        start: m.first(),
        end: m.whole(),
    };
    'halves: while high - low > 1 {
        let middle = low + (high - low) / 2;
        let mark = m.mark(middle);
        if mark.count(s) < k {
            low = middle;
            found.start = mark;
        } else {
            high = middle;
            found.end = mark;
        }
    }
    found
}

/// Finds the stretch that a byte is in; past the end, the last one.
pub(crate) fn stretch_at<'a>(m: &mut Marks<'a>, b: usize) -> Stretch<'a>
    ensures place { HasPlace m.old.text b result }
    ensures start { result.start.now.byte ≤ begins_at b }
    ensures text { m.new.text ≡ m.old.text }
    ensures looks { m.new.looks ≤ m.old.looks + 2 }
    ensures few { 2 ^ (m.new.looks - m.old.looks) ≤ 2 * stretches_of m.old.text }
    ensures looks_kept { m.old.looks ≤ m.new.looks }
    ensures reads { m.new.reads ≡ m.old.reads }
{
    let last = m.stretches() - 1;
    let whole = m.whole();
    if last == 0 {
        return Stretch {
            start: m.first(),
            end: whole,
        };
    }
    if whole.byte <= b {
        return Stretch {
            start: m.mark(last),
            end: whole,
        };
    }
    stretch_round(m, b)
}

/// Finds the stretch in which the count reaches `k`; the last one if the text has fewer.
#[inline(always)]
pub(crate) fn stretch_up_to<'a>(m: &mut Marks<'a>, s: Scheme, k: usize) -> Stretch<'a>
    ensures reaches { Reaches s m.old.text k result }
    ensures text { m.new.text ≡ m.old.text }
    ensures looks { 2 ^ (m.new.looks - m.old.looks) ≤ 2 * stretches_of m.old.text }
    ensures looks_kept { m.old.looks ≤ m.new.looks }
    ensures reads { m.new.reads ≡ m.old.reads }
{
    if k == 0 {
        return Stretch {
            start: m.first(),
            end: m.end_by(1),
        };
    }
    stretch_for(m, s, k)
}
