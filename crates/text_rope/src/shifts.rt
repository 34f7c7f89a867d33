//! A chunk that another takes the place of, weighed by the summaries of both.
ghost use Rattle.std.specs.Prelude.{◌≡◌, ◌++◌, true};
ghost use Rattle.str_indices.specs.Text.{Text};
ghost use Rattle.text_summary.specs.Summaries.{summary_of};
ghost use Rattle.text_rope.specs.Shifts.{IsShift, FitsShift};

use text_summary::Summary;

/// The summaries of a chunk before and after a change.
#[derive(Clone, Copy)]
pub(crate) struct Shift {
    pub(crate) out: Summary,
    pub(crate) own: Summary,
}

impl Shift {
    /// Nothing goes out and nothing comes in.
    pub(crate) fn none() -> Shift {
        Shift {
            out: Summary::none(),
            own: Summary::none(),
        }
    }

    /// Whether the chunk starts with LF as before or not, and ends in CR as before or not: so nothing has to be known of the text
    /// round it.
    pub(crate) fn keeps_ends(&self) -> bool
        ensures starts { result ≡ true → self.now.own.starts_lf ≡ self.now.out.starts_lf }
        ensures ends { result ≡ true → self.now.own.ends_cr ≡ self.now.out.ends_cr }
    {
        self.out.starts_lf == self.own.starts_lf && self.out.ends_cr == self.own.ends_cr
    }
}

/// Brings the summary of a text up to date in which a chunk has changed so. The chunk keeps its ends, and so does the text.
pub(crate) fn shift_by(whole: &mut Summary, shift: &Shift)
    requires fits { FitsShift whole.old shift.now }
    requires starts { shift.now.own.starts_lf ≡ shift.now.out.starts_lf }
    requires ends { shift.now.own.ends_cr ≡ shift.now.out.ends_cr }
    ensures { (x old new y : Text) → whole.old ≡ summary_of (x ++ (old ++ y)) → IsShift old new shift.now →
        whole.new ≡ summary_of (x ++ (new ++ y)) }
{
    let Shift { out, own } = shift;
    whole.len = whole.len + own.len - out.len;
    whole.chars = whole.chars + own.chars - out.chars;
    whole.utf16 = whole.utf16 + own.utf16 - out.utf16;
    whole.lf = whole.lf + own.lf - out.lf;
    whole.crlf = whole.crlf + own.crlf - out.crlf;
    whole.lines = whole.lines + own.lines - out.lines;
}
