//! Queries in the text between two marks, with the help of what the marks say of it.
ghost use Rattle.std.specs.Prelude.{◌≡◌, chars};
ghost use Rattle.str_indices.specs.Schemes.{from_byte_idx, to_byte_idx};
ghost use Rattle.text_summary.specs.Summaries.{summary_of};
ghost use Rattle.text_index.specs.Stretches.{AddsUp};

use crate::mark::Mark;
use str_indices::Scheme;
use text_summary::Summary;

/// Two marks, between which a stretch of the text stands.
#[derive(Clone, Copy)]
pub(crate) struct Stretch<'a> {
    pub(crate) start: &'a Mark,
    pub(crate) end: &'a Mark,
}

impl Stretch<'_> {
    /// Counts, in scheme `s`, in the stretch's text up to a byte index in it.
    pub(crate) fn from_byte_idx(&self, s: Scheme, text: &str, byte_idx: usize) -> usize
        requires { AddsUp self.now (chars text.now) }
        ensures { result ≡ from_byte_idx s (chars text.now) byte_idx }
    {
        self.summary(text).from_byte_idx(s, text, byte_idx)
    }

    /// Converts an index of scheme `s` in the stretch's text to a byte index in it.
    pub(crate) fn to_byte_idx(&self, s: Scheme, text: &str, idx: usize) -> usize
        requires { AddsUp self.now (chars text.now) }
        ensures { result ≡ to_byte_idx s (chars text.now) idx }
    {
        self.summary(text).to_byte_idx(s, text, idx)
    }

    /// Returns the summary of the stretch's text, which its marks tell.
    fn summary(&self, text: &str) -> Summary
        requires { AddsUp self.now (chars text.now) }
        ensures { result ≡ summary_of (chars text.now) }
    {
        Summary::with_counts(text, &self.end.counts.minus(self.start.counts))
    }
}
