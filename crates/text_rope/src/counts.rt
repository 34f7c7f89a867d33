//! The summary of a chunk in few bytes.
ghost use Rattle.std.specs.Prelude.{◌≡◌};
ghost use Rattle.text_rope.specs.ChunkSizes.{IsSmall};
ghost use Rattle.text_rope.specs.ChunkCounts.{summary_in};

use text_summary::Summary;

/// The summary of a text of at most `MAX_CHUNK` bytes, in 16 bits a number.
#[derive(Clone, Copy)]
pub(crate) struct ChunkCounts {
    len: u16,
    chars: u16,
    utf16: u16,
    lf: u16,
    crlf: u16,
    lines: u16,
    starts_lf: bool,
    ends_cr: bool,
}

impl ChunkCounts {
    /// The counts of a summary.
    pub(crate) fn of(summary: Summary) -> ChunkCounts
        requires { IsSmall summary }
        ensures { summary_in result ≡ summary }
    {
        ChunkCounts {
            len: summary.len as u16,
            chars: summary.chars as u16,
            utf16: summary.utf16 as u16,
            lf: summary.lf as u16,
            crlf: summary.crlf as u16,
            lines: summary.lines as u16,
            starts_lf: summary.starts_lf,
            ends_cr: summary.ends_cr,
        }
    }

    /// The summary.
    pub(crate) fn summary(self) -> Summary
        ensures { result ≡ summary_in self }
    {
        Summary {
            len: usize::from(self.len),
            chars: usize::from(self.chars),
            utf16: usize::from(self.utf16),
            lf: usize::from(self.lf),
            crlf: usize::from(self.crlf),
            lines: usize::from(self.lines),
            starts_lf: self.starts_lf,
            ends_cr: self.ends_cr,
        }
    }
}
