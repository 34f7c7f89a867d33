//! The kinds of line break.
ghost use Rattle.std.specs.Prelude.{◌≡◌};
ghost use Rattle.str_indices.specs.Text.{carriage_return};
ghost use Rattle.positions.specs.Lines.{is_break, scheme_of};

use str_indices::Scheme;

/// A kind of line break.
#[derive(Clone, Copy, PartialEq, Eq, Debug)]
pub enum LineType {
    /// LF alone: a CR before it belongs to the line's content.
    Lf,
    /// LF, CR or CRLF, as the Language Server Protocol has it.
    Crlf,
    /// LF, VT, FF, CR, CRLF, U+0085, U+2028 or U+2029.
    Lines,
}

impl LineType {
    /// The scheme that counts these line breaks.
    pub fn scheme(self) -> Scheme
        ensures { result ≡ scheme_of self }
    {
        match self {
            LineType::Lf => Scheme::Lf,
            LineType::Crlf => Scheme::Crlf,
            LineType::Lines => Scheme::Lines,
        }
    }

    /// Whether a CR begins a line break.
    pub(crate) fn ends_at_return(self) -> bool
        ensures { result ≡ is_break self carriage_return }
    {
        match self {
            LineType::Lf => false,
            LineType::Crlf | LineType::Lines => true,
        }
    }
}
