// The calls of the library, by their names.
ghost use Rattle.std.specs.Prelude.{◌≡◌, chars};
ghost use Rattle.idx.specs.Calls.{counting_named, conversion_named, answer_of};

use str_indices::{Scheme, utf16};

/// A call of the library, with its index where it takes one.
#[derive(Clone, Copy)]
pub enum Call {
    /// `count` of the scheme's module, which the line modules call `count_breaks`.
    Count(Scheme),
    /// `utf16::count_surrogates`.
    Surrogates,
    /// `from_byte_idx` of the scheme's module.
    From(Scheme, usize),
    /// `to_byte_idx` of the scheme's module.
    To(Scheme, usize),
}

impl Call {
    /// Finds the counting call with this name, or `None` if none is built.
    #[tactic(auto, unfolding(crate::specs::Calls::counting_named))]
    pub fn find_count(name: &str) -> Option<Call>
        ensures { result ≡ counting_named name.now }
    {
        match name {
            "chars.count" => Some(Call::Count(Scheme::Chars)),
            "utf16.count" => Some(Call::Count(Scheme::Utf16)),
            "utf16.count_surrogates" => Some(Call::Surrogates),
            "lines_lf.count_breaks" => Some(Call::Count(Scheme::Lf)),
            "lines_crlf.count_breaks" => Some(Call::Count(Scheme::Crlf)),
            "lines.count_breaks" => Some(Call::Count(Scheme::Lines)),
            _ => None,
        }
    }

    /// Finds the conversion with this name, for the index, or `None` if none is built.
    #[tactic(auto, unfolding(crate::specs::Calls::conversion_named))]
    pub fn find_conversion(name: &str, index: usize) -> Option<Call>
        ensures { result ≡ conversion_named name.now index }
    {
        match name {
            "chars.from_byte_idx" => Some(Call::From(Scheme::Chars, index)),
            "chars.to_byte_idx" => Some(Call::To(Scheme::Chars, index)),
            "utf16.from_byte_idx" => Some(Call::From(Scheme::Utf16, index)),
            "utf16.to_byte_idx" => Some(Call::To(Scheme::Utf16, index)),
            "lines_lf.from_byte_idx" => Some(Call::From(Scheme::Lf, index)),
            "lines_lf.to_byte_idx" => Some(Call::To(Scheme::Lf, index)),
            "lines_crlf.from_byte_idx" => Some(Call::From(Scheme::Crlf, index)),
            "lines_crlf.to_byte_idx" => Some(Call::To(Scheme::Crlf, index)),
            "lines.from_byte_idx" => Some(Call::From(Scheme::Lines, index)),
            "lines.to_byte_idx" => Some(Call::To(Scheme::Lines, index)),
            _ => None,
        }
    }

    /// Answers the call for the text, by the library's public function.
    pub fn answer(&self, text: &str) -> usize
        ensures { result ≡ answer_of self.now (chars text.now) }
    {
        match *self {
            Call::Count(scheme) => scheme.count(text),
            Call::Surrogates => utf16::count_surrogates(text),
            Call::From(scheme, index) => scheme.from_byte_idx(text, index),
            Call::To(scheme, index) => scheme.to_byte_idx(text, index),
        }
    }
}
