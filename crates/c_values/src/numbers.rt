//! The numbers of enums.
ghost use Rattle.std.specs.Prelude.{◌≡◌};
ghost use Rattle.c_values.specs.Numbers.{encoding_at, line_type_at, scheme_at};

use positions::{Encoding, LineType};
use str_indices::Scheme;

/// The scheme of a number.
pub fn scheme_at(number: u32) -> Scheme
    ensures { result ≡ scheme_at number }
{
    Scheme::ALL
        .get(number as usize)
        .copied()
        .unwrap_or(Scheme::Lines)
}

/// The encoding of a number.
pub fn encoding_at(number: u32) -> Encoding
    ensures { result ≡ encoding_at number }
{
    match number {
        1 => Encoding::Utf16,
        5 => Encoding::Utf8,
        _ => Encoding::Utf32,
    }
}

/// The kind of line break of a number.
pub fn line_type_at(number: u32) -> LineType
    ensures { result ≡ line_type_at number }
{
    match number {
        2 => LineType::Lf,
        3 => LineType::Crlf,
        _ => LineType::Lines,
    }
}
