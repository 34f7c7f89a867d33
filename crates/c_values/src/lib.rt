//! What crosses to C and back in every library: a text's bytes, the numbers of enums, and what stands for no answer.
#![tactic(auto)]

ghost use Rattle.std.specs.Prelude.{◌≡◌, ◌^◌, ◌-◌, IfNone, IfSome, IsUtf8, unwrap_or};

mod numbers;

pub use numbers::{encoding_at, line_type_at, scheme_at};
use positions::Position;
use std::ops;

/// The bytes of a part: from where it begins up to where it ends.
#[derive(Clone, Copy)]
#[repr(C)]
pub struct Bytes {
    /// Where it begins.
    pub start: usize,
    /// Where it ends: the byte at this index is no part of it.
    pub end: usize,
}

/// The text of bytes that are UTF-8.
pub fn utf8_of(bytes: &[u8]) -> &str
    requires { IsUtf8 bytes.now }
    ensures { result.now ≡ bytes.now }
{
    // Checking the bytes here would be a second pass over the text.
    unsafe { str::from_utf8_unchecked(bytes) }
}

/// A byte index, or `usize::MAX`, which is past every text.
pub fn byte_or_none(byte: Option<usize>) -> usize
    ensures { result ≡ unwrap_or byte (2 ^ 64 - 1) }
{
    byte.unwrap_or(usize::MAX)
}

/// The bytes of a part, or `usize::MAX` twice.
pub fn bytes_or_none(part: Option<ops::Range<usize>>) -> Bytes
    ensures some { IfSome part (λ bytes. result ≡ record { start = bytes.start; end = bytes.end }) }
    ensures none { IfNone part (result ≡ record { start = 2 ^ 64 - 1; end = 2 ^ 64 - 1 }) }
{
    let none = usize::MAX..usize::MAX;
    let bytes = part.unwrap_or(none);
    Bytes {
        start: bytes.start,
        end: bytes.end,
    }
}

/// A position, or `usize::MAX` twice: no text has such a line.
pub fn position_or_none(position: Option<Position>) -> Position
    ensures some { IfSome position (λ there. result ≡ there) }
    ensures none { IfNone position (result ≡ record { line = 2 ^ 64 - 1; character = 2 ^ 64 - 1 }) }
{
    let none = Position {
        line: usize::MAX,
        character: usize::MAX,
    };
    position.unwrap_or(none)
}
