//! The beginning of a line whose chars each take one byte, and so one unit in every encoding.
ghost use Rattle.std.specs.Prelude.{◌<◌, ◌↔◌, All, IsTrue, chars, length};
ghost use Rattle.positions.specs.Plain.{BeginsPlain, IsPlain};

/// Whether `byte` is in a text, with only plain chars before it: ASCII, and no line break of any kind.
pub(crate) fn is_after_plain(text: &str, byte: usize) -> bool
    ensures { IsTrue result → (byte < length text.now) × BeginsPlain (chars text.now) byte }
{
    byte < text.len() && begins_plain(text, byte)
}

/// Whether the first `bytes` bytes of a text are plain chars.
fn begins_plain(text: &str, bytes: usize) -> bool
    ensures { IsTrue result → BeginsPlain (chars text.now) bytes }
{
    text.is_char_boundary(bytes) && is_plain(&text.as_bytes()[..bytes])
}

/// Whether each byte is a plain char. It goes over all of them, since a loop that may end early takes them one by one.
fn is_plain(bytes: &[u8]) -> bool
    ensures { IsTrue result ↔ All IsPlain bytes.now }
{
    let mut plain = true;
    for &byte in bytes {
        plain &= is_plain_byte(byte);
    }
    plain
}

/// Whether a byte is ASCII, and no line break of any kind.
fn is_plain_byte(byte: u8) -> bool
    ensures { IsTrue result ↔ IsPlain byte }
{
    byte < b'\n' || (b'\r' < byte && byte < 0x80)
}
