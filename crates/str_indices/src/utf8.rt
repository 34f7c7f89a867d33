//! Whether bytes are UTF-8, the bytes of a text, and how far they are (the Unicode Standard, chapter 3, table 3-7).
ghost use Rattle.std.specs.Prelude.{◌≡◌, ◌+◌, ◌/◌, ◌≤◌, ◌↔◌, IsTrue, IsSome, IfSome, length};
ghost use Rattle.std.specs.Str.{IsUtf8};
ghost use Rattle.std.specs.Str.Lossy.{utf8_valid_len};
ghost use Rattle.str_indices.specs.Prelude.{IsCountingPass, IsFindingPass};

use crate::utf8_faults::{first_fault, is_open, open_start};
use crate::utf8_lanes::Utf8Chunk;
use byte_chunk::{ByteProbe, Chunk};

/// The fewest bytes that are checked by lanes. Below there is no whole chunk, and the standard library is faster.
const FEWEST: usize = 16;

/// Whether the bytes are UTF-8: the bytes of some Unicode scalar values one after another. An empty slice is.
pub fn is_utf8(bytes: &[u8]) -> bool
    ensures { IsTrue result ↔ IsUtf8 bytes.now }
{
    if bytes.len() < FEWEST {
        return str::from_utf8(bytes).is_ok();
    }
    is_utf8_impl(&mut ByteProbe::<Chunk>::of(bytes), 0)
}

/// Returns how many bytes there are before the first char that is wrong or that ends too soon: the length of the
/// longest beginning that is UTF-8. If all bytes are UTF-8, that is how many there are.
pub fn valid_up_to(bytes: &[u8]) -> usize
    ensures { result ≡ utf8_valid_len bytes.now }
{
    valid_up_to_impl(&mut ByteProbe::<Chunk>::of(bytes), 0)
}

/// Returns the bytes as a text, if they are UTF-8.
pub fn from_utf8(bytes: &[u8]) -> Option<&str>
    ensures text { IfSome result (λ text. text.now ≡ bytes.now) }
    ensures some { IsSome result ↔ IsUtf8 bytes.now }
{
    if !is_utf8(bytes) {
        return None;
    }
    Some(unsafe { str::from_utf8_unchecked(bytes) })
}

/// Whether the bytes are UTF-8, as [`is_utf8`], over chunks of any type.
///
/// `lead` bytes, or as many of them as there are, are walked one by one before the first chunk. It loads at most five chunks
/// more than the beginning that is UTF-8 has.
pub fn is_utf8_impl<T: Utf8Chunk>(probe: &mut ByteProbe<'_, T>, lead: usize) -> bool
    ensures answer { IsTrue result ↔ IsUtf8 probe.old.text }
    ensures text { probe.new.text ≡ probe.old.text }
    ensures pass { IsCountingPass probe.old probe.new T.SIZE lead (length probe.old.text) 6 }
    ensures early { probe.new.loads ≤ probe.old.loads + utf8_valid_len probe.old.text / T.SIZE + 5 }
{
    let len = probe.len();
    match first_fault(probe, lead) {
        Ok(()) => !is_open(probe, len),
        Err(_) => false,
    }
}

/// Returns how many bytes there are before the first char that is wrong, as [`valid_up_to`], over chunks of any type.
///
/// `lead` bytes, or as many of them as there are, are walked one by one before the first chunk.
pub fn valid_up_to_impl<T: Utf8Chunk>(probe: &mut ByteProbe<'_, T>, lead: usize) -> usize
    ensures answer { result ≡ utf8_valid_len probe.old.text }
    ensures text { probe.new.text ≡ probe.old.text }
    ensures pass { IsFindingPass probe.old probe.new T.SIZE lead (length probe.old.text) result 6 }
{
    let len = probe.len();
    match first_fault(probe, lead) {
        Ok(()) => open_start(probe, len),
        Err(fault) => open_start(probe, fault.at),
    }
}
