//! Places in a text.
ghost use Rattle.std.specs.Prelude.{◌≡◌, ◌≤◌, ◌+◌, ℕ, chars, length, min, not};
ghost use Rattle.str_indices.specs.Prelude.{size, cut, byte_before, is_carriage_return, is_middle, IsBoundary, Reads};

use crate::weights::{CR, LF, is_trailing_byte};
use byte_chunk::{ByteChunk, Probe};

/// The most trailing bytes that a char has.
const MOST_TRAILING_BYTES: usize = 3;

/// Returns the greatest boundary at or before `byte`, with at most three peeks; the text's length if `byte` is past it.
#[tactic(auto, using(crate::proofs::lemmas::Bytes::places))]
pub(crate) fn boundary_at_or_before<T: ByteChunk>(probe: &mut Probe<'_, T>, byte: usize) -> usize
    ensures boundary { result ≡ size (cut (chars probe.old.text) byte) }
    ensures within { result ≤ min byte (length probe.old.text) }
    ensures reads { Reads probe.old probe.new 0 0 0 3 }
    ensures reads_once { byte ≤ result → Reads probe.old probe.new 0 0 0 1 }
{
    let len = probe.len();
    if byte >= len {
        return len;
    }
    let mut boundary = byte;
    for _ in 0..MOST_TRAILING_BYTES {
        if !is_trailing_byte(probe.peek(boundary)) {
            break;
        }
        boundary -= 1;
    }
    boundary
}

/// The byte before a place, for one turn, or 0 at the beginning of the text.
pub(crate) fn byte_before<T: ByteChunk>(probe: &mut Probe<'_, T>, at: usize) -> u8
    requires { at ≤ length probe.old.text }
    ensures byte { result ≡ byte_before probe.old.text at }
    ensures reads { Reads probe.old probe.new 0 1 0 0 }
{
    if at == 0 {
        return 0;
    }
    probe.turn(at - 1)
}

/// Whether a byte index is not between CR and LF, with at most two peeks.
pub(crate) fn is_not_crlf_middle<T: ByteChunk>(probe: &mut Probe<'_, T>, byte_idx: usize) -> bool
    ensures middle { result ≡ not (is_middle probe.old.text byte_idx) }
    ensures reads { Reads probe.old probe.new 0 0 0 2 }
{
    if byte_idx == 0 || byte_idx >= probe.len() {
        return true;
    }
    probe.peek(byte_idx) != LF || probe.peek(byte_idx - 1) != CR
}

/// Returns the least boundary at or after `byte`, with at most three peeks.
#[tactic(auto, using(crate::proofs::lemmas::Bytes::places))]
pub(crate) fn boundary_at_or_after<T: ByteChunk>(probe: &mut Probe<'_, T>, byte: usize) -> usize
    requires { byte ≤ length probe.old.text }
    ensures boundary { IsBoundary (chars probe.old.text) result }
    ensures least { (p : ℕ) → IsBoundary (chars probe.old.text) p → byte ≤ p → result ≤ p }
    ensures reached { (byte ≤ result) × (result ≤ length probe.old.text) }
    ensures near { result ≤ byte + 3 }
    ensures reads { Reads probe.old probe.new 0 0 0 3 }
{
    let len = probe.len();
    let mut boundary = byte;
    for _ in 0..MOST_TRAILING_BYTES {
        if boundary >= len || !is_trailing_byte(probe.peek(boundary)) {
            break;
        }
        boundary += 1;
    }
    boundary
}
