//! Calls on a rope that several workloads share.

use crate::digest::Digest;
use crate::faults::Fault;
use crate::library::{Rope, Scheme};
use crate::random::Random;

/// Reads all of the text, wherever its chunks begin and end.
pub(crate) fn read_all(rope: &Rope, digest: &mut Digest) {
    let mut start: usize = 0;
    for chunk in rope.chunks() {
        digest.part(start, chunk);
        start = start.saturating_add(chunk.len());
    }
    digest.take(start);
}

/// Reads `n` lines from line `line` on.
pub(crate) fn read_lines(
    rope: &Rope,
    s: Scheme,
    line: usize,
    n: usize,
    digest: &mut Digest,
) -> Result<(), Fault> {
    let from = rope.to_byte_idx(s, line);
    let to = rope.to_byte_idx(s, line.saturating_add(n));
    let mut bytes: usize = 0;
    for chunk in rope.chunks_in(from..to)? {
        digest.part(bytes, chunk);
        bytes = bytes.saturating_add(chunk.len());
    }
    digest.take(bytes);
    Ok(())
}

/// Where a random char begins.
pub(crate) fn random_place(rope: &Rope, random: &mut Random) -> usize {
    let chars = rope.count(Scheme::Chars);
    rope.to_byte_idx(Scheme::Chars, random.below(chars.saturating_add(1)))
}

/// The line of a byte, by a scheme, and the chars before it on that line.
pub(crate) fn tell_cursor(rope: &Rope, s: Scheme, at: usize, digest: &mut Digest) -> usize {
    let line = rope.from_byte_idx(s, at);
    let start = rope.to_byte_idx(s, line);
    let column = rope
        .from_byte_idx(Scheme::Chars, at)
        .saturating_sub(rope.from_byte_idx(Scheme::Chars, start));
    digest.take(line);
    digest.take(column);
    line
}

/// Takes `n` chars out at the byte `at`, where a char begins.
pub(crate) fn take_chars(rope: &mut Rope, at: usize, n: usize) -> Result<(), Fault> {
    let chars = rope.from_byte_idx(Scheme::Chars, at);
    let to = rope.to_byte_idx(Scheme::Chars, chars.saturating_add(n));
    rope.remove(at..to.max(at))?;
    Ok(())
}
