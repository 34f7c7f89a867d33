//! Positions on lines that go over chunks: one line of a megabyte, and lines of some thousand chars that are not
//! ASCII. They are asked in each encoding, exactly and as they come, and changes are made by exact positions.

use crate::digest::Digest;
use crate::faults::Fault;
use crate::library::{
    Change, Encoding, Position, Range, Rope, apply_exact, byte_of, byte_range, exact_byte_of,
    position_of,
};
use crate::random::Random;
use crate::ropes::read_all;
use crate::texts::{Shape, letter, text_of};
use std::alloc::Global;

/// How many bytes a text has.
const BYTES: usize = 1_000_000;

/// How many places are asked in an encoding.
const ASKED: usize = 500;

/// How many changes are made in an encoding.
const CHANGES: usize = 100;

const ENCODINGS: [Encoding; 3] = [Encoding::Utf8, Encoding::Utf16, Encoding::Utf32];

/// Works on `rounds` texts, one after the other.
pub(crate) fn run(
    alloc: Global,
    random: &mut Random,
    rounds: usize,
    digest: &mut Digest,
) -> Result<(), Fault> {
    for i in 0..rounds {
        work_on(alloc, random, Shape::long_lines(i), digest)?;
    }
    Ok(())
}

fn work_on(
    alloc: Global,
    random: &mut Random,
    shape: Shape,
    digest: &mut Digest,
) -> Result<(), Fault> {
    let source = text_of(alloc, random, shape, BYTES)?;
    let mut rope = Rope::from_str(alloc, source.as_str())?;
    for encoding in ENCODINGS {
        tell_places(&rope, encoding, random, digest);
        change_exactly(&mut rope, encoding, random, digest)?;
    }
    read_all(&rope, digest);
    Ok(())
}

fn random_byte(rope: &Rope, random: &mut Random) -> usize {
    random.below(rope.len().saturating_add(1))
}

/// The positions of random bytes, their bytes again, and those of places after them.
fn tell_places(rope: &Rope, encoding: Encoding, random: &mut Random, digest: &mut Digest) {
    for _ in 0..ASKED {
        let start = position_of(rope, encoding, random_byte(rope, random));
        let end = Position {
            line: start.line,
            character: start.character.saturating_add(random.below(3000)),
        };
        digest.take(start.line);
        digest.take(start.character);
        digest.take(byte_of(rope, encoding, start));
        tell_exactly(rope, encoding, start, digest);
        tell_exactly(rope, encoding, end, digest);
        if let Some(bytes) = byte_range(rope, encoding, Range { start, end }) {
            digest.take(bytes.end);
        }
    }
}

/// The byte of a position, where it names a place.
fn tell_exactly(rope: &Rope, encoding: Encoding, position: Position, digest: &mut Digest) {
    let byte = exact_byte_of(rope, encoding, position);
    digest.mark(byte.is_some());
    digest.take(byte.unwrap_or(0));
}

/// Letters put in the place of a few chars, and changes whose end may be inside a char.
fn change_exactly(
    rope: &mut Rope,
    encoding: Encoding,
    random: &mut Random,
    digest: &mut Digest,
) -> Result<(), Fault> {
    for i in 0..CHANGES {
        let byte = random_byte(rope, random);
        let start = position_of(rope, encoding, byte);
        let mut end = position_of(rope, encoding, byte.saturating_add(6));
        if i % 4 == 0 {
            end.character = end.character.saturating_add(1);
        }
        let range = Some(Range { start, end });
        let text = letter(i);
        digest.mark(apply_exact(rope, encoding, Change { range, text }).is_ok());
    }
    digest.take(rope.len());
    Ok(())
}
