//! Awkward texts: one line of a megabyte, nothing but line feeds, all breaks in one text, CR LF that changes part, changes
//! always at the same place, and parts taken out all over, so that chunks are put together.

use crate::digest::Digest;
use crate::faults::Fault;
use crate::library::{Change, Encoding, Range, Rope, Scheme, apply, byte_of, position_of};
use crate::random::Random;
use crate::ropes::{random_place, read_all, read_lines, take_chars, tell_cursor};
use crate::texts::{Shape, letter, text_of};
use std::alloc::Global;

/// How many bytes a text has.
const BYTES: usize = 1_000_000;

/// How many changes of each kind a text has.
const CHANGES: usize = 1000;

/// Works on each of the texts, `rounds` times.
pub(crate) fn run(
    alloc: Global,
    random: &mut Random,
    rounds: usize,
    digest: &mut Digest,
) -> Result<(), Fault> {
    for _ in 0..rounds {
        for i in 0..4 {
            work_on(alloc, random, Shape::awkward(i), digest)?;
        }
    }
    Ok(())
}

fn work_on(
    alloc: Global,
    random: &mut Random,
    shape: Shape,
    digest: &mut Digest,
) -> Result<(), Fault> {
    let source = text_of(alloc, random, shape, BYTES)?;
    let mut rope = Rope::from_str(alloc, source.as_str())?;
    tell_places(&rope, random, digest);
    change_by_position(&mut rope, random, digest)?;
    part_breaks(&mut rope, random, digest)?;
    stay_at_a_place(&mut rope, random, digest)?;
    leave_little(&mut rope, random, digest)?;
    tell_places(&rope, random, digest);
    read_all(&rope, digest);
    Ok(())
}

/// Positions of random bytes, and their bytes again.
fn tell_places(rope: &Rope, random: &mut Random, digest: &mut Digest) {
    for _ in 0..CHANGES {
        let byte = random.below(rope.len().saturating_add(1));
        let position = position_of(rope, Encoding::Utf16, byte);
        digest.take(position.line);
        digest.take(position.character);
        digest.take(byte_of(rope, Encoding::Utf16, position));
    }
}

/// Letters put in at positions.
fn change_by_position(
    rope: &mut Rope,
    random: &mut Random,
    digest: &mut Digest,
) -> Result<(), Fault> {
    for i in 0..CHANGES {
        let byte = random.below(rope.len().saturating_add(1));
        let at = position_of(rope, Encoding::Utf16, byte);
        let range = Some(Range { start: at, end: at });
        let text = letter(i);
        apply(rope, Encoding::Utf16, Change { range, text })?;
    }
    digest.take(rope.count(Scheme::Lines));
    Ok(())
}

/// Breaks put in at random places, also between CR and LF.
fn part_breaks(rope: &mut Rope, random: &mut Random, digest: &mut Digest) -> Result<(), Fault> {
    for i in 0..CHANGES {
        let at = random_place(rope, random);
        rope.insert(at, if i % 2 == 0 { "\r" } else { "\n" })?;
        tell_cursor(rope, Scheme::Crlf, at, digest);
    }
    Ok(())
}

/// Letters put in and taken out always at the same place.
fn stay_at_a_place(rope: &mut Rope, random: &mut Random, digest: &mut Digest) -> Result<(), Fault> {
    let at = random_place(rope, random);
    for i in 0..CHANGES {
        rope.insert(at, letter(i))?;
        rope.insert(at, "ab")?;
        take_chars(rope, at, 2)?;
        tell_cursor(rope, Scheme::Lf, at, digest);
    }
    Ok(())
}

/// Parts taken out all over the text, so that chunks are put together.
fn leave_little(rope: &mut Rope, random: &mut Random, digest: &mut Digest) -> Result<(), Fault> {
    for _ in 0..CHANGES {
        let at = random_place(rope, random);
        take_chars(rope, at, random.from(200, 600))?;
        let line = tell_cursor(rope, Scheme::Lines, at, digest);
        read_lines(rope, Scheme::Lines, line, 2, digest)?;
    }
    digest.take(rope.len());
    Ok(())
}
