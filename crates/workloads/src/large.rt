//! A file of a hundred megabytes: opened, asked and changed at random places, and saved.

use crate::digest::Digest;
use crate::faults::Fault;
use crate::library::{Rope, Scheme};
use crate::random::Random;
use crate::ropes::{random_place, read_all, read_lines, take_chars, tell_cursor};
use crate::texts::{Shape, letter, text_of};
use std::alloc::Global;

/// How many bytes the file has.
const BYTES: usize = 100_000_000;

/// How often it is asked and changed in a round.
const CALLS: usize = 10_000;

/// Works on a file, in `rounds` rounds of changes and questions.
pub(crate) fn run(
    alloc: Global,
    random: &mut Random,
    rounds: usize,
    digest: &mut Digest,
) -> Result<(), Fault> {
    let shape = Shape::daily(random);
    let source = text_of(alloc, random, shape, BYTES)?;
    let mut rope = Rope::from_str(alloc, source.as_str())?;
    digest.take(rope.count(Scheme::Lf));
    for _ in 0..rounds {
        ask(&rope, random, digest);
        change(&mut rope, random)?;
        write(&mut rope, random, digest)?;
        cut(&mut rope, random, digest)?;
    }
    read_all(&rope, digest);
    Ok(())
}

/// Asks for lines and places at random.
fn ask(rope: &Rope, random: &mut Random, digest: &mut Digest) {
    let lines = rope.count(Scheme::Lf).saturating_add(1);
    for _ in 0..CALLS {
        digest.take(rope.to_byte_idx(Scheme::Lf, random.below(lines)));
        let byte = random.below(rope.len());
        digest.take(rope.from_byte_idx(Scheme::Utf16, byte));
    }
}

/// Puts letters in and takes chars out at random places.
fn change(rope: &mut Rope, random: &mut Random) -> Result<(), Fault> {
    for i in 0..CALLS {
        let at = random_place(rope, random);
        rope.insert(at, letter(i))?;
        let at = random_place(rope, random);
        take_chars(rope, at, random.from(1, 20))?;
    }
    Ok(())
}

/// Types words at places far apart, and reads what is round them.
fn write(rope: &mut Rope, random: &mut Random, digest: &mut Digest) -> Result<(), Fault> {
    for _ in 0..50 {
        let mut at = random_place(rope, random);
        for i in 0..40 {
            rope.insert(at, letter(i))?;
            at = at.saturating_add(1);
            tell_cursor(rope, Scheme::Lf, at, digest);
        }
        let line = rope.from_byte_idx(Scheme::Lf, at);
        read_lines(rope, Scheme::Lf, line.saturating_sub(30), 60, digest)?;
    }
    Ok(())
}

/// Cuts the file in two, and puts both together again.
fn cut(rope: &mut Rope, random: &mut Random, digest: &mut Digest) -> Result<(), Fault> {
    for _ in 0..20 {
        let at = random_place(rope, random);
        let mut back = rope.split_off(at)?;
        digest.take(back.count(Scheme::Utf16));
        rope.append(&mut back)?;
    }
    Ok(())
}
