//! An editor's rope: typing, backspace, words taken out, a replace at a thousand cursors and pastes, with the cursor's line
//! and sixty lines read in between.

use crate::digest::Digest;
use crate::faults::Fault;
use crate::library::{Rope, Scheme};
use crate::random::Random;
use crate::ropes::{random_place, read_all, read_lines, take_chars, tell_cursor};
use crate::texts::{Shape, front, letter, text_of};
use std::alloc::Global;

/// How many bytes the texts have.
const SIZES: [usize; 4] = [100_000, 500_000, 1_000_000, 2_000_000];

/// How many letters are typed at a place.
const TYPED: usize = 60;

/// At how many places a replace changes the text.
const CURSORS: usize = 1000;

/// How long a paste is at most.
const PASTES: [usize; 4] = [200, 1_000, 10_000, 200_000];

/// Works on `rounds` texts, one after the other.
pub(crate) fn run(
    alloc: Global,
    random: &mut Random,
    rounds: usize,
    digest: &mut Digest,
) -> Result<(), Fault> {
    for i in 0..rounds {
        edit(alloc, random, SIZES[i % 4], digest)?;
    }
    Ok(())
}

/// The scheme by which an editor counts lines.
fn scheme_of(random: &mut Random) -> Scheme {
    match random.below(4) {
        0 => Scheme::Lines,
        1 => Scheme::Crlf,
        _ => Scheme::Lf,
    }
}

/// One text from when it is opened to when it is saved.
fn edit(
    alloc: Global,
    random: &mut Random,
    bytes: usize,
    digest: &mut Digest,
) -> Result<(), Fault> {
    let shape = Shape::daily(random);
    let source = text_of(alloc, random, shape, bytes)?;
    let mut rope = Rope::from_str(alloc, source.as_str())?;
    let s = scheme_of(random);
    for _ in 0..20 {
        write(&mut rope, s, random, digest)?;
        take_words(&mut rope, random)?;
        paste(&mut rope, source.as_str(), random, digest)?;
    }
    replace_all(&mut rope, digest)?;
    move_block(&mut rope, random, digest)?;
    read_all(&rope, digest);
    Ok(())
}

/// Types at a random place, looks at the text as it is drawn, and takes half of the letters back.
fn write(
    rope: &mut Rope,
    s: Scheme,
    random: &mut Random,
    digest: &mut Digest,
) -> Result<(), Fault> {
    let start = random_place(rope, random);
    let mut at = start;
    for i in 0..TYPED {
        rope.insert(at, letter(i))?;
        at = at.saturating_add(1);
        let line = tell_cursor(rope, s, at, digest);
        if i % 20 == 0 {
            read_lines(rope, s, line.saturating_sub(30), 60, digest)?;
        }
    }
    for _ in 0..TYPED / 2 {
        rope.remove(at.saturating_sub(1)..at)?;
        at = at.saturating_sub(1);
    }
    Ok(())
}

/// Takes words out at random places.
fn take_words(rope: &mut Rope, random: &mut Random) -> Result<(), Fault> {
    for _ in 0..20 {
        let at = random_place(rope, random);
        take_chars(rope, at, random.from(2, 8))?;
    }
    Ok(())
}

/// Pastes a part of a text, and cuts all of it or a part of it out again.
fn paste(
    rope: &mut Rope,
    source: &str,
    random: &mut Random,
    digest: &mut Digest,
) -> Result<(), Fault> {
    let most = PASTES[random.below(4) % 4];
    let part = front(source, random.from(1, most));
    let at = random_place(rope, random);
    rope.insert(at, part)?;
    digest.take(rope.count(Scheme::Utf16));
    let cut = front(part, random.below(part.len().saturating_add(1)));
    rope.remove(at..at.saturating_add(cut.len()))?;
    digest.take(rope.len());
    Ok(())
}

/// Replaces three chars by a name at a thousand cursors, from the last one back.
fn replace_all(rope: &mut Rope, digest: &mut Digest) -> Result<(), Fault> {
    let step = rope.count(Scheme::Chars) / CURSORS;
    for i in 0..CURSORS {
        let cursor = step.saturating_mul(CURSORS.saturating_sub(i));
        let from = rope.to_byte_idx(Scheme::Chars, cursor);
        let to = rope.to_byte_idx(Scheme::Chars, cursor.saturating_add(3));
        rope.replace(from..to.max(from), "name")?;
    }
    digest.take(rope.count(Scheme::Chars));
    Ok(())
}

/// Cuts the text in two and puts the first part after the second.
fn move_block(rope: &mut Rope, random: &mut Random, digest: &mut Digest) -> Result<(), Fault> {
    let at = random_place(rope, random);
    let mut back = rope.split_off(at)?;
    back.append(rope)?;
    rope.append(&mut back)?;
    digest.take(rope.count(Scheme::Crlf));
    Ok(())
}
