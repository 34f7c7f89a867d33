//! Cut and paste: lines and blocks that are cut out of a text and put in elsewhere, with typing in between, and the short texts
//! of input fields, which are typed, taken back and cleared.

use crate::digest::Digest;
use crate::faults::Fault;
use crate::library::{Rope, Scheme};
use crate::random::Random;
use crate::ropes::{random_place, read_all, take_chars, tell_cursor};
use crate::texts::{Shape, back, front, letter, text_of};
use std::alloc::Global;

/// How many bytes the texts have.
const SIZES: [usize; 4] = [20_000, 100_000, 300_000, 1_000_000];

/// How often a block is moved in a text, and words are typed.
const TURNS: usize = 40;

/// How many lines are moved before each block.
const LINES: usize = 10;

/// How many lines a block has at most.
const BLOCK: usize = 80;

/// How many letters are typed at a place.
const TYPED: usize = 12;

/// How many fields are filled in after a text.
const FIELDS: usize = 60;

/// Works on `rounds` texts and forms, one after the other.
pub(crate) fn run(
    alloc: Global,
    random: &mut Random,
    rounds: usize,
    digest: &mut Digest,
) -> Result<(), Fault> {
    for i in 0..rounds {
        let shape = Shape::daily(random);
        let source = text_of(alloc, random, shape, SIZES[i % 4])?;
        edit(alloc, random, source.as_str(), digest)?;
        fill_in(alloc, random, source.as_str(), digest)?;
    }
    Ok(())
}

/// Moves lines and blocks of a text, and types where each block is put in.
fn edit(
    alloc: Global,
    random: &mut Random,
    source: &str,
    digest: &mut Digest,
) -> Result<(), Fault> {
    let mut rope = Rope::from_str(alloc, source)?;
    for _ in 0..TURNS {
        for _ in 0..LINES {
            move_lines(&mut rope, 1, random, digest)?;
        }
        let lines = random.from(2, BLOCK);
        let at = move_lines(&mut rope, lines, random, digest)?;
        write(&mut rope, at, digest)?;
    }
    read_all(&rope, digest);
    Ok(())
}

/// Cuts some lines out, puts them in before another line, and returns where.
fn move_lines(
    rope: &mut Rope,
    n: usize,
    random: &mut Random,
    digest: &mut Digest,
) -> Result<usize, Fault> {
    let line = random_line(rope, random);
    let mut cut = cut_lines(rope, line, n)?;
    digest.take(cut.count(Scheme::Chars));
    let at = rope.to_byte_idx(Scheme::Crlf, random_line(rope, random));
    put_in(rope, at, &mut cut)?;
    Ok(at)
}

fn random_line(rope: &Rope, random: &mut Random) -> usize {
    random.below(rope.count(Scheme::Crlf).saturating_add(1))
}

/// Takes lines out, from one on, as a rope of their own.
fn cut_lines(rope: &mut Rope, line: usize, n: usize) -> Result<Rope, Fault> {
    let from = rope.to_byte_idx(Scheme::Crlf, line);
    let to = rope.to_byte_idx(Scheme::Crlf, line.saturating_add(n));
    let mut cut = rope.split_off(from)?;
    let mut rest = cut.split_off(to.saturating_sub(from))?;
    rope.append(&mut rest)?;
    Ok(cut)
}

/// Puts all of a rope in at a place.
fn put_in(rope: &mut Rope, at: usize, cut: &mut Rope) -> Result<(), Fault> {
    let mut rest = rope.split_off(at)?;
    rope.append(cut)?;
    rope.append(&mut rest)?;
    Ok(())
}

/// Types some letters, and asks for the cursor after each.
fn write(rope: &mut Rope, at: usize, digest: &mut Digest) -> Result<(), Fault> {
    let mut at = at;
    for i in 0..TYPED {
        rope.insert(at, letter(i))?;
        at = at.saturating_add(1);
        tell_cursor(rope, Scheme::Crlf, at, digest);
    }
    Ok(())
}

/// Fills in fields, of 20 to 300 bytes of the text at first.
fn fill_in(
    alloc: Global,
    random: &mut Random,
    source: &str,
    digest: &mut Digest,
) -> Result<(), Fault> {
    for _ in 0..FIELDS {
        let rest = back(source, random.below(source.len().saturating_sub(300)));
        let mut field = Rope::from_str(alloc, front(rest, random.from(20, 281)))?;
        change_field(&mut field, random, digest)?;
        clear(&mut field, digest)?;
        write(&mut field, 0, digest)?;
        digest.take(field.count(Scheme::Utf16));
    }
    Ok(())
}

/// Types at random places, takes half of the letters back, and takes some chars out or moves them to the end.
fn change_field(field: &mut Rope, random: &mut Random, digest: &mut Digest) -> Result<(), Fault> {
    for i in 0..8 {
        let at = random_place(field, random);
        write(field, at, digest)?;
        take_chars(field, at, TYPED / 2)?;
        let at = random_place(field, random);
        if i % 2 == 0 {
            take_chars(field, at, random.from(1, 10))?;
        } else {
            let mut rest = field.split_off(at)?;
            rest.append(field)?;
            field.append(&mut rest)?;
        }
    }
    Ok(())
}

/// Takes all of a field out.
fn clear(field: &mut Rope, digest: &mut Digest) -> Result<(), Fault> {
    read_all(field, digest);
    field.remove(0..field.len())?;
    digest.mark(field.is_empty());
    Ok(())
}
