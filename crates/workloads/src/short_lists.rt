//! Buffers of few pieces, as a line or a short file has them: questions in each scheme, pieces read in order and at random,
//! and changes at the end, at the front and at random.

use crate::digest::Digest;
use crate::faults::Fault;
use crate::library::{PieceText, SCHEMES, Scheme};
use crate::random::Random;
use crate::texts::{Shape, back, front, text_of};
use std::alloc::Global;

/// How many pieces the buffers have.
const SIZES: [usize; 12] = [2, 30, 100, 128, 200, 10, 64, 150, 5, 20, 50, 130];

/// How often a buffer is asked, read and changed.
const TURNS: usize = 100;

/// How many questions of each kind are asked at once.
const ASKED: usize = 3;

/// How many bytes a buffer's pieces are taken from.
const BYTES: usize = 20_000;

/// Works on `rounds` buffers, one after the other.
pub(crate) fn run(
    alloc: Global,
    random: &mut Random,
    rounds: usize,
    digest: &mut Digest,
) -> Result<(), Fault> {
    for i in 0..rounds {
        work_on(alloc, random, SIZES[i % 12], digest)?;
    }
    Ok(())
}

fn work_on(
    alloc: Global,
    random: &mut Random,
    pieces: usize,
    digest: &mut Digest,
) -> Result<(), Fault> {
    let shape = Shape::daily(random);
    let source = text_of(alloc, random, shape, BYTES)?;
    let mut text = push_all(alloc, source.as_str(), random, pieces)?;
    for i in 0..TURNS {
        ask(&text, SCHEMES[i % 5], random, digest);
        read_in_order(&text, digest);
        read_at_random(&text, random, digest);
        change_ends(&mut text, source.as_str(), random)?;
        change_inside(&mut text, source.as_str(), random)?;
        keep(&mut text, pieces, random)?;
    }
    digest.take(text.len());
    digest.take(text.pieces());
    Ok(())
}

/// A part of a text, of 20 to 199 bytes.
fn part<'a>(source: &'a str, random: &mut Random) -> &'a str {
    let rest = back(source, random.below(source.len().saturating_sub(200)));
    front(rest, random.from(20, 180))
}

/// Makes a buffer of `pieces` pieces.
fn push_all(
    alloc: Global,
    source: &str,
    random: &mut Random,
    pieces: usize,
) -> Result<PieceText, Fault> {
    let mut text = PieceText::new(alloc);
    for _ in 0..pieces {
        text.push(part(source, random))?;
    }
    Ok(text)
}

/// Questions in a scheme, at random places.
fn ask(text: &PieceText, s: Scheme, random: &mut Random, digest: &mut Digest) {
    let count = text.count(s);
    digest.take(count);
    for _ in 0..ASKED {
        digest.take(text.to_byte_idx(s, random.below(count.saturating_add(2))));
        digest.take(text.from_byte_idx(s, random.below(text.len().saturating_add(1))));
    }
}

/// The summaries and the texts of all pieces, by one view.
fn read_in_order(text: &PieceText, digest: &mut Digest) {
    let mut view = text.view();
    for i in 0..text.pieces() {
        if i < view.len() {
            digest.take(view.summary(i).len);
            digest.text(view.text(i));
        }
    }
}

/// Reads as many pieces at random, each by a view of its own.
fn read_at_random(text: &PieceText, random: &mut Random, digest: &mut Digest) {
    for _ in 0..text.pieces() {
        let i = random.below(text.pieces());
        let mut view = text.view();
        if i < view.len() {
            digest.take(view.summary(i).chars);
            digest.text(view.text(i));
        }
    }
}

/// Another last piece, and another first one.
fn change_ends(text: &mut PieceText, source: &str, random: &mut Random) -> Result<(), Fault> {
    text.remove(text.pieces().saturating_sub(1))?;
    text.push(part(source, random))?;
    text.remove(0)?;
    text.insert(0, part(source, random))?;
    Ok(())
}

/// A piece put in, and one cut in two.
fn change_inside(text: &mut PieceText, source: &str, random: &mut Random) -> Result<(), Fault> {
    text.insert(random.below(text.pieces()), part(source, random))?;
    let char = random.below(text.count(Scheme::Chars));
    text.split(text.to_byte_idx(Scheme::Chars, char))?;
    Ok(())
}

/// Takes pieces out at random, until there are as many as at first.
fn keep(text: &mut PieceText, pieces: usize, random: &mut Random) -> Result<(), Fault> {
    for _ in 0..2 {
        if pieces < text.pieces() {
            text.remove(random.below(text.pieces()))?;
        }
    }
    Ok(())
}
