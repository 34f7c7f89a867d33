//! A buffer that keeps its own pieces: pushes, splits, insertions and removals, with questions in all schemes in between.

use crate::digest::Digest;
use crate::faults::Fault;
use crate::library::{PieceText, SCHEMES, Scheme};
use crate::random::Random;
use crate::texts::{Shape, back, front, letter, text_of};
use std::alloc::Global;

/// How many pieces the buffers begin with.
const SIZES: [usize; 6] = [100, 300, 1_000, 3_000, 8_000, 20_000];

/// How often a buffer is changed.
const CHANGES: usize = 200;

/// How many questions are asked after a change.
const ASKED: usize = 5;

/// Works on `rounds` buffers, one after the other.
pub(crate) fn run(
    alloc: Global,
    random: &mut Random,
    rounds: usize,
    digest: &mut Digest,
) -> Result<(), Fault> {
    for i in 0..rounds {
        work_on(alloc, random, SIZES[i % 6], digest)?;
    }
    Ok(())
}

fn work_on(
    alloc: Global,
    random: &mut Random,
    pieces: usize,
    digest: &mut Digest,
) -> Result<(), Fault> {
    let shape = Shape::daily(random);
    let source = text_of(alloc, random, shape, 400_000)?;
    let mut text = push_all(alloc, source.as_str(), random, pieces)?;
    for i in 0..CHANGES {
        change(&mut text, source.as_str(), i, random)?;
        ask(&text, random, digest);
    }
    digest.take(text.len());
    digest.take(text.pieces());
    Ok(())
}

/// Makes a buffer of `pieces` pieces, of 50 bytes to 2 kB mostly: parts of a text, from its beginning again at its end.
fn push_all(
    alloc: Global,
    source: &str,
    random: &mut Random,
    pieces: usize,
) -> Result<PieceText, Fault> {
    let mut text = PieceText::new(alloc);
    let mut rest = source;
    for _ in 0..pieces {
        if rest.is_empty() {
            rest = source;
        }
        let most = random.from(50, 1950);
        let len = random.from(50, most);
        text.push(front(rest, len))?;
        rest = back(rest, len);
    }
    Ok(text)
}

/// One change: a piece put in, taken out, or cut in two.
fn change(text: &mut PieceText, source: &str, i: usize, random: &mut Random) -> Result<(), Fault> {
    let place = random.below(text.pieces());
    match i % 4 {
        0 => text.insert(place, letter(i))?,
        1 => text.remove(place)?,
        2 => text.insert(place, front(source, random.from(50, 950)))?,
        _ => {
            let char = random.below(text.count(Scheme::Chars));
            text.split(text.to_byte_idx(Scheme::Chars, char))?
        }
    }
    Ok(())
}

/// Questions in a random scheme, at random places.
fn ask(text: &PieceText, random: &mut Random, digest: &mut Digest) {
    let s = SCHEMES[random.below(5) % 5];
    let indices = text.count(s).saturating_add(1);
    for _ in 0..ASKED {
        digest.take(text.to_byte_idx(s, random.below(indices)));
        digest.take(text.from_byte_idx(s, random.below(text.len())));
    }
}
