//! Spans of texts that do not change, each with an index beside it: positions of bytes, ranges, exact bytes and lines of
//! positions, and the counts and conversions of each scheme.

use crate::digest::Digest;
use crate::faults::Fault;
use crate::library::{
    Encoding, Position, Range, SCHEMES, Scheme, TextIndex, index_byte_range, index_exact_byte_of,
    index_line, index_position_of,
};
use crate::random::Random;
use crate::texts::{Shape, text_of};
use std::alloc::Global;

/// How many bytes the texts have.
const SIZES: [usize; 6] = [1_000, 4_000, 16_000, 64_000, 250_000, 1_000_000];

/// How many spans are told of a text.
const SPANS: usize = 1000;

/// How many bytes a large text has.
const LARGE: usize = 100_000_000;

/// How many spans are told of a large text.
const LARGE_SPANS: usize = 50;

const ENCODINGS: [Encoding; 3] = [Encoding::Utf8, Encoding::Utf16, Encoding::Utf32];

/// Works on `rounds` texts, one after the other, in each shape and size.
pub(crate) fn run(
    alloc: Global,
    random: &mut Random,
    rounds: usize,
    digest: &mut Digest,
) -> Result<(), Fault> {
    for i in 0..rounds {
        report(alloc, random, Shape::each(i), SIZES[i % 6], SPANS, digest)?;
    }
    Ok(())
}

/// Works on `rounds` large texts. Every second one is a single line.
pub(crate) fn run_large(
    alloc: Global,
    random: &mut Random,
    rounds: usize,
    digest: &mut Digest,
) -> Result<(), Fault> {
    for i in 0..rounds {
        let shape = if i % 2 == 0 {
            Shape::OneLine
        } else {
            Shape::daily(random)
        };
        report(alloc, random, shape, LARGE, LARGE_SPANS, digest)?;
    }
    Ok(())
}

/// Tells spans of a text, and asks it in a scheme after each.
fn report(
    alloc: Global,
    random: &mut Random,
    shape: Shape,
    bytes: usize,
    spans: usize,
    digest: &mut Digest,
) -> Result<(), Fault> {
    let source = text_of(alloc, random, shape, bytes)?;
    let text = TextIndex::of(alloc, source.as_str())?;
    for i in 0..spans {
        tell_span(&text, ENCODINGS[i % 3], random, digest);
        ask(&text, SCHEMES[i % 5], random, digest);
    }
    Ok(())
}

/// The position of a byte, and what a range from there on has.
fn tell_span(text: &TextIndex<'_>, encoding: Encoding, random: &mut Random, digest: &mut Digest) {
    let start = index_position_of(text, encoding, random.below(text.len()));
    digest.take(start.line);
    digest.take(start.character);
    let end = Position {
        line: start.line,
        character: start.character.saturating_add(random.below(20)),
    };
    if let Some(bytes) = index_byte_range(text, encoding, Range { start, end }) {
        digest.take(bytes.start);
        digest.take(bytes.end);
    }
    let exact = index_exact_byte_of(text, encoding, end);
    digest.mark(exact.is_some());
    digest.take(exact.unwrap_or(0));
    let line = index_line(text, start.line);
    digest.text(text.text().get(line).unwrap_or(""));
}

/// A count, and a conversion each way at random places.
fn ask(text: &TextIndex<'_>, s: Scheme, random: &mut Random, digest: &mut Digest) {
    let count = text.count(s);
    digest.take(count);
    digest.take(text.from_byte_idx(s, random.below(text.len().saturating_add(1))));
    digest.take(text.to_byte_idx(s, random.below(count.saturating_add(1))));
}
