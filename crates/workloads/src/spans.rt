//! Spans of a text by line and column, and the counts and conversions as callers of the functions use them: on a rope's
//! chunks, on lines, and on whole texts.

use crate::digest::Digest;
use crate::faults::Fault;
use crate::library::{
    Encoding, Position, Range, chars, lines, lines_crlf, lines_lf, text_byte_range,
    text_position_of, utf16,
};
use crate::random::Random;
use crate::texts::{Shape, back, front, text_of};
use std::alloc::Global;

/// How many bytes the texts have.
const SIZES: [usize; 6] = [1_000, 4_000, 16_000, 64_000, 250_000, 1_000_000];

/// How many spans are told of a text.
const SPANS: usize = 50;

/// How many bytes a chunk has at most.
const LEAF: usize = 1000;

/// How many chunks and lines of a text are asked.
const PARTS: usize = 400;

/// Works on `rounds` texts, one after the other.
pub(crate) fn run(
    alloc: Global,
    random: &mut Random,
    rounds: usize,
    digest: &mut Digest,
) -> Result<(), Fault> {
    for i in 0..rounds {
        report(alloc, random, SIZES[i % 6], digest)?;
    }
    Ok(())
}

fn report(
    alloc: Global,
    random: &mut Random,
    bytes: usize,
    digest: &mut Digest,
) -> Result<(), Fault> {
    let shape = Shape::daily(random);
    let source = text_of(alloc, random, shape, bytes)?;
    let text = source.as_str();
    tell_spans(text, Encoding::Utf16, random, digest);
    ask_all(text, random, digest);
    ask_leaves(text, random, digest);
    ask_lines(text, random, digest);
    Ok(())
}

/// Tells positions of bytes, and finds them again.
fn tell_spans(text: &str, encoding: Encoding, random: &mut Random, digest: &mut Digest) {
    for _ in 0..SPANS {
        let start = text_position_of(text, encoding, random.below(text.len()));
        digest.take(start.line);
        digest.take(start.character);
        let end = Position {
            line: start.line,
            character: start.character.saturating_add(random.below(20)),
        };
        if let Some(bytes) = text_byte_range(text, encoding, Range { start, end }) {
            digest.take(bytes.start);
            digest.take(bytes.end);
        }
    }
}

/// Each count and each conversion of a text.
fn ask_all(text: &str, random: &mut Random, digest: &mut Digest) {
    let byte = random.below(text.len().saturating_add(1));
    digest.take(chars::count(text));
    digest.take(utf16::count(text));
    digest.take(utf16::count_surrogates(text));
    digest.take(lines_lf::count_breaks(text));
    digest.take(lines_crlf::count_breaks(text));
    digest.take(lines::count_breaks(text));
    digest.take(chars::to_byte_idx(text, chars::from_byte_idx(text, byte)));
    digest.take(utf16::to_byte_idx(text, utf16::from_byte_idx(text, byte)));
    digest.take(lines_lf::to_byte_idx(text, lines_lf::from_byte_idx(text, byte)));
    digest.take(lines_crlf::to_byte_idx(text, lines_crlf::from_byte_idx(text, byte)));
    digest.take(lines::to_byte_idx(text, lines::from_byte_idx(text, byte)));
}

/// Asks chunks of a rope, one after the other.
fn ask_leaves(text: &str, random: &mut Random, digest: &mut Digest) {
    let mut rest = text;
    for _ in 0..PARTS {
        if rest.is_empty() {
            break;
        }
        let len = random.from(LEAF / 2, LEAF / 2);
        ask_all(front(rest, len), random, digest);
        rest = back(rest, len);
    }
}

/// Asks short texts, of 10 to 300 bytes.
fn ask_lines(text: &str, random: &mut Random, digest: &mut Digest) {
    let mut rest = text;
    for _ in 0..PARTS {
        if rest.is_empty() {
            break;
        }
        let most = random.from(10, 290);
        let len = random.from(10, most);
        ask_all(front(rest, len), random, digest);
        rest = back(rest, len);
    }
}
