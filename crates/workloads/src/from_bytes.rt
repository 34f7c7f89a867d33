//! Texts that come as bytes, as a file or a socket gives them: they are checked, counted, and put into a rope and an index.
//! One input in four has a wrong byte, near its end as often as anywhere, and of that one the beginning that is UTF-8 is counted.

use crate::digest::Digest;
use crate::faults::Fault;
use crate::library::{Rope, Scheme, TextIndex, chars, from_utf8, lines_crlf, utf16, valid_up_to};
use crate::random::Random;
use crate::texts::{Shape, back, front, text_of};
use std::alloc::Global;

/// How many bytes the inputs have at most.
const SIZES: [usize; 5] = [100, 1_000, 10_000, 100_000, 1_000_000];

/// How many inputs a text is cut into at most.
const INPUTS: usize = 400;

/// How many bytes a text has at most, before it is cut into inputs.
const BYTES: usize = 1_000_000;

/// How many bytes are near the end of an input.
const END: usize = 32;

/// Bytes that no UTF-8 has.
const WRONG: [u8; 4] = [0xff, 0xc0, 0xf5, 0xc1];

const SCHEMES: [Scheme; 3] = [Scheme::Chars, Scheme::Utf16, Scheme::Crlf];

/// Takes the inputs of `rounds` texts, one after the other.
pub(crate) fn run(
    alloc: Global,
    random: &mut Random,
    rounds: usize,
    digest: &mut Digest,
) -> Result<(), Fault> {
    for i in 0..rounds {
        take_inputs(alloc, random, SIZES[i % SIZES.len()], digest)?;
    }
    Ok(())
}

/// Takes inputs of `bytes` bytes, or of some less where a char would be cut.
fn take_inputs(
    alloc: Global,
    random: &mut Random,
    bytes: usize,
    digest: &mut Digest,
) -> Result<(), Fault> {
    let shape = Shape::daily(random);
    let all = bytes.saturating_mul(INPUTS).min(BYTES);
    let source = text_of(alloc, random, shape, all)?;
    let mut rest = source.as_str();
    for _ in 0..INPUTS {
        if rest.is_empty() {
            break;
        }
        let input = input_of(alloc, front(rest, bytes), random)?;
        take(alloc, &input, digest)?;
        rest = back(rest, bytes);
    }
    Ok(())
}

/// The bytes of a text. In one input of four one of them is wrong.
fn input_of(alloc: Global, text: &str, random: &mut Random) -> Result<Vec<u8>, Fault> {
    let mut bytes = Vec::from_slice(alloc, text.as_bytes())?;
    if random.below(4) == 0 {
        spoil(&mut bytes, random);
    }
    Ok(bytes)
}

/// Puts a wrong byte in the place of one near the end, or as often of any.
fn spoil(bytes: &mut [u8], random: &mut Random) {
    let near = if random.below(2) == 0 {
        END
    } else {
        bytes.len()
    };
    let from_end = random.below(near.min(bytes.len())).saturating_add(1);
    let at = bytes.len().saturating_sub(from_end);
    if let Some(byte) = bytes.get_mut(at) {
        *byte = WRONG[random.below(4) % 4];
    }
}

/// Checks an input, and works on its text, or on the beginning that is UTF-8.
fn take(alloc: Global, bytes: &[u8], digest: &mut Digest) -> Result<(), Fault> {
    let text = from_utf8(bytes);
    digest.mark(text.is_some());
    match text {
        Some(text) => work_on(alloc, text, digest),
        None => {
            count_beginning(bytes, digest);
            Ok(())
        }
    }
}

/// Counts a text by itself, in a rope and in an index.
fn work_on(alloc: Global, text: &str, digest: &mut Digest) -> Result<(), Fault> {
    count(text, digest);
    let rope = Rope::from_str(alloc, text)?;
    let index = TextIndex::of(alloc, text)?;
    for s in SCHEMES {
        digest.take(rope.count(s));
        digest.take(index.count(s));
    }
    Ok(())
}

/// Tells where the wrong byte's char begins, and counts the text before it.
fn count_beginning(bytes: &[u8], digest: &mut Digest) {
    let valid = valid_up_to(bytes);
    digest.take(valid);
    if let Some(text) = bytes.get(..valid).and_then(from_utf8) {
        count(text, digest);
    }
}

fn count(text: &str, digest: &mut Digest) {
    digest.text(text);
    digest.take(chars::count(text));
    digest.take(utf16::count(text));
    digest.take(lines_crlf::count_breaks(text));
}
