//! All that the workloads have of the libraries, which no other file names.
//!
//! For the start, the commit of `bench/start.txt`, `bench/start` puts `bench/start.rt.txt` in the place of this file.

use crate::faults::Fault;
use byte_chunk::Chunk;
pub(crate) use piece_text::{PieceText, Refusal as PieceRefusal};
use positions::{LineType, Whole};
pub(crate) use positions::{Encoding, Position, Range};
use std::alloc::Global;
use std::ops;
pub(crate) use str_indices::{
    Scheme, chars, from_utf8, lines, lines_crlf, lines_lf, utf16, valid_up_to,
};
pub(crate) use text_index::TextIndex;
pub(crate) use text_rope::{Change, Refusal as RopeRefusal, Rope};

/// The schemes that are asked in turn.
pub(crate) const SCHEMES: [Scheme; 5] = Scheme::ALL;

/// A second rope with the same text.
pub(crate) fn copy_of(_: Global, rope: &Rope) -> Result<Rope, Fault> {
    Ok(rope.snapshot()?)
}

pub(crate) fn apply(
    rope: &mut Rope,
    encoding: Encoding,
    change: Change<'_>,
) -> Result<(), RopeRefusal> {
    rope.apply(encoding, change)
}

pub(crate) fn apply_exact(
    rope: &mut Rope,
    encoding: Encoding,
    change: Change<'_>,
) -> Result<(), RopeRefusal> {
    rope.apply_exact(encoding, change)
}

pub(crate) fn position_of(rope: &Rope, encoding: Encoding, byte: usize) -> Position {
    positions::position_of(&mut rope.view(), LineType::Crlf, encoding, byte)
}

pub(crate) fn byte_of(rope: &Rope, encoding: Encoding, position: Position) -> usize {
    positions::byte_of(&mut rope.view(), LineType::Crlf, encoding, position)
}

pub(crate) fn exact_byte_of(rope: &Rope, encoding: Encoding, position: Position) -> Option<usize> {
    positions::exact_byte_of(&mut rope.view(), LineType::Crlf, encoding, position)
}

pub(crate) fn byte_range(
    rope: &Rope,
    encoding: Encoding,
    range: Range,
) -> Option<ops::Range<usize>> {
    positions::byte_range(&mut rope.view(), LineType::Crlf, encoding, range)
}

pub(crate) fn index_position_of(
    index: &TextIndex<'_>,
    encoding: Encoding,
    byte: usize,
) -> Position {
    positions::position_of(&mut index.view(), LineType::Crlf, encoding, byte)
}

pub(crate) fn index_exact_byte_of(
    index: &TextIndex<'_>,
    encoding: Encoding,
    position: Position,
) -> Option<usize> {
    positions::exact_byte_of(&mut index.view(), LineType::Crlf, encoding, position)
}

pub(crate) fn index_byte_range(
    index: &TextIndex<'_>,
    encoding: Encoding,
    range: Range,
) -> Option<ops::Range<usize>> {
    positions::byte_range(&mut index.view(), LineType::Crlf, encoding, range)
}

/// The bytes of the content of a line.
pub(crate) fn index_line(index: &TextIndex<'_>, k: usize) -> ops::Range<usize> {
    positions::line(&mut index.view(), LineType::Crlf, k)
}

pub(crate) fn text_position_of(text: &str, encoding: Encoding, byte: usize) -> Position {
    let whole = &mut Whole::<Chunk>::of(text);
    positions::position_of(whole, LineType::Crlf, encoding, byte)
}

pub(crate) fn text_byte_range(
    text: &str,
    encoding: Encoding,
    range: Range,
) -> Option<ops::Range<usize>> {
    let whole = &mut Whole::<Chunk>::of(text);
    positions::byte_range(whole, LineType::Crlf, encoding, range)
}
