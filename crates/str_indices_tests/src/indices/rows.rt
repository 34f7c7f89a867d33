//! Loops over tables of worked answers: each row is compared with what the functions of a scheme answer.
use super::{kernels, walk};
use crate::chunks::half_word::HalfWord;
use crate::chunks::widest::Widest;
use byte_chunk::{ByteChunk, Plain};
use std::alloc::Global;
use std::process::Abort;
use std::simd::{u8x16, u8x32};
use std::test::Fail;
use str_indices::Scheme;

/// A text, a function's argument, and its answer.
pub type Row = (&'static str, usize, usize);

/// A text, the first byte and the end of a range, and the index that each byte of it has.
pub type RangeRow = (&'static str, usize, usize, usize);

/// A question to a function, for the message of a failed assertion.
#[derive(Clone, Copy, Debug)]
pub struct Asked<'a> {
    scheme: Scheme,
    text: &'a str,
    index: usize,
    lead: usize,
}

impl<'a> Asked<'a> {
    pub fn new(scheme: Scheme, text: &'a str, index: usize, lead: usize) -> Asked<'a> {
        Asked {
            scheme,
            text,
            index,
            lead,
        }
    }

    /// Asks a public function, which has no leading bytes.
    pub fn at(scheme: Scheme, text: &'a str, index: usize) -> Asked<'a> {
        Asked::new(scheme, text, index, 0)
    }
}

/// Asserts that a call answered as the table has it.
pub fn same(rt: &impl Abort, call: &str, asked: Asked, found: Option<usize>, want: Option<usize>) {
    assert_eq!(rt; found, want, "{call} {asked:?}");
}

/// Asserts as `same` does, for a call that always has an answer.
pub fn same_at(rt: &impl Abort, call: &str, asked: Asked, found: usize, want: usize) {
    same(rt, call, asked, Some(found), Some(want));
}

/// Each row is a text and its count, which the greatest index has too.
pub fn count_texts(rt: &impl Abort, scheme: Scheme, rows: &[(&str, usize)]) {
    for &(text, count) in rows {
        let whole = Asked::at(scheme, text, text.len());
        same_at(rt, "before", whole, scheme.count(text), count);
        let past = Asked::at(scheme, text, usize::MAX);
        let from = scheme.from_byte_idx(text, usize::MAX);
        same_at(rt, "from", past, from, count);
        let to = scheme.to_byte_idx(text, usize::MAX);
        same_at(rt, "to", past, to, text.len());
    }
}

fn from_each_byte(rt: &impl Abort, scheme: Scheme, row: RangeRow) {
    let (text, first, end, index) = row;
    for byte in first..end {
        let found = scheme.from_byte_idx(text, byte);
        same_at(rt, "from", Asked::at(scheme, text, byte), found, index);
    }
}

pub fn from_bytes(rt: &impl Abort, scheme: Scheme, rows: &[RangeRow]) {
    for row in rows {
        from_each_byte(rt, scheme, *row);
    }
}

/// Each row is a text, an index and the byte where it begins.
pub fn to_bytes(rt: &impl Abort, scheme: Scheme, rows: &[Row]) {
    for &(text, index, byte) in rows {
        let found = scheme.to_byte_idx(text, index);
        same_at(rt, "to", Asked::at(scheme, text, index), found, byte);
    }
}

/// Each row is a text and a byte and an index that convert to each other.
pub fn round_trips(rt: &impl Abort, scheme: Scheme, rows: &[Row]) {
    for &(text, byte, index) in rows {
        let from = scheme.from_byte_idx(text, byte);
        let back = scheme.to_byte_idx(text, from);
        same_at(rt, "from and to", Asked::at(scheme, text, byte), back, byte);
        let to = scheme.to_byte_idx(text, index);
        let back = scheme.from_byte_idx(text, to);
        same_at(
            rt,
            "to and from",
            Asked::at(scheme, text, index),
            back,
            index,
        );
    }
}

/// A text to repeat, how often, its count, and an index with the byte where it begins.
pub type RepeatedRow = (&'static str, usize, usize, usize, usize);

pub fn repeated_texts(
    rt: &impl Abort,
    alloc: Global,
    scheme: Scheme,
    rows: &[RepeatedRow],
) -> Result<(), Fail> {
    for &(unit, times, count, index, byte) in rows {
        let text = unit.repeat(alloc, times)?;
        let counted = scheme.count(&text);
        same_at(
            rt,
            "before",
            Asked::at(scheme, &text, text.len()),
            counted,
            count,
        );
        let found = scheme.to_byte_idx(&text, index);
        same_at(rt, "to", Asked::at(scheme, &text, index), found, byte);
    }
    Ok(())
}

/// Answers of the kernels of a scheme, the same after any number of leading bytes.
pub struct KernelRows {
    pub scheme: Scheme,
    /// The numbers of leading bytes that are tried are those below this one.
    pub leads: usize,
    /// An end, and the count before it.
    pub counts: &'static [Row],
    /// A byte, and its index.
    pub from: &'static [Row],
    /// An index, and the byte where it begins.
    pub to: &'static [Row],
}

/// Asserts the count that a kernel gives before an end, or that it does not take that end.
pub fn count_is<T: ByteChunk>(rt: &impl Abort, asked: Asked, want: Option<usize>) {
    let found = kernels::count::<T>(asked.scheme, asked.text, asked.index, asked.lead);
    same(rt, "before", asked, found, want);
}

/// Asserts the index that a kernel gives a byte.
pub fn from_is<T: ByteChunk>(rt: &impl Abort, asked: Asked, want: usize) {
    let found = kernels::from_byte_idx::<T>(asked.scheme, asked.text, asked.index, asked.lead);
    same_at(rt, "from", asked, found, want);
}

/// Asserts the byte that a kernel gives an index.
pub fn to_is<T: ByteChunk>(rt: &impl Abort, asked: Asked, want: usize) {
    let found = kernels::to_byte_idx::<T>(asked.scheme, asked.text, asked.index, asked.lead);
    same_at(rt, "to", asked, found, want);
}

/// Asserts the surrogate pairs that the kernel finds before an end, or that it does not take that end.
pub fn pairs_are<T: ByteChunk>(rt: &impl Abort, asked: Asked, want: Option<usize>) {
    let found = kernels::count_surrogates::<T>(asked.text, asked.index, asked.lead);
    same(rt, "pairs before", asked, found, want);
}

/// Asserts the index that the plain walk gives a byte, and the byte that it gives an index.
pub fn walk_is(rt: &impl Abort, asked: Asked, from: usize, to: usize) {
    let found = walk::from_byte_idx(asked.scheme, asked.text, asked.index);
    same_at(rt, "from", asked, found, from);
    let found = walk::to_byte_idx(asked.scheme, asked.text, asked.index);
    same_at(rt, "to", asked, found, to);
}

fn count_after<T: ByteChunk>(rt: &impl Abort, scheme: Scheme, rows: &[Row], lead: usize) {
    for &(text, index, count) in rows {
        count_is::<T>(rt, Asked::new(scheme, text, index, lead), Some(count));
    }
}

fn from_after<T: ByteChunk>(rt: &impl Abort, scheme: Scheme, rows: &[Row], lead: usize) {
    for &(text, index, answer) in rows {
        from_is::<T>(rt, Asked::new(scheme, text, index, lead), answer);
    }
}

fn to_after<T: ByteChunk>(rt: &impl Abort, scheme: Scheme, rows: &[Row], lead: usize) {
    for &(text, index, byte) in rows {
        to_is::<T>(rt, Asked::new(scheme, text, index, lead), byte);
    }
}

fn answer_after_each_lead<T: ByteChunk>(rt: &impl Abort, rows: &KernelRows) {
    for lead in 0..rows.leads {
        count_after::<T>(rt, rows.scheme, rows.counts, lead);
        from_after::<T>(rt, rows.scheme, rows.from, lead);
        to_after::<T>(rt, rows.scheme, rows.to, lead);
    }
}

/// Compares the kernels over every type of chunk with the rows.
pub fn answer_over_each_chunk(rt: &impl Abort, rows: &KernelRows) {
    answer_after_each_lead::<HalfWord>(rt, rows);
    answer_after_each_lead::<Plain>(rt, rows);
    answer_after_each_lead::<usize>(rt, rows);
    answer_after_each_lead::<u128>(rt, rows);
    answer_after_each_lead::<u8x16>(rt, rows);
    answer_after_each_lead::<u8x32>(rt, rows);
    answer_after_each_lead::<Widest>(rt, rows);
}
