//! Texts that fill every lane of a round, over and over.
use super::answers::all_answer_as_the_walk;
use super::rows::{self, Asked};
use crate::chunks::half_word::HalfWord;
use crate::chunks::widest::Widest;
use byte_chunk::{ByteChunk, Plain};
use std::alloc::Global;
use std::process::Abort;
use std::simd::{u8x16, u8x32};
use std::test::Fail;
use str_indices::Scheme;

/// A char repeated, and its count in each scheme, in the order of `Scheme::ALL`.
const REPEATED: [(&str, usize, [usize; 5]); 7] = [
    ("", 1, [0, 0, 0, 0, 0]),
    ("é", 4097, [4097, 4097, 0, 0, 0]),
    ("\n", 4097, [4097, 4097, 4097, 4097, 4097]),
    ("\r", 4097, [4097, 4097, 0, 4097, 4097]),
    ("\r\n", 4097, [8194, 8194, 4097, 4097, 4097]),
    ("\u{2028}", 4097, [4097, 4097, 0, 0, 4097]),
    ("\u{1F438}", 1025, [1025, 2050, 0, 0, 0]),
];

/// Indices before, at and past the last repetition, counted in chars, units or breaks, and in bytes.
const INDICES: [usize; 5] = [1, 4096, 4098, 8193, 12290];

/// A repeated char, its scheme, a byte or an index, and the index or the byte that it is given.
type Row = (&'static str, usize, Scheme, usize, usize);

/// Bytes that are given an index, and the index.
const FROM: &[Row] = &[
    ("é", 4097, Scheme::Chars, 8193, 4096),
    ("é", 4097, Scheme::Utf16, 8193, 4096),
    ("\n", 4097, Scheme::Lf, 4097, 4097),
    ("\r\n", 4097, Scheme::Lf, 8193, 4096),
    ("\r\n", 4097, Scheme::Crlf, 8193, 4096),
    ("\r\n", 4097, Scheme::Lines, 8193, 4096),
    ("\u{2028}", 4097, Scheme::Lines, 12290, 4096),
    ("\u{1F438}", 1025, Scheme::Utf16, 4099, 2048),
];

/// Indices that go to a byte, and the byte.
const TO: &[Row] = &[
    ("é", 4097, Scheme::Chars, 4096, 8192),
    ("é", 4097, Scheme::Utf16, 4096, 8192),
    ("\r", 4097, Scheme::Crlf, 4096, 4096),
    ("\n", 4097, Scheme::Lf, 4096, 4096),
    ("\n", 4097, Scheme::Lf, 4098, 4097),
    ("\n", 4097, Scheme::Crlf, 4096, 4096),
    ("\n", 4097, Scheme::Crlf, 4098, 4097),
    ("\n", 4097, Scheme::Lines, 4096, 4096),
    ("\n", 4097, Scheme::Lines, 4098, 4097),
    ("\r\n", 4097, Scheme::Lf, 4096, 8192),
    ("\r\n", 4097, Scheme::Lf, 4097, 8194),
    ("\r\n", 4097, Scheme::Crlf, 4096, 8192),
    ("\r\n", 4097, Scheme::Crlf, 4097, 8194),
    ("\r\n", 4097, Scheme::Lines, 4096, 8192),
    ("\r\n", 4097, Scheme::Lines, 4097, 8194),
    ("\u{2028}", 4097, Scheme::Lines, 4096, 12288),
    ("\u{2028}", 4097, Scheme::Lf, 1, 12291),
    ("\u{1F438}", 1025, Scheme::Chars, 1024, 4096),
    ("\u{1F438}", 1025, Scheme::Utf16, 2049, 4096),
    ("\u{1F438}", 1025, Scheme::Utf16, 2050, 4100),
];

/// Compares the count of the whole text, and the answers for the greatest index, after `lead` leading bytes.
fn count_after<T: ByteChunk>(
    rt: &impl Abort,
    scheme: Scheme,
    text: &str,
    count: usize,
    lead: usize,
) {
    let whole = Asked::new(scheme, text, text.len(), lead);
    rows::count_is::<T>(rt, whole, Some(count));
    let past = Asked::new(scheme, text, usize::MAX, lead);
    rows::from_is::<T>(rt, past, count);
    rows::to_is::<T>(rt, past, text.len());
}

fn count_whole<T: ByteChunk>(rt: &impl Abort, scheme: Scheme, text: &str, count: usize) {
    for lead in [0, 1, 31] {
        count_after::<T>(rt, scheme, text, count, lead);
    }
}

fn count_in_each_scheme<T: ByteChunk>(rt: &impl Abort, text: &str, counts: [usize; 5]) {
    for i in 0..5 {
        count_whole::<T>(rt, Scheme::ALL[i], text, counts[i]);
    }
}

fn count_each<T: ByteChunk>(rt: &impl Abort, alloc: Global) -> Result<(), Fail> {
    for (unit, times, counts) in REPEATED {
        let text = unit.repeat(alloc, times)?;
        count_in_each_scheme::<T>(rt, &text, counts);
    }
    Ok(())
}

fn count_frogs<T: ByteChunk>(rt: &impl Abort, alloc: Global) -> Result<(), Fail> {
    let frogs = "\u{1F438}".repeat(alloc, 1025)?;
    rows::pairs_are::<T>(rt, Asked::new(Scheme::Utf16, &frogs, 4100, 0), Some(1025));
    rows::pairs_are::<T>(rt, Asked::new(Scheme::Utf16, &frogs, 4096, 3), Some(1024));
    Ok(())
}

fn convert_from<T: ByteChunk>(rt: &impl Abort, alloc: Global, row: Row) -> Result<(), Fail> {
    let (unit, times, scheme, byte, index) = row;
    let text = unit.repeat(alloc, times)?;
    rows::from_is::<T>(rt, Asked::new(scheme, &text, byte, 0), index);
    Ok(())
}

fn convert_to<T: ByteChunk>(rt: &impl Abort, alloc: Global, row: Row) -> Result<(), Fail> {
    let (unit, times, scheme, index, byte) = row;
    let text = unit.repeat(alloc, times)?;
    rows::to_is::<T>(rt, Asked::new(scheme, &text, index, 0), byte);
    Ok(())
}

fn convert_each<T: ByteChunk>(rt: &impl Abort, alloc: Global) -> Result<(), Fail> {
    for row in FROM {
        convert_from::<T>(rt, alloc, *row)?;
    }
    for row in TO {
        convert_to::<T>(rt, alloc, *row)?;
    }
    Ok(())
}

/// Compares all kernels with the plain walk on a break repeated.
fn answer_as_the_walk<T: ByteChunk>(rt: &impl Abort, alloc: Global) -> Result<(), Fail> {
    for unit in ["\n", "\r", "\r\n", "\u{2028}"] {
        let text = unit.repeat(alloc, 4097)?;
        for index in INDICES {
            all_answer_as_the_walk::<T>(rt, &text, index, &[0, 1, 31]);
        }
    }
    Ok(())
}

fn fill_lanes<T: ByteChunk>(rt: &impl Abort, alloc: Global) -> Result<(), Fail> {
    count_each::<T>(rt, alloc)?;
    count_frogs::<T>(rt, alloc)?;
    answer_as_the_walk::<T>(rt, alloc)?;
    convert_each::<T>(rt, alloc)
}

#[test]
fn full_lanes_answer_over_every_chunk(rt: HostRuntime) -> Result<(), Fail> {
    fill_lanes::<HalfWord>(&rt, rt.alloc())?;
    fill_lanes::<Plain>(&rt, rt.alloc())?;
    fill_lanes::<usize>(&rt, rt.alloc())?;
    fill_lanes::<u128>(&rt, rt.alloc())?;
    fill_lanes::<u8x16>(&rt, rt.alloc())?;
    fill_lanes::<u8x32>(&rt, rt.alloc())?;
    fill_lanes::<Widest>(&rt, rt.alloc())
}
