//! Which bytes are UTF-8, by a table of the Unicode Standard, over every chunk type and wherever a chunk may end.
use crate::chunks::half_word::HalfWord;
use crate::chunks::widest::Widest;
use byte_chunk::{ByteProbe, Plain};
use std::alloc::{AllocError, Global};
use std::process::Abort;
use std::simd::{u8x16, u8x32};
use std::test::Fail;
use str_indices::{Utf8Chunk, from_utf8, is_utf8, utf8, valid_up_to};

/// Bytes, and how many of them there are before the first char that is wrong or that ends too soon.
type Row = (&'static [u8], usize);

/// The bounds of table 3-7, each beside its neighbours: the least and the greatest bytes of a line of that table.
const ROWS: &[Row] = &[
    (b"\x00", 1),
    (b"\x7F", 1),
    (b"\xC2\x80", 2),
    (b"\xDF\xBF", 2),
    (b"\xE0\xA0\x80", 3),
    (b"\xE0\xBF\xBF", 3),
    (b"\xE1\x80\x80", 3),
    (b"\xEC\xBF\xBF", 3),
    (b"\xED\x80\x80", 3),
    (b"\xED\x9F\xBF", 3),
    (b"\xEE\x80\x80", 3),
    (b"\xEF\xBF\xBF", 3),
    (b"\xF0\x90\x80\x80", 4),
    (b"\xF0\xBF\xBF\xBF", 4),
    (b"\xF1\x80\x80\x80", 4),
    (b"\xF3\xBF\xBF\xBF", 4),
    (b"\xF4\x80\x80\x80", 4),
    (b"\xF4\x8F\xBF\xBF", 4),
    // no char begins so
    (b"\x80", 0),
    (b"\xBF", 0),
    (b"\xC0\x80", 0),
    (b"\xC1\xBF", 0),
    (b"\xF5\x80\x80\x80", 0),
    (b"\xFF\xBF\xBF\xBF", 0),
    // the second byte is too small or too great
    (b"\xC2\x7F", 0),
    (b"\xDF\xC0", 0),
    (b"\xE0\x9F\xBF", 0),
    (b"\xE0\xC0\x80", 0),
    (b"\xE1\x7F\x80", 0),
    (b"\xEC\xC0\x80", 0),
    (b"\xED\x7F\x80", 0),
    (b"\xED\xA0\x80", 0),
    (b"\xEE\x7F\x80", 0),
    (b"\xEF\xC0\x80", 0),
    (b"\xF0\x8F\xBF\xBF", 0),
    (b"\xF0\xC0\x80\x80", 0),
    (b"\xF1\x7F\x80\x80", 0),
    (b"\xF3\xC0\x80\x80", 0),
    (b"\xF4\x7F\x80\x80", 0),
    (b"\xF4\x90\x80\x80", 0),
    // a later byte is
    (b"\xE0\xA0\x7F", 0),
    (b"\xEF\xBF\xC0", 0),
    (b"\xF0\x90\x7F\x80", 0),
    (b"\xF4\x8F\xC0\xBF", 0),
    (b"\xF0\x90\x80\x7F", 0),
    (b"\xF4\x8F\xBF\xC0", 0),
    // a char ends too soon
    (b"\xC2", 0),
    (b"\xE1", 0),
    (b"\xE1\x80", 0),
    (b"\xF1", 0),
    (b"\xF1\x80", 0),
    (b"\xF1\x80\x80", 0),
    (b"\xC3\xA9\xE3\x81", 2),
    (b"\xE3\x81\xC3\xA9", 0),
    // a trailing byte too many
    (b"\xC2\x80\x80", 2),
    (b"\xE1\x80\x80\x80", 3),
    (b"\xF1\x80\x80\x80\x80", 4),
];

/// The numbers of leading bytes.
const LEADS: [usize; 4] = [0, 1, 3, 66];

/// The bytes of a row with `before` letters before them, and `after` letters after them.
fn surround(alloc: Global, before: usize, row: &[u8], after: usize) -> Result<Vec<u8>, AllocError> {
    let mut bytes = "a".repeat(alloc, before)?.into_bytes();
    bytes.extend_from_slice(row)?;
    bytes.extend_from_slice("b".repeat(alloc, after)?.as_bytes())?;
    Ok(bytes)
}

/// The answer for a row between ASCII: what comes after it counts only if the row is UTF-8.
fn want(before: usize, row: Row, after: usize) -> usize {
    let (bytes, valid) = row;
    let front = before.saturating_add(valid);
    if valid < bytes.len() {
        return front;
    }
    front.saturating_add(after)
}

/// Asserts how many bytes are valid, by what said so.
fn same(rt: &impl Abort, call: &str, bytes: &[u8], found: usize, want: usize) {
    assert!(rt; found == want, "{call} {bytes:?}: {found}, not {want}");
}

/// Compares the public functions and the standard library with the answer for a row.
fn calls_answer(rt: &impl Abort, bytes: &[u8], want: usize) {
    let by_std = match str::from_utf8(bytes) {
        Ok(text) => text.len(),
        Err(error) => error.valid_up_to(),
    };
    same(rt, "std", bytes, by_std, want);
    same(rt, "valid_up_to", bytes, valid_up_to(bytes), want);
    assert!(rt;
        is_utf8(bytes) == (want == bytes.len()),
        "is_utf8 {bytes:?}"
    );
    assert!(rt;
        from_utf8(bytes) == str::from_utf8(bytes).ok(),
        "from_utf8 {bytes:?}"
    );
}

#[test]
fn each_call_answers_as_the_table_and_the_standard_library(rt: HostRuntime) -> Result<(), Fail> {
    for before in 0..72 {
        calls_answer_after(&rt, rt.alloc(), before)?;
    }
    Ok(())
}

fn calls_answer_after(rt: &impl Abort, alloc: Global, before: usize) -> Result<(), AllocError> {
    for &(bytes, valid) in ROWS {
        calls_answer_before(rt, alloc, before, (bytes, valid))?;
    }
    Ok(())
}

fn calls_answer_before(
    rt: &impl Abort,
    alloc: Global,
    before: usize,
    row: Row,
) -> Result<(), AllocError> {
    for after in [0, 1, 70] {
        let bytes = surround(alloc, before, row.0, after)?;
        calls_answer(rt, &bytes, want(before, row, after));
    }
    Ok(())
}

/// Compares both kernels with the answer for bytes, after each number of leading bytes.
fn kernels_answer<T: Utf8Chunk>(rt: &impl Abort, bytes: &[u8], want: usize) {
    for lead in LEADS {
        let found = utf8::valid_up_to_impl(&mut ByteProbe::<T>::of(bytes), lead);
        same(rt, "valid_up_to_impl", bytes, found, want);
        let is_utf8 = utf8::is_utf8_impl(&mut ByteProbe::<T>::of(bytes), lead);
        assert!(rt; is_utf8 == (want == bytes.len()), "is_utf8_impl {bytes:?}");
    }
}

/// Puts `before` letters in front of each row, and compares the answers: once the bytes end with the row, and once four
/// chunks of letters follow it.
fn rows_answer_after<T: Utf8Chunk>(
    rt: &impl Abort,
    alloc: Global,
    before: usize,
) -> Result<(), AllocError> {
    for &(bytes, valid) in ROWS {
        let alone = surround(alloc, before, bytes, 0)?;
        kernels_answer::<T>(rt, &alone, want(before, (bytes, valid), 0));
        let after = 4 * T::SIZE;
        let between = surround(alloc, before, bytes, after)?;
        kernels_answer::<T>(rt, &between, want(before, (bytes, valid), after));
    }
    Ok(())
}

/// Compares them for each row after each number of letters from `first` up to `end`.
fn rows_answer_after_each<T: Utf8Chunk>(
    rt: &impl Abort,
    alloc: Global,
    first: usize,
    end: usize,
) -> Result<(), AllocError> {
    for before in first..end {
        rows_answer_after::<T>(rt, alloc, before)?;
    }
    Ok(())
}

/// Compares them for each row at each place of the first chunk, across its edge, and across the edge of four chunks.
fn rows_answer_everywhere<T: Utf8Chunk>(rt: &impl Abort, alloc: Global) -> Result<(), Fail> {
    rows_answer_after_each::<T>(rt, alloc, 0, T::SIZE + 1)?;
    rows_answer_after_each::<T>(rt, alloc, 4 * T::SIZE - 4, 4 * T::SIZE + 1)?;
    Ok(())
}

#[test]
fn each_kernel_answers_as_the_table_over_every_chunk(rt: HostRuntime) -> Result<(), Fail> {
    rows_answer_everywhere::<HalfWord>(&rt, rt.alloc())?;
    rows_answer_everywhere::<Plain>(&rt, rt.alloc())?;
    rows_answer_everywhere::<usize>(&rt, rt.alloc())?;
    rows_answer_everywhere::<u128>(&rt, rt.alloc())?;
    rows_answer_everywhere::<u8x16>(&rt, rt.alloc())?;
    rows_answer_everywhere::<u8x32>(&rt, rt.alloc())?;
    rows_answer_everywhere::<Widest>(&rt, rt.alloc())
}
