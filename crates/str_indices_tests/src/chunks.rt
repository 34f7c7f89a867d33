//! The calls of the plain chunk, of a number of eight lanes and of a probe, as tables, and functions over any chunk type.
ghost use Rattle.std.specs.Prelude.{◌≤◌, length};

use byte_chunk::{ByteChunk, Plain, Probe};
use std::mem::size_of;
use std::process::Abort;
use std::simd::prelude::*;
use std::test::Fail;

mod double_word;
pub(crate) mod half_word;
mod vectors;
mod wide_vectors;
pub(crate) mod widest;

use half_word::HalfWord;

fn lanes_are(rt: &impl Abort, chunk: Plain, lanes: &[u8; 8]) {
    assert!(rt; chunk.0 == *lanes, "{:?}", chunk.0);
}

/// Asserts a count, or the lanes of a word.
fn number_is(rt: &impl Abort, found: usize, want: usize) {
    assert!(rt; found == want, "{found}");
}

fn byte_is(rt: &impl Abort, found: u8, want: u8) {
    assert!(rt; found == want, "{found}");
}

/// Asserts that a chunk of zeros but for that byte in that lane is not zero.
fn not_zero(rt: &impl Abort, byte: u8, lane: usize, is_zero: bool) {
    assert!(rt; !is_zero, "{byte} at {lane}");
}

#[test]
fn load_takes_the_first_eight_bytes(rt: HostRuntime) {
    lanes_are(&rt, Plain::load(b"abcdefgh"), b"abcdefgh");
    lanes_are(&rt, Plain::load(b"abcdefghij"), b"abcdefgh");
}

#[test]
fn zero_and_splat_fill_each_lane(rt: HostRuntime) {
    lanes_are(&rt, Plain::zero(), &[0; 8]);
    lanes_are(&rt, Plain::splat(0), &[0; 8]);
    lanes_are(&rt, Plain::splat(7), &[7; 8]);
    lanes_are(&rt, Plain::splat(255), &[255; 8]);
}

#[test]
fn is_zero_asks_each_lane(rt: HostRuntime) {
    assert!(rt; Plain::zero().is_zero());
    assert!(rt; !Plain::splat(0x80).is_zero());
    for i in 0..8 {
        let mut lanes = [0; 8];
        lanes[i] = 1;
        not_zero(&rt, 1, i, Plain(lanes).is_zero());
    }
}

const SHIFTED_BACK: [[u8; 8]; 5] = [
    [1, 2, 3, 4, 5, 6, 7, 8],
    [2, 3, 4, 5, 6, 7, 8, 0],
    [3, 4, 5, 6, 7, 8, 0, 0],
    [4, 5, 6, 7, 8, 0, 0, 0],
    [5, 6, 7, 8, 0, 0, 0, 0],
];

#[test]
fn shift_back_lex_moves_lanes_to_the_front(rt: HostRuntime) {
    let chunk = Plain(SHIFTED_BACK[0]);
    for n in 0..5 {
        lanes_are(&rt, chunk.shift_back_lex(n), &SHIFTED_BACK[n]);
    }
}

#[test]
fn shift_across_starts_with_the_last_lane(rt: HostRuntime) {
    let next = Plain([1, 2, 3, 4, 5, 6, 7, 8]);
    let nines = Plain::splat(9);
    lanes_are(&rt, nines.shift_across(next), &[9, 1, 2, 3, 4, 5, 6, 7]);
    lanes_are(&rt, next.shift_across(nines), &[8, 9, 9, 9, 9, 9, 9, 9]);
    let letters = Plain(*b"abcdefgh").shift_across(Plain(*b"ijklmnop"));
    lanes_are(&rt, letters, b"hijklmno");
}

/// By how much each lane is shifted right, the bits that are masked, and the lanes then.
const SHIFTED_RIGHT: &[(usize, u8, [u8; 8])] = &[
    (0, 0xFF, [0x00, 0x01, 0x0F, 0x10, 0x7F, 0x80, 0xC3, 0xFF]),
    (3, 0x1F, [0x00, 0x00, 0x01, 0x02, 0x0F, 0x10, 0x18, 0x1F]),
    (4, 0x0F, [0x00, 0x00, 0x00, 0x01, 0x07, 0x08, 0x0C, 0x0F]),
];

#[test]
fn shr_shifts_the_low_bits_of_each_lane(rt: HostRuntime) {
    let low_seven = Plain::splat(0x7F);
    lanes_are(&rt, Plain::splat(0xA8).shr(1).bitand(low_seven), &[0x54; 8]);
    lanes_are(&rt, Plain::splat(0xA9).shr(1).bitand(low_seven), &[0x54; 8]);
    let chunk = Plain([0x00, 0x01, 0x0F, 0x10, 0x7F, 0x80, 0xC3, 0xFF]);
    for &(n, mask, lanes) in SHIFTED_RIGHT {
        assert!(rt; n <= 4);
        lanes_are(&rt, chunk.shr(n).bitand(Plain::splat(mask)), &lanes);
    }
}

/// A byte, and 1 in each lane of the chunk that is that byte.
const MARKS: &[(u8, [u8; 8])] = &[
    (0x80, [1, 0, 0, 1, 0, 0, 0, 1]),
    (0x00, [0, 1, 0, 0, 0, 1, 0, 0]),
    (0xFF, [0, 0, 1, 0, 0, 0, 0, 0]),
    (0x81, [0, 0, 0, 0, 0, 0, 1, 0]),
    (0x01, [0, 0, 0, 0, 0, 0, 0, 0]),
];

#[test]
fn cmp_eq_byte_marks_each_equal_lane(rt: HostRuntime) {
    let chunk = Plain([0x80, 0x00, 0xFF, 0x80, 0x7F, 0x00, 0x81, 0x80]);
    for &(byte, marks) in MARKS {
        lanes_are(&rt, chunk.cmp_eq_byte(byte), &marks);
    }
}

/// Lanes, two bounds, and 1 in each lane between them.
const BETWEEN: &[([u8; 8], u8, u8, [u8; 8])] = &[
    (LANES_AT_BOUNDS, 0x07, 0x7E, [0, 1, 0, 0, 0, 0, 1, 0]),
    (LANES_AT_BOUNDS, 0x00, 0x7F, [1, 1, 0, 0, 0, 0, 1, 1]),
    (LANES_AT_BOUNDS, 0x08, 0x09, [0; 8]),
    (
        [0x09, 0x0A, 0x0D, 0x0E, 0x89, 0x8A, 0x8D, 0x8E],
        0x09,
        0x0E,
        [0, 1, 1, 0, 0, 0, 0, 0],
    ),
];

const LANES_AT_BOUNDS: [u8; 8] = [0x07, 0x08, 0x7F, 0xFF, 0xA6, 0x00, 0x09, 0x7E];

#[test]
fn bytes_between_127_leaves_out_both_bounds(rt: HostRuntime) {
    for &(lanes, a, b, marks) in BETWEEN {
        assert!(rt; a < b && b <= 127);
        lanes_are(&rt, Plain(lanes).bytes_between_127(a, b), &marks);
    }
}

/// The lanes of a chunk, and the bits that they and those of the other chunk have set.
const COMMON_BITS: &[([u8; 8], [u8; 8])] = &[
    ([0xC0; 8], [0x00, 0x40, 0x80, 0x80, 0xC0, 0xC0, 0xC0, 0xC0]),
    ([0xF0; 8], [0x00, 0x70, 0x80, 0xB0, 0xC0, 0xE0, 0xF0, 0xF0]),
    ([0xFF; 8], [0x00, 0x7F, 0x80, 0xBF, 0xC0, 0xE3, 0xF0, 0xFF]),
    ([0x00; 8], [0x00; 8]),
    (
        [0xFF, 0x01, 0xFF, 0x02, 0xFF, 0x04, 0xFF, 0x08],
        [0x00, 0x01, 0x80, 0x02, 0xC0, 0x00, 0xF0, 0x08],
    ),
];

#[test]
fn bitand_keeps_the_bits_of_both(rt: HostRuntime) {
    let chunk = Plain([0x00, 0x7F, 0x80, 0xBF, 0xC0, 0xE3, 0xF0, 0xFF]);
    for &(other, common) in COMMON_BITS {
        lanes_are(&rt, chunk.bitand(Plain(other)), &common);
    }
}

#[test]
fn add_reaches_255_in_each_lane(rt: HostRuntime) {
    let chunk = Plain([0, 1, 2, 127, 128, 200, 254, 255]);
    lanes_are(&rt, chunk.add(Plain::zero()), &chunk.0);
    let rest = Plain([255, 254, 253, 128, 127, 55, 1, 0]);
    lanes_are(&rt, chunk.add(rest), &[255; 8]);
    let sums = chunk.add(Plain([3, 1, 0, 1, 2, 5, 0, 0]));
    lanes_are(&rt, sums, &[3, 2, 2, 128, 130, 205, 254, 255]);
}

#[test]
fn sub_reaches_0_in_each_lane(rt: HostRuntime) {
    let chunk = Plain([0, 1, 2, 127, 128, 200, 254, 255]);
    lanes_are(&rt, chunk.sub(Plain::zero()), &chunk.0);
    lanes_are(&rt, chunk.sub(chunk), &[0; 8]);
    let rest = Plain::splat(255).sub(chunk);
    lanes_are(&rt, rest, &[255, 254, 253, 128, 127, 55, 1, 0]);
}

#[test]
fn inc_nth_from_end_lex_byte_counts_from_the_end(rt: HostRuntime) {
    let chunk = Plain([1, 2, 3, 4, 5, 6, 7, 8]);
    let last = chunk.inc_nth_from_end_lex_byte(0);
    lanes_are(&rt, last, &[1, 2, 3, 4, 5, 6, 7, 9]);
    let last_but_one = chunk.inc_nth_from_end_lex_byte(1);
    lanes_are(&rt, last_but_one, &[1, 2, 3, 4, 5, 6, 8, 8]);
    let first = chunk.inc_nth_from_end_lex_byte(7);
    lanes_are(&rt, first, &[2, 2, 3, 4, 5, 6, 7, 8]);
    let chunk = Plain([255, 255, 255, 255, 255, 254, 255, 255]);
    lanes_are(&rt, chunk.inc_nth_from_end_lex_byte(2), &[255; 8]);
}

#[test]
fn dec_last_lex_byte_changes_the_last_lane(rt: HostRuntime) {
    let chunk = Plain([1, 2, 3, 4, 5, 6, 7, 8]).dec_last_lex_byte();
    lanes_are(&rt, chunk, &[1, 2, 3, 4, 5, 6, 7, 7]);
    let ones = Plain::splat(1).dec_last_lex_byte();
    lanes_are(&rt, ones, &[1, 1, 1, 1, 1, 1, 1, 0]);
    let chunk = Plain::splat(255).dec_last_lex_byte();
    lanes_are(&rt, chunk, &[255, 255, 255, 255, 255, 255, 255, 254]);
}

#[test]
fn sum_bytes_sums_past_a_byte(rt: HostRuntime) {
    number_is(&rt, Plain([255; 8]).sum_bytes(), 2040);
    number_is(&rt, Plain([1, 2, 4, 8, 16, 32, 64, 128]).sum_bytes(), 255);
    number_is(&rt, Plain([0; 8]).sum_bytes(), 0);
}

#[test]
fn a_copy_equals_its_source(rt: HostRuntime) -> Result<(), Fail> {
    let source = Plain(*b"a copy !");
    let copy = source;
    lanes_are(&rt, copy, &source.0);
    lanes_are(&rt, source.clone()?, &source.0);
    Ok(())
}

// How many of the bytes that the first chunk takes are trailing bytes of UTF-8.
fn trailing_bytes<T: ByteChunk>(bytes: &[u8]) -> usize
    requires { T.SIZE ≤ length bytes.now }
{
    T::load(bytes)
        .bitand(T::splat(0xC0))
        .cmp_eq_byte(0x80)
        .sum_bytes()
}

fn lane_count<T: ByteChunk>() -> usize {
    T::zero().add(T::splat(1)).sum_bytes()
}

fn has_digit<T: ByteChunk>(bytes: &[u8]) -> bool
    requires { T.SIZE ≤ length bytes.now }
{
    !T::load(bytes).bytes_between_127(b'/', b':').is_zero()
}

fn from_third_byte_on<T: ByteChunk>(bytes: &[u8]) -> T
    requires { T.SIZE ≤ length bytes.now }
{
    T::load(bytes).shift_back_lex(2)
}

// The chunk that starts one byte before `bytes`, where `before` is that byte.
fn from_byte_before<T: ByteChunk>(before: u8, bytes: &[u8]) -> T
    requires { T.SIZE ≤ length bytes.now }
{
    T::splat(before).shift_across(T::load(bytes))
}

fn upper_halves<T: ByteChunk>(bytes: &[u8]) -> T
    requires { T.SIZE ≤ length bytes.now }
{
    T::load(bytes).shr(4).bitand(T::splat(0x0F))
}

// 3 in each lane, but 4 in the last but one and 2 in the last.
fn threes_with_a_step<T: ByteChunk>() -> T {
    T::splat(5)
        .sub(T::splat(2))
        .inc_nth_from_end_lex_byte(1)
        .dec_last_lex_byte()
}

// `times` chunks of ones added up, lane by lane, and the lanes summed.
fn sum_of_ones<T: ByteChunk>(times: usize) -> usize
    requires { times ≤ T.MAX_ACC }
{
    let mut sums = T::zero();
    'rounds: for _ in 0..times {
        sums = sums.add(T::splat(1));
    }
    sums.sum_bytes()
}

/// The trailing bytes of two texts, the lanes, and a sum of ones.
fn numbers_of<T: ByteChunk>(accented: &[u8], ascii: &[u8], times: usize) -> [usize; 4]
    requires accented { T.SIZE ≤ length accented.now }
    requires ascii { T.SIZE ≤ length ascii.now }
    requires few { times ≤ T.MAX_ACC }
{
    [
        trailing_bytes::<T>(accented),
        trailing_bytes::<T>(ascii),
        lane_count::<T>(),
        sum_of_ones::<T>(times),
    ]
}

fn numbers_are(rt: &impl Abort, found: [usize; 4], want: [usize; 4]) {
    assert!(rt; found == want, "{found:?}");
}

/// The answers of the functions above: for letters, for letters after a dash, for bytes, and the threes.
fn chunks_of<T: ByteChunk>(letters: &[u8], bytes: &[u8]) -> (T, T, T, T)
    requires letters { T.SIZE ≤ length letters.now }
    requires bytes { T.SIZE ≤ length bytes.now }
{
    (
        from_third_byte_on::<T>(letters),
        from_byte_before::<T>(b'-', letters),
        upper_halves::<T>(bytes),
        threes_with_a_step::<T>(),
    )
}

const HEX: &[u8; 16] = b"\x01\x23\x45\x67\x89\xAB\xCD\xEF\x10\x32\x54\x76\x98\xBA\xDC\xFE";

#[test]
fn generic_code_calls_each_method(rt: HostRuntime) {
    let accented = "a\u{e9}\u{305b}bcdef".as_bytes();
    let numbers = numbers_of::<Plain>(accented, b"abcdefgh", 255);
    numbers_are(&rt, numbers, [3, 0, 8, 2040]);
    assert!(rt; has_digit::<Plain>(b"/a9b:c-d"));
    assert!(rt; !has_digit::<Plain>(b"/a.b:c-d"));
    let (third, before, halves, threes) = chunks_of::<Plain>(b"abcdefgh", HEX);
    lanes_are(&rt, third, b"cdefgh\0\0");
    lanes_are(&rt, before, b"-abcdefg");
    lanes_are(&rt, halves, b"\x00\x02\x04\x06\x08\x0A\x0C\x0E");
    lanes_are(&rt, threes, &[3, 3, 3, 3, 3, 3, 4, 2]);
}

#[test]
fn generic_code_calls_each_method_of_a_word(rt: HostRuntime) {
    let accented = "a\u{e9}\u{305b}bcdef".as_bytes();
    let numbers = numbers_of::<usize>(accented, b"abcdefgh", 31);
    numbers_are(&rt, numbers, [3, 0, 8, 248]);
    assert!(rt; has_digit::<usize>(b"/a9b:c-d"));
    assert!(rt; !has_digit::<usize>(b"/a.b:c-d"));
    let (third, before, halves, threes) = chunks_of::<usize>(b"abcdefgh", HEX);
    number_is(&rt, third, 0x0000_6867_6665_6463);
    number_is(&rt, before, 0x6766_6564_6362_612D);
    number_is(&rt, halves, 0x0E0C_0A08_0604_0200);
    number_is(&rt, threes, 0x0204_0303_0303_0303);
}

#[test]
fn generic_code_calls_each_method_of_a_double_word(rt: HostRuntime) {
    let accented = "a\u{e9}\u{305b}bcdefghijk".as_bytes();
    let numbers = numbers_of::<u128>(accented, b"abcdefghijklmnop", 15);
    numbers_are(&rt, numbers, [3, 0, 16, 240]);
    assert!(rt; has_digit::<u128>(b"/a.b:c-d/a.b:c-9"));
    assert!(rt; !has_digit::<u128>(b"/a.b:c-d/a.b:c-d"));
    let (third, before, halves, threes) = chunks_of::<u128>(b"abcdefghijklmnop", HEX);
    double_word::word_is(&rt, third, 0x0000_706F_6E6D_6C6B_6A69_6867_6665_6463);
    double_word::word_is(&rt, before, 0x6F6E_6D6C_6B6A_6968_6766_6564_6362_612D);
    double_word::word_is(&rt, halves, 0x0F0D_0B09_0705_0301_0E0C_0A08_0604_0200);
    double_word::word_is(&rt, threes, 0x0204_0303_0303_0303_0303_0303_0303_0303);
}

#[test]
fn generic_code_calls_each_method_of_half_a_word(rt: HostRuntime) {
    let accented = "a\u{e9}\u{305b}".as_bytes();
    let numbers = numbers_of::<HalfWord>(accented, b"abcd", 63);
    numbers_are(&rt, numbers, [1, 0, 4, 252]);
    assert!(rt; has_digit::<HalfWord>(b"/a9b"));
    assert!(rt; !has_digit::<HalfWord>(b"/a:b"));
    let (third, before, halves, threes) = chunks_of::<HalfWord>(b"abcd", b"\x01\x23\x89\xEF");
    number_is(&rt, third.0 as usize, 0x0000_6463);
    number_is(&rt, before.0 as usize, 0x6362_612D);
    number_is(&rt, halves.0 as usize, 0x0E08_0200);
    number_is(&rt, threes.0 as usize, 0x0204_0303);
}

#[test]
fn generic_code_calls_each_method_of_a_vector(rt: HostRuntime) {
    let accented = "a\u{e9}\u{305b}bcdefghijk".as_bytes();
    let numbers = numbers_of::<u8x16>(accented, b"abcdefghijklmnop", 255);
    numbers_are(&rt, numbers, [3, 0, 16, 4080]);
    assert!(rt; has_digit::<u8x16>(b"/a.b:c-d/a.b:c-9"));
    assert!(rt; !has_digit::<u8x16>(b"/a.b:c-d/a.b:c-d"));
    let (third, before, halves, threes) = chunks_of::<u8x16>(b"abcdefghijklmnop", HEX);
    vectors::lanes_are(&rt, third, b"cdefghijklmnop\0\0");
    vectors::lanes_are(&rt, before, b"-abcdefghijklmno");
    vectors::lanes_are(
        &rt,
        halves,
        &[0, 2, 4, 6, 8, 10, 12, 14, 1, 3, 5, 7, 9, 11, 13, 15],
    );
    vectors::lanes_are(
        &rt,
        threes,
        &[3, 3, 3, 3, 3, 3, 3, 3, 3, 3, 3, 3, 3, 3, 4, 2],
    );
}

#[test]
fn generic_code_calls_each_method_of_a_wide_vector(rt: HostRuntime) {
    let accented = "a\u{e9}\u{305b}bcdefghijklmnopqrstuvwxy\u{e9}".as_bytes();
    let letters = b"abcdefghijklmnopqrstuvwxyz012345";
    numbers_are(
        &rt,
        numbers_of::<u8x32>(accented, letters, 255),
        [4, 0, 32, 8160],
    );
    assert!(rt; has_digit::<u8x32>(b"/a.b:c-d/a.b:c-d/a.b:c-d/a.b:c-9"));
    assert!(rt; !has_digit::<u8x32>(b"/a.b:c-d/a.b:c-d/a.b:c-d/a.b:c-d"));
    let (third, before, halves, threes) = chunks_of::<u8x32>(letters, letters);
    wide_vectors::lanes_are(&rt, third, b"cdefghijklmnopqrstuvwxyz012345\0\0");
    wide_vectors::lanes_are(&rt, before, b"-abcdefghijklmnopqrstuvwxyz01234");
    wide_vectors::lanes_are(&rt, halves, &UPPER_HALVES_OF_LETTERS);
    wide_vectors::lanes_are(&rt, threes, &THREES_WITH_A_STEP);
}

const UPPER_HALVES_OF_LETTERS: [u8; 32] = [
    6, 6, 6, 6, 6, 6, 6, 6, 6, 6, 6, 6, 6, 6, 6, 7, 7, 7, 7, 7, 7, 7, 7, 7, 7, 7, 3, 3, 3, 3, 3, 3,
];

const THREES_WITH_A_STEP: [u8; 32] = [
    3, 3, 3, 3, 3, 3, 3, 3, 3, 3, 3, 3, 3, 3, 3, 3, 3, 3, 3, 3, 3, 3, 3, 3, 3, 3, 3, 3, 3, 3, 4, 2,
];

#[test]
fn a_word_has_its_lowest_byte_in_lane_0(rt: HostRuntime) {
    number_is(
        &rt,
        usize::load(b"\x01\x02\x03\x04\x05\x06\x07\x08"),
        0x0807_0605_0403_0201,
    );
    number_is(&rt, usize::load(b"abcdefghij"), 0x6867_6665_6463_6261);
    number_is(&rt, usize::zero(), 0);
    number_is(&rt, usize::splat(0xC0), 0xC0C0_C0C0_C0C0_C0C0);
}

#[test]
fn a_word_shifts_whole_lanes(rt: HostRuntime) {
    let word: usize = 0x0807_0605_0403_0201;
    let nines = usize::splat(9);
    number_is(&rt, word.shift_back_lex(0), word);
    number_is(&rt, word.shift_back_lex(4), 0x0000_0000_0807_0605);
    number_is(&rt, word.shift_across(nines), 0x0909_0909_0909_0908);
    number_is(&rt, nines.shift_across(word), 0x0706_0504_0302_0109);
}

const WORDS_WITH_ONE_BIT: &[usize] = &[
    1,
    0x80,
    0x100,
    0x0100_0000_0000_0000,
    0x8000_0000_0000_0000,
];

#[test]
fn a_word_is_zero_where_each_lane_is(rt: HostRuntime) {
    assert!(rt; usize::zero().is_zero());
    for &word in WORDS_WITH_ONE_BIT {
        assert!(rt; !word.is_zero(), "at {word}");
    }
}

/// A word, a byte, and 1 in each lane of the word that is that byte.
const MARKS_OF_WORDS: &[(usize, u8, usize)] = &[
    (0xE209_08A6_E2A6_E209, 0xE2, 0x0100_0000_0100_0100),
    (0xE209_08A6_E2A6_E209, 0x07, 0x0000_0000_0000_0000),
    (0xE209_08A6_E2A6_E209, 0x08, 0x0000_0100_0000_0000),
    (0xE209_08A6_E2A6_E209, 0x09, 0x0001_0000_0000_0001),
    (0xE209_08A6_E2A6_E209, 0xA6, 0x0000_0001_0001_0000),
    // Lane 1 holds 1: a test by borrows would mark it, next to lane 0.
    (0x0000_0000_0000_0100, 0x00, 0x0101_0101_0101_0001),
];

#[test]
fn a_word_marks_each_equal_lane(rt: HostRuntime) {
    for &(word, byte, marks) in MARKS_OF_WORDS {
        number_is(&rt, word.cmp_eq_byte(byte), marks);
    }
}

/// Two bounds, and 1 in each lane of the word between them.
const BETWEEN_IN_WORDS: &[(u8, u8, usize)] = &[
    (0x07, 0x7E, 0x0001_0000_0000_0100),
    (0x00, 0x7F, 0x0101_0000_0000_0101),
    (0x08, 0x7E, 0x0001_0000_0000_0000),
];

#[test]
fn a_word_leaves_out_both_bounds(rt: HostRuntime) {
    let word: usize = 0x7E09_00A6_FF7F_0807;
    for &(a, b, marks) in BETWEEN_IN_WORDS {
        assert!(rt; a < b && b <= 127);
        number_is(&rt, word.bytes_between_127(a, b), marks);
    }
}

#[test]
#[tactic(auto, unfolding(byte_chunk::specs::Lanes::word_lanes))]
fn a_word_adds_and_subtracts_lane_by_lane(rt: HostRuntime) {
    let word: usize = 0xFFFE_C880_7F02_0100;
    let rest: usize = 0x0001_377F_80FD_FEFF;
    number_is(&rt, word.bitand(rest), 0);
    number_is(&rt, word.bitand(usize::splat(0xF0)), 0xF0F0_C080_7000_0000);
    number_is(&rt, word.add(rest), usize::MAX);
    number_is(&rt, usize::MAX.sub(word), rest);
}

#[test]
#[tactic(auto, unfolding(byte_chunk::specs::Lanes::word_lanes))]
fn a_word_changes_one_lane(rt: HostRuntime) {
    let word: usize = 0xFFFE_C880_7F02_0100;
    number_is(
        &rt,
        word.inc_nth_from_end_lex_byte(1),
        0xFFFF_C880_7F02_0100,
    );
    number_is(
        &rt,
        word.inc_nth_from_end_lex_byte(7),
        0xFFFE_C880_7F02_0101,
    );
    number_is(&rt, word.dec_last_lex_byte(), 0xFEFE_C880_7F02_0100);
}

#[test]
#[tactic(auto, unfolding(byte_chunk::specs::Lanes::word_lanes))]
fn a_word_shifts_and_sums_its_lanes(rt: HostRuntime) {
    let halves = usize::splat(0xA9).shr(1).bitand(usize::splat(0x7F));
    number_is(&rt, halves, 0x5454_5454_5454_5454);
    number_is(&rt, usize::sum_bytes(&0x1F00_1F1F_0102_0304), 103);
}

#[test]
fn a_probe_reads_bytes_and_chunks(rt: HostRuntime) {
    let mut probe: Probe<'static, Plain> = Probe::of("0123456789\u{e9}");
    assert!(rt; probe.len() == 12);
    byte_is(&rt, probe.turn(0), b'0');
    byte_is(&rt, probe.turn(11), 0xA9);
    byte_is(&rt, probe.peek(10), 0xC3);
    lanes_are(&rt, probe.load(1), b"12345678");
    lanes_are(&rt, probe.load(4), b"456789\xC3\xA9");
}

#[test]
fn a_probe_takes_no_more_than_its_text(rt: HostRuntime) {
    number_is(&rt, size_of::<Probe<'static, Plain>>(), size_of::<&str>());
}
