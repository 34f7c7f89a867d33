//! The calls of the vector of sixteen lanes, as tables, and those of any width at other widths.
use super::{not_zero, number_is};
use byte_chunk::{ByteChunk, vectors};
use std::process::Abort;
use std::simd::prelude::*;

pub fn lanes_are(rt: &impl Abort, chunk: u8x16, lanes: &[u8; 16]) {
    let found = chunk.to_array();
    assert!(rt; found == *lanes, "{found:?}");
}

#[test]
fn a_vector_takes_the_first_sixteen_bytes(rt: HostRuntime) {
    lanes_are(&rt, u8x16::load(b"abcdefghijklmnop"), b"abcdefghijklmnop");
    lanes_are(&rt, u8x16::load(b"abcdefghijklmnopqr"), b"abcdefghijklmnop");
    lanes_are(&rt, <u8x16 as ByteChunk>::zero(), &[0; 16]);
    lanes_are(&rt, <u8x16 as ByteChunk>::splat(0xC0), &[0xC0; 16]);
}

fn one_lane_is_not_zero(rt: &impl Abort, byte: u8) {
    for i in 0..16 {
        let mut lanes = [0; 16];
        lanes[i] = byte;
        not_zero(rt, byte, i, u8x16::from_array(lanes).is_zero());
    }
}

#[test]
fn a_vector_is_zero_where_each_lane_is(rt: HostRuntime) {
    assert!(rt; u8x16::zero().is_zero());
    one_lane_is_not_zero(&rt, 0x01);
    one_lane_is_not_zero(&rt, 0x80);
    one_lane_is_not_zero(&rt, 0xFF);
}

const SHIFTED_BACK: [&[u8; 16]; 5] = [
    b"abcdefghijklmnop",
    b"bcdefghijklmnop\0",
    b"cdefghijklmnop\0\0",
    b"defghijklmnop\0\0\0",
    b"efghijklmnop\0\0\0\0",
];

#[test]
fn a_vector_shifts_back(rt: HostRuntime) {
    let chunk = u8x16::load(b"abcdefghijklmnop");
    for n in 0..5 {
        lanes_are(&rt, chunk.shift_back_lex(n), SHIFTED_BACK[n]);
    }
}

#[test]
fn a_vector_shifts_across(rt: HostRuntime) {
    let chunk = u8x16::load(b"abcdefghijklmnop");
    let next = u8x16::load(b"qrstuvwxyz012345");
    lanes_are(&rt, chunk.shift_across(next), b"pqrstuvwxyz01234");
    lanes_are(&rt, next.shift_across(chunk), b"5abcdefghijklmno");
}

const LOW_BITS: [u8; 16] = [
    0x00, 0x01, 0x0F, 0x10, 0x7F, 0x80, 0xC3, 0xFF, 0xFF, 0xA8, 0xA9, 0x11, 0x22, 0x44, 0x88, 0xF0,
];

/// By how much each lane is shifted right, the bits that are masked, and the lanes then.
const SHIFTED_RIGHT: &[(usize, u8, [u8; 16])] = &[
    (0, 0xFF, LOW_BITS),
    (
        1,
        0x7F,
        [
            0x00, 0x00, 0x07, 0x08, 0x3F, 0x40, 0x61, 0x7F, 0x7F, 0x54, 0x54, 0x08, 0x11, 0x22,
            0x44, 0x78,
        ],
    ),
    (
        4,
        0x0F,
        [
            0x00, 0x00, 0x00, 0x01, 0x07, 0x08, 0x0C, 0x0F, 0x0F, 0x0A, 0x0A, 0x01, 0x02, 0x04,
            0x08, 0x0F,
        ],
    ),
];

#[test]
fn a_vector_shifts_the_low_bits_of_each_lane(rt: HostRuntime) {
    let chunk = u8x16::from_array(LOW_BITS);
    for &(n, mask, lanes) in SHIFTED_RIGHT {
        assert!(rt; n <= 4);
        lanes_are(&rt, chunk.shr(n).bitand(u8x16::splat(mask)), &lanes);
    }
}

const EVERY_KIND: [u8; 16] = [
    0x80, 0x00, 0xFF, 0x80, 0x7F, 0x00, 0x81, 0x80, 0x09, 0xE2, 0xA6, 0xE2, 0xA6, 0x08, 0x09, 0xE2,
];

/// A byte, and 1 in each lane that is that byte.
const MARKS: &[(u8, [u8; 16])] = &[
    (0x80, [1, 0, 0, 1, 0, 0, 0, 1, 0, 0, 0, 0, 0, 0, 0, 0]),
    (0x00, [0, 1, 0, 0, 0, 1, 0, 0, 0, 0, 0, 0, 0, 0, 0, 0]),
    (0xFF, [0, 0, 1, 0, 0, 0, 0, 0, 0, 0, 0, 0, 0, 0, 0, 0]),
    (0xE2, [0, 0, 0, 0, 0, 0, 0, 0, 0, 1, 0, 1, 0, 0, 0, 1]),
    (0x09, [0, 0, 0, 0, 0, 0, 0, 0, 1, 0, 0, 0, 0, 0, 1, 0]),
    (0x07, [0, 0, 0, 0, 0, 0, 0, 0, 0, 0, 0, 0, 0, 0, 0, 0]),
];

#[test]
fn a_vector_marks_each_equal_lane(rt: HostRuntime) {
    let chunk = u8x16::from_array(EVERY_KIND);
    for &(byte, marks) in MARKS {
        lanes_are(&rt, chunk.cmp_eq_byte(byte), &marks);
    }
}

const LANES_AT_BOUNDS: [u8; 16] = [
    0x07, 0x08, 0x7F, 0xFF, 0xA6, 0x00, 0x09, 0x7E, 0x0A, 0x0D, 0x0E, 0x89, 0x8A, 0x8D, 0x8E, 0x80,
];

/// Two bounds, and 1 in each lane between them.
const BETWEEN: &[(u8, u8, [u8; 16])] = &[
    (0x07, 0x7E, [0, 1, 0, 0, 0, 0, 1, 0, 1, 1, 1, 0, 0, 0, 0, 0]),
    (0x00, 0x7F, [1, 1, 0, 0, 0, 0, 1, 1, 1, 1, 1, 0, 0, 0, 0, 0]),
    (0x09, 0x0E, [0, 0, 0, 0, 0, 0, 0, 0, 1, 1, 0, 0, 0, 0, 0, 0]),
    (0x08, 0x09, [0, 0, 0, 0, 0, 0, 0, 0, 0, 0, 0, 0, 0, 0, 0, 0]),
];

#[test]
fn a_vector_leaves_out_both_bounds(rt: HostRuntime) {
    let chunk = u8x16::from_array(LANES_AT_BOUNDS);
    for &(a, b, marks) in BETWEEN {
        assert!(rt; a < b && b <= 127);
        lanes_are(&rt, chunk.bytes_between_127(a, b), &marks);
    }
}

#[test]
fn a_vector_adds_and_subtracts_lane_by_lane(rt: HostRuntime) {
    let chunk = u8x16::from_array([0, 1, 2, 127, 128, 200, 254, 255, 0, 3, 5, 7, 11, 13, 17, 19]);
    let rest = u8x16::from_array([
        255, 254, 253, 128, 127, 55, 1, 0, 255, 252, 250, 248, 244, 242, 238, 236,
    ]);
    lanes_are(&rt, chunk.add(rest), &[255; 16]);
    lanes_are(&rt, u8x16::splat(255).sub(chunk), &rest.to_array());
    lanes_are(&rt, chunk.sub(u8x16::zero()), &chunk.to_array());
}

#[test]
fn a_vector_adds_what_it_subtracts(rt: HostRuntime) {
    let chunk = u8x16::from_array([0, 1, 2, 127, 128, 200, 254, 255, 0, 3, 5, 7, 11, 13, 17, 19]);
    let more = u8x16::from_array([3, 1, 0, 1, 2, 5, 1, 0, 7, 3, 5, 9, 11, 13, 17, 19]);
    let sums = u8x16::from_array([
        3, 2, 2, 128, 130, 205, 255, 255, 7, 6, 10, 16, 22, 26, 34, 38,
    ]);
    lanes_are(&rt, chunk.add(more), &sums.to_array());
    lanes_are(&rt, sums.sub(more), &chunk.to_array());
}

/// Lanes, and the bits that they and those of the chunk have set.
const COMMON_BITS: &[([u8; 16], [u8; 16])] = &[
    (
        [
            255, 254, 253, 128, 127, 55, 1, 0, 255, 252, 250, 248, 244, 242, 238, 236,
        ],
        [0; 16],
    ),
    (
        [0xF0; 16],
        [0, 0, 0, 112, 128, 192, 240, 240, 0, 0, 0, 0, 0, 0, 16, 16],
    ),
];

#[test]
fn a_vector_keeps_the_bits_of_both(rt: HostRuntime) {
    let chunk = u8x16::from_array([0, 1, 2, 127, 128, 200, 254, 255, 0, 3, 5, 7, 11, 13, 17, 19]);
    for &(other, common) in COMMON_BITS {
        lanes_are(&rt, chunk.bitand(u8x16::from_array(other)), &common);
    }
}

/// The lanes of the chunk below, with one more in the last, the last but one, the eighth or the first.
const RAISED: [[u8; 16]; 4] = [
    [1, 2, 3, 4, 5, 6, 7, 8, 9, 10, 11, 12, 13, 14, 15, 255],
    [1, 2, 3, 4, 5, 6, 7, 8, 9, 10, 11, 12, 13, 14, 16, 254],
    [1, 2, 3, 4, 5, 6, 7, 9, 9, 10, 11, 12, 13, 14, 15, 254],
    [2, 2, 3, 4, 5, 6, 7, 8, 9, 10, 11, 12, 13, 14, 15, 254],
];

#[test]
fn a_vector_raises_one_lane(rt: HostRuntime) {
    let chunk = u8x16::from_array([1, 2, 3, 4, 5, 6, 7, 8, 9, 10, 11, 12, 13, 14, 15, 254]);
    lanes_are(&rt, chunk.inc_nth_from_end_lex_byte(0), &RAISED[0]);
    lanes_are(&rt, chunk.inc_nth_from_end_lex_byte(1), &RAISED[1]);
    lanes_are(&rt, chunk.inc_nth_from_end_lex_byte(8), &RAISED[2]);
    lanes_are(&rt, chunk.inc_nth_from_end_lex_byte(15), &RAISED[3]);
}

#[test]
fn a_vector_lowers_its_last_lane(rt: HostRuntime) {
    let chunk = u8x16::from_array([1, 2, 3, 4, 5, 6, 7, 8, 9, 10, 11, 12, 13, 14, 15, 254]);
    let lowered = [1, 2, 3, 4, 5, 6, 7, 8, 9, 10, 11, 12, 13, 14, 15, 253];
    lanes_are(&rt, chunk.dec_last_lex_byte(), &lowered);
    let lowered = [1, 1, 1, 1, 1, 1, 1, 1, 1, 1, 1, 1, 1, 1, 1, 0];
    lanes_are(&rt, u8x16::splat(1).dec_last_lex_byte(), &lowered);
}

#[test]
fn a_vector_sums_past_a_byte(rt: HostRuntime) {
    number_is(&rt, u8x16::splat(255).sum_bytes(), 4080);
    number_is(&rt, u8x16::zero().sum_bytes(), 0);
    let bits = u8x16::from_array([1, 2, 4, 8, 16, 32, 64, 128, 1, 2, 4, 8, 16, 32, 64, 128]);
    number_is(&rt, bits.sum_bytes(), 510);
}

#[test]
fn vectors_of_other_widths_answer_alike(rt: HostRuntime) {
    let eight = u8x8::from_array([0x80, 0x09, 0x0A, 0x0D, 0x0E, 0x00, 0xFF, 0x0A]);
    assert!(rt; !vectors::is_zero(eight));
    assert!(rt; vectors::is_zero(u8x64::splat(0)));
    let marks = vectors::cmp_eq_byte(eight, 0x0A).to_array();
    assert!(rt; marks == [0, 0, 1, 0, 0, 0, 0, 1]);
    let marks = vectors::bytes_between_127(eight, 0x09, 0x0E).to_array();
    assert!(rt; marks == [0, 0, 1, 1, 0, 0, 0, 1]);
}

#[test]
fn vectors_of_other_widths_change_lanes_alike(rt: HostRuntime) {
    assert!(rt; vectors::shr(u8x32::splat(0xF0), 4).to_array() == [0x0F; 32]);
    assert!(rt; vectors::inc_lane(u8x4::splat(3), 2).to_array() == [3, 3, 4, 3]);
    assert!(rt; vectors::dec_lane(u8x4::splat(3), 0).to_array() == [2, 3, 3, 3]);
}

#[test]
fn vectors_of_other_widths_sum_alike(rt: HostRuntime) {
    let eight = u8x8::from_array([0x80, 0x09, 0x0A, 0x0D, 0x0E, 0x00, 0xFF, 0x0A]);
    number_is(&rt, vectors::sum_bytes(u8x32::splat(255)), 8160);
    number_is(&rt, vectors::sum_bytes(u8x64::splat(255)), 16320);
    number_is(&rt, vectors::sum_bytes(eight), 0x1B7);
}
