//! The calls of the vector of thirty-two lanes, as tables.
use super::{not_zero, number_is};
use byte_chunk::ByteChunk;
use std::process::Abort;
use std::simd::prelude::*;

pub fn lanes_are(rt: &impl Abort, chunk: u8x32, lanes: &[u8; 32]) {
    let found = chunk.to_array();
    assert!(rt; found == *lanes, "{found:?}");
}

#[test]
fn a_wide_vector_takes_the_first_thirty_two_bytes(rt: HostRuntime) {
    let lanes = b"abcdefghijklmnopqrstuvwxyz012345";
    lanes_are(&rt, u8x32::load(lanes), lanes);
    lanes_are(
        &rt,
        u8x32::load(b"abcdefghijklmnopqrstuvwxyz0123456789"),
        lanes,
    );
    lanes_are(&rt, <u8x32 as ByteChunk>::zero(), &[0; 32]);
    lanes_are(&rt, <u8x32 as ByteChunk>::splat(0xC0), &[0xC0; 32]);
}

fn one_lane_is_not_zero(rt: &impl Abort, byte: u8) {
    for i in 0..32 {
        let mut lanes = [0; 32];
        lanes[i] = byte;
        not_zero(rt, byte, i, u8x32::from_array(lanes).is_zero());
    }
}

#[test]
fn a_wide_vector_is_zero_where_each_lane_is(rt: HostRuntime) {
    assert!(rt; u8x32::zero().is_zero());
    one_lane_is_not_zero(&rt, 0x01);
    one_lane_is_not_zero(&rt, 0x80);
    one_lane_is_not_zero(&rt, 0xFF);
}

const SHIFTED_BACK: [&[u8; 32]; 5] = [
    b"abcdefghijklmnopqrstuvwxyz012345",
    b"bcdefghijklmnopqrstuvwxyz012345\0",
    b"cdefghijklmnopqrstuvwxyz012345\0\0",
    b"defghijklmnopqrstuvwxyz012345\0\0\0",
    b"efghijklmnopqrstuvwxyz012345\0\0\0\0",
];

#[test]
fn a_wide_vector_shifts_back(rt: HostRuntime) {
    let chunk = u8x32::load(b"abcdefghijklmnopqrstuvwxyz012345");
    for n in 0..5 {
        lanes_are(&rt, chunk.shift_back_lex(n), SHIFTED_BACK[n]);
    }
}

#[test]
fn a_wide_vector_shifts_across(rt: HostRuntime) {
    let chunk = u8x32::load(b"abcdefghijklmnopqrstuvwxyz012345");
    let next = u8x32::load(b"ABCDEFGHIJKLMNOPQRSTUVWXYZ6789+-");
    lanes_are(
        &rt,
        chunk.shift_across(next),
        b"5ABCDEFGHIJKLMNOPQRSTUVWXYZ6789+",
    );
    lanes_are(
        &rt,
        next.shift_across(chunk),
        b"-abcdefghijklmnopqrstuvwxyz01234",
    );
}

const LOW_BITS: &[u8; 32] =
    b"\x00\x01\x0F\x10\x7F\x80\xC3\xFF\xFF\xA8\xA9\x11\x22\x44\x88\xF0\xF0\x88\x44\x22\x11\xA9\xA8\xFF\xFF\xC3\x80\x7F\x10\x0F\x01\x00";

const UPPER_HALVES: &[u8; 32] =
    b"\x00\x00\x00\x01\x07\x08\x0C\x0F\x0F\x0A\x0A\x01\x02\x04\x08\x0F\x0F\x08\x04\x02\x01\x0A\x0A\x0F\x0F\x0C\x08\x07\x01\x00\x00\x00";

#[test]
fn a_wide_vector_shifts_the_low_bits_of_each_lane(rt: HostRuntime) {
    let chunk = u8x32::load(LOW_BITS);
    lanes_are(&rt, chunk.shr(0), LOW_BITS);
    lanes_are(&rt, chunk.shr(4).bitand(u8x32::splat(0x0F)), UPPER_HALVES);
}

const EVERY_KIND: &[u8; 32] =
    b"\x07\x08\x7F\xFF\xA6\x00\x09\x7E\x0A\x0D\x0E\x89\x8A\x8D\x8E\x80\x80\x0D\x0A\x0D\x0A\xE2\x80\xA8\xC2\x85\x0B\x0C\x00\x7F\xFF\x0A";

/// 1 in each lane that is a line feed.
const LINE_FEEDS: [u8; 32] = [
    0, 0, 0, 0, 0, 0, 0, 0, 1, 0, 0, 0, 0, 0, 0, 0, 0, 0, 1, 0, 1, 0, 0, 0, 0, 0, 0, 0, 0, 0, 0, 1,
];

/// 1 in each lane that is 0x80.
const LANES_OF_80: [u8; 32] = [
    0, 0, 0, 0, 0, 0, 0, 0, 0, 0, 0, 0, 0, 0, 0, 1, 1, 0, 0, 0, 0, 0, 1, 0, 0, 0, 0, 0, 0, 0, 0, 0,
];

/// 1 in each lane between a tab and 0x0E.
const ASCII_BREAKS: [u8; 32] = [
    0, 0, 0, 0, 0, 0, 0, 0, 1, 1, 0, 0, 0, 0, 0, 0, 0, 1, 1, 1, 1, 0, 0, 0, 0, 0, 1, 1, 0, 0, 0, 1,
];

#[test]
fn a_wide_vector_marks_lanes(rt: HostRuntime) {
    let chunk = u8x32::load(EVERY_KIND);
    lanes_are(&rt, chunk.cmp_eq_byte(0x0A), &LINE_FEEDS);
    lanes_are(&rt, chunk.cmp_eq_byte(0x80), &LANES_OF_80);
    lanes_are(&rt, chunk.bytes_between_127(0x09, 0x0E), &ASCII_BREAKS);
}

#[test]
fn a_wide_vector_adds_and_subtracts_lane_by_lane(rt: HostRuntime) {
    let chunk = u8x32::from_array([
        0, 1, 2, 127, 128, 200, 254, 255, 0, 3, 5, 7, 11, 13, 17, 19, 255, 254, 200, 128, 127, 2,
        1, 0, 19, 17, 13, 11, 7, 5, 3, 0,
    ]);
    let rest = u8x32::from_array([
        255, 254, 253, 128, 127, 55, 1, 0, 255, 252, 250, 248, 244, 242, 238, 236, 0, 1, 55, 127,
        128, 253, 254, 255, 236, 238, 242, 244, 248, 250, 252, 255,
    ]);
    lanes_are(&rt, chunk.bitand(rest), &[0; 32]);
    lanes_are(&rt, chunk.add(rest), &[255; 32]);
    lanes_are(&rt, u8x32::splat(255).sub(chunk), &rest.to_array());
    lanes_are(&rt, chunk.sub(u8x32::zero()), &chunk.to_array());
}

/// The lanes of the chunk below, with one more in the last, the last but one, the sixteenth or the first, and with one
/// less in the last.
const CHANGED: [[u8; 32]; 5] = [
    [
        1, 2, 3, 4, 5, 6, 7, 8, 9, 10, 11, 12, 13, 14, 15, 16, 17, 18, 19, 20, 21, 22, 23, 24, 25,
        26, 27, 28, 29, 30, 31, 255,
    ],
    [
        1, 2, 3, 4, 5, 6, 7, 8, 9, 10, 11, 12, 13, 14, 15, 16, 17, 18, 19, 20, 21, 22, 23, 24, 25,
        26, 27, 28, 29, 30, 32, 254,
    ],
    [
        1, 2, 3, 4, 5, 6, 7, 8, 9, 10, 11, 12, 13, 14, 15, 17, 17, 18, 19, 20, 21, 22, 23, 24, 25,
        26, 27, 28, 29, 30, 31, 254,
    ],
    [
        2, 2, 3, 4, 5, 6, 7, 8, 9, 10, 11, 12, 13, 14, 15, 16, 17, 18, 19, 20, 21, 22, 23, 24, 25,
        26, 27, 28, 29, 30, 31, 254,
    ],
    [
        1, 2, 3, 4, 5, 6, 7, 8, 9, 10, 11, 12, 13, 14, 15, 16, 17, 18, 19, 20, 21, 22, 23, 24, 25,
        26, 27, 28, 29, 30, 31, 253,
    ],
];

#[test]
fn a_wide_vector_changes_one_lane(rt: HostRuntime) {
    let chunk = u8x32::from_array([
        1, 2, 3, 4, 5, 6, 7, 8, 9, 10, 11, 12, 13, 14, 15, 16, 17, 18, 19, 20, 21, 22, 23, 24, 25,
        26, 27, 28, 29, 30, 31, 254,
    ]);
    lanes_are(&rt, chunk.inc_nth_from_end_lex_byte(0), &CHANGED[0]);
    lanes_are(&rt, chunk.inc_nth_from_end_lex_byte(1), &CHANGED[1]);
    lanes_are(&rt, chunk.inc_nth_from_end_lex_byte(16), &CHANGED[2]);
    lanes_are(&rt, chunk.inc_nth_from_end_lex_byte(31), &CHANGED[3]);
    lanes_are(&rt, chunk.dec_last_lex_byte(), &CHANGED[4]);
}

const SUMMED: &[u8; 32] =
    b"\x01\x02\x04\x08\x10\x20\x40\x80\x01\x02\x04\x08\x10\x20\x40\x80\x00\x00\x00\x00\x00\x00\x00\x00\xFF\xFF\xFF\xFF\xFF\xFF\xFF\xFF";

#[test]
fn a_wide_vector_sums_past_a_byte(rt: HostRuntime) {
    number_is(&rt, u8x32::splat(255).sum_bytes(), 8160);
    number_is(&rt, u8x32::zero().sum_bytes(), 0);
    number_is(&rt, u8x32::load(SUMMED).sum_bytes(), 2550);
}
