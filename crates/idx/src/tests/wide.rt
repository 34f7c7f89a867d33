// The lane calls of `Wide`, as tables. Lane 0 is the first.
ghost use Rattle.std.specs.Prelude.{◌≡◌, ◌++◌, ◌<◌};

use super::assert_same;
use crate::wide::Wide;
use byte_chunk::ByteChunk;
use std::process::Abort;
use std::simd::prelude::*;

const LETTERS: &[u8] = b"abcdefghijklmnopqrstuvwxyz0123456789";

/// Four times the eight lanes.
fn four_times(eight: [u8; 8]) -> Wide
    ensures { result.0 ≡ eight ++ eight ++ eight ++ eight }
{
    let [a, b, c, d, e, f, g, h] = eight;
    Wide(Simd::from_array([
        a, b, c, d, e, f, g, h, a, b, c, d, e, f, g, h, a, b, c, d, e, f, g, h, a, b, c, d, e, f,
        g, h,
    ]))
}

fn assert_lanes(rt: &impl Abort, found: Wide, wanted: &[u8; 32]) {
    assert_eq!(rt; found.0.to_array(), *wanted);
}

/// Compares all lanes with four times eight.
fn assert_eights(rt: &impl Abort, found: Wide, eight: [u8; 8]) {
    assert_lanes(rt, found, &four_times(eight).0.to_array());
}

#[test]
fn takes_the_first_thirty_two_bytes(rt: HostRuntime) {
    let first = b"abcdefghijklmnopqrstuvwxyz012345";
    assert_lanes(&rt, Wide::load(LETTERS), first);
    assert_lanes(&rt, Wide::zero(), &[0; 32]);
    assert_lanes(&rt, Wide::splat(0xC0), &[0xC0; 32]);
}

/// A chunk that has this byte in one lane and zeros in the others.
fn one_lane(i: usize, byte: u8) -> Wide
    requires { i < 32 }
{
    let mut lanes = [0; 32];
    lanes[i] = byte;
    Wide(Simd::from_array(lanes))
}

fn assert_not_zero(rt: &impl Abort, byte: u8) {
    for i in 0..32 {
        assert!(rt; !one_lane(i, byte).is_zero(), "{byte} at {i}");
    }
}

#[test]
fn is_zero_where_each_lane_is(rt: HostRuntime) {
    assert!(rt; Wide::zero().is_zero());
    assert_not_zero(&rt, 0x01);
    assert_not_zero(&rt, 0x80);
    assert_not_zero(&rt, 0xFF);
}

#[test]
fn shifts_whole_lanes(rt: HostRuntime) {
    const ROWS: [(usize, &[u8; 32]); 5] = [
        (0, b"abcdefghijklmnopqrstuvwxyz012345"),
        (1, b"bcdefghijklmnopqrstuvwxyz012345\0"),
        (2, b"cdefghijklmnopqrstuvwxyz012345\0\0"),
        (3, b"defghijklmnopqrstuvwxyz012345\0\0\0"),
        (4, b"efghijklmnopqrstuvwxyz012345\0\0\0\0"),
    ];
    let chunk = Wide::load(LETTERS);
    for (n, lanes) in ROWS {
        assert_lanes(&rt, chunk.shift_back_lex(n), lanes);
    }
}

#[test]
fn shifts_across_two_chunks(rt: HostRuntime) {
    let chunk = Wide::load(LETTERS);
    let next = Wide::load(&LETTERS[4..]);
    assert_lanes(
        &rt,
        chunk.shift_across(next),
        b"5efghijklmnopqrstuvwxyz012345678",
    );
    assert_lanes(
        &rt,
        next.shift_across(chunk),
        b"9abcdefghijklmnopqrstuvwxyz01234",
    );
}

const EIGHT: [u8; 8] = [0x80, 0x07, 0x08, 0x7E, 0x7F, 0xFF, 0xA6, 0x00];

#[test]
fn compares_each_lane(rt: HostRuntime) {
    let chunk = four_times(EIGHT);
    assert_eights(&rt, chunk.cmp_eq_byte(0x80), [1, 0, 0, 0, 0, 0, 0, 0]);
    assert_eights(&rt, chunk.cmp_eq_byte(0x00), [0, 0, 0, 0, 0, 0, 0, 1]);
    let inside = chunk.bytes_between_127(0x07, 0x7E);
    assert_eights(&rt, inside, [0, 0, 1, 0, 0, 0, 0, 0]);
    let ascii = chunk.bytes_between_127(0x00, 0x7F);
    assert_eights(&rt, ascii, [0, 1, 1, 1, 0, 0, 0, 0]);
}

#[test]
fn acts_on_each_lane(rt: HostRuntime) {
    let chunk = four_times(EIGHT);
    let high = chunk.bitand(Wide::splat(0xF0));
    assert_eights(&rt, high, [0x80, 0x00, 0x00, 0x70, 0x70, 0xF0, 0xA0, 0x00]);
    let half = chunk.shr(1).bitand(Wide::splat(0x7F));
    assert_eights(&rt, half, [0x40, 0x03, 0x04, 0x3F, 0x3F, 0x7F, 0x53, 0x00]);
    let sixteenth = chunk.shr(4).bitand(Wide::splat(0x0F));
    assert_eights(
        &rt,
        sixteenth,
        [0x08, 0x00, 0x00, 0x07, 0x07, 0x0F, 0x0A, 0x00],
    );
    let sum = chunk.add(four_times([0x7F, 1, 2, 3, 4, 0, 5, 0xFF]));
    assert_eights(&rt, sum, [0xFF, 0x08, 0x0A, 0x81, 0x83, 0xFF, 0xAB, 0xFF]);
    let difference = chunk.sub(four_times([0x80, 1, 2, 3, 4, 0xFE, 6, 0]));
    assert_eights(
        &rt,
        difference,
        [0x00, 0x06, 0x06, 0x7B, 0x7B, 0x01, 0xA0, 0x00],
    );
}

#[test]
fn changes_one_lane(rt: HostRuntime) {
    const ROWS: [(usize, &[u8; 32]); 3] = [
        (0, b"abcdefghijklmnopqrstuvwxyz012346"),
        (1, b"abcdefghijklmnopqrstuvwxyz012355"),
        (31, b"bbcdefghijklmnopqrstuvwxyz012345"),
    ];
    let chunk = Wide::load(LETTERS);
    for (n, lanes) in ROWS {
        assert_lanes(&rt, chunk.inc_nth_from_end_lex_byte(n), lanes);
    }
    let less = b"abcdefghijklmnopqrstuvwxyz012344";
    assert_lanes(&rt, chunk.dec_last_lex_byte(), less);
}

#[test]
fn sums_past_a_byte(rt: HostRuntime) {
    assert_same(&rt, Wide::splat(255).sum_bytes(), 8160, &"255 in each");
    assert_same(&rt, Wide::zero().sum_bytes(), 0, &"zeros");
    let bits = four_times([1, 2, 4, 8, 16, 32, 64, 128]);
    assert_same(&rt, bits.sum_bytes(), 1020, &"each bit");
}
