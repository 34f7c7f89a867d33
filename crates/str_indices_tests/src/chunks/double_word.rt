//! The calls of a number of 128 bits, as tables.
use super::not_zero;
use byte_chunk::ByteChunk;
use std::process::Abort;

pub fn word_is(rt: &impl Abort, found: u128, want: u128) {
    assert!(rt; found == want, "{found}");
}

#[test]
fn a_double_word_has_its_lowest_byte_in_lane_0(rt: HostRuntime) {
    let word = u128::load(b"\x01\x02\x03\x04\x05\x06\x07\x08\x09\x0A\x0B\x0C\x0D\x0E\x0F\x10");
    word_is(&rt, word, 0x100F_0E0D_0C0B_0A09_0807_0605_0403_0201);
    let letters = u128::load(b"abcdefghijklmnopqr");
    word_is(&rt, letters, 0x706F_6E6D_6C6B_6A69_6867_6665_6463_6261);
    word_is(&rt, u128::zero(), 0);
    word_is(
        &rt,
        u128::splat(0xC0),
        0xC0C0_C0C0_C0C0_C0C0_C0C0_C0C0_C0C0_C0C0,
    );
}

fn one_lane_is_not_zero(rt: &impl Abort, byte: u8) {
    for lane in 0..16 {
        let word = u128::from(byte) << (8 * lane);
        not_zero(rt, byte, lane, word.is_zero());
    }
}

#[test]
fn a_double_word_is_zero_where_each_lane_is(rt: HostRuntime) {
    assert!(rt; u128::zero().is_zero());
    one_lane_is_not_zero(&rt, 0x01);
    one_lane_is_not_zero(&rt, 0x80);
    one_lane_is_not_zero(&rt, 0xFF);
}

/// A word, shifted back by as many lanes as the place in the table says.
const SHIFTED_BACK: [u128; 5] = [
    0x100F_0E0D_0C0B_0A09_0807_0605_0403_0201,
    0x0010_0F0E_0D0C_0B0A_0908_0706_0504_0302,
    0x0000_100F_0E0D_0C0B_0A09_0807_0605_0403,
    0x0000_0010_0F0E_0D0C_0B0A_0908_0706_0504,
    0x0000_0000_100F_0E0D_0C0B_0A09_0807_0605,
];

#[test]
fn a_double_word_shifts_back(rt: HostRuntime) {
    let word = SHIFTED_BACK[0];
    for n in 0..5 {
        word_is(&rt, word.shift_back_lex(n), SHIFTED_BACK[n]);
    }
}

#[test]
fn a_double_word_shifts_across(rt: HostRuntime) {
    let word: u128 = 0x100F_0E0D_0C0B_0A09_0807_0605_0403_0201;
    let next = u128::splat(0x99);
    word_is(
        &rt,
        word.shift_across(next),
        0x9999_9999_9999_9999_9999_9999_9999_9910,
    );
    word_is(
        &rt,
        next.shift_across(word),
        0x0F0E_0D0C_0B0A_0908_0706_0504_0302_0199,
    );
}

/// By how much each lane is shifted right, the bits that are masked, and the lanes then.
const SHIFTED_RIGHT: &[(usize, u8, u128)] = &[
    (0, 0xFF, 0xF088_4422_11A9_A8FF_FFC3_807F_100F_0100),
    (1, 0x7F, 0x7844_2211_0854_547F_7F61_403F_0807_0000),
    (4, 0x0F, 0x0F08_0402_010A_0A0F_0F0C_0807_0100_0000),
];

#[test]
fn a_double_word_shifts_the_low_bits_of_each_lane(rt: HostRuntime) {
    let word: u128 = 0xF088_4422_11A9_A8FF_FFC3_807F_100F_0100;
    for &(n, mask, shifted) in SHIFTED_RIGHT {
        assert!(rt; n <= 4);
        word_is(&rt, word.shr(n).bitand(u128::splat(mask)), shifted);
    }
}

const EVERY_KIND: u128 = 0x8081_007F_80FF_0080_E209_08A6_E2A6_E209;

/// A word, a byte, and 1 in each lane of the word that is that byte.
const MARKS: &[(u128, u8, u128)] = &[
    (EVERY_KIND, 0x00, 0x0000_0100_0000_0100_0000_0000_0000_0000),
    (EVERY_KIND, 0x09, 0x0000_0000_0000_0000_0001_0000_0000_0001),
    (EVERY_KIND, 0x80, 0x0100_0000_0100_0001_0000_0000_0000_0000),
    (EVERY_KIND, 0xA6, 0x0000_0000_0000_0000_0000_0001_0001_0000),
    (EVERY_KIND, 0xE2, 0x0000_0000_0000_0000_0100_0000_0100_0100),
    (EVERY_KIND, 0xFF, 0x0000_0000_0001_0000_0000_0000_0000_0000),
    (EVERY_KIND, 0x01, 0x0000_0000_0000_0000_0000_0000_0000_0000),
    // Lane 1 holds 1: a test by borrows would mark it, next to lane 0.
    (0x100, 0x00, 0x0101_0101_0101_0101_0101_0101_0101_0001),
];

#[test]
fn a_double_word_marks_each_equal_lane(rt: HostRuntime) {
    for &(word, byte, marks) in MARKS {
        word_is(&rt, word.cmp_eq_byte(byte), marks);
    }
}

/// Two bounds, and 1 in each lane of the word between them.
const BETWEEN: &[(u8, u8, u128)] = &[
    (0x07, 0x7E, 0x0000_0000_0101_0101_0001_0000_0000_0100),
    (0x09, 0x0E, 0x0000_0000_0001_0100_0000_0000_0000_0000),
    (0x00, 0x7F, 0x0000_0000_0101_0101_0101_0000_0000_0101),
    (0x08, 0x09, 0x0000_0000_0000_0000_0000_0000_0000_0000),
];

#[test]
fn a_double_word_leaves_out_both_bounds(rt: HostRuntime) {
    let word: u128 = 0x8E8D_8A89_0E0D_0A09_7E09_00A6_FF7F_0807;
    for &(a, b, marks) in BETWEEN {
        assert!(rt; a < b && b <= 127);
        word_is(&rt, word.bytes_between_127(a, b), marks);
    }
}

#[test]
#[tactic(auto, unfolding(byte_chunk::specs::Lanes::word_lanes))]
fn a_double_word_adds_and_subtracts_lane_by_lane(rt: HostRuntime) {
    let word: u128 = 0xFEC3_55AA_0180_00FF_FFFE_C880_7F02_0100;
    let rest: u128 = 0x013C_AA55_FE7F_FF00_0001_377F_80FD_FEFF;
    word_is(&rt, word.bitand(rest), 0);
    let halves = word.bitand(u128::splat(0xF0));
    word_is(&rt, halves, 0xF0C0_50A0_0080_00F0_F0F0_C080_7000_0000);
    word_is(&rt, word.add(rest), u128::MAX);
    word_is(&rt, u128::MAX.sub(word), rest);
    word_is(&rt, word.sub(word), 0);
}

#[test]
#[tactic(auto, unfolding(byte_chunk::specs::Lanes::word_lanes))]
fn a_double_word_changes_one_lane(rt: HostRuntime) {
    let word: u128 = 0xFEC3_55AA_0180_00FF_FFFE_C880_7F02_0100;
    let last = word.inc_nth_from_end_lex_byte(0);
    word_is(&rt, last, 0xFFC3_55AA_0180_00FF_FFFE_C880_7F02_0100);
    let seventh = word.inc_nth_from_end_lex_byte(6);
    word_is(&rt, seventh, 0xFEC3_55AA_0180_01FF_FFFE_C880_7F02_0100);
    let tenth = word.inc_nth_from_end_lex_byte(9);
    word_is(&rt, tenth, 0xFEC3_55AA_0180_00FF_FFFF_C880_7F02_0100);
    let first = word.inc_nth_from_end_lex_byte(15);
    word_is(&rt, first, 0xFEC3_55AA_0180_00FF_FFFE_C880_7F02_0101);
    let lowered = word.dec_last_lex_byte();
    word_is(&rt, lowered, 0xFDC3_55AA_0180_00FF_FFFE_C880_7F02_0100);
}

#[test]
#[tactic(auto, unfolding(byte_chunk::specs::Lanes::word_lanes))]
fn a_double_word_sums_lanes_up_to_15(rt: HostRuntime) {
    assert!(rt; u128::sum_bytes(&0) == 0);
    assert!(rt; u128::sum_bytes(&0x0F0E_0D0C_0B0A_0908_0706_0504_0302_0100) == 120);
    assert!(rt; u128::sum_bytes(&0x0F0F_0F0F_0F0F_0F0F_0F0F_0F0F_0F0F_0F0F) == 240);
}
