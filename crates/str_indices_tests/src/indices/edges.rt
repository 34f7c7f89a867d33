//! Chunks and leading bytes that end anywhere in a text.
use super::answers::all_answer_everywhere;
use super::rows::{self, Asked};
use crate::chunks::half_word::HalfWord;
use crate::chunks::widest::Widest;
use byte_chunk::{ByteChunk, Plain};
use std::alloc::{AllocError, Global};
use std::process::Abort;
use std::simd::{u8x16, u8x32};
use std::test::Fail;
use str_indices::Scheme;

/// Numbers of leading bytes, up to more than a chunk and the longest char have.
const LEADS: [usize; 45] = [
    0, 1, 2, 3, 4, 5, 6, 7, 8, 9, 10, 11, 12, 13, 14, 15, 16, 17, 18, 19, 20, 21, 22, 23, 24, 25,
    26, 27, 28, 29, 30, 31, 32, 33, 34, 35, 36, 37, 38, 39, 40, 63, 64, 65, 68,
];

/// The numbers of leading bytes that make a chunk begin or end elsewhere.
const FEW_LEADS: [usize; 15] = [0, 1, 2, 3, 5, 7, 8, 9, 10, 15, 16, 31, 32, 63, 64];

/// Texts with chars of one to four bytes and with every kind of line break.
const TEXTS: [&str; 6] = [
    "Hel🐸lo world! こん🐸にち🐸🐸は!",
    "Hello there!  How're you doing?\nIt's a fine day, isn't it?\nAren't you glad we're alive?\nこんにちは、みんなさん！",
    "\nHere\nare\nsome\nwords\n",
    "Here\r\nare\r\nsome\r\nwords",
    "\u{A}Hello\u{D}\u{A}\u{D}せ\u{B}か\u{C}い\u{85}. There\u{2028}is something.\u{2029}",
    "",
];

/// Middles, which stand between letters, and how many breaks each has by LF alone, by LF and CR, and by all.
const MIDDLES: [(&str, [usize; 3]); 16] = [
    ("\n", [1, 1, 1]),
    ("\r", [0, 1, 1]),
    ("\r\n", [1, 1, 1]),
    ("\n\r", [1, 2, 2]),
    ("\u{B}", [0, 0, 1]),
    ("\u{C}", [0, 0, 1]),
    ("\u{85}", [0, 0, 1]),
    ("\u{2028}", [0, 0, 1]),
    ("\u{2029}", [0, 0, 1]),
    ("\u{84}", [0, 0, 0]),
    ("\u{C5}", [0, 0, 0]),
    ("\u{1028}", [0, 0, 0]),
    ("\u{2027}", [0, 0, 0]),
    ("\u{202A}", [0, 0, 0]),
    ("\u{2068}", [0, 0, 0]),
    ("\u{1F438}", [0, 0, 0]),
];

fn texts_answer_as_the_walk<T: ByteChunk>(rt: &impl Abort) {
    for text in TEXTS {
        all_answer_everywhere::<T>(rt, text, &LEADS);
    }
}

#[test]
fn half_words_answer_as_a_plain_walk(rt: HostRuntime) {
    texts_answer_as_the_walk::<HalfWord>(&rt);
}

#[test]
fn arrays_answer_as_a_plain_walk(rt: HostRuntime) {
    texts_answer_as_the_walk::<Plain>(&rt);
}

#[test]
fn words_answer_as_a_plain_walk(rt: HostRuntime) {
    texts_answer_as_the_walk::<usize>(&rt);
}

#[test]
fn double_words_answer_as_a_plain_walk(rt: HostRuntime) {
    texts_answer_as_the_walk::<u128>(&rt);
}

#[test]
fn sixteen_lanes_answer_as_a_plain_walk(rt: HostRuntime) {
    texts_answer_as_the_walk::<u8x16>(&rt);
}

#[test]
fn thirty_two_lanes_answer_as_a_plain_walk(rt: HostRuntime) {
    texts_answer_as_the_walk::<u8x32>(&rt);
}

#[test]
fn sixty_four_lanes_answer_as_a_plain_walk(rt: HostRuntime) {
    texts_answer_as_the_walk::<Widest>(&rt);
}

/// `letters` times `a`, the middle, and `b`.
fn surround(alloc: Global, letters: usize, middle: &str) -> Result<String, AllocError> {
    let mut text = "a".repeat(alloc, letters)?;
    text.push_str(middle)?;
    text.push('b')?;
    Ok(text)
}

/// The answers of a line module's conversions at `index`, with `breaks` breaks after the letters.
fn around_breaks(letters: usize, middle: &str, breaks: usize, index: usize) -> (usize, usize) {
    let after = letters.saturating_add(middle.len());
    let two_characters_apart = middle == "\n\r";
    let from = if index >= after {
        breaks
    } else {
        usize::from(two_characters_apart && index > letters)
    };
    let first = match breaks {
        0 => after.saturating_add(1),
        1 if !two_characters_apart => after,
        _ => letters.saturating_add(1),
    };
    let to = match index {
        0 => 0,
        1 => first,
        2 if breaks == 2 => after,
        _ => after.saturating_add(1),
    };
    (from, to)
}

/// Compares the plain walk at an index with the answers that the numbers of breaks give.
fn walk_sees_breaks_at(
    rt: &impl Abort,
    text: &str,
    letters: usize,
    middle: &str,
    breaks: [usize; 3],
    index: usize,
) {
    let [lf, crlf, lines] = breaks;
    for (scheme, breaks) in [
        (Scheme::Lf, lf),
        (Scheme::Crlf, crlf),
        (Scheme::Lines, lines),
    ] {
        let (from, to) = around_breaks(letters, middle, breaks, index);
        rows::walk_is(rt, Asked::at(scheme, text, index), from, to);
    }
}

/// Compares the plain walk at every index up to past the text's end, and at the greatest.
fn walk_sees_breaks(rt: &impl Abort, text: &str, letters: usize, middle: &str, breaks: [usize; 3]) {
    for index in 0..text.len() + 2 {
        walk_sees_breaks_at(rt, text, letters, middle, breaks, index);
    }
    walk_sees_breaks_at(rt, text, letters, middle, breaks, usize::MAX);
}

/// Compares the plain walk for a text that has `letters` letters before a middle.
fn walk_sees_middle(
    rt: &impl Abort,
    alloc: Global,
    letters: usize,
    middle: &str,
    breaks: [usize; 3],
) -> Result<(), AllocError> {
    let text = surround(alloc, letters, middle)?;
    walk_sees_breaks(rt, &text, letters, middle, breaks);
    Ok(())
}

fn walk_sees_each_break_after(rt: &impl Abort, alloc: Global, letters: usize) -> Result<(), Fail> {
    for (middle, breaks) in &MIDDLES {
        walk_sees_middle(rt, alloc, letters, middle, *breaks)?;
    }
    Ok(())
}

#[test]
fn the_walk_sees_each_break(rt: HostRuntime) -> Result<(), Fail> {
    for letters in 0..73 {
        walk_sees_each_break_after(&rt, rt.alloc(), letters)?;
    }
    Ok(())
}

/// Compares the kernels at every index of a text that has `letters` letters before a middle.
fn middle_after<T: ByteChunk>(
    rt: &impl Abort,
    alloc: Global,
    letters: usize,
    middle: &str,
) -> Result<(), AllocError> {
    let text = surround(alloc, letters, middle)?;
    all_answer_everywhere::<T>(rt, &text, &FEW_LEADS);
    Ok(())
}

/// Compares the kernels for each middle, after `letters` letters.
fn middles_after<T: ByteChunk>(rt: &impl Abort, alloc: Global, letters: usize) -> Result<(), Fail> {
    for (middle, _) in &MIDDLES {
        middle_after::<T>(rt, alloc, letters, middle)?;
    }
    Ok(())
}

/// Compares the kernels for each middle, after each number of letters from `first` up to `end`.
fn middles_after_each<T: ByteChunk>(
    rt: &impl Abort,
    alloc: Global,
    first: usize,
    end: usize,
) -> Result<(), Fail> {
    for letters in first..end {
        middles_after::<T>(rt, alloc, letters)?;
    }
    Ok(())
}

#[test]
fn half_words_see_each_break_at_every_edge(rt: HostRuntime) -> Result<(), Fail> {
    middles_after_each::<HalfWord>(&rt, rt.alloc(), 0, 41)
}

#[test]
fn arrays_see_each_break_after_up_to_15_letters(rt: HostRuntime) -> Result<(), Fail> {
    middles_after_each::<Plain>(&rt, rt.alloc(), 0, 16)
}

#[test]
fn arrays_see_each_break_after_16_to_24_letters(rt: HostRuntime) -> Result<(), Fail> {
    middles_after_each::<Plain>(&rt, rt.alloc(), 16, 25)
}

#[test]
fn arrays_see_each_break_after_25_to_32_letters(rt: HostRuntime) -> Result<(), Fail> {
    middles_after_each::<Plain>(&rt, rt.alloc(), 25, 33)
}

#[test]
fn arrays_see_each_break_after_33_to_40_letters(rt: HostRuntime) -> Result<(), Fail> {
    middles_after_each::<Plain>(&rt, rt.alloc(), 33, 41)
}

#[test]
fn words_see_each_break_at_every_edge(rt: HostRuntime) -> Result<(), Fail> {
    middles_after_each::<usize>(&rt, rt.alloc(), 0, 41)
}

#[test]
fn double_words_see_each_break_at_every_edge(rt: HostRuntime) -> Result<(), Fail> {
    middles_after_each::<u128>(&rt, rt.alloc(), 0, 41)
}

#[test]
fn sixteen_lanes_see_each_break_at_every_edge(rt: HostRuntime) -> Result<(), Fail> {
    middles_after_each::<u8x16>(&rt, rt.alloc(), 0, 41)
}

#[test]
fn thirty_two_lanes_see_each_break_at_every_edge(rt: HostRuntime) -> Result<(), Fail> {
    middles_after_each::<u8x32>(&rt, rt.alloc(), 0, 41)
}

#[test]
fn sixty_four_lanes_see_each_break_at_every_edge(rt: HostRuntime) -> Result<(), Fail> {
    middles_after_each::<Widest>(&rt, rt.alloc(), 0, 73)
}
