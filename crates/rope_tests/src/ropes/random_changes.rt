//! A long list of changes, chosen from a seed, of a rope and of a plain text.
use super::{Both, Change, concat};
use std::alloc::{AllocError, Global};
use std::process::Abort;
use std::test::Fail;
use text_rope::{Refusal, Rope};
use text_tests::random::Random;

/// How many changes there are.
const CHANGES: usize = 10_000;

/// From this length in bytes on, only a little is put in at a time.
const LONG: usize = 100_000;

/// Texts to put in. A CR of one change meets an LF of another, and chunks begin and end between the two.
const TEXTS: [&str; 12] = [
    "",
    "a",
    "\r",
    "\n",
    "\r\n",
    "é",
    "🐸\r",
    "\n\u{2028}",
    "b\u{85}c",
    "\n\r",
    "せい",
    "\u{B}d\r\ne",
];

/// All of them, repeated: a text longer than a chunk, in which many cuts are between CR and LF.
pub(super) fn long(alloc: Global) -> Result<String, AllocError> {
    TEXTS.concat(alloc)?.repeat(alloc, 64)
}

/// A byte between chars: anywhere, or where a chunk begins.
fn place(random: &mut Random, both: &Both) -> usize {
    let byte_idx = random.below(both.text.len().saturating_add(1));
    if random.below(3) == 0 {
        start_of_piece(&both.rope, byte_idx)
    } else {
        both.text.floor_char_boundary(byte_idx)
    }
}

/// Where the chunk that a byte is in begins.
fn start_of_piece(rope: &Rope, byte_idx: usize) -> usize {
    match rope.chunk_at(byte_idx) {
        Some(chunk) => chunk.start,
        None => rope.len(),
    }
}

/// How many bytes are taken out: mostly none or a few, and at times enough to cut one chunk or two.
fn len_taken(random: &mut Random) -> usize {
    match random.below(20) {
        0 => random.below(2_000),
        1..=7 => random.below(12),
        _ => 0,
    }
}

/// A text to put in: a little, or at times one longer than a chunk.
fn choose_text<'a>(random: &mut Random, len: usize, long: &'a str) -> &'a str {
    if len < LONG && random.below(12) == 0 {
        long
    } else {
        TEXTS[random.next() % TEXTS.len()]
    }
}

fn next_change<'a>(random: &mut Random, both: &Both, long: &'a str) -> Change<'a> {
    let from = place(random, both);
    let end = from.saturating_add(len_taken(random));
    Change {
        from,
        to: both.text.floor_char_boundary(end).max(from),
        put: choose_text(random, both.text.len(), long),
    }
}

/// Moves the text before a byte to the end, in both.
fn turn(both: &mut Both, at: usize) -> Result<(), Fail> {
    both.text = turn_text(both.alloc, &both.text, at)?;
    turn_rope(&mut both.rope, at)?;
    Ok(())
}

/// Moves the text before a byte to the end, in a plain text.
fn turn_text(alloc: Global, text: &str, at: usize) -> Result<String, Fail> {
    let (front, back) = text.split_at_checked(at).ok_or("no boundary")?;
    Ok(concat(alloc, [back, front, ""])?)
}

/// Moves the text before a byte to the end, in a rope.
fn turn_rope(rope: &mut Rope, at: usize) -> Result<(), Refusal> {
    let mut rest = rope.split_off(at)?;
    rest.append(rope)?;
    *rope = rest;
    Ok(())
}

/// Compares what is answered of the whole text, near a change, and anywhere.
fn assert_same_near(rt: &impl Abort, random: &mut Random, both: &Both, at: usize) {
    both.assert_same_counts(rt);
    for _ in 0..2 {
        both.assert_same_at(rt, at.saturating_add(random.below(8)));
    }
    both.assert_same_at(rt, random.below(both.text.len().saturating_add(3)));
}

/// Makes a random change of both, and compares them there.
pub(super) fn change_at_random(
    rt: &impl Abort,
    random: &mut Random,
    both: &mut Both,
    long: &str,
) -> Result<(), Fail> {
    let change = next_change(random, both, long);
    both.make(change)?;
    assert_same_near(rt, random, both, change.from);
    Ok(())
}

/// How many line breaks of two chars have one in a chunk and one in the next.
fn shared_breaks(rope: &Rope) -> usize {
    let mut shared: usize = 0;
    let mut after_return = false;
    for piece in rope.chunks() {
        if after_return && piece.starts_with('\n') {
            shared = shared.saturating_add(1);
        }
        after_return = piece.ends_with('\r');
    }
    shared
}

#[test]
fn answers_stay_those_of_the_text(rt: HostRuntime) -> Result<(), Fail> {
    let mut both = Both::of(rt.alloc(), "")?;
    let mut random = Random::new(0x726f_7065);
    let long = long(rt.alloc())?;
    let mut most_pieces: usize = 0;
    let mut shared: usize = 0;
    for i in 0..CHANGES {
        change_at_random(&rt, &mut random, &mut both, &long)?;
        if i % 50 == 0 {
            most_pieces = both.assert_same_pieces(&rt)?.max(most_pieces);
            shared = shared.saturating_add(shared_breaks(&both.rope));
            let at = place(&mut random, &both);
            turn(&mut both, at)?;
            assert_same_near(&rt, &mut random, &both, at);
        }
    }
    assert!(rt;
        most_pieces > 140 && shared > 1_000,
        "{most_pieces} {shared}"
    );
    Ok(())
}
