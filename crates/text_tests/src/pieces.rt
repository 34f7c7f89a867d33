//! Texts in pieces, as another crate calls them: tables of worked answers, and loops that compare the answers with those
//! for the joined text.

mod caller;
mod changes;
mod lines;
mod long_text;
mod places;
mod random_edits;

use piece_text::{PieceText, Refusal, Scheme};
use std::alloc::Global;
use std::process::Abort;
use std::test::Fail;
use str_indices::chars;

const TEXT: &str = "Hel🐸lo world! こん🐸にち🐸🐸は!";

/// A change of a text.
#[derive(Clone, Copy, Debug)]
enum Change {
    Push(&'static str),
    Insert(usize, &'static str),
    Remove(usize),
    Split(usize),
}

fn make(text: &mut PieceText, change: Change) -> Result<(), Refusal> {
    match change {
        Change::Push(piece) => text.push(piece),
        Change::Insert(at, piece) => text.insert(at, piece),
        Change::Remove(at) => text.remove(at),
        Change::Split(byte_idx) => text.split(byte_idx),
    }
}

/// The answers of one scheme for the indices below 20.
fn answers_by(text: &PieceText, s: Scheme) -> [(usize, usize); 20] {
    let mut answers = [(0, 0); 20];
    for k in 0..20 {
        answers[k] = (text.from_byte_idx(s, k), text.to_byte_idx(s, k));
    }
    answers
}

/// Every answer for the indices below 20, and the number of pieces.
fn answers(text: &PieceText) -> ([[(usize, usize); 20]; 5], usize) {
    let mut all = [[(0, 0); 20]; 5];
    for i in 0..5 {
        all[i] = answers_by(text, Scheme::ALL[i]);
    }
    (all, text.pieces())
}

/// Compares an answer with the one for the joined text.
fn assert_same(rt: &impl Abort, found: usize, wanted: usize, joined: &str, s: Scheme, i: usize) {
    assert_eq!(rt; found, wanted, "{joined:?} {s:?} {i}");
}

/// Compares the answers of one scheme with those for the joined text.
fn assert_as_joined_by(rt: &impl Abort, text: &PieceText, joined: &str, s: Scheme) {
    let end = usize::MAX;
    assert_same(
        rt,
        text.count(s),
        s.from_byte_idx(joined, end),
        joined,
        s,
        end,
    );
    for i in 0..joined.len() + 2 {
        let from = text.from_byte_idx(s, i);
        assert_same(rt, from, s.from_byte_idx(joined, i), joined, s, i);
        let to = text.to_byte_idx(s, i);
        assert_same(rt, to, s.to_byte_idx(joined, i), joined, s, i);
    }
}

/// Compares all answers with those for the joined text, up to past its end.
fn assert_as_joined(rt: &impl Abort, text: &PieceText, joined: &str) {
    for s in Scheme::ALL {
        assert_as_joined_by(rt, text, joined, s);
    }
}

/// The text in pieces of this many chars, the last one of fewer.
fn cut_up(alloc: Global, text: &str, chars_each: usize) -> Result<PieceText, Refusal> {
    let mut pieces = PieceText::new(alloc);
    let mut rest = text;
    for _ in 0..text.len() {
        let (front, back) = rest.split_at(chars::to_byte_idx(rest, chars_each));
        pieces.push(front)?;
        rest = back;
    }
    Ok(pieces)
}

fn assert_cut_up_as_joined(rt: &impl Abort, alloc: Global, text: &str) -> Result<(), Fail> {
    for chars_each in 1..=7 {
        let pieces = cut_up(alloc, text, chars_each)?;
        assert_as_joined(rt, &pieces, text);
    }
    Ok(())
}

#[test]
fn pieces_answer_as_the_joined_text(rt: HostRuntime) -> Result<(), Fail> {
    let texts = [
        TEXT,
        "Here\r\nare\r\nsome\r\nwords",
        "\nHere\nare\nsome\nwords\n",
        "\u{A}Hello\u{D}\u{A}\u{D}せ\u{B}か\u{C}い\u{85}. There\u{2028}is something.\u{2029}",
    ];
    for text in texts {
        assert_cut_up_as_joined(&rt, rt.alloc(), text)?;
    }
    Ok(())
}
