//! A text of several megabytes, in thousands of pieces, one of them longer than a page of memory.
use super::assert_same;
use piece_text::{PieceText, Scheme};
use std::alloc::{AllocError, Global};
use std::process::Abort;
use std::test::Fail;

const LINE: &str = "Zeile – über 🐸 und せかい, und so weiter\r\n";

/// How many pieces there are after the long one.
const PIECES: usize = 4_000;

/// A line, repeated.
fn lines(alloc: Global, count: usize) -> Result<String, AllocError> {
    LINE.repeat(alloc, count)
}

/// Puts a text after others, both in pieces and joined.
fn push(text: &mut PieceText, joined: &mut String, piece: &str) -> Result<(), Fail> {
    text.push(piece)?;
    joined.push_str(piece)?;
    Ok(())
}

/// Compares the counts of all schemes, and their answers at a byte, with those for the joined text.
fn assert_as_joined_at(rt: &impl Abort, text: &PieceText, joined: &str, at: usize) {
    for s in Scheme::ALL {
        assert_same(rt, text.count(s), s.count(joined), "", s, 0);
        let k = s.from_byte_idx(joined, at);
        assert_same(rt, text.from_byte_idx(s, at), k, "", s, at);
        assert_same(
            rt,
            text.to_byte_idx(s, k),
            s.to_byte_idx(joined, k),
            "",
            s,
            k,
        );
    }
}

/// Cuts a piece, which there is memory for, and compares the answers there.
fn assert_cut(rt: &impl Abort, text: &mut PieceText, joined: &str, at: usize) {
    let pieces = text.pieces();
    assert_eq!(rt; text.split(at), Ok(()), "{at}");
    assert_eq!(rt; text.pieces(), pieces.saturating_add(1), "{at}");
    assert_as_joined_at(rt, text, joined, at);
}

#[test]
fn late_pieces_are_cut(rt: HostRuntime) -> Result<(), Fail> {
    let mut text = PieceText::new(rt.alloc());
    let mut joined = String::new(rt.alloc());
    let long = lines(rt.alloc(), 2_000)?;
    push(&mut text, &mut joined, &long)?;
    let piece = lines(rt.alloc(), 12)?;
    for _ in 0..PIECES {
        push(&mut text, &mut joined, &piece)?;
    }
    push(&mut text, &mut joined, &long)?;
    assert_eq!(rt; text.pieces(), PIECES + 2);
    // after the first letter, and between CR and LF
    for i in [0, 1, 290, 300, 301, 2_000, PIECES - 1, PIECES] {
        let start = long.len().saturating_add(piece.len().saturating_mul(i));
        assert_cut(&rt, &mut text, &joined, start.saturating_add(1));
        assert_cut(
            &rt,
            &mut text,
            &joined,
            start.saturating_add(LINE.len() - 1),
        );
    }
    // inside the long ones
    assert_cut(&rt, &mut text, &joined, LINE.len() * 100);
    assert_cut(&rt, &mut text, &joined, joined.len().saturating_sub(1));
    Ok(())
}
