//! A text of several megabytes, in thousands of chunks.
use super::{Both, Change, LINE, lines};
use std::process::Abort;
use std::test::Fail;

/// How many lines it has.
const LINES: usize = 80_000;

/// Compares what is answered of the whole text, and at the bytes round one.
fn assert_same_round(rt: &impl Abort, both: &Both, at: usize) {
    both.assert_same_counts(rt);
    for byte_idx in [0, at / 2, at.saturating_sub(1), at, at.saturating_add(3)] {
        both.assert_same_at(rt, byte_idx);
    }
    both.assert_same_at(rt, both.text.len());
}

/// Makes a change of both, and compares them there.
fn make(rt: &impl Abort, both: &mut Both, change: Change<'_>) -> Result<(), Fail> {
    both.make(change)?;
    assert_same_round(rt, both, change.from);
    Ok(())
}

/// The changes: one after the other, near the end, in the middle and at the beginning of the text as it was.
fn changes(long: &str) -> [Change<'_>; 7] {
    let line = LINE.len();
    let late = line.saturating_mul(LINES - 100);
    let middle = line.saturating_mul(LINES / 2);
    let change = |from: usize, len: usize, put| Change {
        from,
        to: from.saturating_add(len),
        put,
    };
    [
        change(late, 0, "🐸\r"),
        change(late, 5, "\n"),
        change(late, 0, long),
        change(middle, line.saturating_mul(300), ""),
        change(middle, 1, long),
        change(middle.saturating_sub(1), 1, ""),
        change(0, 0, "\n"),
    ]
}

#[test]
fn a_long_text_is_changed(rt: HostRuntime) -> Result<(), Fail> {
    let text = lines(rt.alloc(), LINES)?;
    let mut both = Both::of(rt.alloc(), &text)?;
    assert_same_round(&rt, &both, text.len() / 7);
    let long = lines(rt.alloc(), 200)?;
    for change in changes(&long) {
        make(&rt, &mut both, change)?;
    }
    let pieces = both.assert_same_pieces(&rt)?;
    assert!(rt; pieces > 4_000, "{pieces}");
    Ok(())
}
