//! The lines of a text, with worked answers, and with breaks that lie across two chunks.
use super::{assert_same, concat};
use positions::LineType::{self, Crlf, Lf, Lines};
use positions::line;
use std::alloc::{AllocError, Global};
use std::process::Abort;
use std::test::Fail;
use text_rope::{Refusal, Rope};

/// A line of a kind: where it begins, where its content ends, and where the next one begins.
type Row = (LineType, usize, [usize; 3]);

/// The lines of a text of ten bytes, with CR LF, form feed and U+2028.
const ROWS: [Row; 14] = [
    (Lf, 0, [0, 2, 3]),
    (Lf, 1, [3, 10, 10]),
    (Lf, 2, [10, 10, 10]),
    (Crlf, 0, [0, 1, 3]),
    (Crlf, 1, [3, 9, 10]),
    (Crlf, 2, [10, 10, 10]),
    (Crlf, 3, [10, 10, 10]),
    (Lines, 0, [0, 1, 3]),
    (Lines, 1, [3, 4, 5]),
    (Lines, 2, [5, 6, 9]),
    (Lines, 3, [9, 9, 10]),
    (Lines, 4, [10, 10, 10]),
    (Lines, 5, [10, 10, 10]),
    (Lines, usize::MAX, [10, 10, 10]),
];

/// The lines of a text with a surrogate pair, U+0085 and U+2029.
const WIDE_ROWS: [Row; 5] = [
    (Crlf, 0, [0, 10, 10]),
    (Lines, 0, [0, 5, 7]),
    (Lines, 1, [7, 7, 10]),
    (Lines, 2, [10, 10, 10]),
    (Lf, 0, [0, 10, 10]),
];

/// Compares a line of a rope with its row.
fn assert_line(rt: &impl Abort, rope: &Rope, (lines, k, wanted): Row) {
    let content = line(&mut rope.view(), lines, k);
    let next = rope.to_byte_idx(lines.scheme(), k.saturating_add(1));
    let found = [content.start, content.end, next];
    assert!(rt; found == wanted, "{lines:?} {k}: {found:?}");
}

/// Compares lines of a text with their rows.
fn assert_lines(rt: &impl Abort, alloc: Global, text: &str, rows: &[Row]) -> Result<(), Refusal> {
    let rope = Rope::from_str(alloc, text)?;
    for row in rows {
        assert_line(rt, &rope, *row);
    }
    Ok(())
}

#[test]
fn lines_of_each_scheme(rt: HostRuntime) -> Result<(), Fail> {
    assert_lines(&rt, rt.alloc(), "a\r\nb\u{c}c\u{2028}\r", &ROWS)?;
    assert_lines(&rt, rt.alloc(), "a🐸\u{85}\u{2029}", &WIDE_ROWS)?;
    Ok(())
}

/// A text, and as many breaks after it as fill more than a chunk.
fn with_breaks(alloc: Global, first: &str) -> Result<String, AllocError> {
    let breaks = "\r\n".repeat(alloc, 800)?;
    concat(alloc, [first, &breaks, ""])
}

/// Compares every answer of a rope of a text.
fn assert_loaded(rt: &impl Abort, alloc: Global, text: &str) -> Result<(), Refusal> {
    let rope = Rope::from_str(alloc, text)?;
    assert_same(rt, &rope, text);
    Ok(())
}

#[test]
fn breaks_across_pieces(rt: HostRuntime) -> Result<(), Fail> {
    for first in ["", "x"] {
        let text = with_breaks(rt.alloc(), first)?;
        assert_loaded(&rt, rt.alloc(), &text)?;
    }
    Ok(())
}
