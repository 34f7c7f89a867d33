//! Lines and positions, beside those of a text by itself.
use super::STRETCH;
use super::texts::{BEFORE, mixed_text, round_marks};
use crate::questions::{at, differs_at_byte, differs_at_position, differs_on_line};
use std::process::Abort;
use std::test::Fail;
use text_index::TextIndex;

/// Offsets on a line, of which the last two are past each line's end.
const OFFSETS: [usize; 5] = [0, 1, 20, 2000, usize::MAX];

/// Compares what is answered at a byte.
fn assert_byte(rt: &impl Abort, index: &TextIndex<'_>, byte: usize) {
    let found = differs_at_byte(&mut index.view(), index.text(), byte);
    assert!(rt; found.is_none(), "{byte}: {found:?}");
}

/// Compares a line of each kind, and positions on it.
fn assert_lines(rt: &impl Abort, index: &TextIndex<'_>, line: usize) {
    let found = differs_on_line(&mut index.view(), index.text(), line);
    assert!(rt; found.is_none(), "{line}: {found:?}");
    for offset in OFFSETS {
        let found = differs_at_position(
            &mut index.view(),
            index.text(),
            at(1, 1),
            at(line, offset),
        );
        assert!(rt; found.is_none(), "{line} {offset}: {found:?}");
    }
}

#[test]
fn every_byte_and_line_of_a_mixed_text(rt: HostRuntime) -> Result<(), Fail> {
    for many in [0, 1, 30] {
        let text = mixed_text(rt.alloc(), many)?;
        let index = TextIndex::of(rt.alloc(), text.as_str())?;
        for byte in 0..text.len() + 3 {
            assert_byte(&rt, &index, byte);
        }
        for line in [0, 1, 2, 3, 4, 5, 6, 100, 140, 150, usize::MAX] {
            assert_lines(&rt, &index, line);
        }
    }
    Ok(())
}

#[test]
fn one_line_of_several_stretches(rt: HostRuntime) -> Result<(), Fail> {
    let text = "one line".repeat(rt.alloc(), 260)?;
    let index = TextIndex::of(rt.alloc(), text.as_str())?;
    for byte in (0..text.len() + 3).step_by(5) {
        assert_byte(&rt, &index, byte);
    }
    Ok(())
}

#[test]
fn positions_at_marks_and_beside_them(rt: HostRuntime) -> Result<(), Fail> {
    for text in &round_marks(rt.alloc())? {
        let index = TextIndex::of(rt.alloc(), text.as_str())?;
        for byte in STRETCH - 2 * BEFORE..STRETCH + 2 * BEFORE {
            assert_byte(&rt, &index, byte);
        }
        for line in [19, 20, 21, 22, 23, 40, 41, 42, 43, 44, 45] {
            assert_lines(&rt, &index, line);
        }
    }
    Ok(())
}
