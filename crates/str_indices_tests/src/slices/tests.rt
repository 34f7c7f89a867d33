//! Tables of slices.
use crate::slices::{after_chars, line};
use std::process::Abort;
use std::test::Fail;

const TEXT: &str = "Hel🐸lo world! こん🐸にち🐸🐸は!";

fn text_is(rt: &impl Abort, found: &str, wanted: &str, at: usize) {
    assert!(rt; found == wanted, "{at}: {found:?}");
}

/// Numbers of chars, and what is left of the text after them.
const RESTS: [(usize, &str); 6] = [
    (0, TEXT),
    (3, "🐸lo world! こん🐸にち🐸🐸は!"),
    (4, "lo world! こん🐸にち🐸🐸は!"),
    (20, "🐸は!"),
    (23, ""),
    (usize::MAX, ""),
];

#[test]
fn characters_are_left_out_from_the_beginning(rt: HostRuntime) -> Result<(), Fail> {
    for (n, rest) in &RESTS {
        text_is(&rt, after_chars(TEXT, *n), rest, *n);
    }
    Ok(())
}

/// Lines of a text, each with its break.
const LINES: [(usize, &str); 6] = [
    (0, "one\r\n"),
    (1, "\n"),
    (2, "zwei\u{2028}"),
    (3, "三"),
    (4, ""),
    (usize::MAX, ""),
];

#[test]
fn each_line_has_its_break(rt: HostRuntime) -> Result<(), Fail> {
    for (k, slice) in &LINES {
        text_is(&rt, line("one\r\n\nzwei\u{2028}三", *k), slice, *k);
    }
    Ok(())
}
