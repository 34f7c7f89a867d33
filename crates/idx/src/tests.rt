// The program over memory.
use crate::engine::run;
use crate::faults::Fault;
use std::alloc::Global;
use std::fmt::Debug;
use std::process::Abort;
use std::test::Fail;

mod faults;
mod kernels;
mod walk;
mod wide;

const TEXT: &str = "Hello せかい! Hello せかい! Hello せかい! Hello せかい! Hello せかい!";

const FROGS: &str = "Hel🐸lo world! こん🐸にち🐸🐸は!";

const LATE_CRLF: &str = "aaaaaaaaaaaaaaaaaaaaaaaaaaaaaaa\r\nb";

/// Seven, after a hundred zeros.
const LONG_SEVEN: &str =
    "0000000000000000000000000000000000000000000000000000000000000000000000000000000000000000000000000000\
    7";

/// Runs the program over memory, and returns its answer and its output.
fn run_in_memory(alloc: Global, words: &[&str], text: &[u8]) -> (Result<(), Fault>, Vec<u8>) {
    let mut input = text;
    let mut output = Vec::new(alloc);
    let result = run(alloc, words, &mut input, &mut output);
    (result, output)
}

fn assert_same(rt: &impl Abort, found: usize, wanted: usize, of: &impl Debug) {
    assert_eq!(rt; found, wanted, "{of:?}");
}

/// Compares what a run answers and writes with what is wanted.
fn assert_outcome(
    rt: &impl Abort,
    found: Result<(), Fault>,
    output: &[u8],
    wanted: Result<(), Fault>,
    written: &[u8],
    of: &impl Debug,
) {
    assert_eq!(rt; found, wanted, "{of:?}");
    assert_eq!(rt; output, written, "{of:?}");
}

/// Runs these words over this text, and compares what is written.
fn assert_written(rt: &impl Abort, alloc: Global, words: &[&str], text: &str, written: &str) {
    let (found, output) = run_in_memory(alloc, words, text.as_bytes());
    assert_outcome(rt, found, &output, Ok(()), written.as_bytes(), &words);
}

/// The words of a run, its text, and what it writes.
type Row = (&'static [&'static str], &'static str, &'static str);

fn assert_rows(rt: &impl Abort, alloc: Global, rows: &[Row]) {
    for row in rows {
        let (words, text, written) = *row;
        assert_written(rt, alloc, words, text, written);
    }
}

// The contract of `run` lets a body through that always answers `NoMemory` or `Read`; this refuses it.
#[test]
fn answers_over_memory(rt: HostRuntime) {
    const ROWS: &[Row] = &[
        (&["chars.count"], TEXT, "54\n"),
        (&["chars.count"], "", "0\n"),
    ];
    assert_rows(&rt, rt.alloc(), ROWS);
}

/// Words that ask for the lines before the last byte of 4097 CRLFs.
const LAST_LINE_BREAK: [&[&str]; 5] = [
    &["lines.from_byte_idx", "8193"],
    &["lines.from_byte_idx", "8193", "plain", "0"],
    &["lines.from_byte_idx", "8193", "word", "0"],
    &["lines.from_byte_idx", "8193", "lanes", "0"],
    &["lines.from_byte_idx", "8193", "wide", "0"],
];

fn assert_before_last_line_break(rt: &impl Abort, alloc: Global, text: &str) {
    for words in LAST_LINE_BREAK {
        assert_written(rt, alloc, words, text, "4096\n");
    }
}

#[test]
fn answers_inside_the_last_line_break(rt: HostRuntime) -> Result<(), Fail> {
    let text = "\r\n".repeat(rt.alloc(), 4097)?;
    assert_before_last_line_break(&rt, rt.alloc(), &text);
    Ok(())
}

#[test]
fn converts_indices(rt: HostRuntime) {
    const ROWS: &[Row] = &[
        (&["chars.to_byte_idx", "18446744073709551615"], "せかい", "9\n"),
        (&["chars.to_byte_idx", "007"], "Hello world!", "7\n"),
        (&["chars.to_byte_idx", LONG_SEVEN], "Hello world!", "7\n"),
        (&["chars.to_byte_idx", "2"], "せかい", "6\n"),
        (&["chars.to_byte_idx", "0"], "", "0\n"),
        (&["chars.from_byte_idx", "8"], "せかい", "2\n"),
        (
            &["chars.from_byte_idx", "18446744073709551615"],
            "せかい",
            "3\n",
        ),
        (&["chars.from_byte_idx", "0"], "", "0\n"),
    ];
    assert_rows(&rt, rt.alloc(), ROWS);
}

#[test]
fn answers_calls_of_each_module(rt: HostRuntime) {
    const LINES: &str = "\nHere\nare\nsome\nwords\n";
    const ROWS: &[Row] = &[
        (&["utf16.count"], FROGS, "27\n"),
        (&["utf16.count_surrogates"], FROGS, "4\n"),
        (&["utf16.from_byte_idx", "3"], FROGS, "3\n"),
        (&["utf16.to_byte_idx", "4"], FROGS, "3\n"),
        (&["lines_lf.count_breaks"], "", "0\n"),
        (&["lines_lf.count_breaks"], LINES, "5\n"),
        (&["lines_lf.from_byte_idx", "6"], LINES, "2\n"),
        (&["lines_lf.to_byte_idx", "2"], LINES, "6\n"),
        (&["lines_crlf.count_breaks"], "\r\r\n\n", "3\n"),
        (&["lines_crlf.from_byte_idx", "2"], "a\r\nb", "0\n"),
        (&["lines_crlf.to_byte_idx", "1"], "a\r\nb", "3\n"),
        (&["lines.count_breaks"], LINES, "5\n"),
        (&["lines.from_byte_idx", "4"], "é\u{85}x", "1\n"),
        (&["lines.to_byte_idx", "1"], "a\u{2028}b", "4\n"),
        (&["lines.to_byte_idx", "007"], "a\nb", "3\n"),
    ];
    assert_rows(&rt, rt.alloc(), ROWS);
}

/// A call, its index, a text, and what a run writes that answers by the call's kernel.
type KernelRow = (&'static str, &'static str, &'static str, &'static str);

fn assert_each_lead(rt: &impl Abort, alloc: Global, row: KernelRow, chunk: &'static str) {
    let (call, index, text, written) = row;
    for lead in ["0", "3", "007", "18446744073709551615"] {
        assert_written(rt, alloc, &[call, index, chunk, lead], text, written);
    }
}

fn assert_each_kernel(rt: &impl Abort, alloc: Global, row: KernelRow) {
    for chunk in ["plain", "word", "lanes", "wide"] {
        assert_each_lead(rt, alloc, row, chunk);
    }
}

#[test]
fn answers_by_each_kernel(rt: HostRuntime) {
    const ROWS: &[KernelRow] = &[
        ("chars.count", "-", TEXT, "54\n"),
        ("chars.from_byte_idx", "2", "せかい", "0\n"),
        ("chars.to_byte_idx", "2", "せかい", "6\n"),
        ("utf16.count", "-", FROGS, "27\n"),
        ("utf16.count_surrogates", "-", FROGS, "4\n"),
        ("utf16.from_byte_idx", "26", FROGS, "17\n"),
        ("utf16.to_byte_idx", "18", FROGS, "23\n"),
        ("lines_lf.count_breaks", "-", LATE_CRLF, "1\n"),
        ("lines_lf.from_byte_idx", "2", "a\r\nb", "0\n"),
        ("lines_lf.to_byte_idx", "1", "a\r\nb", "3\n"),
        ("lines_crlf.count_breaks", "-", LATE_CRLF, "1\n"),
        ("lines_crlf.from_byte_idx", "3", "\r\r\n\n", "2\n"),
        ("lines_crlf.to_byte_idx", "2", "\r\r\n\n", "3\n"),
        ("lines.count_breaks", "-", LATE_CRLF, "1\n"),
        ("lines.from_byte_idx", "4", "é\u{85}x", "1\n"),
        ("lines.to_byte_idx", "1", "a\u{2028}b", "4\n"),
    ];
    for row in ROWS {
        assert_each_kernel(&rt, rt.alloc(), *row);
    }
}
