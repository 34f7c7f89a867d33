//! Tables of lines by all breaks.
use super::rows::{self, Asked, KernelRows, RangeRow, RepeatedRow, Row};
use std::process::Abort;
use std::test::Fail;
use str_indices::lines::{from_byte_idx, to_byte_idx};
use str_indices::{Scheme, chars};

const ENGLISH_AND_JAPANESE: &str =
    "Hello there!  How're you doing?\nIt's a fine day, isn't it?\nAren't you glad we're alive?\nこんにちは、みんなさん！";

const FOUR_WORDS: &str = "Here\nare\nsome\nwords";

const FOUR_WORDS_BETWEEN_BREAKS: &str = "\nHere\nare\nsome\nwords\n";

const FOUR_WORDS_BY_CRLF: &str = "Here\r\nare\r\nsome\r\nwords";

const THREE_LINES: &str = "Hello せ\nか\nい!";

const EVERY_BREAK: &str =
    "\u{A}Hello\u{D}\u{A}\u{D}せ\u{B}か\u{C}い\u{85}. There\u{2028}is something.\u{2029}";

const SEVEN_BREAKS: &str =
    "\u{A}Hello\u{D}\u{A}せ\u{B}か\u{C}い\u{85}. There\u{A}is something.\u{2029}";

const BEFORE_SEPARATOR: &str = "aaaaaa\u{2028}b";

const SEPARATOR_BEHIND_THIRTY: &str = "aaaaaaaaaaaaaaaaaaaaaaaaaaaaaa\u{2028}b";

const CRLF_BEHIND_SEVEN: &str = "aaaaaaa\r\nbbbbbbb";

const CRLF_BEFORE_THE_LAST: &str = "aaaaaaa\r\nb";

const CRLF_BEHIND_THIRTY_ONE: &str = "aaaaaaaaaaaaaaaaaaaaaaaaaaaaaaa\r\nb";

const TEXTS: &[(&str, usize)] = &[
    (EVERY_BREAK, 8),
    (SEVEN_BREAKS, 7),
    ("", 0),
    (ENGLISH_AND_JAPANESE, 3),
    (FOUR_WORDS, 3),
    (FOUR_WORDS_BETWEEN_BREAKS, 5),
    (FOUR_WORDS_BY_CRLF, 3),
    ("a\r\nb", 1),
    ("a\u{2028}b", 1),
    ("é\u{85}x", 1),
];

#[test]
fn counts_whole_texts(rt: HostRuntime) {
    rows::count_texts(&rt, Scheme::Lines, TEXTS);
}

const BYTES: &[RangeRow] = &[
    (FOUR_WORDS, 0, 5, 0),
    (FOUR_WORDS, 5, 9, 1),
    (FOUR_WORDS, 9, 14, 2),
    (FOUR_WORDS, 14, 20, 3),
    (FOUR_WORDS_BETWEEN_BREAKS, 0, 1, 0),
    (FOUR_WORDS_BETWEEN_BREAKS, 1, 6, 1),
    (FOUR_WORDS_BETWEEN_BREAKS, 6, 10, 2),
    (FOUR_WORDS_BETWEEN_BREAKS, 10, 15, 3),
    (FOUR_WORDS_BETWEEN_BREAKS, 15, 21, 4),
    (FOUR_WORDS_BETWEEN_BREAKS, 21, 23, 5),
    (FOUR_WORDS_BY_CRLF, 0, 6, 0),
    (FOUR_WORDS_BY_CRLF, 6, 11, 1),
    (FOUR_WORDS_BY_CRLF, 11, 17, 2),
    (FOUR_WORDS_BY_CRLF, 17, 23, 3),
    (ENGLISH_AND_JAPANESE, 0, 32, 0),
    (ENGLISH_AND_JAPANESE, 32, 59, 1),
    (ENGLISH_AND_JAPANESE, 59, 88, 2),
    (ENGLISH_AND_JAPANESE, 88, 130, 3),
    ("a\r\nb", 2, 3, 0),
    ("a\r\nb", 3, 4, 1),
    ("é\u{85}x", 2, 4, 0),
    ("é\u{85}x", 4, 5, 1),
    ("", 0, 1, 0),
];

#[test]
fn line_of_each_byte(rt: HostRuntime) {
    rows::from_bytes(&rt, Scheme::Lines, BYTES);
}

const BEGINS: &[Row] = &[
    (FOUR_WORDS_BY_CRLF, 0, 0),
    (FOUR_WORDS_BY_CRLF, 1, 6),
    (FOUR_WORDS_BY_CRLF, 2, 11),
    (FOUR_WORDS_BY_CRLF, 3, 17),
    (FOUR_WORDS_BETWEEN_BREAKS, 0, 0),
    (FOUR_WORDS_BETWEEN_BREAKS, 1, 1),
    (FOUR_WORDS_BETWEEN_BREAKS, 2, 6),
    (FOUR_WORDS_BETWEEN_BREAKS, 3, 10),
    (FOUR_WORDS_BETWEEN_BREAKS, 4, 15),
    (FOUR_WORDS_BETWEEN_BREAKS, 5, 21),
    (ENGLISH_AND_JAPANESE, 0, 0),
    (ENGLISH_AND_JAPANESE, 1, 32),
    (ENGLISH_AND_JAPANESE, 2, 59),
    (ENGLISH_AND_JAPANESE, 3, 88),
    (ENGLISH_AND_JAPANESE, 4, 124),
    (ENGLISH_AND_JAPANESE, 5, 124),
    (ENGLISH_AND_JAPANESE, 6, 124),
    ("a\r\nb", 1, 3),
    ("a\u{2028}b", 1, 4),
    ("é\u{85}x", 1, 4),
    ("é\u{85}x", 2, 5),
    ("", 0, 0),
];

#[test]
fn line_begins_at_its_byte(rt: HostRuntime) {
    rows::to_bytes(&rt, Scheme::Lines, BEGINS);
}

#[test]
fn round_trips_keep_where_a_line_begins(rt: HostRuntime) {
    let text = FOUR_WORDS_BETWEEN_BREAKS;
    rows::round_trips(
        &rt,
        Scheme::Lines,
        &[(text, 0, 0), (text, 6, 2), (text, 21, 5)],
    );
}

const REPEATED_TEXTS: &[RepeatedRow] = &[
    ("\n", 4097, 4097, 4096, 4096),
    ("\n", 4097, 4097, 4098, 4097),
];

#[test]
fn each_of_many_line_feeds_counts(rt: HostRuntime) -> Result<(), Fail> {
    rows::repeated_texts(&rt, rt.alloc(), Scheme::Lines, REPEATED_TEXTS)
}

const AFTER_ANY_LEAD: KernelRows = KernelRows {
    scheme: Scheme::Lines,
    leads: 50,
    counts: &[
        (BEFORE_SEPARATOR, 10, 1),
        (BEFORE_SEPARATOR, 6, 0),
        (SEPARATOR_BEHIND_THIRTY, 34, 1),
        (SEPARATOR_BEHIND_THIRTY, 30, 0),
        (CRLF_BEHIND_SEVEN, 16, 1),
        (CRLF_BEHIND_SEVEN, 9, 1),
        (CRLF_BEHIND_SEVEN, 8, 1),
        (CRLF_BEHIND_SEVEN, 7, 0),
        (CRLF_BEFORE_THE_LAST, 8, 1),
        (CRLF_BEFORE_THE_LAST, 9, 1),
        (CRLF_BEFORE_THE_LAST, 10, 1),
        (CRLF_BEHIND_THIRTY_ONE, 34, 1),
        (CRLF_BEHIND_THIRTY_ONE, 32, 1),
        (CRLF_BEHIND_THIRTY_ONE, 31, 0),
        (EVERY_BREAK, 48, 8),
    ],
    from: &[
        (BEFORE_SEPARATOR, 8, 0),
        (BEFORE_SEPARATOR, 9, 1),
        (SEPARATOR_BEHIND_THIRTY, 32, 0),
        (SEPARATOR_BEHIND_THIRTY, 33, 1),
        (CRLF_BEHIND_SEVEN, 8, 0),
        (CRLF_BEHIND_SEVEN, 9, 1),
        (CRLF_BEFORE_THE_LAST, 8, 0),
        (CRLF_BEFORE_THE_LAST, 9, 1),
        (CRLF_BEFORE_THE_LAST, 10, 1),
        (CRLF_BEHIND_THIRTY_ONE, 32, 0),
        (CRLF_BEHIND_THIRTY_ONE, 33, 1),
    ],
    to: &[
        (BEFORE_SEPARATOR, 0, 0),
        (BEFORE_SEPARATOR, 1, 9),
        (BEFORE_SEPARATOR, 2, 10),
        (SEPARATOR_BEHIND_THIRTY, 1, 33),
        (SEPARATOR_BEHIND_THIRTY, 2, 34),
        (CRLF_BEHIND_SEVEN, 1, 9),
        (CRLF_BEFORE_THE_LAST, 1, 9),
        (CRLF_BEFORE_THE_LAST, 2, 10),
        (CRLF_BEHIND_THIRTY_ONE, 1, 33),
        (CRLF_BEHIND_THIRTY_ONE, 2, 34),
    ],
};

#[test]
fn kernels_see_breaks_at_any_edge_of_a_chunk(rt: HostRuntime) {
    rows::answer_over_each_chunk(&rt, &AFTER_ANY_LEAD);
}

fn same_line(rt: &impl Abort, text: &str, index: usize, found: usize, want: usize) {
    let asked = Asked::at(Scheme::Lines, text, index);
    rows::same_at(rt, "by characters", asked, found, want);
}

/// The line of a char.
fn line_of_char(text: &str, index: usize) -> usize {
    from_byte_idx(text, chars::to_byte_idx(text, index))
}

/// The char that a line begins with.
fn char_of_line(text: &str, line: usize) -> usize {
    chars::from_byte_idx(text, to_byte_idx(text, line))
}

fn each_char_is_on(rt: &impl Abort, row: RangeRow) {
    let (text, first, end, line) = row;
    for index in first..end {
        same_line(rt, text, index, line_of_char(text, index), line);
    }
}

/// Chars, and the line that they are on.
const CHARS: &[RangeRow] = &[
    (THREE_LINES, 0, 8, 0),
    (THREE_LINES, 8, 10, 1),
    (THREE_LINES, 10, 11, 2),
    (ENGLISH_AND_JAPANESE, 0, 32, 0),
    (ENGLISH_AND_JAPANESE, 32, 59, 1),
    (ENGLISH_AND_JAPANESE, 59, 88, 2),
    (ENGLISH_AND_JAPANESE, 88, 110, 3),
];

#[test]
fn line_of_each_char(rt: HostRuntime) {
    for row in CHARS {
        each_char_is_on(&rt, *row);
    }
}

/// Lines, and the char that each begins with.
const CHARS_OF_LINES: &[Row] = &[
    (THREE_LINES, 0, 0),
    (THREE_LINES, 1, 8),
    (THREE_LINES, 2, 10),
    (ENGLISH_AND_JAPANESE, 0, 0),
    (ENGLISH_AND_JAPANESE, 1, 32),
    (ENGLISH_AND_JAPANESE, 2, 59),
    (ENGLISH_AND_JAPANESE, 3, 88),
    (ENGLISH_AND_JAPANESE, 4, 100),
    (ENGLISH_AND_JAPANESE, 5, 100),
    (ENGLISH_AND_JAPANESE, 6, 100),
];

#[test]
fn char_that_a_line_begins_with(rt: HostRuntime) {
    for &(text, line, index) in CHARS_OF_LINES {
        same_line(&rt, text, line, char_of_line(text, line), index);
    }
}

#[test]
fn char_and_line_round_trips_keep_where_a_line_begins(rt: HostRuntime) {
    let text = FOUR_WORDS_BETWEEN_BREAKS;
    for (index, line) in [(0, 0), (6, 2), (21, 5)] {
        let back = char_of_line(text, line_of_char(text, index));
        same_line(&rt, text, index, back, index);
        let back = line_of_char(text, char_of_line(text, line));
        same_line(&rt, text, line, back, line);
    }
}
