//! Tables of lines by LF.
use super::rows::{self, KernelRows, RangeRow, RepeatedRow, Row};
use std::test::Fail;
use str_indices::Scheme;

const WORDS: &str = "Here\nare\nsome\nwords";

const WORDS_WITH_CRLF: &str = "Here\r\nare\r\nsome\r\nwords";

const WORDS_BETWEEN_BREAKS: &str = "\nHere\nare\nsome\nwords\n";

const TWO_SCRIPTS: &str =
    "Hello there!  How're you doing?\nIt's a fine day, isn't it?\nAren't you glad we're alive?\nこんにちは、みんなさん！";

// A line has as many bytes, with its break, as four chunks of sixteen or of thirty-two, or one byte more.

const LINE_OF_64: &str = "aaaaaaaaaaaaaaaaaaaaaaaaaaaaaaaaaaaaaaaaaaaaaaaaaaaaaaaaaaaaaaa\nb";

const LINE_OF_65: &str = "aaaaaaaaaaaaaaaaaaaaaaaaaaaaaaaaaaaaaaaaaaaaaaaaaaaaaaaaaaaaaaaa\n";

const LINE_OF_128: &str =
    "aaaaaaaaaaaaaaaaaaaaaaaaaaaaaaaaaaaaaaaaaaaaaaaaaaaaaaaaaaaaaaaaaaaaaaaaaaaaaaaaaaaaaaaaaaaaaaaaaaaaaaaaaaaaaaaaaaaaaaaaaaaaaaa\nb";

const LINE_OF_129: &str =
    "aaaaaaaaaaaaaaaaaaaaaaaaaaaaaaaaaaaaaaaaaaaaaaaaaaaaaaaaaaaaaaaaaaaaaaaaaaaaaaaaaaaaaaaaaaaaaaaaaaaaaaaaaaaaaaaaaaaaaaaaaaaaaaaa\n";

#[test]
fn only_line_feeds_are_counted(rt: HostRuntime) {
    let text = "\u{A}Hello\u{D}\u{A}せ\u{B}か\u{C}い\u{85}. There\u{A}is something.\u{2029}";
    assert!(rt; text.len() == 45);
    rows::count_texts(&rt, Scheme::Lf, &[(text, 3), ("", 0)]);
}

const BYTES: &[RangeRow] = &[
    ("", 0, 1, 0),
    (WORDS, 0, 5, 0),
    (WORDS, 5, 9, 1),
    (WORDS, 9, 14, 2),
    (WORDS, 14, 20, 3),
    (WORDS_BETWEEN_BREAKS, 0, 1, 0),
    (WORDS_BETWEEN_BREAKS, 1, 6, 1),
    (WORDS_BETWEEN_BREAKS, 6, 10, 2),
    (WORDS_BETWEEN_BREAKS, 10, 15, 3),
    (WORDS_BETWEEN_BREAKS, 15, 21, 4),
    (WORDS_BETWEEN_BREAKS, 21, 22, 5),
    (WORDS_WITH_CRLF, 0, 6, 0),
    (WORDS_WITH_CRLF, 6, 11, 1),
    (WORDS_WITH_CRLF, 11, 17, 2),
    (WORDS_WITH_CRLF, 17, 18, 3),
    (TWO_SCRIPTS, 0, 32, 0),
    (TWO_SCRIPTS, 32, 59, 1),
    (TWO_SCRIPTS, 59, 88, 2),
    (TWO_SCRIPTS, 88, 130, 3),
    ("a\r\nb", 2, 3, 0),
    ("a\r\nb", 3, 4, 1),
];

#[test]
fn a_break_belongs_to_the_line_that_it_ends(rt: HostRuntime) {
    rows::from_bytes(&rt, Scheme::Lf, BYTES);
}

const BEGINS: &[Row] = &[
    ("", 0, 0),
    (WORDS_BETWEEN_BREAKS, 0, 0),
    (WORDS_BETWEEN_BREAKS, 1, 1),
    (WORDS_BETWEEN_BREAKS, 2, 6),
    (WORDS_BETWEEN_BREAKS, 3, 10),
    (WORDS_BETWEEN_BREAKS, 4, 15),
    (WORDS_BETWEEN_BREAKS, 5, 21),
    (WORDS_WITH_CRLF, 0, 0),
    (WORDS_WITH_CRLF, 1, 6),
    (WORDS_WITH_CRLF, 2, 11),
    (WORDS_WITH_CRLF, 3, 17),
    (TWO_SCRIPTS, 0, 0),
    (TWO_SCRIPTS, 1, 32),
    (TWO_SCRIPTS, 2, 59),
    (TWO_SCRIPTS, 3, 88),
    (TWO_SCRIPTS, 4, 124),
    (TWO_SCRIPTS, 5, 124),
    (TWO_SCRIPTS, 6, 124),
    ("a\r\nb", 1, 3),
];

#[test]
fn a_line_begins_after_a_break(rt: HostRuntime) {
    rows::to_bytes(&rt, Scheme::Lf, BEGINS);
}

const REPEATED_TEXTS: &[RepeatedRow] = &[
    ("\n", 4097, 4097, 4096, 4096),
    ("\n", 4097, 4097, 4098, 4097),
];

#[test]
fn each_of_many_line_feeds_counts(rt: HostRuntime) -> Result<(), Fail> {
    rows::repeated_texts(&rt, rt.alloc(), Scheme::Lf, REPEATED_TEXTS)
}

#[test]
fn a_line_and_where_it_begins_convert_to_each_other(rt: HostRuntime) {
    let text = WORDS_BETWEEN_BREAKS;
    rows::round_trips(
        &rt,
        Scheme::Lf,
        &[(text, 0, 0), (text, 6, 2), (text, 21, 5)],
    );
}

/// The bytes of `WORDS_BETWEEN_BREAKS` where a line begins or ends, each with its line.
const BYTES_AND_LINES: [Row; 10] = [
    (WORDS_BETWEEN_BREAKS, 0, 0),
    (WORDS_BETWEEN_BREAKS, 1, 1),
    (WORDS_BETWEEN_BREAKS, 5, 1),
    (WORDS_BETWEEN_BREAKS, 6, 2),
    (WORDS_BETWEEN_BREAKS, 9, 2),
    (WORDS_BETWEEN_BREAKS, 10, 3),
    (WORDS_BETWEEN_BREAKS, 14, 3),
    (WORDS_BETWEEN_BREAKS, 15, 4),
    (WORDS_BETWEEN_BREAKS, 20, 4),
    (WORDS_BETWEEN_BREAKS, 21, 5),
];

const AFTER_ANY_LEAD: KernelRows = KernelRows {
    scheme: Scheme::Lf,
    leads: 23,
    counts: &BYTES_AND_LINES,
    from: &BYTES_AND_LINES,
    to: &[
        (WORDS_BETWEEN_BREAKS, 0, 0),
        (WORDS_BETWEEN_BREAKS, 1, 1),
        (WORDS_BETWEEN_BREAKS, 2, 6),
        (WORDS_BETWEEN_BREAKS, 3, 10),
        (WORDS_BETWEEN_BREAKS, 4, 15),
        (WORDS_BETWEEN_BREAKS, 5, 21),
    ],
};

#[test]
fn any_number_of_leading_bytes_gives_one_answer(rt: HostRuntime) {
    rows::answer_over_each_chunk(&rt, &AFTER_ANY_LEAD);
}

const ENDING_WITH_FOUR_CHUNKS: KernelRows = KernelRows {
    scheme: Scheme::Lf,
    leads: 131,
    // an end may stand inside a char
    counts: &[("é\n", 1, 0), ("é\n", 2, 0), ("é\n", 3, 1)],
    from: &[
        (LINE_OF_64, 63, 0),
        (LINE_OF_64, 64, 1),
        (LINE_OF_65, 64, 0),
        (LINE_OF_65, 65, 1),
        (LINE_OF_128, 127, 0),
        (LINE_OF_128, 128, 1),
        (LINE_OF_129, 128, 0),
        (LINE_OF_129, 129, 1),
    ],
    to: &[
        (LINE_OF_64, 1, 64),
        (LINE_OF_65, 1, 65),
        (LINE_OF_128, 1, 128),
        (LINE_OF_129, 1, 129),
    ],
};

#[test]
fn a_line_may_end_where_four_chunks_do(rt: HostRuntime) {
    rows::answer_over_each_chunk(&rt, &ENDING_WITH_FOUR_CHUNKS);
}
