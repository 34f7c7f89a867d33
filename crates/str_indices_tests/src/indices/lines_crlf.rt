//! Tables of lines by LF, CR and CRLF.
use super::rows::{self, KernelRows, RangeRow, RepeatedRow, Row};
use std::test::Fail;
use str_indices::Scheme;

const WORDS: &str = "Here\nare\nsome\nwords";

const WORDS_WITH_CRLF: &str = "Here\r\nare\r\nsome\r\nwords";

const WORDS_BETWEEN_BREAKS: &str = "\nHere\nare\nsome\nwords\n";

const TWO_SCRIPTS: &str =
    "Hello there!  How're you doing?\nIt's a fine day, isn't it?\nAren't you glad we're alive?\nこんにちは、みんなさん！";

const BREAKS_AROUND_CRLF: &str = "\r\r\n\n";

const CRLF_ACROSS_CHUNKS: &str = "aaaaaaa\r\nbbbbbbb";

const CRLF_BEFORE_THE_LAST: &str = "aaaaaaa\r\nb";

const CRLF_ACROSS_32: &str = "aaaaaaaaaaaaaaaaaaaaaaaaaaaaaaa\r\nb";

const TEXTS: &[(&str, usize)] = &[
    (
        "\u{A}Hello\u{D}\u{A}せ\u{B}か\u{C}い\u{85}. There\u{A}is something.\u{2029}",
        3,
    ),
    (BREAKS_AROUND_CRLF, 3),
    ("", 0),
];

#[test]
fn counts_whole_texts(rt: HostRuntime) {
    rows::count_texts(&rt, Scheme::Crlf, TEXTS);
}

const BYTES: &[RangeRow] = &[
    ("", 0, 1, 0),
    (WORDS, 0, 5, 0),
    (WORDS, 5, 9, 1),
    (WORDS, 9, 14, 2),
    (WORDS, 14, 20, 3),
    (WORDS_BETWEEN_BREAKS, 0, 1, 0),
    (WORDS_BETWEEN_BREAKS, 1, 6, 1),
    (WORDS_BETWEEN_BREAKS, 6, 10, 2),
    (WORDS_BETWEEN_BREAKS, 10, 15, 3),
    (WORDS_BETWEEN_BREAKS, 15, 21, 4),
    (WORDS_BETWEEN_BREAKS, 21, 22, 5),
    (BREAKS_AROUND_CRLF, 0, 1, 0),
    (BREAKS_AROUND_CRLF, 1, 3, 1),
    (BREAKS_AROUND_CRLF, 3, 4, 2),
    (BREAKS_AROUND_CRLF, 4, 5, 3),
    (TWO_SCRIPTS, 0, 32, 0),
    (TWO_SCRIPTS, 32, 59, 1),
    (TWO_SCRIPTS, 59, 88, 2),
    (TWO_SCRIPTS, 88, 130, 3),
];

#[test]
fn break_belongs_to_the_line_that_it_ends(rt: HostRuntime) {
    rows::from_bytes(&rt, Scheme::Crlf, BYTES);
}

const BYTES_OF_CRLF: &[RangeRow] = &[
    (WORDS_WITH_CRLF, 0, 6, 0),
    (WORDS_WITH_CRLF, 6, 11, 1),
    (WORDS_WITH_CRLF, 11, 17, 2),
    (WORDS_WITH_CRLF, 17, 18, 3),
    ("a\r\nb", 2, 3, 0),
    ("a\r\nb", 3, 4, 1),
];

#[test]
fn byte_inside_crlf_is_on_the_line_that_it_ends(rt: HostRuntime) {
    rows::from_bytes(&rt, Scheme::Crlf, BYTES_OF_CRLF);
}

const BEGINS: &[Row] = &[
    ("", 0, 0),
    (WORDS_WITH_CRLF, 0, 0),
    (WORDS_WITH_CRLF, 1, 6),
    (WORDS_WITH_CRLF, 2, 11),
    (WORDS_WITH_CRLF, 3, 17),
    (WORDS_BETWEEN_BREAKS, 0, 0),
    (WORDS_BETWEEN_BREAKS, 1, 1),
    (WORDS_BETWEEN_BREAKS, 2, 6),
    (WORDS_BETWEEN_BREAKS, 3, 10),
    (WORDS_BETWEEN_BREAKS, 4, 15),
    (WORDS_BETWEEN_BREAKS, 5, 21),
    (TWO_SCRIPTS, 0, 0),
    (TWO_SCRIPTS, 1, 32),
    (TWO_SCRIPTS, 2, 59),
    (TWO_SCRIPTS, 3, 88),
    (TWO_SCRIPTS, 4, 124),
    (TWO_SCRIPTS, 5, 124),
    (TWO_SCRIPTS, 6, 124),
    (BREAKS_AROUND_CRLF, 0, 0),
    (BREAKS_AROUND_CRLF, 1, 1),
    (BREAKS_AROUND_CRLF, 2, 3),
    (BREAKS_AROUND_CRLF, 3, 4),
    (BREAKS_AROUND_CRLF, 4, 4),
    ("a\r\nb", 1, 3),
    ("a\u{2028}b", 1, 5),
];

#[test]
fn line_begins_after_a_break(rt: HostRuntime) {
    rows::to_bytes(&rt, Scheme::Crlf, BEGINS);
}

const REPEATED_TEXTS: &[RepeatedRow] = &[
    ("\n", 4097, 4097, 4096, 4096),
    ("\n", 4097, 4097, 4098, 4097),
];

#[test]
fn each_of_many_line_feeds_counts(rt: HostRuntime) -> Result<(), Fail> {
    rows::repeated_texts(&rt, rt.alloc(), Scheme::Crlf, REPEATED_TEXTS)
}

#[test]
fn line_and_where_it_begins_convert_to_each_other(rt: HostRuntime) {
    let text = WORDS_BETWEEN_BREAKS;
    rows::round_trips(
        &rt,
        Scheme::Crlf,
        &[(text, 0, 0), (text, 6, 2), (text, 21, 5)],
    );
}

const AFTER_ANY_LEAD: KernelRows = KernelRows {
    scheme: Scheme::Crlf,
    leads: 36,
    counts: &[
        ("a\r\nb", 1, 0),
        ("a\r\nb", 2, 1),
        ("a\r\nb", 3, 1),
        ("a\r\nb", 4, 1),
        (BREAKS_AROUND_CRLF, 4, 3),
        (CRLF_ACROSS_CHUNKS, 16, 1),
        (CRLF_BEFORE_THE_LAST, 8, 1),
        (CRLF_BEFORE_THE_LAST, 9, 1),
        (CRLF_BEFORE_THE_LAST, 10, 1),
        (CRLF_ACROSS_32, 31, 0),
        (CRLF_ACROSS_32, 32, 1),
        (CRLF_ACROSS_32, 33, 1),
        (CRLF_ACROSS_32, 34, 1),
    ],
    from: &[
        (CRLF_ACROSS_CHUNKS, 8, 0),
        (CRLF_ACROSS_CHUNKS, 9, 1),
        (CRLF_BEFORE_THE_LAST, 8, 0),
        (CRLF_BEFORE_THE_LAST, 9, 1),
        (CRLF_BEFORE_THE_LAST, 10, 1),
        (CRLF_ACROSS_32, 32, 0),
        (CRLF_ACROSS_32, 33, 1),
    ],
    to: &[
        (CRLF_ACROSS_CHUNKS, 0, 0),
        (CRLF_ACROSS_CHUNKS, 1, 9),
        (CRLF_ACROSS_CHUNKS, 2, 16),
        (CRLF_BEFORE_THE_LAST, 1, 9),
        (CRLF_BEFORE_THE_LAST, 2, 10),
        (CRLF_ACROSS_32, 1, 33),
        (CRLF_ACROSS_32, 2, 34),
    ],
};

#[test]
fn kernels_answer_after_any_lead(rt: HostRuntime) {
    rows::answer_over_each_chunk(&rt, &AFTER_ANY_LEAD);
}
