//! Tables of scalar values.
use super::rows::{self, Asked, KernelRows, RangeRow, Row};
use str_indices::Scheme;
use str_indices::chars::{from_byte_idx, to_byte_idx};

const ENGLISH_AND_JAPANESE: &str =
    "Hello there!  How're you doing?\nIt's a fine day, isn't it?\nAren't you glad we're alive?\nこんにちは、みんなさん！";

const HELLO: &str = "Hello せかい!";

const SEKAI: &str = "せかい";

const REPEATED: &str =
    "Hello world! Hello せかい! Hello world! Hello せかい! Hello world! Hello せかい! Hello world! Hello せかい! Hello world! Hello せかい! Hello world! Hello せかい! Hello world! Hello せかい! Hello world! Hello せかい!";

const AROUND_FROG: &str = "aaaaaaa🐸b";

const FROG_BEHIND_FIFTEEN: &str = "aaaaaaaaaaaaaaa🐸b";

const TEXTS: &[(&str, usize)] = &[
    (ENGLISH_AND_JAPANESE, 100),
    ("", 0),
    (HELLO, 10),
    (REPEATED, 191),
    ("Hello せかい! Hello せかい! Hello せかい! Hello せかい! Hello せかい!", 54),
    ("Hello world!", 12),
    (SEKAI, 3),
    ("h", 1),
    ("hi", 2),
];

#[test]
fn counts_whole_texts(rt: HostRuntime) {
    rows::count_texts(&rt, Scheme::Chars, TEXTS);
}

const BYTES: &[RangeRow] = &[
    (HELLO, 0, 1, 0),
    (HELLO, 1, 2, 1),
    (HELLO, 6, 9, 6),
    (HELLO, 9, 12, 7),
    (HELLO, 12, 15, 8),
    (HELLO, 15, 16, 9),
    (HELLO, 16, 20, 10),
    ("h", 0, 1, 0),
    ("h", 1, 3, 1),
    (SEKAI, 0, 3, 0),
    (SEKAI, 3, 6, 1),
    (SEKAI, 6, 9, 2),
    (SEKAI, 9, 13, 3),
    ("", 0, 2, 0),
    ("hi", 0, 1, 0),
    ("hi", 1, 2, 1),
    ("hi", 2, 4, 2),
    (ENGLISH_AND_JAPANESE, 124, 130, 100),
];

#[test]
fn byte_inside_a_char_is_of_that_char(rt: HostRuntime) {
    rows::from_bytes(&rt, Scheme::Chars, BYTES);
}

const BEGINS: &[Row] = &[
    (HELLO, 0, 0),
    (HELLO, 1, 1),
    (HELLO, 2, 2),
    (HELLO, 5, 5),
    (HELLO, 6, 6),
    (HELLO, 8, 12),
    (HELLO, 9, 15),
    (HELLO, 10, 16),
    ("Hello world!", 0, 0),
    ("Hello world!", 1, 1),
    ("Hello world!", 8, 8),
    ("Hello world!", 11, 11),
    ("Hello world!", 12, 12),
    (SEKAI, 0, 0),
    (SEKAI, 1, 3),
    (SEKAI, 2, 6),
    (SEKAI, 3, 9),
    (REPEATED, 0, 0),
    (REPEATED, 24, 30),
    (REPEATED, 48, 60),
    (REPEATED, 72, 90),
    (REPEATED, 93, 115),
    (REPEATED, 96, 120),
    (REPEATED, 120, 150),
    (REPEATED, 144, 180),
    (REPEATED, 168, 210),
    (REPEATED, 191, 239),
    ("", 0, 0),
];

#[test]
fn char_begins_at_its_byte(rt: HostRuntime) {
    rows::to_bytes(&rt, Scheme::Chars, BEGINS);
}

/// The index of a byte of `ENGLISH_AND_JAPANESE`: after 88 chars of one byte are those of three.
fn char_of(byte: usize) -> usize {
    if byte < 88 {
        byte
    } else {
        88 + (byte - 88) / 3
    }
}

/// The byte where a char of `ENGLISH_AND_JAPANESE` begins.
fn byte_of(index: usize) -> usize {
    if index < 88 {
        index
    } else if index < 100 {
        88 + 3 * (index - 88)
    } else {
        124
    }
}

#[test]
fn ascii_and_wide_chars_of_one_text(rt: HostRuntime) {
    let text = ENGLISH_AND_JAPANESE;
    for index in 0..125 {
        let asked = Asked::at(Scheme::Chars, text, index);
        rows::same_at(
            &rt,
            "from",
            asked,
            from_byte_idx(text, index),
            char_of(index),
        );
        rows::same_at(&rt, "to", asked, to_byte_idx(text, index), byte_of(index));
    }
}

const AFTER_ANY_LEAD: KernelRows = KernelRows {
    scheme: Scheme::Chars,
    leads: 241,
    counts: &[
        (AROUND_FROG, 12, 9),
        (AROUND_FROG, 11, 8),
        (AROUND_FROG, 7, 7),
        (AROUND_FROG, 0, 0),
        (FROG_BEHIND_FIFTEEN, 20, 17),
        (FROG_BEHIND_FIFTEEN, 19, 16),
        (FROG_BEHIND_FIFTEEN, 15, 15),
        (REPEATED, 239, 191),
    ],
    from: &[
        (AROUND_FROG, 7, 7),
        (AROUND_FROG, 8, 7),
        (AROUND_FROG, 10, 7),
        (AROUND_FROG, 11, 8),
        (AROUND_FROG, 12, 9),
        (AROUND_FROG, 13, 9),
        (FROG_BEHIND_FIFTEEN, 18, 15),
        (FROG_BEHIND_FIFTEEN, 19, 16),
        (FROG_BEHIND_FIFTEEN, 20, 17),
    ],
    to: &[
        (AROUND_FROG, 7, 7),
        (AROUND_FROG, 8, 11),
        (AROUND_FROG, 9, 12),
        (AROUND_FROG, 10, 12),
        (FROG_BEHIND_FIFTEEN, 15, 15),
        (FROG_BEHIND_FIFTEEN, 16, 19),
        (FROG_BEHIND_FIFTEEN, 17, 20),
        (REPEATED, 191, 239),
    ],
};

#[test]
fn kernels_answer_after_any_lead(rt: HostRuntime) {
    rows::answer_over_each_chunk(&rt, &AFTER_ANY_LEAD);
}
