//! Tables of UTF-16 code units.
use super::rows::{self, Asked, KernelRows, RangeRow, RepeatedRow, Row};
use crate::chunks::half_word::HalfWord;
use crate::chunks::widest::Widest;
use byte_chunk::{ByteChunk, Plain};
use std::process::Abort;
use std::simd::{u8x16, u8x32};
use std::test::Fail;
use str_indices::Scheme;
use str_indices::utf16::count_surrogates;

const TEXT: &str = "Hel🐸lo world! こん🐸にち🐸🐸は!";

const AROUND_FROG: &str = "aaaaaaa🐸b";

const FROG_BEHIND_FIFTEEN: &str = "aaaaaaaaaaaaaaa🐸b";

const BYTES_OF_CHARS: &[(&str, &[u8])] = &[
    ("\u{85}", b"\xC2\x85"),
    ("\u{2028}", b"\xE2\x80\xA8"),
    ("\u{2029}", b"\xE2\x80\xA9"),
    ("せ", b"\xE3\x81\x9B"),
    ("🐸", b"\xF0\x9F\x90\xB8"),
];

#[test]
fn chars_have_the_bytes_of_the_table(rt: HostRuntime) {
    for &(text, bytes) in BYTES_OF_CHARS {
        assert!(rt; text.as_bytes() == bytes, "{text}");
    }
}

const TEXTS: &[(&str, usize)] = &[
    ("\u{85}", 1),
    ("\u{2028}", 1),
    ("\u{2029}", 1),
    ("せ", 1),
    ("🐸", 2),
    ("", 0),
    (TEXT, 27),
];

#[test]
fn counts_whole_texts(rt: HostRuntime) {
    rows::count_texts(&rt, Scheme::Utf16, TEXTS);
}

/// A text, how often it is repeated, and how many pairs there are.
const PAIRS_OF_TEXTS: &[Row] = &[
    ("\u{85}", 1, 0),
    ("\u{2028}", 1, 0),
    ("\u{2029}", 1, 0),
    ("せ", 1, 0),
    ("🐸", 1, 1),
    ("", 1, 0),
    (TEXT, 1, 4),
    ("🐸", 1025, 1025),
];

#[test]
fn a_char_of_four_bytes_takes_a_pair(rt: HostRuntime) -> Result<(), Fail> {
    for &(unit, times, pairs) in PAIRS_OF_TEXTS {
        let text = &unit.repeat(rt.alloc(), times)?;
        let found = count_surrogates(text);
        let asked = Asked::at(Scheme::Utf16, text, text.len());
        rows::same_at(&rt, "pairs before", asked, found, pairs);
    }
    Ok(())
}

const PAIRS: &[Row] = &[
    ("🐸🐸", 0, 0),
    ("🐸🐸", 4, 1),
    ("🐸🐸", 8, 2),
    (AROUND_FROG, 7, 0),
    (AROUND_FROG, 11, 1),
    (AROUND_FROG, 12, 1),
    (FROG_BEHIND_FIFTEEN, 15, 0),
    (FROG_BEHIND_FIFTEEN, 19, 1),
    (FROG_BEHIND_FIFTEEN, 20, 1),
];

fn count_pairs<T: ByteChunk>(rt: &impl Abort, lead: usize) {
    for &(text, index, pairs) in PAIRS {
        rows::pairs_are::<T>(
            rt,
            Asked::new(Scheme::Utf16, text, index, lead),
            Some(pairs),
        );
    }
}

#[test]
fn kernels_count_pairs_after_any_lead(rt: HostRuntime) {
    for lead in 0..22 {
        count_pairs::<HalfWord>(&rt, lead);
        count_pairs::<Plain>(&rt, lead);
        count_pairs::<usize>(&rt, lead);
        count_pairs::<u128>(&rt, lead);
        count_pairs::<u8x16>(&rt, lead);
        count_pairs::<u8x32>(&rt, lead);
        count_pairs::<Widest>(&rt, lead);
    }
}

const AFTER_ANY_LEAD: KernelRows = KernelRows {
    scheme: Scheme::Utf16,
    leads: 22,
    counts: &[
        ("🐸🐸", 0, 0),
        ("🐸🐸", 4, 2),
        ("🐸🐸", 8, 4),
        (AROUND_FROG, 7, 7),
        (AROUND_FROG, 11, 9),
        (AROUND_FROG, 12, 10),
        (FROG_BEHIND_FIFTEEN, 15, 15),
        (FROG_BEHIND_FIFTEEN, 19, 17),
        (FROG_BEHIND_FIFTEEN, 20, 18),
    ],
    from: &[
        (AROUND_FROG, 7, 7),
        (AROUND_FROG, 8, 7),
        (AROUND_FROG, 10, 7),
        (AROUND_FROG, 11, 9),
        (AROUND_FROG, 12, 10),
        (AROUND_FROG, 13, 10),
        (FROG_BEHIND_FIFTEEN, 18, 15),
        (FROG_BEHIND_FIFTEEN, 19, 17),
        (FROG_BEHIND_FIFTEEN, 20, 18),
    ],
    to: &[
        (AROUND_FROG, 7, 7),
        (AROUND_FROG, 8, 7),
        (AROUND_FROG, 9, 11),
        (AROUND_FROG, 10, 12),
        (AROUND_FROG, 11, 12),
        (FROG_BEHIND_FIFTEEN, 15, 15),
        (FROG_BEHIND_FIFTEEN, 16, 15),
        (FROG_BEHIND_FIFTEEN, 17, 19),
        (FROG_BEHIND_FIFTEEN, 18, 20),
    ],
};

#[test]
fn kernels_answer_after_any_lead(rt: HostRuntime) {
    rows::answer_over_each_chunk(&rt, &AFTER_ANY_LEAD);
}

const BYTES: &[RangeRow] = &[
    ("", 0, 1, 0),
    (TEXT, 0, 1, 0),
    (TEXT, 3, 7, 3),
    (TEXT, 7, 8, 5),
    (TEXT, 9, 10, 7),
    (TEXT, 23, 27, 17),
    (TEXT, 27, 28, 19),
    (TEXT, 33, 37, 21),
    (TEXT, 37, 41, 23),
    (TEXT, 41, 42, 25),
    (TEXT, 45, 47, 27),
];

#[test]
fn a_byte_inside_a_char_has_the_units_before_that_char(rt: HostRuntime) {
    rows::from_bytes(&rt, Scheme::Utf16, BYTES);
}

const BEGINS: &[Row] = &[
    ("", 0, 0),
    (TEXT, 0, 0),
    (TEXT, 3, 3),
    (TEXT, 4, 3),
    (TEXT, 5, 7),
    (TEXT, 7, 9),
    (TEXT, 17, 23),
    (TEXT, 18, 23),
    (TEXT, 19, 27),
    (TEXT, 21, 33),
    (TEXT, 22, 33),
    (TEXT, 23, 37),
    (TEXT, 24, 37),
    (TEXT, 25, 41),
    (TEXT, 27, 45),
    (TEXT, 28, 45),
    (AROUND_FROG, 7, 7),
    (AROUND_FROG, 8, 7),
    (AROUND_FROG, 9, 11),
    (AROUND_FROG, 10, 12),
    (AROUND_FROG, 11, 12),
];

#[test]
fn the_second_unit_of_a_pair_is_at_the_byte_of_its_char(rt: HostRuntime) {
    rows::to_bytes(&rt, Scheme::Utf16, BEGINS);
}

const REPEATED_TEXTS: &[RepeatedRow] = &[
    ("🐸", 1025, 2050, 2049, 4096),
    ("🐸", 1025, 2050, 2050, 4100),
    ("🐸", 300, 600, 598, 1196),
    ("🐸", 300, 600, 599, 1196),
    ("🐸", 300, 600, 600, 1200),
    ("a", 600, 600, 511, 511),
    ("a", 600, 600, 600, 600),
    ("a", 600, 600, 601, 600),
];

#[test]
fn texts_of_many_chunks_are_counted_in_rounds(rt: HostRuntime) -> Result<(), Fail> {
    rows::repeated_texts(&rt, rt.alloc(), Scheme::Utf16, REPEATED_TEXTS)
}

/// How many letters, a number of leading bytes, a unit and its byte.
const LETTERS: &[(usize, usize, usize, usize)] = &[
    (32, 0, 15, 15),
    (32, 0, 16, 16),
    (32, 0, 17, 17),
    (32, 0, 33, 32),
    (32, 1, 16, 16),
    // 120 holds the greatest lane that is summed, 15, eight times, and eight chunks have 128 letters
    (300, 0, 119, 119),
    (300, 0, 120, 120),
    (300, 0, 127, 127),
    (300, 0, 128, 128),
    (300, 0, 129, 129),
    (300, 0, 255, 255),
    (300, 0, 256, 256),
    (300, 0, 300, 300),
];

#[test]
fn an_index_is_reached_where_max_acc_is_below_size(rt: HostRuntime) -> Result<(), Fail> {
    for &(letters, lead, index, byte) in LETTERS {
        let text = &"a".repeat(rt.alloc(), letters)?;
        rows::to_is::<u128>(&rt, Asked::new(Scheme::Utf16, text, index, lead), byte);
    }
    Ok(())
}
