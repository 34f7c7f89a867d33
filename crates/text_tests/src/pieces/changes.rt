//! Changes as tables: what each says, and what the text answers then.
use super::Change::{self, Insert, Push, Remove, Split};
use super::{answers, make};
use piece_text::Scheme::{self, Crlf, Lf, Lines, Utf16};
use piece_text::{PieceText, Refusal};
use std::alloc::Global;
use std::process::Abort;

/// A question to a text.
#[derive(Clone, Copy, Debug)]
enum Question {
    Len,
    Count(Scheme),
    FromByteIdx(Scheme, usize),
    ToByteIdx(Scheme, usize),
}

/// A change, what it says, how many pieces there are then, and some answers then.
type Step = (
    Change,
    Result<(), Refusal>,
    usize,
    &'static [(Question, usize)],
);

fn answer(text: &PieceText, question: Question) -> usize {
    match question {
        Question::Len => text.len(),
        Question::Count(s) => text.count(s),
        Question::FromByteIdx(s, b) => text.from_byte_idx(s, b),
        Question::ToByteIdx(s, k) => text.to_byte_idx(s, k),
    }
}

/// Compares what a text answers after a change with a table.
fn assert_answers(rt: &impl Abort, text: &PieceText, table: &[(Question, usize)]) {
    for row in table {
        let (question, wanted) = *row;
        assert_eq!(rt; answer(text, question), wanted, "{question:?}");
    }
}

/// Makes a change, which has to change nothing where it is refused.
fn make_or_keep(rt: &impl Abort, text: &mut PieceText, change: Change) -> Result<(), Refusal> {
    let before = answers(text);
    let result = make(text, change);
    if result.is_err() {
        assert!(rt; answers(text) == before, "{change:?}");
    }
    result
}

fn assert_step(rt: &impl Abort, text: &mut PieceText, step: &Step) {
    let (change, result, pieces, table) = *step;
    let found = make_or_keep(rt, text, change);
    assert_eq!(rt; (found, text.pieces()), (result, pieces), "{change:?}");
    assert_answers(rt, text, table);
}

/// Makes the changes of a table, from the text without pieces on.
fn make_steps(rt: &impl Abort, alloc: Global, steps: &[Step]) -> PieceText {
    let mut text = PieceText::new(alloc);
    for step in steps {
        assert_step(rt, &mut text, step);
    }
    text
}

fn assert_steps(rt: &impl Abort, alloc: Global, steps: &[Step]) {
    make_steps(rt, alloc, steps);
}

const TWO_BREAKS_AT_SEAMS: &[(Question, usize)] = &[
    (Question::Len, 6),
    (Question::Count(Lf), 2),
    (Question::Count(Crlf), 2),
    (Question::Count(Lines), 2),
    (Question::FromByteIdx(Crlf, 2), 0),
    (Question::FromByteIdx(Crlf, 3), 1),
    (Question::FromByteIdx(Crlf, 4), 1),
    (Question::FromByteIdx(Crlf, 5), 2),
    (Question::ToByteIdx(Crlf, 1), 3),
    (Question::ToByteIdx(Crlf, 2), 5),
    (Question::ToByteIdx(Crlf, 3), 6),
];

const ONE_SEAM_LESS: &[(Question, usize)] = &[
    (Question::Count(Crlf), 3),
    (Question::Count(Lf), 2),
    (Question::ToByteIdx(Crlf, 1), 2),
    (Question::ToByteIdx(Crlf, 2), 4),
    (Question::ToByteIdx(Crlf, 3), 6),
];

#[test]
fn breaks_at_seams_count_once(rt: HostRuntime) {
    const STEPS: &[Step] = &[
        (Push("a\r"), Ok(()), 1, &[]),
        (Push("\n"), Ok(()), 2, &[]),
        (Push("\r"), Ok(()), 3, &[]),
        (Push("\nb"), Ok(()), 4, TWO_BREAKS_AT_SEAMS),
        (Insert(1, "x"), Ok(()), 5, ONE_SEAM_LESS),
        (Insert(9, "x"), Err(Refusal::NoPiece), 5, ONE_SEAM_LESS),
    ];
    assert_steps(&rt, rt.alloc(), STEPS);
}

const ONE_CRLF: &[(Question, usize)] = &[
    (Question::Count(Crlf), 1),
    (Question::FromByteIdx(Crlf, 2), 0),
    (Question::ToByteIdx(Crlf, 1), 3),
];

#[test]
fn a_crlf_of_two_pieces_is_one_break(rt: HostRuntime) {
    const STEPS: &[Step] = &[
        (Push("a\r"), Ok(()), 1, &[]),
        (Push("\nb"), Ok(()), 2, &[]),
        (Split(0), Ok(()), 2, ONE_CRLF),
        (Split(1), Ok(()), 3, ONE_CRLF),
        (Split(2), Ok(()), 3, ONE_CRLF),
        (Split(4), Ok(()), 3, ONE_CRLF),
        (Split(5), Err(Refusal::NotBoundary), 3, ONE_CRLF),
    ];
    assert_steps(&rt, rt.alloc(), STEPS);
}

#[test]
fn a_crlf_is_cut_in_two(rt: HostRuntime) {
    const STEPS: &[Step] = &[
        (Push("a\r\nb"), Ok(()), 1, &[]),
        (Split(2), Ok(()), 2, ONE_CRLF),
    ];
    assert_steps(&rt, rt.alloc(), STEPS);
}

#[test]
fn splits_at_edges_inside_and_past_the_end(rt: HostRuntime) {
    const STEPS: &[Step] = &[
        (Push("ab"), Ok(()), 1, &[]),
        (Push("cd"), Ok(()), 2, &[]),
        (Split(2), Ok(()), 2, &[]),
        (Split(3), Ok(()), 3, &[]),
        (Split(5), Err(Refusal::NotBoundary), 3, &[]),
    ];
    assert_steps(&rt, rt.alloc(), STEPS);
    const INSIDE: &[Step] = &[
        (Push("é"), Ok(()), 1, &[]),
        (Split(1), Err(Refusal::NotBoundary), 1, &[]),
    ];
    assert_steps(&rt, rt.alloc(), INSIDE);
}

#[test]
fn a_piece_less_makes_one_break_of_two(rt: HostRuntime) {
    const STEPS: &[Step] = &[
        (Push("a\r"), Ok(()), 1, &[]),
        (Push("x"), Ok(()), 2, &[]),
        (Push("\nb"), Ok(()), 3, &[(Question::Count(Crlf), 2)]),
        (Remove(1), Ok(()), 2, &[(Question::Count(Crlf), 1)]),
    ];
    assert_steps(&rt, rt.alloc(), STEPS);
}

const UNITS: &[(Question, usize)] = &[
    (Question::Count(Utf16), 27),
    (Question::FromByteIdx(Utf16, 26), 17),
    (Question::ToByteIdx(Utf16, 18), 23),
    (Question::ToByteIdx(Utf16, 28), 45),
];

#[test]
fn units_of_a_text_in_two_pieces(rt: HostRuntime) {
    const STEPS: &[Step] = &[
        (Push("Hel🐸lo"), Ok(()), 1, &[]),
        (Push(" world! こん🐸にち🐸🐸は!"), Ok(()), 2, UNITS),
    ];
    assert_steps(&rt, rt.alloc(), STEPS);
}

/// Compares what a text of no bytes answers in each scheme, before its end and past it.
fn assert_nothing(rt: &impl Abort, text: &PieceText) {
    for s in Scheme::ALL {
        let nothing = [
            (Question::Count(s), 0),
            (Question::FromByteIdx(s, 1), 0),
            (Question::ToByteIdx(s, 1), 0),
        ];
        assert_answers(rt, text, &nothing);
    }
}

#[test]
fn empty_texts_are_no_pieces(rt: HostRuntime) {
    const STEPS: &[Step] = &[
        (Remove(0), Err(Refusal::NoPiece), 0, &[]),
        (Insert(1, ""), Err(Refusal::NoPiece), 0, &[]),
        (Insert(0, ""), Ok(()), 0, &[]),
        (Push(""), Ok(()), 0, &[]),
        (Split(0), Ok(()), 0, &[]),
    ];
    let text = make_steps(&rt, rt.alloc(), STEPS);
    assert_nothing(&rt, &text);
}
