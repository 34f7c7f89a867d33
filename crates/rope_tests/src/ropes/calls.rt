//! Each call of a rope, with worked answers.
use super::{Change, assert_same, lines, make};
use std::alloc::{AllocError, Global};
use std::process::Abort;
use std::test::Fail;
use text_rope::Refusal::{NotBoundary, NotOrdered, TooLong};
use text_rope::Scheme::{self, Chars, Crlf, Lf, Lines, Utf16};
use text_rope::{
    ChunkAt, ChunkCursor, Chunks, Refusal, Rope, count_in, from_in, is_boundary_in, to_in,
};

/// A scheme with its count, a byte index with its answer, and an index with its byte.
type Answers = (Scheme, usize, (usize, usize), (usize, usize));

/// A text with chars of one, three and four bytes.
const FROGS: &str = "Hel🐸lo world! こん🐸にち🐸🐸は!";

const OF_FROGS: [Answers; 5] = [
    (Chars, 23, (7, 4), (4, 7)),
    (Utf16, 27, (26, 17), (18, 23)),
    (Lf, 0, (45, 0), (1, 45)),
    (Crlf, 0, (45, 0), (1, 45)),
    (Lines, 0, (45, 0), (1, 45)),
];

/// A text with three kinds of breaks.
const BREAKS: &str = "a\r\nb\u{2028}\r";

const OF_BREAKS: [Answers; 5] = [
    (Chars, 6, (7, 5), (5, 7)),
    (Utf16, 6, (7, 5), (6, 8)),
    (Lf, 1, (3, 1), (1, 3)),
    (Crlf, 2, (2, 0), (2, 8)),
    (Lines, 3, (7, 2), (2, 7)),
];

const OF_NO_TEXT: [Answers; 5] = [
    (Chars, 0, (1, 0), (1, 0)),
    (Utf16, 0, (1, 0), (1, 0)),
    (Lf, 0, (1, 0), (1, 0)),
    (Crlf, 0, (1, 0), (1, 0)),
    (Lines, 0, (1, 0), (1, 0)),
];

/// Compares a count, an index and a byte with those of a row.
fn assert_found(rt: &impl Abort, s: Scheme, found: [usize; 3], wanted: [usize; 3]) {
    assert!(rt; found == wanted, "{s:?} {found:?}");
}

/// Asks a rope.
fn ask(rope: &Rope, s: Scheme, byte_idx: usize, idx: usize) -> [usize; 3] {
    [
        rope.count(s),
        rope.from_byte_idx(s, byte_idx),
        rope.to_byte_idx(s, idx),
    ]
}

/// Asks the view of a rope.
fn ask_view(rope: &Rope, s: Scheme, byte_idx: usize, idx: usize) -> [usize; 3] {
    let view = &mut rope.view();
    [
        count_in(view, s),
        from_in(view, s, byte_idx),
        to_in(view, s, idx),
    ]
}

fn assert_length(rt: &impl Abort, rope: &Rope, text: &str) {
    let found = (rope.len(), rope.view().len(), rope.is_empty());
    assert!(rt;
        found == (text.len(), text.len(), text.is_empty()),
        "{found:?}"
    );
}

/// Asks a rope, and its view.
fn assert_answers(rt: &impl Abort, rope: &Rope, answers: &[Answers]) {
    for &(s, count, (byte_idx, from), (idx, to)) in answers {
        let wanted = [count, from, to];
        assert_found(rt, s, ask(rope, s, byte_idx, idx), wanted);
        assert_found(rt, s, ask_view(rope, s, byte_idx, idx), wanted);
    }
}

/// Asks a rope of a text.
fn assert_text(
    rt: &impl Abort,
    alloc: Global,
    text: &str,
    answers: &[Answers],
) -> Result<(), Refusal> {
    let rope = Rope::from_str(alloc, text)?;
    assert_length(rt, &rope, text);
    assert_answers(rt, &rope, answers);
    Ok(())
}

#[test]
fn questions(rt: HostRuntime) -> Result<(), Fail> {
    assert_text(&rt, rt.alloc(), FROGS, &OF_FROGS)?;
    assert_text(&rt, rt.alloc(), BREAKS, &OF_BREAKS)?;
    assert_text(&rt, rt.alloc(), "", &OF_NO_TEXT)?;
    Ok(())
}

/// Asks a rope, and its view, whether a byte is a boundary.
fn assert_boundary(rt: &impl Abort, rope: &Rope, byte_idx: usize, wanted: bool) {
    let found = [
        rope.is_char_boundary(byte_idx),
        is_boundary_in(&mut rope.view(), byte_idx),
    ];
    assert!(rt; found == [wanted; 2], "{byte_idx}");
}

fn assert_boundaries(rt: &impl Abort, rope: &Rope, wanted: [bool; 5]) {
    for i in 0..5 {
        assert_boundary(rt, rope, i, wanted[i]);
    }
}

#[test]
fn boundaries(rt: HostRuntime) -> Result<(), Fail> {
    let rope = Rope::from_str(rt.alloc(), "aé")?;
    assert_boundaries(&rt, &rope, [true, true, false, true, false]);
    Ok(())
}

/// Two bytes and a text to put between them, the call's answer, and the text then.
type Step = (
    usize,
    usize,
    &'static str,
    Result<(), Refusal>,
    &'static str,
);

const STEPS: [Step; 14] = [
    (0, 0, "", Ok(()), ""),
    (1, 1, "a", Err(NotBoundary), ""),
    (0, 0, "a\r", Ok(()), "a\r"),
    (2, 2, "\nb", Ok(()), "a\r\nb"),
    (5, 5, "x", Err(NotBoundary), "a\r\nb"),
    (1, 3, "é", Ok(()), "aéb"),
    (2, 3, "x", Err(NotBoundary), "aéb"),
    (1, 2, "", Err(NotBoundary), "aéb"),
    (3, 1, "x", Err(NotOrdered), "aéb"),
    (9, 2, "", Err(NotOrdered), "aéb"),
    (1, 1, "🐸\r", Ok(()), "a🐸\réb"),
    (1, 6, "", Ok(()), "aéb"),
    (3, 4, "", Ok(()), "aé"),
    (0, 3, "", Ok(()), ""),
];

/// Makes a change, and compares what it says, and every answer then.
fn assert_step(rt: &impl Abort, rope: &mut Rope, step: &Step) {
    let (from, to, put, result, text) = *step;
    let change = Change { from, to, put };
    assert_eq!(rt; make(rope, change), result, "{change:?}");
    assert_same(rt, rope, text);
}

#[test]
fn changes(rt: HostRuntime) {
    let mut rope = Rope::new(rt.alloc());
    for step in &STEPS {
        assert_step(&rt, &mut rope, step);
    }
}

/// Whether the chunk that a byte is in is that part of the text.
fn is_part(text: &str, byte_idx: usize, chunk: ChunkAt<'_>) -> bool {
    let end = chunk.start.saturating_add(chunk.text.len());
    chunk.start <= byte_idx && byte_idx < end && text.get(chunk.start..end) == Some(chunk.text)
}

fn assert_chunk_at(rt: &impl Abort, rope: &Rope, text: &str, byte_idx: usize) {
    let is_right = match rope.chunk_at(byte_idx) {
        None => text.len() <= byte_idx,
        Some(chunk) => is_part(text, byte_idx, chunk),
    };
    assert!(rt; is_right, "{byte_idx}");
}

/// Chunks in one text.
fn in_one(alloc: Global, pieces: Chunks<'_>) -> Result<String, AllocError> {
    let mut whole = String::new(alloc);
    for piece in pieces {
        whole.push_str(piece)?;
    }
    Ok(whole)
}

/// The text between two bytes of a rope, from its chunks.
fn part(alloc: Global, rope: &Rope, from: usize, to: usize) -> Result<String, Fail> {
    let pieces = rope.chunks_in(from..to)?;
    Ok(in_one(alloc, pieces)?)
}

fn assert_part(
    rt: &impl Abort,
    alloc: Global,
    rope: &Rope,
    text: &str,
    (from, to): (usize, usize),
) -> Result<(), Fail> {
    let found = part(alloc, rope, from, to)?;
    assert!(rt; text.get(from..to) == Some(found.as_str()), "{from} {to}");
    Ok(())
}

#[test]
fn pieces_of_a_text(rt: HostRuntime) -> Result<(), Fail> {
    let text = lines(rt.alloc(), 60)?;
    let rope = Rope::from_str(rt.alloc(), &text)?;
    for byte_idx in 0..text.len() + 2 {
        assert_chunk_at(&rt, &rope, &text, byte_idx);
    }
    let len = text.len();
    for part in [(0, 0), (0, len), (5, 6), (1, len / 60 * 59), (len, len)] {
        assert_part(&rt, rt.alloc(), &rope, &text, part)?;
    }
    Ok(())
}

/// Up to `most` chunks in one text, from a cursor's on.
fn forwards(alloc: Global, mut cursor: ChunkCursor<'_>, most: usize) -> Result<String, AllocError> {
    let mut whole = String::new(alloc);
    for _ in 0..most {
        whole.push_str(cursor.chunk().text)?;
        if !cursor.next() {
            break;
        }
    }
    Ok(whole)
}

/// The bytes of up to `most` chunks, from a cursor's back.
fn backwards(mut cursor: ChunkCursor<'_>, most: usize) -> usize {
    let mut bytes = 0_usize;
    for _ in 0..most {
        bytes = bytes.saturating_add(cursor.chunk().text.len());
        if !cursor.prev() {
            break;
        }
    }
    bytes
}

fn assert_moved(rt: &impl Abort, cursor: &mut ChunkCursor<'_>, text: &str, byte_idx: usize) {
    let moved = cursor.move_to(byte_idx);
    let is_right = !moved || is_part(text, byte_idx, cursor.chunk());
    assert_eq!(rt; moved, byte_idx < text.len(), "{byte_idx}");
    assert!(rt; is_right, "{byte_idx}");
}

#[test]
fn chunks_by_a_cursor(rt: HostRuntime) -> Result<(), Fail> {
    let text = lines(rt.alloc(), 4000)?;
    let len = text.len();
    let rope = Rope::from_str(rt.alloc(), &text)?;
    assert!(rt; Rope::new(rt.alloc()).cursor_at(0).is_none());
    assert!(rt; rope.cursor_at(0).is_some());
    if let Some(first) = rope.cursor_at(0) {
        let whole = forwards(rt.alloc(), first, len)?;
        assert!(rt; whole.as_str() == text.as_str());
    }
    if let Some(last) = rope.cursor_at(len.saturating_sub(1)) {
        assert_eq!(rt; backwards(last, len), len);
    }
    if let Some(mut cursor) = rope.cursor_at(0) {
        for byte_idx in 0..len.min(3000) {
            assert_moved(&rt, &mut cursor, &text, byte_idx);
        }
        for byte_idx in [len, 0, len.saturating_sub(1), len / 2, len + 1] {
            assert_moved(&rt, &mut cursor, &text, byte_idx);
        }
    }
    Ok(())
}

#[test]
fn chars_round_a_byte(rt: HostRuntime) -> Result<(), Fail> {
    let text = lines(rt.alloc(), 60)?;
    let rope = Rope::from_str(rt.alloc(), &text)?;
    for byte_idx in 0..text.len() + 2 {
        let after = text.get(byte_idx..).and_then(|rest| rest.chars().next());
        let before = text
            .get(..byte_idx)
            .and_then(|front| front.chars().next_back());
        assert_eq!(rt; rope.char_at(byte_idx), after, "{byte_idx}");
        assert_eq!(rt; rope.char_before(byte_idx), before, "{byte_idx}");
    }
    Ok(())
}

fn assert_piece(rt: &impl Abort, found: Option<&str>, wanted: Option<&str>) {
    assert!(rt; found == wanted, "{found:?}");
}

#[test]
fn pieces_one_by_one(rt: HostRuntime) -> Result<(), Fail> {
    let rope = Rope::from_str(rt.alloc(), "aéb")?;
    let mut pieces = rope.chunks_in(1..3)?;
    assert_piece(&rt, pieces.next_chunk(), Some("é"));
    assert_piece(&rt, pieces.next_chunk(), None);
    assert_piece(&rt, pieces.next_chunk(), None);
    Ok(())
}

/// Ranges that are no part of a text, and what they are refused with.
const NO_PARTS: [(usize, usize, Refusal); 4] = [
    (1, 0, NotOrdered),
    (9, 8, NotOrdered),
    (0, 2, NotBoundary),
    (3, 4, NotBoundary),
];

fn assert_no_part(rt: &impl Abort, rope: &Rope, from: usize, to: usize, wanted: Refusal) {
    let found = rope.chunks_in(from..to).err();
    assert!(rt; found == Some(wanted), "{from} {to} {found:?}");
}

fn assert_no_parts(rt: &impl Abort, rope: &Rope) {
    for (from, to, refusal) in NO_PARTS {
        assert_no_part(rt, rope, from, to, refusal);
    }
}

#[test]
fn parts_that_are_none(rt: HostRuntime) -> Result<(), Fail> {
    let rope = Rope::from_str(rt.alloc(), "aé")?;
    assert_no_parts(&rt, &rope);
    Ok(())
}

/// Byte indices, how many bytes are read there, and the room then.
const READS: [(usize, usize, [u8; 3]); 3] = [
    (2, 3, *b"\xA9b\xF0"),
    (6, 2, *b"\x90\xB8\xF0"),
    (8, 0, *b"\x90\xB8\xF0"),
];

fn assert_read(
    rt: &impl Abort,
    rope: &Rope,
    byte_idx: usize,
    room: &mut [u8; 3],
    wanted: (usize, [u8; 3]),
) {
    let found = (rope.read_at(byte_idx, room), *room);
    assert!(rt; found == wanted, "{byte_idx} {found:?}");
}

fn assert_reads(rt: &impl Abort, rope: &Rope) {
    let mut room = *b"---";
    for (byte_idx, len, bytes) in READS {
        assert_read(rt, rope, byte_idx, &mut room, (len, bytes));
    }
}

#[test]
fn bytes_from_an_index(rt: HostRuntime) -> Result<(), Fail> {
    let rope = Rope::from_str(rt.alloc(), "aéb🐸")?;
    assert_reads(&rt, &rope);
    Ok(())
}

/// Ranges, and what a call says that writes them out into six bytes.
const WRITTEN: [(usize, usize, Result<usize, Refusal>); 4] = [
    (1, 4, Ok(3)),
    (2, 1, Err(NotOrdered)),
    (0, 2, Err(NotBoundary)),
    (0, 8, Err(TooLong)),
];

fn assert_written(
    rt: &impl Abort,
    rope: &Rope,
    from: usize,
    to: usize,
    room: &mut [u8; 6],
    wanted: Result<usize, Refusal>,
) {
    let found = rope.copy_to(from..to, room);
    assert!(rt;
        found == wanted && str::from_utf8(room).ok() == Some("éb---"),
        "{from} {to} {found:?}"
    );
}

fn assert_all_written(rt: &impl Abort, rope: &Rope) {
    let mut room = *b"------";
    for (from, to, result) in WRITTEN {
        assert_written(rt, rope, from, to, &mut room, result);
    }
}

#[test]
fn parts_written_out(rt: HostRuntime) -> Result<(), Fail> {
    let rope = Rope::from_str(rt.alloc(), "aéb🐸")?;
    assert_all_written(&rt, &rope);
    Ok(())
}

/// A rope may go to another thread, and several may ask it at once; so may an iterator over its chunks.
pub fn may_cross(rope: &Rope, chunks: &Chunks<'_>) {
    crosses(rope);
    crosses(chunks);
}

fn crosses<T: Send + Sync>(_value: &T) {}
