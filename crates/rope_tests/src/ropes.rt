//! Ropes, as another crate calls them: tables of worked answers, and long lists of changes that are made of a plain text too.

mod caller;
mod calls;
mod counted_changes;
mod line_rows;
mod long_text;
mod number_of_pieces;
mod random_changes;
mod snapshots;
mod two_ropes;

use positions::{LineType, line};
use std::alloc::{AllocError, Global};
use std::process::Abort;
use std::test::Fail;
use text_rope::{MAX_CHUNK, Refusal, Rope, Scheme};
use text_tests::questions::KINDS;

/// A line with chars of every length.
const LINE: &str = "Zeile – über 🐸 und せかい, und so weiter\r\n";

/// A change of a text: another text replaces the part between two bytes.
#[derive(Clone, Copy, Debug)]
struct Change<'a> {
    from: usize,
    to: usize,
    put: &'a str,
}

/// Makes a change by the call that is for it.
fn make(rope: &mut Rope, change: Change<'_>) -> Result<(), Refusal> {
    let Change { from, to, put } = change;
    if from == to {
        rope.insert(from, put)
    } else if put.is_empty() {
        rope.remove(from..to)
    } else {
        rope.replace(from..to, put)
    }
}

/// A plain text after a change.
fn change_text(alloc: Global, text: &str, change: Change<'_>) -> Result<String, Fail> {
    let front = text.get(..change.from).ok_or("no boundary")?;
    let back = text.get(change.to..).ok_or("no boundary")?;
    Ok(concat(alloc, [front, change.put, back])?)
}

/// Three texts in one.
fn concat(alloc: Global, parts: [&str; 3]) -> Result<String, AllocError> {
    parts.concat(alloc)
}

/// A line, repeated.
fn lines(alloc: Global, count: usize) -> Result<String, AllocError> {
    LINE.repeat(alloc, count)
}

/// A rope, and the same text as a plain one.
#[derive(Drop)]
struct Both {
    rope: Rope,
    text: String,
    alloc: Global,
}

impl Both {
    fn of(alloc: Global, text: &str) -> Result<Both, Fail> {
        let copy = String::from_str(alloc, text)?;
        let rope = Rope::from_str(alloc, text)?;
        Ok(Both {
            rope,
            text: copy,
            alloc,
        })
    }

    /// A snapshot, and the text once more.
    fn snapshot(&self) -> Result<Both, Fail> {
        let text = String::from_str(self.alloc, &self.text)?;
        let rope = self.rope.snapshot()?;
        Ok(Both {
            rope,
            text,
            alloc: self.alloc,
        })
    }

    /// Makes a change of both.
    fn make(&mut self, change: Change<'_>) -> Result<(), Fail> {
        self.text = change_text(self.alloc, &self.text, change)?;
        make(&mut self.rope, change)?;
        Ok(())
    }

    /// Compares the answers at a byte.
    fn assert_same_at(&self, rt: &impl Abort, byte_idx: usize) {
        assert_same_at(rt, &self.rope, &self.text, byte_idx);
    }

    /// Compares what is answered of the whole text.
    fn assert_same_counts(&self, rt: &impl Abort) {
        assert_same_counts(rt, &self.rope, &self.text);
    }

    /// Compares the chunks, one after the other, with the text, and answers how many there are.
    fn assert_same_pieces(&self, rt: &impl Abort) -> Result<usize, AllocError> {
        assert_same_pieces(rt, self.alloc, &self.rope, &self.text)
    }
}

/// Whether a break of a kind begins with a char.
fn begins_break(lines: LineType, c: char) -> bool {
    match lines {
        LineType::Lf => c == '\n',
        LineType::Crlf => matches!(c, '\n' | '\r'),
        LineType::Lines => matches!(c, '\n'..='\r' | '\u{85}' | '\u{2028}' | '\u{2029}'),
    }
}

/// Where the first break of a text begins; its length where it has none.
fn first_break(lines: LineType, text: &str) -> usize {
    for (at, c) in text.char_indices() {
        if begins_break(lines, c) {
            return at;
        }
    }
    text.len()
}

/// Compares the answers of one scheme at a byte, and where what it counts there begins.
fn assert_same_by(rt: &impl Abort, rope: &Rope, text: &str, s: Scheme, byte_idx: usize) {
    let k = s.from_byte_idx(text, byte_idx);
    let found = (rope.from_byte_idx(s, byte_idx), rope.to_byte_idx(s, k));
    let wanted = (k, s.to_byte_idx(text, k));
    assert!(rt; found == wanted, "{s:?} {byte_idx}: {found:?}");
}

/// Compares the line of a kind that begins at a byte, if one does.
fn assert_same_line(rt: &impl Abort, rope: &Rope, text: &str, lines: LineType, byte_idx: usize) {
    let s = lines.scheme();
    let k = s.from_byte_idx(text, byte_idx);
    if s.to_byte_idx(text, k) != byte_idx {
        return;
    }
    let next = s.to_byte_idx(text, k.saturating_add(1));
    let content = first_break(lines, text.get(byte_idx..next).unwrap_or(""));
    let found = line(&mut rope.view(), lines, k);
    let wanted = byte_idx..byte_idx.saturating_add(content);
    assert!(rt; found == wanted, "{lines:?} {k}: {found:?}");
}

/// Compares the answers at a byte.
fn assert_same_at(rt: &impl Abort, rope: &Rope, text: &str, byte_idx: usize) {
    let is_same = rope.is_char_boundary(byte_idx) == text.is_char_boundary(byte_idx);
    assert!(rt; is_same, "{byte_idx}");
    for s in Scheme::ALL {
        assert_same_by(rt, rope, text, s, byte_idx);
    }
    for lines in KINDS {
        assert_same_line(rt, rope, text, lines, byte_idx);
    }
}

fn assert_same_count(rt: &impl Abort, rope: &Rope, text: &str, s: Scheme) {
    let found = rope.count(s);
    assert!(rt; found == s.count(text), "{s:?} {found}");
}

/// Compares the line after the last one, which is at the text's end.
fn assert_past(rt: &impl Abort, rope: &Rope, text: &str, lines: LineType) {
    let past = rope.count(lines.scheme()).saturating_add(1);
    let found = line(&mut rope.view(), lines, past);
    assert!(rt; found == (text.len()..text.len()), "{lines:?} {found:?}");
}

/// Compares what is answered of the whole text.
fn assert_same_counts(rt: &impl Abort, rope: &Rope, text: &str) {
    let found = (rope.len(), rope.is_empty());
    assert!(rt; found == (text.len(), text.is_empty()), "{found:?}");
    for s in Scheme::ALL {
        assert_same_count(rt, rope, text, s);
    }
    for lines in KINDS {
        assert_past(rt, rope, text, lines);
    }
}

/// Compares the chunks, one after the other, with the text, and answers how many there are: at most twice as many as the text
/// has to have, and one.
fn assert_same_pieces(
    rt: &impl Abort,
    alloc: Global,
    rope: &Rope,
    text: &str,
) -> Result<usize, AllocError> {
    let mut whole = String::new(alloc);
    let mut pieces: usize = 0;
    for piece in rope.chunks() {
        whole.push_str(piece)?;
        pieces = pieces.saturating_add(1);
    }
    let are_few = pieces
        <= fewest_pieces(text.len())
            .saturating_mul(2)
            .saturating_add(1);
    assert!(rt;
        whole.as_str() == text && are_few,
        "{pieces} of {}",
        text.len()
    );
    Ok(pieces)
}

/// The fewest chunks that a text of this length can have.
fn fewest_pieces(bytes: usize) -> usize {
    bytes.div_ceil(MAX_CHUNK)
}

/// Compares every answer with the one for the plain text, up to past its end.
fn assert_same(rt: &impl Abort, rope: &Rope, text: &str) {
    assert_same_counts(rt, rope, text);
    for byte_idx in 0..text.len() + 2 {
        assert_same_at(rt, rope, text, byte_idx);
    }
}
