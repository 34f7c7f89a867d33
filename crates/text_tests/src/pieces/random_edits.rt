//! A long list of changes, chosen from a seed, beside a model that keeps the pieces as plain texts.
use super::{Change, assert_as_joined, assert_same, make};
use crate::random::Random;
use piece_text::{PieceText, Refusal, Scheme};
use std::alloc::{AllocError, Global};
use std::process::Abort;
use std::test::Fail;

/// How many changes there are.
const CHANGES: usize = 300;

/// How many texts are pushed before the changes where the pieces are many, so that there are runs of them.
const PUSHES: usize = 500;

/// Texts to put in. Breaks stand at the edges of pieces, and inside.
const TEXTS: [&str; 12] = [
    "",
    "a",
    "\r",
    "\n",
    "\r\n",
    "é",
    "🐸\r",
    "\n\u{2028}",
    "b\u{85}c",
    "\n\r",
    "せい",
    "\u{B}d\r\ne",
];

/// The next change, of a text that has this many pieces and this many bytes.
fn next_change(random: &mut Random, pieces: usize, len: usize) -> Change {
    let piece = TEXTS[random.next() % TEXTS.len()];
    let at = random.next() % pieces.saturating_add(2);
    match random.next() % 6 {
        0 => Change::Push(piece),
        1 | 2 => Change::Insert(at, piece),
        3 => Change::Remove(at),
        _ => Change::Split(random.next() % len.saturating_add(2)),
    }
}

/// The pieces as plain texts.
#[derive(Drop)]
struct Model {
    pieces: Vec<String>,
    alloc: Global,
}

/// The answer of a change of the model, which never lacks memory.
type Said = Result<Result<(), Refusal>, AllocError>;

impl Model {
    fn join(&self) -> Result<String, AllocError> {
        self.pieces.concat(self.alloc)
    }

    fn make(&mut self, change: Change) -> Said {
        match change {
            Change::Push(text) => {
                let end = self.pieces.len();
                self.insert(end, text)
            }
            Change::Insert(at, text) => self.insert(at, text),
            Change::Remove(at) => Ok(self.remove(at)),
            Change::Split(byte_idx) => self.split(byte_idx),
        }
    }

    fn insert(&mut self, at: usize, text: &str) -> Said {
        if self.pieces.len() < at {
            return Ok(Err(Refusal::NoPiece));
        }
        if !text.is_empty() {
            let text = String::from_str(self.alloc, text)?;
            self.pieces.insert(at, text)?;
        }
        Ok(Ok(()))
    }

    fn remove(&mut self, at: usize) -> Result<(), Refusal> {
        if self.pieces.len() <= at {
            return Err(Refusal::NoPiece);
        }
        self.pieces.remove(at);
        Ok(())
    }

    /// Starts a new piece at the byte.
    fn split(&mut self, byte_idx: usize) -> Said {
        if !self.join()?.is_char_boundary(byte_idx) {
            return Ok(Err(Refusal::NotBoundary));
        }
        let mut pieces = Vec::new(self.alloc);
        let mut before: usize = 0;
        for piece in &self.pieces {
            push_halves(
                self.alloc,
                &mut pieces,
                piece,
                byte_idx.saturating_sub(before),
            )?;
            before = before.saturating_add(piece.len());
        }
        self.pieces = pieces;
        Ok(Ok(()))
    }
}

/// Puts a piece after others, cut at a byte where that is inside, going over all chars.
fn push_halves(
    alloc: Global,
    pieces: &mut Vec<String>,
    piece: &str,
    at: usize,
) -> Result<(), AllocError> {
    let mut left = String::new(alloc);
    let mut right = String::new(alloc);
    for c in piece.chars() {
        if left.len() < at {
            left.push(c)?;
        } else {
            right.push(c)?;
        }
    }
    push_some(pieces, left)?;
    push_some(pieces, right)
}

/// Puts a text after others where it is not empty.
fn push_some(pieces: &mut Vec<String>, text: String) -> Result<(), AllocError> {
    if !text.is_empty() {
        pieces.push(text)?;
    }
    Ok(())
}

/// Compares a text with the model's joined text.
fn assert_as_model(rt: &impl Abort, text: &PieceText, model: &Model, joined: &str) {
    let found = (text.pieces(), text.len());
    assert_eq!(rt; found, (model.pieces.len(), joined.len()), "{joined:?}");
    assert_as_joined(rt, text, joined);
}

#[test]
fn answers_stay_those_of_the_joined_text(rt: HostRuntime) -> Result<(), Fail> {
    let mut text = PieceText::new(rt.alloc());
    let mut model = Model {
        pieces: Vec::new(rt.alloc()),
        alloc: rt.alloc(),
    };
    let mut random = Random::new(0x7069_6563);
    for i in 0..CHANGES {
        let change = next_change(&mut random, text.pieces(), text.len());
        let wanted = model.make(change)?;
        assert_eq!(rt; make(&mut text, change), wanted, "{i}");
        assert_as_model(&rt, &text, &model, &model.join()?);
    }
    Ok(())
}

/// Compares some answers at places chosen from a seed with those for the joined text.
fn assert_some(rt: &impl Abort, text: &PieceText, joined: &str, random: &mut Random) {
    for s in Scheme::ALL {
        let at = random.next() % joined.len().saturating_add(2);
        let (count, from, to) = (
            s.count(joined),
            s.from_byte_idx(joined, at),
            s.to_byte_idx(joined, at),
        );
        assert_same(rt, text.count(s), count, "", s, at);
        assert_same(rt, text.from_byte_idx(s, at), from, "", s, at);
        assert_same(rt, text.to_byte_idx(s, at), to, "", s, at);
        // the break that a piece may end with, and the one after it
        let end = s.to_byte_idx(joined, from);
        assert_same(rt, text.to_byte_idx(s, from), end, "", s, from);
    }
}

#[test]
fn answers_of_many_pieces_stay_those_of_the_joined_text(rt: HostRuntime) -> Result<(), Fail> {
    let mut text = PieceText::new(rt.alloc());
    let mut model = Model {
        pieces: Vec::new(rt.alloc()),
        alloc: rt.alloc(),
    };
    let mut random = Random::new(0x7275_6E73);
    for _ in 0..PUSHES {
        let change = Change::Push(TEXTS[random.next() % TEXTS.len()]);
        let wanted = model.make(change)?;
        assert_eq!(rt; make(&mut text, change), wanted);
    }
    for i in 0..CHANGES {
        let change = next_change(&mut random, text.pieces(), text.len());
        let wanted = model.make(change)?;
        assert_eq!(rt; make(&mut text, change), wanted, "{i}");
        assert_some(&rt, &text, &model.join()?, &mut random);
    }
    assert_eq!(rt; text.pieces(), model.pieces.len());
    Ok(())
}
