//! A language server's day: files that are opened, changed by positions, asked by positions, and saved.

use crate::digest::Digest;
use crate::faults::Fault;
use crate::library::{
    Change, Encoding, Position, Range, Rope, Scheme, apply, apply_exact, byte_of, byte_range,
    exact_byte_of, position_of,
};
use crate::random::Random;
use crate::ropes::read_all;
use crate::texts::{Shape, letter, text_of};
use std::alloc::Global;

/// How many bytes the files have.
const SIZES: [usize; 8] = [
    10_000, 20_000, 40_000, 80_000, 150_000, 300_000, 600_000, 2_000_000,
];

/// How many words are typed into a file.
const WORDS: usize = 20;

/// How many positions are asked after each word, each way.
const ASKED: usize = 40;

/// How many places a rename changes.
const RENAMED: usize = 150;

/// How many lines formatting changes.
const FORMATTED: usize = 400;

/// An open file.
#[derive(Drop)]
struct File {
    rope: Rope,
    encoding: Encoding,
}

/// Works on `rounds` files, one after the other.
pub(crate) fn run(
    alloc: Global,
    random: &mut Random,
    rounds: usize,
    digest: &mut Digest,
) -> Result<(), Fault> {
    for i in 0..rounds {
        work_on(alloc, random, SIZES[i % 8], digest)?;
    }
    Ok(())
}

/// The encoding that a client speaks: UTF-16 mostly.
fn encoding_of(random: &mut Random) -> Encoding {
    match random.below(8) {
        0 => Encoding::Utf8,
        1 => Encoding::Utf32,
        _ => Encoding::Utf16,
    }
}

fn open_file(alloc: Global, random: &mut Random, bytes: usize) -> Result<File, Fault> {
    let shape = Shape::daily(random);
    let source = text_of(alloc, random, shape, bytes)?;
    let rope = Rope::from_str(alloc, source.as_str())?;
    Ok(File {
        rope,
        encoding: encoding_of(random),
    })
}

/// One file from when it is opened to when it is saved.
fn work_on(
    alloc: Global,
    random: &mut Random,
    bytes: usize,
    digest: &mut Digest,
) -> Result<(), Fault> {
    let mut file = open_file(alloc, random, bytes)?;
    digest.take(file.rope.count(Scheme::Crlf));
    read_all(&file.rope, digest);
    for _ in 0..WORDS {
        file.type_word(random)?;
        file.tell_places(random, digest);
        file.find_places(random, digest);
        file.find_ranges(random, digest);
    }
    file.rename(digest)?;
    file.format(digest)?;
    read_all(&file.rope, digest);
    Ok(())
}

impl File {
    /// A random byte index.
    fn somewhere(&self, random: &mut Random) -> usize {
        random.below(self.rope.len().saturating_add(1))
    }

    /// A word typed letter by letter, and its last letter taken back.
    fn type_word(&mut self, random: &mut Random) -> Result<(), Fault> {
        let mut at = position_of(&self.rope, self.encoding, self.somewhere(random));
        for i in 0..random.from(3, 6) {
            self.replace(at, at, letter(i))?;
            at.character = at.character.saturating_add(1);
        }
        let before = Position {
            line: at.line,
            character: at.character.saturating_sub(1),
        };
        self.replace(before, at, "")
    }

    fn replace(&mut self, start: Position, end: Position, text: &str) -> Result<(), Fault> {
        let change = Change {
            range: Some(Range { start, end }),
            text,
        };
        apply(&mut self.rope, self.encoding, change)?;
        Ok(())
    }

    /// The positions of bytes in ascending order, as for diagnostics.
    fn tell_places(&self, random: &mut Random, digest: &mut Digest) {
        let mut byte = self.somewhere(random);
        for _ in 0..ASKED {
            let position = position_of(&self.rope, self.encoding, byte);
            digest.take(position.line);
            digest.take(position.character);
            byte = byte.saturating_add(random.from(3, 60));
        }
    }

    /// The bytes of positions in ascending order, as for semantic tokens.
    fn find_places(&self, random: &mut Random, digest: &mut Digest) {
        let lines = self.rope.count(Scheme::Crlf);
        let mut position = Position {
            line: random.below(lines.saturating_add(1)),
            character: 0,
        };
        for _ in 0..ASKED {
            digest.take(byte_of(&self.rope, self.encoding, position));
            position = later(position, random);
        }
    }

    /// The bytes of ranges, and of positions that have to name a place.
    fn find_ranges(&self, random: &mut Random, digest: &mut Digest) {
        for _ in 0..5 {
            let start = position_of(&self.rope, self.encoding, self.somewhere(random));
            let end = later(start, random);
            if let Some(bytes) = byte_range(&self.rope, self.encoding, Range { start, end }) {
                digest.take(bytes.start);
                digest.take(bytes.end);
            }
            let exact = exact_byte_of(&self.rope, self.encoding, end);
            digest.take(exact.unwrap_or(0));
        }
    }

    /// Replaces a name by a longer one at places all over the file, from its end.
    fn rename(&mut self, digest: &mut Digest) -> Result<(), Fault> {
        let step = self.rope.len() / RENAMED;
        for i in 0..RENAMED {
            let byte = step.saturating_mul(RENAMED.saturating_sub(i));
            let start = position_of(&self.rope, self.encoding, byte);
            let end = Position {
                line: start.line,
                character: start.character.saturating_add(5),
            };
            let change = Change {
                range: Some(Range { start, end }),
                text: "renamed",
            };
            let done = apply_exact(&mut self.rope, self.encoding, change);
            digest.mark(done.is_ok());
            if done.is_err() {
                self.replace(start, end, "renamed")?;
            }
        }
        digest.take(self.rope.len());
        Ok(())
    }

    /// New indents, from the last line back.
    fn format(&mut self, digest: &mut Digest) -> Result<(), Fault> {
        let lines = self.rope.count(Scheme::Crlf);
        for i in 0..FORMATTED {
            let line = lines.saturating_mul(FORMATTED.saturating_sub(i)) / FORMATTED;
            let start = Position { line, character: 0 };
            let end = Position { line, character: 2 };
            self.replace(start, end, "    ")?;
        }
        digest.take(self.rope.len());
        Ok(())
    }
}

/// A position after another one: on its line, or on the next one.
fn later(position: Position, random: &mut Random) -> Position {
    if random.below(3) == 0 {
        Position {
            line: position.line.saturating_add(1),
            character: random.below(12),
        }
    } else {
        Position {
            line: position.line,
            character: position.character.saturating_add(random.from(1, 9)),
        }
    }
}
