//! Texts of the shapes that users have, made from random numbers.

use crate::faults::Fault;
use crate::random::Random;
use std::alloc::Global;

/// How many lines a text is made of, in a random order.
const LINES: usize = 64;

const CODE: [&str; 16] = [
    "let ", "mut ", "rope", ".insert(", "at, ", "&text", ")?;", "if ", "self", "for ", "in ",
    "0..len", " {", "}", "fn ", "=> ",
];

const PROSE: [&str; 16] = [
    "the ", "Zeile ", "über ", "a ", "café ", "of ", "index ", "text ", "which ", "line ", "to ",
    "and ", "Größe ", "is ", "in ", "counted ",
];

const JAPANESE: [&str; 8] = ["日本語", "の", "文字", "を", "数える", "行", "と", "、"];

const EMOJI: [&str; 4] = ["🐸 ", "🎉", "🚀 ", "é"];

const HAN: [&str; 8] = ["日", "本", "語", "文", "字", "数", "行", "百"];

const ACCENTED: [&str; 8] = ["é", "à", "ü", "ñ", "ö", "ç", "ø", "å"];

const BREAKS: [&str; 8] = [
    "\n", "\r\n", "\r", "\u{b}", "\u{c}", "\u{85}", "\u{2028}", "\u{2029}",
];

const LETTERS: [&str; 8] = ["a", "e", "r", "s", "t", "n", "i", "o"];

/// A kind of text, by its lines.
#[derive(Clone, Copy)]
pub(crate) enum Shape {
    /// Lines of code, ended by LF.
    Source,
    /// Words with a few accents, ended by LF.
    Prose,
    /// Japanese, ended by LF.
    Japanese,
    /// Words with a char above U+FFFF in each line, ended by LF.
    Emoji,
    /// Lines of code, ended by CR LF.
    Crlf,
    /// Lines of code, ended by LF, CR LF or CR.
    Mixed,
    /// Code without any line break.
    OneLine,
    /// LF alone.
    Feeds,
    /// Short words, ended by each break of the Unicode Standard's Annex 14 and its Rust crate.
    AllBreaks,
    /// Lines of 1,500 to 3,000 Han chars, of three bytes each, ended by LF.
    LongHan,
    /// Lines of 1,500 to 3,000 accented letters, ended by LF.
    LongAccented,
}

/// All of them, the six daily ones first.
const SHAPES: [Shape; 11] = [
    Shape::Source,
    Shape::Prose,
    Shape::Japanese,
    Shape::Emoji,
    Shape::Crlf,
    Shape::Mixed,
    Shape::OneLine,
    Shape::Feeds,
    Shape::AllBreaks,
    Shape::LongHan,
    Shape::LongAccented,
];

impl Shape {
    /// One of the six that are daily.
    pub(crate) fn daily(random: &mut Random) -> Shape {
        SHAPES[random.below(6) % 6]
    }

    /// Each of them in turn.
    pub(crate) fn each(i: usize) -> Shape {
        SHAPES[i % 11]
    }

    /// One of the four that are awkward.
    pub(crate) fn awkward(i: usize) -> Shape {
        match i % 4 {
            0 => Shape::OneLine,
            1 => Shape::Feeds,
            2 => Shape::AllBreaks,
            _ => Shape::Mixed,
        }
    }

    /// One of the three whose lines go over chunks.
    pub(crate) fn long_lines(i: usize) -> Shape {
        match i % 3 {
            0 => Shape::OneLine,
            1 => Shape::LongHan,
            _ => Shape::LongAccented,
        }
    }

    /// How many lines are made at once: several where they are short.
    fn lines_at_once(self) -> usize {
        match self {
            Shape::Feeds | Shape::AllBreaks => 16,
            _ => 1,
        }
    }
}

/// The letter that is typed as number `i`.
pub(crate) fn letter(i: usize) -> &'static str {
    LETTERS[i % 8]
}

/// Appends `n` words of a table to a line.
fn put_words(
    line: &mut String,
    random: &mut Random,
    table: &[&'static str],
    n: usize,
) -> Result<(), Fault> {
    for _ in 0..n {
        if let Some(word) = table.get(random.below(table.len())) {
            line.push_str(word)?;
        }
    }
    Ok(())
}

/// Appends an indent and words of code to a line.
fn put_code(line: &mut String, random: &mut Random) -> Result<(), Fault> {
    for _ in 0..random.below(4) {
        line.push_str("    ")?;
    }
    let words = random.from(4, 6);
    put_words(line, random, &CODE, words)
}

/// Appends the content of a line, which comes before its break.
fn put_content(line: &mut String, random: &mut Random, shape: Shape) -> Result<(), Fault> {
    match shape {
        Shape::Source | Shape::Crlf | Shape::Mixed | Shape::OneLine => put_code(line, random),
        Shape::Prose => put_some(line, random, &PROSE),
        Shape::Japanese => put_some(line, random, &JAPANESE),
        Shape::Emoji => {
            put_words(line, random, &PROSE, 5)?;
            put_words(line, random, &EMOJI, 2)
        }
        Shape::Feeds => Ok(()),
        Shape::AllBreaks => put_words(line, random, &LETTERS, 3),
        Shape::LongHan => put_many(line, random, &HAN),
        Shape::LongAccented => put_many(line, random, &ACCENTED),
    }
}

/// Appends 1,500 to 3,000 words of a table to a line.
fn put_many(line: &mut String, random: &mut Random, table: &[&'static str]) -> Result<(), Fault> {
    let words = random.from(1500, 1501);
    put_words(line, random, table, words)
}

/// Appends as many words of a table as a line of prose has.
fn put_some(line: &mut String, random: &mut Random, table: &[&'static str]) -> Result<(), Fault> {
    let words = random.from(8, 8);
    put_words(line, random, table, words)
}

/// Appends the break of a line.
fn put_break(line: &mut String, random: &mut Random, shape: Shape) -> Result<(), Fault> {
    match shape {
        Shape::Crlf => put_words(line, random, &BREAKS[1..2], 1),
        Shape::Mixed => put_words(line, random, &BREAKS[..3], 1),
        Shape::AllBreaks => put_words(line, random, &BREAKS, 1),
        Shape::OneLine => Ok(()),
        _ => put_words(line, random, &BREAKS[..1], 1),
    }
}

/// The lines that a text is made of.
fn lines_of(alloc: Global, random: &mut Random, shape: Shape) -> Result<Vec<String>, Fault> {
    let mut lines = Vec::new(alloc);
    for _ in 0..LINES {
        let mut line = String::new(alloc);
        for _ in 0..shape.lines_at_once() {
            put_content(&mut line, random, shape)?;
            put_break(&mut line, random, shape)?;
        }
        lines.push(line).map_err(|_| Fault::NoMemory)?;
    }
    Ok(lines)
}

/// Makes a text of a shape: whole lines, at least `bytes` bytes.
pub(crate) fn text_of(
    alloc: Global,
    random: &mut Random,
    shape: Shape,
    bytes: usize,
) -> Result<String, Fault> {
    let lines = lines_of(alloc, random, shape)?;
    let mut text = String::with_capacity(alloc, bytes)?;
    for _ in 0..bytes {
        if bytes <= text.len() {
            break;
        }
        if let Some(line) = lines.get(random.below(LINES)) {
            text.push_str(line)?;
        }
    }
    Ok(text)
}

/// The text before a byte index or before the char that it is inside of; all of it where the index is past the end.
pub(crate) fn front(text: &str, at: usize) -> &str {
    text.split_at(text.floor_char_boundary(at)).0
}

/// The text from there on.
pub(crate) fn back(text: &str, at: usize) -> &str {
    text.split_at(text.floor_char_boundary(at)).1
}
