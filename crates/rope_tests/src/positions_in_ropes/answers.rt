//! Positions and changes by positions, of a rope and of a plain text beside it.
ghost use Rattle.std.specs.Prelude.{chars, IfOk, IfSome};
ghost use Rattle.text_summary.specs.Changes.{IsReplaced};
ghost use Rattle.text_rope.specs.Ranges.{part_at};

use byte_chunk::Chunk;
use positions::{Encoding, LineType, Position, Range, Whole, byte_range};
use std::alloc::{AllocError, Global};
use std::process::Abort;
use std::test::Fail;
use text_rope::{Change, Refusal, Rope};
use text_tests::questions::{ENCODINGS, at, differs_at_byte, differs_at_position};
use text_tests::random::Random;

/// How many changes there are.
const CHANGES: usize = 2_000;

/// From this length in bytes on, most of the text is taken out.
const LONG: usize = 4_000;

/// Texts to put in. A CR of one change meets an LF of another.
const TEXTS: [&str; 9] = [
    "",
    "ab",
    "\r",
    "\n",
    "\r\n",
    "é",
    "🐸\r",
    "\nせい",
    "c\r\n\n🐸d",
];

/// A text that a client opens and then changes, as a caller writes it who knows what has become of it.
fn opened_and_changed(
    alloc: Global,
    text: &str,
    encoding: Encoding,
    change: Change<'_>,
) -> Result<Rope, Refusal>
    ensures { IfOk result (λ rope. IfSome (part_at encoding (chars text.now) change.entry.range) (λ part.
        IsReplaced (chars text.now) rope part.start part.end (chars change.entry.text.now))) }
{
    let mut rope = Rope::from_str(alloc, text)?;
    rope.apply(encoding, change)?;
    Ok(rope)
}

/// The text of a rope.
fn text_of(alloc: Global, rope: &Rope) -> Result<String, AllocError> {
    let mut text = String::new(alloc);
    for piece in rope.chunks() {
        text.push_str(piece)?;
    }
    Ok(text)
}

fn assert_text(rt: &impl Abort, found: &str, wanted: &str) {
    assert!(rt; found == wanted, "{found:?}");
}

/// A plain text after a change.
fn change_text(
    alloc: Global,
    text: &str,
    encoding: Encoding,
    change: Change<'_>,
) -> Result<String, Fail> {
    let part = match change.range {
        None => 0..text.len(),
        Some(range) => byte_range(
            &mut Whole::<Chunk>::of(text),
            LineType::Crlf,
            encoding,
            range,
        )
        .ok_or("not ordered")?,
    };
    let front = text.get(..part.start).ok_or("no boundary")?;
    let back = text.get(part.end..).ok_or("no boundary")?;
    Ok([front, change.text, back].concat(alloc)?)
}

/// A position on a line that the text has, or somewhat past its end.
fn some_position(random: &mut Random, lines: usize) -> Position {
    at(random.below(lines.saturating_add(2)), random.below(12))
}

/// The range of two positions, in order.
fn some_range(random: &mut Random, lines: usize) -> Range {
    let start = some_position(random, lines);
    let end = if random.below(3) == 0 {
        start
    } else {
        some_position(random, lines)
    };
    if start.is_at_or_before(end) {
        Range { start, end }
    } else {
        Range {
            start: end,
            end: start,
        }
    }
}

fn next_change(random: &mut Random, text: &str) -> Change<'static> {
    let put = TEXTS[random.next() % TEXTS.len()];
    if text.len() > LONG && random.below(4) == 0 {
        return Change {
            range: None,
            text: put,
        };
    }
    let lines = str_indices::lines_crlf::count_breaks(text);
    Change {
        range: Some(some_range(random, lines)),
        text: put,
    }
}

/// Compares what is answered at a byte and at a position.
fn assert_same_at(rt: &impl Abort, rope: &Rope, text: &str, byte: usize, position: Position) {
    let view = &mut rope.view();
    let found = differs_at_byte(view, text, byte);
    assert!(rt; found.is_none(), "{text:?} {byte}: {found:?}");
    let found = differs_at_position(view, text, at(0, 0), position);
    assert!(rt; found.is_none(), "{text:?} {position:?}: {found:?}");
}

/// Makes a change of both that is chosen from the seed, and compares what is answered then.
fn change_both(
    rt: &impl Abort,
    alloc: Global,
    random: &mut Random,
    rope: &mut Rope,
    text: &mut String,
) -> Result<(), Fail> {
    let encoding = ENCODINGS[random.next() % ENCODINGS.len()];
    let change = next_change(random, text);
    *text = change_text(alloc, text, encoding, change)?;
    rope.apply(encoding, change)?;
    let byte = random.below(text.len().saturating_add(3));
    let position = some_position(random, rope.count(text_rope::Scheme::Crlf));
    assert_same_at(rt, rope, text, byte, position);
    Ok(())
}

#[test]
fn answers_stay_those_of_the_text(rt: HostRuntime) -> Result<(), Fail> {
    let mut rope = Rope::new(rt.alloc());
    let mut text = String::new(rt.alloc());
    let mut random = Random::new(0x706f_7369);
    for i in 0..CHANGES {
        change_both(&rt, rt.alloc(), &mut random, &mut rope, &mut text)?;
        if i % 20 == 0 {
            assert_text(&rt, &text_of(rt.alloc(), &rope)?, &text);
        }
    }
    Ok(())
}

/// Two texts of two chunks or more each. The first ends in CR, and the second begins with LF.
fn two_pieces(alloc: Global) -> Result<(String, String), AllocError> {
    let mut front = String::new(alloc);
    let mut back = String::from_str(alloc, "\n")?;
    for _ in 0..200 {
        front.push_str("ab\r\n🐸c\r")?;
        back.push_str("せ\n\rdd")?;
    }
    Ok((front, back))
}

fn assert_piece_starts(rt: &impl Abort, rope: &Rope, byte: usize) {
    let start = rope.chunk_at(byte).map(|chunk| chunk.start);
    assert!(rt; start == Some(byte), "{start:?}");
}

#[test]
fn a_break_of_two_pieces_is_one(rt: HostRuntime) -> Result<(), Fail> {
    let (front, back) = two_pieces(rt.alloc())?;
    let mut rope = Rope::from_str(rt.alloc(), &front)?;
    rope.append(&mut Rope::from_str(rt.alloc(), &back)?)?;
    let seam = front.len();
    assert_piece_starts(&rt, &rope, seam);
    let text = [front.as_str(), back.as_str()].concat(rt.alloc())?;
    let line = str_indices::lines_crlf::from_byte_idx(&text, seam);
    for i in 0..12 {
        let byte = seam.saturating_sub(6).saturating_add(i);
        let position = at(line.saturating_add(i % 3), i % 4);
        assert_same_at(&rt, &rope, &text, byte, position);
    }
    Ok(())
}

fn assert_refused(rt: &impl Abort, rope: &mut Rope, encoding: Encoding, range: Range) {
    let change = Change {
        range: Some(range),
        text: "c",
    };
    let found = rope.apply(encoding, change);
    let bytes = byte_range(&mut rope.view(), LineType::Crlf, encoding, range);
    assert!(rt;
        found == Err(Refusal::NotOrdered) && bytes.is_none(),
        "{found:?}"
    );
}

#[test]
fn a_range_that_ends_before_it_starts_is_refused(rt: HostRuntime) -> Result<(), Fail> {
    let mut rope = Rope::from_str(rt.alloc(), "a\r\nb")?;
    let backward = Range {
        start: at(1, 0),
        end: at(0, 1),
    };
    for encoding in ENCODINGS {
        assert_refused(&rt, &mut rope, encoding, backward);
        assert_text(&rt, &text_of(rt.alloc(), &rope)?, "a\r\nb");
    }
    Ok(())
}

#[test]
fn a_change_has_a_range_or_is_the_whole_text(rt: HostRuntime) -> Result<(), Fail> {
    // the line's end is before its break, and the second unit of the frog is the frog
    let rows = [
        (Some((at(0, 9), at(1, 1))), "a-🐸b"),
        (Some((at(1, 2), at(9, 9))), "a\r\n🐸-"),
        (Some((at(0, 0), at(0, 0))), "-a\r\n🐸b"),
        (None, "-"),
    ];
    for (range, wanted) in rows {
        let change = Change {
            range: range.map(|(start, end)| Range { start, end }),
            text: "-",
        };
        let rope = opened_and_changed(rt.alloc(), "a\r\n🐸b", Encoding::Utf16, change)?;
        assert_text(&rt, &text_of(rt.alloc(), &rope)?, wanted);
    }
    Ok(())
}
