//! Positions and lines of each kind of line break, beside those that `positions` answers for a text by itself.
use std::alloc::{AllocError, Global};
use std::process::Abort;
use std::test::Fail;
use text_rope::Rope;
use text_tests::questions::differs_at_byte;

/// Pairs of texts: the first ends a rope, and the second begins the rope that is put after it.
const SEAMS: [(&str, &str); 7] = [
    ("\r", "\n"),
    ("\r", "\r\n"),
    ("\n", "\n"),
    ("\u{85}", "🐸\r"),
    ("a", "\u{2028}b"),
    ("é", "\u{C}c"),
    ("ab", "cd"),
];

/// Compares what is answered at some bytes.
fn assert_bytes(rt: &impl Abort, rope: &Rope, text: &str, bytes: std::ops::Range<usize>) {
    for byte in bytes.start..bytes.end {
        let found = differs_at_byte(&mut rope.view(), text, byte);
        assert!(rt; found.is_none(), "{byte}: {found:?}");
    }
}

/// Two texts of `lines` lines and what stands at the seam, and the rope of both.
fn two_texts(
    alloc: Global,
    lines: usize,
    (last, first): (&str, &str),
) -> Result<(Rope, String, usize), Fail> {
    let line = "one of the lines – über 🐸\u{2029}x\r\n";
    let body = line.repeat(alloc, lines)?;
    let front = [body.as_str(), last].concat(alloc)?;
    let back = [first, body.as_str()].concat(alloc)?;
    let mut rope = Rope::from_str(alloc, &front)?;
    rope.append(&mut Rope::from_str(alloc, &back)?)?;
    let text = [front.as_str(), back.as_str()].concat(alloc)?;
    Ok((rope, text, front.len()))
}

#[test]
fn each_kind_of_line_at_a_seam(rt: HostRuntime) -> Result<(), Fail> {
    for seam in SEAMS {
        for lines in [1, 40] {
            let (rope, text, at) = two_texts(rt.alloc(), lines, seam)?;
            assert_bytes(
                &rt,
                &rope,
                &text,
                at.saturating_sub(5)..at.saturating_add(7),
            );
        }
    }
    Ok(())
}

#[test]
fn each_kind_of_line_to_the_end(rt: HostRuntime) -> Result<(), Fail> {
    for text in ["", "a", "\r\n", "a\u{B}b\u{2028}", "\u{85}\r"] {
        let rope = Rope::from_str(rt.alloc(), text)?;
        assert_bytes(&rt, &rope, text, 0..text.len().saturating_add(3));
    }
    let (rope, text, _) = two_texts(rt.alloc(), 40, ("\r", "\n"))?;
    assert_bytes(
        &rt,
        &rope,
        &text,
        text.len().saturating_sub(3)..text.len().saturating_add(3),
    );
    Ok(())
}

/// A line that goes on over several chunks, with letters of several bytes or without.
fn long_line(alloc: Global, what: &str) -> Result<String, AllocError> {
    let many = what.repeat(alloc, 700)?;
    [many.as_str(), "\r\nb"].concat(alloc)
}

#[test]
fn each_kind_of_line_on_a_long_one(rt: HostRuntime) -> Result<(), Fail> {
    for what in ["abcd", "é🐸a"] {
        let text = long_line(rt.alloc(), what)?;
        let rope = Rope::from_str(rt.alloc(), &text)?;
        for byte in (0..text.len()).step_by(331) {
            assert_bytes(&rt, &rope, &text, byte..byte.saturating_add(1));
        }
        let end = text.len().saturating_sub(4);
        assert_bytes(&rt, &rope, &text, end..text.len());
    }
    Ok(())
}
