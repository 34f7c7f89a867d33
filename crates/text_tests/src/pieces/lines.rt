//! Positions in a text in pieces, beside those of the joined text.
use super::cut_up;
use crate::questions::differs_at_byte;
use piece_text::{PieceParts, PieceText};
use std::process::Abort;
use std::test::Fail;

/// Compares what is answered at a byte.
fn assert_byte(rt: &impl Abort, text: &PieceText, joined: &str, byte: usize) {
    let found = differs_at_byte(&mut PieceParts::of(text.view()), joined, byte);
    assert!(rt; found.is_none(), "{joined:?} {byte}: {found:?}");
}

#[test]
fn pieces_have_the_positions_of_the_joined_text(rt: HostRuntime) -> Result<(), Fail> {
    let texts = [
        "",
        "ab\r\ncd",
        "\r\n\r\r\n🐸b\u{85}\u{B}x",
        "Hello\u{D}\u{A}\u{D}せ\u{B}か\u{C}い\u{85}. There\u{2028}\r\n",
    ];
    for joined in texts {
        for each in 1..=3 {
            let text = cut_up(rt.alloc(), joined, each)?;
            for byte in 0..joined.len().saturating_add(2) {
                assert_byte(&rt, &text, joined, byte);
            }
        }
    }
    Ok(())
}

#[test]
fn pieces_in_runs_have_the_positions_of_the_joined_text(rt: HostRuntime) -> Result<(), Fail> {
    let joined = "über 🐸\u{2029}x\r\n".repeat(rt.alloc(), 30)?;
    let text = cut_up(rt.alloc(), &joined, 1)?;
    for start in [0, 560, joined.len().saturating_sub(5)] {
        for byte in start..start.saturating_add(8) {
            assert_byte(&rt, &text, &joined, byte);
        }
    }
    Ok(())
}
