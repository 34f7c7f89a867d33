//! How many chunks a text has: memory is taken by the chunk.
use super::{Change, fewest_pieces, lines, make};
use std::process::Abort;
use std::test::Fail;
use text_rope::Rope;
use text_tests::random::Random;

/// How many changes a text of some hundred kilobytes has.
const CHANGES: usize = 300_000;

fn pieces_of(rope: &Rope) -> usize {
    let mut pieces: usize = 0;
    for _ in rope.chunks() {
        pieces = pieces.saturating_add(1);
    }
    pieces
}

/// Asserts that there are at most `tenths` tenths of the fewest chunks, and one.
fn assert_few(rt: &impl Abort, rope: &Rope, tenths: usize) {
    let pieces = pieces_of(rope);
    let most = fewest_pieces(rope.len()).saturating_mul(tenths);
    assert!(rt;
        pieces.saturating_mul(10) <= most.saturating_add(10),
        "{pieces} of {}",
        rope.len()
    );
}

#[test]
fn a_load_has_few_pieces(rt: HostRuntime) -> Result<(), Fail> {
    let text = lines(rt.alloc(), 60_000)?;
    for bytes in [0, 1, 1_024, 1_025, 2_047, 10_000, 123_456, 3_000_000] {
        let part = text.split_at(text.floor_char_boundary(bytes)).0;
        assert_few(&rt, &Rope::from_str(rt.alloc(), part)?, 12);
    }
    Ok(())
}

/// A few letters put in or taken out at a random place: as many as there are on average.
fn random_change<'a>(random: &mut Random, len: usize, letters: &'a str) -> Change<'a> {
    let from = random.below(len.saturating_add(1));
    let n = random.below(20);
    if random.below(2) == 0 {
        return Change {
            from,
            to: from.saturating_add(n).min(len),
            put: "",
        };
    }
    Change {
        from,
        to: from,
        put: letters.split_at(letters.floor_char_boundary(n)).0,
    }
}

#[test]
fn many_changes_leave_few_pieces(rt: HostRuntime) -> Result<(), Fail> {
    let letters = "abcdefghijklmnopqrstuvwxyz";
    let mut random = Random::new(0x7069_6563);
    let mut rope = Rope::from_str(rt.alloc(), &letters.repeat(rt.alloc(), 10_000)?)?;
    for _ in 0..CHANGES {
        let change = random_change(&mut random, rope.len(), letters);
        make(&mut rope, change)?;
    }
    assert_few(&rt, &rope, 20);
    Ok(())
}
