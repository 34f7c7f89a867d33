//! The counts and conversions, beside those of the plain functions.
use super::STRETCH;
use super::texts::{BEFORE, mixed_text, round_marks};
use std::process::Abort;
use std::test::Fail;
use text_index::{Scheme, TextIndex};

/// Compares an answer with the plain function's.
fn assert_same(rt: &impl Abort, found: usize, wanted: usize, s: Scheme, i: usize) {
    assert_eq!(rt; found, wanted, "{s:?} {i}");
}

/// Compares all answers for an index.
fn assert_at(rt: &impl Abort, index: &TextIndex<'_>, i: usize) {
    let text = index.text();
    for s in Scheme::ALL {
        assert_same(
            rt,
            index.from_byte_idx(s, i),
            s.from_byte_idx(text, i),
            s,
            i,
        );
        assert_same(rt, index.to_byte_idx(s, i), s.to_byte_idx(text, i), s, i);
    }
    assert_eq!(rt; index.is_char_boundary(i), text.is_char_boundary(i), "{i}");
}

/// Compares the counts.
fn assert_counts(rt: &impl Abort, index: &TextIndex<'_>) {
    for s in Scheme::ALL {
        assert_same(rt, index.count(s), s.count(index.text()), s, 0);
    }
}

#[test]
fn every_index_of_a_mixed_text(rt: HostRuntime) -> Result<(), Fail> {
    for many in [0, 1, 60] {
        let text = mixed_text(rt.alloc(), many)?;
        let index = TextIndex::of(rt.alloc(), text.as_str())?;
        assert_counts(&rt, &index);
        for i in 0..text.len() + 3 {
            assert_at(&rt, &index, i);
        }
        assert_at(&rt, &index, usize::MAX);
    }
    Ok(())
}

#[test]
fn chars_and_breaks_at_marks_and_beside_them(rt: HostRuntime) -> Result<(), Fail> {
    for text in &round_marks(rt.alloc())? {
        let index = TextIndex::of(rt.alloc(), text.as_str())?;
        assert_counts(&rt, &index);
        for mark in 1..3 {
            let place = mark * STRETCH;
            for i in place - 2 * BEFORE..place + 2 * BEFORE {
                assert_at(&rt, &index, i);
            }
        }
        // those of the lines round the marks
        for i in 0..50 {
            assert_at(&rt, &index, i);
        }
    }
    Ok(())
}

#[test]
fn a_text_of_whole_stretches(rt: HostRuntime) -> Result<(), Fail> {
    for many in [STRETCH - 1, STRETCH, STRETCH + 1, 3 * STRETCH] {
        let text = "a".repeat(rt.alloc(), many)?;
        let index = TextIndex::of(rt.alloc(), text.as_str())?;
        assert_counts(&rt, &index);
        for i in [
            0,
            1,
            STRETCH - 1,
            STRETCH,
            STRETCH + 1,
            3 * STRETCH - 1,
            3 * STRETCH,
            usize::MAX,
        ] {
            assert_at(&rt, &index, i);
        }
    }
    Ok(())
}
