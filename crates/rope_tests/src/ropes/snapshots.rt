//! Snapshots that are taken, changed and let go between many changes: each has its own text to the end.
use super::random_changes::{change_at_random, long};
use super::{Both, assert_same, lines};
use std::process::Abort;
use std::test::Fail;
use text_rope::{Refusal, Rope};
use text_tests::random::Random;

/// How many changes there are.
const CHANGES: usize = 6_000;

/// How many snapshots there are at most.
const KEPT: usize = 12;

/// Puts a letter between CR and LF of the text, and takes the end of the snapshot out.
fn change_both(rope: &mut Rope, before: &mut Rope) -> Result<(), Refusal> {
    rope.insert(2, "x")?;
    before.remove(1..4)
}

#[test]
fn a_change_of_either_leaves_the_other(rt: HostRuntime) -> Result<(), Fail> {
    let mut rope = Rope::from_str(rt.alloc(), "a\r\nb")?;
    let mut before = rope.snapshot()?;
    change_both(&mut rope, &mut before)?;
    assert_same(&rt, &rope, "a\rx\nb");
    assert_same(&rt, &before, "a");
    Ok(())
}

/// A snapshot of a rope, with an 'a' put in at its beginning.
fn with_letter(rope: &Rope) -> Result<Rope, Refusal> {
    let mut copy = rope.snapshot()?;
    copy.insert(0, "a")?;
    Ok(copy)
}

#[test]
fn a_snapshot_of_no_text(rt: HostRuntime) -> Result<(), Fail> {
    let rope = Rope::new(rt.alloc());
    let copy = with_letter(&rope)?;
    assert_same(&rt, &rope, "");
    assert_same(&rt, &copy, "a");
    Ok(())
}

/// Puts a snapshot of a rope after it; what is left of the snapshot is no text.
fn append_snapshot(rope: &mut Rope) -> Result<Rope, Refusal> {
    let mut copy = rope.snapshot()?;
    rope.append(&mut copy)?;
    Ok(copy)
}

/// Takes two snapshots of a text, and puts one of them after it.
fn assert_twice(rt: &impl Abort, rope: &mut Rope, text: &str, twice: &str) -> Result<(), Refusal> {
    let held = rope.snapshot()?;
    let copy = append_snapshot(rope)?;
    assert_same(rt, rope, twice);
    assert_same(rt, &copy, "");
    assert_same(rt, &held, text);
    Ok(())
}

#[test]
fn a_text_and_its_snapshot_in_one(rt: HostRuntime) -> Result<(), Fail> {
    let text = lines(rt.alloc(), 40)?;
    let twice = text.repeat(rt.alloc(), 2)?;
    let mut rope = Rope::from_str(rt.alloc(), &text)?;
    assert_twice(&rt, &mut rope, &text, &twice)?;
    Ok(())
}

/// One of the snapshots goes on as the text, and the text stays as a snapshot.
fn come_back(random: &mut Random, both: &mut Both, kept: &mut Vec<Both>) {
    let at = random.below(kept.len());
    if let Some(one) = kept.get_mut(at) {
        std::mem::swap(both, one);
    }
}

/// Takes a snapshot, in the place of another where there are many.
fn keep(random: &mut Random, both: &Both, kept: &mut Vec<Both>) -> Result<(), Fail> {
    let copy = both.snapshot()?;
    if kept.len() < KEPT {
        kept.push(copy)?;
    } else {
        kept[random.below(KEPT) % KEPT] = copy;
    }
    Ok(())
}

#[test]
fn snapshots_keep_their_texts(rt: HostRuntime) -> Result<(), Fail> {
    let mut random = Random::new(0x736E_6170);
    let long = long(rt.alloc())?;
    let mut both = Both::of(rt.alloc(), &lines(rt.alloc(), 1_500)?)?;
    let mut kept = Vec::new(rt.alloc());
    for i in 0..CHANGES {
        match random.below(20) {
            0..2 => keep(&mut random, &both, &mut kept)?,
            2 => come_back(&mut random, &mut both, &mut kept),
            3 if i % 2 == 0 => {
                kept.pop();
            }
            _ => {}
        }
        change_at_random(&rt, &mut random, &mut both, &long)?;
        if i % 200 == 0 {
            for one in &kept {
                one.assert_same_pieces(&rt)?;
            }
        }
    }
    kept.push(both)?;
    for one in &kept {
        one.assert_same_counts(&rt);
        one.assert_same_pieces(&rt)?;
    }
    Ok(())
}
