//! Ropes that are cut in two and put together.
use super::{LINE, assert_same, assert_same_counts, concat, lines};
use std::alloc::Global;
use std::process::Abort;
use std::test::Fail;
use text_rope::{Refusal, Rope};

/// Puts a text after a rope, by a rope of its own, and looks at what is left of that.
fn append(rt: &impl Abort, alloc: Global, rope: &mut Rope, text: &str) -> Result<(), Refusal> {
    let mut rest = Rope::from_str(alloc, text)?;
    rope.append(&mut rest)?;
    assert_same(rt, &rest, "");
    Ok(())
}

/// Puts the second rope after the first, and compares the whole with both texts in one.
fn assert_append(rt: &impl Abort, alloc: Global, first: &str, second: &str) -> Result<(), Fail> {
    let mut rope = Rope::from_str(alloc, first)?;
    append(rt, alloc, &mut rope, second)?;
    let text = concat(alloc, [first, second, ""])?;
    assert_same(rt, &rope, &text);
    Ok(())
}

/// Cuts a rope at a byte, and compares both parts with those of the text.
fn assert_parts(
    rt: &impl Abort,
    rope: &mut Rope,
    at: usize,
    front: &str,
    back: &str,
) -> Result<(), Refusal> {
    let rest = rope.split_off(at)?;
    assert_same_counts(rt, rope, front);
    assert_same_counts(rt, &rest, back);
    assert_same(rt, rope, front);
    assert_same(rt, &rest, back);
    Ok(())
}

/// Cuts a rope of a text at a byte.
fn assert_cut(rt: &impl Abort, alloc: Global, text: &str, at: usize) -> Result<(), Fail> {
    let (front, back) = text.split_at_checked(at).ok_or("no boundary")?;
    let mut rope = Rope::from_str(alloc, text)?;
    assert_parts(rt, &mut rope, at, front, back)?;
    Ok(())
}

#[test]
fn a_rope_after_another(rt: HostRuntime) -> Result<(), Fail> {
    let text = concat(rt.alloc(), [&lines(rt.alloc(), 30)?, "\r", ""])?;
    for second in ["", "\nend", "🐸", LINE, &text] {
        assert_append(&rt, rt.alloc(), &text, second)?;
        assert_append(&rt, rt.alloc(), second, &text)?;
    }
    Ok(())
}

#[test]
fn a_rope_in_two(rt: HostRuntime) -> Result<(), Fail> {
    let text = lines(rt.alloc(), 30)?;
    let len = LINE.len();
    // between CR and LF of the first line, of one in the middle, and of the last one
    for at in [0, len - 1, len * 15 - 1, len * 15, len * 30 - 1, len * 30] {
        assert_cut(&rt, rt.alloc(), &text, at)?;
    }
    Ok(())
}

fn assert_no_cut(rt: &impl Abort, rope: &mut Rope, at: usize) {
    let found = rope.split_off(at).err();
    assert!(rt; found == Some(Refusal::NotBoundary), "{at} {found:?}");
}

#[test]
fn a_cut_inside_a_character_is_refused(rt: HostRuntime) -> Result<(), Fail> {
    let mut rope = Rope::from_str(rt.alloc(), "aé")?;
    assert_no_cut(&rt, &mut rope, 2);
    assert_no_cut(&rt, &mut rope, 4);
    assert_same(&rt, &rope, "aé");
    Ok(())
}
