//! A part of a text replaced by another text, beside the tree as it was.
ghost use Rattle.std.specs.Prelude.{◌≡◌, ◌+◌, ◌-◌, ◌*◌, ◌/◌, ◌^◌, ◌<◌, ◌≤◌, ◌++◌, ◌⊎◌, chars, length, string_bytes, IfOk};
ghost use Rattle.str_indices.specs.Relations.{IsBoundary};
ghost use Rattle.str_indices.specs.Text.{size};
ghost use Rattle.text_summary.specs.Changes.{IsReplaced};
ghost use Rattle.text_summary.specs.Pieces.{joined, joined_size};
ghost use Rattle.text_rope.specs.Edits.{IsPatch, IsSpread, patched};
ghost use Rattle.text_rope.specs.ChunkEnds.{IsChunkOf};
ghost use Rattle.text_rope.specs.ChunkSizes.{max_chunk, min_chunk, IsFilled};
ghost use Rattle.text_rope.specs.Rests.{IsLeafAt};
ghost use Rattle.text_rope.specs.Work.{WorkState, Costs, TakesLog};

use crate::changes::splice;
use crate::chunk::{MIN_CHUNK, memory_for};
use crate::cursor::{LeafPlace, chunk_of_leaf};
use crate::iter::text_between;
use crate::loads::{chunks_in, tree_from};
use crate::rope::costs::Work;
use crate::tree::{Below, Subtree, Tree};
use std::alloc::{AllocError, Global};

/// A chunk's text, and the byte indices where it starts and ends.
#[derive(Clone, Copy)]
struct ChunkSpan<'a> {
    text: &'a str,
    start: usize,
    end: usize,
}

/// Whole chunks in which a part is replaced: the byte indices where they start and end, and what of them stays before the part
/// and after it, each in two texts.
#[derive(Clone, Copy)]
pub(crate) struct Patch<'a> {
    pub(crate) start: usize,
    pub(crate) end: usize,
    pub(crate) before: &'a str,
    pub(crate) head: &'a str,
    pub(crate) tail: &'a str,
    pub(crate) after: &'a str,
}

/// The tree of a text with what is between two boundaries replaced by another one; either may have no chunks.
pub(crate) fn replace_text(
    work: &mut Work,
    alloc: Global,
    tree: &Tree,
    from: usize,
    to: usize,
    more: &str,
) -> Result<Tree, AllocError>
    requires order { from ≤ to }
    requires start { IsBoundary (joined tree.now) from }
    requires end { IsBoundary (joined tree.now) to }
    requires short { joined_size tree.now + length more.now < 2 ^ 63 + (to - from) }
    ensures replaced { IfOk result (λ whole. IsReplaced (joined tree.now) (joined whole) from to (chars more.now)) }
    ensures work { TakesLog 53 240 (joined_size tree.now) (length more.now) work.old work.new }
{
    match tree.root() {
        Some(subtree) => {
            let (_height, _summary) = (subtree.height(), subtree.summary());
            replace_text_in(work, alloc, subtree, from, to, more)
        }
        None => Ok(tree_from(work, alloc, more)?),
    }
}

/// Replaces in a tree that has chunks: writes the chunks of the part anew, with one beside them if they would be short.
fn replace_text_in(
    work: &mut Work,
    alloc: Global,
    subtree: &Subtree,
    from: usize,
    to: usize,
    more: &str,
) -> Result<Tree, AllocError>
    requires filled { IsFilled subtree.now.texts }
    requires order { from ≤ to }
    requires start { IsBoundary (joined subtree.now.texts) from }
    requires end { IsBoundary (joined subtree.now.texts) to }
    requires short { joined_size subtree.now.texts + length more.now < 2 ^ 63 + (to - from) }
    ensures replaced { IfOk result (λ whole. IsReplaced (joined subtree.now.texts) (joined whole) from to (chars more.now)) }
    ensures work { Costs work.old work.new (53 * subtree.now.height + 64 * (length more.now / min_chunk) + 100)
        (3 * (length more.now / min_chunk) + 240) }
{
    let _each = subtree.summary();
    let patch = patch_of(work, subtree, from, to);
    let patch = widen(work, subtree, from, to, patch, more.len());
    let Patch {
        before,
        head,
        tail,
        after,
        ..
    } = patch;
    let text = text_of(alloc, before, head, more, tail, after)?;
    let chunks = chunks_in(alloc, text)?;
    let root = splice(work, alloc, subtree, patch.start, patch.end, chunks)?;
    Ok(Tree::of(root))
}

/// The chunks that a part is in. A part of no bytes between two chunks is in the one that ends there.
fn patch_of<'a>(work: &mut Work, subtree: &'a Subtree, from: usize, to: usize) -> Patch<'a>
    requires order { from ≤ to }
    requires start { IsBoundary (joined subtree.now.texts) from }
    requires end { IsBoundary (joined subtree.now.texts) to }
    ensures patch { IsPatch subtree.now.texts from to result }
    ensures short { length result.head.now + length result.tail.now ≤ 2 * max_chunk }
    ensures before { length result.before.now ≡ 0 }
    ensures after { length result.after.now ≡ 0 }
    ensures work { Costs work.old work.new (2 * subtree.now.height + 2) 0 }
{
    let _some = subtree.summary();
    let last = stretch_at(work, subtree, to.saturating_sub(1));
    let first = first_from(work, subtree, last, from);
    Patch {
        start: first.start,
        end: last.end,
        before: "",
        head: text_between(first.text, 0, from - first.start),
        tail: text_between(last.text, to - last.start, last.text.len()),
        after: "",
    }
}

/// The chunk that a part begins in, where the one that it ends in is known.
fn first_from<'a>(
    work: &mut Work,
    subtree: &'a Subtree,
    last: ChunkSpan<'a>,
    from: usize,
) -> ChunkSpan<'a>
    requires chunk { IsChunkOf subtree.now.texts (chars last.text.now) last.start last.end }
    requires piece { size (chars last.text.now) ≤ max_chunk }
    requires within { from ≤ last.end }
    ensures chunk { IsChunkOf subtree.now.texts (chars result.text.now) result.start result.end }
    ensures piece { size (chars result.text.now) ≤ max_chunk }
    ensures after { result.start ≤ from }
    ensures within { from ≤ result.end }
    ensures first { result.start ≤ last.entry.start }
    ensures work { Costs work.old work.new (subtree.now.height + 1) 0 }
{
    if last.start <= from {
        return last;
    }
    stretch_at(work, subtree, from)
}

/// Adds the chunk after a patch, or else the one before it, if the patch would be too short for a chunk with `more` bytes.
fn widen<'a>(
    work: &mut Work,
    subtree: &'a Subtree,
    from: usize,
    to: usize,
    patch: Patch<'a>,
    more: usize,
) -> Patch<'a>
    requires filled { IsFilled subtree.now.texts }
    requires patch { IsPatch subtree.now.texts from to patch }
    requires short { length patch.head.now + length patch.tail.now ≤ 2 * max_chunk }
    requires before { length patch.before.now ≡ 0 }
    requires after { length patch.after.now ≡ 0 }
    requires more { more < 2 ^ 63 }
    ensures patch { IsPatch subtree.now.texts from to result }
    ensures short { IsSpread result (3 * max_chunk) }
    ensures filled { (patched result more ≡ 0) ⊎ (min_chunk ≤ patched result more)
        ⊎ ((result.start ≡ 0) × (result.end ≡ joined_size subtree.now.texts)) }
    ensures work { Costs work.old work.new (subtree.now.height + 1) 0 }
{
    let whole = subtree.summary().len;
    let len = patch.head.len() + more + patch.tail.len();
    if len == 0 || MIN_CHUNK <= len {
        return patch;
    }
    if patch.end < whole {
        let next = stretch_at(work, subtree, patch.end);
        return Patch {
            end: next.end,
            after: next.text,
            ..patch
        };
    }
    if 0 < patch.start {
        let prior = stretch_at(work, subtree, patch.start - 1);
        return Patch {
            start: prior.start,
            before: prior.text,
            ..patch
        };
    }
    patch
}

/// A text between others, in one.
fn text_of(
    alloc: Global,
    before: &str,
    head: &str,
    more: &str,
    tail: &str,
    after: &str,
) -> Result<String, AllocError>
    requires { length before.now + length head.now + length tail.now + length after.now ≤ 3 * max_chunk }
    ensures text { IfOk result (λ text. chars (string_bytes text)
        ≡ (chars before.now ++ chars head.now) ++ (chars more.now ++ (chars tail.now ++ chars after.now))) }
    ensures len { IfOk result (λ text. length (string_bytes text)
        ≡ (length before.now + length head.now) + (length more.now + (length tail.now + length after.now))) }
{
    let around = before.len() + head.len() + tail.len() + after.len();
    let mut text = String::with_capacity(alloc, memory_for(around + more.len()))?;
    text.push_str(before)?;
    text.push_str(head)?;
    text.push_str(more)?;
    text.push_str(tail)?;
    text.push_str(after)?;
    Ok(text)
}

/// The chunk that a byte is in.
fn stretch_at<'a>(work: &mut Work, subtree: &'a Subtree, at: usize) -> ChunkSpan<'a>
    requires { at < joined_size subtree.now.texts }
    ensures chunk { IsChunkOf subtree.now.texts (chars result.text.now) result.start result.end }
    ensures after { result.start ≤ at }
    ensures inside { at < result.end }
    ensures len { length result.text.now ≡ size (chars result.text.now) }
    ensures piece { size (chars result.text.now) ≤ max_chunk }
    ensures work { Costs work.old work.new (subtree.now.height + 1) 0 }
{
    let _short = subtree.summary();
    let place = leaf_at_in(work, subtree, 0, at);
    let text = work.read(place.chunk());
    ChunkSpan {
        text,
        start: place.start,
        end: place.start + text.len(),
    }
}

/// The chunk that byte `at` is in, where `before` bytes are before the tree. Reads lengths alone.
fn leaf_at_in<'a>(work: &mut Work, subtree: &'a Subtree, before: usize, at: usize) -> LeafPlace<'a>
    requires short { before + joined_size subtree.now.texts < 2 ^ 63 }
    requires after { before ≤ at }
    requires inside { at < before + joined_size subtree.now.texts }
    ensures place { IsLeafAt before subtree.now.texts result.chunks.now result.index result.start at }
    ensures work { Costs work.old work.new (subtree.now.height + 1) 0 }
{
    match work.look(subtree) {
        Below::Chunks(chunks) => chunk_of_leaf(chunks, before, at),
        Below::Subtrees(left, right) => {
            let middle = before + left.summary().len;
            if at < middle {
                leaf_at_in(work, left, before, at)
            } else {
                leaf_at_in(work, right, middle, at)
            }
        }
    }
}
