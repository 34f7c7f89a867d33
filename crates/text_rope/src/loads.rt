//! A text in chunks, and chunks in a tree.
ghost use Rattle.std.specs.Prelude.{ℕ, ◌≡◌, ◌≢◌, ◌+◌, ◌-◌, ◌*◌, ◌/◌, ◌^◌, ◌<◌, ◌≤◌, ◌++◌, [], chars, length, string_bytes, IfOk, IsCharBoundary, OnOk};
ghost use Rattle.str_indices.specs.Text.{size};
ghost use Rattle.text_summary.specs.Pieces.{joined, joined_size};
ghost use Rattle.text_rope.specs.Leaves.{leaf_capacity};
ghost use Rattle.text_rope.specs.ChunkSizes.{max_chunk, min_chunk, AreLongEnough};
ghost use Rattle.text_rope.specs.States.{texts_of};
ghost use Rattle.text_rope.specs.Work.{WorkState, Costs, height_of, height_or};

use crate::chunk::{Chunk, MAX_CHUNK};
use crate::joins::{height_of, join, join_options};
use crate::leaf::LEAF_CAPACITY;
use crate::rope::costs::Work;
use crate::tree::{Subtree, Tree, leaf_of};
use std::alloc::{AllocError, Global};

/// How many bytes a chunk of a long text has at most: there is room for the first changes.
const LOADED: usize = MAX_CHUNK / 8 * 7;

/// How many chunks a leaf has where there are many: there is room for the first changes.
const LOADED_LEAF: usize = LEAF_CAPACITY / 8 * 7;

/// How many bytes a char takes at most.
const WIDEST: usize = 4;

/// A tree of a text, in even chunks.
pub(crate) fn tree_from(work: &mut Work, alloc: Global, text: &str) -> Result<Tree, AllocError>
    requires { length text.now < 2 ^ 63 }
    ensures text { IfOk result (λ tree. joined tree ≡ chars text.now) }
    ensures work { Costs work.old work.new (64 * (length text.now / min_chunk) + 40) (3 * (length text.now / min_chunk) + 20) }
{
    let chunks = chunks_of(alloc, text)?;
    let root = tree_of(work, alloc, chunks)?;
    Ok(Tree::of(root))
}

/// The chunks of a text, of about as many bytes, and none short where there are several.
pub(crate) fn chunks_of(alloc: Global, text: &str) -> Result<Vec<Chunk>, AllocError>
    requires { length text.now < 2 ^ 63 }
    ensures text { IfOk result (λ chunks. joined chunks.items ≡ chars text.now) }
    ensures few { IfOk result (λ chunks. min_chunk * length chunks.items ≤ length text.now + min_chunk) }
    ensures full { min_chunk ≤ length text.now → IfOk result (λ chunks. AreLongEnough chunks.items) }
    ensures one { length text.now ≤ max_chunk → IfOk result (λ chunks. length chunks.items ≤ 1) }
    ensures none { length text.now ≡ 0 → IfOk result (λ chunks. length chunks.items ≡ 0) }
{
    let mut chunks = Vec::with_capacity(alloc, text.len().div_ceil(LOADED))?;
    let mut rest = text;
    while !rest.is_empty() {
        let (own, after) = first_chunk(rest);
        chunks.push(Chunk::of(alloc, own)?)?;
        rest = after;
    }
    Ok(chunks)
}

/// The chunks of a text, which keep its memory where it is one chunk.
pub(crate) fn chunks_in(alloc: Global, text: String) -> Result<Vec<Chunk>, AllocError>
    requires { length (string_bytes text) < 2 ^ 63 }
    ensures text { IfOk result (λ chunks. joined chunks.items ≡ chars (string_bytes text)) }
    ensures few { IfOk result (λ chunks. min_chunk * length chunks.items ≤ length (string_bytes text) + min_chunk) }
    ensures full { min_chunk ≤ length (string_bytes text) → IfOk result (λ chunks. AreLongEnough chunks.items) }
    ensures one { length (string_bytes text) ≤ max_chunk → IfOk result (λ chunks. length chunks.items ≤ 1) }
    ensures none { length (string_bytes text) ≡ 0 → IfOk result (λ chunks. length chunks.items ≡ 0) }
{
    let whole = text.as_str();
    if whole.is_empty() || MAX_CHUNK < whole.len() {
        return Ok(chunks_of(alloc, whole)?);
    }
    let mut only = Vec::with_capacity(alloc, 1)?;
    only.push(Chunk::from_string(alloc, text)?)?;
    Ok(only)
}

/// The first chunk of a text, and what is after it.
fn first_chunk(text: &str) -> (&str, &str)
    requires some { 0 < length text.now }
    requires short { length text.now < 2 ^ 63 }
    ensures parts { chars text.now ≡ chars result.0.now ++ chars result.1.now }
    ensures some { chars result.0.now ≢ [] }
    ensures piece { size (chars result.0.now) ≤ max_chunk }
    ensures less { length result.1.now < length text.now }
    ensures len { size (chars result.0.now) + length result.1.now ≡ length text.now }
    ensures whole { length text.now ≤ max_chunk → length result.1.now ≡ 0 }
    ensures enough { 0 < length result.1.now → min_chunk ≤ size (chars result.0.now) }
    ensures rest { 0 < length result.1.now → min_chunk ≤ length result.1.now }
{
    if text.len() <= MAX_CHUNK {
        return (text, "");
    }
    let chunks = text.len().div_ceil(LOADED);
    let each = (text.len() / chunks).clamp(WIDEST, LOADED);
    let end = end_near(text, each);
    text.split_at(end)
}

/// The greatest boundary up to a byte index. It is no more than three bytes before it, also of bytes that are not UTF-8: so each
/// load ends.
fn end_near(text: &str, at: usize) -> usize
    requires { at < length text.now }
    ensures bound { result ≤ at }
    ensures boundary { IsCharBoundary text.now result }
    ensures nearest { (i : ℕ) → result < i → i ≤ at → ¬ (IsCharBoundary text.now i) }
{
    let end = text.floor_char_boundary(at);
    end.max(at.saturating_sub(WIDEST - 1))
}

/// A tree of some chunks.
pub(crate) fn tree_of(
    work: &mut Work,
    alloc: Global,
    mut chunks: Vec<Chunk>,
) -> Result<Option<Subtree>, AllocError>
    requires { joined_size chunks.items < 2 ^ 63 }
    ensures chunks { IfOk result (λ whole. texts_of whole ≡ chunks.items) }
    ensures low { height_or 0 result ≤ length chunks.items }
    ensures leaf { length chunks.items ≤ leaf_capacity → height_or 0 result ≡ 0 }
    ensures few { length chunks.items ≤ leaf_capacity → Costs work.old work.new 5 16 }
    ensures work { Costs work.old work.new (32 * length chunks.items + 5) (2 * length chunks.items + 16) }
{
    let all = chunks.len();
    if all <= 2 * LEAF_CAPACITY {
        return Ok(few_of(work, alloc, chunks)?);
    }
    Ok(build_tree(work, alloc, &mut chunks, all)?)
}

/// A tree of no more chunks than two leaves have: of none, one or two.
#[inline(never)]
pub(crate) fn few_of(
    work: &mut Work,
    alloc: Global,
    mut chunks: Vec<Chunk>,
) -> Result<Option<Subtree>, AllocError>
    requires few { length chunks.items ≤ 2 * leaf_capacity }
    requires short { joined_size chunks.items < 2 ^ 63 }
    ensures chunks { IfOk result (λ whole. texts_of whole ≡ chunks.items) }
    ensures low { height_or 0 result ≤ 1 }
    ensures leaf { length chunks.items ≤ leaf_capacity → height_or 0 result ≡ 0 }
    ensures work { Costs work.old work.new 5 16 }
{
    let all = chunks.len();
    if all == 0 {
        return Ok(None);
    }
    if all <= LEAF_CAPACITY {
        return Ok(Some(leaf_of(work, alloc, chunks)?));
    }
    let back = chunks.split_off(all / 2)?;
    let left = leaf_of(work, alloc, chunks)?;
    let right = leaf_of(work, alloc, back)?;
    Ok(Some(join(work, alloc, &left, &right)?))
}

/// A tree of the last chunks of some, which are taken off.
fn build_tree(
    work: &mut Work,
    alloc: Global,
    chunks: &mut Vec<Chunk>,
    many: usize,
) -> Result<Option<Subtree>, AllocError>
    requires enough { 28 ≤ many }
    requires within { many ≤ length chunks.old.items }
    requires short { joined_size chunks.old.items < 2 ^ 63 }
    ensures chunks { IfOk result (λ whole. chunks.old.items ≡ chunks.new.items ++ texts_of whole) }
    ensures rest { OnOk result (length chunks.new.items + many ≡ length chunks.old.items) }
    ensures low { height_or 0 result ≤ many }
    ensures work { Costs work.old work.new (32 * many - 800) (2 * many - 16) }
{
    if many <= 2 * LEAF_CAPACITY {
        let own = chunks.split_off(chunks.len() - many)?;
        return Ok(few_of(work, alloc, own)?);
    }
    let half = half_of(many);
    let right = build_tree(work, alloc, chunks, half)?;
    let left = build_tree(work, alloc, chunks, many - half)?;
    let (left, right) = (left.as_ref(), right.as_ref());
    let _heights = (height_of(left), height_of(right));
    Ok(join_options(work, alloc, left, right)?)
}

/// How many of many chunks go to the right: as many as fill leaves.
fn half_of(many: usize) -> usize
    requires { 64 < many }
    ensures enough { 28 ≤ result }
    ensures less { result + 28 ≤ many }
{
    many / (2 * LOADED_LEAF) * LOADED_LEAF
}
