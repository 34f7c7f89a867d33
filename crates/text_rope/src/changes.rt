//! Whole chunks of a tree replaced by others, beside the tree as it was.
ghost use Rattle.std.specs.Prelude.{◌≡◌, ◌≢◌, ◌+◌, ◌-◌, ◌*◌, ◌^◌, ◌<◌, ◌≤◌, ◌++◌, ◌⊎◌, min, length, IfOk};
ghost use Rattle.text_summary.specs.Pieces.{joined_size};
ghost use Rattle.text_rope.specs.Leaves.{leaf_capacity};
ghost use Rattle.text_rope.specs.ChunkEnds.{AreExchanged, IsChunkEnd};
ghost use Rattle.text_rope.specs.States.{texts_of};
ghost use Rattle.text_rope.specs.Work.{WorkState, Costs, TakesLog, height_or};

use crate::chunk::Chunk;
use crate::joins::{height_of, join_options};
use crate::leaf::{LEAF_CAPACITY, chunk_up_to, push_shared};
use crate::loads::{few_of, tree_of};
use crate::rope::costs::Work;
use crate::tree::{Below, Subtree, Tree};
use std::alloc::{AllocError, Global};

/// The tree with the chunks between two of their ends replaced by others; all nodes off the ways to both ends are shared.
pub(crate) fn splice(
    work: &mut Work,
    alloc: Global,
    subtree: &Subtree,
    from: usize,
    to: usize,
    chunks: Vec<Chunk>,
) -> Result<Option<Subtree>, AllocError>
    requires some { from < to }
    requires start { IsChunkEnd subtree.now.texts from }
    requires end { IsChunkEnd subtree.now.texts to }
    requires short { joined_size subtree.now.texts + joined_size chunks.items < 2 ^ 63 + (to - from) }
    ensures replaced { IfOk result (λ whole. AreExchanged subtree.now.texts (texts_of whole) from to chunks.items) }
    ensures few { length chunks.items ≤ leaf_capacity → Costs work.old work.new (44 * subtree.now.height + 12) 192 }
    ensures work { Costs work.old work.new (50 * subtree.now.height + 44 * length chunks.items + 47)
        (2 * length chunks.items + 240) }
{
    if chunks.len() <= LEAF_CAPACITY {
        return Ok(splice_few(work, alloc, subtree, from, to, chunks)?);
    }
    let front = splice_few(
        work,
        alloc,
        subtree,
        from,
        subtree.summary().len,
        Vec::new(alloc),
    )?;
    let own = tree_of(work, alloc, chunks)?;
    let front = join_options(work, alloc, front.as_ref(), own.as_ref())?;
    let back = splice_few(work, alloc, subtree, 0, to, Vec::new(alloc))?;
    Ok(join_options(work, alloc, front.as_ref(), back.as_ref())?)
}

/// Splices at most a leaf of chunks. They go into the first leaf that loses chunks to them, if a leaf stays.
fn splice_few(
    work: &mut Work,
    alloc: Global,
    subtree: &Subtree,
    from: usize,
    to: usize,
    chunks: Vec<Chunk>,
) -> Result<Option<Subtree>, AllocError>
    requires some { from < to }
    requires start { IsChunkEnd subtree.now.texts from }
    requires end { IsChunkEnd subtree.now.texts to }
    requires short { joined_size subtree.now.texts + joined_size chunks.items < 2 ^ 63 + (to - from) }
    requires few { length chunks.items ≤ leaf_capacity }
    ensures replaced { IfOk result (λ whole. AreExchanged subtree.now.texts (texts_of whole) from to chunks.items) }
    ensures low { height_or 0 result ≤ subtree.now.height + 1 }
    ensures edge { (from ≡ 0) ⊎ (to ≡ joined_size subtree.now.texts) →
        Costs work.old work.new (6 * height_or (subtree.now.height + 1) result + 16 * subtree.now.height + 6)
        (48 + 16 * min subtree.now.height 2 + 16 * min (height_or 1 result) 1) }
    ensures work { Costs work.old work.new (6 * height_or (subtree.now.height + 1) result + 38 * subtree.now.height + 6)
        (144 + 16 * min subtree.now.height 2 + 16 * min (height_or 1 result) 1) }
{
    let whole = subtree.summary().len;
    if from == 0 && to == whole {
        return few_of(work, alloc, chunks);
    }
    let (left, right) = match work.look(subtree) {
        Below::Chunks(own) => return splice_chunks(work, alloc, own, from, to, chunks),
        Below::Subtrees(left, right) => (left, right),
    };
    let middle = left.summary().len;
    if to <= middle {
        let front = splice_few(work, alloc, left, from, to, chunks)?;
        return join_options(work, alloc, front.as_ref(), Some(right));
    }
    if middle <= from {
        let back = splice_few(work, alloc, right, from - middle, to - middle, chunks)?;
        return join_options(work, alloc, Some(left), back.as_ref());
    }
    if from == 0 {
        return splice_few(work, alloc, right, 0, to - middle, chunks);
    }
    let front = splice_few(work, alloc, left, from, middle, chunks)?;
    if to == whole {
        return Ok(front);
    }
    let back = splice_few(work, alloc, right, 0, to - middle, Vec::new(alloc))?;
    join_options(work, alloc, front.as_ref(), back.as_ref())
}

/// Splices the chunks of one leaf.
#[inline(never)]
fn splice_chunks(
    work: &mut Work,
    alloc: Global,
    own: &[Chunk],
    from: usize,
    to: usize,
    mut chunks: Vec<Chunk>,
) -> Result<Option<Subtree>, AllocError>
    requires some { from < to }
    requires start { IsChunkEnd own.now from }
    requires end { IsChunkEnd own.now to }
    requires short_own { joined_size own.now < 2 ^ 63 }
    requires short { joined_size own.now + joined_size chunks.items < 2 ^ 63 + (to - from) }
    requires few_own { length own.now ≤ leaf_capacity }
    requires few { length chunks.items ≤ leaf_capacity }
    ensures replaced { IfOk result (λ whole. AreExchanged own.now (texts_of whole) from to chunks.items) }
    ensures low { height_or 0 result ≤ 1 }
    ensures work { Costs work.old work.new 5 48 }
{
    let (front, rest) = own.split_at(chunk_up_to(own, from + 1).chunk);
    let (_, back) = rest.split_at(chunk_up_to(rest, to - from).chunk + 1);
    let mut all = Vec::with_capacity(alloc, front.len() + chunks.len() + back.len())?;
    push_shared(work, &mut all, front)?;
    all.append(&mut chunks)?;
    push_shared(work, &mut all, back)?;
    Ok(few_of(work, alloc, all)?)
}

/// All of two trees in one, beside both. Neither is one chunk.
pub(crate) fn append_trees(
    work: &mut Work,
    alloc: Global,
    front: &Tree,
    back: &Tree,
) -> Result<Tree, AllocError>
    requires short { joined_size front.now + joined_size back.now < 2 ^ 63 }
    requires front { length front.now ≢ 1 }
    requires back { length back.now ≢ 1 }
    ensures chunks { IfOk result (λ tree. tree ≡ front.now ++ back.now) }
    ensures work { TakesLog 6 16 (joined_size front.now + joined_size back.now) 0 work.old work.new }
{
    let (front, back) = (front.root(), back.root());
    let _heights = (height_of(front), height_of(back));
    Ok(Tree::of(join_options(work, alloc, front, back)?))
}
