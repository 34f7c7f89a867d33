//! Two trees in one balanced tree. The nodes of both may have other owners: none is changed.
ghost use Rattle.std.specs.Prelude.{◌≡◌, ◌+◌, ◌-◌, ◌*◌, ◌^◌, ◌<◌, ◌≤◌, ◌++◌, min, length, IfOk, IfSome};
ghost use Rattle.text_summary.specs.Pieces.{joined_size};
ghost use Rattle.text_rope.specs.Leaves.{leaf_capacity};
ghost use Rattle.text_rope.specs.Shapes.{DifferByAtMost, IsBranchOf, IsJoined, IsJoinedHeight};
ghost use Rattle.text_rope.specs.States.{texts_of, texts_under};
ghost use Rattle.text_rope.specs.Work.{WorkState, Costs, IsHeightOf, height_of, height_under};

use crate::chunk::Chunk;
use crate::leaf::{LEAF_CAPACITY, push_shared};
use crate::rope::costs::Work;
use crate::tree::{Below, Subtree, branch_of, leaf_of};
use std::alloc::{AllocError, Global};

/// Two leaves with no more chunks than this are put into one.
const HALF_LEAF: usize = LEAF_CAPACITY / 2;

/// One tree of all chunks of two.
#[tactic(auto, using(crate::proofs::lemmas::Trees::branch_size))]
pub(crate) fn join(
    work: &mut Work,
    alloc: Global,
    left: &Subtree,
    right: &Subtree,
) -> Result<Subtree, AllocError>
    requires short { joined_size left.now.texts + joined_size right.now.texts < 2 ^ 63 }
    ensures joined { IfOk result (λ subtree. IsJoined subtree left.now right.now) }
    ensures work { Costs work.old work.new
        (6 * ((left.now.height - right.now.height) + (right.now.height - left.now.height)) + 3)
        (16 * (1 - min left.now.height right.now.height)) }
{
    let (l, r) = (left.height(), right.height());
    if l > r + 1 {
        let (front, back) = open(work, left);
        let back = join(work, alloc, back, right)?;
        balance(work, alloc, work.share(front)?, back)
    } else if r > l + 1 {
        let (front, back) = open(work, right);
        let front = join(work, alloc, left, front)?;
        balance(work, alloc, front, work.share(back)?)
    } else {
        merge_or_branch(work, alloc, left, right)
    }
}

/// Both subtrees of a branch.
fn open<'a>(work: &mut Work, subtree: &'a Subtree) -> (&'a Subtree, &'a Subtree)
    requires { 0 < subtree.now.height }
    ensures branch { IsBranchOf subtree.now result.0.now result.1.now }
    ensures work { Costs work.old work.new 1 0 }
{
    let Below::Subtrees(left, right) = work.look(subtree) else {
        unreachable!()
    };
    (left, right)
}

/// One tree of two that differ in height by two at most: with no rotation, one, or two.
#[inline(never)]
fn balance(
    work: &mut Work,
    alloc: Global,
    left: Subtree,
    right: Subtree,
) -> Result<Subtree, AllocError>
    requires near { DifferByAtMost 2 left.height right.height }
    requires short { joined_size left.texts + joined_size right.texts < 2 ^ 63 }
    ensures joined { IfOk result (λ subtree. IsJoined subtree left right) }
    ensures even { DifferByAtMost 1 left.height right.height → IfOk result (λ subtree. IsBranchOf subtree left right) }
    ensures work { Costs work.old work.new 5 0 }
{
    let (l, r) = (left.height(), right.height());
    if l > r + 1 {
        lean_right(work, alloc, &left, right)
    } else if r > l + 1 {
        lean_left(work, alloc, left, &right)
    } else {
        branch_of(work, alloc, left, right)
    }
}

/// The left tree is higher by two.
fn lean_right(
    work: &mut Work,
    alloc: Global,
    left: &Subtree,
    right: Subtree,
) -> Result<Subtree, AllocError>
    requires near { left.now.height ≡ right.height + 2 }
    requires short { joined_size left.now.texts + joined_size right.texts < 2 ^ 63 }
    ensures joined { IfOk result (λ subtree. IsJoined subtree left.now right) }
    ensures work { Costs work.old work.new 5 0 }
{
    let (front, back) = open(work, left);
    if front.height() >= back.height() {
        let back = branch_of(work, alloc, work.share(back)?, right)?;
        return branch_of(work, alloc, work.share(front)?, back);
    }
    let (inner, rest) = open(work, back);
    let front = branch_of(work, alloc, work.share(front)?, work.share(inner)?)?;
    let back = branch_of(work, alloc, work.share(rest)?, right)?;
    branch_of(work, alloc, front, back)
}

/// The right tree is higher by two.
fn lean_left(
    work: &mut Work,
    alloc: Global,
    left: Subtree,
    right: &Subtree,
) -> Result<Subtree, AllocError>
    requires near { right.now.height ≡ left.height + 2 }
    requires short { joined_size left.texts + joined_size right.now.texts < 2 ^ 63 }
    ensures joined { IfOk result (λ subtree. IsJoined subtree left right.now) }
    ensures work { Costs work.old work.new 5 0 }
{
    let (front, back) = open(work, right);
    if back.height() >= front.height() {
        let front = branch_of(work, alloc, left, work.share(front)?)?;
        return branch_of(work, alloc, front, work.share(back)?);
    }
    let (first, inner) = open(work, front);
    let front = branch_of(work, alloc, left, work.share(first)?)?;
    let back = branch_of(work, alloc, work.share(inner)?, work.share(back)?)?;
    branch_of(work, alloc, front, back)
}

/// One tree of two that differ in height by one at most: of two small leaves, one leaf.
#[inline(never)]
#[tactic(auto, using(crate::proofs::lemmas::Trees::branch_size))]
fn merge_or_branch(
    work: &mut Work,
    alloc: Global,
    left: &Subtree,
    right: &Subtree,
) -> Result<Subtree, AllocError>
    requires near { DifferByAtMost 1 left.now.height right.now.height }
    requires short { joined_size left.now.texts + joined_size right.now.texts < 2 ^ 63 }
    ensures joined { IfOk result (λ subtree. IsJoined subtree left.now right.now) }
    ensures work { Costs work.old work.new 3 (16 * (1 - min left.now.height right.now.height)) }
{
    match merge_leaves(work, alloc, left, right)? {
        Some(chunks) => leaf_of(work, alloc, chunks),
        None => branch_of(work, alloc, work.share(left)?, work.share(right)?),
    }
}

/// The chunks of two small leaves.
fn merge_leaves(
    work: &mut Work,
    alloc: Global,
    left: &Subtree,
    right: &Subtree,
) -> Result<Option<Vec<Chunk>>, AllocError>
    ensures chunks { IfOk result (λ o. IfSome o (λ chunks. chunks.items ≡ left.now.texts ++ right.now.texts)) }
    ensures some { IfOk result (λ o. IfSome o (λ chunks. 0 < length chunks.items)) }
    ensures few { IfOk result (λ o. IfSome o (λ chunks. length chunks.items ≤ leaf_capacity)) }
    ensures low { IfOk result (λ o. IfSome o (λ _. IsJoinedHeight left.now.height right.now.height 0)) }
    ensures work { Costs work.old work.new 2 (16 * (1 - min left.now.height right.now.height)) }
{
    let (Below::Chunks(front), Below::Chunks(back)) = (work.look(left), work.look(right)) else {
        return Ok(None);
    };
    let all = front.len() + back.len();
    if HALF_LEAF < all {
        return Ok(None);
    }
    let mut chunks = Vec::with_capacity(alloc, all)?;
    push_shared(work, &mut chunks, front)?;
    push_shared(work, &mut chunks, back)?;
    Ok(Some(chunks))
}

/// One tree of two that may have no chunks.
#[inline(never)]
pub(crate) fn join_options(
    work: &mut Work,
    alloc: Global,
    front: Option<&Subtree>,
    back: Option<&Subtree>,
) -> Result<Option<Subtree>, AllocError>
    requires short { joined_size (texts_under front) + joined_size (texts_under back) < 2 ^ 63 }
    ensures chunks { IfOk result (λ whole. texts_of whole ≡ texts_under front.entry ++ texts_under back.entry) }
    ensures height { IfOk result (λ whole. IsJoinedHeight (height_under front.entry) (height_under back.entry) (height_of whole)) }
    ensures work { Costs work.old work.new
        (6 * ((height_under front.entry - height_under back.entry) + (height_under back.entry - height_under front.entry)) + 3)
        (16 * (1 - min (height_under front.entry) (height_under back.entry))) }
{
    match (front, back) {
        (Some(left), Some(right)) => Ok(Some(join(work, alloc, left, right)?)),
        (Some(subtree), None) => Ok(Some(work.share(subtree)?)),
        (None, Some(subtree)) => Ok(Some(work.share(subtree)?)),
        (None, None) => Ok(None),
    }
}

/// The height of a tree that may have no chunks.
pub(crate) fn height_of(root: Option<&Subtree>) -> usize
    ensures height { result ≡ height_under root.entry }
    ensures low { IsHeightOf (height_under root.entry) (joined_size (texts_under root.entry)) }
    ensures most { height_under root.entry ≤ 126 }
{
    match root {
        None => 0,
        Some(subtree) => {
            let _short = subtree.summary();
            subtree.height()
        }
    }
}
