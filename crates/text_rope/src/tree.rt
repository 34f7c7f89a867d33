//! A balanced tree of chunks, whose nodes may have several owners.
ghost use Rattle.std.specs.Prelude.{◌≡◌, ◌≢◌, ◌+◌, ◌-◌, ◌^◌, ◌<◌, ◌≤◌, [], ◌∷◌, ◌++◌, ◌⊎◌, chars, length, Err, IsNone, IsOk, IfSome, IfOk, OnOk, OnErr};
ghost use Rattle.str_indices.specs.Relations.{IsBoundary};
ghost use Rattle.str_indices.specs.Text.{size};
ghost use Rattle.text_summary.specs.Changes.{IsReplaced};
ghost use Rattle.text_summary.specs.Pieces.{joined, joined_size};
ghost use Rattle.text_summary.specs.Summaries.{summary_of};
ghost use Rattle.text_rope.specs.Leaves.{leaf_capacity, AreSome};
ghost use Rattle.text_rope.specs.Shapes.{DifferByAtMost, IsLeafOf, IsBranchOf, fewest};
ghost use Rattle.text_rope.specs.Looks.{IsLookAt};
ghost use Rattle.text_rope.specs.Shifts.{IsChangedIn, IsOneChanged};
ghost use Rattle.text_rope.specs.States.{texts_of, texts_under};
ghost use Rattle.text_rope.specs.ChunkSizes.{min_chunk, IsFilled};
ghost use Rattle.text_rope.specs.Views.{IsBranch, seen};
ghost use Rattle.text_rope.specs.Work.{WorkState, Costs, TakesLog};
ghost use Rattle.text_rope.specs.declared.chunk.Unplaced.TheVariants.{NotBoundary};

use crate::chunk::{Chunk, MIN_CHUNK, Unplaced};
use crate::leaf::{Leaf, summary_of_chunks};
use crate::rope::costs::{LookPermit, Work};
use crate::shifts::{Shift, shift_by};
use std::alloc::{AllocError, Global};
use std::marker::Model;
use std::sync::Arc;
use text_summary::{Summary, join_summaries};

/// A tree and the summary of its text, which is not empty. A contract sees the texts of its chunks in order, and its height.
#[cycle(tree)]
#[derive(Drop)]
pub(crate) struct Subtree {
    node: Node,
    summary: Summary,
}

#[cycle(tree)]
#[derive(Drop)]
enum Node {
    Leaf(Arc<Leaf>),
    Branch(Arc<Branch>),
}

/// Two trees, one after the other. A way down reads the summary of the left one here.
#[cycle(tree)]
#[derive(Drop)]
struct Branch {
    left: Subtree,
    right: Subtree,
    height: usize,
}

impl Model for Subtree {
    ghost use Rattle.text_rope.specs.Shapes.{Seen};

    ghost Value = { Seen };

    ghost use Rattle.std.specs.Prelude.{length};
    ghost use Rattle.text_rope.specs.Views.{seen, IsSound};

    ghost view = { λ a. seen a.node };

    ghost invariant = { λ a. IsSound a.node a.summary };

    ghost size = { λ d. length d.texts };

    ghost use Rattle.std.proofs.Common.{arith, length-append};

    ghost size_decreases = { λ a h. Prim.grind (arith, length-append) };
}

/// A tree's parts: the chunks of its leaf, or its two subtrees.
#[derive(Clone, Copy)]
pub(crate) enum Below<'a> {
    Chunks(&'a [Chunk]),
    Subtrees(&'a Subtree, &'a Subtree),
}

impl Subtree {
    /// The summary of its text.
    #[tactic(auto, using(crate::proofs::lemmas::Trees::few_some))]
    pub(crate) fn summary(&self) -> &Summary
        ensures summary { result.now ≡ summary_of (joined self.now.texts) }
        ensures some { 0 < length self.now.texts }
        ensures short { joined_size self.now.texts < 2 ^ 63 }
        ensures each { AreSome self.now.texts }
        ensures few { length self.now.texts ≤ joined_size self.now.texts }
    {
        let _node = &self.node;
        &self.summary
    }

    /// How many levels of branches it has.
    #[tactic(auto, using(crate::proofs::lemmas::Trees::few_some))]
    pub(crate) fn height(&self) -> usize
        ensures height { result ≡ self.now.height }
        ensures low { self.now.height < length self.now.texts }
        ensures many { fewest self.now.height ≤ length self.now.texts }
        ensures short { self.now.height < 2 ^ 63 }
    {
        match &self.node {
            Node::Leaf(_) => 0,
            Node::Branch(branch) => branch.height,
        }
    }

    /// Its parts.
    #[tactic(auto, using(crate::proofs::lemmas::Trees::branch_size))]
    pub(crate) fn look(&self, _permit: LookPermit) -> Below<'_>
        ensures { IsLookAt self.now result }
    {
        match &self.node {
            Node::Leaf(leaf) => Below::Chunks(leaf.chunks()),
            Node::Branch(branch) => {
                let branch: &Branch = branch;
                Below::Subtrees(&branch.left, &branch.right)
            }
        }
    }

    /// Replaces what is between two byte indices by a text, in the one chunk that both are in, where no node on the way has
    /// another owner and the chunk has room for it; else nothing changes. Copies no node.
    #[cycle(replace_in_place)]
    #[tactic(auto, using(crate::proofs::lemmas::Trees::branch_size))]
    fn replace_in_place(
        &mut self,
        work: &mut Work,
        from: usize,
        to: usize,
        more: &str,
        least: usize,
        shift: &mut Shift,
    ) -> Result<(), Unplaced>
        requires some { 0 < least }
        requires order { from ≤ to }
        requires within { to ≤ joined_size self.old.texts }
        requires short { joined_size self.old.texts + size (chars more.now) < 2 ^ 63 + (to - from) }
        ensures changed { OnOk result (
            IsOneChanged self.old.texts self.new.texts from to (chars more.now) shift.new) }
        ensures full { OnOk result (least ≤ shift.new.own.len) }
        ensures height { self.new.height ≡ self.old.height }
        ensures each { AreSome self.new.texts }
        ensures not_boundary { result ≡ Err NotBoundary
            → ¬ (IsBoundary (joined self.old.texts) from × IsBoundary (joined self.old.texts) to) }
        ensures err { OnErr result (self.new.texts ≡ self.old.texts) }
        ensures work { Costs work.old work.new (self.old.height + 1) 1 }
    {
        let _few = self.summary();
        work.make();
        match &mut self.node {
            Node::Leaf(leaf) => match Arc::get_mut(leaf) {
                Some(leaf) => leaf.replace_in_place(work, from, to, more, least, shift)?,
                None => return Err(Unplaced::NoRoom),
            },
            Node::Branch(branch) => match Arc::get_mut(branch) {
                Some(branch) => branch.replace_in_place(work, from, to, more, least, shift)?,
                None => return Err(Unplaced::NoRoom),
            },
        }
        update_summary(&mut self.summary, &self.node, shift);
        Ok(())
    }
}

impl Work {
    /// A tree's parts, for one node.
    pub(crate) fn look<'a>(&mut self, subtree: &'a Subtree) -> Below<'a>
        ensures look { IsLookAt subtree.now result }
        ensures nodes { self.new.nodes ≡ self.old.nodes + 1 }
        ensures chunks { self.new.chunks ≡ self.old.chunks }
    {
        subtree.look(self.make())
    }

    /// A second owner of a tree's root. Counts nothing, and copies no node.
    pub(crate) fn share(&self, subtree: &Subtree) -> Result<Subtree, AllocError>
        ensures { IfOk result (λ tree. tree ≡ subtree.now) }
    {
        let node = match &subtree.node {
            Node::Leaf(leaf) => Node::Leaf(Arc::try_clone(leaf)?),
            Node::Branch(branch) => Node::Branch(Arc::try_clone(branch)?),
        };
        Ok(Subtree {
            node,
            summary: subtree.summary,
        })
    }
}

impl Branch {
    /// Replaces in the subtree that both indices are in.
    #[cycle(replace_in_place)]
    fn replace_in_place(
        &mut self,
        work: &mut Work,
        from: usize,
        to: usize,
        more: &str,
        least: usize,
        shift: &mut Shift,
    ) -> Result<(), Unplaced>
        requires some { 0 < least }
        requires sound { IsBranch self.old.left self.old.right self.old.height }
        requires order { from ≤ to }
        requires within { to ≤ joined_size (self.old.left.texts ++ self.old.right.texts) }
        requires short { joined_size (self.old.left.texts ++ self.old.right.texts) + size (chars more.now)
            < 2 ^ 63 + (to - from) }
        ensures sound { IsBranch self.new.left self.new.right self.new.height }
        ensures height { self.new.height ≡ self.old.height }
        ensures changed { OnOk result (IsOneChanged (self.old.left.texts ++ self.old.right.texts)
            (self.new.left.texts ++ self.new.right.texts) from to (chars more.now) shift.new) }
        ensures full { OnOk result (least ≤ shift.new.own.len) }
        ensures each { AreSome (self.new.left.texts ++ self.new.right.texts) }
        ensures not_boundary { result ≡ Err NotBoundary
            → ¬ (IsBoundary (joined (self.old.left.texts ++ self.old.right.texts)) from
            × IsBoundary (joined (self.old.left.texts ++ self.old.right.texts)) to) }
        ensures err { OnErr result (self.new.left.texts ++ self.new.right.texts
            ≡ self.old.left.texts ++ self.old.right.texts) }
        ensures work { Costs work.old work.new self.old.height 1 }
    {
        let middle = self.left.summary().len;
        let _right = self.right.summary();
        if to <= middle {
            self.left
                .replace_in_place(work, from, to, more, least, shift)
        } else if middle <= from {
            self.right
                .replace_in_place(work, from - middle, to - middle, more, least, shift)
        } else {
            Err(Unplaced::NoRoom)
        }
    }
}

/// Brings the summary of the text under a node up to date in which a chunk has changed. Reads no chunk, and sums them anew only
/// where the chunk does not keep its ends.
fn update_summary(whole: &mut Summary, node: &Node, shift: &Shift)
    requires { IsChangedIn whole.old (seen node.now).texts shift.now }
    ensures { whole.new ≡ summary_of (joined (seen node.now).texts) }
{
    if shift.keeps_ends() {
        shift_by(whole, shift);
    } else {
        *whole = summary_under(node);
    }
}

/// The summary of the text under a node, by those of its chunks or trees.
fn summary_under(node: &Node) -> Summary
    requires { joined_size (seen node.now).texts < 2 ^ 63 }
    ensures { result ≡ summary_of (joined (seen node.now).texts) }
{
    match node {
        Node::Leaf(leaf) => summary_of_chunks(leaf.chunks()),
        Node::Branch(branch) => join_summaries(*branch.left.summary(), *branch.right.summary()),
    }
}

/// A tree of one leaf.
pub(crate) fn leaf_of(
    work: &mut Work,
    alloc: Global,
    chunks: Vec<Chunk>,
) -> Result<Subtree, AllocError>
    requires some { 0 < length chunks.items }
    requires few { length chunks.items ≤ leaf_capacity }
    requires short { joined_size chunks.items < 2 ^ 63 }
    ensures leaf { IfOk result (λ subtree. IsLeafOf subtree chunks.items) }
    ensures work { Costs work.old work.new 1 0 }
    ensures made { work.new.nodes ≡ work.old.nodes + 1 }
{
    work.make();
    let summary = summary_of_chunks(chunks.as_slice());
    let leaf = Arc::new(alloc, Leaf::of(chunks))?;
    Ok(Subtree {
        node: Node::Leaf(leaf),
        summary,
    })
}

/// A branch over two trees.
#[tactic(auto, using(crate::proofs::lemmas::Trees::branch_size))]
pub(crate) fn branch_of(
    work: &mut Work,
    alloc: Global,
    left: Subtree,
    right: Subtree,
) -> Result<Subtree, AllocError>
    requires balanced { DifferByAtMost 1 left.height right.height }
    requires short { joined_size left.texts + joined_size right.texts < 2 ^ 63 }
    ensures branch { IfOk result (λ subtree. IsBranchOf subtree left right) }
    ensures work { Costs work.old work.new 1 0 }
    ensures made { work.new.nodes ≡ work.old.nodes + 1 }
{
    work.make();
    let height = left.height().max(right.height()) + 1;
    let summary = join_summaries(*left.summary(), *right.summary());
    let branch = Branch {
        left,
        right,
        height,
    };
    Ok(Subtree {
        node: Node::Branch(Arc::new(alloc, branch)?),
        summary,
    })
}

/// A tree that may have no chunks, and none that is short where it is not alone. A contract sees their texts in order.
#[derive(Drop)]
pub(crate) struct Tree {
    root: Option<Subtree>,
}

impl Model for Tree {
    ghost use Rattle.std.specs.Prelude.{List};
    ghost use Rattle.str_indices.specs.Text.{Text};

    ghost Value = { List Text };

    ghost use Rattle.text_rope.specs.States.{texts_of};

    ghost view = { λ t. texts_of t.root };

    ghost use Rattle.text_rope.specs.ChunkSizes.{IsFilled};

    ghost invariant = { λ t. IsFilled (texts_of t.root) };
}

impl Tree {
    /// A tree, or none where there are no chunks.
    pub(crate) fn of(root: Option<Subtree>) -> Tree
        requires { IsFilled (texts_of root) }
        ensures { result ≡ texts_of root }
    {
        Tree { root }
    }

    /// The tree lent; none where there are no chunks.
    pub(crate) fn root(&self) -> Option<&Subtree>
        ensures chunks { texts_under result ≡ self.now }
        ensures filled { IsFilled self.now }
    {
        self.root.as_ref()
    }

    /// Its chunk, where it has one alone.
    pub(crate) fn only_chunk(&self) -> Option<&Chunk>
        ensures some { IfSome result (λ chunk. self.now ≡ chunk.now ∷ []) }
        ensures none { IsNone result → length self.now ≢ 1 }
    {
        match &self.root()?.node {
            Node::Leaf(leaf) if leaf.chunks().len() == 1 => Some(&leaf.chunks()[0]),
            _ => None,
        }
    }

    /// How many bytes a chunk has at least after a change: it may be short where it is alone.
    fn least(&self) -> usize
        ensures some { 0 < result }
        ensures full { (result ≡ min_chunk) ⊎ (length self.now ≡ 1) }
    {
        match self.only_chunk() {
            Some(_) => 1,
            None => MIN_CHUNK,
        }
    }

    /// How many bytes its text has.
    pub(crate) fn len(&self) -> usize
        ensures len { result ≡ joined_size self.now }
        ensures short { joined_size self.now < 2 ^ 63 }
    {
        match self.root() {
            None => 0,
            Some(subtree) => subtree.summary().len,
        }
    }

    /// Shares the tree: copies no node.
    pub(crate) fn share(&self, work: &Work) -> Result<Tree, AllocError>
        ensures ok { IfOk result (λ tree. tree ≡ self.now) }
        ensures empty { joined self.now ≡ [] → IsOk result }
    {
        match &self.root {
            None => Ok(Tree { root: None }),
            Some(subtree) => {
                let _some = subtree.summary();
                Ok(Tree {
                    root: Some(work.share(subtree)?),
                })
            }
        }
    }

    /// Replaces what is between two byte indices by a text, in the one chunk that both are in, where no node on the way has
    /// another owner and the chunk has room for it; else nothing changes. Takes memory only where that chunk outgrows its own, or
    /// shares it.
    pub(crate) fn replace_in_place(
        &mut self,
        work: &mut Work,
        from: usize,
        to: usize,
        more: &str,
    ) -> Result<(), Unplaced>
        requires order { from ≤ to }
        requires within { to ≤ joined_size self.old }
        requires short { joined_size self.old + length more.now < 2 ^ 63 + (to - from) }
        ensures ok { OnOk result (IsReplaced (joined self.old) (joined self.new) from to (chars more.now)) }
        ensures not_boundary { result ≡ Err NotBoundary
            → ¬ (IsBoundary (joined self.old) from × IsBoundary (joined self.old) to) }
        ensures err { OnErr result (self.new ≡ self.old) }
        ensures work { TakesLog 1 1 (joined_size self.old) 0 work.old work.new }
    {
        let least = self.least();
        let Some(subtree) = &mut self.root else {
            return Err(Unplaced::NoRoom);
        };
        let _height = subtree.height();
        let _short = subtree.summary();
        subtree.replace_in_place(work, from, to, more, least, &mut Shift::none())
    }
}
