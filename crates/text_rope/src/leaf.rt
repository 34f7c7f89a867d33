//! Some chunks in one node of a tree.
ghost use Rattle.std.specs.Prelude.{◌≡◌, ◌≢◌, ◌+◌, ◌-◌, ◌^◌, ◌<◌, ◌≤◌, ◌++◌, chars, length, take, Err, IfOk, OnOk, OnErr};
ghost use Rattle.str_indices.specs.Relations.{IsBoundary};
ghost use Rattle.str_indices.specs.Text.{size};
ghost use Rattle.text_summary.specs.Pieces.{joined, joined_size, piece_at};
ghost use Rattle.text_summary.specs.Summaries.{summary_of};
ghost use Rattle.text_rope.specs.Leaves.{leaf_capacity, AreSome};
ghost use Rattle.text_rope.specs.Shifts.{IsOneChanged};
ghost use Rattle.text_rope.specs.Work.{WorkState, Costs};
ghost use Rattle.text_rope.specs.declared.chunk.Unplaced.TheVariants.{NotBoundary};

use crate::chunk::{Chunk, Unplaced};
use crate::rope::costs::Work;
use crate::shifts::Shift;
use std::alloc::AllocError;
use std::marker::Model;
use text_summary::{Summary, join_summaries};

/// How many chunks a leaf has at most.
pub(crate) const LEAF_CAPACITY: usize = 32;

/// From one to `LEAF_CAPACITY` chunks. A contract sees their texts in order.
#[derive(Drop)]
pub(crate) struct Leaf {
    chunks: Vec<Chunk>,
}

impl Model for Leaf {
    ghost use Rattle.std.specs.Prelude.{List};
    ghost use Rattle.str_indices.specs.Text.{Text};

    ghost Value = { List Text };

    ghost use Rattle.text_rope.specs.Leaves.{IsLeaf};

    ghost view = { λ b. b.chunks.items };

    ghost invariant = { λ b. IsLeaf b.chunks.items };
}

impl Leaf {
    /// The leaf of some chunks.
    pub(crate) fn of(chunks: Vec<Chunk>) -> Leaf
        requires some { 0 < length chunks.items }
        requires few { length chunks.items ≤ leaf_capacity }
        requires each { AreSome chunks.items }
        ensures { result ≡ chunks.items }
    {
        Leaf { chunks }
    }

    /// Its chunks.
    pub(crate) fn chunks(&self) -> &[Chunk]
        ensures chunks { result.now ≡ self.now }
        ensures some { 0 < length self.now }
        ensures few { length self.now ≤ leaf_capacity }
    {
        self.chunks.as_slice()
    }

    /// Replaces what is between two byte indices by a text, in the one chunk that both are in, where it has room for it; else
    /// nothing changes.
    pub(crate) fn replace_in_place(
        &mut self,
        work: &mut Work,
        from: usize,
        to: usize,
        more: &str,
        least: usize,
        shift: &mut Shift,
    ) -> Result<(), Unplaced>
        requires some { 0 < least }
        requires order { from ≤ to }
        requires within { to ≤ joined_size self.old }
        requires short { joined_size self.old < 2 ^ 63 }
        ensures changed { OnOk result (IsOneChanged self.old self.new from to (chars more.now) shift.new) }
        ensures full { OnOk result (least ≤ shift.new.own.len) }
        ensures not_boundary { result ≡ Err NotBoundary
            → ¬ (IsBoundary (joined self.old) from × IsBoundary (joined self.old) to) }
        ensures each { AreSome self.new }
        ensures err { OnErr result (self.new ≡ self.old) }
        ensures work { Costs work.old work.new 0 1 }
    {
        let place = chunk_up_to(self.chunks.as_slice(), to);
        if from < place.start {
            return Err(Unplaced::NoRoom);
        }
        self.chunks[place.chunk].replace_in_place(
            work.change(),
            from - place.start,
            to - place.start,
            more,
            least,
            shift,
        )
    }
}

/// A chunk of a leaf, and where it starts.
#[derive(Clone, Copy)]
pub(crate) struct ChunkPlace {
    pub(crate) chunk: usize,
    pub(crate) start: usize,
}

/// The first chunk that ends at a byte index or after it: the one that the byte before is in.
pub(crate) fn chunk_up_to(chunks: &[Chunk], to: usize) -> ChunkPlace
    requires some { 0 < length chunks.now }
    requires within { to ≤ joined_size chunks.now }
    requires short { joined_size chunks.now < 2 ^ 63 }
    ensures chunk { result.chunk < length chunks.now }
    ensures start { result.start ≡ joined_size (take result.chunk chunks.now) }
    ensures after { result.start ≤ to }
    ensures before { 0 < to → result.start < to }
    ensures within { to ≤ result.start + size (piece_at chunks.now result.chunk) }
{
    let mut start = 0;
    for i in 0..chunks.len() {
        let chunk = &chunks[i];
        let end = start + chunk.summary().len;
        if to <= end {
            return ChunkPlace { chunk: i, start };
        }
        start = end;
    }
    unreachable!()
}

/// The summary of the joined text of some chunks. Reads none of them.
pub(crate) fn summary_of_chunks(chunks: &[Chunk]) -> Summary
    requires { joined_size chunks.now < 2 ^ 63 }
    ensures summary { result ≡ summary_of (joined chunks.now) }
    ensures each { AreSome chunks.now }
{
    let mut whole = Summary::none();
    for chunk in chunks {
        whole = join_summaries(whole, chunk.summary());
    }
    whole
}

/// Puts some chunks after others. Copies no text.
pub(crate) fn push_shared(
    work: &mut Work,
    chunks: &mut Vec<Chunk>,
    more: &[Chunk],
) -> Result<(), AllocError>
    ensures chunks { IfOk result (λ _. chunks.new.items ≡ chunks.old.items ++ more.now) }
    ensures work { Costs work.old work.new 0 (length more.now) }
{
    for chunk in more {
        chunks.push(work.copy(chunk)?)?;
    }
    Ok(())
}
