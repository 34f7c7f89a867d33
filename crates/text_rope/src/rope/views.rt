//! A tree as a question sees it. It lends each node's parts for one look, and each chunk's text for one read.
ghost use Rattle.std.specs.Prelude.{◌≡◌, ◌≢◌, ◌+◌, ◌^◌, ◌<◌, ◌≤◌, [], chars, length};
ghost use Rattle.str_indices.specs.Text.{size};
ghost use Rattle.text_summary.specs.Pieces.{joined_size};
ghost use Rattle.text_rope.specs.ChunkSizes.{max_chunk, IsFilled};
ghost use Rattle.text_rope.specs.Looks.{IsLookAt};
ghost use Rattle.text_rope.specs.States.{RopeState, AskedState, texts_under};

use crate::chunk::Chunk;
use crate::rope::costs::Asked;
use crate::tree::{Below, Subtree, Tree};
use std::marker::Model;

/// A tree as a question sees it: contracts see its chunks, how many nodes were looked at, and how often a chunk was read.
///
/// It has the size of a reference: only contracts see its counters. It is neither `Copy` nor `Clone`, and a `Tree` alone
/// lends it.
#[derive(Drop)]
pub struct View<'a> {
    root: Option<&'a Subtree>,
    asked: Asked,
}

impl<'a> Model for View<'a> {
    ghost use Rattle.text_rope.specs.States.{RopeState, texts_under};

    ghost Value = { RopeState };

    ghost view = { λ v. record { texts = texts_under v.root; looks = v.asked.looks; reads = v.asked.reads } };
}

impl<'a> View<'a> {
    /// A tree, with nothing counted.
    pub(crate) fn of(tree: &'a Tree) -> View<'a>
        ensures view { result ≡ record { texts = tree.now; looks = 0; reads = 0 } }
        ensures filled { IsFilled tree.now }
    {
        View {
            root: tree.root(),
            asked: Asked::none(),
        }
    }

    /// Its root; none where there are no chunks. Counts nothing.
    pub(crate) fn root(&self) -> Option<&'a Subtree>
        ensures { texts_under result ≡ self.now.texts }
    {
        self.root
    }

    /// How many bytes the text has. Counts nothing.
    pub fn len(&self) -> usize
        ensures len { result ≡ joined_size self.now.texts }
        ensures short { joined_size self.now.texts < 2 ^ 63 }
    {
        match self.root {
            None => 0,
            Some(subtree) => subtree.summary().len,
        }
    }

    /// A tree's parts, for one look.
    pub(crate) fn look<'b>(&mut self, subtree: &'b Subtree) -> Below<'b>
        ensures look { IsLookAt subtree.now result }
        ensures state { self.new ≡ record self.old { looks = self.old.looks + 1 } }
    {
        subtree.look(self.asked.look())
    }

    /// A chunk's text, for one read.
    pub(crate) fn read<'b>(&mut self, chunk: &'b Chunk) -> &'b str
        ensures text { chars result.now ≡ chunk.now }
        ensures len { length result.now ≡ size chunk.now }
        ensures some { chunk.now ≢ [] }
        ensures short { size chunk.now ≤ max_chunk }
        ensures state { self.new ≡ record self.old { reads = self.old.reads + 1 } }
    {
        chunk.text(self.asked.read())
    }
}
