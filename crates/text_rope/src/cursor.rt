//! A chunk of the text that a caller stays at, and goes on from, forwards or backwards.
ghost use Rattle.std.specs.Prelude.{◌≡◌, ◌+◌, ◌-◌, ◌*◌, ◌^◌, ◌<◌, ◌≤◌, ◌↔◌, chars, length, IsTrue, IsFalse};
ghost use Rattle.str_indices.specs.Text.{size};
ghost use Rattle.text_summary.specs.Pieces.{joined_size, piece_at};
ghost use Rattle.text_rope.specs.Chunks.{CursorState, HasChunkAt};
ghost use Rattle.text_rope.specs.ChunkSizes.{max_chunk, IsFilled};
ghost use Rattle.text_rope.specs.Looks.{Asks};
ghost use Rattle.text_rope.specs.Rests.{IsLeafAt, IsLeafPlace};
ghost use Rattle.text_rope.specs.States.{RopeState, unasked};

use crate::chunk::Chunk;
use crate::chunks::ChunkAt;
use crate::leaf::chunk_up_to;
use crate::rope::views::View;
use crate::tree::{Below, Subtree, Tree};
use std::marker::Model;

/// A chunk of the text, from which you go to the next or the one before. A contract sees its view, the chunk, and where that
/// starts.
///
/// It takes no memory. To come to a chunk is one question at most: 2 log₂ (chunks + 1) looks, and one read.
#[derive(Drop)]
pub struct ChunkCursor<'a> {
    view: View<'a>,
    place: LeafPlace<'a>,
    /// The chunk's text.
    text: &'a str,
}

impl<'a> Model for ChunkCursor<'a> {
    ghost use Rattle.std.specs.Prelude.{chars};
    ghost use Rattle.text_summary.specs.Pieces.{piece_at};
    ghost use Rattle.text_rope.specs.Chunks.{CursorState};
    ghost use Rattle.text_rope.specs.Rests.{IsCursor};

    ghost Value = { CursorState };

    ghost view = { λ c. record {
      view = c.view;
      chunk = piece_at c.place.chunks.now c.place.index;
      start = c.place.start;
    } };

    ghost invariant = { λ c. IsCursor c.view.texts c.place.chunks.now c.place.index c.place.start (chars c.text.now) };
}

impl<'a> ChunkCursor<'a> {
    /// At the chunk that a byte is in.
    pub(crate) fn of(tree: &'a Tree, byte_idx: usize) -> ChunkCursor<'a>
        requires { byte_idx < joined_size tree.now }
        ensures chunk { HasChunkAt tree.now result.chunk result.start byte_idx }
        ensures filled { IsFilled tree.now }
        ensures cost { Asks 1 (unasked tree.now) result.view }
    {
        let mut view = View::of(tree);
        let place = leaf_at(&mut view, byte_idx);
        let text = view.read(place.chunk());
        ChunkCursor { view, place, text }
    }

    /// The chunk, which has at least one byte and at most `MAX_CHUNK`, and where it starts.
    pub fn chunk(&self) -> ChunkAt<'a>
        ensures text { chars result.text.now ≡ self.now.chunk }
        ensures start { result.start ≡ self.now.start }
        ensures own { HasChunkAt self.now.view.texts self.now.chunk self.now.start self.now.start }
        ensures piece { size self.now.chunk ≤ max_chunk }
    {
        let _own = self.place.chunk().summary();
        ChunkAt {
            text: self.text,
            start: self.place.start,
        }
    }

    /// Goes to the chunk that a byte is in, and answers true. From the text's end on it stays, and answers false.
    pub fn move_to(&mut self, byte_idx: usize) -> bool
        ensures some { IsTrue result ↔ (byte_idx < joined_size self.old.view.texts) }
        ensures moved { IsTrue result → HasChunkAt self.old.view.texts self.new.chunk self.new.start byte_idx }
        ensures stays { IsFalse result → self.new ≡ self.old }
        ensures cost { Asks 1 self.old.view self.new.view }
    {
        if self.view.len() <= byte_idx {
            return false;
        }
        let len = self.place.len();
        if byte_idx < self.place.start || self.place.start + len <= byte_idx {
            let place = leaf_at(&mut self.view, byte_idx);
            self.text = self.view.read(place.chunk());
            self.place = place;
        }
        true
    }

    /// Goes to the next chunk, and answers true. At the last one it stays, and answers false.
    pub fn next(&mut self) -> bool
        ensures some { IsTrue result ↔ (self.old.start + size self.old.chunk < joined_size self.old.view.texts) }
        ensures moved { IsTrue result → self.new.start ≡ self.old.start + size self.old.chunk }
        ensures stays { IsFalse result → self.new ≡ self.old }
        ensures cost { Asks 1 self.old.view self.new.view }
    {
        let place = self.place;
        let whole = self.view.len();
        let end = place.start + place.len();
        if end == whole {
            return false;
        }
        let next = place_after(&mut self.view, &place, end);
        self.text = self.view.read(next.chunk());
        self.place = next;
        true
    }

    /// Goes to the chunk before, and answers true. At the first one it stays, and answers false.
    pub fn prev(&mut self) -> bool
        ensures some { IsTrue result ↔ (0 < self.old.start) }
        ensures moved { IsTrue result → self.new.start + size self.new.chunk ≡ self.old.start }
        ensures stays { IsFalse result → self.new ≡ self.old }
        ensures cost { Asks 1 self.old.view self.new.view }
    {
        let place = self.place;
        if place.start == 0 {
            return false;
        }
        let before = place_before(&mut self.view, &place);
        self.text = self.view.read(before.chunk());
        self.place = before;
        true
    }
}

/// A chunk of a tree: those of its leaf, its number among them, and the byte index where it starts.
#[derive(Clone, Copy)]
pub(crate) struct LeafPlace<'a> {
    pub(crate) chunks: &'a [Chunk],
    pub(crate) index: usize,
    pub(crate) start: usize,
}

impl<'a> LeafPlace<'a> {
    /// The chunk.
    pub(crate) fn chunk(&self) -> &'a Chunk
        requires { self.now.index < length self.now.chunks.now }
        ensures { result.now ≡ piece_at self.now.chunks.now self.now.index }
    {
        &self.chunks[self.index]
    }

    /// How many bytes it has.
    fn len(&self) -> usize
        requires { self.now.index < length self.now.chunks.now }
        ensures len { result ≡ size (piece_at self.now.chunks.now self.now.index) }
        ensures short { size (piece_at self.now.chunks.now self.now.index) ≤ max_chunk }
    {
        self.chunk().summary().len
    }
}

/// The chunk after another one, which ends at byte `end`: in its leaf, or else by a way down the tree.
fn place_after<'a>(v: &mut View<'a>, place: &LeafPlace<'a>, end: usize) -> LeafPlace<'a>
    requires place { IsLeafPlace 0 v.old.texts place.now.chunks.now place.now.index place.now.start }
    requires end { end ≡ place.now.start + size (piece_at place.now.chunks.now place.now.index) }
    requires inside { end < joined_size v.old.texts }
    ensures place { IsLeafPlace 0 v.old.texts result.chunks.now result.index result.start }
    ensures start { result.start ≡ end }
    ensures texts { v.new.texts ≡ v.old.texts }
    ensures looks { 2 ^ (v.new.looks - v.old.looks) ≤ (length v.old.texts + 1) * (length v.old.texts + 1) }
    ensures looks_kept { v.old.looks ≤ v.new.looks }
    ensures reads { v.new.reads ≡ v.old.reads }
{
    if place.index + 1 == place.chunks.len() {
        return leaf_at(v, end);
    }
    LeafPlace {
        chunks: place.chunks,
        index: place.index + 1,
        start: end,
    }
}

/// The chunk before another one: in its leaf, or else by a way down the tree.
fn place_before<'a>(v: &mut View<'a>, place: &LeafPlace<'a>) -> LeafPlace<'a>
    requires place { IsLeafPlace 0 v.old.texts place.now.chunks.now place.now.index place.now.start }
    requires some { 0 < place.now.start }
    ensures place { IsLeafPlace 0 v.old.texts result.chunks.now result.index result.start }
    ensures end { result.start + size (piece_at result.chunks.now result.index) ≡ place.now.start }
    ensures texts { v.new.texts ≡ v.old.texts }
    ensures looks { 2 ^ (v.new.looks - v.old.looks) ≤ (length v.old.texts + 1) * (length v.old.texts + 1) }
    ensures looks_kept { v.old.looks ≤ v.new.looks }
    ensures reads { v.new.reads ≡ v.old.reads }
{
    if place.index == 0 {
        return leaf_at(v, place.start - 1);
    }
    let before = LeafPlace {
        chunks: place.chunks,
        index: place.index - 1,
        start: place.start,
    };
    LeafPlace {
        start: place.start - before.len(),
        ..before
    }
}

/// The chunk that a byte is in.
pub(crate) fn leaf_at<'a>(v: &mut View<'a>, at: usize) -> LeafPlace<'a>
    requires { at < joined_size v.old.texts }
    ensures place { IsLeafAt 0 v.old.texts result.chunks.now result.index result.start at }
    ensures texts { v.new.texts ≡ v.old.texts }
    ensures looks { 2 ^ (v.new.looks - v.old.looks) ≤ (length v.old.texts + 1) * (length v.old.texts + 1) }
    ensures looks_kept { v.old.looks ≤ v.new.looks }
    ensures reads { v.new.reads ≡ v.old.reads }
{
    let Some(subtree) = v.root() else {
        unreachable!()
    };
    let _height = subtree.height();
    let _short = subtree.summary();
    leaf_at_in(v, subtree, 0, at)
}

/// The chunk that byte `at` is in, where `before` bytes are before the tree. Reads lengths alone.
fn leaf_at_in<'a>(v: &mut View<'_>, subtree: &'a Subtree, before: usize, at: usize) -> LeafPlace<'a>
    requires short { before + joined_size subtree.now.texts < 2 ^ 63 }
    requires after { before ≤ at }
    requires inside { at < before + joined_size subtree.now.texts }
    ensures place { IsLeafAt before subtree.now.texts result.chunks.now result.index result.start at }
    ensures texts { v.new.texts ≡ v.old.texts }
    ensures low { v.new.looks ≤ v.old.looks + subtree.now.height + 1 }
    ensures looks_kept { v.old.looks ≤ v.new.looks }
    ensures reads { v.new.reads ≡ v.old.reads }
{
    match v.look(subtree) {
        Below::Chunks(chunks) => chunk_of_leaf(chunks, before, at),
        Below::Subtrees(left, right) => {
            let middle = before + left.summary().len;
            if at < middle {
                leaf_at_in(v, left, before, at)
            } else {
                leaf_at_in(v, right, middle, at)
            }
        }
    }
}

/// The chunk of one leaf that byte `at` is in.
pub(crate) fn chunk_of_leaf(chunks: &[Chunk], before: usize, at: usize) -> LeafPlace<'_>
    requires short { before + joined_size chunks.now < 2 ^ 63 }
    requires after { before ≤ at }
    requires inside { at < before + joined_size chunks.now }
    ensures { IsLeafAt before chunks.now result.chunks.now result.index result.start at }
{
    let place = chunk_up_to(chunks, at - before + 1);
    LeafPlace {
        chunks,
        index: place.chunk,
        start: before + place.start,
    }
}
