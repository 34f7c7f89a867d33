//! A text in order, lent in parts.
ghost use Rattle.std.specs.Prelude.{◌≡◌, ◌≢◌, ◌+◌, ◌-◌, ◌*◌, ◌^◌, ◌<◌, ◌≤◌, ◌↔◌, [], chars, length, IsNone, IfSome, IfNone};
ghost use Rattle.str_indices.specs.Relations.{IsBoundary};
ghost use Rattle.str_indices.specs.Text.{size};
ghost use Rattle.text_summary.specs.Pieces.{joined, joined_size};
ghost use Rattle.text_rope.specs.Chunks.{IsNext, ChunksState, EndsWithChunk, IsWithin, IsPartAt};
ghost use Rattle.text_rope.specs.Rests.{IsRestFrom, IsRestAt};
ghost use Rattle.text_rope.specs.ChunkSizes.{max_chunk, IsFilled};
ghost use Rattle.text_rope.specs.Looks.{Asks};
ghost use Rattle.text_rope.specs.States.{RopeState, unasked};

use crate::chunk::Chunk;
use crate::cursor::leaf_at;
use crate::rope::views::View;
use crate::tree::Tree;
use std::marker::Model;
use text_summary::halves;

/// The text or a range of it in order: each part is a whole chunk, but where the range cuts the first or the last one. No part is
/// empty. A contract sees its view, how far the text was given, and the end.
///
/// It takes no memory. A part is two questions at most: one reads it, and one reads the next ahead.
#[derive(Drop)]
pub struct Chunks<'a> {
    view: View<'a>,
    /// The chunks that come next in its leaf; none where it goes down the tree.
    chunks: &'a [Chunk],
    at: usize,
    end: usize,
}

impl<'a> Model for Chunks<'a> {
    ghost use Rattle.text_rope.specs.Chunks.{ChunksState};
    ghost use Rattle.text_rope.specs.Rests.{IsOnWay};

    ghost Value = { ChunksState };

    ghost view = { λ c. record { view = c.view; at = c.at; end = c.end } };

    ghost invariant = { λ c. IsOnWay c.view.texts c.chunks.now c.at c.end };
}

impl<'a> Chunks<'a> {
    /// The text between two boundaries.
    pub(crate) fn of(tree: &'a Tree, at: usize, end: usize) -> Chunks<'a>
        requires { IsWithin (joined tree.now) at end }
        ensures state { result ≡ record { view = unasked tree.now; at = at; end = end } }
        ensures filled { IsFilled tree.now }
    {
        Chunks {
            view: View::of(tree),
            chunks: &[],
            at,
            end,
        }
    }

    /// The text from the beginning of the chunk that a byte is in, and how many bytes of that chunk are before the byte.
    pub(crate) fn from_chunk(tree: &'a Tree, at: usize) -> (Chunks<'a>, usize)
        requires { at < joined_size tree.now }
        ensures texts { result.0.view.texts ≡ tree.now }
        ensures end { result.0.end ≡ joined_size tree.now }
        ensures within { IsWithin (joined result.0.view.texts) result.0.at result.0.end }
        ensures place { result.0.at + result.1 ≡ at }
    {
        let mut view = View::of(tree);
        let rest = rest_of(&mut view, &[], at);
        let end = view.len();
        let chunks = Chunks {
            view,
            chunks: rest.chunks,
            at: rest.start,
            end,
        };
        (chunks, at - rest.start)
    }

    /// The next part of the text: the rest of its chunk, of at most `MAX_CHUNK` bytes, as far as the range goes; none at the end,
    /// and from then on.
    pub fn next_chunk(&mut self) -> Option<&'a str>
        ensures { IsNext self.old self.new result }
    {
        if self.at == self.end {
            return None;
        }
        let rest = rest_of(&mut self.view, self.chunks, self.at);
        let Some((chunk, after)) = rest.chunks.split_first() else {
            unreachable!()
        };
        let text = self.view.read(chunk);
        let to = (self.end - rest.start).min(text.len());
        let part = text_between(text, self.at - rest.start, to);
        self.chunks = prefetch_first(&mut self.view, after);
        self.at = rest.start + to;
        Some(part)
    }
}

impl<'a> Iterator for Chunks<'a> {
    type Item = &'a str;

    ghost use Rattle.std.specs.Iterator.{at_most};
    ghost use Rattle.text_rope.specs.Chunks.{IsNext};

    ghost remaining = { λ s. at_most (s.end - s.at) };

    ghost next_gives = { λ s r t. IsNext s t r };

    fn next(&mut self) -> Option<&'a str> {
        self.next_chunk()
    }
}

/// The part of a text between two boundaries.
pub(crate) fn text_between(text: &str, from: usize, to: usize) -> &str
    requires order { from ≤ to }
    requires start { IsBoundary (chars text.now) from }
    requires end { IsBoundary (chars text.now) to }
    ensures { IsPartAt (chars text.now) (chars result.now) from to }
{
    let (front, _) = halves(text, to);
    let (_, part) = halves(front, from);
    part
}

/// Returns `chunks`. It asks for the first text, which is never empty, so that its memory comes while the text before is read.
fn prefetch_first<'a>(v: &mut View<'_>, chunks: &'a [Chunk]) -> &'a [Chunk]
    ensures chunks { result.now ≡ chunks.now }
    ensures cost { Asks 1 v.old v.new }
{
    match chunks.first() {
        Some(chunk) if v.read(chunk).len() == 0 => &[],
        _ => chunks,
    }
}

/// The last chunks of a leaf, and the byte index where the first of them starts.
#[derive(Clone, Copy)]
pub(crate) struct Rest<'a> {
    pub(crate) chunks: &'a [Chunk],
    pub(crate) start: usize,
}

/// The chunks of a leaf from the one that a byte is in: those at hand, or else by a way down the tree.
fn rest_of<'a>(v: &mut View<'a>, chunks: &'a [Chunk], at: usize) -> Rest<'a>
    requires chunks { chunks.now ≢ [] → IsRestFrom 0 v.old.texts chunks.now at }
    requires inside { at < joined_size v.old.texts }
    ensures rest { IsRestAt 0 v.old.texts result.chunks.now result.start at }
    ensures texts { v.new.texts ≡ v.old.texts }
    ensures looks { 2 ^ (v.new.looks - v.old.looks) ≤ (length v.old.texts + 1) * (length v.old.texts + 1) }
    ensures looks_kept { v.old.looks ≤ v.new.looks }
    ensures reads { v.new.reads ≡ v.old.reads }
{
    if let Some(chunk) = chunks.first() {
        let _some = chunk.summary();
        return Rest { chunks, start: at };
    }
    let place = leaf_at(v, at);
    Rest {
        chunks: &place.chunks[place.index..],
        start: place.start,
    }
}
