//! The answers for the whole text, on one way down the tree: by a byte, or by a count.
ghost use Rattle.std.specs.Prelude.{◌≡◌, ◌+◌, ◌-◌, ◌*◌, ◌^◌, ◌<◌, ◌≤◌, ◌↔◌, [], IsTrue, length};
ghost use Rattle.str_indices.specs.Relations.{IsBoundary};
ghost use Rattle.str_indices.specs.Schemes.{count, from_byte_idx, to_byte_idx};
ghost use Rattle.str_indices.specs.Text.{Text};
ghost use Rattle.text_summary.specs.Fronts.{IsFront};
ghost use Rattle.text_summary.specs.Pieces.{joined, joined_size};
ghost use Rattle.text_rope.specs.Places.{IsPlaceAt, IsPlaceOf, StandsBefore, FallsShort};
ghost use Rattle.text_rope.specs.Looks.{Asks};
ghost use Rattle.text_rope.specs.States.{RopeState};

use crate::chunk::Chunk;
use crate::rope::views::View;
use crate::tree::{Below, Subtree};
use text_summary::{Front, Scheme};

/// A chunk, and what is known of the text before it.
#[derive(Clone, Copy)]
pub(crate) struct Placed<'a> {
    pub(crate) chunk: &'a Chunk,
    pub(crate) before: Front,
}

/// How many chars, UTF-16 code units or line breaks the text has. Looks at no node.
pub fn count_in(v: &mut View, s: Scheme) -> usize
    ensures answer { result ≡ count s (joined v.old.texts) }
    ensures state { v.new ≡ v.old }
{
    match v.root() {
        None => 0,
        Some(subtree) => subtree.summary().count(s),
    }
}

/// How many of them the text has up to a byte index, in a number of looks that is logarithmic in the number of chunks,
/// and one read at most.
#[tactic(auto, using(crate::proofs::lemmas::Costs::power_one))]
pub fn from_in(v: &mut View, s: Scheme, b: usize) -> usize
    ensures answer { result ≡ from_byte_idx s (joined v.old.texts) b }
    ensures cost { Asks 1 v.old v.new }
{
    let Some(subtree) = v.root() else {
        return 0;
    };
    let whole = subtree.summary();
    if whole.len <= b {
        return whole.count(s);
    }
    let place = place_at(v, subtree, s, b);
    let chunk = place.chunk;
    let text = v.read(chunk);
    let own = chunk.summary();
    let step = place.before.step(s, own);
    step.reached + own.from_byte_idx(s, text, b - place.before.len)
}

/// The byte index where char `k`, the char of code unit `k` or line `k` begins, the text's length where it has fewer. As many
/// looks and reads at most as `from_in`.
#[tactic(auto, using(crate::proofs::lemmas::Costs::power_one))]
pub fn to_in(v: &mut View, s: Scheme, k: usize) -> usize
    ensures answer { result ≡ to_byte_idx s (joined v.old.texts) k }
    ensures cost { Asks 1 v.old v.new }
{
    let Some(subtree) = v.root() else {
        return 0;
    };
    let _whole = subtree.summary();
    if k == 0 {
        return 0;
    }
    let place = place_of(v, subtree, s, k);
    let chunk = place.chunk;
    let text = v.read(chunk);
    let own = chunk.summary();
    let step = place.before.step(s, own);
    place.before.len + own.to_byte_idx(s, text, k - step.reached)
}

/// Whether a byte index is between chars, or at the beginning or end of the text; in as many looks and reads at most
/// as `from_in`.
#[tactic(auto, using(crate::proofs::lemmas::Costs::power_one))]
pub fn is_boundary_in(v: &mut View, at: usize) -> bool
    ensures answer { IsTrue result ↔ IsBoundary (joined v.old.texts) at }
    ensures cost { Asks 1 v.old v.new }
{
    let Some(subtree) = v.root() else {
        return at == 0;
    };
    let whole = subtree.summary();
    if whole.len <= at {
        return at == whole.len;
    }
    let place = place_at(v, subtree, Scheme::Lf, at);
    let chunk = place.chunk;
    let text = v.read(chunk);
    chunk
        .summary()
        .is_char_boundary(text, at - place.before.len)
}

/// The chunk of a tree that a byte is in, and what is known in a scheme of the text before it.
pub(crate) fn place_at<'a>(v: &mut View, subtree: &'a Subtree, s: Scheme, at: usize) -> Placed<'a>
    requires { at < joined_size subtree.now.texts }
    ensures place { IsPlaceAt s [] subtree.now.texts result.chunk.now result.before at }
    ensures texts { v.new.texts ≡ v.old.texts }
    ensures low { v.new.looks ≤ v.old.looks + subtree.now.height + 1 }
    ensures looks { 2 ^ (v.new.looks - v.old.looks) ≤ (length subtree.now.texts + 1) * (length subtree.now.texts + 1) }
    ensures looks_kept { v.old.looks ≤ v.new.looks }
    ensures reads { v.new.reads ≡ v.old.reads }
{
    match s {
        Scheme::Chars => place_at_by_scheme(v, subtree, Scheme::Chars, at),
        Scheme::Utf16 => place_at_by_scheme(v, subtree, Scheme::Utf16, at),
        Scheme::Lf => place_at_by_scheme(v, subtree, Scheme::Lf, at),
        Scheme::Crlf => place_at_by_scheme(v, subtree, Scheme::Crlf, at),
        Scheme::Lines => place_at_by_scheme(v, subtree, Scheme::Lines, at),
    }
}

/// Finds the place for one scheme, by code of its own: no node and no chunk asks which scheme it is.
#[inline(always)]
fn place_at_by_scheme<'a>(v: &mut View, subtree: &'a Subtree, s: Scheme, at: usize) -> Placed<'a>
    requires { at < joined_size subtree.now.texts }
    ensures place { IsPlaceAt s [] subtree.now.texts result.chunk.now result.before at }
    ensures texts { v.new.texts ≡ v.old.texts }
    ensures low { v.new.looks ≤ v.old.looks + subtree.now.height + 1 }
    ensures looks { 2 ^ (v.new.looks - v.old.looks) ≤ (length subtree.now.texts + 1) * (length subtree.now.texts + 1) }
    ensures looks_kept { v.old.looks ≤ v.new.looks }
    ensures reads { v.new.reads ≡ v.old.reads }
{
    let _height = subtree.height();
    let _short = subtree.summary();
    let mut part = subtree;
    let mut front = Front::none();
    'down: loop {
        match v.look(part) {
            Below::Chunks(chunks) => return chunk_at_byte(chunks, s, front, at),
            Below::Subtrees(left, right) => {
                let step = front.step(s, *left.summary());
                if at < step.after.len {
                    part = left;
                } else {
                    part = right;
                    front = step.after;
                }
            }
        }
    }
}

/// The chunk of a tree before which a count is not reached, and the last one such, and what is known of the text before it.
pub(crate) fn place_of<'a>(v: &mut View, subtree: &'a Subtree, s: Scheme, k: usize) -> Placed<'a>
    requires { 0 < k }
    ensures place { IsPlaceOf s [] subtree.now.texts result.chunk.now result.before k }
    ensures texts { v.new.texts ≡ v.old.texts }
    ensures looks { 2 ^ (v.new.looks - v.old.looks) ≤ (length subtree.now.texts + 1) * (length subtree.now.texts + 1) }
    ensures looks_kept { v.old.looks ≤ v.new.looks }
    ensures reads { v.new.reads ≡ v.old.reads }
{
    match s {
        Scheme::Chars => place_of_by_scheme(v, subtree, Scheme::Chars, k),
        Scheme::Utf16 => place_of_by_scheme(v, subtree, Scheme::Utf16, k),
        Scheme::Lf => place_of_by_scheme(v, subtree, Scheme::Lf, k),
        Scheme::Crlf => place_of_by_scheme(v, subtree, Scheme::Crlf, k),
        Scheme::Lines => place_of_by_scheme(v, subtree, Scheme::Lines, k),
    }
}

/// Finds the place for one scheme, by code of its own.
#[inline(always)]
fn place_of_by_scheme<'a>(v: &mut View, subtree: &'a Subtree, s: Scheme, k: usize) -> Placed<'a>
    requires { 0 < k }
    ensures place { IsPlaceOf s [] subtree.now.texts result.chunk.now result.before k }
    ensures texts { v.new.texts ≡ v.old.texts }
    ensures looks { 2 ^ (v.new.looks - v.old.looks) ≤ (length subtree.now.texts + 1) * (length subtree.now.texts + 1) }
    ensures looks_kept { v.old.looks ≤ v.new.looks }
    ensures reads { v.new.reads ≡ v.old.reads }
{
    let _height = subtree.height();
    let _short = subtree.summary();
    let mut part = subtree;
    let mut front = Front::none();
    'down: loop {
        match v.look(part) {
            Below::Chunks(chunks) => return chunk_at_count(chunks, s, front, k),
            Below::Subtrees(left, right) => {
                let first = front.step(s, *left.summary());
                let next = first.after.step(s, *right.summary());
                if k <= next.reached {
                    part = left;
                } else {
                    part = right;
                    front = first.after;
                }
            }
        }
    }
}

/// The chunk of some that a byte is in, of a text before them and theirs.
#[inline(always)]
fn chunk_at_byte(chunks: &[Chunk], s: Scheme, before: Front, at: usize) -> Placed<'_>
    requires before { StandsBefore s before chunks.now }
    requires after { before.len ≤ at }
    requires inside { at < before.len + joined_size chunks.now }
    ensures { (a : Text) → IsFront s a before → IsPlaceAt s a chunks.now result.chunk.now result.before at }
{
    let mut front = before;
    for i in 0..chunks.len() {
        let chunk = &chunks[i];
        let step = front.step(s, chunk.summary());
        if at < step.after.len {
            return Placed {
                chunk,
                before: front,
            };
        }
        front = step.after;
    }
    unreachable!()
}

/// The last chunk of some before which a count is not reached: the one before the first that is reached, since a chunk after it
/// may take the break off that it ends with.
#[inline(always)]
fn chunk_at_count(chunks: &[Chunk], s: Scheme, before: Front, k: usize) -> Placed<'_>
    requires reaches { FallsShort s before chunks.now k }
    requires some { 0 < length chunks.now }
    ensures { (a : Text) → IsFront s a before → IsPlaceOf s a chunks.now result.chunk.now result.before k }
{
    let mut last = &chunks[0];
    let _some = last.summary();
    let mut front = before;
    for i in 1..chunks.len() {
        let step = front.step(s, last.summary());
        let chunk = &chunks[i];
        if k <= step.after.count_before(s, chunk.summary().starts_lf) {
            return Placed {
                chunk: last,
                before: front,
            };
        }
        last = chunk;
        front = step.after;
    }
    Placed {
        chunk: last,
        before: front,
    }
}
