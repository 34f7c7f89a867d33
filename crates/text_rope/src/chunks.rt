//! The chunk that a byte is in, lent with what is known of the text before it.
ghost use Rattle.std.specs.Prelude.{◌≡◌, ◌+◌, ◌-◌, ◌*◌, ◌^◌, ◌<◌, ◌≤◌, ◌↔◌, ◌⊎◌, [], IsSome, IfSome, chars, length};
ghost use Rattle.str_indices.specs.Text.{size};
ghost use Rattle.text_summary.specs.Pieces.{joined, joined_size};
ghost use Rattle.text_summary.specs.Summaries.{summary_of};
ghost use Rattle.text_rope.specs.Chunks.{HasChunkAt, IsChunkAtByte};
ghost use Rattle.text_rope.specs.ChunkSizes.{max_chunk};
ghost use Rattle.text_rope.specs.Looks.{Asks};
ghost use Rattle.text_rope.specs.States.{RopeState};

use crate::chunk::Chunk;
use crate::queries::place_at;
use crate::rope::views::View;
use text_summary::{Front, Scheme, Summary};

/// A chunk's text, and the byte index where it starts.
#[derive(Clone, Copy)]
pub struct ChunkAt<'a> {
    pub text: &'a str,
    pub start: usize,
}

/// A chunk's text with its summary, where it starts, and what is known of the text before it.
#[derive(Clone, Copy)]
pub struct ChunkAtByte<'a> {
    /// The chunk's text, and the byte index where it starts.
    pub chunk: ChunkAt<'a>,
    /// The summary of the chunk's text.
    pub own: Summary,
    /// The bytes of the text before it, its count in the scheme, and whether it ends in CR.
    pub before: Front,
}

/// The chunk that a byte is in, of at most `MAX_CHUNK` bytes, and where it starts; none from the end of the text on.
/// One question: at most 2 log₂ (chunks + 1) looks, and one read.
pub fn chunk_in<'a>(v: &mut View<'a>, at: usize) -> Option<ChunkAt<'a>>
    ensures chunk { IfSome result (λ chunk. HasChunkAt v.old.texts (chars chunk.text.now) chunk.start at) }
    ensures piece { IfSome result (λ chunk. size (chars chunk.text.now) ≤ max_chunk) }
    ensures some { IsSome result ↔ (at < joined_size v.old.texts) }
    ensures cost { Asks 1 v.old v.new }
{
    match chunk_at_byte_in(v, Scheme::Lf, at) {
        Some(located) => Some(located.chunk),
        None => None,
    }
}

/// The chunk that a byte is in, of at most `MAX_CHUNK` bytes, its summary, where it starts, and what is counted in a
/// scheme before it; none from the end of the text on. One question, as `chunk_in`.
#[tactic(auto, using(crate::proofs::lemmas::Costs::power_one))]
pub fn chunk_at_byte_in<'a>(v: &mut View<'a>, s: Scheme, at: usize) -> Option<ChunkAtByte<'a>>
    ensures located { IfSome result (λ l.
        IsChunkAtByte s v.old.texts (chars l.chunk.text.now) l.chunk.start l.before at) }
    ensures own { IfSome result (λ l. l.own ≡ summary_of (chars l.chunk.text.now)) }
    ensures piece { IfSome result (λ l. size (chars l.chunk.text.now) ≤ max_chunk) }
    ensures some { IsSome result ↔ (at < joined_size v.old.texts) }
    ensures cost { Asks 1 v.old v.new }
{
    let Some(subtree) = v.root() else {
        return None;
    };
    let whole = subtree.summary();
    if whole.len <= at {
        return None;
    }
    let place = place_at(v, subtree, s, at);
    let text = v.read(place.chunk);
    Some(lend(place.chunk, text, place.before))
}

/// A chunk's text, lent with its summary.
fn lend<'a>(chunk: &Chunk, text: &'a str, before: Front) -> ChunkAtByte<'a>
    requires { chars text.now ≡ chunk.now }
    ensures text { chars result.chunk.text.now ≡ chunk.now }
    ensures start { result.chunk.start ≡ before.len }
    ensures own { result.own ≡ summary_of (chars result.chunk.text.now) }
    ensures piece { size (chars result.chunk.text.now) ≤ max_chunk }
    ensures before { result.before ≡ before }
{
    ChunkAtByte {
        chunk: ChunkAt {
            text,
            start: before.len,
        },
        own: chunk.summary(),
        before,
    }
}
