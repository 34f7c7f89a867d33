// Chunks of a text that follow each other, lent.
ghost use Rattle.std.specs.Prelude.{◌≡◌, ◌<◌, ◌≤◌, All, drop, length, min, take};
ghost use types.Logic.{sem};
ghost use Rattle.str_indices.specs.Text.{size};
ghost use Rattle.text_rope_c.specs.ChunkLists.{AreChunksAt, AreChunksBefore, IsSized, end_after, start_after};
ghost use Rattle.text_rope_c.specs.Lends.{Stays};

use crate::reads::Chunk;
use crate::slot::Slot;
use text_rope::Rope;

/// How many chunks were lent, which borrows the handle.
#[derive(Drop)]
struct LentChunks<'a> {
    count: usize,
    held: &'a (),
}

/// Lends the chunk that a byte is in and those after it, as many as there is room for, until the handle is in another call.
/// Returns how many: fewer than there is room for only where the text ends. The handle ends as it was.
#[unsafe(no_mangle)]
pub extern "C" fn rope_chunks_at<'a>(
    rope: &'a mut Slot,
    byte_idx: usize,
    out: &mut [Chunk<'a>],
) -> usize
    ensures* stays { sem 𝓛 (Stays rope.entry) }
    ensures within { result ≤ length out.old }
    ensures chunks { AreChunksAt rope.old.text byte_idx (take result out.new) }
    ensures sized { All (IsSized rope.old.text) (take result out.new) }
    ensures full { result < length out.old → size rope.old.text ≤ end_after byte_idx (take result out.new) }
    ensures rest { drop result out.new ≡ drop result out.old }
{
    lend_chunks_at(rope, byte_idx, out).count
}

fn lend_chunks_at<'a>(rope: &'a mut Slot, byte_idx: usize, out: &mut [Chunk<'a>]) -> LentChunks<'a>
    ensures* stays { sem 𝓛 (Stays rope.entry) }
    ensures within { result.count ≤ length out.old }
    ensures chunks { AreChunksAt rope.old.text byte_idx (take result.count out.new) }
    ensures sized { All (IsSized rope.old.text) (take result.count out.new) }
    ensures full { result.count < length out.old → size rope.old.text ≤ end_after byte_idx (take result.count out.new) }
    ensures rest { drop result.count out.new ≡ drop result.count out.old }
{
    let count = match rope.lend() {
        None => 0,
        Some(rope) => put_chunks_at(rope, byte_idx, out),
    };
    LentChunks { count, held: &() }
}

/// Lends the chunk that the byte before an index is in and those before it, backwards, as many as there is room for, until the
/// handle is in another call. Past the end the index is that of the end. Returns how many: fewer than there is room for only
/// where the text begins. The handle ends as it was.
#[unsafe(no_mangle)]
pub extern "C" fn rope_chunks_before<'a>(
    rope: &'a mut Slot,
    byte_idx: usize,
    out: &mut [Chunk<'a>],
) -> usize
    ensures* stays { sem 𝓛 (Stays rope.entry) }
    ensures within { result ≤ length out.old }
    ensures chunks { AreChunksBefore rope.old.text (min byte_idx (size rope.old.text)) (take result out.new) }
    ensures sized { All (IsSized rope.old.text) (take result out.new) }
    ensures full { result < length out.old
        → start_after (min byte_idx (size rope.old.text)) (take result out.new) ≡ 0 }
    ensures rest { drop result out.new ≡ drop result out.old }
{
    lend_chunks_before(rope, byte_idx, out).count
}

fn lend_chunks_before<'a>(
    rope: &'a mut Slot,
    byte_idx: usize,
    out: &mut [Chunk<'a>],
) -> LentChunks<'a>
    ensures* stays { sem 𝓛 (Stays rope.entry) }
    ensures within { result.count ≤ length out.old }
    ensures chunks { AreChunksBefore rope.old.text (min byte_idx (size rope.old.text)) (take result.count out.new) }
    ensures sized { All (IsSized rope.old.text) (take result.count out.new) }
    ensures full { result.count < length out.old
        → start_after (min byte_idx (size rope.old.text)) (take result.count out.new) ≡ 0 }
    ensures rest { drop result.count out.new ≡ drop result.count out.old }
{
    let count = match rope.lend() {
        None => 0,
        Some(rope) => put_chunks_before(rope, byte_idx, out),
    };
    LentChunks { count, held: &() }
}

fn put_chunks_at<'a>(rope: &'a Rope, byte_idx: usize, out: &mut [Chunk<'a>]) -> usize
    ensures within { result ≤ length out.old }
    ensures chunks { AreChunksAt rope.now byte_idx (take result out.new) }
    ensures sized { All (IsSized rope.now) (take result out.new) }
    ensures full { result < length out.old → size rope.now ≤ end_after byte_idx (take result out.new) }
    ensures rest { drop result out.new ≡ drop result out.old }
{
    let Some(mut cursor) = rope.cursor_at(byte_idx) else {
        return 0;
    };
    'chunks: for count in 0..out.len() {
        out[count] = Chunk::of(cursor.chunk());
        if !cursor.next() {
            return count + 1;
        }
    }
    out.len()
}

fn put_chunks_before<'a>(rope: &'a Rope, byte_idx: usize, out: &mut [Chunk<'a>]) -> usize
    ensures within { result ≤ length out.old }
    ensures chunks { AreChunksBefore rope.now (min byte_idx (size rope.now)) (take result out.new) }
    ensures sized { All (IsSized rope.now) (take result out.new) }
    ensures full { result < length out.old
        → start_after (min byte_idx (size rope.now)) (take result out.new) ≡ 0 }
    ensures rest { drop result out.new ≡ drop result out.old }
{
    let at = byte_idx.min(rope.len());
    if at == 0 {
        return 0;
    }
    let Some(mut cursor) = rope.cursor_at(at - 1) else {
        return 0;
    };
    'chunks: for count in 0..out.len() {
        out[count] = Chunk::of(cursor.chunk());
        if !cursor.prev() {
            return count + 1;
        }
    }
    out.len()
}
