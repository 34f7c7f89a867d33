//! The bytes of a text, written out.
ghost use Rattle.std.specs.Prelude.{◌≡◌, ◌<◌, ◌≤◌, length, encode_utf8_all};
ghost use Rattle.text_summary.specs.Pieces.{joined};
ghost use Rattle.text_rope.specs.Chunks.{ChunksState, IsWithin, IsRead, IsPartRead};

use crate::iter::Chunks;
use crate::tree::Tree;

/// Writes the bytes of a tree's text from an index on to the beginning of a room, as far as there is room, and answers how
/// many.
pub(crate) fn read_at(tree: &Tree, at: usize, room: &mut [u8]) -> usize
    ensures { IsRead (encode_utf8_all (joined tree.now)) at result room.old room.new }
{
    if tree.len() <= at {
        return 0;
    }
    let (mut chunks, skip) = Chunks::from_chunk(tree, at);
    read_chunks(&mut chunks, skip, room)
}

/// Writes the bytes of the chunks that are left, but for so many, to the beginning of a room, as far as there is room, and
/// answers how many.
pub(crate) fn read_chunks(chunks: &mut Chunks<'_>, skip: usize, room: &mut [u8]) -> usize
    requires { IsWithin (joined chunks.old.view.texts) chunks.old.at chunks.old.end }
    ensures read { IsPartRead (joined chunks.old.view.texts) chunks.old.at chunks.new.at skip result room.old room.new }
    ensures within { chunks.new.at ≤ chunks.old.end }
    ensures full { chunks.new.at < chunks.old.end → result ≡ length room.old }
{
    let mut skip = skip;
    let mut written = 0;
    while written < room.len() {
        let Some(chunk) = chunks.next_chunk() else {
            return written;
        };
        let bytes = chunk.as_bytes();
        written += read(bytes, skip, &mut room[written..]);
        skip = skip.saturating_sub(bytes.len());
    }
    written
}

/// Writes the bytes from an index on to the beginning of a room, as far as there is room, and answers how many.
fn read(bytes: &[u8], at: usize, room: &mut [u8]) -> usize
    ensures { IsRead bytes.now at result room.old room.new }
{
    let rest = &bytes[at.min(bytes.len())..];
    let len = rest.len().min(room.len());
    room[..len].copy_from_slice(&rest[..len]);
    len
}
