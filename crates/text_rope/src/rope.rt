//! A text that is kept in a balanced tree of its chunks.
ghost use Rattle.std.specs.Prelude.{◌≡◌, ◌≢◌, ◌+◌, ◌-◌, ◌*◌, ◌^◌, ◌<◌, ◌≤◌, ◌↔◌, ◌⊎◌, [], ◌++◌, chars, length, encode_utf8_all, Err, IsOk, IsErr, IsErrOf, IsTrue, IsOkUnless, IsSome, IfSome, IfOk, OnOk, OnErr};
ghost use Rattle.std.specs.Char.{len_utf8};
ghost use Rattle.str_indices.specs.Relations.{IsBoundary, IsEndOf};
ghost use Rattle.str_indices.specs.Schemes.{count, from_byte_idx, to_byte_idx};
ghost use Rattle.str_indices.specs.Text.{size};
ghost use Rattle.text_summary.specs.Changes.{IsReplaced};
ghost use Rattle.text_summary.specs.Pieces.{joined};
ghost use Rattle.text_rope.specs.Chunks.{IsChunkAt, ChunksState, IsCopied, IsRead};
ghost use Rattle.text_rope.specs.Edits.{IsCutAt};
ghost use Rattle.text_rope.specs.Looks.{Asks};
ghost use Rattle.text_rope.specs.Refusals.{IsRefused};
ghost use Rattle.text_rope.specs.ChunkSizes.{max_chunk, min_chunk, IsFilled, IsFull};
ghost use Rattle.text_rope.specs.States.{RopeState, unasked};
ghost use Rattle.text_rope.specs.Work.{WorkState, TakesLog};
ghost use Rattle.text_rope.specs.declared.refusals.Refusal.TheVariants.{NotOrdered, NotBoundary, TooLong, NoMemory};

pub(crate) mod costs;
pub(crate) mod views;

use crate::changes::append_trees;
use crate::chunk::{MAX_CHUNK, Unplaced};
use crate::copies::{read_at, read_chunks};
use crate::edits::replace_text;
use crate::loads::tree_from;
use crate::tree::Tree;
use crate::{
    ChunkAt, ChunkCursor, Chunks, Refusal, Scheme, View, char_at_in, char_before_in, chunk_in,
    count_in, from_in, is_boundary_in, to_in,
};
use costs::Work;
use std::alloc::{AllocError, Global};
use std::marker::Model;
use std::mem;
use std::ops::Range;

/// The greatest length of a text in bytes.
const MAX_LEN: usize = isize::MAX as usize;

/// A text that is kept in a balanced tree of its chunks. A contract sees the text, the list of its chars.
///
/// A question looks at a number of nodes that is logarithmic in the number of chunks, and reads one chunk at most.
#[derive(Drop)]
pub struct Rope {
    tree: Tree,
    alloc: Global,
}

impl Model for Rope {
    ghost use Rattle.str_indices.specs.Text.{Text};
    ghost use Rattle.text_summary.specs.Pieces.{joined};

    ghost Value = { Text };

    ghost view = { λ r. joined r.tree };
}

impl Rope {
    /// An empty text. Takes no memory, and keeps the allocator for the chunks to come.
    pub fn new(alloc: Global) -> Rope
        ensures { result ≡ [] }
    {
        Rope {
            tree: Tree::of(None),
            alloc,
        }
    }

    /// A rope of a text, in chunks of at most `MAX_CHUNK` bytes. It is `NoMemory` where memory was refused; an empty text takes
    /// none.
    pub fn from_str(alloc: Global, text: &str) -> Result<Rope, Refusal>
        ensures ok { IfOk result (λ rope. rope ≡ chars text.now) }
        ensures empty { chars text.now ≡ [] → IsOk result }
        ensures no_other { IsOkUnless result NoMemory }
    {
        if text.is_empty() {
            return Ok(Rope::new(alloc));
        }
        if MAX_LEN < text.len() {
            return Err(Refusal::NoMemory);
        }
        Ok(Rope {
            tree: tree_from(&mut Work::none(), alloc, text)?,
            alloc,
        })
    }

    /// A second rope with this text, in one step, whatever its length: a change of either leaves the other. It is
    /// `NoMemory` where as many ropes as can be counted share a node; an empty rope has none.
    pub fn snapshot(&self) -> Result<Rope, Refusal>
        ensures ok { IfOk result (λ rope. rope ≡ self.now) }
        ensures empty { self.now ≡ [] → IsOk result }
        ensures no_other { IsOkUnless result NoMemory }
    {
        let tree = self.tree.share(&Work::none())?;
        Ok(Rope {
            tree,
            alloc: self.alloc,
        })
    }

    /// How many bytes the text has.
    pub fn len(&self) -> usize
        ensures len { result ≡ size self.now }
        ensures short { size self.now < 2 ^ 63 }
    {
        self.tree.len()
    }

    /// Whether the text has no byte.
    pub fn is_empty(&self) -> bool
        ensures { IsTrue result ↔ (self.now ≡ []) }
    {
        self.len() == 0
    }

    /// The text as a question with counted looks and reads sees it: `count_in`, `from_in`, `to_in`, `line_in`, `is_boundary_in`.
    ///
    /// Each chunk has `MIN_CHUNK` bytes or more where there are several, so a text of n bytes has at most n / `MIN_CHUNK` + 1 chunks.
    pub fn view(&self) -> View<'_>
        ensures text { joined result.texts ≡ self.now }
        ensures filled { IsFilled result.texts }
        ensures few { min_chunk * length result.texts ≤ size self.now + min_chunk }
        ensures looks { result.looks ≡ 0 }
        ensures reads { result.reads ≡ 0 }
    {
        View::of(&self.tree)
    }

    /// How many chars, UTF-16 code units or line breaks the text has.
    pub fn count(&self, s: Scheme) -> usize
        ensures { result ≡ count s self.now }
    {
        count_in(&mut self.view(), s)
    }

    /// How many chars, UTF-16 code units or line breaks end at or before a byte index; past the end, all.
    pub fn from_byte_idx(&self, s: Scheme, byte_idx: usize) -> usize
        ensures { result ≡ from_byte_idx s self.now byte_idx }
    {
        from_in(&mut self.view(), s, byte_idx)
    }

    /// The byte index where char `idx`, the char of code unit `idx` or line `idx` begins, counted from 0; the text's length
    /// where it has fewer.
    pub fn to_byte_idx(&self, s: Scheme, idx: usize) -> usize
        ensures { result ≡ to_byte_idx s self.now idx }
    {
        to_in(&mut self.view(), s, idx)
    }

    /// Whether a byte index is between chars, or at the beginning or end of the text; past the end it is not.
    pub fn is_char_boundary(&self, byte_idx: usize) -> bool
        ensures { IsTrue result ↔ IsBoundary self.now byte_idx }
    {
        is_boundary_in(&mut self.view(), byte_idx)
    }

    /// Whether two byte indices are between chars, or at the text's beginning or end. Asks once where they are the same.
    fn are_boundaries(&self, from: usize, to: usize) -> bool
        ensures { IsTrue result ↔ (IsBoundary self.now from × IsBoundary self.now to) }
    {
        self.is_char_boundary(from) && (from == to || self.is_char_boundary(to))
    }

    /// The chunk that a byte is in, and where it starts; none from the end of the text on. It has at most `MAX_CHUNK` bytes,
    /// and at least `MIN_CHUNK` or all of the text.
    pub fn chunk_at(&self, byte_idx: usize) -> Option<ChunkAt<'_>>
        ensures chunk { IfSome result (λ chunk. IsChunkAt self.now (chars chunk.text.now) chunk.start byte_idx) }
        ensures full { IfSome result (λ chunk. IsFull self.now (chars chunk.text.now)) }
        ensures piece { IfSome result (λ chunk. size (chars chunk.text.now) ≤ max_chunk) }
        ensures some { IsSome result ↔ (byte_idx < size self.now) }
    {
        chunk_in(&mut self.view(), byte_idx)
    }

    /// The chunk that a byte is in, to go on from to the next or the one before; none from the end of the text on.
    pub fn cursor_at(&self, byte_idx: usize) -> Option<ChunkCursor<'_>>
        ensures chunk { IfSome result (λ cursor. IsChunkAt self.now cursor.chunk cursor.start byte_idx) }
        ensures text { IfSome result (λ cursor. joined cursor.view.texts ≡ self.now) }
        ensures filled { IfSome result (λ cursor. IsFilled cursor.view.texts) }
        ensures cost { IfSome result (λ cursor. Asks 1 (unasked cursor.view.texts) cursor.view) }
        ensures some { IsSome result ↔ (byte_idx < size self.now) }
    {
        if self.len() <= byte_idx {
            return None;
        }
        Some(ChunkCursor::of(&self.tree, byte_idx))
    }

    /// The char that begins at a byte index; none inside a char, and from the end of the text on.
    pub fn char_at(&self, byte_idx: usize) -> Option<char>
        ensures char { IfSome result (λ c. IsEndOf self.now c (byte_idx + len_utf8 c)) }
        ensures some { IsSome result ↔ (IsBoundary self.now byte_idx × (byte_idx < size self.now)) }
    {
        char_at_in(&mut self.view(), byte_idx)
    }

    /// The char that ends at a byte index; none at the beginning, inside a char, and past the end.
    pub fn char_before(&self, byte_idx: usize) -> Option<char>
        ensures char { IfSome result (λ c. IsEndOf self.now c byte_idx) }
        ensures some { IsSome result ↔ (IsBoundary self.now byte_idx × (0 < byte_idx)) }
    {
        char_before_in(&mut self.view(), byte_idx)
    }

    /// The text in order, chunk by chunk.
    pub fn chunks(&self) -> Chunks<'_>
        ensures text { joined result.view.texts ≡ self.now }
        ensures at { result.at ≡ 0 }
        ensures end { result.end ≡ size self.now }
        ensures filled { IsFilled result.view.texts }
        ensures cost { result.view ≡ unasked result.view.texts }
    {
        Chunks::of(&self.tree, 0, self.len())
    }

    /// The text between two byte indices, each between chars, in order, chunk by chunk. The indices cut the first and the last one.
    ///
    /// It is `NotOrdered` where the first index is above the second, and else `NotBoundary` where one is inside a char or
    /// past the end.
    pub fn chunks_in(&self, range: Range<usize>) -> Result<Chunks<'_>, Refusal>
        ensures text { IfOk result (λ chunks. joined chunks.view.texts ≡ self.now) }
        ensures at { IfOk result (λ chunks. chunks.at ≡ range.start) }
        ensures end { IfOk result (λ chunks. chunks.end ≡ range.end) }
        ensures filled { IfOk result (λ chunks. IsFilled chunks.view.texts) }
        ensures cost { IfOk result (λ chunks. chunks.view ≡ unasked chunks.view.texts) }
        ensures refusals { IsRefused (IsErrOf result) self.now range.start range.end ⊥ ⊥ }
    {
        if range.end < range.start {
            return Err(Refusal::NotOrdered);
        }
        if !self.are_boundaries(range.start, range.end) {
            return Err(Refusal::NotBoundary);
        }
        Ok(Chunks::of(&self.tree, range.start, range.end))
    }

    /// Writes the bytes between two byte indices, each between chars, to the beginning of a room, and answers how many
    /// they are.
    ///
    /// After a refusal the room is as before. It is `NotOrdered` where the first index is above the second, or else
    /// `NotBoundary` where one is inside a char or past the end, and else `TooLong` where the room is shorter than
    /// that part.
    pub fn copy_to(&self, range: Range<usize>, room: &mut [u8]) -> Result<usize, Refusal>
        ensures ok { IfOk result (λ n. IsCopied self.now range.start range.end n room.old room.new) }
        ensures err { OnErr result (room.new ≡ room.old) }
        ensures refusals { IsRefused (IsErrOf result) self.now range.start range.end
            (range.start + length room.old < range.end) ⊥ }
    {
        if range.end < range.start {
            return Err(Refusal::NotOrdered);
        }
        if !self.are_boundaries(range.start, range.end) {
            return Err(Refusal::NotBoundary);
        }
        if room.len() < range.end - range.start {
            return Err(Refusal::TooLong);
        }
        let mut chunks = Chunks::of(&self.tree, range.start, range.end);
        Ok(read_chunks(&mut chunks, 0, room))
    }

    /// Writes the bytes from a byte index on to the beginning of a room, as far as there is room, and answers how many.
    ///
    /// The index may be any, and so may the last byte that is written: both may be inside a char. None are written
    /// from the text's end on.
    pub fn read_at(&self, byte_idx: usize, room: &mut [u8]) -> usize
        ensures { IsRead (encode_utf8_all self.now) byte_idx result room.old room.new }
    {
        read_at(&self.tree, byte_idx, room)
    }

    /// Replaces the text between two byte indices, each between chars.
    ///
    /// After a refusal every answer is as before. It is `NotOrdered` where the first index is above the second, or else
    /// `NotBoundary` where one is inside a char or past the end, or else `TooLong` where the text would have more than
    /// `isize::MAX` bytes, and else `NoMemory` where memory was refused. No memory is taken where `text` is empty and nothing
    /// or all goes out.
    pub fn replace(&mut self, range: Range<usize>, text: &str) -> Result<(), Refusal>
        ensures ok { OnOk result (IsReplaced self.old self.new range.start range.end (chars text.now)) }
        ensures err { OnErr result (self.new ≡ self.old) }
        ensures refusals { IsRefused (IsErrOf result) self.old range.start range.end
            (2 ^ 63 + (range.end - range.start) ≤ size self.old + length text.now)
            ((chars text.now ≢ []) ⊎ ((range.start < range.end) × (range.end - range.start < size self.old))) }
    {
        if range.end < range.start {
            return Err(Refusal::NotOrdered);
        }
        self.replace_range(&mut Work::none(), range.start, range.end, text)
    }

    /// Inserts a text at a byte index between chars.
    ///
    /// After a refusal every answer is as before. It is `NotBoundary` where the byte index is inside a char or past the end,
    /// or else `TooLong` where the text would have more than `isize::MAX` bytes, and else `NoMemory` where memory was
    /// refused. An empty text takes none.
    pub fn insert(&mut self, at: usize, text: &str) -> Result<(), Refusal>
        ensures ok { OnOk result (IsReplaced self.old self.new at at (chars text.now)) }
        ensures err { OnErr result (self.new ≡ self.old) }
        ensures refusals { IsRefused (IsErrOf result) self.old at at (2 ^ 63 ≤ size self.old + length text.now)
            (chars text.now ≢ []) }
    {
        self.replace_range(&mut Work::none(), at, at, text)
    }

    /// Removes the text between two byte indices, each between chars.
    ///
    /// After a refusal every answer is as before. It is `NotOrdered` where the first index is above the second, or else
    /// `NotBoundary` where one is inside a char or past the end, and else `NoMemory` where memory was refused. No memory is
    /// taken where nothing or all goes out.
    pub fn remove(&mut self, range: Range<usize>) -> Result<(), Refusal>
        ensures ok { OnOk result (IsReplaced self.old self.new range.start range.end []) }
        ensures err { OnErr result (self.new ≡ self.old) }
        ensures refusals { IsRefused (IsErrOf result) self.old range.start range.end ⊥
            ((range.start < range.end) × (range.end - range.start < size self.old)) }
    {
        if range.end < range.start {
            return Err(Refusal::NotOrdered);
        }
        let _len = self.len();
        self.replace_range(&mut Work::none(), range.start, range.end, "")?;
        Ok(())
    }

    /// Moves all of another text to the end of this one.
    ///
    /// After a refusal both are as before. It is `TooLong` where the text would have more than `isize::MAX` bytes, and
    /// else `NoMemory` where memory was refused, of which it takes none where either text is empty.
    pub fn append(&mut self, other: &mut Rope) -> Result<(), Refusal>
        ensures ok { OnOk result (self.new ≡ self.old ++ other.old) }
        ensures moved { OnOk result (other.new ≡ []) }
        ensures err { OnErr result ((self.new ≡ self.old) × (other.new ≡ other.old)) }
        ensures too_long { IsErrOf result TooLong ↔ (2 ^ 63 ≤ size self.old + size other.old) }
        ensures no_memory { IsErrOf result NoMemory → (self.old ≢ []) × (other.old ≢ []) }
        ensures not_ordered { result ≢ Err NotOrdered }
        ensures not_boundary { result ≢ Err NotBoundary }
    {
        if MAX_LEN - self.len() < other.len() {
            return Err(Refusal::TooLong);
        }
        if other.is_empty() {
            return Ok(());
        }
        if self.is_empty() {
            self.tree = mem::replace(&mut other.tree, Tree::of(None));
            return Ok(());
        }
        self.append_some(&mut Work::none(), other)
    }

    /// Appends where neither is empty. It inserts one chunk as a text, and joins two trees.
    fn append_some(&mut self, work: &mut Work, other: &mut Rope) -> Result<(), Refusal>
        requires short { size self.old + size other.old < 2 ^ 63 }
        ensures appended { OnOk result (self.new ≡ self.old ++ other.old) }
        ensures moved { OnOk result (other.new ≡ []) }
        ensures err { OnErr result ((self.new ≡ self.old) × (other.new ≡ other.old)) }
        ensures no_other { IsOkUnless result NoMemory }
        ensures work { TakesLog 54 241 (size self.old + size other.old) max_chunk work.old work.new }
    {
        let len = self.len();
        if let Some(chunk) = other.tree.only_chunk() {
            let text = work.read(chunk);
            self.replace_range(work, len, len, text)?;
            other.tree = Tree::of(None);
            return Ok(());
        }
        if let Some(chunk) = self.tree.only_chunk() {
            let text = work.read(chunk);
            other.replace_range(work, 0, 0, text)?;
            self.tree = mem::replace(&mut other.tree, Tree::of(None));
            return Ok(());
        }
        self.tree = append_trees(work, self.alloc, &self.tree, &other.tree)?;
        other.tree = Tree::of(None);
        Ok(())
    }

    /// Takes what is from a byte index on out of the text, into a rope of its own.
    ///
    /// After a refusal every answer is as before. It is `NotBoundary` where the byte index is inside a char or past
    /// the end, and else `NoMemory` where memory was refused, of which it takes none at the beginning and the end.
    pub fn split_off(&mut self, at: usize) -> Result<Rope, Refusal>
        ensures ok { IfOk result (λ back. IsCutAt self.old self.new back at) }
        ensures err { OnErr result (self.new ≡ self.old) }
        ensures refusals { IsRefused (IsErrOf result) self.old at at ⊥ ((0 < at) × (at < size self.old)) }
    {
        if !self.is_char_boundary(at) {
            return Err(Refusal::NotBoundary);
        }
        Ok(self.cut(&mut Work::none(), at)?)
    }

    /// Cuts the text at a boundary: what is from there on is the result.
    fn cut(&mut self, work: &mut Work, at: usize) -> Result<Rope, AllocError>
        requires { IsBoundary self.old at }
        ensures parts { IfOk result (λ back. IsCutAt self.old self.new back at) }
        ensures err { OnErr result (self.new ≡ self.old) }
        ensures inside { IsErr result → (0 < at) × (at < size self.old) }
        ensures work { TakesLog 107 481 (size self.old) 0 work.old work.new }
    {
        let len = self.len();
        if at == len {
            return Ok(Rope::new(self.alloc));
        }
        if at == 0 {
            return Ok(Rope {
                tree: mem::replace(&mut self.tree, Tree::of(None)),
                alloc: self.alloc,
            });
        }
        let mut back = Rope {
            tree: self.tree.share(work)?,
            alloc: self.alloc,
        };
        back.rewrite(work, 0, at, "")?;
        self.take_end(work, at)?;
        Ok(back)
    }

    /// Takes out what is from a boundary on: in place where one chunk has it and no node on the way is shared.
    fn take_end(&mut self, work: &mut Work, at: usize) -> Result<(), AllocError>
        requires { IsBoundary self.old at }
        ensures ok { OnOk result (IsReplaced self.old self.new at (size self.old) []) }
        ensures err { OnErr result (self.new ≡ self.old) }
        ensures work { TakesLog 54 241 (size self.old) 0 work.old work.new }
    {
        let len = self.len();
        match self.tree.replace_in_place(work, at, len, "") {
            Ok(()) => Ok(()),
            Err(_) => Ok(self.rewrite(work, at, len, "")?),
        }
    }

    /// Replaces what is between two byte indices, each between chars, by a text: in place where no node on the way is
    /// shared and one chunk has room for it.
    fn replace_range(
        &mut self,
        work: &mut Work,
        from: usize,
        to: usize,
        text: &str,
    ) -> Result<(), Refusal>
        requires order { from ≤ to }
        ensures ok { OnOk result (IsReplaced self.old self.new from to (chars text.now)) }
        ensures err { OnErr result (self.new ≡ self.old) }
        ensures not_boundary { IsErrOf result NotBoundary ↔ (¬ (IsBoundary self.old from × IsBoundary self.old to)) }
        ensures too_long { IsErrOf result TooLong
            ↔ ((IsBoundary self.old from × IsBoundary self.old to)
            × (2 ^ 63 + (to - from) ≤ size self.old + length text.now)) }
        ensures no_memory { IsErrOf result NoMemory → (chars text.now ≢ []) ⊎ ((from < to) × (to - from < size self.old)) }
        ensures not_ordered { result ≢ Err NotOrdered }
        ensures work { TakesLog 54 241 (size self.old) (length text.now) work.old work.new }
    {
        let len = self.len();
        if len < to {
            return Err(Refusal::NotBoundary);
        }
        if takes_all(len, from, to, text) {
            self.tree = Tree::of(None);
            return Ok(());
        }
        if MAX_CHUNK < text.len() || MAX_LEN - (len - (to - from)) < text.len() {
            return self.replace_range_beside(work, from, to, text);
        }
        match self.tree.replace_in_place(work, from, to, text) {
            Ok(()) => Ok(()),
            Err(Unplaced::NotBoundary) => Err(Refusal::NotBoundary),
            Err(Unplaced::NoRoom) => self.replace_range_beside(work, from, to, text),
        }
    }

    /// Replaces a range that is not replaced in place.
    fn replace_range_beside(
        &mut self,
        work: &mut Work,
        from: usize,
        to: usize,
        text: &str,
    ) -> Result<(), Refusal>
        requires order { from ≤ to }
        ensures replaced { OnOk result (IsReplaced self.old self.new from to (chars text.now)) }
        ensures err { OnErr result (self.new ≡ self.old) }
        ensures not_boundary { IsErrOf result NotBoundary ↔ (¬ (IsBoundary self.old from × IsBoundary self.old to)) }
        ensures too_long { IsErrOf result TooLong
            ↔ ((IsBoundary self.old from × IsBoundary self.old to)
            × (2 ^ 63 + (to - from) ≤ size self.old + length text.now)) }
        ensures no_memory { IsErrOf result NoMemory → (from < to) ⊎ (chars text.now ≢ []) }
        ensures not_ordered { result ≢ Err NotOrdered }
        ensures work { TakesLog 53 240 (size self.old) (length text.now) work.old work.new }
    {
        if !self.are_boundaries(from, to) {
            return Err(Refusal::NotBoundary);
        }
        let kept = self.len() - (to - from);
        if MAX_LEN - kept < text.len() {
            return Err(Refusal::TooLong);
        }
        if from == to && text.is_empty() {
            return Ok(());
        }
        Ok(self.rewrite(work, from, to, text)?)
    }

    /// Replaces what is between two boundaries by a text: all is made beside the tree, and the root is replaced last.
    fn rewrite(
        &mut self,
        work: &mut Work,
        from: usize,
        to: usize,
        text: &str,
    ) -> Result<(), AllocError>
        requires order { from ≤ to }
        requires start { IsBoundary self.old from }
        requires end { IsBoundary self.old to }
        requires short { size self.old + length text.now < 2 ^ 63 + (to - from) }
        ensures replaced { OnOk result (IsReplaced self.old self.new from to (chars text.now)) }
        ensures err { OnErr result (self.new ≡ self.old) }
        ensures work { TakesLog 53 240 (size self.old) (length text.now) work.old work.new }
    {
        self.tree = replace_text(work, self.alloc, &self.tree, from, to, text)?;
        Ok(())
    }
}

/// Whether all of a text of `len` bytes goes out, and nothing comes in.
fn takes_all(len: usize, from: usize, to: usize, text: &str) -> bool
    requires { from ≤ to }
    ensures { IsTrue result ↔ ((chars text.now ≡ []) × (to - from ≡ len)) }
{
    text.is_empty() && to - from == len
}
