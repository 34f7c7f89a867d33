//! One chunk of a text, with its summary.
ghost use Rattle.std.specs.Prelude.{◌≡◌, ◌≢◌, ◌+◌, ◌-◌, ◌<◌, ◌≤◌, ◌↔◌, [], ◌∷◌, chars, length, string_bytes, true, Err, IsTrue, IfOk, OnOk, OnErr};
ghost use Rattle.std.specs.String.{string_len, string_capacity};
ghost use Rattle.str_indices.specs.Relations.{IsBoundary};
ghost use Rattle.str_indices.specs.Text.{Text, size};
ghost use Rattle.text_summary.specs.Changes.{IsReplaced};
ghost use Rattle.text_summary.specs.Summaries.{summary_of};
ghost use Rattle.text_rope.specs.ChunkSizes.{max_chunk};
ghost use Rattle.text_rope.specs.Shifts.{IsShift};
ghost use Rattle.text_rope.specs.Work.{WorkState};
ghost use Rattle.text_rope.specs.declared.chunk.Unplaced.TheVariants.{NotBoundary};

use crate::counts::ChunkCounts;
use crate::rope::costs::{ChangePermit, ReadPermit, Work};
use crate::shifts::Shift;
use std::alloc::{AllocError, Global};
use std::marker::Model;
use std::sync::Arc;
use text_summary::{Summary, summary_after};

/// How many bytes a chunk has at most.
pub const MAX_CHUNK: usize = 1024;

/// How many bytes a chunk has at least where it is not the only one: half of `MAX_CHUNK`, less 3, since a cut moves by up to 3
/// bytes to a boundary.
pub const MIN_CHUNK: usize = MAX_CHUNK / 2 - 3;

/// By how many bytes the memory of a chunk grows. Four times that is the most for which glibc has lists of one size.
const STEP: usize = 248;

/// A text that is neither empty nor longer than `MAX_CHUNK`, in memory that may have several owners, and its counts. A
/// contract sees the text's chars.
#[derive(Drop)]
pub(crate) struct Chunk {
    text: Arc<String>,
    counts: ChunkCounts,
}

impl Model for Chunk {
    ghost use Rattle.std.specs.Prelude.{chars, string_bytes};
    ghost use Rattle.str_indices.specs.Text.{Text};

    ghost Value = { Text };

    ghost use Rattle.text_rope.specs.ChunkCounts.{summary_in};
    ghost use Rattle.text_rope.specs.ChunkSizes.{IsKept};

    ghost view = { λ r. chars (string_bytes r.text.value) };

    ghost invariant = { λ r. IsKept (summary_in r.counts) (chars (string_bytes r.text.value)) };
}

/// Why a change was not made in place.
#[derive(Clone, Copy)]
pub(crate) enum Unplaced {
    /// One of its ends is inside a char.
    NotBoundary,
    /// The chunk has no room for it, or would be short after it, or memory was refused; or a node on the way has another owner.
    NoRoom,
}

impl Chunk {
    /// The chunk of a text: a copy of it, and its summary.
    pub(crate) fn of(alloc: Global, text: &str) -> Result<Chunk, AllocError>
        requires some { chars text.now ≢ [] }
        requires short { size (chars text.now) ≤ max_chunk }
        ensures { IfOk result (λ chunk. chunk ≡ chars text.now) }
    {
        let mut copy = String::with_capacity(alloc, memory_for(text.len()))?;
        copy.push_str(text)?;
        Chunk::from_string(alloc, copy)
    }

    /// The chunk of a text, in the memory that it has.
    pub(crate) fn from_string(alloc: Global, text: String) -> Result<Chunk, AllocError>
        requires some { chars (string_bytes text) ≢ [] }
        requires short { size (chars (string_bytes text)) ≤ max_chunk }
        ensures { IfOk result (λ chunk. chunk ≡ chars (string_bytes text)) }
    {
        let counts = ChunkCounts::of(Summary::of(text.as_str()));
        let text = Arc::new(alloc, text)?;
        Ok(Chunk { text, counts })
    }

    /// The summary of its text.
    pub(crate) fn summary(&self) -> Summary
        ensures summary { result ≡ summary_of self.now }
        ensures some { self.now ≢ [] }
        ensures short { size self.now ≤ max_chunk }
    {
        self.counts.summary()
    }

    /// Its text.
    pub(crate) fn text(&self, _permit: ReadPermit) -> &str
        ensures text { chars result.now ≡ self.now }
        ensures len { length result.now ≡ size self.now }
        ensures some { self.now ≢ [] }
        ensures short { size self.now ≤ max_chunk }
    {
        self.own_text()
    }

    /// Its text, for itself and for a change.
    fn own_text(&self) -> &str
        ensures text { chars result.now ≡ self.now }
        ensures len { length result.now ≡ size self.now }
        ensures some { self.now ≢ [] }
        ensures short { size self.now ≤ max_chunk }
    {
        self.text.as_str()
    }

    /// Whether a byte index is between its chars, or at its beginning or end.
    fn is_char_boundary(&self, byte_idx: usize) -> bool
        ensures { IsTrue result ↔ IsBoundary self.now byte_idx }
    {
        let summary = self.summary();
        summary.is_char_boundary(self.own_text(), byte_idx)
    }

    /// Replaces what is between two byte indices by a text, where the chunk has at least `least` bytes after it and is not too
    /// long. `shift` becomes the summaries before and after; else nothing changes. It takes memory only where the chunk outgrows
    /// its own, or shares it.
    pub(crate) fn replace_in_place(
        &mut self,
        _permit: ChangePermit,
        from: usize,
        to: usize,
        more: &str,
        least: usize,
        shift: &mut Shift,
    ) -> Result<(), Unplaced>
        requires some { 0 < least }
        requires order { from ≤ to }
        requires within { to ≤ size self.old }
        ensures replaced { OnOk result (IsReplaced self.old self.new from to (chars more.now)) }
        ensures shift { OnOk result (IsShift self.old self.new shift.new) }
        ensures full { OnOk result (least ≤ size self.new) }
        ensures not_boundary { (result ≡ Err NotBoundary)
            ↔ (¬ (IsBoundary self.old from × IsBoundary self.old to)) }
        ensures err { OnErr result (self.new ≡ self.old) }
    {
        if !self.are_boundaries(from, to) {
            return Err(Unplaced::NotBoundary);
        }
        if !self.has_room(to - from, more.len(), least) {
            return Err(Unplaced::NoRoom);
        }
        self.replace_part(from, to, more, shift)
    }

    /// Whether two byte indices are between its chars, or at its beginning or end.
    fn are_boundaries(&self, from: usize, to: usize) -> bool
        ensures { IsTrue result ↔ (IsBoundary self.now from × IsBoundary self.now to) }
    {
        self.is_char_boundary(from) && (from == to || self.is_char_boundary(to))
    }

    /// Replaces what is between two boundaries by a text that the chunk has room for: in its own memory, or in a copy where that
    /// has another owner.
    fn replace_part(
        &mut self,
        from: usize,
        to: usize,
        more: &str,
        shift: &mut Shift,
    ) -> Result<(), Unplaced>
        requires order { from ≤ to }
        requires start { IsBoundary self.old from }
        requires end { IsBoundary self.old to }
        requires room { size self.old + length more.now ≤ max_chunk + (to - from) }
        requires some { to < from + (size self.old + length more.now) }
        ensures replaced { OnOk result (IsReplaced self.old self.new from to (chars more.now)) }
        ensures shift { OnOk result (IsShift self.old self.new shift.new) }
        ensures len { OnOk result (size self.new + (to - from) ≡ size self.old + length more.now) }
        ensures err { OnErr result (self.new ≡ self.old) }
        ensures room { result ≢ Err NotBoundary }
    {
        let out = self.summary();
        let after = summary_after(self.own_text(), out, from, to, more, Summary::of(more));
        let Ok(text) = Arc::make_mut(&mut self.text) else {
            return Err(Unplaced::NoRoom);
        };
        let _text = text.as_str();
        if !has_memory(text, after.len) {
            return Err(Unplaced::NoRoom);
        }
        *shift = Shift { out, own: after };
        replace_range(text, from, to, more);
        self.counts = ChunkCounts::of(after);
        Ok(())
    }

    /// Whether it has from `least` to `MAX_CHUNK` bytes after `out` bytes go out and `more` come in.
    fn has_room(&self, out: usize, more: usize, least: usize) -> bool
        requires { out ≤ size self.now }
        ensures room { result ≡ true → size self.now + more ≤ max_chunk + out }
        ensures full { result ≡ true → least + out ≤ size self.now + more }
    {
        let len = self.summary().len;
        let kept = len - out;
        more <= MAX_CHUNK - kept && least <= kept + more
    }
}

impl Work {
    /// A chunk for another node, for one chunk. Copies no text.
    pub(crate) fn copy(&mut self, chunk: &Chunk) -> Result<Chunk, AllocError>
        ensures ok { IfOk result (λ copy. copy ≡ chunk.now) }
        ensures nodes { self.new.nodes ≡ self.old.nodes }
        ensures chunks { self.new.chunks ≡ self.old.chunks + 1 }
    {
        self.change();
        Ok(Chunk {
            text: Arc::try_clone(&chunk.text)?,
            counts: chunk.counts,
        })
    }

    /// A chunk's text. Counts nothing.
    pub(crate) fn read<'a>(&self, chunk: &'a Chunk) -> &'a str
        ensures text { chars result.now ≡ chunk.now }
        ensures len { length result.now ≡ size chunk.now }
        ensures some { chunk.now ≢ [] }
        ensures short { size chunk.now ≤ max_chunk }
    {
        chunk.own_text()
    }
}

/// How many bytes of memory a text of `len` bytes gets: up to a step more, as far as the longest chunk needs it.
pub(crate) fn memory_for(len: usize) -> usize
    ensures { len ≤ result }
{
    if MAX_CHUNK < len {
        return len;
    }
    ((len / STEP + 1) * STEP).min(MAX_CHUNK)
}

/// Whether a text has memory for `len` bytes, or gets it.
fn has_memory(text: &mut String, len: usize) -> bool
    requires { len ≤ max_chunk }
    ensures text { string_bytes text.new ≡ string_bytes text.old }
    ensures room { result ≡ true → len ≤ string_capacity text.new }
{
    if len <= text.capacity() {
        return true;
    }
    let more = memory_for(len) - text.len();
    match text.reserve_exact(more) {
        Ok(()) => true,
        Err(_) => false,
    }
}

/// Replaces what is between two boundaries of a text by another one, where there is room for it.
fn replace_range(text: &mut String, from: usize, to: usize, more: &str)
    requires order { from ≤ to }
    requires start { IsBoundary (chars (string_bytes text.old)) from }
    requires end { IsBoundary (chars (string_bytes text.old)) to }
    requires room { string_len text.old + length more.now ≤ string_capacity text.old + (to - from) }
    ensures { IsReplaced (chars (string_bytes text.old)) (chars (string_bytes text.new)) from to (chars more.now) }
{
    if from == to {
        put(text, from, more);
        return;
    }
    take_out(text, from, to);
    if 0 < more.len() {
        put(text, from, more);
    }
}

/// Takes out what is between two boundaries.
fn take_out(text: &mut String, from: usize, to: usize)
    requires order { from ≤ to }
    requires start { IsBoundary (chars (string_bytes text.old)) from }
    requires end { IsBoundary (chars (string_bytes text.old)) to }
    ensures text { IsReplaced (chars (string_bytes text.old)) (chars (string_bytes text.new)) from to [] }
    ensures len { string_len text.new + (to - from) ≡ string_len text.old }
    ensures room { string_capacity text.old ≤ string_capacity text.new }
{
    let _before = text.as_str();
    let Ok(()) = text.replace_range(from..to, "") else {
        unreachable!()
    };
}

/// Puts a text in where there is room for it.
fn put(text: &mut String, at: usize, more: &str)
    requires boundary { IsBoundary (chars (string_bytes text.old)) at }
    requires room { string_len text.old + length more.now ≤ string_capacity text.old }
    ensures text { IsReplaced (chars (string_bytes text.old)) (chars (string_bytes text.new)) at at (chars more.now) }
    ensures room { string_capacity text.old ≤ string_capacity text.new }
{
    match more.as_bytes() {
        [byte] if *byte < 128 => put_ascii(text, at, more, *byte),
        _ => put_longer(text, at, more),
    }
}

/// Does so for one ASCII char: the bytes after it move by a distance that the compiler knows, which is one `memmove`.
fn put_ascii(text: &mut String, at: usize, more: &str, byte: u8)
    requires boundary { IsBoundary (chars (string_bytes text.old)) at }
    requires room { string_len text.old < string_capacity text.old }
    requires own { more.now ≡ byte ∷ [] }
    requires ascii { byte < 128 }
    ensures text { IsReplaced (chars (string_bytes text.old)) (chars (string_bytes text.new)) at at (chars more.now) }
    ensures room { string_capacity text.old ≤ string_capacity text.new }
{
    let _before = text.as_str();
    let Ok(()) = text.insert(at, char::from(byte)) else {
        unreachable!()
    };
}

/// Puts any text into another that has room for it.
fn put_longer(text: &mut String, at: usize, more: &str)
    requires boundary { IsBoundary (chars (string_bytes text.old)) at }
    requires room { string_len text.old + length more.now ≤ string_capacity text.old }
    ensures text { IsReplaced (chars (string_bytes text.old)) (chars (string_bytes text.new)) at at (chars more.now) }
    ensures room { string_capacity text.old ≤ string_capacity text.new }
{
    let _before = text.as_str();
    let Ok(()) = text.insert_str(at, more) else {
        unreachable!()
    };
}
