//! Changes of a text by ranges of positions, as a client of a language server tells them.
ghost use Rattle.std.specs.Prelude.{◌≡◌, ◌≢◌, ◌+◌, ◌-◌, ◌^◌, ◌<◌, ◌≤◌, ◌↔◌, ◌⊎◌, [], chars, length, IfSome, IsSome, IsNone, IfNone, IsSomeAnd, IsErrOf, IsTrue, OnOk, OnErr};
ghost use Rattle.str_indices.specs.Relations.{IsBoundary};
ghost use Rattle.str_indices.specs.Text.{size};
ghost use Rattle.positions.specs.Positions.{exact_byte_at};
ghost use Rattle.text_summary.specs.Changes.{IsReplaced};
ghost use Rattle.text_rope.specs.Refusals.{IsChangeRefused};
ghost use Rattle.text_rope.specs.Ranges.{exact_part_at, is_ordered, part_at};
ghost use Rattle.text_rope.specs.declared.refusals.Refusal.TheVariants.{NotOrdered, NotBoundary, TooLong, NoMemory};

use crate::{Refusal, Rope};
use positions::{Encoding, LineType, Position, Range, byte_range, exact_byte_of};
use std::ops;

/// A change of a text: the protocol's `TextDocumentContentChangeEvent`.
#[derive(Clone, Copy)]
pub struct Change<'a> {
    /// The range that is replaced, or `None` for the whole text.
    pub range: Option<Range>,
    /// The text that comes in.
    pub text: &'a str,
}

impl Rope {
    /// Replaces a part of the text, or all of it, by a text.
    ///
    /// The range's bytes are those of its positions, as `byte_of` answers them. After a refusal the text is as before. It is
    /// `NotOrdered` where the range's end is before its start, or else `TooLong` where the text would have more than
    /// `isize::MAX` bytes, and else `NoMemory` where memory was refused.
    pub fn apply(&mut self, encoding: Encoding, change: Change<'_>) -> Result<(), Refusal>
        ensures ok { OnOk result (IfSome (part_at encoding self.old change.entry.range) (λ part.
            IsReplaced self.old self.new part.start part.end (chars change.entry.text.now))) }
        ensures whole { OnOk result (IfNone change.entry.range (self.new ≡ chars change.entry.text.now)) }
        ensures err { OnErr result (self.new ≡ self.old) }
        ensures refusals { let part = part_at encoding self.old change.entry.range in
            IsChangeRefused (IsErrOf result) part part self.old change.entry.text.now }
    {
        let Some(part) = byte_range_of(self, encoding, change.range) else {
            return Err(Refusal::NotOrdered);
        };
        self.replace(part, change.text)
    }

    /// Replaces a part of the text, or all of it, by a text, if each of the range's positions names a place.
    ///
    /// So a server notices a client that is out of step: `apply` would cut the positions. After a refusal the text is as
    /// before. It is `NotOrdered` where the range's end is before its start, or else `NotBoundary` where a position names no
    /// place, since the text has no such line, the offset is past the end of the line, or the unit is inside a char, or else
    /// `TooLong` where the text would have more than `isize::MAX` bytes, and else `NoMemory` where memory was refused.
    pub fn apply_exact(&mut self, encoding: Encoding, change: Change<'_>) -> Result<(), Refusal>
        ensures ok { OnOk result (IfSome (exact_part_at encoding self.old change.entry.range) (λ part.
            IsReplaced self.old self.new part.start part.end (chars change.entry.text.now))) }
        ensures whole { OnOk result (IfNone change.entry.range (self.new ≡ chars change.entry.text.now)) }
        ensures err { OnErr result (self.new ≡ self.old) }
        ensures refusals { IsChangeRefused (IsErrOf result) (part_at encoding self.old change.entry.range)
            (exact_part_at encoding self.old change.entry.range) self.old change.entry.text.now }
    {
        if !is_ordered(change.range) {
            return Err(Refusal::NotOrdered);
        }
        let Some(part) = exact_part_of(self, encoding, change.range) else {
            return Err(Refusal::NotBoundary);
        };
        self.replace(part, change.text)
    }
}

/// Finds the bytes that a change replaces, or `None` if the range's end is before its start.
fn byte_range_of(rope: &Rope, encoding: Encoding, range: Option<Range>) -> Option<ops::Range<usize>>
    ensures part { result ≡ part_at encoding rope.now range }
    ensures ordered { IfSome result (λ part. part.start ≤ part.end) }
    ensures boundaries { IfSome result (λ part. IsBoundary rope.now part.start × IsBoundary rope.now part.end) }
{
    match range {
        None => Some(0..rope.len()),
        Some(range) => byte_range(&mut rope.view(), LineType::Crlf, encoding, range),
    }
}

/// Whether the end of a change's range is not before its start.
fn is_ordered(range: Option<Range>) -> bool
    ensures { result ≡ is_ordered range }
{
    match range {
        None => true,
        Some(range) => range.start.is_at_or_before(range.end),
    }
}

/// Finds the bytes that a change replaces, or `None` if a position names no place.
fn exact_part_of(rope: &Rope, encoding: Encoding, range: Option<Range>) -> Option<ops::Range<usize>>
    requires ordered { IsTrue (is_ordered range) }
    ensures part { result ≡ exact_part_at encoding rope.now range }
    ensures ordered { IfSome result (λ part. part.start ≤ part.end) }
    ensures boundaries { IfSome result (λ part. IsBoundary rope.now part.start × IsBoundary rope.now part.end) }
{
    let Some(range) = range else {
        return Some(0..rope.len());
    };
    let start = place_at(rope, encoding, range.start)?;
    let end = place_at(rope, encoding, range.end)?;
    Some(start..end)
}

/// Finds the byte of a position that names a place.
fn place_at(rope: &Rope, encoding: Encoding, position: Position) -> Option<usize>
    ensures answer { result ≡ exact_byte_at LineType.Crlf encoding rope.now position }
    ensures boundary { IfSome result (λ byte. IsBoundary rope.now byte) }
{
    exact_byte_of(&mut rope.view(), LineType::Crlf, encoding, position)
}
