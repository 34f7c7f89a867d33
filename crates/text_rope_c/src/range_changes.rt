// Changes of a text by ranges of positions, as a client of a language server tells them.
ghost use Rattle.std.specs.Prelude.{◌≡◌, ◌≢◌, ◌+◌, ◌-◌, ◌^◌, ◌<◌, ◌≤◌, ◌↔◌, ◌⊎◌, [], length, chars, Some, IfSome, IsSome, IsNone, IsSomeAnd, IsErrOf, IsUtf8, OnOk, OnErr};
ghost use Rattle.str_indices.specs.Text.{size};
ghost use Rattle.positions.specs.Positions.{byte_range_at};
ghost use Rattle.positions.specs.declared.line_type.LineType.TheVariants.{Crlf};
ghost use Rattle.text_summary.specs.Changes.{IsReplaced};
ghost use Rattle.text_rope.specs.Ranges.{exact_part_at};
ghost use Rattle.text_rope.specs.Refusals.{IsChangeRefused};
ghost use Rattle.text_rope.specs.declared.refusals.Refusal.TheVariants.{NotOrdered, NotBoundary, TooLong, NoMemory};
ghost use Rattle.c_values.specs.Numbers.{encoding_at};
ghost use Rattle.text_rope_c.specs.Statuses.{IsStatus, done, no_memory, not_boundary, not_ordered, not_utf8, too_long};

use crate::handles::store;
use crate::slot::Slot;
use crate::statuses::{NOT_UTF8, status_at};
use c_values::{encoding_at, utf8_of};
use positions::{Encoding, Range};
use std::alloc::Global;
use str_indices::{from_utf8, is_utf8};
use text_rope::{Change, Refusal, Rope};

/// Replaces a range by a text, as a client of a language server tells it.
///
/// The status is `not_utf8` where the bytes are not UTF-8, or else `not_ordered` where the range's end is before its
/// start, or else `too_long` where the text would have more than `isize::MAX` bytes, and else `no_memory` where memory was
/// refused.
#[unsafe(no_mangle)]
pub extern "C" fn rope_change(
    alloc: Global,
    rope: &mut Slot,
    encoding: u32,
    range: Range,
    text: &[u8],
) -> u32
    ensures done { result ≡ done → IfSome (byte_range_at Crlf (encoding_at encoding) rope.old.text range)
        (λ part. IsReplaced rope.old.text rope.new.text part.start part.end (chars text.now)) }
    ensures refused { result ≢ done → rope.new.text ≡ rope.old.text }
    ensures not_utf8 { (result ≡ not_utf8) ↔ (¬ (IsUtf8 text.now)) }
    ensures refusals { result ≢ not_utf8 → IsUtf8 text.now
        × IsChangeRefused (IsStatus result) (byte_range_at Crlf (encoding_at encoding) rope.old.text range)
        (byte_range_at Crlf (encoding_at encoding) rope.old.text range) rope.old.text text.now }
    ensures known { result ≤ not_utf8 }
{
    if !is_utf8(text) {
        return NOT_UTF8;
    }
    rope_change_utf8(alloc, rope, encoding, range, text)
}

/// As `rope_change`, for bytes that are UTF-8.
#[unsafe(no_mangle)]
pub extern "C" fn rope_change_utf8(
    alloc: Global,
    rope: &mut Slot,
    encoding: u32,
    range: Range,
    text: &[u8],
) -> u32
    requires { IsUtf8 text.now }
    ensures done { result ≡ done → IfSome (byte_range_at Crlf (encoding_at encoding) rope.old.text range)
        (λ part. IsReplaced rope.old.text rope.new.text part.start part.end (chars text.now)) }
    ensures refused { result ≢ done → rope.new.text ≡ rope.old.text }
    ensures refusals { IsChangeRefused (IsStatus result) (byte_range_at Crlf (encoding_at encoding) rope.old.text range)
        (byte_range_at Crlf (encoding_at encoding) rope.old.text range) rope.old.text text.now }
    ensures known { result ≤ no_memory }
{
    status_at(apply_change(alloc, rope, encoding_at(encoding), range, utf8_of(text)))
}

fn apply_change(
    alloc: Global,
    rope: &mut Slot,
    encoding: Encoding,
    range: Range,
    text: &str,
) -> Result<(), Refusal>
    ensures ok { OnOk result (IfSome (byte_range_at Crlf encoding rope.old.text range) (λ part.
        IsReplaced rope.old.text rope.new.text part.start part.end (chars text.now))) }
    ensures err { OnErr result (rope.new.text ≡ rope.old.text) }
    ensures refusals { IsChangeRefused (IsErrOf result) (byte_range_at Crlf encoding rope.old.text range)
        (byte_range_at Crlf encoding rope.old.text range) rope.old.text text.now }
{
    let change = Change {
        range: Some(range),
        text,
    };
    if rope.is_null() {
        let mut whole = Rope::new(alloc);
        whole.apply(encoding, change)?;
        return store(alloc, rope, whole);
    }
    rope.as_mut().apply(encoding, change)
}

/// Replaces a range by a text, as a client of a language server tells it, if each of its positions names a place.
///
/// The status is `not_utf8` where the bytes are not UTF-8, or else `not_ordered` where the range's end is before its
/// start, or else `not_boundary` where a position names no place, or else `too_long` where the text would have more than
/// `isize::MAX` bytes, and else `no_memory` where memory was refused.
#[unsafe(no_mangle)]
pub extern "C" fn rope_change_exact(
    alloc: Global,
    rope: &mut Slot,
    encoding: u32,
    range: Range,
    text: &[u8],
) -> u32
    ensures done { result ≡ done → IfSome (exact_part_at (encoding_at encoding) rope.old.text (Some range))
        (λ part. IsReplaced rope.old.text rope.new.text part.start part.end (chars text.now)) }
    ensures refused { result ≢ done → rope.new.text ≡ rope.old.text }
    ensures not_utf8 { (result ≡ not_utf8) ↔ (¬ (IsUtf8 text.now)) }
    ensures refusals { result ≢ not_utf8 → IsUtf8 text.now
        × IsChangeRefused (IsStatus result) (byte_range_at Crlf (encoding_at encoding) rope.old.text range)
        (exact_part_at (encoding_at encoding) rope.old.text (Some range)) rope.old.text text.now }
    ensures known { result ≤ not_utf8 }
{
    match from_utf8(text) {
        Some(text) => status_at(apply_exact_change(
            alloc,
            rope,
            encoding_at(encoding),
            range,
            text,
        )),
        None => NOT_UTF8,
    }
}

fn apply_exact_change(
    alloc: Global,
    rope: &mut Slot,
    encoding: Encoding,
    range: Range,
    text: &str,
) -> Result<(), Refusal>
    ensures ok { OnOk result (IfSome (exact_part_at encoding rope.old.text (Some range)) (λ part.
        IsReplaced rope.old.text rope.new.text part.start part.end (chars text.now))) }
    ensures err { OnErr result (rope.new.text ≡ rope.old.text) }
    ensures refusals { IsChangeRefused (IsErrOf result) (byte_range_at Crlf encoding rope.old.text range)
        (exact_part_at encoding rope.old.text (Some range)) rope.old.text text.now }
{
    let change = Change {
        range: Some(range),
        text,
    };
    if rope.is_null() {
        let mut whole = Rope::new(alloc);
        whole.apply_exact(encoding, change)?;
        return store(alloc, rope, whole);
    }
    rope.as_mut().apply_exact(encoding, change)
}
