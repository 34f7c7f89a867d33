//! Index by lines that end in any line break.
//!
//! A line break is LF (U+000A), VT (U+000B), FF (U+000C), CR (U+000D), CR LF as one, U+0085, U+2028 or U+2029: the
//! characters of the Unicode Standard's Annex 14 that the Rust crate `str_indices` lists.
ghost use Rattle.std.specs.Prelude.{◌≡◌, ◌+◌, ◌-◌, ◌*◌, ◌/◌, ◌<◌, ◌≤◌, ◌==◌, ◌&&◌, ◌⊎◌, ℕ, IsCharBoundary, chars, length, map, min, slice_index, take, drop};
ghost use Rattle.std.proofs.Common.{lit≤, lit<};
ghost use Rattle.std.specs.Simd.Lanes.{Each1};
ghost use Rattle.str_indices.specs.Prelude.{is_between, is_byte, cut, size, count, from_byte_idx, to_byte_idx, Lines, IsBoundary, flag, is_carriage_return, is_middle, break_at-le, is_crlf, is_separator, narrow_break_at, next_line_at, separator_at, break_at, breaks_counted_before, ends_separator, HasLanes, IsChunk, Reads, IsCountingPass, IsFindingPass};

use crate::passes::{count_up_to, find_first};
use crate::place_counts::{Counted, PlaceCounts};
use crate::places::{boundary_at_or_after, boundary_at_or_before, is_not_crlf_middle};
use crate::weights::{CR, LF};
use byte_chunk::{ByteChunk, Chunk, Probe};

/// Counts the line breaks of the text.
///
/// That is one less than its lines: after a break at the end of the text an empty line begins.
#[tactic(auto, using(crate::proofs::lemmas::Bytes::whole_text))]
pub fn count_breaks(text: &str) -> usize
    ensures { result ≡ count Lines (chars text.now) }
{
    count_breaks_impl(&mut Probe::<Chunk>::of(text), text.len(), 0)
}

/// Converts a byte index to a line index: the number of line breaks that end at or before the byte.
///
/// A break belongs to the line that it ends, and so does each byte inside it: a byte between CR and LF is on the line
/// that the CR LF ends. A byte past the end gives the index of the last line.
pub fn from_byte_idx(text: &str, byte_idx: usize) -> usize
    ensures { result ≡ from_byte_idx Lines (chars text.now) byte_idx }
{
    from_byte_idx_impl(&mut Probe::<Chunk>::of(text), byte_idx, 0)
}

/// Converts a line index to the byte index where that line begins: 0, or right after a line break.
///
/// An index past the last line gives the length of the text in bytes. The text may be sliced at the answer.
pub fn to_byte_idx(text: &str, line_idx: usize) -> usize
    ensures answer { result ≡ to_byte_idx Lines (chars text.now) line_idx }
    ensures boundary { IsCharBoundary text.now result }
{
    to_byte_idx_impl(&mut Probe::<Chunk>::of(text), line_idx, 0)
}

/// Counts the line breaks of the text before `end`, over chunks of any type, after `lead` bytes that are walked one by
/// one.
pub fn count_breaks_impl<T: ByteChunk>(probe: &mut Probe<'_, T>, end: usize, lead: usize) -> usize
    requires within { end ≤ length probe.old.text }
    requires boundary { IsBoundary (chars probe.old.text) end }
    ensures count { result ≡ count Lines (cut (chars probe.old.text) end) }
    ensures text { probe.new.text ≡ probe.old.text }
    ensures pass { IsCountingPass probe.old probe.new T.SIZE lead end 0 }
{
    prove!(end <= probe.len());
    count_up_to::<LineBreaks, T>(probe, end, lead)
}

/// Converts a byte index to a line index, over chunks of any type, after `lead` bytes that are walked one by one.
#[tactic(auto, using(crate::proofs::lemmas::Schemes::lines_up_to))]
pub fn from_byte_idx_impl<T: ByteChunk>(
    probe: &mut Probe<'_, T>,
    byte_idx: usize,
    lead: usize,
) -> usize
    ensures answer { result ≡ from_byte_idx Lines (chars probe.old.text) byte_idx }
    ensures text { probe.new.text ≡ probe.old.text }
    ensures pass { IsCountingPass probe.old probe.new T.SIZE lead (min byte_idx (length probe.old.text)) 3 }
{
    let end = boundary_at_or_before(probe, byte_idx);
    prove!(end <= probe.len());
    // Where the boundary is before the byte, a char of several bytes begins there, so no peek is needed.
    let is_outside_crlf = end < byte_idx || is_not_crlf_middle(probe, end);
    let breaks = count_breaks_impl(probe, end, lead);
    if is_outside_crlf { breaks } else { breaks - 1 }
}

/// Converts a line index to a byte index, over chunks of any type, after `lead` bytes that are walked one by one.
pub fn to_byte_idx_impl<T: ByteChunk>(probe: &mut Probe<'_, T>, idx: usize, lead: usize) -> usize
    ensures answer { result ≡ to_byte_idx Lines (chars probe.old.text) idx }
    ensures boundary { IsCharBoundary probe.old.text result }
    ensures text { probe.new.text ≡ probe.old.text }
    ensures pass { IsFindingPass probe.old probe.new T.SIZE lead (length probe.old.text) result 3 }
{
    let first_chunk = lead.min(probe.len());
    let place = find_first::<LineBreaks, T>(probe, idx, first_chunk);
    boundary_at_or_after(probe, place)
}

/// Whether a break of several bytes is counted at `byte`, which stands at `at`. It peeks at the bytes after it only if
/// `byte` may begin such a break.
fn is_wide_break<T: ByteChunk>(probe: &mut Probe<'_, T>, byte: u8, at: usize, end: usize) -> bool
    requires seen { (at < end) × (end ≤ length probe.old.text) }
    requires byte { byte ≡ slice_index (take end probe.old.text) at }
    ensures answer { let bytes = take end probe.old.text in
        flag result ≡ next_line_at bytes at + separator_at bytes at }
    ensures reads { Reads probe.old probe.new 0 0 0 2 }
    ensures reads_nothing { byte < 0xC2 → Reads probe.old probe.new 0 0 0 0 }
{
    match byte {
        0xC2 => peek_ahead(probe, at, 1, end) == 0x85,
        0xE2 => {
            let next = peek_ahead(probe, at, 1, end);
            is_separator(0xE2, next, peek_ahead(probe, at, 2, end))
        }
        _ => false,
    }
}

/// Peeks at the byte at `at + ahead`, or returns 0 if that is not before `end`.
fn peek_ahead<T: ByteChunk>(probe: &mut Probe<'_, T>, at: usize, ahead: usize, end: usize) -> u8
    requires seen { (at ≤ end) × (end ≤ length probe.old.text) }
    ensures byte { result ≡ slice_index (take end probe.old.text) (ahead + at) }
    ensures reads { Reads probe.old probe.new 0 0 0 1 }
{
    if ahead < end - at {
        probe.peek(at + ahead)
    } else {
        0
    }
}

/// Whether the three bytes are those of U+2028 or U+2029.
fn is_separator(byte: u8, next: u8, after: u8) -> bool
    ensures { result ≡ is_separator byte next after }
{
    byte == 0xE2 && next == 0x80 && (after == 0xA8 || after == 0xA9)
}

/// 1 at each line break: at the LF of a CR LF, and at the first byte of each other break.
struct LineBreaks;

impl<T: ByteChunk> PlaceCounts<T> for LineBreaks {
    type Carry = ();

    ghost MOST = { 1 };

    ghost GROUP = { 1 };

    ghost STEP = { 2 };

    ghost LAST_STEP = { 2 };

    ghost counted_at = { λ end text. break_at (take end text) };

    ghost carries = { λ _ _ _. Unit {0} };

    const MOST: usize = 1;

    const GROUP: usize = 1;

    const STEP: usize = 2;

    const LAST_STEP: usize = 2;

    const IS_DENSE: bool = false;

    fn count_byte(probe: &mut Probe<'_, T>, _before: u8, byte: u8, at: usize, end: usize) -> usize {
        usize::from(match byte {
            LF | 0x0B | 0x0C => true,
            CR => peek_ahead(probe, at, 1, end) != LF,
            _ => is_wide_break(probe, byte, at, end),
        })
    }

    fn carry_at(_probe: &mut Probe<'_, T>, _at: usize) {}

    #[inline(always)]
    fn count_lanes(
        probe: &mut Probe<'_, T>,
        chunk: T,
        at: usize,
        end: usize,
        _carry: (),
    ) -> Counted<T, ()> {
        Counted {
            lanes: count_breaks_in_chunk(probe, chunk, at, end),
            carry: (),
        }
    }

    ghost bounded = { (lit< tt, lit≤ tt, λ end text. break_at-le (take end text)) };

    ghost grouped = { (lit< tt, lit≤ tt, lit< tt, lit< tt) };
}

/// Returns 1 in each lane of the chunk at `at` in which a break is counted.
///
/// It peeks only if some lane is CR, C2 or E2: at the last two bytes of the chunk and the two after it.
#[inline(always)]
fn count_breaks_in_chunk<T: ByteChunk>(
    probe: &mut Probe<'_, T>,
    chunk: T,
    at: usize,
    end: usize,
) -> T
    requires seen { (at + T.SIZE ≤ end) × (end ≤ length probe.old.text) }
    requires chunk { T.lanes chunk ≡ take T.SIZE (drop at probe.old.text) }
    ensures lanes { HasLanes T.SIZE (λ j. break_at (take end probe.old.text) (at + j)) (T.lanes result) }
    ensures reads { Reads probe.old probe.new 0 0 0 4 }
{
    let narrow_breaks = count_narrow_breaks(probe, chunk, at, end);
    add_wide_breaks(probe, chunk, narrow_breaks, at, end)
}

/// Returns 1 in each lane of the chunk at `at` that is a break of one byte or the LF of CR LF.
///
/// It peeks at the last byte only if some lane is CR, and at the byte after it only if the last one is CR.
#[inline(always)]
#[tactic(auto, using(crate::proofs::lemmas::Lanes::last_is_counted))]
fn count_narrow_breaks<T: ByteChunk>(probe: &mut Probe<'_, T>, chunk: T, at: usize, end: usize) -> T
    requires seen { (at + T.SIZE ≤ end) × (end ≤ length probe.old.text) }
    requires chunk { IsChunk (take end probe.old.text) at T.SIZE (T.lanes chunk) }
    ensures lanes { HasLanes T.SIZE (λ j. narrow_break_at (take end probe.old.text) (at + j)) (T.lanes result) }
    ensures reads { let last = slice_index probe.old.text (at + (T.SIZE - 1)) in
        Reads probe.old probe.new 0 0 0 (1 + flag (is_carriage_return last)) }
{
    let ascii_breaks = chunk.bytes_between_127(0x09, 0x0E);
    if chunk.cmp_eq_byte(CR).is_zero() {
        return ascii_breaks;
    }
    let inside = ascii_breaks.sub(pair_starts(chunk, CR, LF));
    if starts_crlf(probe, at + (T::SIZE - 1), end) {
        inside.dec_last_lex_byte()
    } else {
        inside
    }
}

/// Whether CR LF starts at byte `at`. If that byte is CR, it peeks at the next one too.
fn starts_crlf<T: ByteChunk>(probe: &mut Probe<'_, T>, at: usize, end: usize) -> bool
    requires seen { (at < end) × (end ≤ length probe.old.text) }
    ensures answer { let byte = slice_index (take end probe.old.text) in result ≡ is_crlf (byte at) (byte (1 + at)) }
    ensures reads { Reads probe.old probe.new 0 0 0 (1 + flag (is_carriage_return (slice_index probe.old.text at))) }
{
    probe.peek(at) == CR && peek_ahead(probe, at, 1, end) == LF
}

/// Adds the breaks of several bytes, each at its first byte, to the others of the chunk at `at`.
///
/// It peeks only if a lane is C2 or E2, which differ in one bit: at most three times, and at most once if the last byte
/// is CR.
#[inline(always)]
fn add_wide_breaks<T: ByteChunk>(
    probe: &mut Probe<'_, T>,
    chunk: T,
    narrow_breaks: T,
    at: usize,
    end: usize,
) -> T
    requires seen { (at + T.SIZE ≤ end) × (end ≤ length probe.old.text) }
    requires chunk { IsChunk (take end probe.old.text) at T.SIZE (T.lanes chunk) }
    requires counted { let bytes = take end probe.old.text in
        HasLanes T.SIZE (λ j. narrow_break_at bytes (at + j)) (T.lanes narrow_breaks) }
    ensures lanes { HasLanes T.SIZE (λ j. break_at (take end probe.old.text) (at + j)) (T.lanes result) }
    ensures reads { let last = slice_index probe.old.text (at + (T.SIZE - 1)) in
        Reads probe.old probe.new 0 0 0 (3 - 2 * flag (is_carriage_return last)) }
{
    let firsts = chunk.bitand(T::splat(0xDF)).cmp_eq_byte(0xC2);
    if firsts.is_zero() {
        return narrow_breaks;
    }
    let separators = chunk.cmp_eq_byte(0xE2);
    let with_next_lines = narrow_breaks.add(pair_starts(chunk, 0xC2, 0x85));
    let inside = add_separators(chunk, separators, with_next_lines);
    add_at_edge(probe, inside, at, end)
}

/// Returns 1 in each lane that is `first` where the next lane is `second`.
fn pair_starts<T: ByteChunk>(chunk: T, first: u8, second: u8) -> T
    requires long { length (T.lanes chunk) ≡ T.SIZE }
    requires some { 0 < second }
    ensures { let byte = slice_index (T.lanes chunk) in
        HasLanes T.SIZE (λ j. flag (byte j == first && byte (1 + j) == second)) (T.lanes result) }
{
    let before = chunk.cmp_eq_byte(second).shift_back_lex(1);
    chunk.cmp_eq_byte(first).bitand(before)
}

/// Adds to `breaks` each U+2028 and U+2029 that is whole in the chunk. `firsts` says which lanes are E2.
///
/// The bytes A8 and A9, which end them, differ only in their lowest bit.
fn add_separators<T: ByteChunk>(chunk: T, firsts: T, breaks: T) -> T
    requires long { length (T.lanes chunk) ≡ T.SIZE }
    requires first { T.lanes firsts ≡ map (is_byte 0xE2) (T.lanes chunk) }
    requires as_long { length (T.lanes breaks) ≡ T.SIZE }
    requires room { Each1 (λ lane. lane < 255) (T.lanes breaks) }
    ensures { HasLanes T.SIZE (λ j. slice_index (T.lanes breaks) j + separator_at (T.lanes chunk) j) (T.lanes result) }
{
    if firsts.is_zero() {
        return breaks;
    }
    let thirds = chunk.shr(1).bitand(T::splat(0x7F)).cmp_eq_byte(0x54);
    let found = pair_starts(chunk, 0xE2, 0x80).bitand(thirds.shift_back_lex(2));
    breaks.add(found)
}

/// Adds the break of several bytes that crosses the end of the chunk at `at`, if there is one.
///
/// `breaks` has all other breaks of the chunk. The last byte decides whether it peeks at more: at the two bytes after
/// it, or at the one before it and the one after it.
fn add_at_edge<T: ByteChunk>(probe: &mut Probe<'_, T>, breaks: T, at: usize, end: usize) -> T
    requires seen { (at + T.SIZE ≤ end) × (end ≤ length probe.old.text) }
    requires counted { let bytes = take end probe.old.text in let inside = take (at + T.SIZE) bytes in
        HasLanes T.SIZE (λ j. narrow_break_at bytes (at + j) + next_line_at inside (at + j)
        + separator_at inside (at + j)) (T.lanes breaks) }
    ensures lanes { HasLanes T.SIZE (λ j. break_at (take end probe.old.text) (at + j)) (T.lanes result) }
    ensures reads { let last = slice_index probe.old.text (at + (T.SIZE - 1)) in
        Reads probe.old probe.new 0 0 0 (3 - 2 * flag (is_carriage_return last)) }
{
    let last = at + (T::SIZE - 1);
    let byte = probe.peek(last);
    if byte == 0x80 {
        let last_but_one = probe.peek(last - 1);
        if is_separator(last_but_one, 0x80, peek_ahead(probe, last, 1, end)) {
            return breaks.inc_nth_from_end_lex_byte(1);
        }
    } else if is_wide_break(probe, byte, last, end) {
        return breaks.inc_nth_from_end_lex_byte(0);
    }
    breaks
}
