//! Finds which kinds of bytes a text lacks: without some of them, two of its counts are equal.
ghost use Rattle.std.specs.Prelude.{◌≡◌, ◌↔◌, ◌⊎◌, IsTrue};
ghost use Rattle.str_indices.specs.Kinds.{AreKinds, HasNoWideLead, HasNoWidePair, IsWidePair};

/// VT, after which come FF and CR.
const VT: u8 = 0x0B;

/// The first byte of U+0085, and of each other char from U+0080 to U+00BF.
const NEXT_LINE_LEAD: u8 = 0xC2;

/// The first byte of U+2028 and U+2029, and of each other char from U+2000 to U+2FFF.
const SEPARATOR_LEAD: u8 = 0xE2;

/// How many bytes `no_wide_lead` goes over before it asks whether it found one.
const BLOCK: usize = 256;

/// From this length in bytes on, looking for two bytes side by side takes less time than counting all line breaks.
const FEW: usize = 9;

/// From the length of a chunk on, counting takes less time again, since it goes by chunks.
const CHUNK: usize = 16;

/// From this length on, looking for two bytes takes less time again.
const MANY: usize = 65;

/// Which kinds of bytes a text lacks.
#[derive(Clone, Copy)]
pub(crate) struct Kinds {
    /// Whether each byte is ASCII.
    pub(crate) is_ascii: bool,
    /// Whether none begins a char of four bytes, which takes two UTF-16 code units.
    pub(crate) no_pair: bool,
    /// Whether none is VT or FF.
    pub(crate) no_vt_ff: bool,
    /// Whether none is VT, FF or CR.
    pub(crate) no_return: bool,
    /// Whether the greatest byte begins U+0085, U+2028 or U+2029, or another char with the same first byte.
    pub(crate) has_wide_lead: bool,
}

/// Finds which kinds of bytes a text lacks.
pub(crate) fn kinds_of(bytes: &[u8]) -> Kinds
    ensures { AreKinds result bytes.now }
{
    let mut greatest: u8 = 0;
    let mut least_from_vt: u8 = u8::MAX;
    for &byte in bytes {
        greatest = greatest.max(byte);
        least_from_vt = least_from_vt.min(byte.wrapping_sub(VT));
    }
    Kinds {
        is_ascii: greatest < 0x80,
        no_pair: greatest < 0xF0,
        no_vt_ff: least_from_vt > 1,
        no_return: least_from_vt > 2,
        has_wide_lead: is_wide_lead(greatest),
    }
}

/// Whether U+0085, U+2028 and U+2029 are found to be absent. It is `false` too where finding out takes more time than
/// counting them.
pub(crate) fn no_wide_break(bytes: &[u8], kinds: Kinds) -> bool
    requires { AreKinds kinds bytes.now }
    ensures absent { IsTrue result → HasNoWideLead bytes.now ⊎ HasNoWidePair bytes.now }
    ensures told { HasNoWideLead bytes.now → IsTrue result }
{
    if !kinds.has_wide_lead && no_wide_lead(bytes) {
        return true;
    }
    let seeks_pairs = match bytes.len() {
        FEW..CHUNK => true,
        len => MANY <= len,
    };
    seeks_pairs && no_wide_pair(bytes)
}

/// Whether a byte begins U+0085, U+2028 or U+2029, or another char with the same first byte.
#[inline(always)]
fn is_wide_lead(byte: u8) -> bool
    ensures { IsTrue result ↔ ((byte ≡ 0xC2) ⊎ (byte ≡ 0xE2)) }
{
    byte == NEXT_LINE_LEAD || byte == SEPARATOR_LEAD
}

/// Whether no byte begins U+0085, U+2028 or U+2029, nor another char with the same first byte.
fn no_wide_lead(bytes: &[u8]) -> bool
    ensures { IsTrue result ↔ HasNoWideLead bytes.now }
{
    if bytes.len() <= BLOCK {
        return no_lead_in(bytes);
    }
    for block in bytes.chunks(BLOCK) {
        if !no_lead_in(block) {
            return false;
        }
    }
    true
}

/// Whether no byte of `block` passes `is_wide_lead`. It always goes over the whole block.
fn no_lead_in(block: &[u8]) -> bool
    ensures { IsTrue result ↔ HasNoWideLead block.now }
{
    let mut any = false;
    for &byte in block {
        any |= is_wide_lead(byte);
    }
    !any
}

/// Whether no two bytes are those of U+0085, or the last two of U+2028 or U+2029.
fn no_wide_pair(bytes: &[u8]) -> bool
    ensures { IsTrue result ↔ HasNoWidePair bytes.now }
{
    let mut any = false;
    for i in 1..bytes.len() {
        any |= is_wide_pair(bytes[i - 1], bytes[i]);
    }
    !any
}

/// Whether two bytes are those of U+0085, or the last two of U+2028 or U+2029.
#[inline(always)]
fn is_wide_pair(byte: u8, next: u8) -> bool
    ensures { IsTrue result ↔ IsWidePair byte next }
{
    (byte == NEXT_LINE_LEAD && next == 0x85) || (byte == 0x80 && (next == 0xA8 || next == 0xA9))
}
