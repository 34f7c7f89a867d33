// Questions about a text, which stays as it is.
ghost use Rattle.std.specs.Prelude.{◌≡◌, ◌↔◌, IsTrue};
ghost use Rattle.str_indices.specs.Relations.{IsBoundary};
ghost use Rattle.str_indices.specs.Schemes.{count, from_byte_idx, to_byte_idx};
ghost use Rattle.str_indices.specs.Text.{size};
ghost use Rattle.c_values.specs.Numbers.{scheme_at};

use crate::handles::ask;
use crate::slot::Slot;
use c_values::scheme_at;
use std::alloc::Global;

/// How many bytes the text has.
#[unsafe(no_mangle)]
pub extern "C" fn str_rope_len(alloc: Global, rope: &mut Slot) -> usize
    ensures answer { result ≡ size rope.old.text }
    ensures same { rope.new ≡ rope.old }
{
    ask(alloc, rope, |text| text.len())
}

/// How many chars, UTF-16 code units or line breaks the text has.
#[unsafe(no_mangle)]
pub extern "C" fn str_rope_count(alloc: Global, rope: &mut Slot, scheme: u32) -> usize
    ensures answer { result ≡ count (scheme_at scheme) rope.old.text }
    ensures same { rope.new ≡ rope.old }
{
    ask(alloc, rope, |text| text.count(scheme_at(scheme)))
}

/// How many of them the text has up to a byte index; past the end, all.
#[unsafe(no_mangle)]
pub extern "C" fn str_rope_from_byte_idx(
    alloc: Global,
    rope: &mut Slot,
    scheme: u32,
    byte_idx: usize,
) -> usize
    ensures answer { result ≡ from_byte_idx (scheme_at scheme) rope.old.text byte_idx }
    ensures same { rope.new ≡ rope.old }
{
    ask(
        alloc,
        rope,
        |text| text.from_byte_idx(scheme_at(scheme), byte_idx),
    )
}

/// The byte index after the first `idx` of them; the text's length where it has fewer.
#[unsafe(no_mangle)]
pub extern "C" fn str_rope_to_byte_idx(
    alloc: Global,
    rope: &mut Slot,
    scheme: u32,
    idx: usize,
) -> usize
    ensures answer { result ≡ to_byte_idx (scheme_at scheme) rope.old.text idx }
    ensures same { rope.new ≡ rope.old }
{
    ask(alloc, rope, |text| text.to_byte_idx(scheme_at(scheme), idx))
}

/// Whether a byte index is between chars, or at the beginning or end of the text; past the end it is not.
#[unsafe(no_mangle)]
pub extern "C" fn str_rope_is_char_boundary(alloc: Global, rope: &mut Slot, byte_idx: usize) -> bool
    ensures answer { IsTrue result ↔ IsBoundary rope.old.text byte_idx }
    ensures same { rope.new ≡ rope.old }
{
    ask(alloc, rope, |text| text.is_char_boundary(byte_idx))
}
