//! The functions of `str_indices` for C, as a static library: one export for each of them; and, in the module
//! `text_positions`, positions and the ends of lines.
//!
//! C hands a text over as the address of its first byte and the number of its bytes.
//! `bindings/c/include/str_indices.h`, at the top of the repository, says what a caller owes. It declares the exports
//! without the word `narrow`: by that name each function is in `bindings/c/choose_half.c`, which hands a call on to the
//! one here, or to one of the wide half. `bindings/c/build_library` makes that half from this crate, by [`Lanes`] of twice as
//! many bytes, and proves it.
#![tactic(auto)]

ghost use Rattle.std.specs.Prelude.{◌≡◌, ◌↔◌, IsCharBoundary, IsTrue, IsUtf8, chars};
ghost use Rattle.std.specs.Str.Lossy.{utf8_valid_len};
ghost use Rattle.str_indices.specs.Schemes.{count, from_byte_idx, surrogates, to_byte_idx};
ghost use Rattle.str_indices.specs.declared.Scheme.TheVariants.{Chars, Crlf, Lf, Lines, Utf16};

mod text_positions;

use byte_chunk::{ByteChunk, ByteProbe, Probe};
use c_values::utf8_of;
use str_indices::{chars, is_utf8, lines, lines_crlf, lines_lf, utf8, utf16};

/// The vector by which a text is read.
pub(crate) type Lanes = std::simd::Simd<u8, 16>;

/// Whether the bytes are UTF-8, which all exports but this one and the next want of their text.
#[unsafe(no_mangle)]
pub extern "C" fn str_indices_narrow_is_utf8(text: &[u8]) -> bool
    ensures { IsTrue result ↔ IsUtf8 text.now }
{
    if text.len() < Lanes::SIZE {
        return is_utf8(text);
    }
    utf8::is_utf8_impl(&mut ByteProbe::<Lanes>::of(text), 0)
}

/// How many bytes there are before the first char that is wrong or that ends too soon.
#[unsafe(no_mangle)]
pub extern "C" fn str_indices_narrow_valid_up_to(text: &[u8]) -> usize
    ensures { result ≡ utf8_valid_len text.now }
{
    utf8::valid_up_to_impl(&mut ByteProbe::<Lanes>::of(text), 0)
}

/// How many chars the text has.
#[unsafe(no_mangle)]
#[tactic(auto, using(str_indices::proofs::lemmas::Callers::whole_text))]
pub extern "C" fn str_indices_narrow_chars_count(text: &[u8]) -> usize
    requires { IsUtf8 text.now }
    ensures { result ≡ count Chars (chars text.now) }
{
    chars::count_impl(&mut probe_of(text), text.len(), 0)
}

/// The char that a byte belongs to; past the end, the number of chars.
#[unsafe(no_mangle)]
pub extern "C" fn str_indices_narrow_chars_from_byte_idx(text: &[u8], byte_idx: usize) -> usize
    requires { IsUtf8 text.now }
    ensures { result ≡ from_byte_idx Chars (chars text.now) byte_idx }
{
    chars::from_byte_idx_impl(&mut probe_of(text), byte_idx, 0)
}

/// The byte where a char begins; past the last one, the length of the text.
#[unsafe(no_mangle)]
pub extern "C" fn str_indices_narrow_chars_to_byte_idx(text: &[u8], char_idx: usize) -> usize
    requires { IsUtf8 text.now }
    ensures answer { result ≡ to_byte_idx Chars (chars text.now) char_idx }
    ensures boundary { IsCharBoundary text.now result }
{
    chars::to_byte_idx_impl(&mut probe_of(text), char_idx, 0)
}

/// How many UTF-16 code units the text would take.
#[unsafe(no_mangle)]
#[tactic(auto, using(str_indices::proofs::lemmas::Callers::whole_text))]
pub extern "C" fn str_indices_narrow_utf16_count(text: &[u8]) -> usize
    requires { IsUtf8 text.now }
    ensures { result ≡ count Utf16 (chars text.now) }
{
    utf16::count_impl(&mut probe_of(text), text.len(), 0)
}

/// How many surrogate pairs the text would have in UTF-16.
#[unsafe(no_mangle)]
#[tactic(auto, using(str_indices::proofs::lemmas::Callers::whole_text))]
pub extern "C" fn str_indices_narrow_utf16_count_surrogates(text: &[u8]) -> usize
    requires { IsUtf8 text.now }
    ensures { result ≡ surrogates (chars text.now) }
{
    utf16::count_surrogates_impl(&mut probe_of(text), text.len(), 0)
}

/// The UTF-16 index of the char that a byte belongs to; past the end, the number of code units.
#[unsafe(no_mangle)]
pub extern "C" fn str_indices_narrow_utf16_from_byte_idx(text: &[u8], byte_idx: usize) -> usize
    requires { IsUtf8 text.now }
    ensures { result ≡ from_byte_idx Utf16 (chars text.now) byte_idx }
{
    utf16::from_byte_idx_impl(&mut probe_of(text), byte_idx, 0)
}

/// The byte where the char of a UTF-16 code unit begins; past the last one, the length of the text.
#[unsafe(no_mangle)]
pub extern "C" fn str_indices_narrow_utf16_to_byte_idx(text: &[u8], utf16_idx: usize) -> usize
    requires { IsUtf8 text.now }
    ensures answer { result ≡ to_byte_idx Utf16 (chars text.now) utf16_idx }
    ensures boundary { IsCharBoundary text.now result }
{
    utf16::to_byte_idx_impl(&mut probe_of(text), utf16_idx, 0)
}

/// How many line feeds the text has.
#[unsafe(no_mangle)]
#[tactic(auto, using(str_indices::proofs::lemmas::Callers::whole_text))]
pub extern "C" fn str_indices_narrow_lines_lf_count_breaks(text: &[u8]) -> usize
    requires { IsUtf8 text.now }
    ensures { result ≡ count Lf (chars text.now) }
{
    lines_lf::count_breaks_impl(&mut probe_of(text), text.len(), 0)
}

/// The line that a byte is on; past the end, the last line.
#[unsafe(no_mangle)]
pub extern "C" fn str_indices_narrow_lines_lf_from_byte_idx(text: &[u8], byte_idx: usize) -> usize
    requires { IsUtf8 text.now }
    ensures { result ≡ from_byte_idx Lf (chars text.now) byte_idx }
{
    lines_lf::from_byte_idx_impl(&mut probe_of(text), byte_idx, 0)
}

/// The byte where a line begins; past the last one, the length of the text.
#[unsafe(no_mangle)]
pub extern "C" fn str_indices_narrow_lines_lf_to_byte_idx(text: &[u8], line_idx: usize) -> usize
    requires { IsUtf8 text.now }
    ensures answer { result ≡ to_byte_idx Lf (chars text.now) line_idx }
    ensures boundary { IsCharBoundary text.now result }
{
    lines_lf::to_byte_idx_impl(&mut probe_of(text), line_idx, 0)
}

/// How many line breaks the text has: LF, CR and CR LF, which is one break.
#[unsafe(no_mangle)]
#[tactic(auto, using(str_indices::proofs::lemmas::Callers::whole_text))]
pub extern "C" fn str_indices_narrow_lines_crlf_count_breaks(text: &[u8]) -> usize
    requires { IsUtf8 text.now }
    ensures { result ≡ count Crlf (chars text.now) }
{
    lines_crlf::count_breaks_impl(&mut probe_of(text), text.len(), 0)
}

/// The line that a byte is on; past the end, the last line.
#[unsafe(no_mangle)]
pub extern "C" fn str_indices_narrow_lines_crlf_from_byte_idx(text: &[u8], byte_idx: usize) -> usize
    requires { IsUtf8 text.now }
    ensures { result ≡ from_byte_idx Crlf (chars text.now) byte_idx }
{
    lines_crlf::from_byte_idx_impl(&mut probe_of(text), byte_idx, 0)
}

/// The byte where a line begins; past the last one, the length of the text.
#[unsafe(no_mangle)]
pub extern "C" fn str_indices_narrow_lines_crlf_to_byte_idx(text: &[u8], line_idx: usize) -> usize
    requires { IsUtf8 text.now }
    ensures answer { result ≡ to_byte_idx Crlf (chars text.now) line_idx }
    ensures boundary { IsCharBoundary text.now result }
{
    lines_crlf::to_byte_idx_impl(&mut probe_of(text), line_idx, 0)
}

/// How many line breaks the text has, of all those of Unicode.
#[unsafe(no_mangle)]
#[tactic(auto, using(str_indices::proofs::lemmas::Callers::whole_text))]
pub extern "C" fn str_indices_narrow_lines_count_breaks(text: &[u8]) -> usize
    requires { IsUtf8 text.now }
    ensures { result ≡ count Lines (chars text.now) }
{
    lines::count_breaks_impl(&mut probe_of(text), text.len(), 0)
}

/// The line that a byte is on; past the end, the last line.
#[unsafe(no_mangle)]
pub extern "C" fn str_indices_narrow_lines_from_byte_idx(text: &[u8], byte_idx: usize) -> usize
    requires { IsUtf8 text.now }
    ensures { result ≡ from_byte_idx Lines (chars text.now) byte_idx }
{
    lines::from_byte_idx_impl(&mut probe_of(text), byte_idx, 0)
}

/// The byte where a line begins; past the last one, the length of the text.
#[unsafe(no_mangle)]
pub extern "C" fn str_indices_narrow_lines_to_byte_idx(text: &[u8], line_idx: usize) -> usize
    requires { IsUtf8 text.now }
    ensures answer { result ≡ to_byte_idx Lines (chars text.now) line_idx }
    ensures boundary { IsCharBoundary text.now result }
{
    lines::to_byte_idx_impl(&mut probe_of(text), line_idx, 0)
}

fn probe_of(bytes: &[u8]) -> Probe<'_, Lanes>
    requires { IsUtf8 bytes.now }
    ensures { result.text ≡ bytes.now }
{
    Probe::of(utf8_of(bytes))
}
