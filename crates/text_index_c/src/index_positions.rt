// Lines, and positions of a language server, in a text, by its index.
ghost use Rattle.std.specs.Prelude.{◌≡◌, ◌^◌, ◌-◌, IfNone, IfSome, unwrap_or};
ghost use Rattle.str_indices.specs.Relations.{IsBoundary};
ghost use Rattle.str_indices.specs.Schemes.{to_byte_idx};
ghost use Rattle.positions.specs.Lines.{IsPlace, line_end, scheme_of};
ghost use Rattle.positions.specs.Positions.{byte_at, byte_range_at, exact_byte_at, position_at};
ghost use Rattle.c_values.specs.Numbers.{encoding_at, line_type_at};
ghost use Rattle.text_index_c.specs.Handles.{IsIndex, text_of};

use crate::handle::{IndexHandle, view_of};
use c_values::{Bytes, byte_or_none, bytes_or_none, encoding_at, line_type_at, position_or_none};
use positions::{
    Position, Range, byte_of, byte_range, exact_byte_of, exact_position_of, line, line_end,
    position_of, range_of,
};
use std::ops;

/// The byte index where the content of a line ends, before its break.
#[unsafe(no_mangle)]
pub extern "C" fn str_index_line_end(handle: &IndexHandle<'_>, lines: u32, line_idx: usize) -> usize
    requires { IsIndex handle.now }
    ensures answer { result ≡ line_end (line_type_at lines) (text_of handle.now) line_idx }
    ensures boundary { IsBoundary (text_of handle.now) result }
{
    line_end(&mut view_of(handle), line_type_at(lines), line_idx)
}

/// The bytes of a line's content: without its break, and none at the text's end for a line past the last one.
#[unsafe(no_mangle)]
pub extern "C" fn str_index_line(handle: &IndexHandle<'_>, lines: u32, line_idx: usize) -> Bytes
    requires { IsIndex handle.now }
    ensures start { result.start ≡ to_byte_idx (scheme_of (line_type_at lines)) (text_of handle.now) line_idx }
    ensures end { result.end ≡ line_end (line_type_at lines) (text_of handle.now) line_idx }
{
    let ops::Range { start, end } = line(&mut view_of(handle), line_type_at(lines), line_idx);
    Bytes { start, end }
}

/// The position of a byte: its line, and the units of the encoding on that line before it.
#[unsafe(no_mangle)]
pub extern "C" fn str_index_position_of(
    handle: &IndexHandle<'_>,
    lines: u32,
    encoding: u32,
    byte_idx: usize,
) -> Position
    requires { IsIndex handle.now }
    ensures { result ≡ position_at (line_type_at lines) (encoding_at encoding) (text_of handle.now) byte_idx }
{
    position_of(
        &mut view_of(handle),
        line_type_at(lines),
        encoding_at(encoding),
        byte_idx,
    )
}

/// The position of a byte that is a place on a line; `usize::MAX` twice where it is none.
#[unsafe(no_mangle)]
pub extern "C" fn str_index_exact_position_of(
    handle: &IndexHandle<'_>,
    lines: u32,
    encoding: u32,
    byte_idx: usize,
) -> Position
    requires { IsIndex handle.now }
    ensures some { IsPlace (line_type_at lines) (text_of handle.now) byte_idx
        → result ≡ position_at (line_type_at lines) (encoding_at encoding) (text_of handle.now) byte_idx }
    ensures none { ¬ (IsPlace (line_type_at lines) (text_of handle.now) byte_idx)
        → result ≡ record { line = 2 ^ 64 - 1; character = 2 ^ 64 - 1 } }
{
    let position = exact_position_of(
        &mut view_of(handle),
        line_type_at(lines),
        encoding_at(encoding),
        byte_idx,
    );
    position_or_none(position)
}

/// The positions of both ends of a span of bytes.
#[unsafe(no_mangle)]
pub extern "C" fn str_index_range_of(
    handle: &IndexHandle<'_>,
    lines: u32,
    encoding: u32,
    span: Bytes,
) -> Range
    requires { IsIndex handle.now }
    ensures start { result.start ≡ position_at (line_type_at lines) (encoding_at encoding) (text_of handle.now) span.start }
    ensures end { result.end ≡ position_at (line_type_at lines) (encoding_at encoding) (text_of handle.now) span.end }
{
    range_of(
        &mut view_of(handle),
        line_type_at(lines),
        encoding_at(encoding),
        span.start..span.end,
    )
}

/// The byte index where the char at a position begins; past the end of its line, the line's end.
#[unsafe(no_mangle)]
pub extern "C" fn str_index_byte_of(
    handle: &IndexHandle<'_>,
    lines: u32,
    encoding: u32,
    position: Position,
) -> usize
    requires { IsIndex handle.now }
    ensures answer { result ≡ byte_at (line_type_at lines) (encoding_at encoding) (text_of handle.now) position }
    ensures boundary { IsBoundary (text_of handle.now) result }
{
    byte_of(
        &mut view_of(handle),
        line_type_at(lines),
        encoding_at(encoding),
        position,
    )
}

/// The byte index of a position that names a place; `usize::MAX` where it names none.
#[unsafe(no_mangle)]
pub extern "C" fn str_index_exact_byte_of(
    handle: &IndexHandle<'_>,
    lines: u32,
    encoding: u32,
    position: Position,
) -> usize
    requires { IsIndex handle.now }
    ensures { result
        ≡ unwrap_or (exact_byte_at (line_type_at lines) (encoding_at encoding) (text_of handle.now) position) (2 ^ 64 - 1) }
{
    let byte = exact_byte_of(
        &mut view_of(handle),
        line_type_at(lines),
        encoding_at(encoding),
        position,
    );
    byte_or_none(byte)
}

/// The byte indices of a range; `usize::MAX` twice where its end is before its start.
#[unsafe(no_mangle)]
pub extern "C" fn str_index_byte_range(
    handle: &IndexHandle<'_>,
    lines: u32,
    encoding: u32,
    range: Range,
) -> Bytes
    requires { IsIndex handle.now }
    ensures some { IfSome (byte_range_at (line_type_at lines) (encoding_at encoding) (text_of handle.now) range)
        (λ bytes. result ≡ record { start = bytes.start; end = bytes.end }) }
    ensures none { IfNone (byte_range_at (line_type_at lines) (encoding_at encoding) (text_of handle.now) range)
        (result ≡ record { start = 2 ^ 64 - 1; end = 2 ^ 64 - 1 }) }
{
    let part = byte_range(
        &mut view_of(handle),
        line_type_at(lines),
        encoding_at(encoding),
        range,
    );
    bytes_or_none(part)
}
