//! Callers, proved from the public contracts.
ghost use Rattle.std.specs.Prelude.{◌≡◌, ◌≢◌, [], ◌++◌, chars, IfOk};
ghost use Rattle.str_indices.specs.Schemes.{from_byte_idx};
ghost use Rattle.str_indices.specs.declared.Scheme.TheVariants.{Crlf};
ghost use Rattle.piece_text.specs.Pieces.{joined};

use piece_text::{PieceText, Refusal, Scheme};
use std::alloc::Global;

/// The line of byte `b` in a text whose two halves come one after the other, the second one first.
pub fn line_of(alloc: Global, first: &str, second: &str, b: usize) -> Result<usize, Refusal>
    ensures { IfOk result (λ line. line ≡ from_byte_idx Crlf (chars first.now ++ chars second.now) b) }
{
    let mut text = PieceText::new(alloc);
    text.push(second)?;
    text.insert(0, first)?;
    Ok(text.from_byte_idx(Scheme::Crlf, b))
}

/// A text after five calls: one takes out the piece that the call before it put in, and one cuts a piece somewhere.
pub fn five_calls(
    alloc: Global,
    first: &str,
    second: &str,
    third: &str,
    at: usize,
) -> Result<PieceText, Refusal>
    requires { chars third.now ≢ [] }
    ensures { IfOk result (λ text. joined text ≡ chars first.now ++ chars second.now) }
{
    let mut text = PieceText::new(alloc);
    text.push(second)?;
    text.insert(0, third)?;
    text.remove(0)?;
    text.insert(0, first)?;
    text.split(at)?;
    Ok(text)
}
