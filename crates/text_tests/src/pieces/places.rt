//! A caller of positions, proved from the public contracts.
ghost use Rattle.std.specs.Prelude.{◌≡◌};
ghost use Rattle.piece_text.specs.Pieces.{joined};
ghost use Rattle.positions.specs.Positions.{position_at};
ghost use Rattle.positions.specs.declared.encodings.Encoding.TheVariants.{Utf16};

use piece_text::{PieceParts, PieceText};
use positions::{Encoding, LineType, Position, position_of};

/// The position of a byte of a text in pieces, as a language server counts it.
pub fn place_of(text: &PieceText, byte: usize) -> Position
    ensures { result ≡ position_at LineType.Crlf Utf16 (joined text.now) byte }
{
    let parts = &mut PieceParts::of(text.view());
    position_of(parts, LineType::Crlf, Encoding::Utf16, byte)
}
