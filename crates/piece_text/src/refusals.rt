//! Why a call of a text in pieces did nothing.
ghost use Rattle.std.specs.Prelude.{◌≡◌};
ghost use Rattle.piece_text.specs.declared.refusals.Refusal.TheVariants.{NoMemory};

use std::alloc::AllocError;

/// Why a call changed nothing.
#[derive(Clone, Copy, PartialEq, Eq, Debug)]
pub enum Refusal {
    /// There is no such piece.
    NoPiece,
    /// The byte index is no boundary of the text: it is inside a char, or past the end.
    NotBoundary,
    /// The text would have more bytes than a text can have, `isize::MAX`.
    TooLong,
    /// Memory was refused.
    NoMemory,
}

impl From<AllocError> for Refusal {
    ghost from_gives = { λ _ refusal. refusal ≡ NoMemory };

    fn from(_error: AllocError) -> Refusal {
        Refusal::NoMemory
    }
}
