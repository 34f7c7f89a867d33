//! Why the program ends early.

use crate::library::{PieceRefusal, RopeRefusal};
use std::alloc::AllocError;
use std::io;

#[derive(Debug, Drop)]
pub(crate) enum Fault {
    Rope(RopeRefusal),
    Pieces(PieceRefusal),
    NoMemory,
    System,
    Words,
}

impl From<RopeRefusal> for Fault {
    fn from(refusal: RopeRefusal) -> Fault {
        Fault::Rope(refusal)
    }
}

impl From<PieceRefusal> for Fault {
    fn from(refusal: PieceRefusal) -> Fault {
        Fault::Pieces(refusal)
    }
}

impl From<AllocError> for Fault {
    fn from(_: AllocError) -> Fault {
        Fault::NoMemory
    }
}

impl From<io::Error> for Fault {
    fn from(_: io::Error) -> Fault {
        Fault::System
    }
}
