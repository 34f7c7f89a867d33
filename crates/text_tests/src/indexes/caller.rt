//! A caller, proved from the public contracts.
ghost use Rattle.std.specs.Prelude.{◌≡◌, chars, IfOk};
ghost use Rattle.str_indices.specs.Schemes.{from_byte_idx};
ghost use Rattle.str_indices.specs.declared.Scheme.TheVariants.{Lines};

use std::alloc::{AllocError, Global};
use text_index::{Scheme, TextIndex};

/// The line of a byte, by all breaks.
pub fn line_of(alloc: Global, text: &str, byte: usize) -> Result<usize, AllocError>
    ensures { IfOk result (λ line. line ≡ from_byte_idx Lines (chars text.now) byte) }
{
    let index = TextIndex::of(alloc, text)?;
    Ok(index.from_byte_idx(Scheme::Lines, byte))
}
