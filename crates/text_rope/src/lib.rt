//! A text that changes: one text in a balanced tree of chunks, whose nodes may have several owners.
#![tactic(auto)]

mod changes;
mod chars;
mod chunk;
mod chunks;
mod copies;
mod counts;
mod cursor;
mod edits;
mod iter;
mod joins;
mod leaf;
mod loads;
mod parts;
mod queries;
mod ranges;
mod refusals;
mod rope;
mod shifts;
mod tree;

pub use chars::{char_at_in, char_before_in};
pub use chunk::{MAX_CHUNK, MIN_CHUNK};
pub use chunks::{ChunkAt, ChunkAtByte, chunk_at_byte_in, chunk_in};
pub use cursor::ChunkCursor;
pub use iter::Chunks;
pub use queries::{count_in, from_in, is_boundary_in, to_in};
pub use ranges::Change;
pub use refusals::Refusal;
pub use rope::Rope;
pub use rope::views::View;
pub use text_summary::{Front, Scheme, Summary};
