//! A text in pieces, with the counts of each piece beside it.
//!
//! A rope or an editor's buffer keeps its text in pieces. This is the list of them: every question is answered as
//! for the joined text, from the pieces' summaries and the text of at most one piece. Only putting a piece in, and cutting
//! one, takes memory.
//!
//! Positions are asked of [`PieceParts`], by the functions of `positions`.
#![tactic(auto)]

mod list;
mod parts;
mod piece;
mod places;
mod queries;
mod ranges;
mod refusals;
mod sums;
mod view;

pub use list::PieceText;
pub use parts::PieceParts;
pub use queries::{count_in, from_in, to_in};
pub use refusals::Refusal;
pub use str_indices::Scheme;
pub use text_summary::Summary;
pub use view::Pieces;
