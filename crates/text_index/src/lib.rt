//! An index beside a text that does not change: it answers in every scheme without going over the text.
//!
//! Marks stand in the text about a kilobyte apart, each with the counts of what is before it, and none between CR and LF:
//! so a question looks at a few marks and reads the text between two of them, at most six times. Only making the index
//! takes memory.
#![tactic(auto)]

mod borrowed;
mod index;
mod mark;
mod marking;
mod parts;
mod places;
mod queries;
mod stretch;
mod view;

pub use borrowed::BorrowedIndex;
pub use index::TextIndex;
pub use mark::Mark;
pub use marking::{fill, marks_for};
pub use queries::{count_in, from_in, to_in};
pub use str_indices::Scheme;
pub use view::Marks;
