//! Summaries of texts: how many bytes, chars, UTF-16 code units and line breaks a text has, and how it starts and ends.
//!
//! With these a text in pieces answers without being read again. The [`Summary`] of two joined texts, or of a text
//! after a part of it has summary_after, comes from the summaries of the parts, and a [`Front`] says what is known of the
//! text before a piece.
#![tactic(auto)]

mod changes;
mod fronts;
mod queries;
mod seams;
mod splits;
mod summaries;

pub use changes::{Update, apply_update, summary_after};
pub use fronts::{Front, Step};
pub use seams::{join_summaries, lost_at_seam};
pub use splits::halves;
pub use str_indices::Scheme;
pub use summaries::{Summary, ends_cr, starts_lf};
