//! Tests of texts in pieces, indexes and positions, as another crate calls them.
//!
//! They are a crate of their own, so that the libraries are proved without them. None needs a rope, so the toolchain proves
//! them while it proves `text_rope`.
#![tactic(auto)]

#[cfg(test)]
mod indexes;
#[cfg(test)]
mod pieces;
pub mod questions;
pub mod random;
#[cfg(test)]
mod text_positions;
