//! Tests of chunks, indices and slices, as another crate calls them: tables of worked answers, and loops that compare the
//! answers with a plain walk over the chars.
//!
//! They are a crate of their own, so that the libraries are proved without them.
#![tactic(auto)]

#[cfg(test)]
mod chunks;
#[cfg(test)]
mod indices;
pub mod slices;
#[cfg(test)]
mod utf8;
