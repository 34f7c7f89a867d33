//! Tests of ropes and of positions in them, as another crate calls them.
//!
//! They are a crate of their own, so that the libraries are proved without them.
#![tactic(auto)]

#[cfg(test)]
mod positions_in_ropes;
#[cfg(test)]
mod ropes;
