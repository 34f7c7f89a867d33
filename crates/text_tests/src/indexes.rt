//! An index beside a text, as another crate calls it: its answers are compared with those of the plain functions.

mod answers;
mod caller;
mod lines;
mod texts;

/// How many bytes a stretch has.
const STRETCH: usize = 1024;
