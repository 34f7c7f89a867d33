//! An index beside a text, for C, as a static library: the questions of `text_index`, by a handle.
//!
//! C holds an [`IndexHandle`](handle::IndexHandle) in memory of its own, with the marks of the text, and lends both: nothing
//! here takes memory. [`index_fill`](making::index_fill) and [`index_fill_utf8`](making::index_fill_utf8) make a handle, the second
//! one of bytes that are UTF-8. A question asks that one of them made its handle, and changes nothing.
//! `bindings/c/include/str_index.h`, at the top of the repository, says what a caller in C owes.
#![tactic(auto)]

mod handle;
mod index_positions;
mod making;
mod queries;
