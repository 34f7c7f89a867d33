//! A text that changes, for C, as a static library: the functions of `text_rope`, and of `positions` over it, by a handle.
//!
//! C holds a [`Slot`](slot::Slot), which is one pointer. Null is the empty text, so a handle begins as null and takes
//! no memory. A question and a change of a rope have it lent by the handle. Those named `.._utf8` ask that the bytes
//! are UTF-8; otherwise none asks more of its arguments than their types. `bindings/c/include/str_rope.h`, at
//! the top of the repository, says what a caller in C owes.
#![tactic(auto)]

mod changes;
mod chunk_lists;
mod handles;
mod loose;
mod queries;
mod range_changes;
mod reads;
mod slot;
mod statuses;
mod text_positions;
