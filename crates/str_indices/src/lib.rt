//! Counts the chars, UTF-16 code units and line breaks of a UTF-8 text, and converts between those indices and byte
//! indices.
//!
//! Each module but [`laws`] and [`utf8`] is one indexing scheme. Every text and every index has an answer: nothing
//! panics, nothing allocates.
//!
//! Each function of a scheme calls one kernel: its own name with `_impl`. By the kernel's contract, a call that counts
//! in `n` bytes loads at most `n / 16` chunks of 16 bytes, and one that answers a byte index at most `answer / 16 + 5`.
//! It takes at most 20 bytes one by one, and peeks at most twice for each of these, four times for each chunk, and
//! three times more. So do the kernels of `utf8`, but for six peeks in the place of three.
#![tactic(auto)]

mod all_counts;
mod by_scheme;
pub mod chars;
mod chunk_search;
mod kinds;
pub mod laws;
pub mod lines;
pub mod lines_crlf;
pub mod lines_lf;
mod passes;
mod place_counts;
mod places;
mod rest;
mod schemes;
pub mod utf16;
pub mod utf8;
mod utf8_faults;
mod utf8_lanes;
mod walks;
mod weights;

pub use all_counts::counts;
pub use by_scheme::Counts;
pub use byte_chunk;
pub use schemes::Scheme;
pub use utf8::{from_utf8, is_utf8, valid_up_to};
pub use utf8_lanes::Utf8Chunk;
