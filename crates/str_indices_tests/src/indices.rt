//! The public functions over tables of worked answers, and all kernels over every chunk type, compared with such tables
//! and with a plain walk: wherever chunks and leading bytes may end.

mod all_counts;
mod answers;
mod chars;
mod edges;
mod full_lanes;
pub mod kernels;
mod lines;
mod lines_crlf;
mod lines_lf;
pub mod rows;
mod utf16;
pub mod walk;
