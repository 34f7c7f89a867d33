//! All kernels beside the plain walk.
use super::rows::{self, Asked};
use super::walk::{self, cut, surrogate_pairs};
use byte_chunk::ByteChunk;
use std::process::Abort;
use str_indices::Scheme;

/// The answers of a scheme's kernels for an index.
#[derive(Clone, Copy)]
pub struct Answers {
    /// The count before that byte, if the counting kernel takes it as an end.
    pub before: Option<usize>,
    pub from: usize,
    pub to: usize,
}

/// Counts before the byte by the plain walk, if the counting kernel takes it as an end.
pub fn walked_before(scheme: Scheme, text: &str, index: usize) -> Option<usize> {
    let anywhere = matches!(scheme, Scheme::Lf | Scheme::Crlf) && index <= text.len();
    if anywhere || text.is_char_boundary(index) {
        Some(walk::from_byte_idx(scheme, cut(text, index), index))
    } else {
        None
    }
}

/// The answers of the plain walk.
pub fn walk(scheme: Scheme, text: &str, index: usize) -> Answers {
    Answers {
        before: walked_before(scheme, text, index),
        from: walk::from_byte_idx(scheme, text, index),
        to: walk::to_byte_idx(scheme, text, index),
    }
}

/// Counts the surrogate pairs before a byte by the plain walk, if the byte is a boundary.
fn walked_pairs(text: &str, end: usize) -> Option<usize> {
    Some(surrogate_pairs(text.get(..end)?))
}

/// Compares the kernels of a scheme over one type of chunk with these answers.
fn answers_are<T: ByteChunk>(rt: &impl Abort, asked: Asked, answers: Answers) {
    rows::count_is::<T>(rt, asked, answers.before);
    rows::from_is::<T>(rt, asked, answers.from);
    rows::to_is::<T>(rt, asked, answers.to);
}

/// Compares the kernels of a scheme with the plain walk, after each of these numbers of leading bytes.
fn answer_as_the_walk<T: ByteChunk>(
    rt: &impl Abort,
    scheme: Scheme,
    text: &str,
    index: usize,
    leads: &[usize],
) {
    let answers = walk(scheme, text, index);
    for &lead in leads {
        answers_are::<T>(rt, Asked::new(scheme, text, index, lead), answers);
    }
}

/// Compares the kernel that counts surrogate pairs with the plain walk.
fn count_pairs_as_the_walk<T: ByteChunk>(
    rt: &impl Abort,
    text: &str,
    index: usize,
    leads: &[usize],
) {
    let pairs = walked_pairs(text, index);
    for &lead in leads {
        rows::pairs_are::<T>(rt, Asked::new(Scheme::Utf16, text, index, lead), pairs);
    }
}

/// Compares all kernels with the plain walk at an index.
pub fn all_answer_as_the_walk<T: ByteChunk>(
    rt: &impl Abort,
    text: &str,
    index: usize,
    leads: &[usize],
) {
    count_pairs_as_the_walk::<T>(rt, text, index, leads);
    for scheme in Scheme::ALL {
        answer_as_the_walk::<T>(rt, scheme, text, index, leads);
    }
}

/// Compares all kernels with the plain walk at every index up to past the text's end, and at the greatest.
pub fn all_answer_everywhere<T: ByteChunk>(rt: &impl Abort, text: &str, leads: &[usize]) {
    for index in 0..usize::max(4, text.len() + 2) {
        all_answer_as_the_walk::<T>(rt, text, index, leads);
    }
    all_answer_as_the_walk::<T>(rt, text, usize::MAX, leads);
}
