//! The chunk types, one file each.

pub(crate) mod double_word;
pub(crate) mod plain_array;
pub(crate) mod vector_16;
pub(crate) mod vector_32;
pub(crate) mod word;
