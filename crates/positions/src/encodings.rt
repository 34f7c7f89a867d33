//! The units in which an offset on a line is counted.

/// The unit in which an offset on a line is counted: the protocol's `PositionEncodingKind`. A server and its client
/// agree on one.
#[derive(Clone, Copy, PartialEq, Eq, Debug)]
pub enum Encoding {
    /// In scalar values.
    Utf32,
    /// In UTF-16 code units, the protocol's default.
    Utf16,
    /// In bytes.
    Utf8,
}
