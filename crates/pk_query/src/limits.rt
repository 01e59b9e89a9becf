//! How long and how deep a query may be.

/// The most bytes that a query may have. With it, a query's tree has a bounded size and depth.
pub const MAX_BYTES: usize = 4096;

/// The most brackets that may be open at a token, and the most `NOT` that may stand in a row.
pub const MAX_DEPTH: usize = 64;
