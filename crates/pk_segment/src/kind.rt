//! The two kinds of segments.

/// The kind of a segment of texts alone.
pub const PLAIN: u32 = 1;

/// The kind of a segment of texts with an index behind them.
pub const INDEXED: u32 = 2;
