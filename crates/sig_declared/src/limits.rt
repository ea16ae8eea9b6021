//! The number that bounds what settings declare.

/// Streams that the settings of `manage` declare at most.
pub const STREAMS_DECLARED: usize = 16;
