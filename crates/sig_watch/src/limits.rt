//! What bounds a watch.

/// Links that a watch accepts at most. Sixteen bytes are kept for each until the watch ends.
pub const LINKS_PER_WATCH: usize = 65_536;
