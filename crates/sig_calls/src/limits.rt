//! The numbers that bound what requests and scripts want of a stream, and how many streams and
//! reported tokens the operator reads at a time.

/// Bytes of the texts of what is wanted together at most.
pub const WANT_BYTES: usize = 655_360;

/// Items of the requested list at most.
pub const WANT_ITEMS: usize = 655_360;

/// Streams in a page that the operator reads at most.
pub const STREAMS_PER_PAGE: usize = 100;

/// Reported tokens in a page that the operator reads at most.
pub const REFUSED_PER_PAGE: usize = 100;
