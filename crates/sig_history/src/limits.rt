//! The numbers that bound what a receiver may set of a stream, and what is kept of tokens that receivers reported as faulty.

/// Bytes of the requested texts together, of the url and the authorization together, and of the description, each at most:
/// 2^28.
pub const SETTING_BYTES: usize = 268_435_456;

/// Items of the requested list at most: 2^28.
pub const SETTING_ITEMS: usize = 268_435_456;

/// Bytes of a reported token's code that is kept at most.
pub const CODE_BYTES: usize = 64;

/// Reported tokens that are kept at most: the last ones.
pub const REFUSED_KEPT: usize = 10_000;
