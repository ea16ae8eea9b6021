//! The numbers that bound what a body wants of delivery by push. Together they leave room in the head of a push.

/// Bytes of the URL of an endpoint at most.
pub const ENDPOINT_URL_BYTES: usize = 2_048;

/// Bytes of the authorization that each push has at most.
pub const AUTHORIZATION_BYTES: usize = 8_192;
