//! The number that bounds what comes before a response, beside those of the product.

/// Interim responses that may come before the response to a request (RFC 9110, section 15.2).
pub const INTERIM_RESPONSES: u32 = 5;
