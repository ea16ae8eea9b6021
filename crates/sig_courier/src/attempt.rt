use sig_json::Text;

/// An attempt to bring what a push stream offered to its receiver (RFC 8935, section 2).
#[derive(Drop)]
pub struct Attempt {
    /// The name of the stream.
    pub stream: Text,
    /// When it was made: the time of its tick, in seconds since 1970, at most 2^62.
    pub at: u64,
    /// How many tokens it was handed.
    pub tokens: u64,
    /// Whether each of them was settled.
    pub good: bool,
}
