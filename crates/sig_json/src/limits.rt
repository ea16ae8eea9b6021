//! Every number that bounds the product. A contract names the constant and never the figure.

/// The greatest journal end, stream number, token number, time and count of bytes read: 2^62.
pub const LAST_NUMBER: u64 = 4_611_686_018_427_387_904;

/// Bytes of a token's text at most.
pub const TOKEN_BYTES: usize = 8_192;

/// Bytes of the payload of a token that is made here at most.
pub const PAYLOAD_BYTES: usize = 6_000;

/// Bytes of the head section of an HTTP message at most.
pub const HEAD_BYTES: usize = 16_384;

/// Fields in the head of an HTTP message at most.
pub const HEADER_FIELDS: usize = 64;

/// Bytes of the body of an HTTP request at most.
pub const REQUEST_BODY_BYTES: usize = 65_536;

/// Bytes of the body of an HTTP response at most.
pub const RESPONSE_BODY_BYTES: usize = 524_288;

/// Streams that one client may have at a time.
pub const STREAMS_PER_CLIENT: usize = 16;

/// Clients in the settings of a transmitter at most.
pub const CLIENTS: usize = 64;

/// Issuers in the settings of a receiver at most.
pub const ISSUERS: usize = 64;

/// Principals in the settings of a receiver at most.
pub const PRINCIPALS: usize = 64;

/// Keys of one issuer at most.
pub const KEYS_PER_ISSUER: usize = 4;

/// Links that a server serves at the same time at most.
pub const LINKS_AT_ONCE: usize = 64;

/// Requests that one link answers at most.
pub const REQUESTS_PER_LINK: usize = 16;

/// Tokens in a page of a poll or in a push round at most.
pub const TOKENS_PER_PAGE: usize = 32;

/// Bytes of a key at least.
pub const KEY_BYTES_LEAST: usize = 32;

/// Bytes of a key at most.
pub const KEY_BYTES_MOST: usize = 64;

/// Characters of a key identifier (`A-Z a-z 0-9 . _ -`) at most; there is at least one.
pub const KEY_NAME_BYTES: usize = 64;

/// Characters of a client's name (`a-z 0-9`) at most; there is at least one.
pub const CLIENT_NAME_BYTES: usize = 32;

/// Bytes of a settings file at most.
pub const SETTINGS_BYTES: usize = 1_048_576;

/// Bytes of a script line at most.
pub const SCRIPT_LINE_BYTES: usize = 65_536;

/// Rows in a page of the session table at most.
pub const ROWS_PER_PAGE: usize = 256;

/// Seconds between two verifications of a stream at most.
pub const INTERVAL_SECONDS: u64 = 86_400;

/// Bytes that are gathered before they are written in one piece, and bytes that a reader asks for in one piece.
pub const GATHERED_BYTES: usize = 65_536;
