//! The numbers that bound how a chunked body is cut, beside those of the product.

/// Bytes of a chunk line with its extensions and its CR LF at most.
pub const CHUNK_LINE_BYTES: usize = 256;

/// Digits of the size of a chunk at most.
pub const CHUNK_DIGITS: usize = 16;

/// Bytes of a trailer section with its empty line at most.
pub const TRAILER_BYTES: usize = 1_024;

/// Bytes of each chunk of a body of the greatest length, whose bytes beside its content are as many as any body may have.
pub const CHUNK_BYTES: usize = 64;

/// Bytes beside the content of such a chunk: those of its size in two digits, and two times CR LF.
pub const CHUNK_FRAME_BYTES: usize = 6;

/// Bytes that a source is asked for at a time, and so the bytes after a message that are taken with it at most.
pub const PIECE_BYTES: usize = 4_096;
