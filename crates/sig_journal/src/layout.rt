/// An open gate. Any other value is a closed one.
pub const GATE_OPEN: u8 = 0x5a;

/// What stands after the header gate of each file of a journal.
pub const MAGIC: [u8; 4] = *b"SIGJ";

/// The version of the layout.
pub const VERSION: u8 = 1;

/// Bytes of a header without its snapshot.
pub const HEADER_BYTES: usize = 35;

/// Bytes of a store's name.
pub const STORE_ID_BYTES: usize = 16;

/// Bytes of a record beside its payload: its gate and its length.
pub const RECORD_HEAD_BYTES: usize = 5;
