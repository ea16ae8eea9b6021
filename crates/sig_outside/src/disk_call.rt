use sig_json::Bytes;

/// A call of a disk that changed its file, or kept it against a crash.
#[derive(Drop)]
pub enum DiskCall {
    /// Bytes were written at an offset.
    Wrote { at: u64, bytes: Bytes },
    /// The file was cut to a size.
    Cut { size: u64 },
    /// The file was synced.
    Synced,
}

/// How many calls a disk still makes, and the byte that stands for each one written since the last sync.
#[derive(Clone, Copy)]
pub struct Standstill {
    pub calls: u64,
    pub fill: u8,
}
