ghost use Rattle.std.specs.Prelude.{◌≡◌, []};

use std::alloc::Global;
use std::marker::Model;

/// Bytes that were taken of a source and not used, which are the first of the next message.
///
/// Contracts see them as a list. After a message there are at most `limits::PIECE_BYTES` more than before.
#[derive(Drop)]
pub struct Kept {
    pub(crate) bytes: Vec<u8>,
}

impl Model for Kept {
    ghost use Rattle.std.specs.Prelude.{ℕ, List};

    ghost Value = { List ℕ };

    ghost view = { λ k. k.bytes.items };
}

impl Kept {
    /// No bytes. It takes no memory.
    pub fn new(alloc: Global) -> Kept
        ensures { result ≡ [] }
    {
        Kept {
            bytes: Vec::new(alloc),
        }
    }

    /// The bytes in order.
    pub fn as_slice(&self) -> &[u8]
        ensures { result.now ≡ self.now }
    {
        self.bytes.as_slice()
    }

    // The bytes, which the reader takes up and gives back.
    pub(crate) fn take(&mut self, alloc: Global) -> Vec<u8>
        ensures taken { result.items ≡ self.old }
        ensures emptied { self.new ≡ [] }
    {
        std::mem::replace(&mut self.bytes, Vec::new(alloc))
    }

    // Keeps these bytes.
    pub(crate) fn put(&mut self, bytes: Vec<u8>)
        ensures kept { self.new ≡ bytes.items }
    {
        self.bytes = bytes;
    }
}
