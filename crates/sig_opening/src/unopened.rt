ghost use Rattle.std.specs.Prelude.{◌≡◌};
ghost use Rattle.sig_opening.specs.Files.{of_load};

use sig_journal::LoadFault;

/// Why no node was loaded from a store.
#[derive(Clone, Copy)]
pub enum Unopened {
    /// A file of the store isn't there. None was made.
    Missing,
    /// A file couldn't be opened, or its disk failed. The outside counted it as a fault of the stores.
    Failed,
    /// The bytes of a file, 0 for the first and 1 for the second, are no journal at this offset, or the record whose gate
    /// stands there is none that the node takes up.
    Damaged { file: u8, at: u64 },
    /// Out of memory.
    Memory,
}

impl Unopened {
    /// Where both files were opened, for this fault.
    pub fn of_load(fault: LoadFault) -> Unopened
        ensures { result ≡ of_load fault }
    {
        match fault {
            LoadFault::Store => Unopened::Failed,
            LoadFault::Damaged { file, at } => Unopened::Damaged { file, at },
            LoadFault::Memory => Unopened::Memory,
        }
    }
}
