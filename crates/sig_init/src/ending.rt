ghost use Rattle.std.specs.Prelude.{◌≡◌};
ghost use Rattle.sig_init.specs.Ends.{end_of};

use sig_journal::MakeFault;

/// How the making of an empty store ended.
#[derive(Clone, Copy, PartialEq, Eq)]
pub enum InitEnd {
    /// The store is made and synced.
    Done,
    /// A file, the first such, has this many bytes. Nothing was written.
    NotEmpty(u64),
    /// A file couldn't be opened, or its disk failed, and counted it. What was written is of no use.
    Store,
    /// Out of memory. No file was opened.
    Memory,
}

/// How it ended where both files were opened.
pub fn end_of(made: Result<(), MakeFault>) -> InitEnd
    ensures { result ≡ end_of made }
{
    match made {
        Ok(()) => InitEnd::Done,
        Err(MakeFault::Taken(size)) => InitEnd::NotEmpty(size),
        Err(MakeFault::Store) => InitEnd::Store,
    }
}
