ghost use Rattle.std.specs.Prelude.{◌≡◌};
ghost use Rattle.sig_journal.specs.Layout.{kind_byte};

/// Whose store it is.
#[derive(Clone, Copy, PartialEq, Eq)]
pub enum Kind {
    /// A transmitter's.
    Tx,
    /// A receiver's.
    Rx,
}

impl Kind {
    // Its byte in a file's header.
    pub(crate) fn byte(self) -> u8
        ensures { result ≡ kind_byte self }
    {
        match self {
            Kind::Tx => 0x54,
            Kind::Rx => 0x52,
        }
    }
}
