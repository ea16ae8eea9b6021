ghost use Rattle.std.specs.Prelude.{◌≡◌};
ghost use Rattle.sig_serving.specs.Stops.{is_shut};

/// Why a watch accepts no further link.
#[derive(Clone, Copy, PartialEq, Eq)]
pub enum Stop {
    /// It accepted as many as it may.
    Spent,
    /// The door said that none will come.
    Shut,
    /// An accept failed.
    Failed,
    /// What serves its links lets no further one in.
    Halted,
}

impl Stop {
    /// Whether the door said that none will come.
    pub fn is_shut(self) -> bool
        ensures { result ≡ is_shut self }
    {
        match self {
            Stop::Shut => true,
            Stop::Spent | Stop::Failed | Stop::Halted => false,
        }
    }
}
