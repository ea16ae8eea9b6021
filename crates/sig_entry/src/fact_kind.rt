ghost use Rattle.std.specs.Prelude.{◌≡◌};
ghost use Rattle.sig_entry.specs.Facts as facts;

use sig_terms::Fact;

/// The kind of a fact, which its bytes begin with.
#[derive(Clone, Copy, PartialEq, Eq)]
pub enum FactKind {
    /// `Fact::Created`.
    Created,
    /// `Fact::Configured`.
    Configured,
    /// `Fact::StatusSet`.
    StatusSet,
    /// `Fact::Listed`.
    Listed,
    /// `Fact::Unlisted`.
    Unlisted,
    /// `Fact::Deleted`.
    Deleted,
    /// `Fact::Published`.
    Published,
    /// `Fact::Settled`.
    Settled,
    /// `Fact::Asked`.
    Asked,
}

impl FactKind {
    /// The kind of a fact.
    pub fn of(fact: &Fact) -> FactKind
        ensures { result ≡ facts.kind_of fact.now }
    {
        match fact {
            Fact::Created { .. } => FactKind::Created,
            Fact::Configured { .. } => FactKind::Configured,
            Fact::StatusSet { .. } => FactKind::StatusSet,
            Fact::Listed { .. } => FactKind::Listed,
            Fact::Unlisted { .. } => FactKind::Unlisted,
            Fact::Deleted { .. } => FactKind::Deleted,
            Fact::Published { .. } => FactKind::Published,
            Fact::Settled { .. } => FactKind::Settled,
            Fact::Asked { .. } => FactKind::Asked,
        }
    }

    /// The kind with this byte, from 1 to 9. None exactly where no kind has it.
    pub fn with_byte(byte: u8) -> Option<FactKind>
        ensures { result ≡ facts.kind_in byte }
    {
        match byte {
            1 => Some(FactKind::Created),
            2 => Some(FactKind::Configured),
            3 => Some(FactKind::StatusSet),
            4 => Some(FactKind::Listed),
            5 => Some(FactKind::Unlisted),
            6 => Some(FactKind::Deleted),
            7 => Some(FactKind::Published),
            8 => Some(FactKind::Settled),
            9 => Some(FactKind::Asked),
            _ => None,
        }
    }

    /// Its byte.
    pub fn byte(self) -> u8
        ensures { result ≡ facts.kind_byte self }
    {
        match self {
            FactKind::Created => 1,
            FactKind::Configured => 2,
            FactKind::StatusSet => 3,
            FactKind::Listed => 4,
            FactKind::Unlisted => 5,
            FactKind::Deleted => 6,
            FactKind::Published => 7,
            FactKind::Settled => 8,
            FactKind::Asked => 9,
        }
    }
}
