//! What the operator sees of what a stream owes.

ghost use Rattle.std.specs.Prelude.{◌≡◌, length, option_map};
ghost use Rattle.std.specs.List.{slice_get};

use crate::account::Account;

impl Account {
    ghost use Rattle.sig_accounts.specs.declared.debt.Debt.{Debt};

    /// How many tokens it owes.
    pub fn owed_count(&self) -> u64
        ensures { result ≡ length self.now.owing.owed }
    {
        self.owed().len() as u64
    }

    /// When the first token that it owes was made, in seconds since 1970; none exactly where it owes nothing.
    pub fn owed_since(&self) -> Option<u64>
        ensures { result ≡ option_map (λ (d : Debt). d.time) (slice_get self.now.owing.owed 0) }
    {
        match self.owed().get(0) {
            None => None,
            Some(debt) => Some(debt.time),
        }
    }
}
