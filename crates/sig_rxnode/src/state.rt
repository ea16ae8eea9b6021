ghost use Rattle.std.specs.Prelude.{◌≡◌, IfOk};

use sig_inbox::Seen;
use sig_json::Memory;
use sig_sessions::Table;

/// What a receiver keeps: the pairs of the tokens that it took, and the session table that they made.
#[derive(Drop)]
pub struct RxState {
    /// The pairs, in order.
    pub seen: Seen,
    /// The rows.
    pub table: Table,
}

impl RxState {
    ghost use Rattle.sig_rxnode.specs.States.{held};

    /// An equal state. Out of memory is its only error.
    pub fn copy(&self) -> Result<RxState, Memory>
        ensures { IfOk result (λ s. held s ≡ held self.now) }
    {
        Ok(RxState {
            seen: self.seen.copy()?,
            table: self.table.copy()?,
        })
    }
}
