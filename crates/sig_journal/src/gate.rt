ghost use Rattle.std.specs.Prelude.{◌≡◌, true, Ok};
ghost use Rattle.sig_journal.specs.Gates.{BeginsOpen};
ghost use Rattle.sig_journal.specs.Store.{gate_of, in_force, pick};

use crate::LoadFault;
use crate::header::{field, number_in_8};
use crate::layout::GATE_OPEN;

/// How a file begins.
#[derive(Clone, Copy, PartialEq, Eq)]
pub enum Gate {
    /// It has no byte.
    NoByte,
    /// Its header gate is closed.
    Closed,
    /// Its header gate is open; a generation that is cut counts as 0.
    Opened(u64),
}

/// How a file begins, by its first bytes.
pub fn gate_in(bytes: &[u8]) -> Gate
    ensures { result ≡ gate_of bytes.now }
{
    match bytes {
        [] => Gate::NoByte,
        [gate, ..] => {
            if *gate == GATE_OPEN {
                Gate::Opened(number_in_8(field(bytes, 7, 8)))
            } else {
                Gate::Closed
            }
        }
    }
}

/// Whether the second file is the one in force, or which file is damaged at its first byte.
pub fn choose(first: Gate, second: Gate) -> Result<bool, LoadFault>
    ensures { result ≡ in_force first second }
{
    match (first, second) {
        (Gate::Opened(first), Gate::Opened(second)) => Ok(first < second),
        (Gate::Opened(_), Gate::Closed) => Ok(false),
        (Gate::Opened(_), Gate::NoByte) => Err(LoadFault::Damaged { file: 1, at: 0 }),
        (Gate::Closed, Gate::Opened(_)) => Ok(true),
        (Gate::Closed, Gate::Closed) => Err(LoadFault::Damaged { file: 0, at: 0 }),
        (Gate::Closed, Gate::NoByte) => Err(LoadFault::Damaged { file: 0, at: 0 }),
        (Gate::NoByte, _) => Err(LoadFault::Damaged { file: 0, at: 0 }),
    }
}

/// Whether the header gate of the file that isn't in force is open.
pub fn is_other_open(first: Gate, second: Gate, in_b: bool) -> bool
    requires { in_force first second ≡ Ok in_b }
    ensures other { BeginsOpen result (pick in_b second first) }
    ensures in_force { BeginsOpen true (pick in_b first second) }
{
    match (in_b, first, second) {
        (true, Gate::Opened(_), _) => true,
        (true, _, _) => false,
        (false, _, Gate::Opened(_)) => true,
        (false, _, _) => false,
    }
}
