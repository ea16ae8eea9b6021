ghost use Rattle.std.specs.Prelude.{◌≡◌};
ghost use Rattle.sig_journal.specs.Faults.{fault_of};

use crate::AppendFault;
use sig_json::{MemoryRefusal, Same};
use thiserror::Error;

/// Why a node did not answer a call.
#[derive(Clone, Copy, Debug, PartialEq, Eq, Error)]
pub enum NodeFault {
    /// The disk failed in this call or in an earlier one, and counted it. The node answers so until it is loaded again.
    #[error("the disk failed")]
    Store,
    /// A number would pass 2^62: this one. Nothing changed.
    #[error("a number would be {0}")]
    Full(u64),
    /// Out of memory. Nothing changed.
    #[error("out of memory")]
    Memory,
}

impl NodeFault {
    /// Why a record was not added.
    pub fn of_append(fault: AppendFault) -> NodeFault
        ensures { result ≡ fault_of fault }
    {
        match fault {
            AppendFault::Store => NodeFault::Store,
            AppendFault::Full(end) => NodeFault::Full(end),
        }
    }
}

impl<R: MemoryRefusal> From<R> for NodeFault {
    ghost use Rattle.sig_journal.specs.declared.node_fault.NodeFault.TheVariants.{Memory};

    ghost from_gives = { λ _ e. e ≡ Memory };

    fn from(_refusal: R) -> NodeFault {
        NodeFault::Memory
    }
}

impl Same for NodeFault {
    fn same(&self, other: &NodeFault) -> bool {
        self == other
    }
}
