ghost use Rattle.std.specs.Prelude.{◌≡◌, IfOk};
ghost use Rattle.sig_event.specs.Faults.{event_fault};

use sig_json::{Memory, MemoryRefusal, PayloadFault};
use std::alloc::Global;

/// Why a payload is no event of its type about the subject.
#[derive(Debug, Drop)]
pub enum EventFault {
    /// The payload is no object.
    NotObject,
    /// A member of the payload is missing or wrong; never `Memory`.
    Payload(PayloadFault),
    /// The event is about an identifier, and the subject is neither an e-mail address nor a telephone number.
    Subject,
    /// Out of memory.
    Memory,
}

impl EventFault {
    /// An equal fault.
    pub fn copy(&self, alloc: Global) -> Result<EventFault, Memory>
        ensures { IfOk result (λ f. f ≡ self.now) }
    {
        Ok(match self {
            EventFault::NotObject => EventFault::NotObject,
            EventFault::Payload(fault) => EventFault::Payload(fault.copy(alloc)?),
            EventFault::Subject => EventFault::Subject,
            EventFault::Memory => EventFault::Memory,
        })
    }

    /// The same of an event: out of memory stays what it is.
    pub(crate) fn of_payload(fault: PayloadFault) -> EventFault
        ensures { result ≡ event_fault fault }
    {
        match fault {
            PayloadFault::Memory => EventFault::Memory,
            other => EventFault::Payload(other),
        }
    }
}

impl<R: MemoryRefusal> From<R> for EventFault {
    ghost use Rattle.sig_event.specs.declared.event_fault.EventFault.TheVariants.{Memory};

    ghost from_gives = { λ _ e. e ≡ Memory };

    fn from(_refusal: R) -> EventFault {
        EventFault::Memory
    }
}
