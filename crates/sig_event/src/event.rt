ghost use Rattle.std.specs.Prelude.{◌≡◌, IfOk};
ghost use Rattle.sig_event.specs.Events.{type_of_event, uri_of};
ghost use Rattle.sig_event.specs.Types.{is_published};

use crate::{EventType, Status};
use sig_caep::CaepEvent;
use sig_json::{Copied, Listed, Memory, Same, Text, copy_optional};
use sig_risc::RiscEvent;
use std::alloc::Global;

/// A security event (RFC 8417, section 1.2).
pub enum Event {
    /// An event of CAEP (CAEP 1.0, section 3).
    Caep(CaepEvent),
    /// An event of RISC (RISC 1.0, section 2).
    Risc(RiscEvent),
    /// A stream is verified (OpenID Shared Signals Framework 1.0, section 8.1.4).
    Verification {
        /// What the receiver asked to be sent back.
        state: Option<Text>,
    },
    /// A stream's status changed (OpenID Shared Signals Framework 1.0, section 8.1.5).
    StreamUpdated {
        /// The status now.
        status: Status,
        /// Why it changed.
        reason: Option<Text>,
    },
    /// An event of any other type, whose payload isn't read.
    Other {
        /// The URI of its type.
        uri: Text,
    },
}

impl Drop for Event {
    fn drop(self) {
        match self {
            Event::Caep(caep_event) => drop(caep_event),
            Event::Risc(risc_event) => drop(risc_event),
            Event::Verification { state } => drop(state),
            Event::StreamUpdated { status: _, reason } => drop(reason),
            Event::Other { uri } => drop(uri),
        }
    }
}

impl Event {
    /// Its type; none where the event isn't read.
    pub fn event_type(&self) -> Option<EventType>
        ensures { result ≡ type_of_event self.now }
    {
        match self {
            Event::Caep(event) => Some(EventType::Caep(event.kind.event_type())),
            Event::Risc(event) => Some(EventType::Risc(event.event_type())),
            Event::Verification { .. } => Some(EventType::Verification),
            Event::StreamUpdated { .. } => Some(EventType::StreamUpdated),
            Event::Other { .. } => None,
        }
    }

    /// Whether a transmitter publishes events of its type: those of CAEP and of RISC alone.
    pub fn is_published(&self) -> bool
        ensures { result ≡ is_published (type_of_event self.now) }
    {
        matches!(self, Event::Caep(_) | Event::Risc(_))
    }

    /// The URI of its type.
    pub fn uri(&self) -> &str
        ensures { result.now ≡ uri_of self.now }
    {
        match self {
            Event::Caep(event) => EventType::Caep(event.kind.event_type()).as_str(),
            Event::Risc(event) => EventType::Risc(event.event_type()).as_str(),
            Event::Verification { .. } => EventType::Verification.as_str(),
            Event::StreamUpdated { .. } => EventType::StreamUpdated.as_str(),
            Event::Other { uri } => uri.as_str(),
        }
    }

    /// An equal event.
    pub fn copy(&self, alloc: Global) -> Result<Event, Memory>
        ensures { IfOk result (λ c. c ≡ self.now) }
    {
        Ok(match self {
            Event::Caep(event) => Event::Caep(event.copy(alloc)?),
            Event::Risc(event) => Event::Risc(event.copy(alloc)?),
            Event::Verification { state } => Event::Verification {
                state: copy_optional(alloc, state)?,
            },
            Event::StreamUpdated { status, reason } => Event::StreamUpdated {
                status: *status,
                reason: copy_optional(alloc, reason)?,
            },
            Event::Other { uri } => Event::Other {
                uri: uri.copy(alloc)?,
            },
        })
    }
}

impl Copied for Event {
    fn copied(&self, alloc: Global) -> Result<Event, Memory> {
        self.copy(alloc)
    }
}

impl Same for Event {
    fn same(&self, other: &Event) -> bool {
        match (self, other) {
            (Event::Caep(one), Event::Caep(two)) => one.same(two),
            (Event::Risc(one), Event::Risc(two)) => one.same(two),
            (Event::Verification { state: one }, Event::Verification { state: two }) => one.same(
                two,
            ),
            (
                Event::StreamUpdated {
                    status: a,
                    reason: b,
                },
                Event::StreamUpdated {
                    status: c,
                    reason: d,
                },
            ) => a.same(c) && b.same(d),
            (Event::Other { uri: one }, Event::Other { uri: two }) => one.same(two),
            _ => false,
        }
    }
}

/// The URI of the event's type.
pub fn uri(alloc: Global, event: &Event) -> Result<Text, Memory>
    ensures { IfOk result (λ t. t ≡ uri_of event.now) }
{
    Text::of(alloc, event.uri())
}
