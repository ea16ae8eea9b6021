ghost use Rattle.std.specs.Prelude.{◌≡◌, IfOk};
ghost use Rattle.sig_terms.specs.Deliveries as deliveries;

use crate::Endpoint;
use crate::comparing::{same_member, same_variant};
use crate::copying::{copy_optional_items, copy_two_with, copy_variant};
use sig_json::{Copied, Items, Memory, Same, Text, copy_optional};
use std::alloc::Global;

/// Which subjects a stream has before any is added or removed (Shared Signals Framework 1.0, section 7.1).
#[derive(Clone, Copy, PartialEq, Eq)]
pub enum Defaults {
    /// Every subject.
    All,
    /// No subject.
    None,
}

impl Same for Defaults {
    fn same(&self, other: &Defaults) -> bool {
        match (self, other) {
            (Defaults::All, Defaults::All) => true,
            (Defaults::None, Defaults::None) => true,
            _ => false,
        }
    }
}

/// How tokens reach a receiver (Shared Signals Framework 1.0, section 6.1).
pub enum Delivery {
    /// The receiver asks for them (RFC 8936).
    Poll,
    /// They are sent to the receiver (RFC 8935).
    Push {
        /// Where to.
        endpoint: Endpoint,
        /// The URL that spells it.
        url: Text,
        /// The `authorization` field that each request has, where it has one.
        authorization: Option<Text>,
    },
}

impl Drop for Delivery {
    fn drop(self) {
        match self {
            Delivery::Poll => {}
            Delivery::Push {
                endpoint,
                url,
                authorization,
            } => {
                drop(endpoint);
                drop(url);
                drop(authorization);
            }
        }
    }
}

impl Delivery {
    /// Whether tokens are sent to the receiver.
    pub fn is_push(&self) -> bool
        ensures { result ≡ deliveries.is_push self.now }
    {
        matches!(self, Delivery::Push { .. })
    }

    /// An equal delivery.
    pub fn copy(&self, alloc: Global) -> Result<Delivery, Memory>
        ensures { IfOk result (λ d. d ≡ self.now) }
    {
        copy_variant!(self, alloc, Delivery {
            Poll;;
            Push: copy_two_with(endpoint, url, authorization),
        })
    }
}

impl Copied for Delivery {
    fn copied(&self, alloc: Global) -> Result<Delivery, Memory> {
        self.copy(alloc)
    }
}

impl Same for Delivery {
    fn same(&self, other: &Delivery) -> bool {
        same_variant!(self, other, Delivery {
            Poll;
            Push { endpoint ~ place, url ~ address, authorization ~ shown },
        })
    }
}

/// What a receiver wants of a stream (Shared Signals Framework 1.0, section 8.1.1).
pub struct Want {
    /// The URIs of the event types that it asks for; none given asks for all.
    pub requested: Option<Items<Text>>,
    /// How tokens are to reach it; poll where none is given.
    pub delivery: Option<Delivery>,
    /// Its own words for the stream.
    pub description: Option<Text>,
}

impl Drop for Want {
    fn drop(self) {
        let Want {
            requested,
            delivery,
            description,
        } = self;
        drop(requested);
        drop(delivery);
        drop(description);
    }
}

impl Want {
    /// An equal one.
    pub fn copy(&self, alloc: Global) -> Result<Want, Memory>
        ensures { IfOk result (λ w. w ≡ self.now) }
    {
        Ok(Want {
            requested: copy_optional_items(alloc, &self.requested)?,
            delivery: copy_optional(alloc, &self.delivery)?,
            description: copy_optional(alloc, &self.description)?,
        })
    }
}

impl Copied for Want {
    fn copied(&self, alloc: Global) -> Result<Want, Memory> {
        self.copy(alloc)
    }
}

impl Same for Want {
    fn same(&self, other: &Want) -> bool {
        self.requested.same(&other.requested)
            && self.delivery.same(&other.delivery)
            && self.description.same(&other.description)
    }
}
