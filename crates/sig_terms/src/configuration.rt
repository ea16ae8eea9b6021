ghost use Rattle.std.specs.Prelude.{◌≡◌, IfOk};

use crate::copying::copy_optional_items;
use crate::{Defaults, Delivery};
use sig_json::{Copied, Items, Memory, Same, Text, copy_items, copy_optional};
use std::alloc::Global;

/// The configuration of a stream (Shared Signals Framework 1.0, section 8.1.1). Its issuer, audience, interval and
/// default subjects are those that the transmitter had when the stream was made.
pub struct StreamConf {
    /// The stream's name: its client's name, a hyphen, and its number among that client's streams, from 1.
    pub stream: Text,
    /// Who makes its tokens.
    pub iss: Text,
    /// Whom its tokens are for.
    pub aud: Items<Text>,
    /// The URIs of the event types that were asked for; none given asks for all.
    pub requested: Option<Items<Text>>,
    /// How its tokens reach the receiver.
    pub delivery: Delivery,
    /// Seconds between two verifications at least, from 0 to 86,400.
    pub interval: u64,
    /// Which subjects it has before any is added or removed.
    pub defaults: Defaults,
    /// The receiver's own words for it.
    pub description: Option<Text>,
}

impl Drop for StreamConf {
    fn drop(self) {
        let StreamConf {
            stream,
            iss,
            aud,
            requested,
            delivery,
            interval: _,
            defaults: _,
            description,
        } = self;
        drop(stream);
        drop(iss);
        drop(aud);
        drop(requested);
        drop(delivery);
        drop(description);
    }
}

impl StreamConf {
    /// An equal one.
    pub fn copy(&self, alloc: Global) -> Result<StreamConf, Memory>
        ensures { IfOk result (λ c. c ≡ self.now) }
    {
        Ok(StreamConf {
            stream: self.stream.copy(alloc)?,
            iss: self.iss.copy(alloc)?,
            aud: copy_items(alloc, &self.aud)?,
            requested: copy_optional_items(alloc, &self.requested)?,
            delivery: self.delivery.copy(alloc)?,
            interval: self.interval,
            defaults: self.defaults,
            description: copy_optional(alloc, &self.description)?,
        })
    }
}

impl Copied for StreamConf {
    fn copied(&self, alloc: Global) -> Result<StreamConf, Memory> {
        self.copy(alloc)
    }
}

impl Same for StreamConf {
    fn same(&self, other: &StreamConf) -> bool {
        self.stream.same(&other.stream)
            && self.iss.same(&other.iss)
            && self.aud.same(&other.aud)
            && self.requested.same(&other.requested)
            && self.delivery.same(&other.delivery)
            && self.interval.same(&other.interval)
            && self.defaults.same(&other.defaults)
            && self.description.same(&other.description)
    }
}
