ghost use Rattle.std.specs.Prelude.{◌≡◌, IfOk};

use crate::comparing::{same_member, same_variant};
use crate::copying::{copy_one, copy_one_with, copy_optional_items, copy_two, copy_variant};
use crate::{Delivery, StreamConf};
use sig_event::{News, Status};
use sig_json::{Copied, Items, Memory, Same, Text, copy_items, copy_optional};
use sig_subject::Subject;
use std::alloc::Global;

/// What happened at a transmitter: an item of its history.
#[derive(Drop)]
pub enum Fact {
    /// A stream was made.
    Created {
        /// Its configuration.
        conf: StreamConf,
        /// When, in seconds since 1970, at most 2^62.
        time: u64,
    },
    /// A stream was configured anew.
    Configured {
        /// The stream's name.
        stream: Text,
        /// The URIs of the event types that it has from now on; none given has all.
        requested: Option<Items<Text>>,
        /// How its tokens reach the receiver from now on.
        delivery: Delivery,
        /// The receiver's own words for it.
        description: Option<Text>,
    },
    /// The status of a stream was set.
    StatusSet {
        /// The stream's name.
        stream: Text,
        /// The status.
        status: Status,
        /// Why.
        reason: Option<Text>,
        /// Whether the operator set it, and so its receiver is told by a token.
        operator: bool,
        /// When, in seconds since 1970, at most 2^62.
        time: u64,
    },
    /// A subject was put on a stream's list.
    Listed {
        /// The stream's name.
        stream: Text,
        /// Whom.
        subject: Subject,
    },
    /// A subject was taken off a stream's list.
    Unlisted {
        /// The stream's name.
        stream: Text,
        /// Whom.
        subject: Subject,
    },
    /// A stream was deleted.
    Deleted {
        /// The stream's name.
        stream: Text,
    },
    /// A publication made a token for each stream that was due.
    Published {
        /// The publication's own name.
        id: Text,
        /// What it says.
        news: News,
        /// When, in seconds since 1970, at most 2^62.
        time: u64,
    },
    /// Tokens of a stream are owed no more.
    Settled {
        /// The stream's name.
        stream: Text,
        /// The tokens, in order of number.
        items: Items<SettledItem>,
    },
    /// A verification of a stream was asked for, and made a token.
    Asked {
        /// The stream's name.
        stream: Text,
        /// What is sent back.
        state: Option<Text>,
        /// When, in seconds since 1970, at most 2^62.
        time: u64,
    },
}

impl Fact {
    /// An equal one.
    pub fn copy(&self, alloc: Global) -> Result<Fact, Memory>
        ensures { IfOk result (λ f. f ≡ self.now) }
    {
        copy_variant!(self, alloc, Fact {
            ;;
            Created: copy_one(conf) plain(time),
            Configured: copy_configuring(stream, requested, delivery, description),
            StatusSet: copy_one_with(stream, reason) plain(status, operator, time),
            Listed: copy_two(stream, subject),
            Unlisted: copy_two(stream, subject),
            Deleted: copy_one(stream),
            Published: copy_two(id, news) plain(time),
            Settled: copy_settling(stream, items),
            Asked: copy_one_with(stream, state) plain(time),
        })
    }
}

// The parts of a stream that was configured.
fn copy_configuring(
    alloc: Global,
    stream: &Text,
    requested: &Option<Items<Text>>,
    delivery: &Delivery,
    description: &Option<Text>,
) -> Result<(Text, Option<Items<Text>>, Delivery, Option<Text>), Memory>
    ensures { IfOk result (λ c. c ≡ (stream.now, requested.now, delivery.now, description.now)) }
{
    let stream = stream.copy(alloc)?;
    let requested = copy_optional_items(alloc, requested)?;
    let description = copy_optional(alloc, description)?;
    Ok((stream, requested, delivery.copy(alloc)?, description))
}

// The parts of tokens that are owed no more.
fn copy_settling(
    alloc: Global,
    stream: &Text,
    items: &Items<SettledItem>,
) -> Result<(Text, Items<SettledItem>), Memory>
    ensures { IfOk result (λ c. c ≡ (stream.now, items.now)) }
{
    let stream = stream.copy(alloc)?;
    Ok((stream, copy_items(alloc, items)?))
}

impl Copied for Fact {
    fn copied(&self, alloc: Global) -> Result<Fact, Memory> {
        self.copy(alloc)
    }
}

impl Same for Fact {
    fn same(&self, other: &Fact) -> bool {
        same_variant!(self, other, Fact {
            ;
            Created { conf ~ made, time ~ when },
            Configured { stream ~ name, requested ~ asked, delivery ~ way, description ~ words },
            StatusSet { stream ~ name, status ~ state, reason ~ why, operator == by_operator, time ~ when },
            Listed { stream ~ name, subject ~ whom },
            Unlisted { stream ~ name, subject ~ whom },
            Deleted { stream ~ name },
            Published { id ~ name, news ~ what, time ~ when },
            Settled { stream ~ name, items ~ which },
            Asked { stream ~ name, state ~ sent_back, time ~ when },
        })
    }
}

/// A token that is owed no more.
#[derive(Drop)]
pub struct SettledItem {
    /// Its number among the tokens of its stream.
    pub number: u64,
    /// Why its receiver refused it, where it did.
    pub code: Option<Text>,
}

impl SettledItem {
    /// An equal one.
    pub fn copy(&self, alloc: Global) -> Result<SettledItem, Memory>
        ensures { IfOk result (λ i. i ≡ self.now) }
    {
        Ok(SettledItem {
            number: self.number,
            code: copy_optional(alloc, &self.code)?,
        })
    }
}

impl Copied for SettledItem {
    fn copied(&self, alloc: Global) -> Result<SettledItem, Memory> {
        self.copy(alloc)
    }
}

impl Same for SettledItem {
    fn same(&self, other: &SettledItem) -> bool {
        self.number.same(&other.number) && self.code.same(&other.code)
    }
}
