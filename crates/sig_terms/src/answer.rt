ghost use Rattle.std.specs.Prelude.{◌≡◌, IfOk};

use crate::comparing::{same_member, same_variant};
use crate::copying::{copy_one, copy_one_with, copy_variant};
use crate::{Issued, RefusedToken, Standing, StreamConf, Token};
use sig_event::Status;
use sig_json::{Copied, Items, Memory, Same, Text, copy_items};
use std::alloc::Global;

/// What the transmitter answers to a call.
pub enum Answer {
    /// What the transmitter offers is told from its rules.
    Meta,
    /// The stream was made, and stands like this.
    Made {
        /// Its configuration.
        conf: StreamConf,
    },
    /// The stream stands like this, after the call.
    Conf {
        /// Its configuration.
        conf: StreamConf,
    },
    /// The client's streams.
    Confs {
        /// Their configurations, in order of number.
        confs: Items<StreamConf>,
    },
    /// The stream was deleted.
    Gone,
    /// The status of a stream, after the call.
    State {
        /// Its name.
        stream: Text,
        /// Its status.
        status: Status,
        /// Why, as the fact that set the status says.
        reason: Option<Text>,
        /// The number of the token that tells the receiver, where the call made one.
        token: Option<u64>,
    },
    /// The subject is one of the stream's.
    Added,
    /// The subject is none of the stream's.
    Removed,
    /// A verification was made.
    Asked {
        /// The name of the stream.
        stream: Text,
        /// The number of its token.
        number: u64,
    },
    /// The first tokens that the stream offers once the poll has settled what it names.
    Sets {
        /// The tokens, in order of number; at most a page of them, and at most as many as were asked for.
        tokens: Items<Token>,
        /// Whether it offers further ones.
        more: bool,
    },
    /// The publication stands.
    Published {
        /// The transmitter's store, whose name begins each token's identifier.
        store_id: [u8; 16],
        /// The tokens that it made, in order of client name and stream number.
        tokens: Items<Issued>,
    },
    /// How a page of the streams of all clients stands.
    Standings {
        /// The place behind the last one that is told, among all streams.
        next: u64,
        /// How each one stands, in order of client name and number; at most 100.
        standings: Items<Standing>,
    },
    /// A page of the tokens that receivers reported as faulty.
    Refused {
        /// The place behind the last one that is told, among all that were ever reported; where
        /// none is told, the place behind the last of all.
        next: u64,
        /// The tokens, in the order in which they were reported; at most 100.
        tokens: Items<RefusedToken>,
    },
    /// The figures of the whole transmitter.
    Figures {
        /// How many publications stand.
        publications: u64,
        /// How each stream stands, in order of client name and number.
        standings: Items<Standing>,
    },
    /// A round of pushes of this stream may begin.
    Delivering {
        /// Its name.
        stream: Text,
    },
    /// The first tokens that push streams offer.
    Handed {
        /// The tokens, stream by stream and in order of number; at most a page of them.
        tokens: Items<Token>,
    },
    /// So many tokens were settled: 1, or 0 where the token isn't owed or the answer settles nothing.
    Settled {
        /// How many.
        count: u64,
    },
    /// The client isn't configured, or has no such stream.
    NotFound,
    /// The client has 16 streams already.
    TooMany,
    /// The publication's name was used for another subject or event.
    Conflict,
    /// The stream is disabled.
    Disabled,
    /// The last verification was too short a time ago.
    Early {
        /// When the next one may be asked for, in seconds since 1970.
        until: u64,
    },
    /// A token that it would make has a payload of more than 6,000 bytes.
    Long {
        /// The bytes of the largest.
        size: u64,
    },
}

impl Drop for Answer {
    fn drop(self) {
        match self {
            Answer::Meta
            | Answer::Gone
            | Answer::Added
            | Answer::Removed
            | Answer::Settled { count: _ }
            | Answer::NotFound
            | Answer::TooMany
            | Answer::Conflict
            | Answer::Disabled
            | Answer::Early { until: _ }
            | Answer::Long { size: _ } => {}
            Answer::Made { conf } => drop(conf),
            Answer::Conf { conf } => drop(conf),
            Answer::Confs { confs } => drop(confs),
            Answer::State {
                stream,
                status: _,
                reason,
                token: _,
            } => {
                drop(stream);
                drop(reason);
            }
            Answer::Asked { stream, number: _ } => drop(stream),
            Answer::Sets { tokens, more: _ } => drop(tokens),
            Answer::Published {
                store_id: _,
                tokens,
            } => drop(tokens),
            Answer::Standings { next: _, standings } => drop(standings),
            Answer::Refused { next: _, tokens } => drop(tokens),
            Answer::Figures {
                publications: _,
                standings,
            } => drop(standings),
            Answer::Delivering { stream } => drop(stream),
            Answer::Handed { tokens } => drop(tokens),
        }
    }
}

impl Answer {
    /// An equal answer.
    pub fn copy(&self, alloc: Global) -> Result<Answer, Memory>
        ensures { IfOk result (λ a. a ≡ self.now) }
    {
        copy_variant!(self, alloc, Answer {
            Meta, Gone, Added, Removed, NotFound, TooMany, Conflict, Disabled;
            Settled { count }, Early { until }, Long { size };
            Made: copy_one(conf),
            Conf: copy_one(conf),
            Confs: copy_items(confs),
            State: copy_one_with(stream, reason) plain(status, token),
            Asked: copy_one(stream) plain(number),
            Sets: copy_items(tokens) plain(more),
            Published: copy_items(tokens) plain(store_id),
            Standings: copy_items(standings) plain(next),
            Refused: copy_items(tokens) plain(next),
            Figures: copy_items(standings) plain(publications),
            Delivering: copy_one(stream),
            Handed: copy_items(tokens),
        })
    }
}

impl Copied for Answer {
    fn copied(&self, alloc: Global) -> Result<Answer, Memory> {
        self.copy(alloc)
    }
}

impl Same for Answer {
    fn same(&self, other: &Answer) -> bool {
        same_variant!(self, other, Answer {
            Meta, Gone, Added, Removed, NotFound, TooMany, Conflict, Disabled;
            Made { conf ~ stream },
            Conf { conf ~ stream },
            Confs { confs ~ streams },
            State { stream ~ name, status ~ state, reason ~ why, token ~ told },
            Asked { stream ~ name, number ~ place },
            Sets { tokens ~ sent, more == further },
            Published { store_id == store, tokens ~ made },
            Standings { next ~ behind, standings ~ told },
            Refused { next ~ behind, tokens ~ told },
            Figures { publications ~ many, standings ~ told },
            Delivering { stream ~ name },
            Handed { tokens ~ given },
            Settled { count ~ many },
            Early { until ~ later },
            Long { size ~ bytes },
        })
    }
}
