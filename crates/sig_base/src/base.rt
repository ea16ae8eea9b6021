//! What a transmitter's history came to, as plain records.

use sig_event::{News, Status};
use sig_json::{Items, Text};
use sig_subject::Subject;
use sig_terms::{Issued, RefusedToken, StreamConf};

/// How many streams a client ever made.
#[derive(Drop)]
pub struct ClientCount {
    /// The client's name.
    pub client: Text,
    /// How many, those that were deleted among them.
    pub created: u64,
}

/// A token that a stream owes. What else it says is its stream's.
#[derive(Drop)]
pub struct BaseToken {
    /// Its number among the tokens of its stream, from 1 to 2^62.
    pub number: u64,
    /// When it was made, in seconds since 1970.
    pub iat: u64,
    /// What it tells.
    pub news: News,
}

/// A stream that stands, with the tokens that it owes (OpenID Shared Signals Framework 1.0, section 8.1).
pub struct BaseStream {
    /// Its configuration; its name has its client and its number.
    pub conf: StreamConf,
    /// Its status.
    pub status: Status,
    /// Why its status was set.
    pub reason: Option<Text>,
    /// The subjects on its list, in order.
    pub listed: Items<Subject>,
    /// When a verification was last asked for, in seconds since 1970.
    pub asked: Option<u64>,
    /// How many tokens were made for it.
    pub made: u64,
    /// What it owes, in order of number.
    pub owed: Items<BaseToken>,
}

impl Drop for BaseStream {
    fn drop(self) {
        let BaseStream {
            conf,
            status: _,
            reason,
            listed,
            asked: _,
            made: _,
            owed,
        } = self;
        drop(conf);
        drop(reason);
        drop(listed);
        drop(owed);
    }
}

/// A publication, with the tokens that it made.
pub struct BasePublication {
    /// Its own name.
    pub id: Text,
    /// What it said.
    pub news: News,
    /// Its tokens, in order.
    pub tokens: Items<Issued>,
}

impl Drop for BasePublication {
    fn drop(self) {
        let BasePublication { id, news, tokens } = self;
        drop(id);
        drop(news);
        drop(tokens);
    }
}

/// The last tokens that receivers reported as faulty.
#[derive(Drop)]
pub struct BaseRefusals {
    /// How many were left out before them.
    pub before: u64,
    /// Those that are kept, the newest one last.
    pub kept: Items<RefusedToken>,
}

/// What a transmitter's history came to.
pub struct Base {
    /// The clients that ever made a stream.
    pub clients: Items<ClientCount>,
    /// The streams that stand.
    pub streams: Items<BaseStream>,
    /// All that was published, in order.
    pub publications: Items<BasePublication>,
    /// What receivers reported as faulty.
    pub refusals: BaseRefusals,
}

impl Drop for Base {
    fn drop(self) {
        let Base {
            clients,
            streams,
            publications,
            refusals,
        } = self;
        drop(clients);
        drop(streams);
        drop(publications);
        drop(refusals);
    }
}
