ghost use Rattle.std.specs.Prelude.{◌≡◌, IfOk};

use crate::Want;
use crate::comparing::{same_member, same_variant};
use crate::copying::{copy_one, copy_one_with, copy_three, copy_two, copy_two_with, copy_variant};
use sig_event::{News, Status};
use sig_json::{Copied, Items, Memory, Same, Text, copy_items};
use sig_subject::Subject;
use std::alloc::Global;

/// A call at the transmitter.
pub enum Call {
    /// Somebody reads what the transmitter offers (Shared Signals Framework 1.0, section 7.1).
    Metadata,
    /// A client makes a stream (Shared Signals Framework 1.0, section 8.1.1.1).
    Create {
        /// The client's name.
        client: Text,
        /// What it wants of the stream.
        want: Want,
    },
    /// A client reads the configurations of all its streams (section 8.1.1.2).
    ReadAll {
        /// The client's name.
        client: Text,
    },
    /// A client reads the configuration of a stream (section 8.1.1.2).
    Read {
        /// The client's name.
        client: Text,
        /// The name of the stream.
        stream: Text,
    },
    /// A client changes a part of the configuration of a stream (section 8.1.1.3).
    Patch {
        /// The client's name.
        client: Text,
        /// The name of the stream.
        stream: Text,
        /// What it wants changed; what isn't there stays.
        want: Want,
    },
    /// A client replaces the configuration of a stream (section 8.1.1.4).
    Put {
        /// The client's name.
        client: Text,
        /// The name of the stream.
        stream: Text,
        /// What it wants; what isn't there takes the default.
        want: Want,
    },
    /// A client deletes a stream (section 8.1.1.5).
    Delete {
        /// The client's name.
        client: Text,
        /// The name of the stream.
        stream: Text,
    },
    /// A client reads the status of a stream (section 8.1.2.1).
    GetStatus {
        /// The client's name.
        client: Text,
        /// The name of the stream.
        stream: Text,
    },
    /// A client sets the status of a stream (section 8.1.2.2).
    SetStatus {
        /// The client's name.
        client: Text,
        /// The name of the stream.
        stream: Text,
        /// The status to set.
        status: Status,
        /// Why.
        reason: Option<Text>,
    },
    /// A client adds a subject to a stream (section 8.1.3.2).
    Add {
        /// The client's name.
        client: Text,
        /// The name of the stream.
        stream: Text,
        /// Whom.
        subject: Subject,
    },
    /// A client removes a subject from a stream (section 8.1.3.3).
    Remove {
        /// The client's name.
        client: Text,
        /// The name of the stream.
        stream: Text,
        /// Whom.
        subject: Subject,
    },
    /// A client asks for a verification of a stream (section 8.1.4.2).
    Verify {
        /// The client's name.
        client: Text,
        /// The name of the stream.
        stream: Text,
        /// What is to be sent back.
        state: Option<Text>,
    },
    /// A client asks for tokens, and tells what became of earlier ones (RFC 8936, section 2).
    Poll {
        /// The client's name.
        client: Text,
        /// The name of the stream.
        stream: Text,
        /// What it asks and tells.
        ask: PollAsk,
    },
    /// The operator says what happened to a subject, once for all streams.
    Publish {
        /// The publication's own name; under it the same publication comes again.
        id: Text,
        /// What happened, and to whom.
        news: News,
    },
    /// The operator sets the status of a stream, and its receiver is told (Shared Signals Framework 1.0, section 8.1.5).
    OperatorStatus {
        /// The name of the stream.
        stream: Text,
        /// The status to set.
        status: Status,
        /// Why.
        reason: Option<Text>,
    },
    /// The operator deletes a stream of any client, configured or not.
    OperatorDelete {
        /// The name of the stream.
        stream: Text,
    },
    /// The operator reads how streams of all clients stand, a page at a time.
    Streams {
        /// The place of the first one among all streams, in order of client name and number, from 0.
        from: u64,
    },
    /// The operator reads which tokens receivers reported as faulty, a page at a time (RFC 8935,
    /// section 2.3; RFC 8936, section 2.4).
    Refused {
        /// The place of the first one among all that were ever reported, in order, from 0.
        from: u64,
    },
    /// The operator reads the figures of the whole transmitter.
    Figures,
    /// The operator asks for a round of pushes of a stream.
    Deliver {
        /// The name of the stream.
        stream: Text,
    },
    /// A round of pushes asks for the tokens that push streams offer (RFC 8935, section 2).
    Hand {
        /// The names of the streams.
        streams: Items<Text>,
    },
    /// The answer to a token that was brought to its receiver (RFC 8935, section 2).
    Settle {
        /// The name of the stream.
        stream: Text,
        /// The number of the token.
        number: u64,
        /// What became of it.
        outcome: Outcome,
    },
}

impl Drop for Call {
    fn drop(self) {
        match self {
            Call::Metadata => {}
            Call::Create { client, want } => {
                drop(client);
                drop(want);
            }
            Call::ReadAll { client } => drop(client),
            Call::Read { client, stream } => {
                drop(client);
                drop(stream);
            }
            Call::Patch {
                client,
                stream,
                want,
            } => {
                drop(client);
                drop(stream);
                drop(want);
            }
            Call::Put {
                client,
                stream,
                want,
            } => {
                drop(client);
                drop(stream);
                drop(want);
            }
            Call::Delete { client, stream } => {
                drop(client);
                drop(stream);
            }
            Call::GetStatus { client, stream } => {
                drop(client);
                drop(stream);
            }
            Call::SetStatus {
                client,
                stream,
                status: _,
                reason,
            } => {
                drop(client);
                drop(stream);
                drop(reason);
            }
            Call::Add {
                client,
                stream,
                subject,
            } => {
                drop(client);
                drop(stream);
                drop(subject);
            }
            Call::Remove {
                client,
                stream,
                subject,
            } => {
                drop(client);
                drop(stream);
                drop(subject);
            }
            Call::Verify {
                client,
                stream,
                state,
            } => {
                drop(client);
                drop(stream);
                drop(state);
            }
            Call::Poll {
                client,
                stream,
                ask,
            } => {
                drop(client);
                drop(stream);
                drop(ask);
            }
            Call::Publish { id, news } => {
                drop(id);
                drop(news);
            }
            Call::OperatorStatus {
                stream,
                status: _,
                reason,
            } => {
                drop(stream);
                drop(reason);
            }
            Call::OperatorDelete { stream } => drop(stream),
            Call::Streams { from: _ } | Call::Refused { from: _ } | Call::Figures => {}
            Call::Deliver { stream } => drop(stream),
            Call::Hand { streams } => drop(streams),
            Call::Settle {
                stream,
                number: _,
                outcome,
            } => {
                drop(stream);
                drop(outcome);
            }
        }
    }
}

/// What a poll asks and tells (RFC 8936, section 2.4).
#[derive(Drop)]
pub struct PollAsk {
    /// How many tokens it takes at most; none given takes as many as a page has.
    pub max: Option<u64>,
    /// The identifiers of tokens that it has taken.
    pub acks: Items<Text>,
    /// The tokens that it refuses.
    pub errors: Items<Reported>,
}

/// A token that a receiver refuses (RFC 8936, section 2.6).
#[derive(Drop)]
pub struct Reported {
    /// The token's identifier.
    pub jti: Text,
    /// Why.
    pub code: Text,
}

/// What became of a token that was brought to its receiver.
#[derive(Drop)]
pub enum Outcome {
    /// It was taken.
    Accepted,
    /// It was refused as faulty, and is owed no more.
    Reported {
        /// Why.
        code: Text,
    },
    /// Nothing that settles it; it is still owed.
    Keep,
}

impl Call {
    /// An equal call.
    pub fn copy(&self, alloc: Global) -> Result<Call, Memory>
        ensures { IfOk result (λ c. c ≡ self.now) }
    {
        copy_variant!(self, alloc, Call {
            Metadata, Figures;
            Streams { from }, Refused { from };
            Create: copy_two(client, want),
            ReadAll: copy_one(client),
            Read: copy_two(client, stream),
            Patch: copy_three(client, stream, want),
            Put: copy_three(client, stream, want),
            Delete: copy_two(client, stream),
            GetStatus: copy_two(client, stream),
            SetStatus: copy_two_with(client, stream, reason) plain(status),
            Add: copy_three(client, stream, subject),
            Remove: copy_three(client, stream, subject),
            Verify: copy_two_with(client, stream, state),
            Poll: copy_three(client, stream, ask),
            Publish: copy_two(id, news),
            OperatorStatus: copy_one_with(stream, reason) plain(status),
            OperatorDelete: copy_one(stream),
            Deliver: copy_one(stream),
            Hand: copy_items(streams),
            Settle: copy_two(stream, outcome) plain(number),
        })
    }
}

impl Copied for Call {
    fn copied(&self, alloc: Global) -> Result<Call, Memory> {
        self.copy(alloc)
    }
}

impl Same for Call {
    fn same(&self, other: &Call) -> bool {
        same_variant!(self, other, Call {
            Metadata, Figures;
            Create { client ~ who, want ~ wish },
            ReadAll { client ~ who },
            Read { client ~ who, stream ~ name },
            Patch { client ~ who, stream ~ name, want ~ wish },
            Put { client ~ who, stream ~ name, want ~ wish },
            Delete { client ~ who, stream ~ name },
            GetStatus { client ~ who, stream ~ name },
            SetStatus { client ~ who, stream ~ name, status ~ state, reason ~ why },
            Add { client ~ who, stream ~ name, subject ~ whom },
            Remove { client ~ who, stream ~ name, subject ~ whom },
            Verify { client ~ who, stream ~ name, state ~ sent_back },
            Poll { client ~ who, stream ~ name, ask ~ asked },
            Publish { id ~ name, news ~ what },
            OperatorStatus { stream ~ name, status ~ state, reason ~ why },
            OperatorDelete { stream ~ name },
            Streams { from ~ place },
            Refused { from ~ place },
            Deliver { stream ~ name },
            Hand { streams ~ names },
            Settle { stream ~ name, number ~ place, outcome ~ end },
        })
    }
}

impl PollAsk {
    /// An equal one.
    pub fn copy(&self, alloc: Global) -> Result<PollAsk, Memory>
        ensures { IfOk result (λ a. a ≡ self.now) }
    {
        Ok(PollAsk {
            max: self.max,
            acks: copy_items(alloc, &self.acks)?,
            errors: copy_items(alloc, &self.errors)?,
        })
    }
}

impl Copied for PollAsk {
    fn copied(&self, alloc: Global) -> Result<PollAsk, Memory> {
        self.copy(alloc)
    }
}

impl Same for PollAsk {
    fn same(&self, other: &PollAsk) -> bool {
        self.max.same(&other.max) && self.acks.same(&other.acks) && self.errors.same(&other.errors)
    }
}

impl Reported {
    /// An equal one.
    pub fn copy(&self, alloc: Global) -> Result<Reported, Memory>
        ensures { IfOk result (λ r. r ≡ self.now) }
    {
        Ok(Reported {
            jti: self.jti.copy(alloc)?,
            code: self.code.copy(alloc)?,
        })
    }
}

impl Copied for Reported {
    fn copied(&self, alloc: Global) -> Result<Reported, Memory> {
        self.copy(alloc)
    }
}

impl Same for Reported {
    fn same(&self, other: &Reported) -> bool {
        self.jti.same(&other.jti) && self.code.same(&other.code)
    }
}

impl Outcome {
    /// An equal one.
    pub fn copy(&self, alloc: Global) -> Result<Outcome, Memory>
        ensures { IfOk result (λ o. o ≡ self.now) }
    {
        copy_variant!(self, alloc, Outcome {
            Accepted, Keep;;
            Reported: copy_one(code),
        })
    }
}

impl Copied for Outcome {
    fn copied(&self, alloc: Global) -> Result<Outcome, Memory> {
        self.copy(alloc)
    }
}

impl Same for Outcome {
    fn same(&self, other: &Outcome) -> bool {
        same_variant!(self, other, Outcome {
            Accepted, Keep;
            Reported { code ~ why },
        })
    }
}
