ghost use Rattle.std.specs.Prelude.{◌≡◌, ◌≢◌, Err};
ghost use Rattle.sig_receive.specs.Fetching.{EndsFetch, of_unopened, of_unread};

use sig_fetch::{FetchFault, Fetched};
use sig_json::Text;
use sig_opening::{Unopened, Unread};

/// How a fetch ended.
#[derive(Drop)]
pub enum FetchEnd {
    /// As many rounds were made as were asked for, or the last one listed no token.
    Done(Fetched),
    /// The settings couldn't be opened, or reading them failed. The outside counted it as a fault of the settings.
    SettingsFailed,
    /// What is at this path of the settings is missing or wrong; it is `length` where there are too many bytes, `body` where
    /// they spell no JSON object, and `poll` also where they name no transmitter. No file of the store was opened.
    Refused(Text),
    /// A file of the store isn't there. None was made, and nothing was dialled.
    NoStore,
    /// A file of the store couldn't be opened, or its disk failed. The outside counted it as a fault of the stores.
    StoreFailed,
    /// The bytes of a file of the store, 0 for the first and 1 for the second, are no journal at this offset, or the record
    /// whose gate stands there is none that a receiver takes up. Nothing was dialled.
    Damaged { file: u8, at: u64 },
    /// A dial or a link failed. The outside counted it as a fault of the network.
    NetworkFailed,
    /// The journal would end past 2^62 with a token: here.
    Full(u64),
    /// The transmitter gave no page: it is `http` where the link gave no response (RFC 9112), `status` where the response has
    /// another status than 200, and else the first member of its body that is wrong (RFC 8936, section 2.5).
    Peer(Text),
    /// Out of memory. What was taken until then stays.
    Memory,
}

impl FetchEnd {
    /// The end where no settings were read, for this cause.
    pub fn of_unread(cause: Unread) -> FetchEnd
        ensures { result ≡ of_unread cause }
    {
        match cause {
            Unread::Failed => FetchEnd::SettingsFailed,
            Unread::Refused(member) => FetchEnd::Refused(member),
            Unread::Memory => FetchEnd::Memory,
        }
    }

    /// The end where no node was loaded, for this cause.
    pub fn of_unopened(cause: Unopened) -> FetchEnd
        ensures { result ≡ of_unopened cause }
    {
        match cause {
            Unopened::Missing => FetchEnd::NoStore,
            Unopened::Failed => FetchEnd::StoreFailed,
            Unopened::Damaged { file, at } => FetchEnd::Damaged { file, at },
            Unopened::Memory => FetchEnd::Memory,
        }
    }

    /// The end where the rounds ended so, of a peer that can be reached.
    pub fn of_rounds(fetched: Result<Fetched, FetchFault>) -> FetchEnd
        requires { fetched ≢ Err FetchFault.NoGateway }
        ensures { EndsFetch fetched result }
    {
        match fetched {
            Ok(fetched) => FetchEnd::Done(fetched),
            Err(fault) => match fault {
                FetchFault::NoGateway => unreachable!(),
                FetchFault::Dial | FetchFault::Link => FetchEnd::NetworkFailed,
                FetchFault::Peer(place) => FetchEnd::Peer(place),
                FetchFault::Store => FetchEnd::StoreFailed,
                FetchFault::Full(end) => FetchEnd::Full(end),
                FetchFault::Memory => FetchEnd::Memory,
            },
        }
    }
}
