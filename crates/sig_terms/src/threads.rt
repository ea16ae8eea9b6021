//! The terms move between threads and may be shared by them, which the check of these calls shows.

use crate::{
    Answer, Call, Client, Defaults, Delivery, Endpoint, Fact, Issued, Outcome, PollAsk,
    PrepareFault, RefusedToken, Reported, Rules, SettledItem, Standing, StreamConf, Token, Want,
};
use sig_json::crosses_threads;

fn types_cross() {
    crosses_threads::<Answer>();
    crosses_threads::<Call>();
    crosses_threads::<Client>();
    crosses_threads::<Defaults>();
    crosses_threads::<Delivery>();
    crosses_threads::<Endpoint>();
    crosses_threads::<Fact>();
    crosses_threads::<Issued>();
    crosses_threads::<Outcome>();
    crosses_threads::<PollAsk>();
    crosses_threads::<PrepareFault>();
    crosses_threads::<RefusedToken>();
    crosses_threads::<Reported>();
    crosses_threads::<Rules>();
    crosses_threads::<SettledItem>();
    crosses_threads::<Standing>();
    crosses_threads::<StreamConf>();
    crosses_threads::<Token>();
    crosses_threads::<Want>();
}
