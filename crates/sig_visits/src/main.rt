//! The program `sig_visits`: visits of links at a receiver, and what it fetches, over links in memory, by lines of text (RFC
//! 8935, section 2; RFC 8936, section 2).
//!
//!     line -> bytes of a link     -> `sig_link::serve_link` -> how it ends, and the bytes written to it
//!          -> bytes of responses  -> `sig_fetch::fetch`       -> what was fetched, and the bytes sent for each
//!
//! It is no part of the product. It says byte for byte what a script over sockets says by statuses. Its words are
//!
//!     settings <json>                a receiver by these settings, over an empty store
//!     link <bytes>                   one link that gives these bytes
//!     fetch <rounds> <bytes> ..      so many rounds at most, over dialled links that give these bytes
//!
//! Bytes stand as base64url, `-` for none. Between two lines the node is taken apart and loaded again from its two files.
//!
//! Promised: it returns, and each status but 0 has its cause. Its input and expected output are made by
//! `tools/generate.py`, and never by this program.
#![tactic(auto)]

mod store;
mod telling;
mod visits;

use crate::visits::Visits;
use sig_lines::run;
use sig_system::{ReaderSource, WriterSink};
use std::process::ExitCode;

fn main(rt: HostRuntime) -> ExitCode {
    let mut input = ReaderSource::new(rt.stdin());
    let mut output = WriterSink::new(rt.stdout());
    let mut visits = Visits::new(rt.alloc(), &rt);
    ExitCode::from(run(rt.alloc(), &mut visits, &mut input, &mut output))
}
