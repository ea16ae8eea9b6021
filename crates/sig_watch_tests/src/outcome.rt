//! What a watch came to.

use sig_json::Bytes;
use sig_watch::{Report, WatchEnd};

/// The node of a watch, and the report of one that is done.
pub fn outcome_of<N>(end: WatchEnd<N>) -> (N, Option<Report>) {
    match end {
        WatchEnd::Done { node, report } => (node, Some(report)),
        WatchEnd::DoorFault { node, report: _ } => (node, None),
        WatchEnd::Broken { node, report: _ } => (node, None),
        WatchEnd::Halted { node, report: _ } => (node, None),
        WatchEnd::Disagree {
            node,
            differ: _,
            report: _,
        } => (node, None),
        WatchEnd::Memory { node } => (node, None),
    }
}

/// Whether an answer has both texts.
pub fn has_texts(answers: &[Bytes], one: &str, two: &str) -> bool {
    answers.iter().any(|answer| {
        str::from_utf8(answer.as_slice()).is_ok_and(|said| said.contains(one) && said.contains(two))
    })
}

/// Whether each of the answers has a status of success.
pub fn all_succeed(answers: &[Bytes]) -> bool {
    answers
        .iter()
        .all(|answer| answer.as_slice().starts_with(b"HTTP/1.1 20"))
}
