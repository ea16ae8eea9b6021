//! The lines of a script.

ghost use Rattle.std.specs.Prelude.{◌≡◌, IfOk, option_and_then, option_map};
ghost use Rattle.sig_script.specs.Script as spec;
ghost use Rattle.sig_script.specs.Bodies.{publication_in, subject_in};
ghost use Rattle.sig_script.specs.Numbers.{number_of};
ghost use Rattle.sig_script.specs.Stopping.{node_of, stopping_of};

use crate::ScriptNode;
use crate::bodies::{publication_in, subject_in};
use crate::calls::{
    add_line, create_line, delete_line, hand_line, operator_line, patch_line, poll_line, put_line,
    remove_line, status_line, verify_line,
};
use crate::cutting::at_first_space;
use crate::line_word::LineWord;
use crate::numbers::number_in;
use crate::stopping::{Stopping, node_in, stopping_in};
use sig_json::limits::SCRIPT_LINE_BYTES;
use sig_json::{Memory, value_named};
use sig_subject::Subject;
use sig_terms::Call;
use std::alloc::Global;
use std::str;

/// What an end does by a line.
#[derive(Drop)]
pub enum ScriptAct {
    /// A line that makes a call at the transmitter: `create`, `patch`, `put`, `delete`, `status`, `operator`, `add`,
    /// `remove`, `verify`, `publish`, `poll` or `hand`.
    Call(
        /// The call.
        Call,
    ),
    /// `deliver <k>`: a message reaches the receiver.
    Deliver {
        /// Which, counted from 1.
        message: u64,
    },
    /// `answer <j>`: an answer of the receiver reaches the transmitter.
    Answer {
        /// Which, counted from 1.
        reply: u64,
    },
}

/// A line of a script.
#[derive(Drop)]
pub enum ScriptLine {
    /// An empty line or a comment: it is passed over.
    Skipped,
    /// `time <n>`: it is another time.
    Time {
        /// In seconds since 1970, at most 2^62.
        time: u64,
    },
    /// A line by which an end acts.
    Act(
        /// What it does.
        ScriptAct,
    ),
    /// `check <json>`: the receiver is asked about a subject.
    Check {
        /// Whom.
        subject: Subject,
    },
    /// `stop <tx or rx> <calls> <byte> <line>`: a node's disk stands still while an end acts, and the node is loaded again.
    Stop {
        /// Whose disk.
        node: ScriptNode,
        /// After how many of its calls, at most four.
        calls: u64,
        /// What it rests with in each byte that isn't synced.
        fill: u8,
        /// What the end does.
        act: ScriptAct,
    },
    /// `crash <tx or rx>`: a node is loaded again.
    Crash {
        /// Which.
        node: ScriptNode,
    },
}

/// The line that bytes are, none exactly where the script's grammar has no such line.
pub fn script_line(alloc: Global, line: &[u8]) -> Result<Option<ScriptLine>, Memory>
    ensures { IfOk result (λ found. found ≡ spec.script_line_of line.now) }
{
    if line.len() > SCRIPT_LINE_BYTES {
        return Ok(None);
    }
    utf8_line(alloc, line)
}

fn utf8_line(alloc: Global, line: &[u8]) -> Result<Option<ScriptLine>, Memory>
    ensures { IfOk result (λ found. found ≡ spec.utf8_line line.now) }
{
    match str::from_utf8(line) {
        Ok(text) => text_line(alloc, text),
        Err(_) => Ok(None),
    }
}

fn text_line(alloc: Global, text: &str) -> Result<Option<ScriptLine>, Memory>
    ensures { IfOk result (λ found. found ≡ spec.text_line text.now) }
{
    if is_comment(text.as_bytes()) {
        return Ok(Some(ScriptLine::Skipped));
    }
    match at_first_space(text) {
        None => Ok(None),
        Some(words) => named_line(alloc, words.word, words.rest),
    }
}

fn is_comment(text: &[u8]) -> bool
    ensures { result ≡ spec.is_comment text.now }
{
    match text.first() {
        None => true,
        Some(first) => *first == b'#',
    }
}

fn named_line(alloc: Global, name: &str, rest: &str) -> Result<Option<ScriptLine>, Memory>
    ensures { IfOk result (λ found. found ≡ spec.named_line (record { word = name.now; rest = rest.now })) }
{
    match value_named(name) {
        None => Ok(None),
        Some(word) => line_by(alloc, word, rest),
    }
}

#[tactic(auto, unfolding(crate::specs::Script::line_by))]
fn line_by(alloc: Global, word: LineWord, rest: &str) -> Result<Option<ScriptLine>, Memory>
    ensures { IfOk result (λ found. found ≡ spec.line_by word rest.now) }
{
    match word {
        LineWord::Time => Ok(time_line(rest)),
        LineWord::Check => check_line(alloc, rest),
        LineWord::Stop => stop_line(alloc, rest),
        LineWord::Crash => Ok(crash_line(rest)),
        LineWord::Create
        | LineWord::Patch
        | LineWord::Put
        | LineWord::Delete
        | LineWord::Status
        | LineWord::Operator
        | LineWord::Add
        | LineWord::Remove
        | LineWord::Verify
        | LineWord::Publish
        | LineWord::Poll
        | LineWord::Hand
        | LineWord::Deliver
        | LineWord::Answer => act_line(alloc, word, rest),
    }
}

fn act_line(alloc: Global, word: LineWord, rest: &str) -> Result<Option<ScriptLine>, Memory>
    ensures { IfOk result (λ found. found ≡ option_map ScriptLine.Act (spec.act_by word rest.now)) }
{
    match act_by(alloc, word, rest)? {
        None => Ok(None),
        Some(act) => Ok(Some(ScriptLine::Act(act))),
    }
}

#[tactic(auto, unfolding(crate::specs::Script::act_by))]
fn act_by(alloc: Global, word: LineWord, rest: &str) -> Result<Option<ScriptAct>, Memory>
    ensures { IfOk result (λ found. found ≡ spec.act_by word rest.now) }
{
    match word {
        LineWord::Create => create_line(alloc, rest),
        LineWord::Patch => patch_line(alloc, rest),
        LineWord::Put => put_line(alloc, rest),
        LineWord::Delete => delete_line(alloc, rest),
        LineWord::Status => status_line(alloc, rest),
        LineWord::Operator => operator_line(alloc, rest),
        LineWord::Add => add_line(alloc, rest),
        LineWord::Remove => remove_line(alloc, rest),
        LineWord::Verify => verify_line(alloc, rest),
        LineWord::Publish => publish_line(alloc, rest),
        LineWord::Poll => poll_line(alloc, rest),
        LineWord::Hand => hand_line(alloc, rest),
        LineWord::Deliver => Ok(deliver_line(rest)),
        LineWord::Answer => Ok(answer_line(rest)),
        LineWord::Time | LineWord::Check | LineWord::Stop | LineWord::Crash => Ok(None),
    }
}

fn time_line(rest: &str) -> Option<ScriptLine>
    ensures { result ≡ option_map ScriptLine.Time (number_of rest.now) }
{
    let time = number_in(rest)?;
    Some(ScriptLine::Time { time })
}

fn deliver_line(rest: &str) -> Option<ScriptAct>
    ensures { result ≡ option_map ScriptAct.Deliver (number_of rest.now) }
{
    let message = number_in(rest)?;
    Some(ScriptAct::Deliver { message })
}

fn answer_line(rest: &str) -> Option<ScriptAct>
    ensures { result ≡ option_map ScriptAct.Answer (number_of rest.now) }
{
    let reply = number_in(rest)?;
    Some(ScriptAct::Answer { reply })
}

fn publish_line(alloc: Global, rest: &str) -> Result<Option<ScriptAct>, Memory>
    ensures { IfOk result (λ found. found ≡ option_map ScriptAct.Call (publication_in rest.now)) }
{
    match publication_in(alloc, rest)? {
        None => Ok(None),
        Some(call) => Ok(Some(ScriptAct::Call(call))),
    }
}

fn check_line(alloc: Global, rest: &str) -> Result<Option<ScriptLine>, Memory>
    ensures { IfOk result (λ found. found ≡ option_map ScriptLine.Check (subject_in rest.now)) }
{
    match subject_in(alloc, rest)? {
        None => Ok(None),
        Some(subject) => Ok(Some(ScriptLine::Check { subject })),
    }
}

fn crash_line(rest: &str) -> Option<ScriptLine>
    ensures { result ≡ option_map ScriptLine.Crash (node_of rest.now) }
{
    let node = node_in(rest)?;
    Some(ScriptLine::Crash { node })
}

fn stop_line(alloc: Global, rest: &str) -> Result<Option<ScriptLine>, Memory>
    ensures { IfOk result (λ found. found ≡ option_and_then spec.stop_line (stopping_of rest.now)) }
{
    match stopping_in(rest) {
        None => Ok(None),
        Some(stopping) => stopped_line(alloc, &stopping),
    }
}

fn stopped_line(alloc: Global, stopping: &Stopping<'_>) -> Result<Option<ScriptLine>, Memory>
    ensures { IfOk result (λ found. found ≡ spec.stop_line (record { node = stopping.now.node; calls = stopping.now.calls; fill = stopping.now.fill; line = stopping.now.line.now })) }
{
    match act_in(alloc, stopping.line)? {
        None => Ok(None),
        Some(act) => Ok(Some(ScriptLine::Stop {
            node: stopping.node,
            calls: stopping.calls,
            fill: stopping.fill,
            act,
        })),
    }
}

// The act that a text is.
#[tactic(auto, unfolding(crate::specs::Script::act_of))]
fn act_in(alloc: Global, text: &str) -> Result<Option<ScriptAct>, Memory>
    ensures { IfOk result (λ found. found ≡ spec.act_of text.now) }
{
    match at_first_space(text) {
        None => Ok(None),
        Some(words) => named_act(alloc, words.word, words.rest),
    }
}

fn named_act(alloc: Global, name: &str, rest: &str) -> Result<Option<ScriptAct>, Memory>
    ensures { IfOk result (λ found. found ≡ spec.named_act (record { word = name.now; rest = rest.now })) }
{
    match value_named(name) {
        None => Ok(None),
        Some(word) => act_by(alloc, word, rest),
    }
}
