ghost use Rattle.std.specs.Prelude.{◌≡◌, ◌≤◌, IfOk, map};
ghost use Rattle.sig_json.specs.declared.limits.TheConstants.{LAST_NUMBER};
ghost use Rattle.sig_txend.specs.Counting.{IsCountedAt, standing_in};

use crate::counting::{count_pushes, put_counted};
use sig_counts::Counts;
use sig_courier::{Attempt, Schedule};
use sig_dispatch::Dispatch;
use sig_json::limits::LAST_NUMBER;
use sig_json::{Memory, Text};
use sig_round::{is_brought, settled_one};
use sig_terms::{Answer, Standing};
use sig_txnode::Turn;
use sig_txroutes::{Pushed, ToldStream};
use std::alloc::Global;

/// What an errand of a transmitter does next.
#[derive(Drop)]
pub enum Task {
    /// It asks for the push streams of all clients.
    List,
    /// It tries this push stream.
    Try { stream: Text },
}

/// What the links and errands of a transmitter know together, watch after watch: which push streams may owe something, which
/// are being tried, and when those are due again that could not be reached (RFC 8935, section 2.4).
#[derive(Drop)]
pub struct Company {
    alloc: Global,
    dispatch: Dispatch,
    // The time at which it was last asked for an errand, in seconds since 1970.
    now: u64,
    // Of which streams the operator asked for a round that has not begun.
    asked: Vec<Text>,
    // What the errands do first that were begun and have not asked yet.
    begun: Vec<Task>,
    counts: Counts,
}

impl Company {
    /// Nothing is known: all push streams are listed first.
    pub fn new(alloc: Global) -> Company {
        Company {
            alloc,
            dispatch: Dispatch::new(alloc),
            now: 0,
            asked: Vec::new(alloc),
            begun: Vec::new(alloc),
            counts: Counts::new(alloc),
        }
    }

    /// Whether an errand is to be begun at this time, in seconds since 1970. What it does first is kept for it.
    pub fn begins_errand(&mut self, now: u64) -> bool {
        self.now = now;
        self.counts.tick(now);
        if !self.dispatch.claims_at(now) || self.begun.reserve(1).is_err() {
            return false;
        }
        match claimed(&mut self.dispatch, now) {
            Some(task) => {
                self.begun.push_reserved(task);
                true
            }
            None => false,
        }
    }

    /// What an errand does next, at this time.
    pub fn next(&mut self, now: u64) -> Option<Task> {
        match self.begun.pop() {
            Some(task) => Some(task),
            None => claimed(&mut self.dispatch, now),
        }
    }

    /// A listing came to these streams; not to all, where it wasn't whole.
    pub fn listed(&mut self, streams: &[Text], whole: bool) {
        for stream in streams {
            self.dispatch.tell(stream);
        }
        self.dispatch.end_listing(whole);
    }

    /// An errand tried a stream so, by these turns; it may owe more. Where it offered nothing, there was no attempt. Answers
    /// how many tokens it was brought, where it was late until now and is no more.
    pub fn tried(&mut self, attempt: &Attempt, turns: &[Turn], more: bool) -> Option<u64>
        requires { attempt.now.at ≤ LAST_NUMBER }
    {
        count_pushes(&mut self.counts, turns);
        let was_late = self.is_late(&attempt.stream);
        if attempt.tokens > 0 {
            self.dispatch.note(attempt);
        }
        self.dispatch.release(&attempt.stream, more);
        (was_late && attempt.good).then_some(attempt.tokens)
    }

    // Whether the last attempt of a stream was late.
    fn is_late(&self, stream: &Text) -> bool {
        self.dispatch.schedule().due_at(stream) > 0
    }

    /// A stream may owe something.
    pub fn tell(&mut self, stream: &Text) {
        self.dispatch.tell(stream);
    }

    /// The operator asks for a round of this stream, also where it is late. Where memory is refused, a late stream waits.
    pub fn ask(&mut self, stream: &Text) {
        if let Ok(name) = stream.copy(self.alloc) {
            let _ = self.asked.push(name);
        }
    }

    // Whether the operator asked for a round of this stream, which begins now.
    fn was_asked(&mut self, stream: &Text) -> bool {
        for i in 0..self.asked.len() {
            if self.asked[i] == *stream {
                drop(self.asked.swap_remove(i));
                return true;
            }
        }
        false
    }

    /// Whether a push round of this stream begins: not where it is being tried, nor where it is late and isn't due again,
    /// unless the operator asked for it. Then it is tried later.
    pub fn begins_round(&mut self, stream: &Text) -> bool {
        if self.was_asked(stream) || self.dispatch.is_due(stream, self.now) {
            return self.dispatch.begin_round(stream);
        }
        self.dispatch.tell(stream);
        false
    }

    /// A push round of this stream came to these turns. Where each token that it was handed was settled, the stream is late no
    /// more. Answers how many they are, where it was late until now.
    pub fn ended_round(&mut self, stream: &Text, turns: &[Turn]) -> Option<u64> {
        count_pushes(&mut self.counts, turns);
        let was_late = self.is_late(stream);
        let tokens = settled_by(turns);
        if tokens > 0 {
            self.note_good(stream, tokens);
        }
        self.dispatch.release(stream, !is_brought(turns));
        (was_late && tokens > 0).then_some(tokens)
    }

    // Notes that a stream was brought so many tokens. Where memory is refused it isn't noted, and a late stream stays late.
    fn note_good(&mut self, stream: &Text, tokens: u64) {
        if let Ok(stream) = stream.copy(self.alloc) {
            self.dispatch.note(&Attempt {
                stream,
                at: self.now.min(LAST_NUMBER),
                tokens,
                good: true,
            });
        }
    }

    /// What was counted, to count more.
    pub fn counts(&mut self) -> &mut Counts {
        &mut self.counts
    }

    /// These streams with what came of the attempts to bring them their tokens. Out of memory is the only error.
    pub fn told_streams(
        &self,
        alloc: Global,
        standings: &[Standing],
    ) -> Result<Vec<ToldStream>, Memory>
        ensures { IfOk result (λ streams. map standing_in streams.items ≡ standings.now) }
    {
        let mut streams = Vec::new(alloc);
        for standing in standings {
            let push = pushed(self.dispatch.schedule(), &standing.stream);
            let standing = standing.copy(alloc)?;
            streams.push(ToldStream { standing, push })?;
        }
        Ok(streams)
    }

    /// What was counted, as metrics, beside this many records and bytes of the journal. Out of
    /// memory is the only error.
    pub fn counted(&self, alloc: Global, records: u64, bytes: u64) -> Result<Text, Memory>
        ensures { IfOk result (IsCountedAt records bytes) }
    {
        let mut text = String::new(alloc);
        let lates = self.dispatch.schedule().lates();
        put_counted(&mut text, &self.counts, records, bytes, lates)?;
        Ok(Text::from_string(text))
    }

    /// A stream is tried no more; it may owe more.
    pub fn release(&mut self, stream: &Text, more: bool) {
        self.dispatch.release(stream, more);
    }
}

// What came of the attempts to bring a stream its tokens, where there was one.
fn pushed(schedule: &Schedule, stream: &Text) -> Option<Pushed> {
    match schedule.lates().get(stream) {
        Some(late) if late.at > 0 => Some(Pushed {
            at: late.at,
            late: late.row,
            due: late.due,
        }),
        _ => None,
    }
}

// What an errand may do at this time.
fn claimed(dispatch: &mut Dispatch, now: u64) -> Option<Task> {
    if dispatch.begin_listing() {
        return Some(Task::List);
    }
    let stream = dispatch.claim(now)?;
    Some(Task::Try { stream })
}

// How many tokens a push round of these turns was handed, where each of them was settled; else 0.
fn settled_by(turns: &[Turn]) -> u64 {
    let Some((hand, settles)) = turns.split_first() else {
        return 0;
    };
    match &hand.result {
        Ok(Answer::Handed { tokens }) if tokens.as_slice().len() == settles.len() => {
            if settles.iter().all(|turn| settled_one(turn)) {
                settles.len() as u64
            } else {
                0
            }
        }
        _ => 0,
    }
}
