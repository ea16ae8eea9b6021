//! Both nodes under a script's lines.

ghost use Rattle.std.specs.Prelude.{◌≡◌, option_map};
ghost use Rattle.sig_schedules.specs.Replay.{counted_at};
ghost use Rattle.sig_sessions.specs.declared.verdict.Verdict.{Verdict as Told};

use crate::ending::{print_owed, print_received};
use crate::hearer::{ask_rx, reload_rx};
use crate::replay_text::{add_loaded, add_time, add_verdict};
use crate::reply::Reply;
use crate::sender::reload_tx;
use crate::settings::{RECEIVER_STORE_ID, STORE_ID, receiver_rules, replay_rules};
use sig_command::{LinesEnd, Stop, TellFault, Teller};
use sig_json::limits::SCRIPT_LINE_BYTES;
use sig_json::{Bytes, Memory};
use sig_nodes::{new_rx, new_tx};
use sig_outside::Sink;
use sig_rxnode::{RxAnswer, RxCall, RxNode};
use sig_script::{ScriptAct, ScriptLine, ScriptNode, script_line};
use sig_sessions::Verdict;
use sig_still::StillDisk;
use sig_subject::Subject;
use sig_terms::{Rules, Token};
use sig_txnode::TxNode;
use std::alloc::Global;

/// A transmitter's node and a receiver's, the messages between them, the answers to these, and the time. A node is missing
/// once memory ran out as it was loaded again.
pub struct Replayer {
    pub(crate) alloc: Global,
    pub(crate) rules: Rules,
    pub(crate) tx: Option<TxNode<StillDisk>>,
    pub(crate) rx: Option<RxNode<StillDisk>>,
    pub(crate) messages: Vec<Token>,
    pub(crate) replies: Vec<Reply>,
    pub(crate) time: u64,
}

/// How a node's disk stands still: after how many of its calls, at most four, and what it rests with in each byte that isn't
/// synced.
#[derive(Clone, Copy)]
pub(crate) struct Halt {
    pub(crate) calls: u64,
    pub(crate) fill: u8,
}

impl Teller for Replayer {
    ghost use Rattle.sig_json.specs.declared.limits.TheConstants.{SCRIPT_LINE_BYTES};
    ghost use Rattle.sig_schedules.specs.Replay.{replay_telling};
    ghost use Rattle.sig_schedules.specs.ReplayLaws.{script_grows, script_stays};
    ghost use Rattle.sig_world.specs.Replaying.{StandsAt};
    ghost use Rattle.std.specs.Prelude.{refl};

    ghost told = { λ r. replay_telling };

    ghost stands = { StandsAt };

    ghost room = { SCRIPT_LINE_BYTES };

    fn room() -> usize {
        SCRIPT_LINE_BYTES
    }

    fn tell(
        &mut self,
        number: u64,
        line: Option<&[u8]>,
        gathered: &mut Bytes,
    ) -> Result<(), TellFault> {
        let Some(bytes) = line else {
            return Err(refused(number));
        };
        let mut text = Bytes::new(self.alloc);
        match self.play(number, bytes, &mut text) {
            Ok(()) => {
                gathered.add(text.as_slice())?;
                Ok(())
            }
            Err(fault) => Err(fault),
        }
    }

    fn close<O: Sink>(&self, gathered: &mut Bytes, output: &mut O) -> LinesEnd {
        match print_received(self.alloc, &self.rx, gathered, output) {
            LinesEnd::Done => print_owed(self.alloc, &self.tx, output),
            ending => ending,
        }
    }

    ghost starts = { λ r. (refl, refl) };

    ghost grows = { λ r. script_grows };

    ghost stays = { λ r. script_stays };
}

impl Replayer {
    ghost use Rattle.std.specs.Prelude.{◌≡◌, ◌≤◌, ℕ, List, IfErr, IfOk, OnOk, Option};
    ghost use Rattle.sig_journal.specs.Added.{rests_with_it};
    ghost use Rattle.sig_json.specs.declared.limits.TheConstants.{LAST_NUMBER};
    ghost use Rattle.sig_law.specs.World.{World, new_world};
    ghost use Rattle.sig_schedules.specs.Replay.{played, played_act, played_check, played_crash, played_line, played_time, stopped_act};
    ghost use Rattle.sig_script.specs.Laws.{IsProperLine, IsProperScriptAct};
    ghost use Rattle.sig_world.specs.Replaying.{Goes, GoesNot, IsAt};

    /// Both nodes over new stores, at time 0, with the settings of scripts.
    pub fn new(alloc: Global) -> Result<Replayer, Memory>
        ensures { IfOk result (λ r. IsAt r new_world) }
    {
        let rules = replay_rules(alloc)?;
        let settings = receiver_rules(alloc)?;
        let tx = new_tx(alloc, replay_rules(alloc)?, STORE_ID)?;
        match new_rx(alloc, settings, RECEIVER_STORE_ID) {
            Ok(rx) => Ok(Replayer {
                alloc,
                rules,
                tx: Some(tx),
                rx: Some(rx),
                messages: Vec::new(alloc),
                replies: Vec::new(alloc),
                time: 0,
            }),
            Err(Memory) => {
                let (_, _) = tx.into_disks();
                Err(Memory)
            }
        }
    }

    /// Both stores are let go.
    pub fn end(self) {
        let Replayer {
            alloc: _,
            rules: _,
            tx,
            rx,
            messages: _,
            replies: _,
            time: _,
        } = self;
        if let Some(tx) = tx {
            let (_, _) = tx.into_disks();
        }
        if let Some(rx) = rx {
            let (_, _) = rx.into_disks();
        }
    }

    /// Plays the line of a number, and adds what it prints.
    pub(crate) fn play(
        &mut self,
        number: u64,
        bytes: &[u8],
        text: &mut Bytes,
    ) -> Result<(), TellFault>
        requires { (world : World) × IsAt self.old world }
        ensures plays { OnOk result ((world : World) → IsAt self.old world → Goes (played number world bytes.now) self.new text.old text.new) }
        ensures stops { IfErr result (λ fault. (world : World) → IsAt self.old world → GoesNot (played number world bytes.now) fault) }
    {
        match script_line(self.alloc, bytes) {
            Ok(Some(line)) => self.play_owned(number, line, text),
            Ok(None) => Err(refused(number)),
            Err(Memory) => Err(TellFault::Memory),
        }
    }

    // The line is dropped by itself, so that this function has no part of its many kinds.
    fn play_owned(
        &mut self,
        number: u64,
        line: ScriptLine,
        text: &mut Bytes,
    ) -> Result<(), TellFault>
        requires stands { (world : World) × IsAt self.old world }
        requires proper { IsProperLine line }
        ensures plays { OnOk result ((world : World) → IsAt self.old world → Goes (played_line number world line) self.new text.old text.new) }
        ensures stops { IfErr result (λ fault. (world : World) → IsAt self.old world → GoesNot (played_line number world line) fault) }
    {
        let done = self.play_line(number, &line, text);
        drop(line);
        done
    }

    fn play_line(
        &mut self,
        number: u64,
        line: &ScriptLine,
        text: &mut Bytes,
    ) -> Result<(), TellFault>
        requires stands { (world : World) × IsAt self.old world }
        requires proper { IsProperLine line.now }
        ensures plays { OnOk result ((world : World) → IsAt self.old world → Goes (played_line number world line.now) self.new text.old text.new) }
        ensures stops { IfErr result (λ fault. (world : World) → IsAt self.old world → GoesNot (played_line number world line.now) fault) }
    {
        match line {
            ScriptLine::Skipped => Ok(()),
            ScriptLine::Time { time } => Ok(self.pass(number, *time, text)?),
            ScriptLine::Act(act) => self.act(number, act, text),
            ScriptLine::Check { subject } => self.check(number, subject, text),
            ScriptLine::Stop {
                node,
                calls,
                fill,
                act,
            } => {
                let halt = Halt {
                    calls: *calls,
                    fill: *fill,
                };
                self.halt(number, *node, halt, act, text)
            }
            ScriptLine::Crash { node } => Ok(self.crash(number, *node, text)?),
        }
    }

    // An end acts.
    pub(crate) fn act(
        &mut self,
        number: u64,
        act: &ScriptAct,
        text: &mut Bytes,
    ) -> Result<(), TellFault>
        requires stands { (world : World) × IsAt self.old world }
        requires proper { IsProperScriptAct act.now }
        ensures plays { OnOk result ((world : World) → IsAt self.old world → Goes (played_act number world act.now) self.new text.old text.new) }
        ensures stops { IfErr result (λ fault. (world : World) → IsAt self.old world → GoesNot (played_act number world act.now) fault) }
    {
        match act {
            ScriptAct::Call(call) => self.call(number, call, text),
            ScriptAct::Deliver { message } => self.deliver(number, *message, text),
            ScriptAct::Answer { reply } => self.answer(number, *reply, text),
        }
    }

    // An end acts while a node's disk stands still.
    fn halt(
        &mut self,
        number: u64,
        node: ScriptNode,
        halt: Halt,
        act: &ScriptAct,
        text: &mut Bytes,
    ) -> Result<(), TellFault>
        requires stands { (world : World) × IsAt self.old world }
        requires proper { IsProperScriptAct act.now }
        requires calls { halt.calls ≤ 4 }
        ensures plays { OnOk result ((world : World) → IsAt self.old world → Goes (stopped_act number world node (rests_with_it halt.calls halt.fill) act.now) self.new text.old text.new) }
        ensures stops { IfErr result (λ fault. (world : World) → IsAt self.old world → GoesNot (stopped_act number world node (rests_with_it halt.calls halt.fill) act.now) fault) }
    {
        match node {
            ScriptNode::Tx => match act {
                ScriptAct::Call(call) => self.halt_call(number, call, halt, text),
                ScriptAct::Deliver { message } => self.deliver(number, *message, text),
                ScriptAct::Answer { reply } => self.halt_answer(number, *reply, halt, text),
            },
            ScriptNode::Rx => match act {
                ScriptAct::Call(call) => self.call(number, call, text),
                ScriptAct::Deliver { message } => {
                    self.halt_delivery(number, *message, halt, text)
                }
                ScriptAct::Answer { reply } => self.answer(number, *reply, text),
            },
        }
    }

    // It is another time.
    fn pass(&mut self, number: u64, time: u64, text: &mut Bytes) -> Result<(), Memory>
        requires { time ≤ LAST_NUMBER }
        ensures { OnOk result ((world : World) → IsAt self.old world → Goes (played_time number world time) self.new text.old text.new) }
    {
        add_time(self.alloc, text, number, time)?;
        self.time = time;
        Ok(())
    }

    // A node is loaded again.
    fn crash(&mut self, number: u64, node: ScriptNode, text: &mut Bytes) -> Result<(), Memory>
        ensures { OnOk result ((world : World) → IsAt self.old world → Goes (played_crash number world) self.new text.old text.new) }
    {
        match node {
            ScriptNode::Tx => reload_tx(self.alloc, &mut self.tx)?,
            ScriptNode::Rx => reload_rx(self.alloc, &mut self.rx)?,
        }
        add_loaded(self.alloc, text, number)
    }

    // The receiver is asked about a subject.
    fn check(&mut self, number: u64, subject: &Subject, text: &mut Bytes) -> Result<(), TellFault>
        ensures plays { OnOk result ((world : World) → IsAt self.old world → Goes (played_check number world subject.now) self.new text.old text.new) }
        ensures stops { IfErr result (λ fault. (world : World) → IsAt self.old world → GoesNot (played_check number world subject.now) fault) }
    {
        let call = RxCall::Verdict {
            subject: subject.copy(self.alloc)?,
        };
        let told = ask_rx(&mut self.rx, &call);
        drop(call);
        match verdict_in(told?) {
            Some(verdict) => Ok(add_verdict(self.alloc, text, number, verdict.allow)?),
            // No other answer comes to the question.
            None => Err(TellFault::Memory),
        }
    }
}

// The verdict that an answer is, where it is one.
fn verdict_in(answer: RxAnswer) -> Option<Verdict>
    ensures { (verdict : Told) → answer ≡ RxAnswer.Verdict verdict → result ≡ Some verdict }
{
    match answer {
        RxAnswer::Verdict(verdict) => Some(verdict),
        _ => None,
    }
}

// The line of a number is refused.
pub(crate) fn refused(number: u64) -> TellFault
    ensures { result ≡ TellFault.Stopped (Stop.Line number) }
{
    TellFault::Stopped(Stop::Line(number))
}

// What stands at a place that is counted from 1.
pub(crate) fn counted<T>(items: &[T], place: u64) -> Option<&T>
    ensures { option_map (λ item. item.now) result ≡ counted_at place items.now }
{
    if place == 0 {
        return None;
    }
    items.get((place - 1) as usize)
}
