//! What reaches the transmitter: calls, and answers of the receiver.

ghost use Rattle.std.specs.Prelude.{◌≡◌, ◌++◌, IfOk, OnOk};
ghost use Rattle.sig_set.specs.Spelled.{code_text};
ghost use Rattle.sig_calls.specs.Regular.{handed_by};
ghost use Rattle.sig_law.specs.World as world;

use crate::replay_text::{add_call, add_halted};
use crate::replayer::{Halt, Replayer, counted, refused};
use crate::reply::Reply;
use crate::sender::{ask_tx, halt_tx};
use sig_command::TellFault;
use sig_json::{Bytes, Items, Memory, Text};
use sig_nodes::Halted;
use sig_receiver::Heard;
use sig_set::Code;
use sig_terms::{Answer, Call, Outcome, Token};
use std::alloc::Global;
use std::mem::replace;

impl Replayer {
    ghost use Rattle.std.specs.Prelude.{◌≡◌, ◌≤◌, ◌++◌, IfErr, OnOk, length};
    ghost use Rattle.sig_calls.specs.Proper.{IsProperCall};
    ghost use Rattle.sig_calls.specs.Regular.{handed_by};
    ghost use Rattle.sig_journal.specs.Added.{rests_with_it};
    ghost use Rattle.sig_law.specs.World.{World};
    ghost use Rattle.sig_schedules.specs.Replay.{call_text, counted_at, played_answer, played_call, stopped_answer, stopped_call};
    ghost use Rattle.sig_world.specs.Replaying.{Goes, GoesNot, IsAt};

    /// An answer reaches the transmitter.
    pub(crate) fn answer(
        &mut self,
        number: u64,
        place: u64,
        text: &mut Bytes,
    ) -> Result<(), TellFault>
        requires { (world : World) × IsAt self.old world }
        ensures plays { OnOk result ((world : World) → IsAt self.old world → Goes (played_answer number world (counted_at place world.replies)) self.new text.old text.new) }
        ensures stops { IfErr result (λ fault. (world : World) → IsAt self.old world → GoesNot (played_answer number world (counted_at place world.replies)) fault) }
    {
        match counted(self.replies.as_slice(), place) {
            None => Err(refused(number)),
            Some(reply) => match settle_call(self.alloc, reply) {
                Ok(call) => self.bring(number, call, text),
                Err(Memory) => Err(TellFault::Memory),
            },
        }
    }

    // A call of the replay's own; it is dropped by itself, so that this function has no part of its many kinds.
    fn bring(&mut self, number: u64, call: Call, text: &mut Bytes) -> Result<(), TellFault>
        requires stands { (world : World) × IsAt self.old world }
        requires proper { IsProperCall call }
        ensures plays { OnOk result ((world : World) → IsAt self.old world → Goes (played_call number world call) self.new text.old text.new) }
        ensures stops { IfErr result (λ fault. (world : World) → IsAt self.old world → GoesNot (played_call number world call) fault) }
    {
        let done = self.call(number, &call, text);
        drop(call);
        done
    }

    /// A call at the transmitter.
    pub(crate) fn call(
        &mut self,
        number: u64,
        call: &Call,
        text: &mut Bytes,
    ) -> Result<(), TellFault>
        requires stands { (world : World) × IsAt self.old world }
        requires proper { IsProperCall call.now }
        ensures plays { OnOk result ((world : World) → IsAt self.old world → Goes (played_call number world call.now) self.new text.old text.new) }
        ensures stops { IfErr result (λ fault. (world : World) → IsAt self.old world → GoesNot (played_call number world call.now) fault) }
    {
        match ask_tx(&mut self.tx, call, self.time) {
            Ok(answer) => {
                self.tell_answer(number, answer, text)?;
                Ok(())
            }
            Err(fault) => Err(fault),
        }
    }

    // Prints the answer of a call, and keeps the messages that it hands out.
    fn tell_answer(&mut self, number: u64, answer: Answer, text: &mut Bytes) -> Result<(), Memory>
        ensures { OnOk result ((text.new ≡ text.old ++ call_text number (length self.old.messages.items) answer)
            × (self.new.messages.items ≡ self.old.messages.items ++ handed_by answer) × (self.new.rules ≡ self.old.rules) × (self.new.tx ≡ self.old.tx)
            × (self.new.rx ≡ self.old.rx) × (self.new.replies ≡ self.old.replies) × (self.new.time ≡ self.old.time)) }
    {
        let before = self.messages.len() as u64;
        add_call(self.alloc, text, number, before, &answer)?;
        keep_handed(self.alloc, &mut self.messages, answer)
    }

    /// An answer reaches the transmitter while its disk stands still.
    pub(crate) fn halt_answer(
        &mut self,
        number: u64,
        place: u64,
        halt: Halt,
        text: &mut Bytes,
    ) -> Result<(), TellFault>
        requires stands { (world : World) × IsAt self.old world }
        requires calls { halt.calls ≤ 4 }
        ensures plays { OnOk result ((world : World) → IsAt self.old world → Goes (stopped_answer number world (counted_at place world.replies) (rests_with_it halt.calls halt.fill)) self.new text.old text.new) }
        ensures stops { IfErr result (λ fault. (world : World) → IsAt self.old world → GoesNot (stopped_answer number world (counted_at place world.replies) (rests_with_it halt.calls halt.fill)) fault) }
    {
        match counted(self.replies.as_slice(), place) {
            None => Err(refused(number)),
            Some(reply) => match settle_call(self.alloc, reply) {
                Ok(call) => self.halt_bring(number, call, halt, text),
                Err(Memory) => Err(TellFault::Memory),
            },
        }
    }

    // A call of the replay's own, dropped by itself.
    fn halt_bring(
        &mut self,
        number: u64,
        call: Call,
        halt: Halt,
        text: &mut Bytes,
    ) -> Result<(), TellFault>
        requires stands { (world : World) × IsAt self.old world }
        requires proper { IsProperCall call }
        requires calls { halt.calls ≤ 4 }
        ensures plays { OnOk result ((world : World) → IsAt self.old world → Goes (stopped_call number world call (rests_with_it halt.calls halt.fill)) self.new text.old text.new) }
        ensures stops { IfErr result (λ fault. (world : World) → IsAt self.old world → GoesNot (stopped_call number world call (rests_with_it halt.calls halt.fill)) fault) }
    {
        let done = self.halt_call(number, &call, halt, text);
        drop(call);
        done
    }

    /// A call at the transmitter while its disk stands still.
    pub(crate) fn halt_call(
        &mut self,
        number: u64,
        call: &Call,
        halt: Halt,
        text: &mut Bytes,
    ) -> Result<(), TellFault>
        requires stands { (world : World) × IsAt self.old world }
        requires proper { IsProperCall call.now }
        requires calls { halt.calls ≤ 4 }
        ensures plays { OnOk result ((world : World) → IsAt self.old world → Goes (stopped_call number world call.now (rests_with_it halt.calls halt.fill)) self.new text.old text.new) }
        ensures stops { IfErr result (λ fault. (world : World) → IsAt self.old world → GoesNot (stopped_call number world call.now (rests_with_it halt.calls halt.fill)) fault) }
    {
        let done = halt_tx(
            self.alloc,
            &mut self.tx,
            call,
            self.time,
            halt.calls,
            halt.fill,
        );
        match done {
            Ok(Halted::Answered(answer)) => {
                self.tell_answer(number, answer, text)?;
                Ok(())
            }
            Ok(Halted::Crashed { kept }) => {
                add_halted(self.alloc, text, number, kept)?;
                Ok(())
            }
            Err(fault) => Err(fault),
        }
    }
}

// Keeps the tokens that an answer hands out.
fn keep_handed(alloc: Global, messages: &mut Vec<Token>, mut answer: Answer) -> Result<(), Memory>
    ensures { OnOk result (messages.new.items ≡ messages.old.items ++ handed_by answer) }
{
    match &mut answer {
        Answer::Sets { tokens, more: _ } => keep(messages, moved_out(alloc, tokens)),
        Answer::Handed { tokens } => keep(messages, moved_out(alloc, tokens)),
        _ => Ok(()),
    }
}

// The tokens, of which none stays behind.
fn moved_out(alloc: Global, tokens: &mut Items<Token>) -> Items<Token>
    ensures { result ≡ tokens.old }
{
    replace(tokens, Items::of(Vec::new(alloc)))
}

fn keep(messages: &mut Vec<Token>, tokens: Items<Token>) -> Result<(), Memory>
    ensures { OnOk result (messages.new.items ≡ messages.old.items ++ tokens) }
{
    let mut tokens = tokens.into_vec();
    messages.append(&mut tokens)?;
    Ok(())
}

// The call that brings an answer of the receiver to the transmitter.
fn settle_call(alloc: Global, reply: &Reply) -> Result<Call, Memory>
    ensures { IfOk result (λ call. call ≡ world.settle_call reply.now) }
{
    Ok(Call::Settle {
        stream: reply.message().stream.copy(alloc)?,
        number: reply.message().number,
        outcome: outcome_of(alloc, reply.heard())?,
    })
}

fn outcome_of(alloc: Global, heard: Heard) -> Result<Outcome, Memory>
    ensures { IfOk result (λ outcome. outcome ≡ world.outcome_of heard) }
{
    match heard {
        Heard::Accepted | Heard::Seen => Ok(Outcome::Accepted),
        Heard::NotTaken { code, spot: _ } => refusal_outcome(alloc, code),
    }
}

fn refusal_outcome(alloc: Global, code: Code) -> Result<Outcome, Memory>
    ensures { IfOk result (λ outcome. outcome ≡ world.refusal_outcome (code_text code)) }
{
    let code = code.as_str();
    if code == "authentication_failed" || code == "access_denied" {
        return Ok(Outcome::Keep);
    }
    Ok(Outcome::Reported {
        code: Text::of(alloc, code)?,
    })
}
