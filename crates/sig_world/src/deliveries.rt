//! What reaches the receiver: messages.

ghost use Rattle.std.specs.Prelude.{◌≡◌, IfOk, Some};
ghost use Rattle.sig_receiver.specs.declared.heard.Heard.{Heard as Hears};
ghost use Rattle.sig_rxnode.specs.Answers.{heard_answer};
ghost use Rattle.sig_world.specs.Hearing as hearing;

use crate::hearer::{ask_rx, halt_rx};
use crate::replay_text::{add_halted, add_heard};
use crate::replayer::{Halt, Replayer, counted, refused};
use crate::reply::Reply;
use sig_command::TellFault;
use sig_json::{Bytes, Memory};
use sig_jws::Key;
use sig_nodes::Halted;
use sig_receiver::Heard;
use sig_rxnode::{RxAnswer, RxCall};
use sig_set::signed_claims;
use sig_terms::Token;
use std::alloc::Global;

impl Replayer {
    ghost use Rattle.std.specs.Prelude.{◌≡◌, ◌≤◌, ◌++◌, [], ◌∷◌, IfErr, OnOk, Some, length};
    ghost use Rattle.sig_journal.specs.Added.{rests_with_it};
    ghost use Rattle.sig_law.specs.World.{World};
    ghost use Rattle.sig_schedules.specs.Replay.{counted_at, heard_text, played_delivery, stopped_delivery};
    ghost use Rattle.sig_world.specs.Replaying.{Goes, GoesNot, IsAt};

    /// A message reaches the receiver.
    pub(crate) fn deliver(
        &mut self,
        number: u64,
        place: u64,
        text: &mut Bytes,
    ) -> Result<(), TellFault>
        ensures plays { OnOk result ((world : World) → IsAt self.old world → Goes (played_delivery number world (counted_at place world.messages)) self.new text.old text.new) }
        ensures stops { IfErr result (λ fault. (world : World) → IsAt self.old world → GoesNot (played_delivery number world (counted_at place world.messages)) fault) }
    {
        match counted(self.messages.as_slice(), place) {
            None => Err(refused(number)),
            Some(message) => {
                let message = message.copy(self.alloc)?;
                self.hear(number, message, text)
            }
        }
    }

    fn hear(&mut self, number: u64, message: Token, text: &mut Bytes) -> Result<(), TellFault>
        ensures plays { OnOk result ((world : World) → IsAt self.old world → Goes (played_delivery number world (Some message)) self.new text.old text.new) }
        ensures stops { IfErr result (λ fault. (world : World) → IsAt self.old world → GoesNot (played_delivery number world (Some message)) fault) }
    {
        let call = token_call(self.alloc, &message, &self.rules.key)?;
        let told = ask_rx(&mut self.rx, &call);
        drop(call);
        match told {
            Ok(answer) => self.tell_heard(number, message, answer, text),
            Err(fault) => Err(fault),
        }
    }

    // Prints the answer to a message, and keeps it.
    fn tell_heard(
        &mut self,
        number: u64,
        message: Token,
        answer: RxAnswer,
        text: &mut Bytes,
    ) -> Result<(), TellFault>
        ensures told { OnOk result ((heard : Hears) → answer ≡ heard_answer heard → (text.new ≡ text.old ++ heard_text number (length self.old.replies.items) heard)
            × (self.new.replies.items ≡ self.old.replies.items ++ record { message = message; heard = heard } ∷ []) × (self.new.rules ≡ self.old.rules) × (self.new.tx ≡ self.old.tx)
            × (self.new.rx ≡ self.old.rx) × (self.new.messages ≡ self.old.messages) × (self.new.time ≡ self.old.time)) }
        ensures fault { IfErr result (λ fault. fault ≡ TellFault.Memory) }
    {
        let Some(heard) = heard_in(answer) else {
            // No other answer comes to a token.
            return Err(TellFault::Memory);
        };
        let before = self.replies.len() as u64;
        add_heard(self.alloc, text, number, before, heard)?;
        self.replies.push(Reply::of(message, heard))?;
        Ok(())
    }

    /// A message reaches the receiver while its disk stands still.
    pub(crate) fn halt_delivery(
        &mut self,
        number: u64,
        place: u64,
        halt: Halt,
        text: &mut Bytes,
    ) -> Result<(), TellFault>
        requires { halt.calls ≤ 4 }
        ensures plays { OnOk result ((world : World) → IsAt self.old world → Goes (stopped_delivery number world (counted_at place world.messages) (rests_with_it halt.calls halt.fill)) self.new text.old text.new) }
        ensures stops { IfErr result (λ fault. (world : World) → IsAt self.old world → GoesNot (stopped_delivery number world (counted_at place world.messages) (rests_with_it halt.calls halt.fill)) fault) }
    {
        match counted(self.messages.as_slice(), place) {
            None => Err(refused(number)),
            Some(message) => {
                let message = message.copy(self.alloc)?;
                self.halt_hear(number, message, halt, text)
            }
        }
    }

    fn halt_hear(
        &mut self,
        number: u64,
        message: Token,
        halt: Halt,
        text: &mut Bytes,
    ) -> Result<(), TellFault>
        requires { halt.calls ≤ 4 }
        ensures plays { OnOk result ((world : World) → IsAt self.old world → Goes (stopped_delivery number world (Some message) (rests_with_it halt.calls halt.fill)) self.new text.old text.new) }
        ensures stops { IfErr result (λ fault. (world : World) → IsAt self.old world → GoesNot (stopped_delivery number world (Some message) (rests_with_it halt.calls halt.fill)) fault) }
    {
        let call = token_call(self.alloc, &message, &self.rules.key)?;
        let done = halt_rx(self.alloc, &mut self.rx, &call, halt.calls, halt.fill);
        drop(call);
        match done {
            Ok(Halted::Answered(answer)) => self.tell_heard(number, message, answer, text),
            Ok(Halted::Crashed { kept }) => {
                add_halted(self.alloc, text, number, kept)?;
                Ok(())
            }
            Err(fault) => Err(fault),
        }
    }
}

// The call by which a message comes: its signed text, with its issuer as principal, and under no name.
fn token_call(alloc: Global, message: &Token, key: &Key) -> Result<RxCall, Memory>
    ensures { IfOk result (λ call. call ≡ hearing.token_call message.now key.now) }
{
    let bytes = signed_claims(alloc, &message.claims, key)?;
    Ok(RxCall::Token {
        principal: Some(message.claims.iss.copy(alloc)?),
        named: None,
        bytes,
    })
}

// What the receiver heard, where an answer is one to a token.
fn heard_in(answer: RxAnswer) -> Option<Heard>
    ensures { (heard : Hears) → answer ≡ heard_answer heard → result ≡ Some heard }
{
    match answer {
        RxAnswer::Accepted => Some(Heard::Accepted),
        RxAnswer::Seen => Some(Heard::Seen),
        RxAnswer::Refused { code, spot } => Some(Heard::NotTaken { code, spot }),
        RxAnswer::Verdict(_) | RxAnswer::Rows(_) | RxAnswer::Figures { .. } => None,
    }
}
