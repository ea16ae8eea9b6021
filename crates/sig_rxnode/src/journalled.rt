ghost use Rattle.std.specs.Prelude.{◌≡◌, ◌<◌, ◌^◌, ◌∷◌, [], length, IfErr, IfOk, Err, None, Some, is_some, option_copied, take, drop, true};
ghost use Rattle.sig_entry.specs.Tokens.{token_spelling};
ghost use Rattle.sig_receiver.specs.Receiver.{IsReady, committed, heard_at, received, received_of};
ghost use Rattle.sig_json.specs.declared.limits.TheConstants.{ROWS_PER_PAGE};
ghost use Rattle.sig_journal.specs.declared.node_fault.NodeFault.TheVariants as node_fault;
ghost use Rattle.sig_rxnode.specs.Answers.{answer_of, change_of, heard_answer, heard_texts};
ghost use Rattle.sig_rxnode.specs.declared.answer.RxAnswer.TheVariants.{Figures, Rows};
ghost use Rattle.sig_rxnode.specs.Records.{receiving};

use crate::recording::{Recorded, record_of};
use crate::{RxAnswer, RxCall, RxFault};
use sig_journal::Store;
use sig_json::limits::ROWS_PER_PAGE;
use sig_json::{Bytes, Text};
use sig_outside::Disk;
use sig_past::Past;
use sig_receiver::{Heard, Hearing, Ready, Receiver};
use sig_sessions::Table;
use sig_set::PreparedTrust;
use std::alloc::Global;

/// A receiver whose tokens stand in the journal of a store, and the texts of these tokens, which contracts see. When the
/// program runs, the journal alone has them.
pub struct Journalled<D: Disk> {
    pub alloc: Global,
    pub receiver: Receiver,
    pub entries: Past<Bytes>,
    pub store: Store<D>,
}

/// An answer, and a copy of it.
#[derive(Drop)]
pub struct Told {
    pub answer: RxAnswer,
    pub copy: RxAnswer,
}

impl<D: Disk> Journalled<D> {
    ghost use Rattle.sig_rxnode.specs.Holding.{IsHolding};
    ghost use Rattle.sig_rxnode.specs.Journals.{Adds, Causes, Writes};
    ghost use Rattle.sig_rxnode.specs.Parts.{holding_of};

    /// Answers a call in the turn of this number: a token by `hear`, the others by the session table, of which nothing
    /// changes. Where the store is broken, it answers `Store`.
    pub fn answer(
        &mut self,
        trust: &PreparedTrust,
        call: &RxCall,
        turn: u64,
    ) -> Result<Told, RxFault>
        requires holds { IsHolding D.told D.seen D.may_leave (holding_of self.old) }
        ensures answer { IfOk result (λ told. (told.answer ≡ answer_of trust.now (received self.old.receiver) call.now) × (told.copy ≡ told.answer)) }
        ensures adds { Adds (change_of trust.now (received self.old.receiver) call.now) (holding_of self.old) (holding_of self.new) result }
        ensures writes { Writes D.told D.seen D.may_leave D.moment D.left_since D.stop D.short (change_of trust.now (received self.old.receiver) call.now) (holding_of self.old) (holding_of self.new) result }
        ensures causes { self.old.store.broken_at ≡ None → Causes D.faults (change_of trust.now (received self.old.receiver) call.now) turn (holding_of self.old) (holding_of self.new) result }
        ensures broken { is_some self.old.store.broken_at ≡ true → (result ≡ Err node_fault.Store) × (holding_of self.new ≡ holding_of self.old) }
        ensures holds { IsHolding D.told D.seen D.may_leave (holding_of self.new) }
    {
        if self.store.broken_at().is_some() {
            return Err(RxFault::Store);
        }
        match call {
            RxCall::Token {
                principal,
                named,
                bytes,
            } => self.hear_twice(trust, principal, named, bytes, turn),
            RxCall::Verdict { subject } => {
                let verdict = self.receiver.verdict(subject);
                Ok(Told {
                    answer: RxAnswer::Verdict(verdict),
                    copy: RxAnswer::Verdict(verdict),
                })
            }
            RxCall::Rows { from } => page(self.receiver.table(), *from),
            RxCall::Figures => Ok(figures(&self.receiver)),
        }
    }

    // The answer to a token.
    fn hear_twice(
        &mut self,
        trust: &PreparedTrust,
        principal: &Option<Text>,
        named: &Option<Text>,
        bytes: &Bytes,
        turn: u64,
    ) -> Result<Told, RxFault>
        requires whole { self.old.store.broken_at ≡ None }
        requires holds { IsHolding D.told D.seen D.may_leave (holding_of self.old) }
        ensures answer { IfOk result (λ told. (told.answer ≡ heard_answer (heard_at trust.now principal.now named.now (received self.old.receiver) bytes.now)) × (told.copy ≡ told.answer)) }
        ensures adds { Adds (heard_texts trust.now principal.now named.now (received self.old.receiver) bytes.now) (holding_of self.old) (holding_of self.new) result }
        ensures writes { Writes D.told D.seen D.may_leave D.moment D.left_since D.stop D.short (heard_texts trust.now principal.now named.now (received self.old.receiver) bytes.now) (holding_of self.old) (holding_of self.new) result }
        ensures causes { Causes D.faults (heard_texts trust.now principal.now named.now (received self.old.receiver) bytes.now) turn (holding_of self.old) (holding_of self.new) result }
        ensures holds { IsHolding D.told D.seen D.may_leave (holding_of self.new) }
    {
        match self.hear(
            trust,
            principal.as_ref(),
            named.as_ref(),
            bytes.as_slice(),
            turn,
        ) {
            Ok(heard) => Ok(Told {
                answer: RxAnswer::of(heard),
                copy: RxAnswer::of(heard),
            }),
            Err(fault) => Err(fault),
        }
    }

    /// Judges a token, and where it is valid and new adds it to the journal and then takes it in, in the turn of this
    /// number.
    pub fn hear(
        &mut self,
        trust: &PreparedTrust,
        principal: Option<&Text>,
        named: Option<&Text>,
        text: &[u8],
        turn: u64,
    ) -> Result<Heard, RxFault>
        requires whole { self.old.store.broken_at ≡ None }
        requires holds { IsHolding D.told D.seen D.may_leave (holding_of self.old) }
        ensures heard { IfOk result (λ heard. heard ≡ heard_at trust.now (option_copied principal.entry) (option_copied named.entry) (received self.old.receiver) text.now) }
        ensures adds { Adds (heard_texts trust.now (option_copied principal.entry) (option_copied named.entry) (received self.old.receiver) text.now) (holding_of self.old) (holding_of self.new) result }
        ensures writes { Writes D.told D.seen D.may_leave D.moment D.left_since D.stop D.short (heard_texts trust.now (option_copied principal.entry) (option_copied named.entry) (received self.old.receiver) text.now) (holding_of self.old) (holding_of self.new) result }
        ensures causes { Causes D.faults (heard_texts trust.now (option_copied principal.entry) (option_copied named.entry) (received self.old.receiver) text.now) turn (holding_of self.old) (holding_of self.new) result }
        ensures holds { IsHolding D.told D.seen D.may_leave (holding_of self.new) }
    {
        let Hearing { heard, change } = self.receiver.prepare(trust, principal, named, text)?;
        match change {
            None => Ok(heard),
            Some(ready) => {
                self.journal(ready, text, turn)?;
                Ok(heard)
            }
        }
    }

    // Adds a token that is ready to the journal, and then takes it in. After the append nothing is refused.
    fn journal(&mut self, ready: Ready, text: &[u8], turn: u64) -> Result<(), RxFault>
        requires whole { self.old.store.broken_at ≡ None }
        requires holds { IsHolding D.told D.seen D.may_leave (holding_of self.old) }
        requires ready { IsReady self.old.receiver ready }
        requires makes { committed ready (received self.old.receiver) ≡ received_of (received self.old.receiver) (text.now ∷ []) }
        requires step { receiving.step (received self.old.receiver) (token_spelling text.now) ≡ Some (received_of (received self.old.receiver) (text.now ∷ [])) }
        requires short { length text.now < 2 ^ 31 }
        ensures adds { Adds (text.now ∷ []) (holding_of self.old) (holding_of self.new) result }
        ensures writes { Writes D.told D.seen D.may_leave D.moment D.left_since D.stop D.short (text.now ∷ []) (holding_of self.old) (holding_of self.new) result }
        ensures causes { Causes D.faults (text.now ∷ []) turn (holding_of self.old) (holding_of self.new) result }
        ensures holds { IsHolding D.told D.seen D.may_leave (holding_of self.new) }
    {
        let Recorded { framed, entry } = record_of(self.alloc, &mut self.entries, text)?;
        match self.store.append(&framed, turn) {
            Ok(()) => {
                self.receiver.commit(ready);
                self.entries.put(&entry);
                Ok(())
            }
            Err(fault) => {
                drop(ready);
                Err(RxFault::of_append(fault))
            }
        }
    }
}

// How many tokens were taken and how many rows there are, twice.
fn figures(receiver: &Receiver) -> Told
    ensures answer { result.answer ≡ Figures (length receiver.now.pairs) (length receiver.now.rows) }
    ensures copy { result.copy ≡ result.answer }
{
    let tokens = receiver.seen().len();
    let rows = receiver.rows().len() as u64;
    Told {
        answer: RxAnswer::Figures { tokens, rows },
        copy: RxAnswer::Figures { tokens, rows },
    }
}

// The rows of a page of the session table, and a copy of them.
fn page(table: &Table, from: u64) -> Result<Told, RxFault>
    ensures told { IfOk result (λ told. (told.answer ≡ Rows (take ROWS_PER_PAGE (drop from table.now.rows))) × (told.copy ≡ told.answer)) }
    ensures memory { IfErr result (λ e. e ≡ node_fault.Memory) }
{
    let rows = table.rows(from, ROWS_PER_PAGE as u64)?;
    let copy = table.rows(from, ROWS_PER_PAGE as u64)?;
    Ok(Told {
        answer: RxAnswer::Rows(rows),
        copy: RxAnswer::Rows(copy),
    })
}
