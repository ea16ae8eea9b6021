//! Each call, and what answers it.

ghost use Rattle.std.specs.Prelude.{◌≡◌, ℕ, IfOk, IfSome};
ghost use Rattle.sig_json.specs.Answers.{Answers, result_map};
ghost use Rattle.sig_calls.specs.Table.{prepared_of};
ghost use Rattle.sig_ledger.specs.Books.{sum_in};
ghost use Rattle.sig_ledger.specs.Room.{HasRoom};
ghost use Rattle.sig_ledger.specs.Steps.{reply_in};
ghost use Rattle.sig_outbox.specs.Kinds.{Configuring, Overseeing, Steering, Telling, kind_of};

use sig_ledger::{Ledger, Step};
use sig_stream_calls::{
    add, create, delete, figures, get_status, operator_delete, patch, put, read, read_all, refused,
    remove, set_status, streams,
};
use sig_terms::{Answer, Call, PrepareFault, Rules};
use sig_token_calls::{deliver, hand, operator_status, poll, publish, settle, verify};

/// How a call is answered at a time, and the fact that it makes. The ledger's books stay; room is made for the fact.
#[tactic(auto, unfolding(sig_calls::specs::Table::told_of))]
pub(crate) fn dispatch(
    ledger: &mut Ledger,
    rules: &Rules,
    call: &Call,
    now: u64,
) -> Result<Step, PrepareFault>
    ensures keeps { ledger.new.books ≡ ledger.old.books }
    ensures answers { Answers PrepareFault.Memory (result_map reply_in result) (prepared_of rules.now (sum_in ledger.old.books) call.now now) }
    ensures room { IfOk result (λ step. IfSome step.change (HasRoom (sum_in ledger.new.books) ledger.new.room)) }
{
    match call {
        Call::Metadata => Ok(Step::only(Answer::Meta)),
        Call::Create { .. }
        | Call::ReadAll { .. }
        | Call::Read { .. }
        | Call::Patch { .. }
        | Call::Put { .. }
        | Call::Delete { .. } => configure(ledger, rules, call, now),
        Call::GetStatus { .. } | Call::SetStatus { .. } | Call::Add { .. } | Call::Remove { .. } =>
            steer(ledger, call, now),
        Call::Verify { .. }
        | Call::Poll { .. }
        | Call::Publish { .. }
        | Call::OperatorStatus { .. }
        | Call::Deliver { .. }
        | Call::Hand { .. }
        | Call::Settle { .. } => tell(ledger, call, now),
        Call::OperatorDelete { .. } | Call::Streams { .. } | Call::Refused { .. } | Call::Figures =>
            oversee(ledger, call),
    }
}

// How a call of the operator about all streams is answered.
#[tactic(auto, unfolding(sig_calls::specs::Table::told_of))]
fn oversee(ledger: &mut Ledger, call: &Call) -> Result<Step, PrepareFault>
    requires { kind_of call.now ≡ Overseeing }
    ensures keeps { ledger.new.books ≡ ledger.old.books }
    ensures answers { (rules : Rules) (now : ℕ) → Answers PrepareFault.Memory (result_map reply_in result) (prepared_of rules (sum_in ledger.old.books) call.now now) }
    ensures room { IfOk result (λ step. IfSome step.change (HasRoom (sum_in ledger.new.books) ledger.new.room)) }
{
    match call {
        Call::OperatorDelete { stream } => operator_delete(ledger, stream),
        Call::Streams { from } => streams(ledger, *from),
        Call::Refused { from } => refused(ledger, *from),
        Call::Figures => figures(ledger),
        _ => unreachable!(),
    }
}

// How a call about a stream's configuration is answered.
#[tactic(auto, unfolding(sig_calls::specs::Table::told_of))]
fn configure(
    ledger: &mut Ledger,
    rules: &Rules,
    call: &Call,
    now: u64,
) -> Result<Step, PrepareFault>
    requires { kind_of call.now ≡ Configuring }
    ensures keeps { ledger.new.books ≡ ledger.old.books }
    ensures answers { Answers PrepareFault.Memory (result_map reply_in result) (prepared_of rules.now (sum_in ledger.old.books) call.now now) }
    ensures room { IfOk result (λ step. IfSome step.change (HasRoom (sum_in ledger.new.books) ledger.new.room)) }
{
    match call {
        Call::Create { client, want } => create(ledger, rules, client, want, now),
        Call::ReadAll { client } => read_all(ledger, client),
        Call::Read { client, stream } => read(ledger, client, stream),
        Call::Patch {
            client,
            stream,
            want,
        } => patch(ledger, client, stream, want),
        Call::Put {
            client,
            stream,
            want,
        } => put(ledger, client, stream, want),
        Call::Delete { client, stream } => delete(ledger, client, stream),
        _ => unreachable!(),
    }
}

// How a call about a stream's status or subjects is answered.
#[tactic(auto, unfolding(sig_calls::specs::Table::told_of))]
fn steer(ledger: &mut Ledger, call: &Call, now: u64) -> Result<Step, PrepareFault>
    requires { kind_of call.now ≡ Steering }
    ensures keeps { ledger.new.books ≡ ledger.old.books }
    ensures answers { (rules : Rules) → Answers PrepareFault.Memory (result_map reply_in result) (prepared_of rules (sum_in ledger.old.books) call.now now) }
    ensures room { IfOk result (λ step. IfSome step.change (HasRoom (sum_in ledger.new.books) ledger.new.room)) }
{
    match call {
        Call::GetStatus { client, stream } => get_status(ledger, client, stream),
        Call::SetStatus {
            client,
            stream,
            status,
            reason,
        } => set_status(ledger, client, stream, *status, reason, now),
        Call::Add {
            client,
            stream,
            subject,
        } => add(ledger, client, stream, subject),
        Call::Remove {
            client,
            stream,
            subject,
        } => remove(ledger, client, stream, subject),
        _ => unreachable!(),
    }
}

// How a call about tokens is answered.
#[tactic(auto, unfolding(sig_calls::specs::Table::told_of))]
fn tell(ledger: &mut Ledger, call: &Call, now: u64) -> Result<Step, PrepareFault>
    requires { kind_of call.now ≡ Telling }
    ensures keeps { ledger.new.books ≡ ledger.old.books }
    ensures answers { (rules : Rules) → Answers PrepareFault.Memory (result_map reply_in result) (prepared_of rules (sum_in ledger.old.books) call.now now) }
    ensures room { IfOk result (λ step. IfSome step.change (HasRoom (sum_in ledger.new.books) ledger.new.room)) }
{
    match call {
        Call::Verify {
            client,
            stream,
            state,
        } => verify(ledger, client, stream, state, now),
        Call::Poll {
            client,
            stream,
            ask,
        } => poll(ledger, client, stream, ask),
        Call::Publish { id, news } => publish(ledger, id, news, now),
        Call::OperatorStatus {
            stream,
            status,
            reason,
        } => operator_status(ledger, stream, *status, reason, now),
        Call::Deliver { stream } => deliver(ledger, stream),
        Call::Hand { streams } => hand(ledger, streams.as_slice()),
        Call::Settle {
            stream,
            number,
            outcome,
        } => settle(ledger, stream, *number, outcome),
        _ => unreachable!(),
    }
}
