//! The calls of clients.

ghost use Rattle.std.specs.Prelude.{◌≡◌};
ghost use Rattle.serde_json.specs.View.{view};
ghost use Rattle.sig_json.specs.Answers.{Answers};
ghost use Rattle.sig_terms.specs.declared.call.Call.TheVariants as call;
ghost use Rattle.sig_txroutes.specs.Calls as spec;

use crate::body::{optional_text, status_said, stream_in, subject_in, want_in};
use crate::route::{BodyCall, QueryCall};
use sig_http::HttpRefusal;
use sig_json::{Text, Value};
use sig_terms::Call;
use std::alloc::Global;

/// The call of a client that names this stream in its query, or none. `Bad` comes exactly where one has to be named.
pub fn query_call(
    alloc: Global,
    route: QueryCall,
    client: Text,
    stream: Option<Text>,
) -> Result<Call, HttpRefusal>
    ensures { Answers HttpRefusal.Memory result (spec.query_call route client stream) }
{
    match route {
        QueryCall::Read => Ok(read_call(client, stream)),
        QueryCall::Delete => Ok(Call::Delete {
            client,
            stream: named_stream(alloc, stream)?,
        }),
        QueryCall::GetStatus => Ok(Call::GetStatus {
            client,
            stream: named_stream(alloc, stream)?,
        }),
    }
}

fn read_call(client: Text, stream: Option<Text>) -> Call
    ensures { result ≡ spec.read_call client stream }
{
    match stream {
        Some(stream) => Call::Read { client, stream },
        None => Call::ReadAll { client },
    }
}

/// The stream that a query has to name.
pub fn named_stream(alloc: Global, stream: Option<Text>) -> Result<Text, HttpRefusal>
    ensures { Answers HttpRefusal.Memory result (spec.named_stream stream) }
{
    match stream {
        Some(stream) => Ok(stream),
        None => Err(HttpRefusal::Bad(Text::of(alloc, "stream_id")?)),
    }
}

/// The call of a client that a body says; `gateway` says whether an `https` endpoint can be reached. `Bad` names the
/// first member that is missing or wrong.
pub fn body_call(
    alloc: Global,
    route: BodyCall,
    gateway: bool,
    client: Text,
    body: &Value,
) -> Result<Call, HttpRefusal>
    ensures { Answers HttpRefusal.Memory result (spec.body_call route gateway client (view body.now)) }
{
    match route {
        BodyCall::Create => create_call(alloc, gateway, client, body),
        BodyCall::Patch => patch_call(alloc, gateway, client, body),
        BodyCall::Put => put_call(alloc, gateway, client, body),
        BodyCall::SetStatus => status_call(alloc, client, body),
        BodyCall::Add => add_call(alloc, client, body),
        BodyCall::Remove => remove_call(alloc, client, body),
        BodyCall::Verify => verify_call(alloc, client, body),
    }
}

fn create_call(
    alloc: Global,
    gateway: bool,
    client: Text,
    body: &Value,
) -> Result<Call, HttpRefusal>
    ensures { Answers HttpRefusal.Memory result (spec.create_call gateway client (view body.now)) }
{
    let want = want_in(alloc, body, gateway)?;
    Ok(Call::Create { client, want })
}

fn patch_call(alloc: Global, gateway: bool, client: Text, body: &Value) -> Result<Call, HttpRefusal>
    ensures { Answers HttpRefusal.Memory result (spec.change_call call.Patch gateway client (view body.now)) }
{
    let want = want_in(alloc, body, gateway)?;
    let stream = stream_in(alloc, body)?;
    Ok(Call::Patch {
        client,
        stream,
        want,
    })
}

fn put_call(alloc: Global, gateway: bool, client: Text, body: &Value) -> Result<Call, HttpRefusal>
    ensures { Answers HttpRefusal.Memory result (spec.change_call call.Put gateway client (view body.now)) }
{
    let want = want_in(alloc, body, gateway)?;
    let stream = stream_in(alloc, body)?;
    Ok(Call::Put {
        client,
        stream,
        want,
    })
}

fn status_call(alloc: Global, client: Text, body: &Value) -> Result<Call, HttpRefusal>
    ensures { Answers HttpRefusal.Memory result (spec.status_call client (view body.now)) }
{
    let said = status_said(alloc, body)?;
    Ok(Call::SetStatus {
        client,
        stream: said.stream,
        status: said.status,
        reason: said.reason,
    })
}

fn add_call(alloc: Global, client: Text, body: &Value) -> Result<Call, HttpRefusal>
    ensures { Answers HttpRefusal.Memory result (spec.subject_call call.Add client (view body.now)) }
{
    let stream = stream_in(alloc, body)?;
    let subject = subject_in(alloc, body)?;
    Ok(Call::Add {
        client,
        stream,
        subject,
    })
}

fn remove_call(alloc: Global, client: Text, body: &Value) -> Result<Call, HttpRefusal>
    ensures { Answers HttpRefusal.Memory result (spec.subject_call call.Remove client (view body.now)) }
{
    let stream = stream_in(alloc, body)?;
    let subject = subject_in(alloc, body)?;
    Ok(Call::Remove {
        client,
        stream,
        subject,
    })
}

fn verify_call(alloc: Global, client: Text, body: &Value) -> Result<Call, HttpRefusal>
    ensures { Answers HttpRefusal.Memory result (spec.verify_call client (view body.now)) }
{
    let stream = stream_in(alloc, body)?;
    let state = optional_text(alloc, body, "state")?;
    Ok(Call::Verify {
        client,
        stream,
        state,
    })
}
