//! The calls of the operator.

ghost use Rattle.std.specs.Prelude.{◌≡◌};
ghost use Rattle.serde_json.specs.View.{view};
ghost use Rattle.sig_json.specs.Answers.{Answers};
ghost use Rattle.sig_txroutes.specs.Calls as spec;

use crate::body::{publication_in, status_said, stream_in};
use crate::client::named_stream;
use crate::place::from_in;
use crate::route::{OperatorCall, OperatorQuery};
use sig_http::{HttpRefusal, query_value};
use sig_json::Value;
use sig_terms::Call;
use std::alloc::Global;

/// The call of the operator that a body says. `Bad` names the first member that is missing or wrong.
pub fn operator_call(alloc: Global, route: OperatorCall, body: &Value) -> Result<Call, HttpRefusal>
    ensures { Answers HttpRefusal.Memory result (spec.operator_call route (view body.now)) }
{
    match route {
        OperatorCall::Publish => publication_in(alloc, body),
        OperatorCall::SetStatus => status_call(alloc, body),
        OperatorCall::Deliver => Ok(Call::Deliver {
            stream: stream_in(alloc, body)?,
        }),
    }
}

fn status_call(alloc: Global, body: &Value) -> Result<Call, HttpRefusal>
    ensures { Answers HttpRefusal.Memory result (spec.operator_status_call (view body.now)) }
{
    let said = status_said(alloc, body)?;
    Ok(Call::OperatorStatus {
        stream: said.stream,
        status: said.status,
        reason: said.reason,
    })
}

/// The call of the operator that a query says. `Bad` comes at `stream_id` where a stream has to be named and none is, and at
/// `from` where that is no place.
pub fn operator_query(alloc: Global, route: OperatorQuery, query: &str) -> Result<Call, HttpRefusal>
    ensures { Answers HttpRefusal.Memory result (spec.operator_query route query.now) }
{
    match route {
        OperatorQuery::Delete => {
            let stream = query_value(alloc, query, "stream_id")?;
            Ok(Call::OperatorDelete {
                stream: named_stream(alloc, stream)?,
            })
        }
        OperatorQuery::Streams => Ok(Call::Streams {
            from: from_in(alloc, query)?,
        }),
        OperatorQuery::Refused => Ok(Call::Refused {
            from: from_in(alloc, query)?,
        }),
        OperatorQuery::Figures => Ok(Call::Figures),
    }
}
