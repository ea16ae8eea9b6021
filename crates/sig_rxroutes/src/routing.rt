//! From a request to the call that it makes.

ghost use Rattle.std.specs.Prelude.{◌≡◌, IfOk};
ghost use Rattle.sig_json.specs.Answers.{Answers};
ghost use Rattle.sig_rxroutes.specs.Calls as spec;

use crate::asked::{from_in, subject_in};
use crate::bearer::{issuer_by, shows};
use crate::route::{RxRoute, route_at};
use sig_http::{HttpRefusal, Request};
use sig_json::{Memory, Text};
use sig_rxnode::{RxCall, RxRules};
use std::alloc::Global;

/// The call that a request makes, by the table of routes.
///
/// The refusals come in this order: `Path` exactly where no route is at the path, `Method` exactly where the one at it has
/// another method, which it names, `Auth` exactly where the bearer isn't the reader's, whose route it is, and `Bad` with
/// the place of the query or body that is wrong. A push is never refused: its body is a token as it stands, brought by the
/// principal whose bearer is shown, of two with one bearer the first, and by nobody where the bearer is nobody's.
#[tactic(auto, unfolding(crate::specs::Calls::call_of))]
pub fn call_of(alloc: Global, request: &Request, rules: &RxRules) -> Result<RxCall, HttpRefusal>
    ensures { Answers HttpRefusal.Memory result (spec.call_of request.now rules.now) }
{
    match route_at(request.path.as_str()) {
        Some(route) => for_route(alloc, route, request, rules),
        None => Err(HttpRefusal::Path),
    }
}

fn for_route(
    alloc: Global,
    route: RxRoute,
    request: &Request,
    rules: &RxRules,
) -> Result<RxCall, HttpRefusal>
    ensures { Answers HttpRefusal.Memory result (spec.for_route route request.now rules.now) }
{
    if request.method.as_str() == route.method() {
        return by_route(alloc, route, request, rules);
    }
    Err(HttpRefusal::Method {
        allow: Text::of(alloc, route.method())?,
    })
}

fn by_route(
    alloc: Global,
    route: RxRoute,
    request: &Request,
    rules: &RxRules,
) -> Result<RxCall, HttpRefusal>
    ensures { Answers HttpRefusal.Memory result (spec.by_route route request.now rules.now) }
{
    match route {
        RxRoute::Push => Ok(token_call(alloc, request, rules)?),
        _ if !shows(&request.bearer, &rules.reader) => Err(HttpRefusal::Auth),
        RxRoute::Rows => Ok(RxCall::Rows {
            from: from_in(alloc, request.query.as_str())?,
        }),
        RxRoute::Check => Ok(RxCall::Verdict {
            subject: subject_in(alloc, request.body.as_slice())?,
        }),
        RxRoute::Figures => Ok(RxCall::Figures),
    }
}

// A push, which whoever shows the bearer brings.
fn token_call(alloc: Global, request: &Request, rules: &RxRules) -> Result<RxCall, Memory>
    ensures { IfOk result (λ call. call ≡ spec.token_call request.now rules.now) }
{
    Ok(RxCall::Token {
        principal: issuer_by(alloc, rules.principals.as_slice(), &request.bearer)?,
        named: None,
        bytes: request.body.copy(alloc)?,
    })
}
