//! Who shows a bearer (RFC 6750, section 2.1). Bearers are compared byte for byte.

ghost use Rattle.std.specs.Prelude.{◌≡◌, IfOk};
ghost use Rattle.sig_json.specs.Answers.{Answers};
ghost use Rattle.sig_txroutes.specs.Calls as spec;

use sig_http::{HttpRefusal, Request};
use sig_json::{Memory, Text};
use sig_terms::{Client, Rules};
use std::alloc::Global;

/// The name of the client whose bearer the request shows; of two clients with one bearer it is the first's. `Auth` comes
/// exactly where it shows none, or that of no client.
pub fn client_by(alloc: Global, rules: &Rules, request: &Request) -> Result<Text, HttpRefusal>
    ensures { Answers HttpRefusal.Memory result (spec.client_by rules.now request.now) }
{
    match client_with(alloc, rules.clients.as_slice(), &request.bearer)? {
        Some(name) => Ok(name),
        None => Err(HttpRefusal::Auth),
    }
}

fn client_with(
    alloc: Global,
    clients: &[Client],
    shown: &Option<Text>,
) -> Result<Option<Text>, Memory>
    ensures { IfOk result (λ name. name ≡ spec.client_among clients.now shown.now) }
{
    match clients.iter().find(|client| shows(shown, &client.bearer)) {
        Some(client) => Ok(Some(client.name.copy(alloc)?)),
        None => Ok(None),
    }
}

/// Whether the bearer that is shown, where there is one, is this one.
pub fn shows(shown: &Option<Text>, bearer: &Text) -> bool
    ensures { result ≡ spec.shows shown.now bearer.now }
{
    match shown {
        Some(shown) => shown.as_str() == bearer.as_str(),
        None => false,
    }
}
