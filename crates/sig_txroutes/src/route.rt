//! The table of routes.

ghost use Rattle.std.specs.Prelude.{◌≡◌, IfOk, codes, false, find, map, option_map};
ghost use Rattle.std.specs.List.{join_by};
ghost use Rattle.sig_json.specs.Answers.{Answers};
ghost use Rattle.sig_txroutes.specs.Routes as spec;

use sig_http::HttpRefusal;
use sig_json::{Memory, Text};
use std::alloc::Global;

/// A route: what a request at its path with its method is read as, and who may make it.
#[derive(Clone, Copy, PartialEq, Eq)]
pub enum Route {
    /// Anybody reads what the transmitter offers (OpenID Shared Signals Framework 1.0, section 7.1).
    Metadata,
    /// A client makes a call that the query says.
    Query(QueryCall),
    /// A client makes a call that the body says.
    Body(BodyCall),
    /// A client polls the stream that the path names (RFC 8936, section 2).
    Poll,
    /// The operator makes a call that the body says.
    Operator(OperatorCall),
    /// The operator makes a call that the query says.
    OperatorQuery(OperatorQuery),
}

/// A call of a client that the query says (OpenID Shared Signals Framework 1.0, section 8.1).
#[derive(Clone, Copy, PartialEq, Eq)]
pub enum QueryCall {
    /// It reads the configuration of one stream, or of all.
    Read,
    /// It deletes a stream.
    Delete,
    /// It reads the status of a stream.
    GetStatus,
}

/// A call of a client that the body says (OpenID Shared Signals Framework 1.0, section 8.1).
#[derive(Clone, Copy, PartialEq, Eq)]
pub enum BodyCall {
    /// It makes a stream.
    Create,
    /// It changes a part of a stream's configuration.
    Patch,
    /// It replaces a stream's configuration.
    Put,
    /// It sets the status of a stream.
    SetStatus,
    /// It adds a subject to a stream.
    Add,
    /// It removes a subject from a stream.
    Remove,
    /// It asks for a verification of a stream.
    Verify,
}

/// A call of the operator, which the body says.
#[derive(Clone, Copy, PartialEq, Eq)]
pub enum OperatorCall {
    /// It publishes an event.
    Publish,
    /// It sets the status of a stream.
    SetStatus,
    /// It asks for a round of pushes of a stream.
    Deliver,
}

/// A call of the operator, which the query says.
#[derive(Clone, Copy, PartialEq, Eq)]
pub enum OperatorQuery {
    /// It deletes a stream of any client.
    Delete,
    /// It reads how the streams of all clients stand.
    Streams,
    /// It reads which tokens were reported as faulty.
    Refused,
    /// It reads the figures of the transmitter.
    Figures,
}

/// A row of the table: the method, the path, and whether a stream's name follows that path.
#[derive(Clone, Copy)]
pub struct Row {
    pub method: &'static str,
    pub path: &'static str,
    pub named: bool,
}

fn at(method: &'static str, path: &'static str) -> Row
    ensures method { result.method.now ≡ method.now }
    ensures path { result.path.now ≡ path.now }
    ensures named { result.named ≡ false }
{
    Row {
        method,
        path,
        named: false,
    }
}

impl Route {
    /// Every route, in the order of the table.
    #[tactic(auto, unfolding(crate::specs::Routes::routes))]
    pub fn all() -> &'static [Route]
        ensures { result.now ≡ spec.routes }
    {
        &[
            Route::Metadata,
            Route::Body(BodyCall::Create),
            Route::Query(QueryCall::Read),
            Route::Body(BodyCall::Patch),
            Route::Body(BodyCall::Put),
            Route::Query(QueryCall::Delete),
            Route::Query(QueryCall::GetStatus),
            Route::Body(BodyCall::SetStatus),
            Route::Body(BodyCall::Add),
            Route::Body(BodyCall::Remove),
            Route::Body(BodyCall::Verify),
            Route::Poll,
            Route::Operator(OperatorCall::Publish),
            Route::Operator(OperatorCall::SetStatus),
            Route::Operator(OperatorCall::Deliver),
            Route::OperatorQuery(OperatorQuery::Delete),
            Route::OperatorQuery(OperatorQuery::Streams),
            Route::OperatorQuery(OperatorQuery::Refused),
            Route::OperatorQuery(OperatorQuery::Figures),
        ]
    }

    /// Its row of the table.
    #[tactic(auto, unfolding(crate::specs::Routes::row_of))]
    pub fn row(self) -> Row
        ensures method { result.method.now ≡ (spec.row_of self).method }
        ensures path { result.path.now ≡ (spec.row_of self).path }
        ensures named { result.named ≡ (spec.row_of self).named }
    {
        match self {
            Route::Metadata => at("GET", "/.well-known/ssf-configuration"),
            Route::Body(BodyCall::Create) => at("POST", "/ssf/stream"),
            Route::Query(QueryCall::Read) => at("GET", "/ssf/stream"),
            Route::Body(BodyCall::Patch) => at("PATCH", "/ssf/stream"),
            Route::Body(BodyCall::Put) => at("PUT", "/ssf/stream"),
            Route::Query(QueryCall::Delete) => at("DELETE", "/ssf/stream"),
            Route::Query(QueryCall::GetStatus) => at("GET", "/ssf/status"),
            Route::Body(BodyCall::SetStatus) => at("POST", "/ssf/status"),
            Route::Body(BodyCall::Add) => at("POST", "/ssf/subjects/add"),
            Route::Body(BodyCall::Remove) => at("POST", "/ssf/subjects/remove"),
            Route::Body(BodyCall::Verify) => at("POST", "/ssf/verification"),
            Route::Poll => Row {
                method: "POST",
                path: "/poll/",
                named: true,
            },
            Route::Operator(OperatorCall::Publish) => at("POST", "/operator/publish"),
            Route::Operator(OperatorCall::SetStatus) => at("POST", "/operator/status"),
            Route::Operator(OperatorCall::Deliver) => at("POST", "/operator/deliver"),
            Route::OperatorQuery(OperatorQuery::Delete) => at("DELETE", "/operator/stream"),
            Route::OperatorQuery(OperatorQuery::Streams) => at("GET", "/operator/streams"),
            Route::OperatorQuery(OperatorQuery::Refused) => at("GET", "/operator/refused"),
            Route::OperatorQuery(OperatorQuery::Figures) => at("GET", "/operator/metrics"),
        }
    }

    /// Whether it is at this path.
    pub fn is_at(self, path: &str) -> bool
        ensures { result ≡ spec.is_at path.now self }
    {
        let row = self.row();
        if row.named {
            path.as_bytes().starts_with(row.path.as_bytes())
        } else {
            path == row.path
        }
    }

    /// Whether it is for requests of this method at this path.
    pub fn is_for(self, method: &str, path: &str) -> bool
        ensures { result ≡ spec.is_for method.now path.now self }
    {
        method == self.row().method && self.is_at(path)
    }
}

/// The route for a method and a path.
///
/// `Path` comes exactly where no route is at the path, and else `Method` exactly where none at it has the method, with
/// the methods that those have, in the order of the table.
pub fn route_for(alloc: Global, method: &str, path: &str) -> Result<Route, HttpRefusal>
    ensures { Answers HttpRefusal.Memory result (spec.route_for method.now path.now) }
{
    if !is_known(path) {
        return Err(HttpRefusal::Path);
    }
    match found(method, path) {
        Some(route) => Ok(route),
        None => Err(HttpRefusal::Method {
            allow: allowed(alloc, path)?,
        }),
    }
}

/// The row of the route for requests of this method at this path, where there is one.
pub fn row_for(method: &str, path: &str) -> Option<Row>
    ensures method { option_map (λ row. row.method.now) result ≡ option_map spec.method_of (find (spec.is_for method.now path.now) spec.routes) }
    ensures path { option_map (λ row. row.path.now) result ≡ option_map (λ r. (spec.row_of r).path) (find (spec.is_for method.now path.now) spec.routes) }
{
    match found(method, path) {
        Some(route) => Some(route.row()),
        None => None,
    }
}

fn is_known(path: &str) -> bool
    ensures { result ≡ spec.is_known path.now }
{
    Route::all().iter().any(|route| route.is_at(path))
}

fn found(method: &str, path: &str) -> Option<Route>
    ensures { result ≡ find (spec.is_for method.now path.now) spec.routes }
{
    Route::all()
        .iter()
        .copied()
        .find(|route| route.is_for(method, path))
}

// The methods of the routes at a path, as the field `allow` lists them.
fn allowed(alloc: Global, path: &str) -> Result<Text, Memory>
    ensures { IfOk result (λ allow. allow ≡ spec.allowed path.now) }
{
    let methods = methods_at(alloc, path)?;
    joined(alloc, methods.as_slice())
}

#[tactic(auto, using(crate::proofs::Joined::join_texts))]
fn joined(alloc: Global, methods: &[&str]) -> Result<Text, Memory>
    ensures { IfOk result (λ text. text ≡ join_by (λ m. m) (codes ", ") (map (λ m. m.now) methods.now)) }
{
    let text = methods.join(alloc, ", ")?;
    Ok(Text::from_string(text))
}

fn methods_at(alloc: Global, path: &str) -> Result<Vec<&'static str>, Memory>
    ensures { IfOk result (λ methods. map (λ m. m.now) methods.items ≡ spec.methods_at path.now) }
{
    let mut methods = Vec::new(alloc);
    for route in Route::all() {
        if route.is_at(path) {
            methods.push(route.row().method)?;
        }
    }
    Ok(methods)
}

/// The stream's name in the path of a poll: what follows `/poll/`, as it stands.
pub fn polled_in(path: &str) -> &str
    ensures { result.now ≡ spec.polled_in path.now }
{
    match path.strip_prefix("/poll/") {
        Some(name) => name,
        None => "",
    }
}
