//! The table of routes.

ghost use Rattle.std.specs.Prelude.{◌≡◌};
ghost use Rattle.sig_rxroutes.specs.Routes as spec;

/// A route: what a request at its path with its method is read as.
#[derive(Clone, Copy, PartialEq, Eq)]
pub enum RxRoute {
    /// A token is pushed (RFC 8935, section 2.1).
    Push,
    /// A page of the session table is read.
    Rows,
    /// What the session table says of a subject is asked.
    Check,
    /// The figures of the receiver are read.
    Figures,
}

impl RxRoute {
    /// Every route, in the order of the table.
    #[tactic(auto, unfolding(crate::specs::Routes::routes))]
    pub fn all() -> &'static [RxRoute]
        ensures { result.now ≡ spec.routes }
    {
        &[
            RxRoute::Push,
            RxRoute::Rows,
            RxRoute::Check,
            RxRoute::Figures,
        ]
    }

    /// Its method.
    #[tactic(auto, unfolding(crate::specs::Routes::method_of))]
    pub fn method(self) -> &'static str
        ensures { result.now ≡ spec.method_of self }
    {
        match self {
            RxRoute::Push | RxRoute::Check => "POST",
            RxRoute::Rows | RxRoute::Figures => "GET",
        }
    }

    /// Its path, which no other route has.
    #[tactic(auto, unfolding(crate::specs::Routes::path_of))]
    pub fn path(self) -> &'static str
        ensures { result.now ≡ spec.path_of self }
    {
        match self {
            RxRoute::Push => "/push",
            RxRoute::Rows => "/sessions",
            RxRoute::Check => "/sessions/check",
            RxRoute::Figures => "/metrics",
        }
    }
}

/// The route at a path; none exactly where no route is there.
pub fn route_at(path: &str) -> Option<RxRoute>
    ensures { result ≡ spec.route_at path.now }
{
    RxRoute::all()
        .iter()
        .copied()
        .find(|route| path == route.path())
}
