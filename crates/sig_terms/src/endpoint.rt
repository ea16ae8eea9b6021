ghost use Rattle.std.specs.Prelude.{◌≡◌, IfOk};

use sig_json::{Copied, Memory, Same, Text};
use sig_outside::Place;
use std::alloc::Global;

/// Where the tokens of a push stream are sent: what a URL says (RFC 8935, section 2; RFC 3986, section 3).
#[derive(Drop)]
pub struct Endpoint {
    /// Whether it is `https`.
    pub secure: bool,
    /// The host and the port.
    pub place: Place,
    /// The path, which begins with `/`.
    pub path: Text,
}

impl Endpoint {
    /// An equal endpoint.
    pub fn copy(&self, alloc: Global) -> Result<Endpoint, Memory>
        ensures { IfOk result (λ e. e ≡ self.now) }
    {
        Ok(Endpoint {
            secure: self.secure,
            place: self.place.copy(alloc)?,
            path: self.path.copy(alloc)?,
        })
    }
}

impl Copied for Endpoint {
    fn copied(&self, alloc: Global) -> Result<Endpoint, Memory> {
        self.copy(alloc)
    }
}

impl Same for Endpoint {
    fn same(&self, other: &Endpoint) -> bool {
        self.secure == other.secure
            && self.place.host.same(&other.place.host)
            && self.place.port == other.place.port
            && self.path.same(&other.path)
    }
}
