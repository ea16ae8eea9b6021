ghost use Rattle.std.specs.Prelude.{◌≡◌, IfOk};

use sig_json::{Memory, Text};
use std::alloc::Global;

/// Where a link leads: a host and a port.
#[derive(Drop)]
pub struct Place {
    /// The name or the address of the host, as a URL has it.
    pub host: Text,
    pub port: u16,
}

impl Place {
    /// An equal place. Out of memory is its only error.
    pub fn copy(&self, alloc: Global) -> Result<Place, Memory>
        ensures { IfOk result (λ place. place ≡ self.now) }
    {
        Ok(Place {
            host: self.host.copy(alloc)?,
            port: self.port,
        })
    }
}
