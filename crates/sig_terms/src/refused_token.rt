ghost use Rattle.std.specs.Prelude.{◌≡◌, IfOk};

use sig_json::{Copied, Memory, Same, Text, copy_optional};
use std::alloc::Global;

/// A token that its receiver reported as faulty (RFC 8935, section 2.3; RFC 8936, section 2.4).
#[derive(Drop)]
pub struct RefusedToken {
    /// The name of its stream.
    pub stream: Text,
    /// Its number among the tokens of its stream, from 1 to 2^62.
    pub number: u64,
    /// The name of the publication that made it; none where no publication did.
    pub id: Option<Text>,
    /// Why, as the receiver said it; none where that has more than 64 bytes.
    pub code: Option<Text>,
    /// When it was made, in seconds since 1970.
    pub time: u64,
}

impl RefusedToken {
    /// An equal one.
    pub fn copy(&self, alloc: Global) -> Result<RefusedToken, Memory>
        ensures { IfOk result (λ t. t ≡ self.now) }
    {
        let stream = self.stream.copy(alloc)?;
        let id = copy_optional(alloc, &self.id)?;
        Ok(RefusedToken {
            stream,
            number: self.number,
            id,
            code: copy_optional(alloc, &self.code)?,
            time: self.time,
        })
    }
}

impl Copied for RefusedToken {
    fn copied(&self, alloc: Global) -> Result<RefusedToken, Memory> {
        self.copy(alloc)
    }
}

impl Same for RefusedToken {
    fn same(&self, other: &RefusedToken) -> bool {
        self.stream.same(&other.stream)
            && self.number.same(&other.number)
            && self.id.same(&other.id)
            && self.code.same(&other.code)
            && self.time.same(&other.time)
    }
}
