ghost use Rattle.std.specs.Prelude.{◌≡◌, ◌+◌, ◌<◌, ◌^◌};

use sig_json::{Copied, Memory, Same, Text};
use std::alloc::Global;
use std::marker::Model;

/// How many streams a client ever made.
#[derive(Drop)]
pub struct Counted {
    client: Text,
    count: u64,
}

impl Model for Counted {
    ghost use Rattle.sig_history.specs.Streams.{Count};

    ghost Value = { Count };

    ghost view = { λ c. record { client = c.client; count = c.count } };
}

impl Counted {
    /// The count of a client's first stream.
    pub fn first(client: Text) -> Counted
        ensures { result ≡ record { client = client; count = 1 } }
    {
        Counted { client, count: 1 }
    }

    /// The client's name.
    pub fn client(&self) -> &Text
        ensures { result.now ≡ self.now.client }
    {
        &self.client
    }

    /// How many.
    pub fn count(&self) -> u64
        ensures { result ≡ self.now.count }
    {
        self.count
    }

    /// Counts one more.
    pub fn add(&mut self)
        requires { self.old.count + 1 < 2 ^ 64 }
        ensures { self.new ≡ record { client = self.old.client; count = self.old.count + 1 } }
    {
        self.count += 1;
    }
}

impl Copied for Counted {
    fn copied(&self, alloc: Global) -> Result<Counted, Memory> {
        Ok(Counted {
            client: self.client.copy(alloc)?,
            count: self.count,
        })
    }
}

impl Same for Counted {
    fn same(&self, other: &Counted) -> bool {
        self.client.same(&other.client) && self.count == other.count
    }
}
