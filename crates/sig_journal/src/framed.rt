ghost use Rattle.std.specs.Prelude.{◌≡◌, ◌<◌, ◌^◌, length, IfOk};
ghost use Rattle.sig_journal.specs.Layout.{framed_bytes};

use sig_json::Memory;
use std::alloc::Global;
use std::marker::Model;

/// A record as it is written after its gate: its length, its payload and the closed gate of the next. Contracts see it as
/// its payload.
#[derive(Drop)]
pub struct Framed {
    bytes: Vec<u8>,
}

impl Model for Framed {
    ghost use Rattle.std.specs.Prelude.{◌≡◌, ◌<◌, ◌^◌, ◌+◌, ◌-◌, ℕ, List, length};
    ghost use Rattle.sig_journal.specs.Layout.{field, framed_bytes};

    ghost Value = { List ℕ };

    ghost view = { λ f. field 4 (length f.bytes.items - 5) f.bytes.items };

    ghost invariant = { λ f. (f.bytes.items ≡ framed_bytes (field 4 (length f.bytes.items - 5) f.bytes.items)) × (length f.bytes.items < 2 ^ 32 + 5) };
}

impl Framed {
    // What is written of it.
    pub(crate) fn bytes(&self) -> &[u8]
        ensures bytes { result.now ≡ framed_bytes self.now }
        ensures bound { length self.now < 2 ^ 32 }
    {
        self.bytes.as_slice()
    }
}

/// Frames a payload, which has fewer than 2^32 bytes.
pub fn frame(alloc: Global, payload: &[u8]) -> Result<Framed, Memory>
    requires { length payload.now < 2 ^ 32 }
    ensures { IfOk result (λ framed. framed ≡ payload.now) }
{
    let mut bytes = Vec::with_capacity(alloc, payload.len() + 5)?;
    bytes.extend_from_slice(&(payload.len() as u32).to_be_bytes())?;
    bytes.extend_from_slice(payload)?;
    bytes.push(0)?;
    Ok(Framed { bytes })
}
