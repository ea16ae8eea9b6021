//! The tree that the bytes of settings spell.

ghost use Rattle.std.specs.Prelude.{◌≡◌, IfOk};
ghost use Rattle.sig_stray.specs.Strays.{strays_of};

use crate::walk::held_strays;
use crate::{Holds, ObjectKind, Stray};
use json::{Error, Scratch, Value};
use sig_json::Memory;
use std::alloc::Global;

/// The strays of settings of this kind, in the order in which they stand; none where the bytes spell no JSON value.
pub fn strays_on(alloc: Global, kind: ObjectKind, bytes: &[u8]) -> Result<Vec<Stray>, Memory>
    ensures { IfOk result (λ strays. strays.items ≡ strays_of kind bytes.now) }
{
    let mut scratch = Scratch::new(alloc);
    match Value::from_slice(alloc, bytes, &mut scratch) {
        Ok(value) => held_strays(alloc, Holds::Object(kind), &value),
        Err(Error::Invalid) => Ok(Vec::new(alloc)),
        // No other error comes but that memory ran out.
        Err(_) => Err(Memory),
    }
}
