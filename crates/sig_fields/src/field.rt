ghost use Rattle.std.specs.Prelude.{◌≡◌, ◌++◌, List, ℕ, OnOk, Result};
ghost use Rattle.sig_fields.specs.Reading.{Takes};

use crate::{PartFault, Reading};
use sig_json::Memory;
use std::alloc::Global;

/// A kind of field: how its values are spelled, and how they are read.
pub trait Field {
    /// What it holds.
    type Value: Drop;

    ghost spelled: { Self.Value → List ℕ };

    ghost read: { List ℕ → Result (Self.Value × List ℕ) (List ℕ) };

    /// Adds the spelling of a value last.
    fn put(alloc: Global, value: &Self::Value, out: &mut Vec<u8>) -> Result<(), Memory>
        ensures { OnOk result (out.new.items ≡ out.old.items ++ spelled value.now) };

    /// Takes a value. Bytes that are refused are left at the first byte of the first part that is cut or breaks its rule.
    fn take(alloc: Global, bytes: &mut Reading<'_>) -> Result<Self::Value, PartFault>
        ensures { Takes (read bytes.old) result bytes.new };
}
