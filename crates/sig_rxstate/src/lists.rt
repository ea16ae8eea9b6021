//! Lists with a count of eight bytes.

ghost use Rattle.std.specs.Prelude.{◌≡◌, ◌++◌, OnOk};
ghost use Rattle.sig_rxstate.specs.Lists.{list_bytes};

use sig_fields::{Field, put_number};
use sig_json::Memory;
use std::alloc::Global;

/// Adds a list last: a count and so many items.
pub(crate) fn put_list<F: Field>(
    alloc: Global,
    items: &[F::Value],
    out: &mut Vec<u8>,
) -> Result<(), Memory>
    ensures { OnOk result (out.new.items ≡ out.old.items ++ list_bytes F.spelled items.now) }
{
    put_number(out, items.len() as u64)?;
    for item in items {
        F::put(alloc, item, out)?;
    }
    Ok(())
}
