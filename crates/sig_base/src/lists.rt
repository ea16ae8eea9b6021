//! Lists with a count of eight bytes.

ghost use Rattle.sig_fields.specs.Kinds as kinds;
ghost use Rattle.sig_fields.specs.Reading.{Takes};
ghost use Rattle.sig_base.specs.Lists as lists;

use sig_fields::{Field, PartFault, Reading, put_number};
use sig_json::{Items, Memory};
use std::alloc::Global;
use std::marker::PhantomData;

/// A list, as a count in eight bytes and so many fields.
pub(crate) struct LongList<F> {
    field: PhantomData<F>,
}

impl<F: Field> Field for LongList<F> {
    type Value = Items<F::Value>;

    ghost spelled = { lists.list_bytes F.spelled };

    ghost read = { lists.list F.read };

    fn put(alloc: Global, value: &Items<F::Value>, out: &mut Vec<u8>) -> Result<(), Memory> {
        let items = value.as_slice();
        put_number(out, items.len() as u64)?;
        for item in items {
            F::put(alloc, item, out)?;
        }
        Ok(())
    }

    fn take(alloc: Global, bytes: &mut Reading<'_>) -> Result<Items<F::Value>, PartFault> {
        let count = bytes.take_number()?;
        take_items::<F>(alloc, bytes, count)
    }
}

// So many items.
fn take_items<F: Field>(
    alloc: Global,
    bytes: &mut Reading<'_>,
    count: u64,
) -> Result<Items<F::Value>, PartFault>
    ensures { Takes (kinds.items F.read count bytes.old) result bytes.new }
{
    let mut items = Vec::new(alloc);
    for _ in 0..count {
        let item = F::take(alloc, bytes)?;
        items.push(item)?;
    }
    Ok(Items::of(items))
}
