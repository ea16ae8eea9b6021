ghost use Rattle.std.specs.Prelude.{◌≡◌, IfOk};

use crate::{Bytes, Items, Memory, Text};
use std::alloc::Global;

/// A copy that contracts see as the same value. It stands beside each type's own `copy`, so that lists are copied
/// by one function.
pub trait Copied: Sized {
    /// An equal value.
    fn copied(&self, alloc: Global) -> Result<Self, Memory>
        ensures { IfOk result (λ c. c ≡ self.now) };
}

impl Copied for Text {
    fn copied(&self, alloc: Global) -> Result<Text, Memory> {
        self.copy(alloc)
    }
}

impl Copied for Bytes {
    fn copied(&self, alloc: Global) -> Result<Bytes, Memory> {
        self.copy(alloc)
    }
}

/// Equal items in the same order.
pub fn copy_items<T: Copied + Drop>(alloc: Global, items: &Items<T>) -> Result<Items<T>, Memory>
    ensures { IfOk result (λ c. c ≡ items.now) }
{
    let list = items.as_slice();
    let mut out = Vec::new(alloc);
    for item in list {
        let copy = item.copied(alloc)?;
        out.push(copy)?;
    }
    Ok(Items::of(out))
}

/// An equal value, where there is one.
pub fn copy_optional<T: Copied + Drop>(
    alloc: Global,
    optional: &Option<T>,
) -> Result<Option<T>, Memory>
    ensures { IfOk result (λ c. c ≡ optional.now) }
{
    match optional {
        Some(value) => Ok(Some(value.copied(alloc)?)),
        None => Ok(None),
    }
}
