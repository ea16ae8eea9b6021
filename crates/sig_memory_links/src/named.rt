//! Settings and stores by their names.

ghost use Rattle.std.specs.Prelude.{◌≡◌, ◌+◌, ◌<◌, ℕ, List, IfSome, IsNone, length, slice_index_or, vec_capacity};
ghost use Rattle.std.specs.List.{remove};
ghost use Rattle.sig_memory_links.specs.Named.{but_named, first_named};

use sig_json::Text;
use sig_outside::{MemDisk, MemSource};

/// Settings with their name.
#[derive(Drop)]
pub struct NamedSource {
    pub name: Text,
    pub source: MemSource,
}

/// The file of a store with its name.
#[derive(Drop)]
pub struct NamedDisk {
    pub name: Text,
    pub disk: MemDisk,
}

// What is found by its name.
pub(crate) trait Named {
    ghost name: { Self → List ℕ };

    fn name(&self) -> &Text
        ensures { result.now ≡ name self.now };
}

impl Named for NamedSource {
    ghost name = { λ given. given.name };

    fn name(&self) -> &Text {
        &self.name
    }
}

impl Named for NamedDisk {
    ghost name = { λ given. given.name };

    fn name(&self) -> &Text {
        &self.name
    }
}

impl Named for Text {
    ghost name = { λ text. text };

    fn name(&self) -> &Text {
        self
    }
}

// Takes off the first with this name.
pub(crate) fn take_named<T: Named>(list: &mut Vec<T>, name: &str) -> Option<T>
    ensures value { result ≡ first_named T.name name.now list.old.items }
    ensures others { list.new.items ≡ but_named T.name name.now list.old.items }
    ensures room { vec_capacity list.new ≡ vec_capacity list.old }
    ensures shorter { IfSome result (λ taken. length list.new.items + 1 ≡ length list.old.items) }
    ensures none { IsNone result → list.new.items ≡ list.old.items }
{
    let at = place_of(list.as_slice(), name)?;
    Some(list.remove(at))
}

// Where the first with this name stands.
pub(crate) fn place_of<T: Named>(list: &[T], name: &str) -> Option<usize>
    ensures within { IfSome result (λ at. at < length list.now) }
    ensures value { IfSome result (λ at. (d : T) → first_named T.name name.now list.now ≡ Some (slice_index_or list.now at d)) }
    ensures others { IfSome result (λ at. but_named T.name name.now list.now ≡ remove list.now at) }
    ensures none { IsNone result → (first_named T.name name.now list.now ≡ None) × (but_named T.name name.now list.now ≡ list.now) }
{
    for (at, item) in list.iter().enumerate() {
        if item.name().as_str() == name {
            return Some(at);
        }
    }
    None
}
