//! Lists in settings.

ghost use Rattle.std.specs.Prelude.{◌≡◌, ℕ, List};
ghost use Rattle.serde_json.specs.View.{items_view, view};
ghost use Rattle.sig_json.specs.Answers.{Answers};
ghost use Rattle.sig_settings.specs.Lists as spec;

use crate::path::deeper;
use crate::{SettingKind, Step, ValueFault, itself};
use sig_json::{Items, Text, Value};
use std::alloc::Global;
use std::marker::PhantomData;

/// A list whose items are all of one kind.
pub struct ListOf<K> {
    kind: PhantomData<K>,
}

impl<K: SettingKind> SettingKind for ListOf<K> {
    type Kept = Items<K::Kept>;

    ghost said = { spec.list_at K.said };

    fn keep(alloc: Global, value: &Value) -> Result<Items<K::Kept>, ValueFault> {
        match value.as_array() {
            Some(items) => all_kept::<K>(alloc, items.as_slice()),
            None => Err(itself(alloc)),
        }
    }
}

// What the items say, where each is of the kind.
fn all_kept<K: SettingKind>(alloc: Global, items: &[Value]) -> Result<Items<K::Kept>, ValueFault>
    ensures { Answers ValueFault.Memory result (spec.items_kept K.said 0 (items_view items.now)) }
{
    let mut all = Vec::new(alloc);
    for (i, item) in items.iter().enumerate() {
        let kept = kept_at::<K>(alloc, item, i)?;
        all.push(kept)?;
    }
    Ok(Items::of(all))
}

// What the item at this place says.
fn kept_at<K: SettingKind>(alloc: Global, item: &Value, place: usize) -> Result<K::Kept, ValueFault>
    ensures { Answers ValueFault.Memory result (spec.kept_at K.said place (view item.now)) }
{
    match K::keep(alloc, item) {
        Ok(kept) => Ok(kept),
        Err(fault) => Err(deeper(Step::Place(place), fault)),
    }
}

/// A text of each item of a list, by which the items are told apart.
pub trait TextOf {
    type Item;

    ghost text: { Self.Item → List ℕ };

    /// The item's text.
    fn text_of(item: &Self::Item) -> &Text
        ensures { result.now ≡ text item.now };
}

/// Whether no two items have one text.
pub fn each_once<K: TextOf>(items: &[K::Item]) -> bool
    ensures { result ≡ spec.each_once K.text items.now }
{
    for (i, item) in items.iter().enumerate() {
        if is_among::<K>(K::text_of(item), &items[i + 1..]) {
            return false;
        }
    }
    true
}

/// Whether an item has this text.
pub fn is_among<K: TextOf>(text: &Text, items: &[K::Item]) -> bool
    ensures { result ≡ spec.is_among K.text text.now items.now }
{
    for item in items {
        if K::text_of(item).as_str() == text.as_str() {
            return true;
        }
    }
    false
}
