//! Bearers that are of one caller each.

ghost use Rattle.std.specs.Prelude.{◌≡◌, ◌⊎◌, ◌||◌, ◌∷◌, [], bytes_eq, codes};
ghost use Rattle.sig_json.specs.Answers.{Answers};
ghost use Rattle.sig_settings.specs.Bearers.{differ, placed_from};
ghost use Rattle.sig_settings.specs.Lists.{is_among};
ghost use Rattle.sig_settings.specs.Paths.{path_text};

use crate::path::{deeper, in_member, told};
use crate::{SettingsFault, Step, TextOf, is_among, itself};
use sig_json::Text;
use std::alloc::Global;

/// Whether the bearers of a list's items differ from this one, which was read before them, and from each other. The later of
/// two equal ones is told, as `clients[1].bearer`.
pub fn bearers_differ<K: TextOf>(
    alloc: Global,
    first: &Text,
    items: &[K::Item],
    name: &str,
) -> Result<(), SettingsFault>
    ensures { Answers SettingsFault.Memory result (differ (first.now ∷ []) (placed_from K.text name.now 0 items.now)) }
{
    for (i, item) in items.iter().enumerate() {
        if was_read::<K>(K::text_of(item), first, &items[..i]) {
            return Err(repeated_at(alloc, name, i));
        }
    }
    Ok(())
}

/// Whether a bearer is this first one, or that of one of these items.
pub fn was_read<K: TextOf>(bearer: &Text, first: &Text, items: &[K::Item]) -> bool
    ensures { result ≡ (bytes_eq first.now bearer.now || is_among K.text bearer.now items.now) }
{
    first.as_str() == bearer.as_str() || is_among::<K>(bearer, items)
}

fn repeated_at(alloc: Global, name: &str, place: usize) -> SettingsFault
    ensures { (result ≡ SettingsFault.Memory) ⊎ (result ≡ SettingsFault.Refused (path_text (Step.Member name.now ∷ Step.Place place ∷ Step.Member (codes "bearer") ∷ []))) }
{
    let bearer = in_member(alloc, "bearer", itself(alloc));
    let item = deeper(Step::Place(place), bearer);
    told(alloc, in_member(alloc, name, item))
}
