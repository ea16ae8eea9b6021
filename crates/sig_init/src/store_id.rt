//! The word that a store's id is written as.

ghost use Rattle.std.specs.Prelude.{◌≡◌};
ghost use Rattle.uuid.specs.Text.{parsed};

use uuid::Uuid;

/// The sixteen bytes of the UUID that a word spells (RFC 9562, section 4), in any of the forms that `uuid` reads; none exactly
/// where it spells none.
pub fn store_id_of(word: &str) -> Option<[u8; 16]>
    ensures { result ≡ parsed word.now }
{
    match Uuid::parse_str(word) {
        Ok(id) => Some(id.into_bytes()),
        Err(_) => None,
    }
}
