//! What a receiver sets of a stream, and what a client's name is, against their limits.

ghost use Rattle.std.specs.Prelude.{◌≡◌, ◌&&◌, ◌+◌, length, nat_le};
ghost use Rattle.std.specs.List.{list_all};
ghost use Rattle.sig_history.specs.Sizes as sizes;
ghost use Rattle.sig_history.specs.Sizes.{bytes_of};
ghost use Rattle.sig_history.specs.Sound as sound;
ghost use Rattle.sig_history.specs.declared.limits.TheConstants.{SETTING_BYTES, SETTING_ITEMS};

use sig_history::limits::{SETTING_BYTES, SETTING_ITEMS};
use sig_json::limits::CLIENT_NAME_BYTES;
use sig_json::{Items, Text};
use sig_terms::Delivery;

// Whether a byte is a character of a client's name.
fn is_name_character(byte: u8) -> bool
    ensures { result ≡ sound.is_name_character byte }
{
    byte.is_ascii_lowercase() || byte.is_ascii_digit()
}

fn are_name_characters(bytes: &[u8]) -> bool
    ensures { result ≡ list_all sound.is_name_character bytes.now }
{
    bytes.iter().all(|byte| is_name_character(*byte))
}

/// Whether a text is a client's name: 1 to 32 characters of a to z and 0 to 9.
pub(crate) fn is_client_name(name: &str) -> bool
    ensures { result ≡ sound.is_client_name name.now }
{
    let bytes = name.as_bytes();
    0 < bytes.len() && bytes.len() <= CLIENT_NAME_BYTES && are_name_characters(bytes)
}

// Whether texts have few enough bytes together.
fn are_within(texts: &[Text]) -> bool
    ensures { result ≡ nat_le (bytes_of texts.now) SETTING_BYTES }
{
    let mut left = SETTING_BYTES;
    for text in texts {
        let size = text.as_str().len();
        if left < size {
            return false;
        }
        left -= size;
    }
    true
}

fn are_requested_small(requested: &Option<Items<Text>>) -> bool
    ensures { result ≡ (nat_le (sizes.requested_bytes requested.now) SETTING_BYTES && nat_le (sizes.requested_items requested.now) SETTING_ITEMS) }
{
    match requested {
        None => true,
        Some(texts) => { are_within(texts.as_slice()) && texts.as_slice().len() <= SETTING_ITEMS }
    }
}

// The bytes of a text, where it is given.
fn given_bytes(text: &Option<Text>) -> usize
    ensures { result ≡ sizes.given_bytes text.now }
{
    match text {
        None => 0,
        Some(text) => text.as_str().len(),
    }
}

// Whether two sizes are small enough together.
fn is_within(size: usize, more: usize) -> bool
    ensures { result ≡ nat_le (size + more) SETTING_BYTES }
{
    size <= SETTING_BYTES && more <= SETTING_BYTES - size
}

fn is_delivery_small(delivery: &Delivery) -> bool
    ensures { result ≡ nat_le (sizes.delivery_bytes delivery.now) SETTING_BYTES }
{
    match delivery {
        Delivery::Poll => true,
        Delivery::Push {
            url,
            authorization,
            ..
        } => is_within(url.as_str().len(), given_bytes(authorization)),
    }
}

/// Whether what a receiver sets of a stream is within the limits.
pub(crate) fn is_small(
    requested: &Option<Items<Text>>,
    delivery: &Delivery,
    description: &Option<Text>,
) -> bool
    ensures { result ≡ sound.is_small requested.now delivery.now description.now }
{
    are_requested_small(requested)
        && is_delivery_small(delivery)
        && given_bytes(description) <= SETTING_BYTES
}
