//! Texts that name streams and tokens.

ghost use Rattle.std.specs.Prelude.{◌≡◌, IfOk};
ghost use Rattle.std.specs.List.{before_first};
ghost use Rattle.sig_history.specs.Streams as streams;
ghost use Rattle.sig_accounts.specs.Owings.{is_hyphen};

use sig_json::{Memory, Text};
use std::alloc::Global;
use uuid::Uuid;

/// A stream's name: its client's name, a hyphen and its number.
pub fn stream_name(alloc: Global, client: &str, number: u64) -> Result<Text, Memory>
    ensures { IfOk result (λ t. t ≡ streams.stream_name client.now number) }
{
    Ok(Text::from_string(format!(in alloc; "{client}-{number}")?))
}

/// The client whose stream has this name: what stands before the first hyphen. It takes no memory.
#[tactic(auto, using(crate::proofs::TextLemmas::client_before))]
pub fn client_in(stream: &str) -> &str
    ensures { result.now ≡ streams.client_in stream.now }
{
    before_hyphen(stream)
}

fn before_hyphen(text: &str) -> &str
    ensures { result.now ≡ before_first is_hyphen text.now }
{
    match text.split_once('-') {
        None => text,
        Some((front, _)) => front,
    }
}

/// A token's identifier: the store, the stream and its number, with dots between.
pub fn jti_text(
    alloc: Global,
    store_id: [u8; 16],
    stream: &str,
    number: u64,
) -> Result<Text, Memory>
    ensures { IfOk result (λ t. t ≡ streams.jti_of store_id stream.now number) }
{
    let mut buffer = Uuid::encode_buffer();
    let store = Uuid::from_bytes(store_id)
        .hyphenated()
        .encode_lower(&mut buffer);
    let store: &str = store;
    Ok(Text::from_string(format!(in alloc; "{store}.{stream}.{number}")?))
}
