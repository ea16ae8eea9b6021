//! What the acknowledgements and refusals of a poll say of a stream's tokens, by number: each text is read once.

ghost use Rattle.std.specs.Prelude.{◌≡◌, ◌<◌, ◌≤◌, ◌^◌, ◌++◌, ◌==◌, [], All, IfOk, OnOk, Some, ℕ, bytes_eq, nat_eq};
ghost use Rattle.std.specs.Fmt.{decimal};
ghost use Rattle.indexmap.specs.IndexMap.{get, keys};
ghost use Rattle.sig_calls.specs.Polling as table;
ghost use Rattle.sig_calls.specs.Settling.{keeps};
ghost use Rattle.sig_token_calls.specs.Verdicts.{AreRead, is_number, item_of, prefix_of, with_verdict};

use indexmap::IndexMap;
use sig_json::{Memory, Text};
use sig_terms::{PollAsk, Reported, SettledItem};
use std::alloc::Global;
use uuid::Uuid;

/// What stands before the number in the identifiers of a stream's tokens.
pub fn token_prefix(alloc: Global, store_id: [u8; 16], stream: &str) -> Result<Text, Memory>
    ensures { IfOk result (λ t. t ≡ prefix_of store_id stream.now) }
{
    let mut buffer = Uuid::encode_buffer();
    let store = Uuid::from_bytes(store_id)
        .hyphenated()
        .encode_lower(&mut buffer);
    let store: &str = store;
    Ok(Text::from_string(format!(in alloc; "{store}.{stream}.")?))
}

// The number that stands after a prefix, in whichever spelling.
fn number_after(prefix: &str, text: &str) -> Option<u64>
    ensures { (n : ℕ) → n < 2 ^ 64 → text.now ≡ prefix.now ++ decimal n → result ≡ Some n }
{
    match text.strip_prefix(prefix) {
        None => None,
        Some(digits) => digits.parse::<u64>().ok(),
    }
}

// The number of a token of this prefix, which its identifier spells in one way.
#[tactic(auto, using(crate::proofs::VerdictLemmas::named_none, crate::proofs::VerdictLemmas::named_other))]
fn number_in(alloc: Global, prefix: &str, text: &str) -> Result<Option<u64>, Memory>
    ensures { IfOk result (λ o. (n : ℕ) → n < 2 ^ 64 → is_number o n ≡ bytes_eq text.now (prefix.now ++ decimal n)) }
{
    match number_after(prefix, text) {
        None => Ok(None),
        Some(number) => {
            let spelled = Text::from_string(format!(in alloc; "{prefix}{number}")?);
            if spelled.as_str() == text {
                return Ok(Some(number));
            }
            Ok(None)
        }
    }
}

// Notes what is said of a number, unless something was said before.
fn note_first(
    verdicts: &mut IndexMap<u64, Option<Text>>,
    number: u64,
    code: Option<Text>,
) -> Result<(), Memory>
    ensures { OnOk result ((n : ℕ) → get nat_eq verdicts.new n ≡ with_verdict (get nat_eq verdicts.old n) (number == n) code) }
{
    if verdicts.contains_key(&number) {
        return Ok(());
    }
    let _ = verdicts.insert(number, code)?;
    Ok(())
}

// Notes what is said of the token that a text names, where it is one of this prefix.
#[tactic(auto, using(crate::proofs::VerdictLemmas::none_noted))]
fn note(
    alloc: Global,
    prefix: &str,
    jti: &Text,
    code: Option<Text>,
    verdicts: &mut IndexMap<u64, Option<Text>>,
) -> Result<(), Memory>
    ensures { OnOk result ((n : ℕ) → n < 2 ^ 64 → get nat_eq verdicts.new n
        ≡ with_verdict (get nat_eq verdicts.old n) (bytes_eq jti.now (prefix.now ++ decimal n)) code) }
{
    match number_in(alloc, prefix, jti.as_str())? {
        None => Ok(()),
        Some(number) => note_first(verdicts, number, code),
    }
}

// What the acknowledgements alone say.
fn read_acks(
    alloc: Global,
    prefix: &str,
    acks: &[Text],
) -> Result<IndexMap<u64, Option<Text>>, Memory>
    ensures { IfOk result (λ m. AreRead prefix.now acks.now [] (get nat_eq m)) }
{
    let mut verdicts = IndexMap::new(alloc);
    for ack in acks {
        note(alloc, prefix, ack, None, &mut verdicts)?;
    }
    Ok(verdicts)
}

// Notes one refusal.
fn note_refusal(
    alloc: Global,
    prefix: &str,
    error: &Reported,
    verdicts: &mut IndexMap<u64, Option<Text>>,
) -> Result<(), Memory>
    ensures { OnOk result ((n : ℕ) → n < 2 ^ 64 → get nat_eq verdicts.new n
        ≡ with_verdict (get nat_eq verdicts.old n) (bytes_eq error.now.jti (prefix.now ++ decimal n)) (Some error.now.code)) }
{
    let code = error.code.copy(alloc)?;
    note(alloc, prefix, &error.jti, Some(code), verdicts)
}

/// What a poll says of each number: an acknowledgement counts before any refusal, and of several refusals the first.
pub fn read_verdicts(
    alloc: Global,
    prefix: &str,
    ask: &PollAsk,
) -> Result<IndexMap<u64, Option<Text>>, Memory>
    ensures { IfOk result (λ m. AreRead prefix.now ask.now.acks ask.now.errors (get nat_eq m)) }
{
    let errors = ask.errors.as_slice();
    let mut verdicts = read_acks(alloc, prefix, ask.acks.as_slice())?;
    for error in errors {
        note_refusal(alloc, prefix, error, &mut verdicts)?;
    }
    Ok(verdicts)
}

/// A number that none of those of which something is said is below.
pub fn lowest(verdicts: &IndexMap<u64, Option<Text>>) -> u64
    ensures { All (λ n. result ≤ n) (keys verdicts.now) }
{
    verdicts.keys().copied().min().unwrap_or(0)
}

/// A number that none of those of which something is said is above.
pub fn highest(verdicts: &IndexMap<u64, Option<Text>>) -> u64
    ensures { All (λ n. n ≤ result) (keys verdicts.now) }
{
    verdicts.keys().copied().max().unwrap_or(0)
}

// Whether a code settles nothing, since it is about the bearer and not about the token.
fn keeps(code: &Text) -> bool
    ensures { result ≡ keeps code.now }
{
    code.as_str() == "authentication_failed" || code.as_str() == "access_denied"
}

// The item of a token that was refused, unless the code settles nothing.
fn refused_item(alloc: Global, number: u64, code: &Text) -> Result<Option<SettledItem>, Memory>
    ensures { IfOk result (λ item. item ≡ table.refused_item number (Some code.now)) }
{
    if keeps(code) {
        return Ok(None);
    }
    let code = code.copy(alloc)?;
    Ok(Some(SettledItem {
        number,
        code: Some(code),
    }))
}

/// What a poll settles of the token of this number.
pub fn settled_item(
    alloc: Global,
    verdicts: &IndexMap<u64, Option<Text>>,
    number: u64,
) -> Result<Option<SettledItem>, Memory>
    ensures { IfOk result (λ item. item ≡ item_of number (get nat_eq verdicts.now number)) }
{
    match verdicts.get(&number) {
        None => Ok(None),
        Some(None) => Ok(Some(SettledItem { number, code: None })),
        Some(Some(code)) => refused_item(alloc, number, code),
    }
}
