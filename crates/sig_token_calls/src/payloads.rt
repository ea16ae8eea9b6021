//! The sizes of the payloads that a fact would make.

ghost use Rattle.std.specs.Prelude.{◌≡◌, ◌+◌, ◌∷◌, [], All, IfOk, Some, map, max};
ghost use Rattle.sig_history.specs.Facts.{made_by, said_by};
ghost use Rattle.sig_history.specs.Sound.{largest};
ghost use Rattle.sig_accounts.specs.Owings.{owing_in, stream_in};
ghost use Rattle.sig_accounts.specs.Telling.{IsAddressed};
ghost use Rattle.sig_ledger.specs.Books.{sum_in};
ghost use Rattle.sig_ledger.specs.Room.{IsAddressedIn};
ghost use Rattle.sig_token_calls.specs.Sizes as bytes;
ghost use Rattle.sig_token_calls.specs.Sizes.{most_on, own_bytes, shared_bytes};
ghost use Rattle.sig_token_calls.specs.Tokens.{IsNumbered, stream_of};

use crate::sizes::{joined, own_size};
use sig_event::{Claims, Event, News};
use sig_json::{Items, Memory, Text};
use sig_ledger::{Account, Addressed, Ledger, jti_text, news_of, time_of};
use sig_set::payload_text;
use std::alloc::Global;

fn one_event(alloc: Global, event: Event) -> Result<Items<Event>, Memory>
    ensures { IfOk result (λ events. events ≡ event ∷ []) }
{
    let mut events = Vec::new(alloc);
    events.push(event)?;
    Ok(Items::of(events))
}

// What all tokens that tell news say alike.
fn shared_claims(alloc: Global, store_id: [u8; 16], time: u64, news: News) -> Result<Claims, Memory>
    ensures { IfOk result (λ c. c ≡ bytes.shared_claims store_id time news) }
{
    let News { subject, event } = news;
    let events = one_event(alloc, event)?;
    let jti = jti_text(alloc, store_id, "", 0)?;
    Ok(Claims {
        iss: Text::from_string(String::new(alloc)),
        jti,
        iat: time,
        aud: Items::of(Vec::new(alloc)),
        subject,
        events,
    })
}

// The bytes of the payload that says what all tokens say alike.
fn shared_size(alloc: Global, store_id: [u8; 16], time: u64, news: News) -> Result<usize, Memory>
    ensures { IfOk result (λ n. n ≡ shared_bytes store_id time news) }
{
    let claims = shared_claims(alloc, store_id, time, news)?;
    let payload = payload_text(alloc, &claims)?;
    Ok(payload.as_slice().len())
}

// The bytes of the payload of a stream's next token.
fn payload_size(account: &Account, shared: usize) -> Result<usize, Memory>
    requires { IsNumbered account.now }
    ensures { IfOk result (λ n. n ≡ shared + own_bytes account.now.owing.stream.conf (account.now.owing.stream.made + 1)) }
{
    let own = own_size(account.conf(), account.made() + 1)?;
    joined(shared, own)
}

fn larger(a: usize, b: usize) -> usize
    ensures { result ≡ max a b }
{
    if a < b { b } else { a }
}

// The bytes of the largest payload of the tokens that these streams would get.
fn largest_on(accounts: &[Account], addressed: &Addressed, shared: usize) -> Result<usize, Memory>
    requires numbers { All IsNumbered accounts.now }
    requires told { IsAddressed (map stream_in (map owing_in accounts.now)) addressed.now }
    ensures { IfOk result (λ n. n ≡ most_on shared addressed.now.fact (map stream_of accounts.now)) }
{
    let mut most = 0;
    for (place, account) in accounts.iter().enumerate() {
        if addressed.tells(place) {
            let size = payload_size(account, shared)?;
            most = larger(most, size);
        }
    }
    Ok(most)
}

// The bytes of the largest payload of the tokens that tell news.
fn largest_told(ledger: &Ledger, addressed: &Addressed, news: News) -> Result<usize, Memory>
    requires news { said_by addressed.now.fact ≡ Some news }
    requires told { IsAddressedIn (sum_in ledger.now.books).parts addressed.now }
    ensures { IfOk result (λ n. n ≡ largest (made_by (sum_in ledger.now.books).parts addressed.now.fact)) }
{
    let time = time_of(addressed.fact());
    let shared = shared_size(ledger.alloc(), ledger.store_id(), time, news)?;
    largest_on(ledger.accounts(), addressed, shared)
}

/// The bytes of the largest payload of the tokens that a fact would make, 0 where it would make none.
pub fn largest_payload(ledger: &Ledger, addressed: &Addressed) -> Result<usize, Memory>
    requires { IsAddressedIn (sum_in ledger.now.books).parts addressed.now }
    ensures { IfOk result (λ n. n ≡ largest (made_by (sum_in ledger.now.books).parts addressed.now.fact)) }
{
    match news_of(ledger.alloc(), addressed.fact())? {
        None => Ok(0),
        Some(news) => largest_told(ledger, addressed, news),
    }
}
