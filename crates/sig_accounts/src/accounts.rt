//! Lists of streams as they are held in memory.

ghost use Rattle.std.specs.Prelude.{◌≡◌, ◌+◌, ◌<◌, ◌≤◌, All, IfOk, OnOk, None, length, map, option_map, vec_len, vec_capacity};
ghost use Rattle.std.specs.List.{insert, position_or_len, slice_get};
ghost use Rattle.sig_history.specs.Streams as streams;
ghost use Rattle.sig_accounts.specs.Owings.{Balance, client_owing, has_name, owing_in, owing_named, put_balance, stream_in, subjects_in};
ghost use Rattle.sig_accounts.specs.Owings.{HasRoomFor};

use crate::account::Account;
use sig_json::{Memory, Text};

/// The first stream of a name.
pub fn account_named<'a>(accounts: &'a [Account], name: &str) -> Option<&'a Account>
    ensures { option_map (λ a. a.now.owing) result ≡ owing_named name.now (map owing_in accounts.now) }
{
    for account in accounts {
        if account.is_named(name) {
            return Some(account);
        }
    }
    None
}

/// The client's stream of a name.
pub fn client_account<'a>(accounts: &'a [Account], client: &str, name: &str) -> Option<&'a Account>
    ensures { option_map (λ a. a.now.owing) result ≡ client_owing client.now name.now (map owing_in accounts.now) }
{
    for account in accounts {
        if account.client() == client && account.is_named(name) {
            return Some(account);
        }
    }
    None
}

/// How many streams of a client stand.
pub fn streams_of(accounts: &[Account], client: &Text) -> usize
    ensures { result ≡ streams.streams_of client.now (map stream_in (map owing_in accounts.now)) }
{
    let mut count = 0;
    for account in accounts {
        if account.client() == client.as_str() {
            count += 1;
        }
    }
    count
}

// The place at which a stream is put.
fn place_for(accounts: &[Account], new: &Account) -> usize
    ensures within { result ≤ length accounts.now }
    ensures place { insert accounts.now result new.now ≡ put_balance new.now accounts.now }
{
    for (place, account) in accounts.iter().enumerate() {
        if !account.is_before(new) {
            return place;
        }
    }
    accounts.len()
}

/// Puts a stream in its place, for which there is room, and says which place that is.
pub fn put_account(accounts: &mut Vec<Account>, new: Account) -> usize
    requires { vec_len accounts.old < vec_capacity accounts.old }
    ensures within { result ≤ length accounts.old.items }
    ensures place { accounts.new.items ≡ insert accounts.old.items result new }
    ensures items { accounts.new.items ≡ put_balance new accounts.old.items }
{
    let place = place_for(accounts.as_slice(), &new);
    // There is room, so the insertion keeps the stream.
    let _ = accounts.insert(place, new);
    place
}

/// The place of the first stream of a name; how many there are where none has it.
pub fn place_named(accounts: &[Account], name: &str) -> usize
    ensures { result ≡ position_or_len (has_name name.now) accounts.now }
{
    for (index, account) in accounts.iter().enumerate() {
        if account.is_named(name) {
            return index;
        }
    }
    accounts.len()
}

/// Room for one more subject on the list of the stream of a name.
pub fn reserve_subjects(accounts: &mut [Account], name: &str) -> Result<(), Memory>
    ensures same { map owing_in accounts.new ≡ map owing_in accounts.old }
    ensures ok { OnOk result (All (HasRoomFor (streams.is_named name.now) subjects_in) accounts.new) }
{
    for account in accounts.iter_mut() {
        account.reserve_subject(name)?;
    }
    Ok(())
}

/// The name of the stream at a place.
pub fn name_at(accounts: &[Account], place: usize) -> Option<&Text>
    ensures { option_map (λ name. name.now) result ≡ slice_get (map (λ (s : streams.Stream). s.conf.stream) (map stream_in (map owing_in accounts.now))) place }
{
    match accounts.get(place) {
        None => None,
        Some(account) => Some(&account.conf().stream),
    }
}
