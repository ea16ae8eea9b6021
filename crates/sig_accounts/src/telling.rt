//! What a fact makes on the streams that it tells, which were found before.

ghost use Rattle.std.specs.Prelude.{◌≡◌, All, Bool, IfOk, OnOk, map};
ghost use Rattle.sig_event.specs.declared.news.News.{News};
ghost use Rattle.sig_history.specs.Facts.{is_told};
ghost use Rattle.sig_history.specs.Streams.{Stream, is_due};
ghost use Rattle.sig_accounts.specs.Owings.{HasRoomFor, IsBelowTop, issued_by, owing_heard, owing_in, room_in, stream_in};
ghost use Rattle.sig_accounts.specs.Telling.{IsAddressed};

use crate::account::Account;
use crate::addressed::Addressed;
use crate::debt::Said;
use crate::kept_token::KeptToken;
use crate::told_streams::ToldStreams;
use sig_json::{Items, Memory};
use std::alloc::Global;

/// The tokens that a fact makes, by stream and number. Each shares its stream's name.
pub fn issued_on(
    alloc: Global,
    accounts: &[Account],
    addressed: &Addressed,
) -> Result<Items<KeptToken>, Memory>
    requires tops { All IsBelowTop accounts.now }
    requires told { IsAddressed (map stream_in (map owing_in accounts.now)) addressed.now }
    ensures { IfOk result (λ items. items ≡ issued_by addressed.now.fact (map stream_in (map owing_in accounts.now))) }
{
    let mut issued = Vec::new(alloc);
    for (place, account) in accounts.iter().enumerate() {
        if addressed.tells(place) {
            let name = account.name().share()?;
            issued.push(KeptToken::of(name, account.made() + 1))?;
        }
    }
    // They are kept for good, so they keep no room for more.
    issued.shrink_to_fit();
    Ok(Items::of(issued))
}

/// Room for one more token on each stream that a fact tells something.
pub fn reserve_tokens(accounts: &mut [Account], addressed: &Addressed) -> Result<(), Memory>
    requires { IsAddressed (map stream_in (map owing_in accounts.old)) addressed.now }
    ensures same { map owing_in accounts.new ≡ map owing_in accounts.old }
    ensures ok { OnOk result (All (HasRoomFor (is_told addressed.now.fact) room_in) accounts.new) }
{
    for (place, account) in accounts.iter_mut().enumerate() {
        if addressed.tells(place) {
            account.reserve_token()?;
        }
    }
    Ok(())
}

/// Makes a token on each stream on which the publication at a place is due. It takes no memory.
pub fn hear_all(accounts: &mut [Account], told: &ToldStreams, time: u64, publication: usize)
    requires rooms { (test : Stream → Bool) × (told.now ≡ map test (map stream_in (map owing_in accounts.old))) × All (HasRoomFor test room_in) accounts.old }
    requires numbers { All IsBelowTop accounts.old }
    ensures { (n : News) → told.now ≡ map (is_due n) (map stream_in (map owing_in accounts.old))
        → map owing_in accounts.new ≡ map (owing_heard n time publication) (map owing_in accounts.old) }
{
    for (place, account) in accounts.iter_mut().enumerate() {
        if told.has(place) {
            account.tell(time, Said::Published { place: publication });
        }
    }
}
