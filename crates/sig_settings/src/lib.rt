//! What the settings of both servers have in common: one JSON object whose members are read in order, and the first value that
//! is missing or wrong is named by its path, as `issuers[1].keys[0].k`.
//!
//! It stands on `sig_json` for values, on `sig_stream` for the rule of endpoints, and on `sig_jws` for keys. `settings_of`
//! gives the object, `needed` and `optional` a member of it, and a `SettingKind` is what a member or an item of a list may
//! be: a text, a bearer token, a place, a key, or a list.
//!
//! Promised: a member is read as its kind's definition says (`specs/Members`), and else the path of what is wrong in it is the
//! one that is told (`specs/Paths`); a text spells a place exactly where it is a host, `:` and a port (`laws`). Left out:
//! which members a transmitter and a receiver have, which `sig_txsettings` and `sig_rxsettings` say.
#![tactic(auto)]

mod bearer;
mod fault;
mod key;
pub mod laws;
mod listing;
mod member;
mod object;
mod path;
mod place;
mod text;
mod threads;

pub use bearer::{bearers_differ, was_read};
pub use fault::{SettingsFault, ValueFault};
pub use key::{KeyName, KeyObject};
pub use listing::{ListOf, TextOf, each_once, is_among};
pub use member::{SettingKind, member_in, needed, optional, optional_in, whole};
pub use object::settings_of;
pub use path::{Step, found, in_member, itself, told};
pub use place::{PlaceText, place_of};
pub use text::{AnyText, BearerText, FilledText};
