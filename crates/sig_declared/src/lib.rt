//! What a receiver declares of its streams at a transmitter, and the settings that say it: one JSON object, read member by
//! member.
//!
//!     bytes -> object -> bearer, url, streams, tls_gateway -> the transmitter, and the streams that are declared of it
//!
//! It stands on `sig_settings` for the members, and on `sig_stream` for what a stream may be wanted to be and for the rule of
//! endpoints. Promised: settings are read exactly as `specs/Settings` says, and else the path of the first value that is
//! missing or wrong is told; what is read are at most 16 streams with descriptions of their own (`specs/Declarations`), of a
//! transmitter at the path `/`, which has its gateway where it is reached by `https`. Left out: where the bytes come from,
//! and how the streams are brought to what is declared.
#![tactic(auto)]

mod declared;
pub mod limits;
mod provider;
mod settings;
mod stream;
mod threads;

pub use declared::Declared;
pub use provider::Provider;
pub use settings::{ManageSettings, manage_settings};
