//! Subject identifiers (RFC 9493; OpenID Shared Signals Framework 1.0, section 4).
//!
//! It stands on `sig_json`. Promised: a JSON value is read as a subject exactly where the table of formats relates the
//! two, and else the first check that fails is named; what is read of a text, or of a member of what a text spells, is
//! proper and written back as the same value; whether two subjects are identical, match, or one covers the other is
//! decided as defined. `==` of subjects, by which maps look them up, is being identical. Of proper subjects the parts rise
//! by name, covering is reflexive and transitive, matching is symmetric, and one text is one subject (`laws`). Left out:
//! what a URI, a telephone number or an e-mail address may be beyond the prefixes `acct:` and `did:`.
#![tactic(auto)]

mod format;
pub mod laws;
mod matching;
mod member;
mod names;
mod plain;
mod plain_reading;
mod reading;
mod simple;
mod simple_reading;
mod subject;
mod subject_fault;
mod threads;
mod writing;

pub use format::{Format, PlainFormat};
pub use matching::{covers, identical, matches};
pub use member::Member;
pub use plain::Plain;
pub use reading::from_json;
pub use simple::Simple;
pub use subject::Subject;
pub use subject_fault::SubjectFault;
pub use writing::to_json;
