//! A transmitter's history: facts over a base, what they come to, and what each stream owes (OpenID Shared Signals Framework
//! 1.0, sections 7 and 8).
//!
//! It stands on `sig_terms` for facts and configurations, and on `sig_set` for the size of a payload. It holds definitions
//! and lemmas alone: `specs/Facts` says by its shape what a fact tells each stream, changes of it, brings and publishes;
//! `specs/Owed` says what streams owe, found by filtering all tokens ever made; `specs/Sound` says which facts fit, within the
//! sizes of `specs/Sizes` and the limits of `limits`; `specs/Changes` says what a fact leaves of streams; `specs/Refused` says what
//! is kept of tokens that were reported as faulty.
//!
//! The laws over these definitions stand beside what is built on them: `sig_owing` says what streams owe, and `sig_isolation`
//! what keeps clients apart.
#![tactic(auto)]

pub mod limits;
