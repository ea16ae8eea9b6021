//! What a stream owes, over all facts: laws of a transmitter's history (OpenID Shared Signals Framework 1.0, sections 7 and 8).
//!
//! It stands on `sig_history` for what facts come to. It holds laws and their proofs alone; of the code nothing stands on it.
//!
//! Promised by `laws`: histories join; a stream owes what no later fact takes off; sound histories leave streams in order,
//! each once, with owed numbers that rise; no name is used twice; publications and verifications add their token, settling
//! takes off what it names, pausing keeps what is owed, disabling leaves its own notice alone, and deleting leaves nothing. A
//! fact that names a stream leaves every other as it was; a configuration and a status are set as the fact says, and nothing
//! else of the stream; listed subjects and default subjects decide what is due, and the status what is offered.
#![tactic(auto)]

pub mod laws;
