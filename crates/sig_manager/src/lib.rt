//! Managing: what a client asks of a transmitter so that its streams become those that are declared, and no others (OpenID
//! Shared Signals Framework 1.0, sections 8.1.1 and 8.1.2).
//!
//! It stands on `sig_declared` for what is declared, on `sig_stream` for wants as they are read, and on `sig_http` for requests
//! and responses. It dials nothing: what it asks is handed out, and what was answered is handed in.
//!
//! ```text
//!     list --> which streams are kept --> their statuses; what is deleted, replaced, created --> statuses that differ
//!     (`listing`)   (`planning`)            (`asking`: each step's request; `hearing`: what its response comes to)
//! ```
//!
//! Promised: a declared stream keeps the first listed one with its description, and all that none keeps are deleted; one that
//! is kept is replaced exactly where its requested types or its delivery differ from the declared ones, and one is created
//! exactly where none is kept; a status is set exactly where it was told to differ, or where a stream was created that is to
//! have another than `enabled`. Each step is asked in order, and is done once it is answered as the standard says; after a
//! fault the exchange stands as before. Once the streams are listed there is a bound on the requests, which falls with each
//! answer; and a want is written so that the same want is read of it (`laws`). Left out: links, bearers, and what a
//! transmitter does with what it is asked.
#![tactic(auto)]

mod asking;
mod fault;
mod hearing;
pub mod laws;
mod listed;
mod listing;
mod manager;
mod member;
mod planning;
mod step;
mod threads;
mod writing;

pub use fault::ManageFault;
pub use listed::Listed;
pub use manager::Manager;
pub use step::Step;
