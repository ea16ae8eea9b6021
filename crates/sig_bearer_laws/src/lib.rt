//! All bearers of one settings file differ, so a server that was started from one takes no caller for another: the premise of
//! the laws of the routes holds of all settings that are read (RFC 6750, section 1).
//!
//! It stands on `sig_txsettings` and `sig_rxsettings` for what is read of a file, and on `sig_txroutes` and `sig_rxroutes` for
//! the calls that requests make. It holds laws alone, and none of the product stands on it.
//!
//! Promised by `laws`: of a transmitter's settings each bearer is one client's or the operator's, and makes calls of that one
//! alone; of a receiver's each bearer is the reader's, one principal's, or the one that is shown to the peer, and a principal's
//! pushes for its issuer alone.
#![tactic(auto)]

pub mod laws;
