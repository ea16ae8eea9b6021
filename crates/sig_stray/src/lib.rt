//! The members of settings that nothing is taken of: those that no reader knows, and those that stand in one object again.
//!
//!     bytes -> tree of objects as they stand --table of members--> strays -> lines -> whoever runs the program
//!
//! It stands on the kit's `json` for the tree, which has an object's members in their order and all of them, on `sig_settings`
//! for paths, and on `sig_links` for the outside that is told the lines. Settings go on to be read as they were: an unknown
//! member is passed over, and of a repeated one the last stands.
//!
//! Promised: the strays are exactly those of `specs/Strays` by the table of `specs/Table`, in the order in which they stand, and
//! the lines name them by their paths and have no value of the settings in them (`specs/Lines`). Left out: how settings are
//! read, which `sig_txsettings` and `sig_rxsettings` say. That the table has the members which those read, a check of the
//! sources says, and no proof.
#![tactic(auto)]

mod line;
mod stray;
mod table;
mod telling;
mod threads;
mod tree;
mod walk;

pub use line::lines_on;
pub use stray::{Stray, StrayKind};
pub use table::{Holds, ObjectKind};
pub use telling::tell_strays;
pub use tree::strays_on;
