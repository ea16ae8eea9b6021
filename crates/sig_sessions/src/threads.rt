//! Rows and the table move between threads and may be shared by them, which the check of these calls shows.

use crate::{Account, Change, Device, Opt, Row, Session, Table, Verdict};
use sig_json::crosses_threads;

fn types_cross() {
    crosses_threads::<Row>();
    crosses_threads::<Session>();
    crosses_threads::<Account>();
    crosses_threads::<Device>();
    crosses_threads::<Opt>();
    crosses_threads::<Change>();
    crosses_threads::<Table>();
    crosses_threads::<Verdict>();
}
