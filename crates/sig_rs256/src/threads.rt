//! Keys move between threads and may be shared by them, which the check of these calls shows.

use crate::{PreparedRsaKey, RsaKey};
use sig_json::crosses_threads;

fn types_cross() {
    crosses_threads::<RsaKey>();
    crosses_threads::<PreparedRsaKey>();
}
