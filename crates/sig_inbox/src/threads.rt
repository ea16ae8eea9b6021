//! Pairs and the set of them move between threads and may be shared by them, which the check of these calls shows.

use crate::{Found, Pair, Seen};
use sig_json::crosses_threads;

fn types_cross() {
    crosses_threads::<Pair>();
    crosses_threads::<Seen>();
    crosses_threads::<Found>();
}
