//! What differs is told across threads, which the check of this call shows.

use crate::Differ;
use sig_json::crosses_threads;

fn types_cross() {
    crosses_threads::<Differ>();
}
