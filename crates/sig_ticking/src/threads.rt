//! An end moves between threads and may be shared by them, which the check of this call shows.

use crate::CourierEnd;
use sig_json::crosses_threads;

fn types_cross() {
    crosses_threads::<CourierEnd>();
}
