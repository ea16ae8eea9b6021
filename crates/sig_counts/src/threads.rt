//! Counts move between threads and may be shared by them, which the check of these calls shows.

use crate::{Counts, Tally};
use sig_json::crosses_threads;

fn types_cross() {
    crosses_threads::<Tally>();
    crosses_threads::<Counts>();
}
