//! Attempts and a schedule move between threads and may be shared by them, which the check of these calls shows.

use crate::{Attempt, Late, Schedule};
use sig_json::crosses_threads;

fn types_cross() {
    crosses_threads::<Attempt>();
    crosses_threads::<Late>();
    crosses_threads::<Schedule>();
}
