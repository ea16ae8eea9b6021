//! How a run ends moves between threads and may be shared by them, which the check of these calls shows.

use crate::{Counts, DriveFault, ManageEnd};
use sig_json::crosses_threads;

fn types_cross() {
    crosses_threads::<Counts>();
    crosses_threads::<DriveFault>();
    crosses_threads::<ManageEnd>();
}
