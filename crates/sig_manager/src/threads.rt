//! What is asked and heard moves between threads and may be shared by them, which the check of these calls shows.

use crate::{Listed, ManageFault, Manager, Step};
use sig_json::crosses_threads;

fn types_cross() {
    crosses_threads::<Listed>();
    crosses_threads::<ManageFault>();
    crosses_threads::<Manager>();
    crosses_threads::<Step>();
}
