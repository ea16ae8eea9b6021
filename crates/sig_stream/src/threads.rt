//! The faults move between threads and may be shared by them, which the check of these calls shows.

use crate::{PublishFault, WantFault};
use sig_json::crosses_threads;

fn types_cross() {
    crosses_threads::<PublishFault>();
    crosses_threads::<WantFault>();
}
