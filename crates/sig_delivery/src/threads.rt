//! What is read of bodies moves between threads and may be shared by them, which the check of these calls shows.

use crate::{BodyFault, Listed, Sets};
use sig_json::crosses_threads;

fn types_cross() {
    crosses_threads::<BodyFault>();
    crosses_threads::<Listed>();
    crosses_threads::<Sets>();
}
