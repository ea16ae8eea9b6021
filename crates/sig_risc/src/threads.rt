//! Events move between threads and may be shared by them, which the check of these calls shows.

use crate::{RiscEvent, RiscType};
use sig_json::crosses_threads;

fn types_cross() {
    crosses_threads::<RiscEvent>();
    crosses_threads::<RiscType>();
}
