//! What is read and why it isn't move between threads and may be shared by them, which the check of these calls shows.

use crate::{DecodeFault, PartFault, Reading};
use sig_json::crosses_threads;

fn types_cross() {
    crosses_threads::<DecodeFault>();
    crosses_threads::<PartFault>();
    crosses_threads::<Reading<'static>>();
}
