//! The receiver and its answers move between threads and may be shared by them, which the check of these calls shows.

use crate::{Heard, Hearing, Ready, Receiver, TakeFault};
use sig_json::crosses_threads;

fn types_cross() {
    crosses_threads::<Receiver>();
    crosses_threads::<Heard>();
    crosses_threads::<Hearing>();
    crosses_threads::<Ready>();
    crosses_threads::<TakeFault>();
}
