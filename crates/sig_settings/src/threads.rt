//! The faults move between threads and may be shared by them, which the check of this call shows.

use crate::{SettingsFault, ValueFault};
use sig_json::crosses_threads;

fn types_cross() {
    crosses_threads::<SettingsFault>();
    crosses_threads::<ValueFault>();
}
