//! What this crate makes moves between threads and may be shared by them, which the check of these calls shows.

use crate::{Holds, ObjectKind, Stray, StrayKind};
use sig_json::crosses_threads;

fn types_cross() {
    crosses_threads::<ObjectKind>();
    crosses_threads::<Holds>();
    crosses_threads::<StrayKind>();
    crosses_threads::<Stray>();
}
