//! The causes move between threads and may be shared by them, which the check of these calls shows.

use crate::{EndCause, LinkCause, PushCause};
use sig_json::crosses_threads;

fn types_cross() {
    crosses_threads::<EndCause>();
    crosses_threads::<LinkCause>();
    crosses_threads::<PushCause>();
}
