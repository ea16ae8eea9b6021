//! What a link came to moves between threads where its turns do, which the check of this call shows.

use crate::LinkLog;
use sig_json::crosses_threads;

fn types_cross<T: Send + Sync>() {
    crosses_threads::<LinkLog<T>>();
}
