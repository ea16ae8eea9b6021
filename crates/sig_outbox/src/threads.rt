//! The state moves between threads and may be shared by them, which the check of this call shows.

use crate::Outbox;
use sig_json::crosses_threads;

fn type_crosses() {
    crosses_threads::<Outbox>();
}
