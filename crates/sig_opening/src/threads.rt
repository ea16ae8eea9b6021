//! What is told of a run moves between threads and may be shared by them, which the check of these calls shows.

use crate::{ReadFault, ServeEnd, Unread};
use sig_json::crosses_threads;

fn types_cross() {
    crosses_threads::<ServeEnd>();
    crosses_threads::<Unread>();
    crosses_threads::<ReadFault>();
}
