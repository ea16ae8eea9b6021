//! What is told of a link and of a watch moves between threads, which the check of these calls shows.

use crate::{LinkEnd, Stop};
use sig_json::crosses_threads;

fn types_cross() {
    crosses_threads::<LinkEnd>();
    crosses_threads::<Stop>();
}
