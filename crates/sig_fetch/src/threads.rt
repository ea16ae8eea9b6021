//! What is answered moves between threads and may be shared by them, which the check of these calls shows.

use crate::{FetchFault, Fetched};
use sig_json::crosses_threads;

fn types_cross() {
    crosses_threads::<Fetched>();
    crosses_threads::<FetchFault>();
}
