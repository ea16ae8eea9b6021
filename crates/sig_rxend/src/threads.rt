//! Reports move between threads, which the check of this call shows.

use sig_json::crosses_threads;
use sig_watch::Report;

fn types_cross() {
    crosses_threads::<Report>();
}
