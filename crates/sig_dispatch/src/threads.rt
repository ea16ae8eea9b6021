//! A dispatch moves between threads and may be shared by them, which the check of these calls shows.

use crate::Dispatch;
use sig_json::crosses_threads;

fn types_cross() {
    crosses_threads::<Dispatch>();
}
