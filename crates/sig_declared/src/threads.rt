//! What is declared moves between threads and may be shared by them, which the check of these calls shows.

use crate::{Declared, ManageSettings};
use sig_json::crosses_threads;

fn types_cross() {
    crosses_threads::<Declared>();
    crosses_threads::<ManageSettings>();
}
