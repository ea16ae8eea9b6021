//! Keys and tokens move between threads and may be shared by them, which the check of these calls shows.

use crate::{Compact, Key, PreparedKey, SplitFault};
use sig_json::crosses_threads;

fn types_cross() {
    crosses_threads::<Key>();
    crosses_threads::<PreparedKey>();
    crosses_threads::<Compact>();
    crosses_threads::<SplitFault>();
}
