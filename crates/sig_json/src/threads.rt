//! Every public type moves between threads and may be shared by them, which the check of these calls shows.

use crate::{Bytes, Items, JsonFault, Memory, PayloadFault, Text};

/// A call is proved only of a type whose values move between threads and may be shared by them.
pub fn crosses_threads<T: Send + Sync>() {}

fn types_cross<T: Send + Sync>() {
    crosses_threads::<Text>();
    crosses_threads::<Bytes>();
    crosses_threads::<Items<T>>();
    crosses_threads::<Memory>();
    crosses_threads::<JsonFault>();
    crosses_threads::<PayloadFault>();
}
