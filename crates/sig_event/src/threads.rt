//! Claims and events move between threads and may be shared by them, which the check of these calls shows.

use crate::{Claims, Event, EventFault, EventType, News, Status};
use sig_json::crosses_threads;

fn types_cross() {
    crosses_threads::<Claims>();
    crosses_threads::<Event>();
    crosses_threads::<EventFault>();
    crosses_threads::<EventType>();
    crosses_threads::<News>();
    crosses_threads::<Status>();
}
