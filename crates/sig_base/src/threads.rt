//! Bases move between threads and may be shared by them, which the check of these calls shows.

use crate::{Base, BasePublication, BaseRefusals, BaseStream, BaseToken, ClientCount};
use sig_json::crosses_threads;

fn types_cross() {
    crosses_threads::<Base>();
    crosses_threads::<BasePublication>();
    crosses_threads::<BaseRefusals>();
    crosses_threads::<BaseStream>();
    crosses_threads::<BaseToken>();
    crosses_threads::<ClientCount>();
}
