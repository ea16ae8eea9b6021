//! A store moves between threads where its disks do, which the check of these calls shows.

use crate::{NodeFault, Store};
use sig_json::crosses_threads;
use sig_outside::Disk;

fn types_cross<D: Disk + Send + Sync>() {
    crosses_threads::<Store<D>>();
    crosses_threads::<NodeFault>();
}
