//! A node moves between threads where its disks do, and turns may be shared by them, which the check of these calls shows.

use crate::{Taken, Turn, TxFault, TxNode};
use sig_json::crosses_threads;
use sig_outside::Disk;

fn types_cross<D: Disk + Send + Sync>() {
    crosses_threads::<TxNode<D>>();
    crosses_threads::<Turn>();
    crosses_threads::<Taken>();
    crosses_threads::<TxFault>();
}
