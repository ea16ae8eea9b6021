//! A node moves between threads where its disks do, and its terms may be shared by them, which the check of these calls shows.

use crate::{Peer, Principal, RxAnswer, RxCall, RxNode, RxRules, RxState, RxTaken, RxTurn};
use sig_json::crosses_threads;
use sig_outside::Disk;

fn types_cross() {
    crosses_threads::<RxCall>();
    crosses_threads::<RxAnswer>();
    crosses_threads::<RxTurn>();
    crosses_threads::<RxTaken>();
    crosses_threads::<RxState>();
    crosses_threads::<RxRules>();
    crosses_threads::<Principal>();
    crosses_threads::<Peer>();
}

fn nodes_cross<D: Disk + Send + Sync>() {
    crosses_threads::<RxNode<D>>();
}
