//! Events move between threads and may be shared by them, which the check of these calls shows.

use crate::{
    CaepEvent, CaepKind, CaepType, Change, Common, Compliance, Direction, Initiator, Principal,
    RiskLevel,
};
use sig_json::crosses_threads;

fn types_cross() {
    crosses_threads::<CaepEvent>();
    crosses_threads::<CaepKind>();
    crosses_threads::<CaepType>();
    crosses_threads::<Common>();
    crosses_threads::<Change>();
    crosses_threads::<Compliance>();
    crosses_threads::<Direction>();
    crosses_threads::<Initiator>();
    crosses_threads::<Principal>();
    crosses_threads::<RiskLevel>();
}
