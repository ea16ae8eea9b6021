//! The ledger and what its calls give move between threads and may be shared by them, which the check of these calls shows.

use crate::{Account, Addressed, Debt, Ledger, Prepared, Publication, Spare, Step};
use sig_json::crosses_threads;

fn types_cross() {
    crosses_threads::<Account>();
    crosses_threads::<Addressed>();
    crosses_threads::<Debt>();
    crosses_threads::<Ledger>();
    crosses_threads::<Prepared>();
    crosses_threads::<Publication>();
    crosses_threads::<Spare>();
    crosses_threads::<Step>();
}
