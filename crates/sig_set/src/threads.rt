//! Trust, and what a judgement gives, move between threads and may be shared by them, which the check of these calls shows.

use crate::{
    ClaimsFault, Code, Issuer, LastHeader, PreparedTrust, Refusal, Spot, Trust, WriteFault,
};
use sig_json::crosses_threads;

fn types_cross() {
    crosses_threads::<Trust>();
    crosses_threads::<PreparedTrust>();
    crosses_threads::<Issuer>();
    crosses_threads::<LastHeader>();
    crosses_threads::<Code>();
    crosses_threads::<Spot>();
    crosses_threads::<Refusal>();
    crosses_threads::<ClaimsFault>();
    crosses_threads::<WriteFault>();
}
