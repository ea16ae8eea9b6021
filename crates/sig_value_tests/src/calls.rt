//! Which calls of a source, a sink or a disk in memory fail.

use sig_json::{Items, Memory};
use std::alloc::Global;

/// The one of this number, counted from 0, or none.
pub fn calls(alloc: Global, number: Option<u64>) -> Result<Items<u64>, Memory> {
    let mut calls = Vec::new(alloc);
    if let Some(number) = number {
        calls.push(number)?;
    }
    Ok(Items::of(calls))
}
