//! Fields of records: how each kind of field is spelled in bytes, and how it is read.
//!
//! It stands on `sig_json`. Numbers are big-endian. A number has eight bytes and a count four; a text is a count and so
//! many bytes of UTF-8; a flag is 00 or 01; what may be there is a flag and, after 01, its own spelling; a list is a count
//! and its items. A `Field` names a kind, and a
//! record is one whose value has fields.
//!
//! Promised: `put` adds the spelling and nothing else; `take` reads exactly what its reader reads, and stops at the first
//! byte of the first part that is cut or breaks its rule; `read_whole` refuses with that offset. A number, a text and a
//! flag are read as they are spelled, and of that one spelling (`laws`). Left out: a count of 2^32 or more, which no count
//! spells.
#![tactic(auto)]

mod fault;
mod field;
mod kinds;
pub mod laws;
mod reading;
mod threads;
mod whole;

pub use fault::{DecodeFault, PartFault};
pub use field::Field;
pub use kinds::{
    BytesField, FlagField, ListOf, Maybe, NumberField, TextField, put_count, put_number, put_sized,
};
pub use reading::Reading;
pub use whole::{read_whole, spell};
