ghost use Rattle.std.specs.Prelude.{◌≡◌, ◌<◌, ◌≤◌, ◌+◌, ◌*◌, ◌^◌, ℕ, List, length, IfOk};
ghost use Rattle.sig_json.specs.Answers.{Answers, result_map};
ghost use Rattle.sig_json.specs.declared.limits.TheConstants.{LAST_NUMBER};
ghost use Rattle.sig_journal.specs.Content.{content_view};
ghost use Rattle.sig_journal.specs.Layout.{content_of, end_of, generation_of, places_of};
ghost use Rattle.sig_journal.specs.Store.{in_file_at};

use crate::header::{field, number_in_8, snapshot_length, wrong_field};
use crate::layout::{HEADER_BYTES, STORE_ID_BYTES};
use crate::records::read_records;
use crate::{Kind, LoadFault};
use sig_json::{Bytes, Items};
use std::alloc::Global;

/// What a file holds, with its generation, the places of the gates of its records and the place after the last gate.
#[derive(Drop)]
pub struct FileContent {
    pub generation: u64,
    pub store_id: [u8; 16],
    pub snapshot: Bytes,
    pub records: Items<Bytes>,
    pub places: Items<u64>,
    pub end: u64,
}

/// What the bytes of a file hold whose header gate is open. `Damaged` comes exactly where they are no journal.
pub fn content_in(
    alloc: Global,
    bytes: &[u8],
    kind: Kind,
    file: u8,
) -> Result<FileContent, LoadFault>
    ensures content { Answers LoadFault.Memory (result_map content_view result) (in_file_at file (content_of kind bytes.now)) }
    ensures places { IfOk result (λ c. c.places ≡ places_of (35 + length c.snapshot) c.records) }
    ensures ends { IfOk result (λ c. c.end ≡ end_of (content_view c)) }
    ensures bound { IfOk result (λ c. c.end ≤ LAST_NUMBER) }
    ensures generation { IfOk result (λ c. (c.generation ≡ generation_of bytes.now) × (c.generation ≤ LAST_NUMBER)) }
{
    if let Some(at) = wrong_field(bytes, kind) {
        return Err(LoadFault::Damaged { file, at });
    }
    let length = snapshot_length(bytes);
    let mut store_id = [0u8; STORE_ID_BYTES];
    store_id.copy_from_slice(field(bytes, 15, STORE_ID_BYTES));
    let snapshot = Bytes::of(alloc, field(bytes, HEADER_BYTES, length))?;
    let first = HEADER_BYTES + length;
    let records = read_records(alloc, bytes.split_at(first).1, first as u64, file)?;
    Ok(FileContent {
        generation: number_in_8(field(bytes, 7, 8)),
        store_id,
        snapshot,
        records: Items::of(records.payloads),
        places: Items::of(records.places),
        end: records.last + 1,
    })
}
