//! What the records of a store that was loaded come to.

ghost use Rattle.std.specs.Prelude.{◌≡◌, ◌+◌, length, Some, None, IfOk, IsErrOf, OnOk};
ghost use Rattle.sig_json.specs.Answers.{Answers, result_map};
ghost use Rattle.sig_history.specs.Owed.{Sum, empty_sum};
ghost use Rattle.sig_history.specs.Whole.{IsWhole};
ghost use Rattle.sig_journal.specs.Layout.{places_of};
ghost use Rattle.sig_journal.specs.Store.{in_file_at};
ghost use Rattle.sig_entry.specs.Facts.{decoded};
ghost use Rattle.sig_journal.specs.Taking.{state_after};
ghost use Rattle.sig_txnode.specs.Records.{after_record, sending};

use sig_entry::{DecodeFault, decode};
use sig_journal::{LoadFault, Loaded};
use sig_outbox::{ApplyFault, Outbox};
use sig_outside::Disk;
use std::alloc::Global;

// Takes up a record. It is bad exactly where it is no fact, or one that doesn't fit.
fn take_up(alloc: Global, outbox: &mut Outbox, payload: &[u8]) -> Result<(), ApplyFault>
    ensures takes { OnOk result (after_record outbox.old.sum (decoded payload.now) ≡ Some outbox.new.sum) }
    ensures bad { IsErrOf result ApplyFault.Bad → after_record outbox.old.sum (decoded payload.now) ≡ None }
{
    match decode(alloc, payload) {
        Ok(fact) => outbox.apply(fact),
        Err(DecodeFault::Memory) => Err(ApplyFault::Memory),
        Err(DecodeFault::Bad(_)) => Err(ApplyFault::Bad),
    }
}

/// The state that a store's records come to; or the gate of the first that isn't taken up.
pub fn state_in<D: Disk>(alloc: Global, loaded: &Loaded<D>) -> Result<Outbox, LoadFault>
    requires { loaded.now.places ≡ places_of (35 + length loaded.now.snapshot) loaded.now.records }
    ensures state { Answers LoadFault.Memory (result_map (λ o. o.sum) result) (in_file_at loaded.now.file (state_after sending.step (empty_sum loaded.now.store_id) (35 + length loaded.now.snapshot) loaded.now.records)) }
    ensures whole { IfOk result (λ o. IsWhole o.sum) }
{
    let mut outbox = Outbox::new(alloc, loaded.store_id);
    let records = loaded.records.as_slice();
    let places = loaded.places.as_slice();
    for i in 0..records.len() {
        match take_up(alloc, &mut outbox, records[i].as_slice()) {
            Ok(()) => {}
            Err(ApplyFault::Bad) => {
                return Err(LoadFault::Damaged {
                    file: loaded.file,
                    at: places[i],
                });
            }
            Err(ApplyFault::Memory) => return Err(LoadFault::Memory),
        }
    }
    Ok(outbox)
}
