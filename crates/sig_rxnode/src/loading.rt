//! How a receiver is loaded from its store.

ghost use Rattle.std.specs.Prelude.{◌≡◌, ◌⊎◌, ◌+◌, ℕ, List, length, IfErr, IfOk, IsTrue, None, MatchResult, Ok};
ghost use Rattle.sig_outside.specs.Causes.{Rose};
ghost use Rattle.sig_journal.specs.declared.fault.LoadFault.TheVariants as load_fault;
ghost use Rattle.sig_journal.specs.declared.kind.Kind.TheVariants.{Rx};
ghost use Rattle.sig_journal.specs.Layout.{places_of};
ghost use Rattle.sig_journal.specs.OnlyRead.{OnlyRead};
ghost use Rattle.sig_journal.specs.Journal.{BothTold, told_store};
ghost use Rattle.sig_journal.specs.Opened.{Opens};
ghost use Rattle.sig_journal.specs.Store.{file_number, in_file_at, pick, tells};
ghost use Rattle.sig_json.specs.Answers.{Answers, result_map};
ghost use Rattle.sig_receiver.specs.Receiver.{nothing, received, received_of};
ghost use Rattle.sig_journal.specs.Taking.{state_after};
ghost use Rattle.sig_rxnode.specs.Holding.{IsHolding};
ghost use Rattle.sig_rxnode.specs.Loading.{LoadsTold, content_told};
ghost use Rattle.sig_rxnode.specs.Parts.{holding_of};
ghost use Rattle.sig_rxnode.specs.Records.{receiving, texts_of};

use crate::journalled::Journalled;
use crate::recording::{RecordFault, take_record};
use sig_journal::{Kind, LoadFault, LoadRefused, Loaded, Store};
use sig_json::Bytes;
use sig_outside::Disk;
use sig_past::Past;
use sig_receiver::Receiver;
use std::alloc::Global;

/// The receiver of the records of a store, and their token texts.
#[derive(Drop)]
pub struct Taken {
    pub receiver: Receiver,
    pub entries: Past<Bytes>,
}

/// Takes up the records of a file one by one, with the places of their gates. `Damaged` comes exactly at the gate of the
/// first record that spells no token which says claims.
fn take_records(
    alloc: Global,
    records: &[Bytes],
    places: &[u64],
    file: u8,
) -> Result<Taken, LoadFault>
    requires { length places.now ≡ length records.now }
    ensures told { (first : ℕ) → places.now ≡ places_of first records.now
        → Answers LoadFault.Memory (result_map (λ t. received t.receiver) result) (in_file_at file (state_after receiving.step nothing first records.now)) }
    ensures entries { IfOk result (λ t. (t.entries.items ≡ texts_of records.now) × (received t.receiver ≡ received_of nothing t.entries.items)) }
{
    let mut receiver = Receiver::new(alloc);
    let mut entries = Past::new(alloc);
    for (i, payload) in records.iter().enumerate() {
        match take_record(alloc, &mut receiver, &mut entries, payload.as_slice()) {
            Ok(()) => {}
            Err(RecordFault::Bad) => return Err(LoadFault::Damaged {
                file,
                at: places[i],
            }),
            Err(RecordFault::Memory) => return Err(LoadFault::Memory),
        }
    }
    Ok(Taken { receiver, entries })
}

/// Loads a receiver from the two files of its store: what the records stand for.
///
/// `Damaged` comes exactly where the store is damaged, or at the gate of the first record that spells no token which says
/// claims; `Store` only where a disk has counted a fault.
pub fn load<D: Disk>(alloc: Global, a: D, b: D) -> Result<Journalled<D>, LoadRefused<D>>
    ensures told { IsTrue (D.told a) → IsTrue (D.told b) → LoadsTold holding_of (tells Rx (D.seen a) (D.seen b)) result }
    ensures holds { IfOk result (λ n. IsHolding D.told D.seen D.may_leave (holding_of n) × (n.store.broken_at ≡ None) × (n.store.journal.kind ≡ Rx)) }
    ensures reads { MatchResult result
        (λ n. OnlyRead D.told D.seen D.may_leave D.moment D.left_since D.faults a (pick n.store.journal.in_b n.store.journal.written n.store.journal.other)
        × OnlyRead D.told D.seen D.may_leave D.moment D.left_since D.faults b (pick n.store.journal.in_b n.store.journal.other n.store.journal.written))
        (λ r. OnlyRead D.told D.seen D.may_leave D.moment D.left_since D.faults a r.a × OnlyRead D.told D.seen D.may_leave D.moment D.left_since D.faults b r.b) }
    ensures store { IfErr result (λ r. r.fault ≡ load_fault.Store → Rose (D.faults a) (D.faults r.a) ⊎ Rose (D.faults b) (D.faults r.b)) }
    ensures steady { IfOk result (λ n. (D.faults (pick n.store.journal.in_b n.store.journal.written n.store.journal.other) ≡ D.faults a) × (D.faults (pick n.store.journal.in_b n.store.journal.other n.store.journal.written) ≡ D.faults b)) }
    ensures steady_err { IfErr result (λ r. (r.fault ≡ load_fault.Store → ⊥) → (D.faults r.a ≡ D.faults a) × (D.faults r.b ≡ D.faults b)) }
{
    match sig_journal::load(alloc, a, b, Kind::Rx) {
        Ok(loaded) => taken_up(alloc, loaded),
        Err(refused) => Err(refused),
    }
}

// The receiver of a store that was loaded.
fn taken_up<D: Disk>(alloc: Global, loaded: Loaded<D>) -> Result<Journalled<D>, LoadRefused<D>>
    requires opens { Opens D.told D.seen D.may_leave Rx loaded }
    requires places { (loaded.places ≡ places_of (35 + length loaded.snapshot) loaded.records) × (loaded.file ≡ file_number loaded.journal.in_b) }
    requires tells { BothTold D.told loaded.journal → told_store D.seen loaded.journal ≡ Ok (content_told loaded) }
    ensures told { BothTold D.told loaded.journal → LoadsTold holding_of (told_store D.seen loaded.journal) result }
    ensures holds { IfOk result (λ n. IsHolding D.told D.seen D.may_leave (holding_of n) × (n.store.broken_at ≡ None) × (n.store.journal.kind ≡ Rx)) }
    ensures files { MatchResult result (λ n. n.store.journal ≡ loaded.journal)
        (λ r. (r.a ≡ pick loaded.journal.in_b loaded.journal.written loaded.journal.other) × (r.b ≡ pick loaded.journal.in_b loaded.journal.other loaded.journal.written)) }
    ensures causes { IfErr result (λ r. r.fault ≡ load_fault.Store → ⊥) }
{
    let Loaded {
        journal,
        file,
        store_id: _,
        snapshot: _,
        records,
        places,
    } = loaded;
    match take_records(alloc, records.as_slice(), places.as_slice(), file) {
        Ok(taken) => Ok(Journalled {
            alloc,
            receiver: taken.receiver,
            entries: taken.entries,
            store: Store::open(journal),
        }),
        Err(fault) => {
            let (a, b) = journal.into_disks();
            Err(LoadRefused { fault, a, b })
        }
    }
}
