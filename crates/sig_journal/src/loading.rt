ghost use Rattle.std.specs.Prelude.{◌≡◌, ◌⊎◌, ◌≤◌, ℕ, List, Bool, true, false, IsErrOf, IsTrue, IfOk, OnOk};
ghost use Rattle.sig_outside.specs.Causes.{Rose};
ghost use Rattle.sig_outside.specs.Disk.{Only};
ghost use Rattle.sig_journal.specs.Gates.{BeginsOpen};
ghost use Rattle.sig_journal.specs.Layout.{content_of};
ghost use Rattle.sig_journal.specs.OnlyRead.{OnlyRead};
ghost use Rattle.sig_json.specs.Answers.{result_map};
ghost use Rattle.sig_journal.specs.Loaded.{HasPlaces, IsOf, Reads, found_view};
ghost use Rattle.sig_journal.specs.Store.{InForce, file_number, gate_of, in_force, pick, tells, told_in};

use crate::content::{FileContent, content_in};
use crate::gate::{Gate, choose, is_other_open};
use crate::reading::{read_all, settled_gate};
use crate::{Kind, LoadFault};
use sig_outside::Disk;
use std::alloc::Global;

// The file in force and what it holds, and whether the header gate of the other one is open.
#[derive(Drop)]
pub struct Found {
    pub in_b: bool,
    pub other_open: bool,
    pub content: FileContent,
}

// Which file is in force, and whether the header gate of the other one is open.
#[derive(Clone, Copy)]
pub struct Choice {
    pub in_b: bool,
    pub other_open: bool,
}

// Which file is in force by how both begin.
fn chosen(first: Gate, second: Gate) -> Result<Choice, LoadFault>
    ensures told { result_map (λ choice. choice.in_b) result ≡ in_force first second }
    ensures begins { IfOk result (λ choice. BeginsOpen true (pick choice.in_b first second) × BeginsOpen choice.other_open (pick choice.in_b second first)) }
{
    match choose(first, second) {
        Ok(in_b) => Ok(Choice {
            in_b,
            other_open: is_other_open(first, second, in_b),
        }),
        Err(fault) => Err(fault),
    }
}

/// Syncs both files, and reads which is in force: the second one, where it is yes.
fn file_in_force<D: Disk>(a: &mut D, b: &mut D) -> Result<Choice, LoadFault>
    ensures told { IsTrue (D.told a.old) → IsTrue (D.told b.old) → Reads (in_force (gate_of (D.seen a.old)) (gate_of (D.seen b.old))) (result_map (λ choice. choice.in_b) result) }
    ensures begins { IfOk result (λ choice. (IsTrue (D.told (pick choice.in_b a.old b.old)) → BeginsOpen true (gate_of (D.seen (pick choice.in_b a.old b.old))))
        × (IsTrue (D.told (pick choice.in_b b.old a.old)) → BeginsOpen choice.other_open (gate_of (D.seen (pick choice.in_b b.old a.old))))) }
    ensures durable { OnOk result (Only (D.seen a.new) (D.may_leave a.new) × Only (D.seen b.new) (D.may_leave b.new)) }
    ensures reads_a { OnlyRead D.told D.seen D.may_leave D.moment D.left_since D.faults a.old a.new }
    ensures reads_b { OnlyRead D.told D.seen D.may_leave D.moment D.left_since D.faults b.old b.new }
    ensures store { IsErrOf result LoadFault.Store → Rose (D.faults a.old) (D.faults a.new) ⊎ Rose (D.faults b.old) (D.faults b.new) }
    ensures steady { (IsErrOf result LoadFault.Store → ⊥) → (D.faults a.new ≡ D.faults a.old) × (D.faults b.new ≡ D.faults b.old) }
{
    let Ok(gate_a) = settled_gate(a) else {
        return Err(LoadFault::Store);
    };
    let Ok(gate_b) = settled_gate(b) else {
        return Err(LoadFault::Store);
    };
    chosen(gate_a, gate_b)
}

// The number of a file.
pub fn number_of(in_b: bool) -> u8
    ensures { result ≡ file_number in_b }
{
    if in_b { 1 } else { 0 }
}

// Reads the file in force, and what it holds: the second one, where `in_b` is yes.
fn read_file<D: Disk>(
    alloc: Global,
    file: &mut D,
    kind: Kind,
    in_b: bool,
    other_open: bool,
) -> Result<Found, LoadFault>
    ensures told { IsTrue (D.told file.old) → Reads (told_in in_b (content_of kind (D.seen file.old))) (result_map found_view result) }
    ensures reads { OnlyRead D.told D.seen D.may_leave D.moment D.left_since D.faults file.old file.new }
    ensures store { IsErrOf result LoadFault.Store → Rose (D.faults file.old) (D.faults file.new) }
    ensures steady { (IsErrOf result LoadFault.Store → ⊥) → D.faults file.new ≡ D.faults file.old }
    ensures ends { IfOk result (λ found. HasPlaces found) }
    ensures chosen { IfOk result (λ found. (found.in_b ≡ in_b) × (found.other_open ≡ other_open)) }
    ensures in_force { IfOk result (λ found. IsTrue (D.told file.old) → BeginsOpen true (gate_of (D.seen file.old))
        → InForce kind (D.seen file.old) found.content.end found.content.generation found.content.store_id) }
{
    let bytes = read_all(alloc, file)?;
    match content_in(alloc, bytes.as_slice(), kind, number_of(in_b)) {
        Ok(content) => Ok(Found {
            in_b,
            other_open,
            content,
        }),
        Err(fault) => Err(fault),
    }
}

/// Syncs both files, and reads which is in force and what it holds.
pub fn read_store<D: Disk>(
    alloc: Global,
    a: &mut D,
    b: &mut D,
    kind: Kind,
) -> Result<Found, LoadFault>
    ensures told { IsTrue (D.told a.old) → IsTrue (D.told b.old) → Reads (tells kind (D.seen a.old) (D.seen b.old)) (result_map found_view result) }
    ensures durable { OnOk result (Only (D.seen a.new) (D.may_leave a.new) × Only (D.seen b.new) (D.may_leave b.new)) }
    ensures reads_a { OnlyRead D.told D.seen D.may_leave D.moment D.left_since D.faults a.old a.new }
    ensures reads_b { OnlyRead D.told D.seen D.may_leave D.moment D.left_since D.faults b.old b.new }
    ensures store { IsErrOf result LoadFault.Store → Rose (D.faults a.old) (D.faults a.new) ⊎ Rose (D.faults b.old) (D.faults b.new) }
    ensures steady { (IsErrOf result LoadFault.Store → ⊥) → (D.faults a.new ≡ D.faults a.old) × (D.faults b.new ≡ D.faults b.old) }
    ensures ends { IfOk result (λ found. HasPlaces found) }
    ensures files { IfOk result (λ found. IsOf D.told D.seen kind found (pick found.in_b a.old b.old) (pick found.in_b b.old a.old)) }
{
    match file_in_force(a, b) {
        Err(fault) => Err(fault),
        Ok(choice) => {
            if choice.in_b {
                read_file(alloc, b, kind, true, choice.other_open)
            } else {
                read_file(alloc, a, kind, false, choice.other_open)
            }
        }
    }
}
