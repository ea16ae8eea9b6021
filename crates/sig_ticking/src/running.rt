//! A run of `courier` from the settings to the end.

ghost use Rattle.std.specs.Prelude.{◌≡◌, ◌≢◌, ℕ, List, None};
ghost use Rattle.sig_calls.specs.Proper.{IsProperRules};
ghost use Rattle.sig_command.specs.Moment.{moment};
ghost use Rattle.sig_init.specs.Files.{KeepsBut, StaysTold, file_a, file_b};
ghost use Rattle.sig_opening.specs.Ends.{BreaksBy};
ghost use Rattle.sig_opening.specs.Files.{LackOne};
ghost use Rattle.sig_opening.specs.Stays.{KeepsOtherSettings};
ghost use Rattle.sig_outside.specs.Causes.{Rose};
ghost use Rattle.sig_serve.specs.Ends.{AreRefused, IsDamaged};
ghost use Rattle.sig_ticking.specs.Ends.{fails_by};
ghost use Rattle.sig_ticking.specs.Runs.{Couriers, CouriersBy, RunsOver, UnlessThere};
ghost use Rattle.sig_ticking.specs.Sides.{beside};

use crate::CourierEnd;
use crate::lines::tick_lines;
use sig_init::{FileNames, file_names};
use sig_links::Outside;
use sig_opening::{give_back, open};
use sig_outside::{Disk, Sink, Source};
use sig_serve::settings_from;
use sig_terms::Rules;
use sig_txend::Transmitter;
use sig_txnode::TxNode;
use sig_txsettings::TxSettings;
use std::alloc::Global;
use std::sync::Wait;

// A node after its ticks, and how they ended.
struct Ticked<D: Disk> {
    node: TxNode<D>,
    end: CourierEnd,
}

/// Tries the push streams of a transmitter that are due at each line of the input: reads the settings of this name, loads the
/// store of this name, and makes one tick a line over a side of the outside (RFC 8935, section 2).
///
/// The settings are read first, then the store is opened, whose files have to be there, then the side is taken; what was opened
/// is given back before the end, the settings as soon as they are read. Dial and link faults end no run.
pub fn courier<R: Wait, X: Outside, I: Source, O: Sink>(
    alloc: Global,
    rt: &R,
    settings: &str,
    store: &str,
    input: &mut I,
    output: &mut O,
    outside: &mut X,
) -> CourierEnd
    // The causes of the ends.
    ensures settings_failed { result ≡ CourierEnd.SettingsFailed → Rose (X.settings_faults outside.old) (X.settings_faults outside.new) }
    ensures refused { (member : List ℕ) → result ≡ CourierEnd.Refused member → AreRefused (X.settings_of outside.old settings.now) member }
    ensures no_store { result ≡ CourierEnd.NoStore → LackOne (X.there outside.old (file_a store.now)) (X.there outside.old (file_b store.now)) }
    ensures store_failed { result ≡ CourierEnd.StoreFailed → Rose (X.store_faults outside.old) (X.store_faults outside.new) }
    ensures damaged { (file at : ℕ) → result ≡ CourierEnd.Damaged file at → IsDamaged (X.held outside.old (file_a store.now)) (X.held outside.old (file_b store.now)) file at }

    // The ticks, from the store that was opened to the one that is put back, by the input and to the output.
    ensures couriers { CouriersBy (X.settings_of outside.old settings.now) result (beside X.held X.sides X.sides_back (file_a store.now) (file_b store.now) outside.old) (beside X.held X.sides X.sides_back (file_a store.now) (file_b store.now) outside.new)
        (moment (I.left input.old) (I.faults input.old) (O.written output.old) (O.faults output.old) (O.stalls output.old)) (moment (I.left input.new) (I.faults input.new) (O.written output.new) (O.faults output.new) (O.stalls output.new)) }

    // No file is made. Where one of the store isn't there, no line is asked for.
    ensures there { X.there outside.new ≡ X.there outside.old }
    ensures missing { UnlessThere (X.there outside.old (file_a store.now)) (X.there outside.old (file_b store.now)) result (beside X.held X.sides X.sides_back (file_a store.now) (file_b store.now) outside.old) (beside X.held X.sides X.sides_back (file_a store.now) (file_b store.now) outside.new)
        (moment (I.left input.old) (I.faults input.old) (O.written output.old) (O.faults output.old) (O.stalls output.old)) (moment (I.left input.new) (I.faults input.new) (O.written output.new) (O.faults output.new) (O.stalls output.new)) }

    // What was opened is given back: a store that was told is told again.
    ensures back { StaysTold (X.held outside.old) (X.held outside.new) (file_a store.now) × StaysTold (X.held outside.old) (X.held outside.new) (file_b store.now) }
    ensures others { KeepsBut (file_a store.now) (file_b store.now) (X.held outside.old) (X.held outside.new) }
    ensures settings { KeepsOtherSettings settings.now (X.settings_of outside.old) (X.settings_of outside.new) }
    ensures doors { (X.doors outside.new ≡ X.doors outside.old) × (X.doors_out outside.new ≡ X.doors_out outside.old) × (X.doors_back outside.new ≡ X.doors_back outside.old) }
{
    let said = match settings_from(alloc, settings, outside) {
        Ok(said) => said,
        Err(cause) => return CourierEnd::of_unread(cause),
    };
    match file_names(alloc, store) {
        Ok(names) => courier_store(alloc, rt, said, &names, input, output, outside),
        Err(_) => CourierEnd::Memory,
    }
}

// Makes the ticks over the store of these files, by these settings.
fn courier_store<R: Wait, X: Outside, I: Source, O: Sink>(
    alloc: Global,
    rt: &R,
    said: TxSettings,
    names: &FileNames,
    input: &mut I,
    output: &mut O,
    outside: &mut X,
) -> CourierEnd
    requires proper { IsProperRules said.rules }
    requires apart { names.now.a ≢ names.now.b }
    ensures settings_failed { result ≢ CourierEnd.SettingsFailed }
    ensures refused { (member : List ℕ) → result ≢ CourierEnd.Refused member }
    ensures no_store { result ≡ CourierEnd.NoStore → LackOne (X.there outside.old names.now.a) (X.there outside.old names.now.b) }
    ensures store_failed { result ≡ CourierEnd.StoreFailed → Rose (X.store_faults outside.old) (X.store_faults outside.new) }
    ensures damaged { (file at : ℕ) → result ≡ CourierEnd.Damaged file at → IsDamaged (X.held outside.old names.now.a) (X.held outside.old names.now.b) file at }
    ensures couriers { Couriers said.rules result (beside X.held X.sides X.sides_back names.now.a names.now.b outside.old) (beside X.held X.sides X.sides_back names.now.a names.now.b outside.new)
        (moment (I.left input.old) (I.faults input.old) (O.written output.old) (O.faults output.old) (O.stalls output.old)) (moment (I.left input.new) (I.faults input.new) (O.written output.new) (O.faults output.new) (O.stalls output.new)) }
    ensures there { X.there outside.new ≡ X.there outside.old }
    ensures missing { UnlessThere (X.there outside.old names.now.a) (X.there outside.old names.now.b) result (beside X.held X.sides X.sides_back names.now.a names.now.b outside.old) (beside X.held X.sides X.sides_back names.now.a names.now.b outside.new)
        (moment (I.left input.old) (I.faults input.old) (O.written output.old) (O.faults output.old) (O.stalls output.old)) (moment (I.left input.new) (I.faults input.new) (O.written output.new) (O.faults output.new) (O.stalls output.new)) }
    ensures back { StaysTold (X.held outside.old) (X.held outside.new) names.now.a × StaysTold (X.held outside.old) (X.held outside.new) names.now.b }
    ensures others { KeepsBut names.now.a names.now.b (X.held outside.old) (X.held outside.new) }
    ensures settings { X.settings_of outside.new ≡ X.settings_of outside.old }
    ensures doors { (X.doors outside.new ≡ X.doors outside.old) × (X.doors_out outside.new ≡ X.doors_out outside.old) × (X.doors_back outside.new ≡ X.doors_back outside.old) }
{
    let TxSettings { rules, listen: _ } = said;
    match rules.copy(alloc) {
        Ok(by) => courier_by(alloc, rt, rules, &by, names, input, output, outside),
        Err(_) => CourierEnd::Memory,
    }
}

// Makes the ticks by these rules, which the node of the store answers by too.
fn courier_by<R: Wait, X: Outside, I: Source, O: Sink>(
    alloc: Global,
    rt: &R,
    rules: Rules,
    by: &Rules,
    names: &FileNames,
    input: &mut I,
    output: &mut O,
    outside: &mut X,
) -> CourierEnd
    requires proper { IsProperRules rules }
    requires same { by.now ≡ rules }
    requires apart { names.now.a ≢ names.now.b }
    ensures settings_failed { result ≢ CourierEnd.SettingsFailed }
    ensures refused { (member : List ℕ) → result ≢ CourierEnd.Refused member }
    ensures no_store { result ≡ CourierEnd.NoStore → LackOne (X.there outside.old names.now.a) (X.there outside.old names.now.b) }
    ensures store_failed { result ≡ CourierEnd.StoreFailed → Rose (X.store_faults outside.old) (X.store_faults outside.new) }
    ensures damaged { (file at : ℕ) → result ≡ CourierEnd.Damaged file at → IsDamaged (X.held outside.old names.now.a) (X.held outside.old names.now.b) file at }
    ensures couriers { Couriers rules result (beside X.held X.sides X.sides_back names.now.a names.now.b outside.old) (beside X.held X.sides X.sides_back names.now.a names.now.b outside.new)
        (moment (I.left input.old) (I.faults input.old) (O.written output.old) (O.faults output.old) (O.stalls output.old)) (moment (I.left input.new) (I.faults input.new) (O.written output.new) (O.faults output.new) (O.stalls output.new)) }
    ensures there { X.there outside.new ≡ X.there outside.old }
    ensures missing { UnlessThere (X.there outside.old names.now.a) (X.there outside.old names.now.b) result (beside X.held X.sides X.sides_back names.now.a names.now.b outside.old) (beside X.held X.sides X.sides_back names.now.a names.now.b outside.new)
        (moment (I.left input.old) (I.faults input.old) (O.written output.old) (O.faults output.old) (O.stalls output.old)) (moment (I.left input.new) (I.faults input.new) (O.written output.new) (O.faults output.new) (O.stalls output.new)) }
    ensures back { StaysTold (X.held outside.old) (X.held outside.new) names.now.a × StaysTold (X.held outside.old) (X.held outside.new) names.now.b }
    ensures others { KeepsBut names.now.a names.now.b (X.held outside.old) (X.held outside.new) }
    ensures settings { X.settings_of outside.new ≡ X.settings_of outside.old }
    ensures doors { (X.doors outside.new ≡ X.doors outside.old) × (X.doors_out outside.new ≡ X.doors_out outside.old) × (X.doors_back outside.new ≡ X.doors_back outside.old) }
{
    match open::<Transmitter<X::D>, X>(alloc, rules, names, outside) {
        Ok(node) => {
            let Ticked { node, end } = make_ticks(alloc, rt, node, by, input, output, outside);
            give_back::<Transmitter<X::D>, X>(node, names, outside);
            end
        }
        Err(cause) => CourierEnd::of_unopened(cause),
    }
}

// Makes the ticks over a side, which is given back.
fn make_ticks<R: Wait, X: Outside, I: Source, O: Sink>(
    alloc: Global,
    rt: &R,
    node: TxNode<X::D>,
    by: &Rules,
    input: &mut I,
    output: &mut O,
    outside: &mut X,
) -> Ticked<X::D>
    requires whole { node.store.broken_at ≡ None }
    requires rules { by.now ≡ node.rules }
    ensures makes { RunsOver X.D.told by.now result.end node result.node (X.sides outside.old) (X.sides_back outside.old) (X.sides outside.new) (X.sides_back outside.new)
        (moment (I.left input.old) (I.faults input.old) (O.written output.old) (O.faults output.old) (O.stalls output.old)) (moment (I.left input.new) (I.faults input.new) (O.written output.new) (O.faults output.new) (O.stalls output.new)) }
    ensures breaks { BreaksBy (fails_by result.end) result.node.store.broken_at }
    ensures stores { (X.held outside.new ≡ X.held outside.old) × (X.lent outside.new ≡ X.lent outside.old) × (X.store_faults outside.new ≡ X.store_faults outside.old) × (X.there outside.new ≡ X.there outside.old) }
    ensures settings { X.settings_of outside.new ≡ X.settings_of outside.old }
    ensures doors { (X.doors outside.new ≡ X.doors outside.old) × (X.doors_out outside.new ≡ X.doors_out outside.old) × (X.doors_back outside.new ≡ X.doors_back outside.old) }
{
    let mut node = node;
    let mut side = outside.side();
    let end = tick_lines(alloc, rt, &mut node, by, &mut side, input, output);
    outside.back_side(side);
    Ticked { node, end }
}
