//! What the program does for its words, over any input, output and outside.

ghost use Rattle.std.specs.Prelude.{◌≡◌, ◌<◌, ◌⊎◌, ℕ, List, [], None, Some, length, map, string_bytes, IfSome};
ghost use Rattle.std.specs.Str.Lines.{lines};
ghost use Rattle.sig_json.specs.declared.limits.TheConstants.{LAST_NUMBER};
ghost use Rattle.sig_outside.specs.Causes.{Rose};
ghost use Rattle.sig_command.specs.Moment.{moment, output_state};
ghost use Rattle.sig_init.specs.Files.{file_a, file_b};
ghost use Rattle.sig_set.specs.declared.trust.Issuer.{Issuer};
ghost use Rattle.sig_program.specs.Command.{command_of};
ghost use Rattle.sig_program.specs.declared.command.Command.{Command};
ghost use Rattle.sig_program.specs.Ends.{RanWith, ending_at, status_of, telling_of};
ghost use Rattle.sig_service.specs.Asking as spec;
ghost use Rattle.sig_service.specs.CourierRuns.{CourierRan};
ghost use Rattle.sig_service.specs.InitRuns.{InitRan};
ghost use Rattle.sig_service.specs.FetchRuns.{EndsCalm, FetchRan, IsFetchable};
ghost use Rattle.sig_service.specs.ManageRuns.{IsManageable, ManageRan};
ghost use Rattle.sig_service.specs.ManageRuns as manages;
ghost use Rattle.sig_service.specs.Outside.{MeetsNoFault, outside_state};
ghost use Rattle.sig_service.specs.ServerRuns.{IsServable, ServerRan};

use crate::asking::manage_of;
use crate::manage_run::run_manage;
use crate::running::run_others;
use sig_links::Outside;
use sig_outside::{Sink, Source};
use std::alloc::Global;
use std::sync::Wait;
use std::thread::Threads;

/// Does what the words ask for, and answers the exit status. For the words of `serve` and `receive` it may wait for links.
///
/// For those words it is 0 where as many watches ran as were asked for or the door is shut, 3 where the settings couldn't be
/// read, 10 where they are refused, 5 where a file of the store couldn't be opened or its disk failed, 6 where the store isn't
/// there or is damaged, 7 where the door couldn't be opened or it failed, 8 where two kept values differ, 9 out of memory, and
/// 4 where the output stopped at the last line. For those of `courier` it is 0 where the input was read to its end and all is
/// written, 3 where the input or the settings failed, 4 where the output stopped, 5, 6, 9 and 10 as of a server, and 11 where
/// the journal would end past 2^62 or so many bytes of the input were read. For those of `manage` it
/// is 0 where the streams are as they are declared, 3, 9 and 10 as of a server, 4 where the output stopped, 7 where a dial or
/// a link failed, and 13 where the transmitter gave no answer that can be used. For all other words it is the one of
/// `run_plain`.
pub fn run<R: Threads + Wait + Sync, X: Outside, I: Source, O: Sink>(
    alloc: Global,
    rt: &R,
    words: &[String],
    input: &mut I,
    output: &mut O,
    outside: &mut X,
) -> u8
    ensures serves { IfSome (spec.server_of (map (λ word. string_bytes word) words.now)) (λ ask. ServerRan ask
        (outside_state X.settings_of X.held X.there X.doors X.doors_back X.sides X.sides_back X.settings_faults X.store_faults X.network_faults outside.old)
        (outside_state X.settings_of X.held X.there X.doors X.doors_back X.sides X.sides_back X.settings_faults X.store_faults X.network_faults outside.new)
        (output_state (O.written output.old) (O.faults output.old) (O.stalls output.old)) (output_state (O.written output.new) (O.faults output.new) (O.stalls output.new)) result) }
    ensures fetches { IfSome (spec.fetch_of (map (λ word. string_bytes word) words.now)) (λ ask. FetchRan ask
        (outside_state X.settings_of X.held X.there X.doors X.doors_back X.sides X.sides_back X.settings_faults X.store_faults X.network_faults outside.old)
        (outside_state X.settings_of X.held X.there X.doors X.doors_back X.sides X.sides_back X.settings_faults X.store_faults X.network_faults outside.new)
        (output_state (O.written output.old) (O.faults output.old) (O.stalls output.old)) (output_state (O.written output.new) (O.faults output.new) (O.stalls output.new)) result) }
    ensures couriers { IfSome (spec.courier_of (map (λ word. string_bytes word) words.now)) (λ ask. CourierRan ask
        (outside_state X.settings_of X.held X.there X.doors X.doors_back X.sides X.sides_back X.settings_faults X.store_faults X.network_faults outside.old)
        (outside_state X.settings_of X.held X.there X.doors X.doors_back X.sides X.sides_back X.settings_faults X.store_faults X.network_faults outside.new)
        (record { left = I.left input.old; faults = I.faults input.old }) (record { left = I.left input.new; faults = I.faults input.new }) (output_state (O.written output.old) (O.faults output.old) (O.stalls output.old)) (output_state (O.written output.new) (O.faults output.new) (O.stalls output.new)) result) }
    ensures manages { IfSome (spec.manage_of (map (λ word. string_bytes word) words.now)) (λ settings. ManageRan settings
        (outside_state X.settings_of X.held X.there X.doors X.doors_back X.sides X.sides_back X.settings_faults X.store_faults X.network_faults outside.old)
        (outside_state X.settings_of X.held X.there X.doors X.doors_back X.sides X.sides_back X.settings_faults X.store_faults X.network_faults outside.new)
        (output_state (O.written output.old) (O.faults output.old) (O.stalls output.old)) (output_state (O.written output.new) (O.faults output.new) (O.stalls output.new)) result) }
    ensures init { IfSome (spec.init_of (map (λ word. string_bytes word) words.now)) (λ ask. InitRan ask
        (X.held outside.old) (X.held outside.new) (X.store_faults outside.old) (X.store_faults outside.new)
        (output_state (O.written output.old) (O.faults output.old) (O.stalls output.old)) (output_state (O.written output.new) (O.faults output.new) (O.stalls output.new)) result) }
    ensures plain { spec.manage_of (map (λ word. string_bytes word) words.now) ≡ None → spec.server_of (map (λ word. string_bytes word) words.now) ≡ None → spec.courier_of (map (λ word. string_bytes word) words.now) ≡ None → spec.fetch_of (map (λ word. string_bytes word) words.now) ≡ None → spec.init_of (map (λ word. string_bytes word) words.now) ≡ None
        → RanWith (map (λ word. string_bytes word) words.now)
        (moment (I.left input.old) (I.faults input.old) (O.written output.old) (O.faults output.old) (O.stalls output.old))
        (moment (I.left input.new) (I.faults input.new) (O.written output.new) (O.faults output.new) (O.stalls output.new)) result }

    // The status 1 comes only where the words are no command.
    ensures usage { result ≡ 1 → (command_of (map (λ word. string_bytes word) words.now) ≡ None)
        × (spec.init_of (map (λ word. string_bytes word) words.now) ≡ None) × (spec.server_of (map (λ word. string_bytes word) words.now) ≡ None) × (spec.fetch_of (map (λ word. string_bytes word) words.now) ≡ None) × (spec.courier_of (map (λ word. string_bytes word) words.now) ≡ None) × (spec.manage_of (map (λ word. string_bytes word) words.now) ≡ None) }

    // The input is not even asked where no command reads it.
    ensures unasked { command_of (map (λ word. string_bytes word) words.now) ≡ None → spec.courier_of (map (λ word. string_bytes word) words.now) ≡ None → input.new ≡ input.old }

    // Without faults, settings that are taken and a store that stands for a state are served to the end, or until something
    // differs, or until memory runs out.
    ensures served { (ask : spec.ServerAsked) → spec.server_of (map (λ word. string_bytes word) words.now) ≡ Some ask
        → IsServable ask (outside_state X.settings_of X.held X.there X.doors X.doors_back X.sides X.sides_back X.settings_faults X.store_faults X.network_faults outside.old)
        → MeetsNoFault (outside_state X.settings_of X.held X.there X.doors X.doors_back X.sides X.sides_back X.settings_faults X.store_faults X.network_faults outside.old)
        (outside_state X.settings_of X.held X.there X.doors X.doors_back X.sides X.sides_back X.settings_faults X.store_faults X.network_faults outside.new)
        (output_state (O.written output.old) (O.faults output.old) (O.stalls output.old)) (output_state (O.written output.new) (O.faults output.new) (O.stalls output.new))
        → (result ≡ 0) ⊎ (result ≡ 8) ⊎ (result ≡ 9) }

    // Without faults, settings that are taken and name a transmitter, and a store that stands for a state: a fetch is done,
    // or memory ran out, the journal is full, or the transmitter gave no page.
    ensures fetched { (ask : spec.StoreAsked) → spec.fetch_of (map (λ word. string_bytes word) words.now) ≡ Some ask
        → IsFetchable ask (outside_state X.settings_of X.held X.there X.doors X.doors_back X.sides X.sides_back X.settings_faults X.store_faults X.network_faults outside.old)
        → MeetsNoFault (outside_state X.settings_of X.held X.there X.doors X.doors_back X.sides X.sides_back X.settings_faults X.store_faults X.network_faults outside.old)
        (outside_state X.settings_of X.held X.there X.doors X.doors_back X.sides X.sides_back X.settings_faults X.store_faults X.network_faults outside.new)
        (output_state (O.written output.old) (O.faults output.old) (O.stalls output.old)) (output_state (O.written output.new) (O.faults output.new) (O.stalls output.new))
        → EndsCalm result }

    // Without faults, by settings that are taken, `manage` is done, or memory ran out, or the transmitter gave no answer that
    // can be used.
    ensures managed { (settings : List ℕ) → spec.manage_of (map (λ word. string_bytes word) words.now) ≡ Some settings
        → IsManageable settings (outside_state X.settings_of X.held X.there X.doors X.doors_back X.sides X.sides_back X.settings_faults X.store_faults X.network_faults outside.old)
        → MeetsNoFault (outside_state X.settings_of X.held X.there X.doors X.doors_back X.sides X.sides_back X.settings_faults X.store_faults X.network_faults outside.old)
        (outside_state X.settings_of X.held X.there X.doors X.doors_back X.sides X.sides_back X.settings_faults X.store_faults X.network_faults outside.new)
        (output_state (O.written output.old) (O.faults output.old) (O.stalls output.old)) (output_state (O.written output.new) (O.faults output.new) (O.stalls output.new))
        → manages.EndsCalm result }

    // Without faults, a store is made over two empty files, or memory ran out.
    ensures made { (ask : spec.Asked) → spec.init_of (map (λ word. string_bytes word) words.now) ≡ Some ask
        → X.held outside.old (file_a ask.store) ≡ Some [] → X.held outside.old (file_b ask.store) ≡ Some []
        → (Rose (X.store_faults outside.old) (X.store_faults outside.new) → ⊥) → (Rose (O.faults output.old) (O.faults output.new) → ⊥)
        → (Rose (O.stalls output.old) (O.stalls output.new) → ⊥) → (result ≡ 0) ⊎ (result ≡ 9) }

    // Without faults, over a told input of fewer than 2^62 bytes, a command ends as its lines alone say, or out of memory.
    ensures complete { (command : Command) (told : List ℕ) → command_of (map (λ word. string_bytes word) words.now) ≡ Some command
        → I.left input.old ≡ Some told → length told < LAST_NUMBER
        → (Rose (I.faults input.old) (I.faults input.new) → ⊥) → (Rose (O.faults output.old) (O.faults output.new) → ⊥)
        → (Rose (O.stalls output.old) (O.stalls output.new) → ⊥)
        → (result ≡ status_of (ending_at ((telling_of command).stop (lines told)))) ⊎ (result ≡ 9) }
    ensures fold { (issuer : Issuer) (aud told : List ℕ) → command_of (map (λ word. string_bytes word) words.now) ≡ Some (Command.Fold issuer aud)
        → I.left input.old ≡ Some told → length told < LAST_NUMBER
        → (Rose (I.faults input.old) (I.faults input.new) → ⊥) → (Rose (O.faults output.old) (O.faults output.new) → ⊥)
        → (Rose (O.stalls output.old) (O.stalls output.new) → ⊥) → (result ≡ 0) ⊎ (result ≡ 9) }

    // Of the outside, `init` touches no more than the files of its store, and `fold` and `replay` nothing.
    ensures untouched { spec.manage_of (map (λ word. string_bytes word) words.now) ≡ None → spec.server_of (map (λ word. string_bytes word) words.now) ≡ None → spec.courier_of (map (λ word. string_bytes word) words.now) ≡ None → spec.fetch_of (map (λ word. string_bytes word) words.now) ≡ None → spec.init_of (map (λ word. string_bytes word) words.now) ≡ None → outside.new ≡ outside.old }
    ensures settings { spec.manage_of (map (λ word. string_bytes word) words.now) ≡ None → spec.server_of (map (λ word. string_bytes word) words.now) ≡ None → spec.courier_of (map (λ word. string_bytes word) words.now) ≡ None → spec.fetch_of (map (λ word. string_bytes word) words.now) ≡ None → (X.settings_of outside.new ≡ X.settings_of outside.old) × (X.settings_faults outside.new ≡ X.settings_faults outside.old) }
    ensures doors { spec.server_of (map (λ word. string_bytes word) words.now) ≡ None
        → (X.doors outside.new ≡ X.doors outside.old) × (X.doors_out outside.new ≡ X.doors_out outside.old) × (X.doors_back outside.new ≡ X.doors_back outside.old) }
    ensures sides { spec.manage_of (map (λ word. string_bytes word) words.now) ≡ None → spec.fetch_of (map (λ word. string_bytes word) words.now) ≡ None → spec.courier_of (map (λ word. string_bytes word) words.now) ≡ None
        → (X.sides outside.new ≡ X.sides outside.old) × (X.sides_out outside.new ≡ X.sides_out outside.old) × (X.sides_back outside.new ≡ X.sides_back outside.old) }
    ensures network { spec.manage_of (map (λ word. string_bytes word) words.now) ≡ None → spec.server_of (map (λ word. string_bytes word) words.now) ≡ None → spec.courier_of (map (λ word. string_bytes word) words.now) ≡ None → spec.fetch_of (map (λ word. string_bytes word) words.now) ≡ None → X.network_faults outside.new ≡ X.network_faults outside.old }
{
    match manage_of(words) {
        Some(settings) => run_manage(alloc, settings, output, outside),
        None => run_others(alloc, rt, words, input, output, outside),
    }
}
