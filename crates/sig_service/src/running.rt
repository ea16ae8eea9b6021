//! What the program does for its words but those of `manage`, over any input, output and outside.

ghost use Rattle.std.specs.Prelude.{◌≡◌, ◌<◌, ◌⊎◌, ℕ, List, [], None, Some, length, map, string_bytes, IfSome};
ghost use Rattle.std.specs.Str.Lines.{lines};
ghost use Rattle.sig_json.specs.declared.limits.TheConstants.{LAST_NUMBER};
ghost use Rattle.sig_outside.specs.Causes.{Rose};
ghost use Rattle.sig_command.specs.Moment.{moment, output_state};
ghost use Rattle.sig_init.specs.Files.{file_a, file_b};
ghost use Rattle.sig_set.specs.declared.trust.Issuer.{Issuer};
ghost use Rattle.sig_program.specs.Command.{command_of};
ghost use Rattle.sig_program.specs.declared.command.Command.{Command};
ghost use Rattle.sig_program.specs.Ends.{RanWith, ending_at, status_of, telling_of};
ghost use Rattle.sig_service.specs.Asking as spec;
ghost use Rattle.sig_service.specs.CourierRuns.{CourierRan};
ghost use Rattle.sig_service.specs.InitRuns.{InitRan};
ghost use Rattle.sig_service.specs.FetchRuns.{EndsCalm, FetchRan, IsFetchable};
ghost use Rattle.sig_service.specs.Outside.{MeetsNoFault, outside_state};
ghost use Rattle.sig_service.specs.ServerRuns.{IsServable, ServerRan};

use crate::asking::{courier_of, fetch_of, init_of, server_of};
use crate::courier_run::run_courier;
use crate::fetch_run::run_fetch;
use crate::init_run::run_init;
use crate::server_run::run_server;
use sig_links::Outside;
use sig_outside::{Sink, Source};
use std::alloc::Global;
use std::sync::Wait;
use std::thread::Threads;

/// Does what the words ask for where that isn't `manage`, and answers the exit status: as `run` does, to whose other words this is
/// no command.
pub(crate) fn run_others<R: Threads + Wait + Sync, X: Outside, I: Source, O: Sink>(
    alloc: Global,
    rt: &R,
    words: &[String],
    input: &mut I,
    output: &mut O,
    outside: &mut X,
) -> u8
    ensures serves { IfSome (spec.server_of (map (λ word. string_bytes word) words.now)) (λ ask. ServerRan ask
        (outside_state X.settings_of X.held X.there X.doors X.doors_back X.sides X.sides_back X.settings_faults X.store_faults X.network_faults outside.old)
        (outside_state X.settings_of X.held X.there X.doors X.doors_back X.sides X.sides_back X.settings_faults X.store_faults X.network_faults outside.new)
        (output_state (O.written output.old) (O.faults output.old) (O.stalls output.old)) (output_state (O.written output.new) (O.faults output.new) (O.stalls output.new)) result) }
    ensures fetches { IfSome (spec.fetch_of (map (λ word. string_bytes word) words.now)) (λ ask. FetchRan ask
        (outside_state X.settings_of X.held X.there X.doors X.doors_back X.sides X.sides_back X.settings_faults X.store_faults X.network_faults outside.old)
        (outside_state X.settings_of X.held X.there X.doors X.doors_back X.sides X.sides_back X.settings_faults X.store_faults X.network_faults outside.new)
        (output_state (O.written output.old) (O.faults output.old) (O.stalls output.old)) (output_state (O.written output.new) (O.faults output.new) (O.stalls output.new)) result) }
    ensures couriers { IfSome (spec.courier_of (map (λ word. string_bytes word) words.now)) (λ ask. CourierRan ask
        (outside_state X.settings_of X.held X.there X.doors X.doors_back X.sides X.sides_back X.settings_faults X.store_faults X.network_faults outside.old)
        (outside_state X.settings_of X.held X.there X.doors X.doors_back X.sides X.sides_back X.settings_faults X.store_faults X.network_faults outside.new)
        (record { left = I.left input.old; faults = I.faults input.old }) (record { left = I.left input.new; faults = I.faults input.new }) (output_state (O.written output.old) (O.faults output.old) (O.stalls output.old)) (output_state (O.written output.new) (O.faults output.new) (O.stalls output.new)) result) }
    ensures init { IfSome (spec.init_of (map (λ word. string_bytes word) words.now)) (λ ask. InitRan ask
        (X.held outside.old) (X.held outside.new) (X.store_faults outside.old) (X.store_faults outside.new)
        (output_state (O.written output.old) (O.faults output.old) (O.stalls output.old)) (output_state (O.written output.new) (O.faults output.new) (O.stalls output.new)) result) }
    ensures plain { spec.server_of (map (λ word. string_bytes word) words.now) ≡ None → spec.courier_of (map (λ word. string_bytes word) words.now) ≡ None → spec.fetch_of (map (λ word. string_bytes word) words.now) ≡ None → spec.init_of (map (λ word. string_bytes word) words.now) ≡ None
        → RanWith (map (λ word. string_bytes word) words.now)
        (moment (I.left input.old) (I.faults input.old) (O.written output.old) (O.faults output.old) (O.stalls output.old))
        (moment (I.left input.new) (I.faults input.new) (O.written output.new) (O.faults output.new) (O.stalls output.new)) result }

    // The status 1 comes only where the words are no command.
    ensures usage { result ≡ 1 → (command_of (map (λ word. string_bytes word) words.now) ≡ None)
        × (spec.init_of (map (λ word. string_bytes word) words.now) ≡ None) × (spec.server_of (map (λ word. string_bytes word) words.now) ≡ None) × (spec.fetch_of (map (λ word. string_bytes word) words.now) ≡ None) × (spec.courier_of (map (λ word. string_bytes word) words.now) ≡ None) }

    // The input is not even asked where no command reads it.
    ensures unasked { command_of (map (λ word. string_bytes word) words.now) ≡ None → spec.courier_of (map (λ word. string_bytes word) words.now) ≡ None → input.new ≡ input.old }

    // Without faults, settings that are taken and a store that stands for a state are served to the end, or until something
    // differs, or until memory runs out.
    ensures served { (ask : spec.ServerAsked) → spec.server_of (map (λ word. string_bytes word) words.now) ≡ Some ask
        → IsServable ask (outside_state X.settings_of X.held X.there X.doors X.doors_back X.sides X.sides_back X.settings_faults X.store_faults X.network_faults outside.old)
        → MeetsNoFault (outside_state X.settings_of X.held X.there X.doors X.doors_back X.sides X.sides_back X.settings_faults X.store_faults X.network_faults outside.old)
        (outside_state X.settings_of X.held X.there X.doors X.doors_back X.sides X.sides_back X.settings_faults X.store_faults X.network_faults outside.new)
        (output_state (O.written output.old) (O.faults output.old) (O.stalls output.old)) (output_state (O.written output.new) (O.faults output.new) (O.stalls output.new))
        → (result ≡ 0) ⊎ (result ≡ 8) ⊎ (result ≡ 9) }

    // Without faults, settings that are taken and name a transmitter, and a store that stands for a state: a fetch is done,
    // or memory ran out, the journal is full, or the transmitter gave no page.
    ensures fetched { (ask : spec.StoreAsked) → spec.fetch_of (map (λ word. string_bytes word) words.now) ≡ Some ask
        → IsFetchable ask (outside_state X.settings_of X.held X.there X.doors X.doors_back X.sides X.sides_back X.settings_faults X.store_faults X.network_faults outside.old)
        → MeetsNoFault (outside_state X.settings_of X.held X.there X.doors X.doors_back X.sides X.sides_back X.settings_faults X.store_faults X.network_faults outside.old)
        (outside_state X.settings_of X.held X.there X.doors X.doors_back X.sides X.sides_back X.settings_faults X.store_faults X.network_faults outside.new)
        (output_state (O.written output.old) (O.faults output.old) (O.stalls output.old)) (output_state (O.written output.new) (O.faults output.new) (O.stalls output.new))
        → EndsCalm result }

    // Without faults, a store is made over two empty files, or memory ran out.
    ensures made { (ask : spec.Asked) → spec.init_of (map (λ word. string_bytes word) words.now) ≡ Some ask
        → X.held outside.old (file_a ask.store) ≡ Some [] → X.held outside.old (file_b ask.store) ≡ Some []
        → (Rose (X.store_faults outside.old) (X.store_faults outside.new) → ⊥) → (Rose (O.faults output.old) (O.faults output.new) → ⊥)
        → (Rose (O.stalls output.old) (O.stalls output.new) → ⊥) → (result ≡ 0) ⊎ (result ≡ 9) }

    // Without faults, over a told input of fewer than 2^62 bytes, a command ends as its lines alone say, or out of memory.
    ensures complete { (command : Command) (told : List ℕ) → command_of (map (λ word. string_bytes word) words.now) ≡ Some command
        → I.left input.old ≡ Some told → length told < LAST_NUMBER
        → (Rose (I.faults input.old) (I.faults input.new) → ⊥) → (Rose (O.faults output.old) (O.faults output.new) → ⊥)
        → (Rose (O.stalls output.old) (O.stalls output.new) → ⊥)
        → (result ≡ status_of (ending_at ((telling_of command).stop (lines told)))) ⊎ (result ≡ 9) }
    ensures fold { (issuer : Issuer) (aud told : List ℕ) → command_of (map (λ word. string_bytes word) words.now) ≡ Some (Command.Fold issuer aud)
        → I.left input.old ≡ Some told → length told < LAST_NUMBER
        → (Rose (I.faults input.old) (I.faults input.new) → ⊥) → (Rose (O.faults output.old) (O.faults output.new) → ⊥)
        → (Rose (O.stalls output.old) (O.stalls output.new) → ⊥) → (result ≡ 0) ⊎ (result ≡ 9) }

    // Of the outside, `init` touches no more than the files of its store, and `fold` and `replay` nothing.
    ensures untouched { spec.server_of (map (λ word. string_bytes word) words.now) ≡ None → spec.courier_of (map (λ word. string_bytes word) words.now) ≡ None → spec.fetch_of (map (λ word. string_bytes word) words.now) ≡ None → spec.init_of (map (λ word. string_bytes word) words.now) ≡ None → outside.new ≡ outside.old }
    ensures settings { spec.server_of (map (λ word. string_bytes word) words.now) ≡ None → spec.courier_of (map (λ word. string_bytes word) words.now) ≡ None → spec.fetch_of (map (λ word. string_bytes word) words.now) ≡ None → (X.settings_of outside.new ≡ X.settings_of outside.old) × (X.settings_faults outside.new ≡ X.settings_faults outside.old) }
    ensures doors { spec.server_of (map (λ word. string_bytes word) words.now) ≡ None
        → (X.doors outside.new ≡ X.doors outside.old) × (X.doors_out outside.new ≡ X.doors_out outside.old) × (X.doors_back outside.new ≡ X.doors_back outside.old) }
    ensures sides { spec.fetch_of (map (λ word. string_bytes word) words.now) ≡ None → spec.courier_of (map (λ word. string_bytes word) words.now) ≡ None
        → (X.sides outside.new ≡ X.sides outside.old) × (X.sides_out outside.new ≡ X.sides_out outside.old) × (X.sides_back outside.new ≡ X.sides_back outside.old) }
    ensures network { spec.server_of (map (λ word. string_bytes word) words.now) ≡ None → spec.courier_of (map (λ word. string_bytes word) words.now) ≡ None → spec.fetch_of (map (λ word. string_bytes word) words.now) ≡ None → X.network_faults outside.new ≡ X.network_faults outside.old }
{
    match server_of(words) {
        Some(ask) => run_server(alloc, rt, ask.server, ask.over, output, outside),
        None => match courier_of(words) {
            Some(over) => run_courier(alloc, rt, over, input, output, outside),
            None => run_plain(alloc, words, input, output, outside),
        },
    }
}

/// Does what the words ask for where that waits for no link, and answers the exit status. It always returns.
///
/// For the words of `init` it is 0 where the store is made, 5 where a file couldn't be opened or its disk failed, 9 out of
/// memory, 12 where a file isn't empty, and 4 where the output stopped at the last line. For those of `fetch` it is 0 where as
/// many rounds were made as were asked for or the last page lists no token, 3, 10, 5 and 6 as of a server, 7 where a dial or a
/// link failed, 9 out of memory, 11 where the journal would end past 2^62, 13 where the transmitter gave no page, and 4 where
/// the output stopped. For all other words it is the one of `sig_program::run`, to which `serve`, `receive` and
/// `courier` are no commands, and nothing outside is touched.
pub fn run_plain<X: Outside, I: Source, O: Sink>(
    alloc: Global,
    words: &[String],
    input: &mut I,
    output: &mut O,
    outside: &mut X,
) -> u8
    ensures plain { spec.fetch_of (map (λ word. string_bytes word) words.now) ≡ None → spec.init_of (map (λ word. string_bytes word) words.now) ≡ None → RanWith (map (λ word. string_bytes word) words.now)
        (moment (I.left input.old) (I.faults input.old) (O.written output.old) (O.faults output.old) (O.stalls output.old))
        (moment (I.left input.new) (I.faults input.new) (O.written output.new) (O.faults output.new) (O.stalls output.new)) result }
    ensures fetches { IfSome (spec.fetch_of (map (λ word. string_bytes word) words.now)) (λ ask. FetchRan ask
        (outside_state X.settings_of X.held X.there X.doors X.doors_back X.sides X.sides_back X.settings_faults X.store_faults X.network_faults outside.old)
        (outside_state X.settings_of X.held X.there X.doors X.doors_back X.sides X.sides_back X.settings_faults X.store_faults X.network_faults outside.new)
        (output_state (O.written output.old) (O.faults output.old) (O.stalls output.old)) (output_state (O.written output.new) (O.faults output.new) (O.stalls output.new)) result) }
    ensures init { IfSome (spec.init_of (map (λ word. string_bytes word) words.now)) (λ ask. InitRan ask
        (X.held outside.old) (X.held outside.new) (X.store_faults outside.old) (X.store_faults outside.new)
        (output_state (O.written output.old) (O.faults output.old) (O.stalls output.old)) (output_state (O.written output.new) (O.faults output.new) (O.stalls output.new)) result) }

    // The status 1 comes only where the words are no command.
    ensures usage { result ≡ 1 → (command_of (map (λ word. string_bytes word) words.now) ≡ None) × (spec.init_of (map (λ word. string_bytes word) words.now) ≡ None) × (spec.fetch_of (map (λ word. string_bytes word) words.now) ≡ None) }

    // The input is not even asked where no command reads it.
    ensures unasked { command_of (map (λ word. string_bytes word) words.now) ≡ None → input.new ≡ input.old }

    // Without faults, settings that are taken and name a transmitter, and a store that stands for a state: a fetch is done,
    // or memory ran out, the journal is full, or the transmitter gave no page.
    ensures fetched { (ask : spec.StoreAsked) → spec.fetch_of (map (λ word. string_bytes word) words.now) ≡ Some ask
        → IsFetchable ask (outside_state X.settings_of X.held X.there X.doors X.doors_back X.sides X.sides_back X.settings_faults X.store_faults X.network_faults outside.old)
        → MeetsNoFault (outside_state X.settings_of X.held X.there X.doors X.doors_back X.sides X.sides_back X.settings_faults X.store_faults X.network_faults outside.old)
        (outside_state X.settings_of X.held X.there X.doors X.doors_back X.sides X.sides_back X.settings_faults X.store_faults X.network_faults outside.new)
        (output_state (O.written output.old) (O.faults output.old) (O.stalls output.old)) (output_state (O.written output.new) (O.faults output.new) (O.stalls output.new))
        → EndsCalm result }

    // Without faults, a store is made over two empty files, or memory ran out.
    ensures made { (ask : spec.Asked) → spec.init_of (map (λ word. string_bytes word) words.now) ≡ Some ask
        → X.held outside.old (file_a ask.store) ≡ Some [] → X.held outside.old (file_b ask.store) ≡ Some []
        → (Rose (X.store_faults outside.old) (X.store_faults outside.new) → ⊥) → (Rose (O.faults output.old) (O.faults output.new) → ⊥)
        → (Rose (O.stalls output.old) (O.stalls output.new) → ⊥) → (result ≡ 0) ⊎ (result ≡ 9) }

    // Without faults, over a told input of fewer than 2^62 bytes, a command ends as its lines alone say, or out of memory.
    ensures complete { (command : Command) (told : List ℕ) → command_of (map (λ word. string_bytes word) words.now) ≡ Some command
        → I.left input.old ≡ Some told → length told < LAST_NUMBER
        → (Rose (I.faults input.old) (I.faults input.new) → ⊥) → (Rose (O.faults output.old) (O.faults output.new) → ⊥)
        → (Rose (O.stalls output.old) (O.stalls output.new) → ⊥)
        → (result ≡ status_of (ending_at ((telling_of command).stop (lines told)))) ⊎ (result ≡ 9) }

    // No line stops `fold`: so it ends with its whole text, or out of memory.
    ensures fold { (issuer : Issuer) (aud told : List ℕ) → command_of (map (λ word. string_bytes word) words.now) ≡ Some (Command.Fold issuer aud)
        → I.left input.old ≡ Some told → length told < LAST_NUMBER
        → (Rose (I.faults input.old) (I.faults input.new) → ⊥) → (Rose (O.faults output.old) (O.faults output.new) → ⊥)
        → (Rose (O.stalls output.old) (O.stalls output.new) → ⊥) → (result ≡ 0) ⊎ (result ≡ 9) }

    // Of the outside no more than the files of the store is touched.
    ensures untouched { spec.fetch_of (map (λ word. string_bytes word) words.now) ≡ None → spec.init_of (map (λ word. string_bytes word) words.now) ≡ None → outside.new ≡ outside.old }
    ensures settings { spec.fetch_of (map (λ word. string_bytes word) words.now) ≡ None → (X.settings_of outside.new ≡ X.settings_of outside.old) × (X.settings_faults outside.new ≡ X.settings_faults outside.old) }
    ensures doors { (X.doors outside.new ≡ X.doors outside.old) × (X.doors_out outside.new ≡ X.doors_out outside.old) × (X.doors_back outside.new ≡ X.doors_back outside.old) }
    ensures sides { spec.fetch_of (map (λ word. string_bytes word) words.now) ≡ None → (X.sides outside.new ≡ X.sides outside.old) × (X.sides_out outside.new ≡ X.sides_out outside.old) × (X.sides_back outside.new ≡ X.sides_back outside.old) }
    ensures network { spec.fetch_of (map (λ word. string_bytes word) words.now) ≡ None → X.network_faults outside.new ≡ X.network_faults outside.old }
{
    match init_of(words) {
        Some(ask) => {
            let store_id = ask.store_id;
            run_init(alloc, ask.kind, ask.store, store_id, output, outside)
        }
        None => match fetch_of(words) {
            Some(over) => run_fetch(alloc, over, output, outside),
            None => sig_program::run(alloc, words, input, output),
        },
    }
}
