//! What the program does for its words.

ghost use Rattle.std.specs.Prelude.{◌≡◌, ◌<◌, ◌⊎◌, ℕ, List, [], Option, Some, None, drop, length, map, string_bytes, IfErr, IfOk, IfSome};
ghost use Rattle.std.specs.IoError.{error_kind};
ghost use Rattle.std.specs.declared.io.ErrorKind.TheVariants.{OutOfMemory};
ghost use Rattle.std.specs.Str.Lines.{lines};
ghost use Rattle.sig_json.specs.declared.limits.TheConstants.{LAST_NUMBER};
ghost use Rattle.sig_outside.specs.Causes.{Rose};
ghost use Rattle.sig_command.specs.Moment.{moment, output_state};
ghost use Rattle.sig_command.specs.Telling.{WhyEnded, Wrote};
ghost use Rattle.sig_program.specs.Command as spec;
ghost use Rattle.sig_program.specs.declared.command.Command.{Command};
ghost use Rattle.sig_program.specs.Ends.{Cause, Finished, RanWith, Spoke, ending_at, status_of, telling_of};
ghost use Rattle.sig_fold.specs.Fold.{trust_of};
ghost use Rattle.sig_receiver.specs.Receiver.{StandsFor};
ghost use Rattle.sig_set.specs.declared.trust.Issuer.{Issuer};

use crate::command::{Command, command_of};
use crate::ending::Ending;
use crate::finishing::{finish, status};
use sig_command::{LinesEnd, tell_all};
use sig_fold::Folder;
use sig_json::{Items, Memory, Text};
use sig_outside::{Sink, Source};
use sig_set::{Issuer, PreparedTrust, Trust};
use sig_world::replay;
use std::alloc::Global;
use std::io;

/// Does what the words ask for that the system gave, the program's own name first, and answers the exit status.
///
/// Where they could not be held for lack of memory, the run ends for that. Where one of them is no text, they are no
/// command.
pub fn start<I: Source, O: Sink>(
    alloc: Global,
    words: io::Result<Vec<String>>,
    input: &mut I,
    output: &mut O,
) -> u8
    ensures words { IfOk words (λ all. RanWith (map (λ word. string_bytes word) (drop 1 all.items))
        (moment (I.left input.old) (I.faults input.old) (O.written output.old) (O.faults output.old) (O.stalls output.old))
        (moment (I.left input.new) (I.faults input.new) (O.written output.new) (O.faults output.new) (O.stalls output.new)) result) }
    ensures unasked { IfOk words (λ all. spec.command_of (map (λ word. string_bytes word) (drop 1 all.items)) ≡ None → input.new ≡ input.old) }
    ensures no_text { IfErr words (λ error. (error_kind error ≡ OutOfMemory → ⊥) → (input.new ≡ input.old) × RanWith []
        (moment (I.left input.old) (I.faults input.old) (O.written output.old) (O.faults output.old) (O.stalls output.old))
        (moment (I.left input.new) (I.faults input.new) (O.written output.new) (O.faults output.new) (O.stalls output.new)) result) }
    ensures memory { IfErr words (λ error. error_kind error ≡ OutOfMemory → (input.new ≡ input.old) × (e : Ending) × (result ≡ status_of e)
        × Finished (Ending.Ran LinesEnd.Memory) (output_state (O.written output.old) (O.faults output.old) (O.stalls output.old)) (output_state (O.written output.new) (O.faults output.new) (O.stalls output.new)) e) }
{
    match words {
        Ok(words) => run(alloc, after_name(words.as_slice()), input, output),
        Err(error) => {
            if error.kind() == io::ErrorKind::OutOfMemory {
                end_without_words(output)
            } else {
                run(alloc, &[], input, output)
            }
        }
    }
}

/// The words after the program's own name.
pub fn after_name(words: &[String]) -> &[String]
    ensures { result.now ≡ drop 1 words.now }
{
    match words.split_first() {
        None => words,
        Some((_, words)) => words,
    }
}

/// Does what the words ask for, and answers the exit status.
pub fn run<I: Source, O: Sink>(alloc: Global, words: &[String], input: &mut I, output: &mut O) -> u8
    ensures ends { RanWith (map (λ word. string_bytes word) words.now)
        (moment (I.left input.old) (I.faults input.old) (O.written output.old) (O.faults output.old) (O.stalls output.old))
        (moment (I.left input.new) (I.faults input.new) (O.written output.new) (O.faults output.new) (O.stalls output.new)) result }

    // The status 1 comes exactly where the words are no command, but where memory ends or the output stops.
    ensures usage { result ≡ 1 → spec.command_of (map (λ word. string_bytes word) words.now) ≡ None }

    // The input is not even asked where the words are no command.
    ensures unasked { spec.command_of (map (λ word. string_bytes word) words.now) ≡ None → input.new ≡ input.old }

    // Without faults, over a told input of fewer than 2^62 bytes, a command ends as its lines alone say, or out of memory.
    ensures complete { (command : Command) (told : List ℕ) → spec.command_of (map (λ word. string_bytes word) words.now) ≡ Some command
        → I.left input.old ≡ Some told → length told < LAST_NUMBER
        → (Rose (I.faults input.old) (I.faults input.new) → ⊥) → (Rose (O.faults output.old) (O.faults output.new) → ⊥)
        → (Rose (O.stalls output.old) (O.stalls output.new) → ⊥)
        → (result ≡ status_of (ending_at ((telling_of command).stop (lines told)))) ⊎ (result ≡ 9) }

    // No line stops `fold`: so it ends with its whole text, or out of memory.
    ensures fold { (issuer : Issuer) (aud told : List ℕ) → spec.command_of (map (λ word. string_bytes word) words.now) ≡ Some (Command.Fold issuer aud)
        → I.left input.old ≡ Some told → length told < LAST_NUMBER
        → (Rose (I.faults input.old) (I.faults input.new) → ⊥) → (Rose (O.faults output.old) (O.faults output.new) → ⊥)
        → (Rose (O.stalls output.old) (O.stalls output.new) → ⊥) → (result ≡ 0) ⊎ (result ≡ 9) }
{
    let ending = run_words(alloc, words, input, output);
    let ending = finish(ending, output);
    status(ending)
}

// Ends a run whose words could not be held, out of memory: puts the last line, and answers the exit status.
fn end_without_words<O: Sink>(output: &mut O) -> u8
    ensures { (e : Ending) × (result ≡ status_of e)
        × Finished (Ending.Ran LinesEnd.Memory) (output_state (O.written output.old) (O.faults output.old) (O.stalls output.old)) (output_state (O.written output.new) (O.faults output.new) (O.stalls output.new)) e }
{
    let ended = finish(Ending::Ran(LinesEnd::Memory), output);
    status(ended)
}

// Does what the words ask for, but for the last line.
fn run_words<I: Source, O: Sink>(
    alloc: Global,
    words: &[String],
    input: &mut I,
    output: &mut O,
) -> Ending
    ensures cause { Cause (spec.command_of (map (λ word. string_bytes word) words.now)) (moment (I.left input.old) (I.faults input.old) (O.written output.old) (O.faults output.old) (O.stalls output.old))
        (moment (I.left input.new) (I.faults input.new) (O.written output.new) (O.faults output.new) (O.stalls output.new)) result }
    ensures text { IfSome (I.left input.old) (λ told. Spoke (spec.command_of (map (λ word. string_bytes word) words.now)) told
        (moment (I.left input.old) (I.faults input.old) (O.written output.old) (O.faults output.old) (O.stalls output.old))
        (moment (I.left input.new) (I.faults input.new) (O.written output.new) (O.faults output.new) (O.stalls output.new)) result) }
    ensures unasked { spec.command_of (map (λ word. string_bytes word) words.now) ≡ None → input.new ≡ input.old }
{
    match command_of(alloc, words) {
        Ok(Some(command)) => Ending::Ran(run_command(alloc, command, input, output)),
        Ok(None) => Ending::Usage,
        Err(Memory) => Ending::Ran(LinesEnd::Memory),
    }
}

fn run_command<I: Source, O: Sink>(
    alloc: Global,
    command: Command,
    input: &mut I,
    output: &mut O,
) -> LinesEnd
    ensures cause { WhyEnded (telling_of command) (moment (I.left input.old) (I.faults input.old) (O.written output.old) (O.faults output.old) (O.stalls output.old))
        (moment (I.left input.new) (I.faults input.new) (O.written output.new) (O.faults output.new) (O.stalls output.new)) result }
    ensures text { IfSome (I.left input.old) (λ told. Wrote (telling_of command) told (moment (I.left input.old) (I.faults input.old) (O.written output.old) (O.faults output.old) (O.stalls output.old))
        (moment (I.left input.new) (I.faults input.new) (O.written output.new) (O.faults output.new) (O.stalls output.new)) result) }
{
    match command {
        Command::Fold { issuer, aud } => run_fold(alloc, issuer, aud, input, output),
        Command::Replay => replay(alloc, input, output),
    }
}

fn run_fold<I: Source, O: Sink>(
    alloc: Global,
    issuer: Issuer,
    aud: Text,
    input: &mut I,
    output: &mut O,
) -> LinesEnd
    ensures cause { WhyEnded (telling_of (Command.Fold issuer aud)) (moment (I.left input.old) (I.faults input.old) (O.written output.old) (O.faults output.old) (O.stalls output.old))
        (moment (I.left input.new) (I.faults input.new) (O.written output.new) (O.faults output.new) (O.stalls output.new)) result }
    ensures text { IfSome (I.left input.old) (λ told. Wrote (telling_of (Command.Fold issuer aud)) told (moment (I.left input.old) (I.faults input.old) (O.written output.old) (O.faults output.old) (O.stalls output.old))
        (moment (I.left input.new) (I.faults input.new) (O.written output.new) (O.faults output.new) (O.stalls output.new)) result) }
{
    match folder_of(alloc, issuer, aud) {
        Ok(folder) => {
            let mut folder = folder;
            tell_all(alloc, &mut folder, input, output)
        }
        Err(Memory) => LinesEnd::Memory,
    }
}

// What judges the tokens of an issuer for this audience, and has heard none yet.
fn folder_of(alloc: Global, issuer: Issuer, aud: Text) -> Result<Folder, Memory>
    ensures trust { IfOk result (λ folder. folder.trust ≡ trust_of issuer aud) }
    ensures named { IfOk result (λ folder. folder.issuer ≡ issuer.iss) }
    ensures new { IfOk result (λ folder. StandsFor folder.receiver []) }
{
    let name = issuer.iss.copy(alloc)?;
    let trust = trust_from(alloc, issuer, aud)?;
    Ok(Folder::new(alloc, trust, name))
}

// The trust in one issuer, prepared for all tokens of the run.
fn trust_from(alloc: Global, issuer: Issuer, aud: Text) -> Result<PreparedTrust, Memory>
    ensures { IfOk result (λ trust. trust ≡ trust_of issuer aud) }
{
    let mut issuers = Vec::new(alloc);
    issuers.push(issuer)?;
    let trust = Trust {
        audience: aud,
        issuers: Items::of(issuers),
    };
    PreparedTrust::of(alloc, &trust)
}
