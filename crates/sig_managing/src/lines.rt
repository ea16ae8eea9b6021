//! The line of a change.

ghost use Rattle.std.specs.Prelude.{◌≡◌, ◌++◌, IfOk, OnOk, codes};
ghost use Rattle.sig_event.specs.Status.{status_text};
ghost use Rattle.sig_managing.specs.Lines as spec;

use sig_event::Status;
use sig_json::{Bytes, Listed, Memory};
use sig_manager::Step;
use sig_terms::Want;
use std::alloc::Global;

// What stands for a byte that would end the line or move the cursor.
const SHOWN: u8 = b'?';

/// The line of a step, to be put once it is answered; empty where it changes nothing.
pub fn line_of(alloc: Global, step: &Step) -> Result<Bytes, Memory>
    ensures { IfOk result (λ line. line ≡ spec.line_of step.now) }
{
    match step {
        Step::Status { .. } => Ok(Bytes::new(alloc)),
        Step::Delete { stream } => named(alloc, "delete ", stream.as_str()),
        Step::Replace { stream, .. } => named(alloc, "replace ", stream.as_str()),
        Step::Create { want, .. } => named(alloc, "create ", description_in(want)),
        Step::SetStatus { stream, status } => status_line(alloc, stream.as_str(), *status),
    }
}

fn description_in(want: &Want) -> &str
    ensures { result.now ≡ spec.description_in want.now }
{
    match &want.description {
        Some(text) => text.as_str(),
        None => "",
    }
}

fn named(alloc: Global, word: &str, text: &str) -> Result<Bytes, Memory>
    ensures { IfOk result (λ line. line ≡ word.now ++ spec.on_line text.now ++ codes "\n") }
{
    let mut line = Bytes::of(alloc, word.as_bytes())?;
    put_shown(&mut line, text.as_bytes())?;
    line.add(b"\n")?;
    Ok(line)
}

fn status_line(alloc: Global, stream: &str, status: Status) -> Result<Bytes, Memory>
    ensures { IfOk result (λ line. line ≡ codes "status " ++ spec.on_line stream.now ++ codes " " ++ status_text status ++ codes "\n") }
{
    let mut line = Bytes::of(alloc, b"status ")?;
    put_shown(&mut line, stream.as_bytes())?;
    line.add(b" ")?;
    line.add(status.as_str().as_bytes())?;
    line.add(b"\n")?;
    Ok(line)
}

// A text on one line, behind what the line has.
fn put_shown(line: &mut Bytes, text: &[u8]) -> Result<(), Memory>
    ensures { OnOk result (line.new ≡ line.old ++ spec.on_line text.now) }
{
    for byte in text {
        line.add(&[shown_byte(*byte)])?;
    }
    Ok(())
}

fn shown_byte(byte: u8) -> u8
    ensures { result ≡ spec.shown_byte byte }
{
    if byte < 32 || byte == 127 {
        SHOWN
    } else {
        byte
    }
}
