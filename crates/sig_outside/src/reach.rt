ghost use Rattle.std.specs.Prelude.{◌≡◌, ◌≤◌, ◌<◌, ◌+◌, ◌^◌, ℕ, List, [], ◌∷◌, ◌++◌, true, length, take, drop, IfOk, IfErr, OnErr, OnOk, IsOkAnd};
ghost use Rattle.std.specs.Str.Lines.{strip_carriage_return};
ghost use Rattle.sig_json.specs.declared.limits.TheConstants.{LAST_NUMBER};
ghost use Rattle.sig_outside.specs.Held.{Grows, Halts};
ghost use Rattle.sig_outside.specs.Lines.{HasNoLf, has_lf};
ghost use Rattle.sig_outside.specs.Reached.{HaltsWithin, IsLastOf, IsLineOf, IsNewline, Reaches, Skips, Yields};

use crate::held::{Held, newline_from};
use crate::{Line, LineFault, Source};
use sig_json::{Bytes, Memory};
use std::alloc::Global;

/// Where the first line of what is kept ends.
#[derive(Clone, Copy, Drop)]
pub enum Reach {
    /// At the LF of this place.
    Newline(usize),
    /// At the end of the input.
    Last,
    /// Further on, past all room.
    Over,
}

/// The first line of what is kept and what the source gives, as the line after the one of this number.
pub fn read_line<S: Source>(
    held: &mut Held,
    alloc: Global,
    source: &mut S,
    room: usize,
    before: u64,
) -> Result<Line, LineFault>
    requires { before ≤ LAST_NUMBER }
    ensures line { IfOk result (λ line. Yields room before line held.old held.new (S.left source.old) (S.left source.new)) }
    ensures asks { has_lf held.old.kept ≡ true → source.new ≡ source.old }
    ensures halts { IfErr result (λ e. Halts e held.new.taken (S.faults source.old) (S.faults source.new)) }
    ensures within { IfErr result (λ e. HaltsWithin e held.old held.new (S.left source.old) (S.left source.new)) }
    ensures room { OnErr result (length held.new.kept + held.old.taken ≤ length held.old.kept + held.new.taken) }
    ensures counted { held.new.taken ≤ LAST_NUMBER }
    ensures beside { S.beside source.new ≡ S.beside source.old }
    ensures later { S.faults source.old ≤ S.faults source.new }
    ensures steady { OnOk result (S.faults source.new ≡ S.faults source.old) }
{
    match find_end(held, source, room) {
        Err(fault) => Err(fault),
        Ok(Reach::Newline(at)) => {
            let front = held.as_slice().split_at(at).0;
            let line = line_of(alloc, strip(front), room, before)?;
            held.advance(at + 1);
            Ok(line)
        }
        Ok(Reach::Last) => {
            let line = last_line(alloc, held.as_slice(), room, before)?;
            held.clear();
            Ok(line)
        }
        Ok(Reach::Over) => match skip_line(held, source) {
            Err(fault) => Err(fault),
            Ok(()) => Ok(Line::Long { number: before + 1 }),
        },
    }
}

// Takes pieces until the end of the first line is kept, or more than there is room for.
fn find_end<S: Source>(held: &mut Held, source: &mut S, room: usize) -> Result<Reach, LineFault>
    ensures grows { IfOk result (λ r. Grows held.old held.new (S.left source.old) (S.left source.new)) }
    ensures reaches { IfOk result (λ r. Reaches r room held.new.kept (S.left source.new)) }
    ensures asks { has_lf held.old.kept ≡ true → (source.new ≡ source.old) × (IsOkAnd result IsNewline) }
    ensures halts { IfErr result (λ e. Halts e held.new.taken (S.faults source.old) (S.faults source.new)) }
    ensures within { IfErr result (λ e. HaltsWithin e held.old held.new (S.left source.old) (S.left source.new)) }
    ensures room { OnErr result (length held.new.kept + held.old.taken ≤ length held.old.kept + held.new.taken) }
    ensures counted { held.new.taken ≤ LAST_NUMBER }
    ensures beside { S.beside source.new ≡ S.beside source.old }
    ensures later { S.faults source.old ≤ S.faults source.new }
    ensures steady { OnOk result (S.faults source.new ≡ S.faults source.old) }
{
    match newline_from(held.as_slice(), 0) {
        Some(at) => Ok(Reach::Newline(at)),
        None => find_further(held, source, room),
    }
}

// The same where no LF is kept yet.
fn find_further<S: Source>(held: &mut Held, source: &mut S, room: usize) -> Result<Reach, LineFault>
    requires { HasNoLf held.old.kept }
    ensures grows { IfOk result (λ r. Grows held.old held.new (S.left source.old) (S.left source.new)) }
    ensures reaches { IfOk result (λ r. Reaches r room held.new.kept (S.left source.new)) }
    ensures halts { IfErr result (λ e. Halts e held.new.taken (S.faults source.old) (S.faults source.new)) }
    ensures within { IfErr result (λ e. HaltsWithin e held.old held.new (S.left source.old) (S.left source.new)) }
    ensures room { OnErr result (length held.new.kept + held.old.taken ≤ length held.old.kept + held.new.taken) }
    ensures counted { held.new.taken ≤ LAST_NUMBER }
    ensures beside { S.beside source.new ≡ S.beside source.old }
    ensures later { S.faults source.old ≤ S.faults source.new }
    ensures steady { OnOk result (S.faults source.new ≡ S.faults source.old) }
{
    'pieces: loop {
        let searched = held.as_slice().len();
        if searched > room.saturating_add(1) {
            return Ok(Reach::Over);
        }
        match held.fill(source) {
            Err(fault) => return Err(fault),
            Ok(0) => return Ok(Reach::Last),
            Ok(_) => {}
        }
        if let Some(at) = newline_from(held.as_slice(), searched) {
            return Ok(Reach::Newline(at));
        }
    }
}

// Passes over the rest of a line that is too long. Its bytes are let go as they come.
fn skip_line<S: Source>(held: &mut Held, source: &mut S) -> Result<(), LineFault>
    requires { HasNoLf held.old.kept }
    ensures skips { OnOk result (Skips held.old held.new (S.left source.old) (S.left source.new)) }
    ensures halts { IfErr result (λ e. Halts e held.new.taken (S.faults source.old) (S.faults source.new)) }
    ensures within { IfErr result (λ e. HaltsWithin e held.old held.new (S.left source.old) (S.left source.new)) }
    ensures room { OnErr result (length held.new.kept + held.old.taken ≤ length held.old.kept + held.new.taken) }
    ensures counted { held.new.taken ≤ LAST_NUMBER }
    ensures beside { S.beside source.new ≡ S.beside source.old }
    ensures later { S.faults source.old ≤ S.faults source.new }
    ensures steady { OnOk result (S.faults source.new ≡ S.faults source.old) }
{
    'pieces: loop {
        held.clear();
        match held.fill(source) {
            Err(fault) => return Err(fault),
            Ok(0) => return Ok(()),
            Ok(_) => {}
        }
        if let Some(end) = newline_from(held.as_slice(), 0) {
            held.advance(end + 1);
            return Ok(());
        }
    }
}

// The bytes without the CR at their end.
fn strip(bytes: &[u8]) -> &[u8]
    ensures { result.now ≡ strip_carriage_return bytes.now }
{
    match bytes.last() {
        Some(b'\r') => bytes.split_at(bytes.len() - 1).0,
        _ => bytes,
    }
}

// The line of these bytes, after the one of this number.
fn line_of(alloc: Global, bytes: &[u8], room: usize, before: u64) -> Result<Line, Memory>
    requires { before ≤ LAST_NUMBER }
    ensures { IfOk result (λ line. IsLineOf room before bytes.now line) }
{
    let number = before + 1;
    if bytes.len() > room {
        return Ok(Line::Long { number });
    }
    let bytes = Bytes::of(alloc, bytes)?;
    Ok(Line::Text { number, bytes })
}

// The line of the last bytes of the input, where there are some.
fn last_line(alloc: Global, bytes: &[u8], room: usize, before: u64) -> Result<Line, Memory>
    requires { before ≤ LAST_NUMBER }
    ensures { IfOk result (λ line. IsLastOf room before bytes.now line) }
{
    if bytes.is_empty() {
        return Ok(Line::End);
    }
    line_of(alloc, bytes, room, before)
}
