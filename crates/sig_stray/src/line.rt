//! The lines that name strays.

ghost use Rattle.std.specs.Prelude.{◌≡◌, ◌++◌, IfOk, map};
ghost use Rattle.sig_settings.specs.Paths.{path_text};
ghost use Rattle.sig_stray.specs.Lines as spec;

use crate::{ObjectKind, Stray, StrayKind, strays_on};
use sig_json::{Items, Memory, Text};
use sig_settings::{SettingsFault, Step, ValueFault, told};
use std::alloc::Global;

/// So many strays have lines of their own at most.
pub const LINES: usize = 16;

/// The lines over the bytes of settings of this kind: one for each of the first 16 strays, and one that says how many more there
/// are.
pub fn lines_on(alloc: Global, kind: ObjectKind, bytes: &[u8]) -> Result<Items<Text>, Memory>
    ensures { IfOk result (λ lines. lines ≡ spec.lines_on kind bytes.now) }
{
    lines_of(alloc, strays_on(alloc, kind, bytes)?)
}

fn lines_of(alloc: Global, strays: Vec<Stray>) -> Result<Items<Text>, Memory>
    ensures { IfOk result (λ lines. lines ≡ spec.lines_of strays.items) }
{
    let count = strays.len();
    let mut strays = strays;
    strays.truncate(LINES);
    let mut lines = all_lines(alloc, strays)?;
    if count > LINES {
        lines.push(more(alloc, count - LINES)?)?;
    }
    Ok(Items::of(lines))
}

// A line for each stray.
fn all_lines(alloc: Global, strays: Vec<Stray>) -> Result<Vec<Text>, Memory>
    ensures { IfOk result (λ lines. lines.items ≡ map spec.line_of strays.items) }
{
    let mut lines = Vec::new(alloc);
    for stray in strays {
        lines.push(line_of(alloc, stray)?)?;
    }
    Ok(lines)
}

fn line_of(alloc: Global, stray: Stray) -> Result<Text, Memory>
    ensures { IfOk result (λ line. line ≡ spec.line_of stray) }
{
    let Stray { kind, path } = stray;
    match kind {
        StrayKind::Unknown => with_path(alloc, "settings unknown ", path),
        StrayKind::Twice => with_path(alloc, "settings twice ", path),
    }
}

fn with_path(alloc: Global, words: &str, path: Items<Step>) -> Result<Text, Memory>
    ensures { IfOk result (λ line. line ≡ words.now ++ path_text path) }
{
    let path = path_text(alloc, path)?;
    let mut line = String::from_str(alloc, words)?;
    line.push_str(path.as_str())?;
    Ok(Text::from_string(line))
}

// The text of a path, as a fault of settings has it.
fn path_text(alloc: Global, path: Items<Step>) -> Result<Text, Memory>
    ensures { IfOk result (λ text. text ≡ path_text path) }
{
    match told(alloc, ValueFault::Wrong(path)) {
        SettingsFault::Refused(text) => Ok(text),
        SettingsFault::Memory => Err(Memory),
    }
}

fn more(alloc: Global, count: usize) -> Result<Text, Memory>
    ensures { IfOk result (λ line. line ≡ spec.more count) }
{
    let line = format!(in alloc; "settings more {count}")?;
    Ok(Text::from_string(line))
}
