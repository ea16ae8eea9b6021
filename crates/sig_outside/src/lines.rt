ghost use Rattle.std.specs.Prelude.{◌≡◌, ◌≤◌, ◌⊎◌, ℕ, [], true, IfOk, IfSome, IsErrOf};
ghost use Rattle.sig_json.specs.declared.limits.TheConstants.{LAST_NUMBER};
ghost use Rattle.sig_outside.specs.Causes.{Raised};
ghost use Rattle.sig_outside.specs.Reading.{IsFailing, IsOpen, IsSpent};
ghost use Rattle.sig_outside.specs.Lines.{Gives, Stops, has_lf, number_after};
ghost use Rattle.sig_outside.specs.Modes.{mode_once, number_once};

use crate::held::Held;
use crate::reach::read_line;
use crate::{Line, LineFault, Mode, Source};
use std::alloc::Global;
use std::marker::Model;

/// A reader of the lines of a source, which keeps what it took and has not given yet.
///
/// The caller lends the same source each time.
#[derive(Drop)]
pub struct Lines {
    held: Held,
    number: u64,
    mode: Mode,
    alloc: Global,
}

impl Model for Lines {
    ghost use Rattle.std.specs.Prelude.{ℕ, ◌+◌, ◌≤◌, length};
    ghost use Rattle.sig_json.specs.declared.limits.TheConstants.{LAST_NUMBER};
    ghost use Rattle.sig_outside.specs.Reading.{Reading};

    ghost Value = { Reading };

    ghost view = { λ l. record { kept = l.held.kept; number = l.number; taken = l.held.taken; mode = l.mode } };

    ghost invariant = { λ l. (l.number + length l.held.kept ≤ l.held.taken) × (l.held.taken ≤ LAST_NUMBER) };
}

impl Lines {
    /// A reader that has read nothing. It grows with this allocator.
    pub fn new(alloc: Global) -> Lines
        ensures { result ≡ record { kept = []; number = 0; taken = 0; mode = Mode.Open } }
    {
        Lines {
            held: Held::new(alloc),
            number: 0,
            mode: Mode::Open,
            alloc,
        }
    }

    /// The next line of the source, without the LF that ends it and one CR before that; the last line may lack its LF.
    /// It has at most `room` bytes, and is `Long` exactly where it has more.
    ///
    /// `Failed` comes exactly where the source failed, which raises its count of faults by one, and from then on. `Endless`
    /// comes exactly where a further byte is wanted and `LAST_NUMBER` bytes were taken. `Memory` comes out of memory, and
    /// from then on.
    pub fn next<S: Source>(&mut self, source: &mut S, room: usize) -> Result<Line, LineFault>
        ensures line { IfOk result (λ line. IfSome (S.left source.old) (λ left. Gives room line self.old self.new left (S.left source.new))) }
        ensures numbers { IfOk result (λ line. (self.new.number ≡ number_after self.old.number line) × (self.new.number ≤ LAST_NUMBER)) }
        ensures stays { IfOk result (λ line. IsOpen self.old × IsOpen self.new) }

        // A line that is held whole is given without asking the source.
        ensures held { has_lf self.old.kept ≡ true → source.new ≡ source.old }
        ensures failed { IsErrOf result LineFault.Failed → ((IsOpen self.old × Raised (S.faults source.old) (S.faults source.new)) ⊎ IsFailing self.old) }
        ensures failing { IsErrOf result LineFault.Failed → IsFailing self.new }
        ensures stays_failing { IsFailing self.old → IsErrOf result LineFault.Failed × (source.new ≡ source.old) }
        ensures stopped { IsErrOf result LineFault.Failed → IsOpen self.old → IfSome (S.left source.old) (λ left. Stops self.old self.new left (S.left source.new)) }
        ensures endless { (n : ℕ) → IsErrOf result (LineFault.Endless n) → (n ≡ LAST_NUMBER) × (self.new.taken ≡ LAST_NUMBER) }
        ensures endless_stopped { (n : ℕ) → IsErrOf result (LineFault.Endless n) → IfSome (S.left source.old) (λ left. Stops self.old self.new left (S.left source.new)) }
        ensures spent { IsErrOf result LineFault.Memory → IsSpent self.new }
        ensures stays_spent { IsSpent self.old → IsErrOf result LineFault.Memory × (source.new ≡ source.old) }
        ensures later { S.faults source.old ≤ S.faults source.new }
        ensures steady { (IsErrOf result LineFault.Failed → ⊥) → S.faults source.new ≡ S.faults source.old }
        ensures beside { S.beside source.new ≡ S.beside source.old }
    {
        match self.mode {
            Mode::Failing => return Err(LineFault::Failed),
            Mode::Spent => return Err(LineFault::Memory),
            Mode::Open => {}
        }
        let outcome = read_line(&mut self.held, self.alloc, source, room, self.number);
        self.number = number_of(self.number, &outcome);
        self.mode = mode_after(&outcome);
        outcome
    }

    /// Whether the next line is held whole, so that it is given without asking the source.
    pub fn holds_line(&self) -> bool
        ensures { result ≡ has_lf self.now.kept }
    {
        self.held.as_slice().contains(&b'\n')
    }
}

// The number of the last line, once this came.
fn number_of(before: u64, outcome: &Result<Line, LineFault>) -> u64
    requires { before ≤ LAST_NUMBER }
    ensures { result ≡ number_once before outcome.now }
{
    match outcome {
        Ok(Line::Text { .. }) | Ok(Line::Long { .. }) => before + 1,
        Ok(Line::End) | Err(_) => before,
    }
}

// The mode of an open reader, once this came.
fn mode_after(outcome: &Result<Line, LineFault>) -> Mode
    ensures { result ≡ mode_once outcome.now }
{
    match outcome {
        Err(LineFault::Failed) => Mode::Failing,
        Err(LineFault::Memory) => Mode::Spent,
        Ok(_) | Err(LineFault::Endless(_)) => Mode::Open,
    }
}
