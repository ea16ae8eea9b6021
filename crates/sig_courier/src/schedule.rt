ghost use Rattle.std.specs.Prelude.{◌≡◌, ◌≤◌, ◌∷◌, [], ◌++◌, List, ℕ, IsOk, OnErr, OnOk, bytes_eq, false, true};
ghost use Rattle.sig_json.specs.declared.limits.TheConstants.{LAST_NUMBER};
ghost use Rattle.sig_courier.specs.Schedule.{IsLogged, StaysKnown, StaysLogged, due, is_known, late_in};
ghost use Rattle.sig_courier.specs.declared.attempt.Attempt.{Attempt};

use crate::Attempt;
use crate::late::Late;
use indexmap::IndexMap;
use sig_json::{Memory, Text};
use std::alloc::Global;
use std::marker::Model;

/// When each stream is due, by the attempts that were noted. It keeps its allocator, and one entry a stream.
///
/// Contracts see the entries: how late each stream is, by its name. By `IsLogged` that is what the log of all attempts says.
#[derive(Drop)]
pub struct Schedule {
    alloc: Global,
    lates: IndexMap<Text, Late>,
}

impl Model for Schedule {
    ghost use Rattle.std.specs.Prelude.{ℕ, List};
    ghost use Rattle.sig_courier.specs.declared.late.Late.{Late};

    ghost Value = { List (List ℕ × Late) };

    ghost view = { λ s. s.lates.entries };
}

impl Schedule {
    /// No attempt yet. It keeps the allocator and takes no memory.
    pub fn new(alloc: Global) -> Schedule
        ensures { IsLogged result [] }
    {
        Schedule {
            alloc,
            lates: IndexMap::new(alloc),
        }
    }

    /// When the stream is due by the attempts that were noted, in seconds since 1970: 0 where it has none or its last one was
    /// good. It is one look-up, and takes no memory.
    pub fn due_at(&self, stream: &Text) -> u64
        ensures { (log : List Attempt) → IsLogged self.now log → result ≡ due log stream.now }
    {
        self.late(stream).due
    }

    /// How late each stream is of which something is kept, by its name.
    pub fn lates(&self) -> &IndexMap<Text, Late>
        ensures { result.now.entries ≡ self.now }
    {
        &self.lates
    }

    /// Makes room for the notes of a stream's attempts. Out of memory is its only error, and comes only where there was no
    /// room. No attempt is noted, and streams for which there was room have it still.
    pub fn make_room(&mut self, stream: &Text) -> Result<(), Memory>
        ensures known { OnOk result (is_known self.new stream.now ≡ true) }
        ensures same { StaysLogged self.old self.new }
        ensures there { is_known self.old stream.now ≡ true → IsOk result }
        ensures stays { StaysKnown self.old self.new }
    {
        if self.lates.contains_key(stream) {
            return Ok(());
        }
        let name = stream.copy(self.alloc)?;
        self.lates.insert(name, Late::NOT)?;
        Ok(())
    }

    /// Notes an attempt of a stream for which there is room: it is last in the log. It takes no memory.
    #[tactic(auto, using(crate::proofs::Noted::noted, crate::proofs::Known::stays_known))]
    pub fn note_known(&mut self, attempt: &Attempt)
        requires known { is_known self.old attempt.now.stream ≡ true }
        requires time { attempt.now.at ≤ LAST_NUMBER }
        ensures noted { (log : List Attempt) → IsLogged self.old log → IsLogged self.new (log ++ attempt.now ∷ []) }
        ensures stays { StaysKnown self.old self.new }
    {
        let late = self.late(&attempt.stream).after(attempt.at, attempt.good);
        self.set(&attempt.stream, late);
    }

    // How late a stream is.
    fn late(&self, stream: &Text) -> Late
        ensures { result ≡ late_in self.now stream.now }
    {
        match self.lates.get(stream) {
            Some(late) => *late,
            None => Late::NOT,
        }
    }

    // A stream is so late from now on, of which something is kept.
    fn set(&mut self, stream: &Text, late: Late)
        requires known { is_known self.old stream.now ≡ true }
        ensures own { late_in self.new stream.now ≡ late }
        ensures others { (other : List ℕ) → bytes_eq stream.now other ≡ false → late_in self.new other ≡ late_in self.old other }
        ensures known { is_known self.new stream.now ≡ true }
        ensures others_known { (other : List ℕ) → bytes_eq stream.now other ≡ false → is_known self.new other ≡ is_known self.old other }
    {
        if let Some(kept) = self.lates.get_mut(stream) {
            *kept = late;
        }
    }

    /// Notes an attempt: it is last in the log. After out of memory the log is as before.
    pub fn note(&mut self, attempt: &Attempt) -> Result<(), Memory>
        requires { attempt.now.at ≤ LAST_NUMBER }
        ensures noted { OnOk result ((log : List Attempt) → IsLogged self.old log → IsLogged self.new (log ++ attempt.now ∷ [])) }
        ensures memory { OnErr result (StaysLogged self.old self.new) }
    {
        self.make_room(&attempt.stream)?;
        self.note_known(attempt);
        Ok(())
    }
}
