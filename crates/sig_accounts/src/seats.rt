ghost use Rattle.std.specs.Prelude.{◌≡◌, ◌<◌, ◌||◌, ℕ, [], IfOk, OnOk, filter, nat_eq, not};
ghost use Rattle.std.specs.List.{list_any};

use sig_json::Memory;
use std::alloc::Global;
use std::marker::Model;

/// Seats of streams. Contracts see them, and for how many further ones there is room.
pub struct Seats {
    list: Vec<usize>,
}

impl Drop for Seats {
    fn drop(self) {
        let Seats { list } = self;
        drop(list);
    }
}

impl Model for Seats {
    ghost use Rattle.std.specs.Prelude.{◌-◌, vec_len, vec_capacity};
    ghost use Rattle.sig_accounts.specs.Listening.{Seating};

    ghost Value = { Seating };

    ghost view = { λ s. record { seats = s.list.items; room = vec_capacity s.list - vec_len s.list } };
}

impl Seats {
    /// None. It takes no memory.
    pub fn new(alloc: Global) -> Seats
        ensures { result ≡ record { seats = []; room = 0 } }
    {
        Seats {
            list: Vec::new(alloc),
        }
    }

    /// The same ones.
    pub fn copy(&self, alloc: Global) -> Result<Seats, Memory>
        ensures { IfOk result (λ s. s.seats ≡ self.now.seats) }
    {
        Ok(Seats {
            list: Vec::from_slice(alloc, self.list.as_slice())?,
        })
    }

    /// All of them.
    pub fn as_slice(&self) -> &[usize]
        ensures { result.now ≡ self.now.seats }
    {
        self.list.as_slice()
    }

    /// Room for one more.
    pub fn reserve(&mut self) -> Result<(), Memory>
        ensures same { self.new.seats ≡ self.old.seats }
        ensures ok { OnOk result (0 < self.new.room) }
    {
        self.list.reserve(1)?;
        Ok(())
    }

    /// Puts one among them, unless it is there. It takes no memory.
    pub fn add(&mut self, seat: usize)
        requires { 0 < self.old.room }
        ensures { (n : ℕ) → list_any (nat_eq n) self.new.seats ≡ (list_any (nat_eq n) self.old.seats || nat_eq n seat) }
    {
        if !self.list.contains(&seat) {
            // There is room, so the push keeps the seat.
            let _ = self.list.push(seat);
        }
    }

    /// Takes one off.
    pub fn remove(&mut self, seat: usize)
        ensures { self.new.seats ≡ filter (λ n. not (nat_eq n seat)) self.old.seats }
    {
        self.list.retain(|other| *other != seat);
    }
}
