ghost use Rattle.std.specs.Prelude.{◌≡◌, ◌<◌, ◌≤◌, [], OnErr, OnOk, length, vec_capacity};
ghost use Rattle.std.specs.List.{insert};
ghost use Rattle.sig_memory_links.specs.Lent.{first_of, lent_one, others_of, taken_back};

use sig_json::Memory;
use std::alloc::Global;
use std::marker::Model;

/// What is handed out and comes back. It has room for all that is out.
#[derive(Drop)]
pub(crate) struct Lent<T> {
    back: Vec<T>,
    out: usize,
}

impl<T> Model for Lent<T> {
    ghost use Rattle.std.specs.Prelude.{◌+◌, ◌≤◌, vec_capacity, length};
    ghost use Rattle.sig_memory_links.specs.Lent as lent;

    ghost Value = { lent.Lent T };

    ghost view = { λ l. record { back = l.back.items; out = l.out } };

    ghost invariant = { λ l. length l.back.items + l.out ≤ vec_capacity l.back };
}

impl<T> Lent<T> {
    pub(crate) fn new(alloc: Global) -> Lent<T>
        ensures { result ≡ record { back = []; out = 0 } }
    {
        Lent {
            back: Vec::new(alloc),
            out: 0,
        }
    }

    // Makes room for one more.
    pub(crate) fn lend(&mut self) -> Result<(), Memory>
        ensures ok { OnOk result (self.new ≡ lent_one self.old) }
        ensures err { OnErr result (self.new ≡ self.old) }
    {
        let Some(out) = self.out.checked_add(1) else {
            return Err(Memory);
        };
        self.back.reserve(out)?;
        self.out = out;
        Ok(())
    }
}

impl<T: Drop> Lent<T> {
    // Keeps what comes back. Nothing is kept where none is out.
    pub(crate) fn take_back(&mut self, value: T)
        ensures { self.new ≡ taken_back value self.old.back self.old.out }
    {
        if self.out == 0 {
            return;
        }
        self.out -= 1;
        let _ = self.back.push(value);
    }

    // What came back, in order.
    pub(crate) fn back(&self) -> &[T]
        ensures { result.now ≡ self.now.back }
    {
        &self.back
    }
}

// The first of these, which is taken off.
pub(crate) fn take_first<T>(list: &mut Vec<T>) -> Option<T>
    ensures value { result ≡ first_of list.old.items }
    ensures others { list.new.items ≡ others_of list.old.items }
{
    if list.is_empty() {
        return None;
    }
    Some(list.remove(0))
}

// Puts a value in at this place, where there is room.
pub(crate) fn put_at<T: Drop>(list: &mut Vec<T>, at: usize, value: T)
    requires within { at ≤ length list.old.items }
    requires room { length list.old.items < vec_capacity list.old }
    ensures items { list.new.items ≡ insert list.old.items at value }
    ensures room { vec_capacity list.old ≤ vec_capacity list.new }
{
    let _ = list.insert(at, value);
}
