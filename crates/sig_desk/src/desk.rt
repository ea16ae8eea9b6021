ghost use Rattle.std.specs.Prelude.{◌≡◌, ◌↔◌, ◌<◌, ◌++◌, ◌∷◌, [], true, IfOk, IfSome, IsTrue, false, MatchOption, OnOk, Some, length, vec_capacity};
ghost use Rattle.std.specs.Option.{option_to_list};
ghost use mathlib.Core.List.{IsPrefix};
ghost use Rattle.sig_desk.specs.Keeping.{KeepsOn};
ghost use Rattle.sig_logs.specs.declared.difference.Differ.TheVariants.{Turn};
ghost use Rattle.sig_desk.specs.Settling.{IsOf, IsSettled, IsShown, IsUnshown, IsUnsettled};
ghost use Rattle.sig_desk.specs.Views.{IsOpen, begun, telling};

use crate::Receipt;
use crate::marks::{are_open_after, marks_for};
use sig_book::{Book, Front, Naming};
use sig_json::Memory;
use sig_logs::{Differ, LinkTurn, Logged, place_of};
use std::alloc::{AllocError, Global};
use std::marker::Model;

// The most logs that a history may have.
const MOST_LOGS: u64 = 1 << 61;

/// The turns of the links that are open, and the history of the logs of those that have ended. Contracts see whole logs.
#[derive(Drop)]
pub struct Desk<J: Naming, G, T> {
    front: Front<J, G>,
    turns: Vec<T>,
    // By the number of a link, from 0 on.
    marks: Vec<bool>,
    differs: Option<Differ>,
}

impl<J: Naming, G, T> Model for Desk<J, G, T> {
    ghost use Rattle.std.specs.Prelude.{vec_capacity};
    ghost use Rattle.sig_desk.specs.Views.{DeskView};

    ghost Value = { DeskView G T };

    ghost view = { λ d. record { logs = d.front; turns = d.turns.items; marks = d.marks.items; differs = d.differs; room = vec_capacity d.turns } };
}

unsafe impl<J: Naming + Send, G: Send, T: Send> Send for Desk<J, G, T> {}

impl<J: Naming, G: Logged<Turn = T>, T: LinkTurn + Drop> Desk<J, G, T> {
    /// A desk for the links 1 to this one, before the first turn. Out of memory is its only error.
    pub fn new(alloc: Global, front: Front<J, G>, links: u32) -> Result<Desk<J, G, T>, Memory>
        requires { front ≡ [] }
        ensures { IfOk result (λ desk. desk ≡ begun links desk.room) }
    {
        Ok(Desk {
            front,
            turns: Vec::new(alloc),
            marks: marks_for(alloc, links)?,
            differs: None,
        })
    }

    /// Makes room for one more turn. Out of memory is its only error.
    pub fn reserve(&mut self) -> Result<(), AllocError>
        ensures keeps { KeepsOn T.link_of G.number_of G.turns_of self.old self.new [] }
        ensures room { OnOk result (length self.new.turns < self.new.room) }
    {
        self.turns.reserve(1)
    }

    /// Keeps the turn that a node kept, if it kept one, for which there is room.
    pub fn keep(&mut self, turn: Option<T>)
        requires { length self.old.turns < self.old.room }
        ensures keeps { KeepsOn T.link_of G.number_of G.turns_of self.old self.new (option_to_list turn) }
        ensures links { (self.new.marks ≡ self.old.marks) × (self.new.logs ≡ self.old.logs) }
    {
        match turn {
            Some(turn) if self.is_open(turn.link()) => self.turns.push_reserved(turn),
            Some(turn) => self.tell(turn.link(), 1),
            None => {}
        }
    }

    /// Ends the link of this log: the log is compared with the turns of its link, which are dropped, and joins the history.
    pub fn end(&mut self, book: &Book<J, G>, log: &G) -> Receipt<J, G>
        ensures keeps { KeepsOn T.link_of G.number_of G.turns_of self.old self.new [] }
        ensures of { IsOf G.number_of log.now result }
    {
        let number = log.number();
        let joined = if self.is_open(number) {
            joined(&self.front, book, log)
        } else {
            None
        };
        let is_shown = joined.is_some();
        match joined {
            Some(front) => self.close(front, log),
            None => self.tell(number, 0),
        }
        Receipt {
            number,
            is_shown,
            front: self.front.again(),
        }
    }

    /// What differs, if anything, at the end of a watch of so many links: what was told; or the first turn that is left; or, at
    /// the place 0, that a link has ended which isn't among them.
    pub fn settle(&self, links: u32) -> Option<Differ>
        ensures { MatchOption result (IsSettled links self.now) (IsUnsettled T.link_of links self.now) }
    {
        if let Some(differ) = self.differs {
            return Some(differ);
        }
        if let Some(turn) = self.turns.first() {
            return Some(Differ::Turn {
                link: turn.link(),
                place: 1,
            });
        }
        if are_open_after(self.marks.as_slice(), links) {
            None
        } else {
            Some(Differ::Turn { link: 0, place: 0 })
        }
    }

    /// Whether the history has the log of this receipt: not where the receipt shows none, or is of a longer history.
    pub fn shows(&self, receipt: &Receipt<J, G>) -> bool
        ensures shown { IsTrue result → IsShown self.now receipt.now }
        ensures unshown { result ≡ false → IsUnshown self.now receipt.now }
    {
        receipt.is_shown && self.front.covers(&receipt.front)
    }

    // Whether a link of this number may still have turns.
    fn is_open(&self, number: u32) -> bool
        ensures { IsTrue result ↔ IsOpen self.now.marks number }
    {
        matches!(self.marks.get(number as usize), Some(true))
    }

    // Ends the link of this log, which is open, once the history has the log.
    fn close(&mut self, front: Front<J, G>, log: &G)
        requires is_open { IsOpen self.old.marks (G.number_of log.now) }
        requires joined { front ≡ self.old.logs ++ log.now ∷ [] }
        ensures keeps { KeepsOn T.link_of G.number_of G.turns_of self.old self.new [] }
        ensures logs { self.new.logs ≡ front }
    {
        let number = log.number();
        let place = place_of(log.turns(), self.turns.as_slice(), number);
        self.front = front;
        self.marks[number as usize] = false;
        self.turns.retain(|turn| turn.link() != number);
        if let Some(place) = place {
            self.tell(number, place);
        }
    }

    // Tells what differs, unless something was told before.
    fn tell(&mut self, link: u32, place: u64)
        ensures { self.new ≡ telling self.old (Turn link place) }
    {
        if self.differs.is_none() {
            self.differs = Some(Differ::Turn { link, place });
        }
    }
}

// The history with this log; none where it has gone on without the desk, or has as many as it may have.
fn joined<J: Naming, G>(front: &Front<J, G>, book: &Book<J, G>, log: &G) -> Option<Front<J, G>>
    ensures { IfSome result (λ longer. longer ≡ front.now ++ log.now ∷ []) }
{
    let mut longer = front.again();
    if longer.len() < MOST_LOGS && longer.add(book, log) {
        Some(longer)
    } else {
        None
    }
}
