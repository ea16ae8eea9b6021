//! A node under a lock, which several links ask, one at a time.

ghost use Rattle.std.proofs.Props.{props};
ghost use Rattle.std.specs.Prelude.{◌≡◌, IfSome, Option, Some};
ghost use Rattle.sig_desk.specs.Keeping.{IsKept};
ghost use Rattle.sig_desk.specs.Settling.{IsOf};

use sig_book::{Book, Naming};
use sig_desk::{Desk, Receipt};
use sig_logs::{Logged, Watched};
use std::marker::{Brand, PhantomData};
use std::snapshot::Snapshot;

/// A kind of node with the logs of its links, and what of it lasts whatever its links ask.
///
/// Its meaning `follows` says of a node that its watch began with the state of another, and what of that one it keeps since.
pub trait Lasting {
    type Node: Watched<Turn: Drop>;

    type Log: Logged<Turn = <Self::Node as Watched>::Turn> + Drop;

    /// What is known beside the node, under its lock, and outlasts a watch: as which errands are to be done. No contract speaks
    /// of it.
    type Company;

    ghost follows: { Self.Node → Self.Node → Type 0 };

    /// That it follows has one proof, so that it may hold of what a lock hides.
    ghost follows_once: { (before now : Self.Node) → IsProp (follows before now) };
}

/// A node before its watch was opened, as a type: of what a lock holds a contract knows just what its type says.
pub trait Opened<N> {
    ghost before: { Option N };
}

impl<N> Opened<N> for Brand {
    ghost use Rattle.std.specs.Prelude.{None};

    ghost before = { None };
}

/// A node that several links ask, one at a time, and the turns of those that are open. Whatever they ask, it follows the node
/// before its watch was opened, and the desk has kept the node's turns.
pub struct Shared<E: Lasting, O: Opened<E::Node> + Naming> {
    /// The node.
    pub node: E::Node,
    /// The turns of the links that are open, and the history of the logs of those that have ended.
    pub desk: Desk<O, E::Log, <E::Node as Watched>::Turn>,
    /// What is known beside the node.
    pub company: E::Company,
    book: Book<O, E::Log>,
    before: Snapshot<E::Node>,
    opened: PhantomData<O>,
    pub ghost same: { ∥ Some before.value ≡ O.before ∥₁ },
    pub ghost follows: { ∥ E.follows before.value node ∥₁ },
    pub ghost keeps: { IsKept E.Node.Turn.link_of E.Log.number_of E.Log.turns_of desk (E.Node.turns_of node) } by { Prim.hlevel props },
}

impl<E: Lasting, O: Opened<E::Node> + Naming> Shared<E, O> {
    /// A node whose watch was just opened, what it was before, an empty desk, and what is known beside the node.
    pub fn new(
        node: E::Node,
        before: Snapshot<E::Node>,
        desk: Desk<O, E::Log, <E::Node as Watched>::Turn>,
        company: E::Company,
        book: Book<O, E::Log>,
    ) -> Shared<E, O>
        requires same { Some before.value ≡ O.before }
        requires follows { E.follows before.value node }
        requires keeps { IsKept E.Node.Turn.link_of E.Log.number_of E.Log.turns_of desk (E.Node.turns_of node) }
    {
        Shared {
            node,
            desk,
            company,
            book,
            before,
            opened: PhantomData,
        }
    }

    /// Ends the link of this log, whose turns are compared with it and dropped.
    pub fn end(&mut self, log: &E::Log) -> Receipt<O, E::Log>
        ensures { IsOf E.Log.number_of log.now result }
    {
        self.desk.end(&self.book, log)
    }

    /// The node, its desk and what is known beside it, once no link asks it any more.
    pub fn into_parts(
        self,
    ) -> (
        E::Node,
        Desk<O, E::Log, <E::Node as Watched>::Turn>,
        E::Company,
    )
        ensures follows { IfSome O.before (λ before. E.follows before result.0) }
        ensures keeps { IsKept E.Node.Turn.link_of E.Log.number_of E.Log.turns_of result.1 (E.Node.turns_of result.0) }
    {
        let Shared {
            node,
            desk,
            company,
            book: _,
            before: _,
            opened: _,
        } = self;
        (node, desk, company)
    }
}
