ghost use Rattle.std.specs.Prelude.{◌≡◌, ◌<◌, ◌^◌, ◌++◌, ◌∷◌, [], length, MatchBool};
ghost use mathlib.Core.List.{IsPrefix};
ghost use Rattle.sig_book.specs.Histories.{IsLonger, head_of};

use logbook::{Gain, Offer, Plain, Play, Rule, Seen, Start, Word};
use std::marker::{Brand, Model, PhantomData};

/// The rule of a book: its word is the length of its history.
pub struct Law;

impl<G> Rule<G, u64> for Law {
    ghost use Rattle.std.specs.Prelude.{[]};
    ghost use base.Fml.{ftrue};
    ghost use Rattle.sig_book.specs.Histories.{IsKept};

    ghost holds = { λ cells log. IsKept cells log };

    ghost first = { [] };

    ghost hinted = { λ n log. Unit {0} };

    ghost shows = { λ log. [] };

    ghost keeps = { λ names log. ftrue };

    ghost moves = { λ ask before after answer. Unit {0} };
}

/// Those who add to a history trade nothing.
pub struct Nothing;

impl<G> Gain<G, u64> for Nothing {
    ghost use base.Fml.{ftrue};

    ghost after = { λ names about answer. ftrue };
}

/// A step that adds an entry.
pub struct Add;

impl<G> Play<G, u64> for Add {
    ghost use Rattle.sig_book.specs.Histories.{Adds};

    ghost then = { Adds };
}

// What the step asks for is the entry.
impl<G> Plain<G, G, u64> for Add {
    ghost use Rattle.std.specs.Prelude.{None};

    ghost ask = { λ entry. entry };

    ghost state = { λ entry. None };
}

/// Which book it is, as a type: fronts of one name are of one book. Each call of a program picks it.
pub trait Naming {
    ghost use Rattle.logbook.specs.Pages.{Book};

    ghost book: { Book };
}

impl Naming for Brand {
    ghost book = { record { number = 0; log_name = 0; cells_name = 0 } };
}

/// A book with an empty history, which has no name yet.
#[derive(Drop)]
pub struct Opened<G> {
    head: Word<G, u64, Law>,
    pub seen: Seen<G, u64, Law>,
    pub ghost empty: { seen.log ≡ [] },
    pub ghost head_is: { head ≡ head_of seen.book },
}

impl<G> Opened<G> {
    /// A book. It takes no memory.
    pub fn new() -> Opened<G> {
        let (seen, mut first, _second) = Seen::open(Start::alone(), 0, 0);
        Opened {
            head: Word::tracked(0, &mut first),
            seen,
        }
    }

    /// The book under a name, and the front that has seen nothing.
    pub fn named<J: Naming>(self) -> (Book<J, G>, Front<J, G>)
        requires { self.seen.book ≡ J.book }
        ensures { result.1 ≡ [] }
    {
        let Opened { head, seen } = self;
        (
            Book {
                head,
                of: PhantomData,
            },
            Front {
                entries: 0,
                seen,
                of: PhantomData,
            },
        )
    }
}

/// The word that all threads share: the length of the history.
#[derive(Drop)]
pub struct Book<J: Naming, G> {
    head: Word<G, u64, Law>,
    of: PhantomData<J>,
    ghost head_is: { head ≡ head_of J.book },
}

/// A beginning of the history that was seen. Contracts see it as its entries.
#[derive(Drop)]
pub struct Front<J: Naming, G> {
    entries: u64,
    seen: Seen<G, u64, Law>,
    of: PhantomData<J>,
}

impl<J: Naming, G> Model for Front<J, G> {
    ghost use Rattle.std.specs.Prelude.{◌≡◌, List, length};

    ghost Value = { List G };

    ghost view = { λ f. f.seen.log };

    ghost invariant = { λ f. (f.entries ≡ length f.seen.log) × (f.seen.book ≡ J.book) };
}

impl<J: Naming, G> Front<J, G> {
    /// How many entries it has.
    pub fn len(&self) -> u64
        ensures length { result ≡ length self.now }
    {
        self.entries
    }

    /// A copy.
    pub fn again(&self) -> Front<J, G>
        ensures { result ≡ self.now }
    {
        Front {
            entries: self.entries,
            seen: self.seen.again(),
            of: PhantomData,
        }
    }

    /// Whether it begins with this other front; if not, the other is longer, and begins with it.
    pub fn covers(&self, other: &Front<J, G>) -> bool
        ensures { MatchBool result (IsPrefix other.now self.now) (IsLonger self.now other.now) }
    {
        let mut both = self.seen.again();
        both.learn(&other.seen);
        other.entries <= self.entries
    }

    /// Adds an entry behind all that was seen, and says whether it did. Where it did not, the history is longer, and was seen
    /// so far.
    pub fn add(&mut self, book: &Book<J, G>, entry: &G) -> bool
        requires room { length self.old < 2 ^ 62 }
        ensures { MatchBool result (self.new ≡ self.old ++ entry.now ∷ []) (IsLonger self.old self.new) }
    {
        let mut offer: Offer<G, u64, Law, Nothing> = self.seen.plain::<Nothing, G, Add>(entry);
        let mut pen = self.seen.no_pen();
        let entries = self.entries;
        let found = book
            .head
            .compare_exchange::<Add, Nothing>(
                entries,
                entries + 1,
                &mut self.seen,
                &mut offer,
                &mut pen,
            );
        self.entries = if found == entries { entries + 1 } else { found };
        found == entries
    }
}

unsafe impl<J: Naming + Send, G: Send> Send for Book<J, G> {}

unsafe impl<J: Naming + Sync, G: Sync> Sync for Book<J, G> {}

unsafe impl<J: Naming + Send, G: Send> Send for Front<J, G> {}

unsafe impl<J: Naming + Sync, G: Sync> Sync for Front<J, G> {}
