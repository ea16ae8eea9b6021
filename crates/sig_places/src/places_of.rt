ghost use Rattle.std.specs.Prelude.{◌≡◌, List, ℕ, length};

use crate::entry::{Entry, Link};
use std::marker::Model;

/// The places under a key, newest first. Contracts see the list of those that are left.
#[derive(Drop)]
pub struct PlacesOf<'a> {
    entries: &'a [Entry],
    links: &'a [Link],
    key: u64,
    number: usize,
}

impl<'a> Model for PlacesOf<'a> {
    ghost use Rattle.std.specs.Prelude.{List, ℕ, take};
    ghost use Rattle.sig_places.specs.Places.{places_of};
    ghost use Rattle.sig_places.specs.Chains.{IsChain};

    ghost Value = { List ℕ };

    ghost view = { λ p. places_of p.key (take p.number p.entries.now) };

    ghost invariant = { λ p. IsChain p.key p.number p.entries.now p.links.now };
}

impl<'a> PlacesOf<'a> {
    ghost use Rattle.sig_places.specs.Places.{places_of};
    ghost use Rattle.std.specs.Prelude.{take};
    ghost use Rattle.sig_places.specs.Chains.{IsChain};

    // Those from an entry of the key on, by its number, counted from 1; none from 0.
    pub(crate) fn from(
        entries: &'a [Entry],
        links: &'a [Link],
        key: u64,
        number: usize,
    ) -> PlacesOf<'a>
        requires { IsChain key number entries.now links.now }
        ensures { result ≡ places_of key (take number entries.now) }
    {
        PlacesOf {
            entries,
            links,
            key,
            number,
        }
    }
}

impl<'a> Iterator for PlacesOf<'a> {
    ghost use Rattle.std.specs.Iterator.{YieldsFirst, item_count};

    type Item = usize;

    ghost next_gives = { YieldsFirst (λ s. s) };

    ghost remaining = { item_count (λ s. s) };

    fn next(&mut self) -> Option<usize> {
        if self.number == 0 {
            return None;
        }
        let at = self.number - 1;
        let place = self.entries[at].place;
        self.number = self.links[at].previous;
        Some(place)
    }
}
